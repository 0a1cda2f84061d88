ghost use Rattle.std.specs.Prelude.{◌≡◌, ◌≤◌, ◌<◌, [], true, length};
ghost use Rattle.requester.specs.SetUp.{IsPart};
ghost use Rattle.requester_machine.specs.Setup.{ReqSetup};
ghost use Rattle.spdm_machine.specs.Packets.{packets_to};
ghost use Rattle.spdm_grammar.specs.declared.names.TheConstants.{MAX_BODY_SIZE};

use crate::part::Part;
use mctp_framing::PacketList;

// Overwrites `out` with the packets of a message with this tag. A body has at least its message type.
pub(crate) fn send(part: &Part, tag: u8, body: &[u8], out: &mut PacketList)
    requires { length body.now ≤ MAX_BODY_SIZE }
    ensures { (q : ReqSetup) → IsPart part.now q → tag < 8 → 0 < length body.now
        → out.new ≡ packets_to q.responder q.eid true tag q.unit body.now }
{
    if !body.is_empty() {
        out.fill(body, usize::from(part.unit), part.route(tag));
    }
}
