ghost use Rattle.std.specs.Prelude.{◌≡◌, ◌<◌, ◌≤◌, ◌+◌, ◌∷◌, [], length, IfNone};
ghost use Rattle.mctp_framing.specs.Packet.{view_of};
ghost use Rattle.mctp_framing.specs.Gathering.{broken_rule, has_wrong_size};
ghost use Rattle.mctp_framing.specs.Assembling.{goes_on, next_rule, unfinished_after};

use crate::PacketView;
use spdm_basis::DropCause;

// What the next packet of an unfinished body must have.
#[derive(Clone, Copy, Debug)]
pub(crate) struct Unfinished {
    pub(crate) owner: bool,
    pub(crate) tag: u8,
    pub(crate) sequence: u8,
    // The payload size of the first packet.
    pub(crate) unit: usize,
}

impl Unfinished {
    // What the packet after this one must have.
    pub(crate) fn after(packet: PacketView<'_>, unit: usize) -> Unfinished
        requires { packet.sequence < 4 }
        ensures { result ≡ unfinished_after (view_of packet.entry) unit }
    {
        Unfinished {
            owner: packet.owner,
            tag: packet.tag,
            sequence: (packet.sequence + 1) % 4,
            unit,
        }
    }

    // Whether a packet has the tag and the tag owner bit of the body.
    pub(crate) fn goes_on_with(&self, packet: PacketView<'_>) -> bool
        ensures { result ≡ goes_on (view_of packet.entry) self.now }
    {
        packet.tag == self.tag && packet.owner == self.owner
    }

    // The rule that a later packet of the body breaks, where `held` bytes came before it.
    pub(crate) fn broken_rule(
        &self,
        packet: PacketView<'_>,
        held: usize,
        limit: usize,
    ) -> Option<DropCause>
        requires { held ≤ limit }
        ensures rule { result ≡ next_rule limit self.now held (view_of packet.entry) }
        ensures fits { IfNone result (held + length packet.entry.payload.now ≤ limit) }
    {
        if packet.sequence != self.sequence {
            return Some(DropCause::WrongSequence);
        }
        if has_wrong_size(packet, self.unit) {
            return Some(DropCause::WrongSize);
        }
        if packet.payload.len() > limit - held {
            return Some(DropCause::TooLong);
        }
        None
    }
}

// Whether the payload of a later packet is empty, or longer than the first, or shorter and not the last.
fn has_wrong_size(packet: PacketView<'_>, unit: usize) -> bool
    ensures { result ≡ has_wrong_size (view_of packet.entry) unit }
{
    let len = packet.payload.len();
    len == 0 || len > unit || (len < unit && !packet.end)
}

// The rule that a first packet breaks.
pub(crate) fn broken_first_rule(packet: PacketView<'_>, limit: usize) -> Option<DropCause>
    ensures rule { result ≡ broken_rule limit (view_of packet.entry ∷ []) }
    ensures fits { IfNone result (length packet.entry.payload.now ≤ limit) }
{
    if packet.payload.is_empty() {
        return Some(DropCause::WrongSize);
    }
    if packet.payload[0] >= INTEGRITY_BIT {
        return Some(DropCause::IntegritySet);
    }
    if packet.payload.len() > limit {
        return Some(DropCause::TooLong);
    }
    None
}

// The integrity check bit of the first byte of a body.
const INTEGRITY_BIT: u8 = 0x80;
