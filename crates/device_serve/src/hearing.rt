ghost use Rattle.std.specs.Prelude.{◌≡◌, ◌<◌, ◌≤◌, length, IfSome, OnErr};
ghost use Rattle.std.specs.List.{position_from};
ghost use Rattle.device_serve.specs.Devised.{has_eid, number_in};
ghost use Rattle.device_serve.specs.Standing.{IsArrival, IsHeard, IsKept};
ghost use Rattle.responder.specs.Standing.{StandsFor};
ghost use Rattle.responder_machine.specs.Responding.{Responding};
ghost use Rattle.spdm_basis.specs.Stream.{HasFault};

use crate::lines::{write_data, write_heard};
use mctp_framing::PacketList;
use responder::{PeekRoom, Responder};
use script_text::{ReqPart, ScriptConfig};
use spdm_basis::{Eid, OutFault, Sink};

/// Gives a packet to the responder, and writes what it led to: the line of what is told, and the packets of the answer.
/// After `WriteFault` (only if the sink's `faults` count rose) a prefix of it was written.
pub(crate) fn hear<K: Sink>(
    responder: &mut Responder,
    packet: &[u8],
    out: &mut PacketList,
    sink: &mut K,
) -> Result<(), OutFault>
    requires { IsKept responder.old }
    ensures heard { (r : Responding) → StandsFor responder.old r
        → IsHeard r packet.now (K.contents sink.old) result responder.new (K.contents sink.new) }
    ensures fault { OnErr result (HasFault (K.faults sink.old) (K.faults sink.new)) }
    ensures later { K.faults sink.old ≤ K.faults sink.new }
{
    let heard = responder.on_packet(packet, out);
    match write_heard(sink, &heard, out) {
        Ok(()) => Ok(()),
        Err(fault) => Err(fault),
    }
}

// The number of the requester with this end point, counted from 1; 0 where none has it.
fn number_of(config: &ScriptConfig, eid: u8) -> u8
    requires { length config.now.requesters ≤ 8 }
    ensures { result ≡ number_in config.now eid }
{
    let requesters = config.requesters.as_slice();
    match place_of(requesters, eid) {
        Some(place) => place as u8 + 1,
        None => 0,
    }
}

// The place of the requester with this end point.
fn place_of(requesters: &[ReqPart], eid: u8) -> Option<usize>
    ensures place { result ≡ position_from (has_eid eid) 0 requesters.now }
    ensures inside { IfSome result (λ place. place < length requesters.now) }
{
    requesters.iter().position(|q| q.eid.number() == eid)
}

/// The end point that sent a packet, where it brings new application data, of which the line is written then; `None` for
/// any other packet. The fault is that of `hear`.
pub(crate) fn tell_brought<K: Sink>(
    responder: &Responder,
    config: &ScriptConfig,
    packet: &[u8],
    room: &mut PeekRoom,
    sink: &mut K,
) -> Result<Option<Eid>, OutFault>
    requires few { length config.now.requesters ≤ 8 }
    requires kept { IsKept responder.now }
    ensures arrival { (r : Responding) → StandsFor responder.now r
        → IsArrival config.now r packet.now (K.contents sink.old) result (K.contents sink.new) }
    ensures fault { OnErr result (HasFault (K.faults sink.old) (K.faults sink.new)) }
    ensures later { K.faults sink.old ≤ K.faults sink.new }
{
    match responder.peek(packet, room) {
        Some(brought) => {
            let number = number_of(config, brought.eid.number());
            match write_data(sink, number, brought.id, brought.data) {
                Ok(()) => Ok(Some(brought.eid)),
                Err(fault) => Err(fault),
            }
        }
        None => Ok(None),
    }
}
