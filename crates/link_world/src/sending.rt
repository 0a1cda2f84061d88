ghost use Rattle.std.specs.Prelude.{◌≡◌, ◌≤◌, length};
ghost use Rattle.link_world.specs.Sending.{IsSent};
ghost use Rattle.world_machine.specs.Trace.{packets_max};

use crate::event_text::EventText;
use crate::lines::push_packet;
use crate::{SendFault, SentPackets};
use mctp_framing::PacketList;
use spdm_basis::Bytes;

/// Sends packets: they wait from now on, and their lines are appended to `text`. After `LinkFull` those that had room
/// were sent, and their lines appended.
pub(crate) fn send_packets(
    packets: &PacketList,
    sent: &mut SentPackets,
    text: &mut EventText,
) -> Result<(), SendFault>
    ensures { length sent.old ≤ packets_max
        → IsSent sent.old packets.now text.old sent.new text.new result }
{
    send_each(packets, sent, &mut text.text)
}

// The same, over the text alone.
fn send_each(
    packets: &PacketList,
    sent: &mut SentPackets,
    text: &mut Bytes,
) -> Result<(), SendFault>
    ensures { length sent.old ≤ packets_max
        → IsSent sent.old packets.now text.old sent.new text.new result }
{
    for index in 0..packets.len() {
        let Some(packet) = packets.get(index) else {
            unreachable!()
        };
        sent.push(packet)?;
        push_packet(sent.count(), packet, text).map_err(|_| SendFault::OutOfMemory)?;
    }
    Ok(())
}
