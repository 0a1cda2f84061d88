ghost use Rattle.std.specs.Prelude.{◌≡◌, ℕ, Err, IfOk, List, Ok};
ghost use Rattle.capture_picture.specs.Arrows.{arrow_by, arrow_of, fault_word};
ghost use Rattle.mctp_framing.specs.Packet.{view_of};

use crate::contents::{counted, of_packet};
use crate::ends::{end_of, requesters_of};
use mctp_framing::{Packet, PacketView};
use script_text::ScriptConfig;
use sequence_picture::{Arrow, Fate, Style};
use spdm_basis::{OutOfMemory, PacketFault};
use std::alloc::Global;

// The word for why bytes are no packet.
fn fault_word(fault: PacketFault) -> &'static [u8]
    ensures { result.now ≡ fault_word fault }
{
    match fault {
        PacketFault::Short => b"short",
        PacketFault::WrongVersion => b"wrong-version",
    }
}

// The arrow of a packet that was read.
fn of_view(
    alloc: Global,
    config: &ScriptConfig,
    number: usize,
    fate: Fate,
    view: &PacketView<'_>,
) -> Result<Arrow, OutOfMemory>
    ensures { (packet : List ℕ) → IfOk result (λ arrow. arrow
        ≡ arrow_by config.now number fate packet (Ok (view_of view.now))) }
{
    let content = of_packet(alloc, view)?;
    Ok(Arrow {
        number,
        from: end_of(config, view.from),
        to: end_of(config, view.to),
        style: content.style,
        fate,
        label: content.label,
    })
}

// The arrow of bytes that are no packet.
fn of_fault(
    alloc: Global,
    config: &ScriptConfig,
    number: usize,
    fate: Fate,
    packet: &[u8],
    fault: PacketFault,
) -> Result<Arrow, OutOfMemory>
    ensures { IfOk result (λ arrow. arrow
        ≡ arrow_by config.now number fate packet.now (Err fault)) }
{
    let content = counted(alloc, Style::Unread, fault_word(fault), packet.len())?;
    let other = requesters_of(config) + 1;
    Ok(Arrow {
        number,
        from: other,
        to: other,
        style: content.style,
        fate,
        label: content.label,
    })
}

/// The arrow of the packet with this number.
#[tactic(auto, unfolding(crate::specs::Arrows::arrow_of))]
pub fn arrow_of(
    alloc: Global,
    config: &ScriptConfig,
    number: usize,
    fate: Fate,
    packet: &[u8],
) -> Result<Arrow, OutOfMemory>
    ensures { IfOk result (λ arrow. arrow ≡ arrow_of config.now number fate packet.now) }
{
    match Packet::parse(packet) {
        Ok(view) => of_view(alloc, config, number, fate, &view),
        Err(fault) => of_fault(alloc, config, number, fate, packet, fault),
    }
}
