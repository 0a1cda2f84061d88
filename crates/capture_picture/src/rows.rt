ghost use Rattle.std.specs.Prelude.{◌≡◌, ◌∷◌, ◌++◌, [], IfOk, OnOk, length};
ghost use Rattle.capture_picture.specs.Arrows.{arrow_of, rows_from};
ghost use Rattle.sequence_picture.specs.declared.rows.Fate.TheVariants.{Arrives};
ghost use Rattle.sequence_picture.specs.declared.rows.Row.TheVariants.{Packet};

use crate::arrows::arrow_of;
use script_text::ScriptConfig;
use sequence_picture::{Fate, Row, Rows};
use spdm_basis::{Bytes, OutOfMemory};
use std::alloc::Global;

// Adds the row of a packet.
fn add_row(
    alloc: Global,
    config: &ScriptConfig,
    number: usize,
    packet: &[u8],
    rows: &mut Rows,
) -> Result<(), OutOfMemory>
    ensures { OnOk result (rows.new
        ≡ rows.old ++ Packet (arrow_of config.now number Arrives packet.now) ∷ []) }
{
    let arrow = arrow_of(alloc, config, number, Fate::Arrives, packet)?;
    rows.push(Row::Packet(arrow))
}

/// The rows of packets, counted from 1.
pub(crate) fn rows_of(
    alloc: Global,
    config: &ScriptConfig,
    packets: &[Bytes],
) -> Result<Rows, OutOfMemory>
    ensures rows { IfOk result (λ rows. rows ≡ rows_from config.now 1 packets.now) }
    ensures count { IfOk result (λ rows. length rows ≡ length packets.now) }
{
    let mut rows = Rows::new(alloc);
    for (index, packet) in packets.iter().enumerate() {
        add_row(alloc, config, index + 1, packet.as_slice(), &mut rows)?;
    }
    Ok(rows)
}
