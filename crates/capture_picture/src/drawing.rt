ghost use Rattle.std.specs.Prelude.{◌≡◌, ◌≤◌, length, IsErrOf, OnErr, OnOk};
ghost use Rattle.capture_picture.specs.Arrows.{packets_picture};
ghost use Rattle.spdm_basis.specs.Stream.{HasFault, Takes, TakesPrefix};

use crate::ends::requesters_of;
use crate::rows::rows_of;
use script_text::ScriptConfig;
use sequence_picture::{Form, PictureError, write_picture};
use spdm_basis::{Bytes, Sink};
use std::alloc::Global;

/// Writes the picture of at most 100,000 packets, which are counted from 1.
pub fn draw_packets<K: Sink>(
    alloc: Global,
    form: Form,
    config: &ScriptConfig,
    packets: &[Bytes],
    sink: &mut K,
) -> Result<(), PictureError>
    requires { length packets.now ≤ 100000 }
    ensures whole { OnOk result (Takes (K.contents sink.old)
        (packets_picture form config.now packets.now) (K.contents sink.new)) }
    ensures prefix { OnErr result (TakesPrefix (K.contents sink.old)
        (packets_picture form config.now packets.now) (K.contents sink.new)) }
    ensures fault { IsErrOf result PictureError.WriteFault
        → HasFault (K.faults sink.old) (K.faults sink.new) }
    ensures later { K.faults sink.old ≤ K.faults sink.new }
{
    let Ok(rows) = rows_of(alloc, config, packets) else {
        return Err(PictureError::OutOfMemory);
    };
    match write_picture(alloc, form, requesters_of(config), &rows, sink) {
        Ok(()) => Ok(()),
        Err(fault) => Err(fault),
    }
}
