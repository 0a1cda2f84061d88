ghost use Rattle.std.specs.Prelude.{◌≡◌, ◌<◌, ◌-◌, ◌^◌, None, IfOk, length};
ghost use Rattle.script_ends.specs.Configured.{configuration_in};
ghost use Rattle.check_laws.specs.Verdict.{IsVerdict};
ghost use Rattle.measurements.specs.Faults.{inventory_fault};
ghost use Rattle.trace_check.specs.Limits.{AreSound};

use crate::Checker;
use check_laws::Verdict;
use script_text::Capture;
use spdm_basis::OutOfMemory;
use std::alloc::Global;

/// Whether a capture is one that its ends could have made: the sessions that it shows, or its first packet that does
/// not conform, and why. The measurements of its configuration have no fault. It goes over the packets once. An `Err`
/// is allocation failure.
pub fn check(alloc: Global, capture: &Capture) -> Result<Verdict, OutOfMemory>
    requires { inventory_fault capture.now.config.blocks ≡ None }
    ensures { AreSound (configuration_in capture.now.config)
        → length capture.now.packets < 2 ^ 32 - 1
        → IfOk result (IsVerdict (configuration_in capture.now.config) capture.now.packets) }
{
    let mut checker = Checker::new(alloc, &capture.config)?;
    let mut number: u32 = 0;
    for packet in capture.packets.as_slice() {
        number = number.saturating_add(1);
        match checker.take(packet.as_slice())? {
            Ok(()) => {}
            Err(why) => return Ok(Verdict::Differs {
                packet: number,
                why,
            }),
        }
    }
    Ok(Verdict::Conforms(checker.into_table()))
}
