ghost use Rattle.std.specs.Prelude.{◌≡◌, ◌<◌, ◌-◌, ◌^◌, None, length, take, IfOk};
ghost use Rattle.capture_difference.specs.Difference.{IsJudged, IsSought};
ghost use Rattle.measurements.specs.Faults.{inventory_fault};
ghost use Rattle.script_ends.specs.Configured.{configuration_in};
ghost use Rattle.trace_check.specs.Limits.{AreSound};

use crate::seeking::seek_back;
use crate::{Difference, WrongByte};
use check_laws::Verdict;
use script_text::Capture;
use spdm_basis::OutOfMemory;
use std::alloc::Global;
use trace_check::check;

// The byte of which another value is enough, among so many packets of a capture, of which the last does not conform.
fn wrong_byte_in(
    alloc: Global,
    capture: &Capture,
    number: u32,
) -> Result<Option<WrongByte>, OutOfMemory>
    requires { inventory_fault capture.now.config.blocks ≡ None }
    ensures { AreSound (configuration_in capture.now.config)
        → length capture.now.packets < 2 ^ 32 - 1
        → IfOk result (IsSought (configuration_in capture.now.config)
        (take number capture.now.packets)) }
{
    let packets = capture.packets.as_slice();
    let (front, _) = packets.split_at((number as usize).min(packets.len()));
    seek_back(alloc, &capture.config, front)
}

/// What is told of a capture: nothing where it conforms, and else its first packet that does not, with the reason, and a
/// byte of which another value is enough. The measurements of its configuration have no fault. An `Err` is allocation failure.
pub fn judge(alloc: Global, capture: &Capture) -> Result<Option<Difference>, OutOfMemory>
    requires { inventory_fault capture.now.config.blocks ≡ None }
    ensures { AreSound (configuration_in capture.now.config)
        → length capture.now.packets < 2 ^ 32 - 1
        → IfOk result (IsJudged (configuration_in capture.now.config) capture.now.packets) }
{
    match check(alloc, capture)? {
        Verdict::Conforms(_) => Ok(None),
        Verdict::Differs { packet, why } => {
            let byte = wrong_byte_in(alloc, capture, packet)?;
            Ok(Some(Difference { packet, why, byte }))
        }
    }
}
