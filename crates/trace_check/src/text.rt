ghost use Rattle.std.specs.Prelude.{◌≤◌, length};
ghost use Rattle.trace_check.specs.Texts.{IsCheckedText};

use crate::check;
use check_laws::Verdict;
use script_text::{ScriptFault, TEXT_LIMIT, parse_capture};
use std::alloc::Global;

/// The verdict on the capture that a text is. The fault is that of the first bad line, and the first that it has, or
/// allocation failure.
pub fn check_text(alloc: Global, text: &[u8]) -> Result<Verdict, ScriptFault>
    requires { length text.now ≤ TEXT_LIMIT }
    ensures { IsCheckedText text.now result }
{
    let capture = match parse_capture(alloc, text) {
        Ok(capture) => capture,
        Err(fault) => return Err(fault),
    };
    match check(alloc, &capture) {
        Ok(verdict) => Ok(verdict),
        Err(_) => Err(ScriptFault::OutOfMemory),
    }
}
