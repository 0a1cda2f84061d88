ghost use Rattle.std.specs.Prelude.{◌≤◌, length};
ghost use Rattle.capture_difference.specs.Written.{IsReadJudged};

use crate::{Difference, judge};
use script_text::{ScriptFault, TEXT_LIMIT, parse_capture};
use std::alloc::Global;

/// What is told of the capture that a text is. The fault is that of the first bad line, or allocation failure.
pub(crate) fn read_judged(alloc: Global, text: &[u8]) -> Result<Option<Difference>, ScriptFault>
    requires { length text.now ≤ TEXT_LIMIT }
    ensures { IsReadJudged text.now result }
{
    let capture = match parse_capture(alloc, text) {
        Ok(capture) => capture,
        Err(fault) => return Err(fault),
    };
    match judge(alloc, &capture) {
        Ok(told) => Ok(told),
        Err(_) => Err(ScriptFault::OutOfMemory),
    }
}
