//! The report of a refused request: a code and a length. Which request is refused, in which order of tests, is decided in
//! `tested.rt`.
ghost use Rattle.std.specs.Prelude.{◌≡◌, ℕ};

use spdm_grammar::ErrorCode;

/// Why a request is refused: the code of its ERROR, and for ResponseTooLarge the length of the answer that was too
/// long.
#[derive(Clone, Copy, Debug, PartialEq, Eq)]
pub struct Refused {
    pub code: ErrorCode,
    pub answer_len: u32,
}

impl Refused {
    // A refusal of another code than ResponseTooLarge.
    pub(crate) fn with(code: ErrorCode) -> Refused
        ensures { result.code ≡ code }
    {
        Refused {
            code,
            answer_len: 0,
        }
    }
}
