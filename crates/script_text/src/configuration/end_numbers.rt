ghost use Rattle.std.specs.Prelude.{◌≡◌, ◌≤◌, IfSome, is_some};
ghost use Rattle.script_text.specs.EndPoints.{eid_of};
ghost use Rattle.script_text.specs.Numbers.{is_number_in, value_of};

use crate::reading::numbers::number;
use crate::reading::words::word;
use spdm_basis::Eid;
use spdm_grammar::names::{MAX_MESSAGE_SIZE, MIN_DATA_TRANSFER_SIZE};

/// The numbers in the line of an end.
#[derive(Clone, Copy, Debug, PartialEq, Eq)]
pub struct EndNumbers {
    pub eid: Eid,
    pub transfer: u32,
    pub max: u32,
    pub unit: u16,
    /// BEAT of the responder, PAD of a requester.
    pub own: u8,
}

// The endpoint of the number that a word is.
fn eid(word: &[u8]) -> Option<Eid>
    ensures valid { is_some result ≡ is_number_in 8 254 word.now }
    ensures value { IfSome result (λ eid. eid ≡ eid_of (value_of word.now)) }
{
    let number = number(8, 254, word)?;
    Eid::new(number as u8)
}

impl EndNumbers {
    ghost use Rattle.std.specs.Prelude.{◌≡◌, ◌<◌, IfSome, is_some};
    ghost use Rattle.script_text.specs.Configuring.{has_numbers, numbers_of};

    /// The five numbers of a line, of which the last one is at most `limit`.
    pub fn read(limit: u8, line: &[u8]) -> Option<EndNumbers>
        ensures valid { is_some result ≡ has_numbers limit line.now }
        ensures value { IfSome result (λ numbers. numbers ≡ numbers_of line.now) }
    {
        let eid = eid(word(1, line))?;
        let transfer = number(MIN_DATA_TRANSFER_SIZE, MAX_MESSAGE_SIZE, word(2, line))?;
        let max = number(transfer, MAX_MESSAGE_SIZE, word(3, line))?;
        let unit = number(64, 1_024, word(4, line))?;
        let own = number(0, u32::from(limit), word(5, line))?;
        Some(EndNumbers {
            eid,
            transfer,
            max,
            unit: unit as u16,
            own: own as u8,
        })
    }
}
