ghost use Rattle.std.specs.Prelude.{◌≡◌, ◌≤◌, ◌<◌, ◌^◌, ◌==◌, ◌||◌, if◌then◌else◌, ℕ, List, length};
ghost use Rattle.responder_machine.specs.Answer.{Free, exchange_answer};
ghost use Rattle.responder_machine.specs.Place as places;
ghost use Rattle.responder_machine.specs.Setup.{RspSetup};
ghost use Rattle.spdm_grammar.specs.Message.{exchange_message};
ghost use Rattle.spdm_grammar.specs.Responses.{canonical_response};
ghost use Rattle.responder_core.specs.Free.{IsFree};
ghost use Rattle.responder_rules.specs.Place.{IsPlace};

use crate::FreeValues;
use responder_rules::Place;
use spdm_grammar::Exchange;

// What stands in PSK_EXCHANGE_RSP beside its summary, context, opaque data and verify data.
const FIELDS_LEN: usize = 12;

/// The length of the PSK_EXCHANGE_RSP to an exchange at this place, computed before any key is derived.
pub fn exchange_rsp_len(place: &Place, exchange: &Exchange<'_>, free: &FreeValues<'_>) -> usize
    ensures most { result < 2 ^ 32 }
    ensures value { (r : RspSetup) (p : places.Place) (m : List ℕ) (f : Free) → IsPlace place.now p
        → IsFree free.now f → result ≡ length (canonical_response
        (exchange_answer r p m f (exchange_message exchange.now))) }
{
    let hash_len = place.choice.hash.size();
    let summary_len = summary_len(hash_len, exchange.summary);
    FIELDS_LEN + summary_len + free.context.len() + free.exchange_opaque.len() + hash_len
}

// The length of a summary: there are two kinds, and no other asks for one.
fn summary_len(hash_len: usize, kind: u8) -> usize
    ensures value { result ≡ (if kind == 1 || kind == 255 then hash_len else 0) }
    ensures most { result ≤ hash_len }
{
    if kind == 1 || kind == 255 {
        hash_len
    } else {
        0
    }
}
