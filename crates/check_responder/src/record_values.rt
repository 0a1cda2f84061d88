ghost use Rattle.std.specs.Prelude.{◌≡◌, drop, length, take};
ghost use Rattle.byteorder.specs.Endian.{little_number};
ghost use Rattle.responder_core.specs.Free.{IsFree};
ghost use Rattle.responder_core.specs.Setup.{IsSetUp};
ghost use Rattle.responder_machine.specs.Answer.{Free};
ghost use Rattle.responder_machine.specs.Place.{session_place};
ghost use Rattle.responder_machine.specs.Session.{Events};
ghost use Rattle.responder_machine.specs.Setup.{RspSetup};
ghost use Rattle.check_responder.specs.JudgedResponder.{AreRead, AreShort};
ghost use Rattle.check_laws.specs.AnswersShown.{values_in_inner, values_in_text};
ghost use Rattle.check_responder.specs.ShownBy.{IsPlaceOf};

use crate::response_values::{AnswerPlace, values_in};
use byteorder::{ByteOrder, LittleEndian};
use responder_core::{FreeValues, Setup};
use session_keys::{APP_DATA, behind_type, byte_at};

// The length of the inner message that a text tells.
fn inner_size(text: &[u8]) -> usize
    ensures { result ≡ little_number 2 text.now }
{
    LittleEndian::read_u16(&[byte_at(text, 0), byte_at(text, 1)]) as usize
}

// What a text has after that length.
fn behind_size(text: &[u8]) -> &[u8]
    ensures { result.now ≡ drop 2 text.now }
{
    if text.len() < 2 {
        return &[];
    }
    text.split_at(2).1
}

/// The inner message of a text.
#[tactic(auto, using(std::proofs::lemmas::List::take_min))]
pub(crate) fn inner_part(text: &[u8]) -> &[u8]
    ensures { result.now ≡ take (little_number 2 text.now) (drop 2 text.now) }
{
    let rest = behind_size(text);
    rest.split_at(inner_size(text).min(rest.len())).0
}

// The padding of a text.
fn pad_part(text: &[u8]) -> &[u8]
    ensures { result.now ≡ drop (little_number 2 text.now) (drop 2 text.now) }
{
    let rest = behind_size(text);
    let size = inner_size(text);
    if size > rest.len() {
        return &[];
    }
    rest.split_at(size).1
}

// These values with another padding.
fn with_pad<'a>(values: FreeValues<'a>, pad: &'a [u8]) -> FreeValues<'a>
    ensures { (f : Free) → IsFree values.entry f → IsFree result (record f { pad = pad.now }) }
{
    FreeValues {
        id: values.id,
        context: values.context,
        exchange_opaque: values.exchange_opaque,
        nonce: values.nonce,
        measured_opaque: values.measured_opaque,
        handle: values.handle,
        reply: values.reply,
        pad,
    }
}

// These values with other application data.
fn with_reply<'a>(values: FreeValues<'a>, reply: &'a [u8]) -> FreeValues<'a>
    ensures { (f : Free) → IsFree values.entry f → IsFree result (record f { reply = reply.now }) }
{
    FreeValues {
        id: values.id,
        context: values.context,
        exchange_opaque: values.exchange_opaque,
        nonce: values.nonce,
        measured_opaque: values.measured_opaque,
        handle: values.handle,
        reply,
        pad: values.pad,
    }
}

// The values that an inner message shows which answers one.
fn inner_values<'a>(
    setup: &Setup<'_>,
    at: AnswerPlace,
    request: &[u8],
    values: FreeValues<'a>,
    inner: &'a [u8],
) -> Option<FreeValues<'a>>
    ensures { (r : RspSetup) (s : Events) (f : Free) → IsSetUp setup.now r
        → IsPlaceOf at (session_place s) → IsFree values.entry f → AreShort (session_place s) f
        → AreRead r (session_place s) (drop 1 request.now)
        (values_in_inner r s request.now f inner.now) result }
{
    if byte_at(inner, 0) == APP_DATA {
        return Some(with_reply(values, behind_type(inner)));
    }
    values_in(setup, at, behind_type(request), values, behind_type(inner))
}

/// The values that the text of a record shows which answers an inner message, where the others are the least ones.
/// `None` where the answer at them is longer than any, or has longer opaque data.
pub(crate) fn text_values<'a>(
    setup: &Setup<'_>,
    at: AnswerPlace,
    request: &[u8],
    least: FreeValues<'a>,
    text: &'a [u8],
) -> Option<FreeValues<'a>>
    ensures { (r : RspSetup) (s : Events) (f : Free) → IsSetUp setup.now r
        → IsPlaceOf at (session_place s) → IsFree least.entry f → AreShort (session_place s) f
        → AreRead r (session_place s) (drop 1 request.now)
        (values_in_text r s request.now f text.now) result }
{
    let padded = with_pad(least, pad_part(text));
    inner_values(setup, at, request, padded, inner_part(text))
}
