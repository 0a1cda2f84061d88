ghost use Rattle.std.specs.Prelude.{◌≤◌, MatchOption, length};
ghost use Rattle.check_fetched_laws.specs.AnswerTexts.{Holds, HoldsNone, IsReadBy};
ghost use Rattle.secured_record.specs.declared.TheConstants.{MAX_RECORD_SIZE, MIN_RECORD_SIZE};

use byteorder::{ByteOrder, LittleEndian};
use responder_core::Connection;
use session_keys::{behind_type, byte_at};
use spdm_basis::RecordFrame;
use spdm_grammar::names::message_type::SPDM;

// The bytes of the length before an inner message.
const SIZE_BYTES: usize = 2;

/// The SPDM message that the text of a record holds; `None` where it holds something else.
pub fn message_in(text: &[u8]) -> Option<&[u8]>
    ensures { MatchOption result (HoldsNone text.now) (λ message. Holds text.now message.now) }
{
    let size = LittleEndian::read_u16(&[byte_at(text, 0), byte_at(text, 1)]) as usize;
    if text.len() < SIZE_BYTES + size {
        return None;
    }
    let inner = text.split_at(SIZE_BYTES).1.split_at(size).0;
    if byte_at(inner, 0) != SPDM {
        return None;
    }
    Some(behind_type(inner))
}

/// What a record holds as the answer to one, which overwrites `text`: the length of its inner message as two bytes,
/// little-endian, that message, and the padding. False where the session does not open the record that is answered. The
/// connection may judge with any bytes as the large response that is fetched. Whether the answer is authentic is not
/// tested.
pub fn read_answer(
    connection: &Connection,
    request: &[u8],
    sealed: &[u8],
    text: &mut RecordFrame,
) -> bool
    requires least { MIN_RECORD_SIZE ≤ length sealed.now }
    requires most { length sealed.now ≤ MAX_RECORD_SIZE }
    ensures { IsReadBy connection.now request.now sealed.now text.new result }
{
    let mut inner = RecordFrame::new();
    let Some(key) = connection.answer_key(request, &mut inner) else {
        return false;
    };
    key.text(sealed, text);
    true
}
