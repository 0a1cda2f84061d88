ghost use Rattle.std.specs.Prelude.{◌≡◌, ◌≤◌, length, take, true, IfSome, is_some};
ghost use Rattle.device_serve.specs.Replies.{answer_in};
ghost use Rattle.device_serve.specs.Standing.{answer_read};
ghost use Rattle.script_text.specs.HexWords.{bytes_of, is_hex_in, is_none_word, most_bytes};

use script_text::MOST_BYTES;

/// How a packet that waits is answered.
#[derive(Clone, Copy, Debug, PartialEq, Eq)]
pub(crate) enum Said {
    /// Without data.
    Nothing,
    /// With data, of which this is the number of bytes.
    Bytes { count: usize },
}

// Whether a word is the one for no bytes.
fn is_none_word(word: &[u8]) -> bool
    ensures { result ≡ is_none_word word.now }
{
    word == b"-".as_slice()
}

// Writes the bytes that a word of a script is into the front of a room, and returns their number; `None` where it is none.
#[tactic(auto, unfolding(script_text::specs::HexWords::is_hex_in))]
fn bytes_into(word: &[u8], room: &mut [u8; MOST_BYTES]) -> Option<usize>
    ensures valid { is_some result ≡ is_hex_in 0 most_bytes word.now }
    ensures value { IfSome result (λ count. take count room.new ≡ bytes_of word.now) }
{
    if is_none_word(word) {
        return Some(0);
    }
    let count = word.len() / 2;
    if count == 0 {
        return None;
    }
    if count > MOST_BYTES {
        return None;
    }
    let (into, _) = room.split_at_mut(count);
    match hex::decode_to_slice(word, into) {
        Ok(()) => Some(count),
        Err(_) => None,
    }
}

/// What a line says of the packet that waits: `none`, or `reply` and bytes, which are the first in the room then. `None`
/// where it is neither.
#[tactic(auto, unfolding(crate::specs::Replies::answer_in))]
pub(crate) fn said_in(line: &[u8], room: &mut [u8; MOST_BYTES]) -> Option<Said>
    ensures { answer_read result room.new ≡ answer_in line.now }
{
    if line == b"none".as_slice() {
        return Some(Said::Nothing);
    }
    if line.len() < 6 {
        return None;
    }
    let (front, word) = line.split_at(6);
    if front != b"reply ".as_slice() {
        return None;
    }
    match bytes_into(word, room) {
        Some(count) => Some(Said::Bytes { count }),
        None => None,
    }
}
