ghost use Rattle.std.specs.Prelude.{◌≡◌, ◌≤◌, ◌||◌, IfOk, IfSome, is_some, length, take, true};
ghost use Rattle.std.specs.List.{list_all};
ghost use Rattle.hex.specs.Hex.{is_hex_digit};
ghost use Rattle.script_text.specs.HexWords.{is_none_word, is_pairs, is_hex_in, bytes_of, most_bytes};

use spdm_basis::{Bytes, OutOfMemory, Psk};
use std::alloc::Global;
use trace_text::read_pairs;

/// The greatest count of bytes that a word may be.
pub const MOST_BYTES: usize = 8_000;

/// Whether a word is the one for no bytes.
pub fn is_none_word(word: &[u8]) -> bool
    ensures { result ≡ is_none_word word.now }
{
    word == b"-".as_slice()
}

// Whether a word is one or more pairs of hexadecimal digits.
#[tactic(auto, unfolding(crate::specs::HexWords::is_pairs))]
fn is_pairs(word: &[u8]) -> bool
    ensures { result ≡ is_pairs word.now }
{
    !word.is_empty() && word.len() % 2 == 0 && has_only_digits(word)
}

fn has_only_digits(word: &[u8]) -> bool
    ensures { result ≡ list_all is_hex_digit word.now }
{
    let mut digits = true;
    for b in word {
        digits &= is_digit(*b);
    }
    digits
}

// Whether a byte is a digit. Each comparison is made, so that many bytes are tested at once.
fn is_digit(b: u8) -> bool
    ensures { result ≡ is_hex_digit b }
{
    (b >= b'0' && b <= b'9') | (b >= b'a' && b <= b'f') | (b >= b'A' && b <= b'F')
}

// How many bytes a word is, where it is bytes.
fn any_hex_len(word: &[u8]) -> Option<usize>
    ensures valid { is_some result ≡ (is_none_word word.now || is_pairs word.now) }
    ensures value { IfSome result (λ n. n ≡ length (bytes_of word.now)) }
{
    if is_none_word(word) {
        return Some(0);
    }
    if !is_pairs(word) {
        return None;
    }
    Some(word.len() / 2)
}

/// How many bytes a word is, where it is from `low` to `high`.
#[tactic(auto, unfolding(crate::specs::HexWords::is_hex_in))]
pub fn hex_len(low: usize, high: usize, word: &[u8]) -> Option<usize>
    ensures valid { is_some result ≡ is_hex_in low high word.now }
    ensures value { IfSome result (λ n. n ≡ length (bytes_of word.now)) }
    ensures low { IfSome result (λ n. low ≤ n) }
    ensures high { IfSome result (λ n. n ≤ high) }
{
    let len = any_hex_len(word)?;
    if len < low || len > high {
        return None;
    }
    Some(len)
}

// The bytes that a word of pairs is.
fn read_word(alloc: Global, word: &[u8]) -> Result<Bytes, OutOfMemory>
    requires { is_pairs word.now ≡ true }
    ensures { IfOk result (λ bytes. bytes ≡ bytes_of word.now) }
{
    let Ok(mut room) = vec![in alloc; 0u8; word.len() / 2] else {
        return Err(OutOfMemory);
    };
    read_pairs(word, room.as_mut_slice());
    Bytes::copy(alloc, room.as_slice())
}

// The bytes that a word of pairs is, where it is one.
fn pairs_bytes(alloc: Global, word: &[u8]) -> Result<Option<Bytes>, OutOfMemory>
    ensures valid { IfOk result (λ found. is_some found ≡ is_pairs word.now) }
    ensures value { IfOk result (λ found. IfSome found (λ bytes. bytes ≡ bytes_of word.now)) }
{
    if !is_pairs(word) {
        return Ok(None);
    }
    let bytes = read_word(alloc, word)?;
    Ok(Some(bytes))
}

// The bytes that a word is, where it is bytes.
fn any_bytes(alloc: Global, word: &[u8]) -> Result<Option<Bytes>, OutOfMemory>
    ensures valid { IfOk result (λ found.
        is_some found ≡ (is_none_word word.now || is_pairs word.now)) }
    ensures value { IfOk result (λ found. IfSome found (λ bytes. bytes ≡ bytes_of word.now)) }
{
    if is_none_word(word) {
        return Ok(Some(Bytes::new(alloc)));
    }
    pairs_bytes(alloc, word)
}

/// The bytes that a word is, where it is at most `MOST_BYTES`.
#[tactic(auto, unfolding(crate::specs::HexWords::is_hex_in))]
pub fn hex_bytes(alloc: Global, word: &[u8]) -> Result<Option<Bytes>, OutOfMemory>
    ensures valid { IfOk result (λ found. is_some found ≡ is_hex_in 0 most_bytes word.now) }
    ensures value { IfOk result (λ found. IfSome found (λ bytes. bytes ≡ bytes_of word.now)) }
{
    let Some(bytes) = any_bytes(alloc, word)? else {
        return Ok(None);
    };
    if bytes.as_slice().len() > MOST_BYTES {
        return Ok(None);
    }
    Ok(Some(bytes))
}

/// The bytes that a word of pairs is; none for another word.
pub fn bytes_of(alloc: Global, word: &[u8]) -> Result<Bytes, OutOfMemory>
    ensures { IfOk result (λ bytes. bytes ≡ bytes_of word.now) }
{
    if !is_pairs(word) {
        return Ok(Bytes::new(alloc));
    }
    read_word(alloc, word)
}

/// Writes the bytes that a word is, where it is at most `MOST_BYTES`, into the front of a room, and returns their
/// number.
#[tactic(auto, unfolding(crate::specs::HexWords::bytes_of))]
pub fn bytes_into(word: &[u8], room: &mut [u8]) -> usize
    requires { most_bytes ≤ length room.old }
    ensures { is_hex_in 0 most_bytes word.now ≡ true → take result room.new ≡ bytes_of word.now }
{
    let Some(count) = hex_len(1, MOST_BYTES, word) else {
        return 0;
    };
    let (into, _) = room.split_at_mut(count);
    let _ = hex::decode_to_slice(word, into);
    count
}

/// The seed that a word of 32 pairs is.
#[tactic(auto, unfolding(crate::specs::HexWords::bytes_of))]
pub fn seed_of(word: &[u8]) -> [u8; 32]
    ensures { length (bytes_of word.now) ≡ 32 → result ≡ bytes_of word.now }
{
    let mut seed = [0; 32];
    let _ = hex::decode_to_slice(word, &mut seed);
    seed
}

/// The pre-shared key that a word is: 1 to 64 bytes.
pub fn psk_of(word: &[u8]) -> Option<Psk>
    ensures valid { is_some result ≡ is_hex_in 1 64 word.now }
    ensures value { IfSome result (λ psk. psk ≡ bytes_of word.now) }
{
    let len = hex_len(1, 64, word)?;
    let mut bytes = [0; 64];
    let (room, _) = bytes.split_at_mut(len);
    let _ = hex::decode_to_slice(word, room);
    Psk::new(room)
}
