ghost use Rattle.std.specs.Prelude.{◌≡◌, ◌≤◌, ◌<◌, ◌+◌, ◌*◌, ◌++◌, ◌∷◌, [], length, codes};
ghost use Rattle.std.specs.Fmt.{decimal};
ghost use Rattle.hex.specs.Hex.{encode_lower};
ghost use Rattle.trace_text.specs.Spelling.{with_word, hex_word, code_word, id_word, requester_word};

use crate::pairs::write_pairs;
use spdm_basis::{HashBytes, Line, SessionId};

/// How many bytes a line has room for.
pub const LINE_ROOM: usize = 8_400;

/// How many bytes are encoded at once.
pub const PIECE: usize = 64;

/// How many digits a number of 64 bits has at most.
pub const MOST_DIGITS: usize = 20;

// Puts bytes at the end of a line that has room for them.
fn push(bytes: &[u8], out: &mut Line)
    requires { length out.old + length bytes.now ≤ LINE_ROOM }
    ensures text { out.new ≡ out.old ++ bytes.now }
    ensures length { length out.new ≡ length out.old + length bytes.now }
{
    out.extend(bytes).unwrap();
}

/// Begins a line with its first word.
pub fn begin(word: &[u8], out: &mut Line)
    requires { length word.now ≤ LINE_ROOM }
    ensures text { out.new ≡ word.now }
    ensures length { length out.new ≡ length word.now }
{
    out.clear();
    push(word, out);
}

/// Ends a line.
pub fn end_line(out: &mut Line)
    requires { length out.old < LINE_ROOM }
    ensures { out.new ≡ out.old ++ 10 ∷ [] }
{
    push(b"\n", out);
}

/// Puts a word after those of a line.
pub fn push_word(word: &[u8], out: &mut Line)
    requires { length out.old + 1 + length word.now ≤ LINE_ROOM }
    ensures text { out.new ≡ with_word out.old word.now }
    ensures length { length out.new ≡ length out.old + 1 + length word.now }
{
    push(b" ", out);
    push(word, out);
}

// Puts the decimal digits of a number at the end of a line.
#[tactic(auto, using(std::proofs::lemmas::Fmt::decimal_step, std::proofs::lemmas::Fmt::decimal_digit, crate::proofs::Decimals::decimal_longer, crate::proofs::Decimals::decimal_one))]
fn push_digits(number: u64, out: &mut Line)
    requires { length out.old + length (decimal number) ≤ LINE_ROOM }
    ensures text { out.new ≡ out.old ++ decimal number }
    ensures length { length out.new ≡ length out.old + length (decimal number) }
{
    if number < 10 {
        push(&[b'0' + number as u8], out);
        return;
    }
    push_digits(number / 10, out);
    push(&[b'0' + (number % 10) as u8], out);
}

// Puts pairs of hexadecimal digits at the end of a line.
fn push_pairs(bytes: &[u8], out: &mut Line)
    requires { length out.old + 2 * length bytes.now ≤ LINE_ROOM }
    ensures text { out.new ≡ out.old ++ encode_lower bytes.now }
    ensures length { length out.new ≡ length out.old + 2 * length bytes.now }
{
    for piece in bytes.chunks(PIECE) {
        push_piece(piece, out);
    }
}

// Puts the pairs of a piece at the end of a line.
fn push_piece(piece: &[u8], out: &mut Line)
    requires piece { length piece.now ≤ PIECE }
    requires room { length out.old + 2 * length piece.now ≤ LINE_ROOM }
    ensures text { out.new ≡ out.old ++ encode_lower piece.now }
    ensures length { length out.new ≡ length out.old + 2 * length piece.now }
{
    let mut room = [0; 2 * PIECE];
    let (digits, _) = room.split_at_mut(2 * piece.len());
    write_pairs(piece, digits);
    push(digits, out);
}

// The two hexadecimal digits of a byte.
fn hex_digits(byte: u8) -> [u8; 2]
    ensures { result ≡ code_word byte }
{
    let mut digits = [0u8; 2];
    write_pairs(&[byte], &mut digits);
    digits
}

/// Appends a number to the words of a line.
#[tactic(auto, using(crate::proofs::Decimals::decimal_short))]
pub fn push_number(number: u64, out: &mut Line)
    requires { length out.old + 1 + MOST_DIGITS ≤ LINE_ROOM }
    ensures text { out.new ≡ with_word out.old (decimal number) }
    ensures length { length out.new ≤ length out.old + 1 + MOST_DIGITS }
{
    push(b" ", out);
    push_digits(number, out);
}

/// Puts bytes after the words of a line.
#[tactic(auto, unfolding(crate::specs::Spelling::hex_word))]
pub fn push_hex(bytes: &[u8], out: &mut Line)
    requires { length out.old + 2 + 2 * length bytes.now ≤ LINE_ROOM }
    ensures text { out.new ≡ with_word out.old (hex_word bytes.now) }
    ensures length { length out.new ≤ length out.old + 2 + 2 * length bytes.now }
{
    if bytes.is_empty() {
        push_word(b"-", out);
    } else {
        push(b" ", out);
        push_pairs(bytes, out);
    }
}

/// Appends a code to the words of a line.
pub fn push_code(code: u8, out: &mut Line)
    requires { length out.old + 3 ≤ LINE_ROOM }
    ensures text { out.new ≡ with_word out.old (code_word code) }
    ensures length { length out.new ≡ length out.old + 3 }
{
    push_word(&hex_digits(code), out);
}

/// Puts the id of a session after the words of a line.
pub fn push_id(id: SessionId, out: &mut Line)
    requires { length out.old + 9 ≤ LINE_ROOM }
    ensures text { out.new ≡ with_word out.old (id_word id) }
    ensures length { length out.new ≡ length out.old + 9 }
{
    push(b" ", out);
    push_pairs(&id.bytes(), out);
}

/// Begins a line with a requester.
#[tactic(auto, using(crate::proofs::Decimals::decimal_short))]
pub fn begin_requester(q: u8, out: &mut Line)
    ensures text { out.new ≡ requester_word q }
    ensures length { length out.new ≤ 1 + MOST_DIGITS }
{
    begin(b"q", out);
    push_digits(u64::from(q), out);
}

/// Appends a requester to the words of a line.
#[tactic(auto, using(crate::proofs::Decimals::decimal_short))]
pub fn push_requester(q: u8, out: &mut Line)
    requires { length out.old + 2 + MOST_DIGITS ≤ LINE_ROOM }
    ensures text { out.new ≡ with_word out.old (requester_word q) }
    ensures length { length out.new ≤ length out.old + 2 + MOST_DIGITS }
{
    push_word(b"q", out);
    push_digits(u64::from(q), out);
}

/// Begins a line with the sign before the number of a line.
#[tactic(auto, using(crate::proofs::Decimals::decimal_short))]
pub fn begin_at(number: u32, out: &mut Line)
    ensures text { out.new ≡ codes "@" ++ decimal number }
    ensures length { length out.new ≤ 1 + MOST_DIGITS }
{
    begin(b"@", out);
    push_digits(u64::from(number), out);
}

/// Appends a hash to the words of a line.
pub fn push_hash(hash: &HashBytes, out: &mut Line)
    requires { length out.old + 98 ≤ LINE_ROOM }
    ensures text { out.new ≡ with_word out.old (hex_word hash.now) }
    ensures length { length out.new ≤ length out.old + 98 }
{
    push_hex(hash.as_slice(), out);
}
