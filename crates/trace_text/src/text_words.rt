ghost use Rattle.std.specs.Prelude.{◌≡◌, ◌≤◌, ◌++◌, ◌∷◌, [], length, OnOk};
ghost use Rattle.std.specs.Fmt.{decimal};
ghost use Rattle.hex.specs.Hex.{encode_lower};
ghost use Rattle.trace_text.specs.Spelling.{with_word, hex_word, requester_word};

use crate::pairs::write_pairs;
use crate::print::PIECE;
use spdm_basis::{Bytes, OutOfMemory};

/// Ends the last line of a text.
pub fn end_text_line(text: &mut Bytes) -> Result<(), OutOfMemory>
    ensures { OnOk result (text.new ≡ text.old ++ 10 ∷ []) }
{
    text.extend(b"\n")
}

/// Appends a word to the words of the last line of a text.
pub fn add_word(word: &[u8], text: &mut Bytes) -> Result<(), OutOfMemory>
    ensures { OnOk result (text.new ≡ with_word text.old word.now) }
{
    text.extend(b" ")?;
    text.extend(word)
}

// Puts the decimal digits of a number at the end of a text.
#[tactic(auto, using(std::proofs::lemmas::Fmt::decimal_step, std::proofs::lemmas::Fmt::decimal_digit))]
fn add_digits(number: u64, text: &mut Bytes) -> Result<(), OutOfMemory>
    ensures { OnOk result (text.new ≡ text.old ++ decimal number) }
{
    if number < 10 {
        return text.extend(&[b'0' + number as u8]);
    }
    add_digits(number / 10, text)?;
    text.extend(&[b'0' + (number % 10) as u8])
}

/// Appends a number to the words of the last line of a text.
pub fn add_number(number: u64, text: &mut Bytes) -> Result<(), OutOfMemory>
    ensures { OnOk result (text.new ≡ with_word text.old (decimal number)) }
{
    text.extend(b" ")?;
    add_digits(number, text)
}

// Puts pairs of hexadecimal digits at the end of a text.
fn add_pairs(bytes: &[u8], text: &mut Bytes) -> Result<(), OutOfMemory>
    ensures { OnOk result (text.new ≡ text.old ++ encode_lower bytes.now) }
{
    for piece in bytes.chunks(PIECE) {
        add_piece(piece, text)?;
    }
    Ok(())
}

// Puts the pairs of a piece at the end of a text.
fn add_piece(piece: &[u8], text: &mut Bytes) -> Result<(), OutOfMemory>
    requires { length piece.now ≤ PIECE }
    ensures { OnOk result (text.new ≡ text.old ++ encode_lower piece.now) }
{
    let mut room = [0; 2 * PIECE];
    let (digits, _) = room.split_at_mut(2 * piece.len());
    write_pairs(piece, digits);
    text.extend(digits)
}

/// Puts bytes after the words of the last line of a text.
#[tactic(auto, unfolding(crate::specs::Spelling::hex_word))]
pub fn add_hex(bytes: &[u8], text: &mut Bytes) -> Result<(), OutOfMemory>
    ensures { OnOk result (text.new ≡ with_word text.old (hex_word bytes.now)) }
{
    text.extend(b" ")?;
    if bytes.is_empty() {
        text.extend(b"-")
    } else {
        add_pairs(bytes, text)
    }
}

/// Begins a line of a text with a requester.
pub fn begin_with_requester(q: u8, text: &mut Bytes) -> Result<(), OutOfMemory>
    ensures { OnOk result (text.new ≡ text.old ++ requester_word q) }
{
    text.extend(b"q")?;
    add_digits(u64::from(q), text)
}

/// Appends a requester to the words of the last line of a text.
pub fn add_requester(q: u8, text: &mut Bytes) -> Result<(), OutOfMemory>
    ensures { OnOk result (text.new ≡ with_word text.old (requester_word q)) }
{
    text.extend(b" ")?;
    begin_with_requester(q, text)
}
