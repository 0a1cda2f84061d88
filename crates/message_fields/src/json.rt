ghost use Rattle.std.specs.Prelude.{◌≡◌, ◌≤◌, ◌++◌, length, OnOk};
ghost use Rattle.hex.specs.Hex.{encode_lower};
ghost use Rattle.message_fields.specs.Json.{with_bytes_member, with_name, with_next_name, with_number_member, with_string, with_string_member};

use spdm_basis::{Bytes, OutOfMemory};
use trace_text::{add_number, write_pairs};

// How many bytes are written as digits at once.
const PIECE: usize = 64;

/// Appends a string: a space, and characters of which JSON escapes none between quotation marks.
pub fn add_string(word: &[u8], text: &mut Bytes) -> Result<(), OutOfMemory>
    ensures { OnOk result (text.new ≡ with_string text.old word.now) }
{
    text.extend(b" \"")?;
    text.extend(word)?;
    text.extend(b"\"")
}

/// Appends the name of a member, with its colon.
pub fn add_name(name: &[u8], text: &mut Bytes) -> Result<(), OutOfMemory>
    ensures { OnOk result (text.new ≡ with_name text.old name.now) }
{
    text.extend(b"\"")?;
    text.extend(name)?;
    text.extend(b"\":")
}

/// Appends the name of a member that follows another.
pub fn add_next_name(name: &[u8], text: &mut Bytes) -> Result<(), OutOfMemory>
    ensures { OnOk result (text.new ≡ with_next_name text.old name.now) }
{
    text.extend(b", ")?;
    add_name(name, text)
}

/// Appends a member that is a string, as `add_string` takes it.
pub fn add_string_member(name: &[u8], word: &[u8], text: &mut Bytes) -> Result<(), OutOfMemory>
    ensures { OnOk result (text.new ≡ with_string_member text.old name.now word.now) }
{
    add_next_name(name, text)?;
    add_string(word, text)
}

/// Appends a member that is a number.
pub fn add_number_member(name: &[u8], number: u64, text: &mut Bytes) -> Result<(), OutOfMemory>
    ensures { OnOk result (text.new ≡ with_number_member text.old name.now number) }
{
    add_next_name(name, text)?;
    add_number(number, text)
}

// Appends the pairs of digits of a few bytes.
fn add_piece(piece: &[u8], text: &mut Bytes) -> Result<(), OutOfMemory>
    requires { length piece.now ≤ PIECE }
    ensures { OnOk result (text.new ≡ text.old ++ encode_lower piece.now) }
{
    let mut room = [0; 2 * PIECE];
    let (digits, _) = room.split_at_mut(2 * piece.len());
    write_pairs(piece, digits);
    text.extend(digits)
}

// Appends the pairs of digits of bytes.
fn add_pairs(bytes: &[u8], text: &mut Bytes) -> Result<(), OutOfMemory>
    ensures { OnOk result (text.new ≡ text.old ++ encode_lower bytes.now) }
{
    for piece in bytes.chunks(PIECE) {
        add_piece(piece, text)?;
    }
    Ok(())
}

/// Appends a member that is the string of the pairs of digits of bytes.
pub fn add_bytes_member(name: &[u8], bytes: &[u8], text: &mut Bytes) -> Result<(), OutOfMemory>
    ensures { OnOk result (text.new ≡ with_bytes_member text.old name.now bytes.now) }
{
    add_next_name(name, text)?;
    text.extend(b" \"")?;
    add_pairs(bytes, text)?;
    text.extend(b"\"")
}
