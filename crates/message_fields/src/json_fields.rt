ghost use Rattle.std.specs.Prelude.{◌≡◌, ◌<◌, ◌/◌, ◌%◌, ◌^◌, ◌++◌, [], OnOk};
ghost use Rattle.message_fields.specs.JsonFields.{flag_behind, flags_json, pieces_json, with_fields, with_piece, with_value};
ghost use Rattle.message_fields.specs.Pieces.{pieces};

use crate::flags::{BITS, flag_name};
use crate::json::{add_bytes_member, add_name, add_next_name, add_number_member, add_string};
use crate::texts::number_in;
use crate::{Field, Form, Name};
use spdm_basis::{Bytes, OutOfMemory};

// Appends the flag of a bit where it is set, behind a comma where a lower one is.
fn add_flag(number: u64, bit: u32, text: &mut Bytes) -> Result<(), OutOfMemory>
    requires { bit < BITS }
    ensures { OnOk result (text.new
        ≡ text.old ++ flag_behind (number / 2 ^ bit % 2) (number % 2 ^ bit) bit) }
{
    if (number >> bit) % 2 != 1 {
        return Ok(());
    }
    if number % (1 << bit) != 0 {
        text.extend(b",")?;
    }
    add_string(flag_name(bit), text)
}

// Appends the flags of a number.
fn add_flags(number: u64, text: &mut Bytes) -> Result<(), OutOfMemory>
    ensures { OnOk result (text.new ≡ text.old ++ flags_json BITS number) }
{
    for bit in 0..BITS {
        add_flag(number, bit, text)?;
    }
    Ok(())
}

// Appends the value of a field behind its bytes.
fn add_value(form: Form, bytes: &[u8], text: &mut Bytes) -> Result<(), OutOfMemory>
    ensures { OnOk result (text.new ≡ with_value text.old form bytes.now) }
{
    match form {
        Form::Plain => Ok(()),
        Form::Number => add_number_member(b"value", number_in(bytes), text),
        Form::Capabilities => {
            add_next_name(b"flags", text)?;
            text.extend(b" [")?;
            add_flags(number_in(bytes), text)?;
            text.extend(b"]")
        }
    }
}

// Appends the object of a field.
fn add_object(name: Name, bytes: &[u8], text: &mut Bytes) -> Result<(), OutOfMemory>
    ensures { OnOk result (text.new
        ≡ with_piece text.old (record { name = name; bytes = bytes.now })) }
{
    text.extend(b"{")?;
    add_name(b"name", text)?;
    add_string(name.text(), text)?;
    add_bytes_member(b"bytes", bytes, text)?;
    add_value(name.form(), bytes, text)?;
    text.extend(b"}")
}

// Appends an object with what stands before it.
fn add_next(before: &[u8], name: Name, bytes: &[u8], text: &mut Bytes) -> Result<(), OutOfMemory>
    ensures { OnOk result (text.new
        ≡ text.old ++ with_piece before.now (record { name = name; bytes = bytes.now })) }
{
    text.extend(before)?;
    add_object(name, bytes, text)?;
    Ok(())
}

// Appends the objects of the fields of some bytes.
fn add_objects(fields: &[Field], bytes: &[u8], text: &mut Bytes) -> Result<(), OutOfMemory>
    ensures { OnOk result (text.new ≡ text.old ++ pieces_json [] (pieces fields.now bytes.now)) }
{
    let mut rest = bytes;
    let mut before: &[u8] = b"";
    for field in fields {
        let (own, others) = rest.split_at(field.size.min(rest.len()));
        add_next(before, field.name, own, text)?;
        rest = others;
        before = b", ";
    }
    if rest.is_empty() {
        return Ok(());
    }
    add_next(before, Name::Rest, rest, text)?;
    Ok(())
}

/// Appends an array with an object for each field of some bytes: a member `name`, a member `bytes` with its hexadecimal
/// digits, of a number a member `value`, and of capabilities an array `flags`; and an object for the bytes behind them,
/// if there are any. A space stands before it. After an `Err` a part may have been appended.
pub fn add_json_fields(fields: &[Field], bytes: &[u8], text: &mut Bytes) -> Result<(), OutOfMemory>
    ensures { OnOk result (text.new ≡ with_fields text.old fields.now bytes.now) }
{
    text.extend(b" [")?;
    add_objects(fields, bytes, text)?;
    text.extend(b"]")
}
