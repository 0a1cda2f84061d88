ghost use Rattle.std.specs.Prelude.{◌≡◌, ◌<◌, ◌^◌, ◌+◌, ◌++◌, length, OnOk, OnErr, ◌≤◌};
ghost use Rattle.byteorder.specs.Endian.{little_bytes};
ghost use Rattle.spdm_grammar.specs.Fields.{large_bytes};

use byteorder::{ByteOrder, LittleEndian};
use spdm_basis::Frame;
use spdm_grammar::names::MAX_MESSAGE_SIZE;
use thiserror::Error;

/// The encoded message exceeds 4,096 bytes.
#[derive(Clone, Copy, Debug, PartialEq, Eq, Error)]
#[error("the message passes 4096 bytes")]
pub struct TooLong;

/// Adds bytes.
pub fn put(out: &mut Frame, bytes: &[u8]) -> Result<(), TooLong>
    ensures ok { OnOk result (out.new ≡ out.old ++ bytes.now) }
    ensures fits { OnOk result (length out.new ≤ MAX_MESSAGE_SIZE) }
    ensures err { OnErr result (MAX_MESSAGE_SIZE < length out.old + length bytes.now) }
{
    out.extend(bytes).map_err(|_| TooLong)
}

/// Adds a number of two bytes.
pub fn put_two(out: &mut Frame, number: u16) -> Result<(), TooLong>
    ensures ok { OnOk result (out.new ≡ out.old ++ little_bytes 2 number) }
    ensures fits { OnOk result (length out.new ≤ MAX_MESSAGE_SIZE) }
    ensures err { OnErr result (MAX_MESSAGE_SIZE < length out.old + 2) }
{
    let mut bytes = [0u8; 2];
    LittleEndian::write_u16(&mut bytes, number);
    put(out, &bytes)
}

/// Adds a number of three bytes.
pub fn put_three(out: &mut Frame, number: u32) -> Result<(), TooLong>
    requires { number < 2 ^ 24 }
    ensures ok { OnOk result (out.new ≡ out.old ++ little_bytes 3 number) }
    ensures fits { OnOk result (length out.new ≤ MAX_MESSAGE_SIZE) }
    ensures err { OnErr result (MAX_MESSAGE_SIZE < length out.old + 3) }
{
    let mut bytes = [0u8; 3];
    LittleEndian::write_u24(&mut bytes, number);
    put(out, &bytes)
}

/// Adds a number of four bytes.
pub fn put_four(out: &mut Frame, number: u32) -> Result<(), TooLong>
    ensures ok { OnOk result (out.new ≡ out.old ++ little_bytes 4 number) }
    ensures fits { OnOk result (length out.new ≤ MAX_MESSAGE_SIZE) }
    ensures err { OnErr result (MAX_MESSAGE_SIZE < length out.old + 4) }
{
    let mut bytes = [0u8; 4];
    LittleEndian::write_u32(&mut bytes, number);
    put(out, &bytes)
}

/// Adds a number of four bytes, where there is one.
pub fn put_optional_four(out: &mut Frame, number: Option<u32>) -> Result<(), TooLong>
    ensures ok { OnOk result (out.new ≡ out.old ++ large_bytes number) }
    ensures err { OnErr result (MAX_MESSAGE_SIZE < length out.old + length (large_bytes number)) }
{
    match number {
        None => Ok(()),
        Some(number) => put_four(out, number),
    }
}
