ghost use Rattle.std.specs.Prelude.{MatchOption};
ghost use Rattle.appraise.specs.Records.{IsFirstBlock, BeginsWithBlock};

use byteorder::{ByteOrder, LittleEndian};
use spdm_grammar::names::MEASUREMENT_DMTF;
use std::marker::Model;

// The bytes of a block before its value.
const HEAD_LEN: usize = 7;

// How many of them the size counts: the type of the value and its size.
const VALUE_HEAD_LEN: usize = 3;

/// A measurement block in a record (DSP0274, "Measurement block format" and "DMTF measurement specification format").
#[derive(Drop)]
pub struct Block<'a> {
    /// The index, from 1 to 254 in a record that keeps to the standard.
    pub index: u8,
    /// DMTFSpecMeasurementValueType.
    pub value_type: u8,
    /// DMTFSpecMeasurementValue.
    pub value: &'a [u8],
}

impl<'a> Model for Block<'a> {
    ghost use Rattle.appraise.specs.Records.{Measured};

    ghost Value = { Measured };

    ghost view = { λ b. record { index = b.index; value_type = b.value_type; value = b.value.now } };
}

/// The whole block with which bytes begin, and the bytes behind it. `None` exactly when they begin with none.
pub fn first_block(bytes: &[u8]) -> Option<(Block<'_>, &[u8])>
    ensures { MatchOption result (BeginsWithBlock bytes.now → ⊥) (λ found. IsFirstBlock found.0 found.1.now bytes.now) }
{
    if bytes.len() < HEAD_LEN {
        return None;
    }
    let (head, behind) = bytes.split_at(HEAD_LEN);
    let size = usize::from(LittleEndian::read_u16(&[head[2], head[3]]));
    let value_size = usize::from(LittleEndian::read_u16(&[head[5], head[6]]));
    if head[1] != MEASUREMENT_DMTF
        || size != VALUE_HEAD_LEN + value_size
        || behind.len() < value_size
    {
        return None;
    }
    let (value, rest) = behind.split_at(value_size);
    let block = Block {
        index: head[0],
        value_type: head[4],
        value,
    };
    Some((block, rest))
}
