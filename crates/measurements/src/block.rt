ghost use Rattle.std.specs.Prelude.{◌≡◌, ◌≤◌, ◌+◌, ◌++◌, length};
ghost use Rattle.byteorder.specs.Endian.{little_bytes};
ghost use Rattle.measurements.specs.Blocks.{block_head, block_bytes, record_len, record_of};

use byteorder::{ByteOrder, LittleEndian};
use spdm_basis::Frame;
use spdm_grammar::BlockSpec;
use spdm_grammar::names::MEASUREMENT_DMTF;

/// The seven bytes before the value of a block (DSP0274, "Measurement block format" and "DMTF measurement specification
/// format").
pub fn block_head(block: &BlockSpec) -> [u8; 7]
    requires { length block.now.value ≤ 4047 }
    ensures { result ≡ block_head block.now }
{
    let len = block.value.as_slice().len() as u16;
    let size = two_bytes(len + 3);
    let value_size = two_bytes(len);
    [
        block.index,
        MEASUREMENT_DMTF,
        size[0],
        size[1],
        block.value_type,
        value_size[0],
        value_size[1],
    ]
}

// A number as two bytes, little-endian.
fn two_bytes(number: u16) -> [u8; 2]
    ensures { result ≡ little_bytes 2 number }
{
    let mut bytes = [0u8; 2];
    LittleEndian::write_u16(&mut bytes, number);
    bytes
}

/// Adds a block.
pub fn push_block(block: &BlockSpec, out: &mut Frame)
    requires { length out.old + (7 + length block.now.value) ≤ 4054 }
    ensures bytes { out.new ≡ out.old ++ block_bytes block.now }
    ensures fits { length out.new ≤ 4054 }
{
    let _ = out.extend(&block_head(block));
    let _ = out.extend(block.value.as_slice());
}

/// Adds blocks, one after the other.
pub fn push_blocks(blocks: &[BlockSpec], out: &mut Frame)
    requires { length out.old + record_len blocks.now ≤ 4054 }
    ensures bytes { out.new ≡ out.old ++ record_of blocks.now }
    ensures fits { length out.new ≤ 4054 }
{
    for block in blocks {
        push_block(block, out);
    }
}
