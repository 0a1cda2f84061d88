ghost use Rattle.std.specs.Prelude.{◌≡◌, ◌≤◌, nat_le};
ghost use Rattle.std.specs.Option.{option_map};
ghost use Rattle.spdm_grammar.specs.declared.told.block_spec.BlockSpec.{BlockSpec};
ghost use Rattle.measurements.specs.Blocks.{block_of, record_len};
ghost use Rattle.measurements.specs.Faults.{has_bad_index, has_index, has_twice};

use spdm_grammar::BlockSpec;

/// The block of an index, if there is one.
pub fn block_of(index: u8, blocks: &[BlockSpec]) -> Option<&BlockSpec>
    ensures { option_map (λ block. block.now) result ≡ block_of index blocks.now }
{
    for block in blocks {
        if block.index == index {
            return Some(block);
        }
    }
    None
}

/// Whether an index names no block.
pub fn has_bad_index(blocks: &[BlockSpec]) -> bool
    ensures { result ≡ has_bad_index blocks.now }
{
    blocks
        .iter()
        .any(|block| block.index == 0 || block.index > 254)
}

// Whether a block has this index.
fn has_index(index: u8, blocks: &[BlockSpec]) -> bool
    ensures { result ≡ has_index index blocks.now }
{
    blocks.iter().any(|block| block.index == index)
}

/// Whether two blocks have one index.
pub fn has_twice(blocks: &[BlockSpec]) -> bool
    ensures { result ≡ has_twice blocks.now }
{
    let mut rest = blocks;
    while let [block, others @ ..] = rest {
        if has_index(block.index, others) {
            return true;
        }
        rest = others;
    }
    false
}

/// Whether the blocks together have at most 4,054 bytes.
pub fn fit(blocks: &[BlockSpec]) -> bool
    ensures { result ≡ nat_le (record_len blocks.now) 4054 }
{
    let mut len = 0;
    for block in blocks {
        let more = block.value.as_slice().len();
        if more > 4047 || len + 7 + more > 4054 {
            return false;
        }
        len += 7 + more;
    }
    true
}
