ghost use Rattle.std.specs.Prelude.{◌≡◌, ◌≤◌, ◌++◌, ◌==◌, ◌||◌, ℕ, List, [], ◌∷◌, length};
ghost use Rattle.std.specs.List.{list_any};
ghost use Rattle.spdm_basis.specs.Sizes.{hash_size};
ghost use Rattle.running_hash.specs.Hash.{hash_of};
ghost use Rattle.running_hash.specs.Holds.{Holds, function_of};
ghost use Rattle.measurements.specs.Blocks.{record_len, record_of};
ghost use Rattle.measurements.specs.Summaries.{summarized, hash_of_blocks};

use crate::block::block_head;
use running_hash::RunningHash;
use spdm_basis::{HashAlg, HashBytes};
use spdm_grammar::BlockSpec;

/// The hash of the blocks that a summary of this kind is about, and zeros where there are none.
pub fn hash_of_blocks(hash: HashAlg, kind: u8, blocks: &[BlockSpec]) -> HashBytes
    requires { record_len blocks.now ≤ 4054 }
    ensures value { result ≡ hash_of_blocks (hash_of hash) (summarized kind blocks.now) }
    ensures size { length result ≡ hash_size hash }
{
    let mut running = RunningHash::new(hash);
    for block in blocks {
        push_chosen(kind, block, &mut running);
    }
    if has_chosen(kind, blocks) {
        running.finish()
    } else {
        zeros(hash)
    }
}

// Whether a summary of this kind is about some block.
fn has_chosen(kind: u8, blocks: &[BlockSpec]) -> bool
    ensures { result ≡ list_any (λ block. kind == 255 || block.tcb) blocks.now }
{
    blocks.iter().any(|block| kind == 255 || block.tcb)
}

// Adds a block where a summary of this kind is about it.
fn push_chosen(kind: u8, block: &BlockSpec, running: &mut RunningHash)
    requires { length block.now.value ≤ 4047 }
    ensures function { function_of running.new ≡ function_of running.old }
    ensures given { (given : List ℕ) → Holds running.old given
        → Holds running.new (given ++ record_of (summarized kind (block.now ∷ []))) }
{
    if kind == 255 || block.tcb {
        push_whole(block, running);
    }
}

// Adds a block.
fn push_whole(block: &BlockSpec, running: &mut RunningHash)
    requires { length block.now.value ≤ 4047 }
    ensures function { function_of running.new ≡ function_of running.old }
    ensures given { (given : List ℕ) → Holds running.old given
        → Holds running.new (given ++ record_of (block.now ∷ [])) }
{
    running.push(&block_head(block));
    running.push(block.value.as_slice());
}

// As many zero bytes as a hash has.
fn zeros(hash: HashAlg) -> HashBytes
    ensures value { result ≡ hash_of_blocks (hash_of hash) [] }
    ensures size { length result ≡ hash_size hash }
{
    match hash {
        HashAlg::Sha256 => HashBytes::from([0; 32]),
        HashAlg::Sha384 => HashBytes::from([0; 48]),
    }
}
