ghost use Rattle.std.specs.Prelude.{◌≡◌, ◌==◌, IfOk, OnOk};
ghost use Rattle.script_text.specs.Configuring.{block_fault, after_block, block_of, has_block};
ghost use Rattle.script_text.specs.Tests.{IsAnswerTo};

use crate::configuration::config::{BLOCK_HEADER, RECORD_LIMIT};
use crate::configuration::partial_config::PartialConfig;
use crate::reading::hex_words::{MOST_BYTES, bytes_of, hex_len};
use crate::reading::numbers::number;
use crate::reading::words::{has_words, word};
use crate::texts::faults::{LineError, LineFault};
use spdm_grammar::BlockSpec;
use std::alloc::Global;

/// Takes the line `block INDEX TYPE TCB H`.
#[tactic(auto, unfolding(crate::specs::Configuring::block_fault, crate::specs::Configuring::after_block, crate::specs::Configuring::block_of))]
pub fn take_block(alloc: Global, given: &mut PartialConfig, line: &[u8]) -> Result<(), LineError>
    ensures answer { IsAnswerTo (block_fault given.old line.now) result }
    ensures after { OnOk result (given.new ≡ after_block given.old line.now) }
{
    if given.ended {
        return Err(LineError::Fault(LineFault::Order));
    }
    if !has_words(5, line) {
        return Err(LineError::Fault(LineFault::Words));
    }
    let Some(index) = number(1, 254, word(1, line)) else {
        return Err(LineError::Fault(LineFault::Number));
    };
    let Some(value_type) = number(0, 255, word(2, line)) else {
        return Err(LineError::Fault(LineFault::Number));
    };
    let Some(tcb) = number(0, 1, word(3, line)) else {
        return Err(LineError::Fault(LineFault::Number));
    };
    let Some(len) = hex_len(0, MOST_BYTES, word(4, line)) else {
        return Err(LineError::Fault(LineFault::Hex));
    };
    let index = index as u8;
    if has_block(index, given.blocks.as_slice()) {
        return Err(LineError::Fault(LineFault::Twice));
    }
    if given.blocks.size() + BLOCK_HEADER + len > RECORD_LIMIT {
        return Err(LineError::Fault(LineFault::Block));
    }
    let block = BlockSpec {
        index,
        value_type: value_type as u8,
        tcb: tcb == 1,
        value: bytes_of(alloc, word(4, line))?,
    };
    given.blocks.push(block)?;
    Ok(())
}

// Whether a block has this index.
fn has_block(index: u8, blocks: &[BlockSpec]) -> bool
    ensures { result ≡ has_block index blocks.now }
{
    blocks.iter().any(|block| block.index == index)
}
