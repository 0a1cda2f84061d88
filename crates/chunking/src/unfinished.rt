ghost use Rattle.std.specs.Prelude.{◌≡◌, ◌≤◌, ◌+◌, length, IfNone};
ghost use Rattle.spdm_grammar.specs.Message.{chunk_message};
ghost use Rattle.chunking.specs.Collecting.{first_rule, has_wrong_size, size_rule, told_by};
ghost use Rattle.chunking.specs.Keeping.{next_rule};

use spdm_grammar::names::MAX_MESSAGE_SIZE;
use spdm_grammar::{ChunkFault, ChunkView};

// What the next chunk of an unfinished message must follow.
#[derive(Clone, Copy, Debug)]
pub(crate) struct Unfinished {
    pub(crate) handle: u8,
    // The number of the newest chunk.
    pub(crate) number: u16,
    // The length of the whole, as the first chunk told it.
    pub(crate) told: u32,
}

impl Unfinished {
    // The rule that a later chunk of the message breaks, where `held` bytes came before it.
    pub(crate) fn broken_rule(&self, chunk: ChunkView<'_>, held: usize) -> Option<ChunkFault>
        requires { held ≤ MAX_MESSAGE_SIZE }
        ensures rule { result ≡ next_rule self.now held (chunk_message chunk.entry) }
        ensures fits { IfNone result (held + length chunk.entry.chunk.now ≤ self.now.told) }
    {
        if chunk.handle != self.handle {
            return Some(ChunkFault::WrongHandle);
        }
        if u32::from(chunk.number) != u32::from(self.number) + 1 {
            return Some(ChunkFault::WrongNumber);
        }
        broken_size_rule(chunk, held, self.told)
    }
}

// The fewest bytes of a chunk that is not the last.
const MIN_CHUNK: usize = 26;

// The length announced by a first chunk.
pub(crate) fn told_by(chunk: ChunkView<'_>) -> u32
    ensures { result ≡ told_by (chunk_message chunk.entry) }
{
    chunk.large.unwrap_or(0)
}

// The rule that a first chunk breaks.
pub(crate) fn broken_first_rule(chunk: ChunkView<'_>, max: u32) -> Option<ChunkFault>
    ensures rule { result ≡ first_rule max (chunk_message chunk.entry) }
    ensures most { IfNone result (told_by (chunk_message chunk.entry) ≤ MAX_MESSAGE_SIZE) }
    ensures fits { IfNone result (length chunk.entry.chunk.now ≤ told_by
        (chunk_message chunk.entry)) }
{
    let told = told_by(chunk);
    if told > max.min(MAX_MESSAGE_SIZE) {
        return Some(ChunkFault::TooLarge);
    }
    broken_size_rule(chunk, 0, told)
}

// The rule of sizes and marks that a chunk breaks, where `held` bytes of `told` came before it.
fn broken_size_rule(chunk: ChunkView<'_>, held: usize, told: u32) -> Option<ChunkFault>
    requires { held ≤ MAX_MESSAGE_SIZE }
    ensures rule { result ≡ size_rule told held (chunk_message chunk.entry) }
    ensures fits { IfNone result (held + length chunk.entry.chunk.now ≤ told) }
{
    if has_wrong_size(chunk, held, told) {
        return Some(ChunkFault::WrongSize);
    }
    let sum = held + chunk.chunk.len();
    if chunk.last && sum < told as usize {
        return Some(ChunkFault::EarlyLast);
    }
    if !chunk.last && sum == told as usize {
        return Some(ChunkFault::MissingLast);
    }
    None
}

// Whether a chunk is empty, or passes the announced length, or has too few bytes without the last mark.
fn has_wrong_size(chunk: ChunkView<'_>, held: usize, told: u32) -> bool
    requires { held ≤ MAX_MESSAGE_SIZE }
    ensures value { result ≡ has_wrong_size told held (chunk_message chunk.entry) }
{
    let len = chunk.chunk.len();
    len == 0 || len > (told as usize).saturating_sub(held) || (!chunk.last && len < MIN_CHUNK)
}
