ghost use Rattle.std.specs.Prelude.{◌≡◌, ◌↔◌, ◌<◌, ◌≤◌, ◌+◌, length, drop, Err, IfOk, Some};
ghost use Rattle.std.specs.List.{slice_get};
ghost use Rattle.chunking.specs.Answers.{chunk_given};
ghost use Rattle.chunking.specs.Cutting as cutting;
ghost use Rattle.chunking.specs.Cutting.{chunk_count, chunks_of};
ghost use Rattle.spdm_grammar.specs.Message.{chunk_message};

use spdm_basis::Frame;
use spdm_grammar::ChunkView;
use spdm_grammar::names::{
    CHUNK_FIELDS_LEN, LARGE_SIZE_LEN, MAX_MESSAGE_SIZE, MIN_DATA_TRANSFER_SIZE,
};
use std::marker::Model;
use thiserror::Error;

/// Why a message is not split, in the order of the checks.
#[derive(Clone, Copy, Debug, PartialEq, Eq, Error)]
pub enum SplitFault {
    /// The transfer size is below 42.
    #[error("a transfer size below 42")]
    TransferTooSmall,
    /// The message fits one chunk.
    #[error("a message that fits into one chunk")]
    Fits,
}

/// A large message, split into chunks for a DataTransferSize (DSP0274, "CHUNK_SEND request message format"). In
/// contracts, the list of the chunks that are left.
#[derive(Drop)]
pub struct Splitter {
    message: Frame,
    transfer: u32,
    handle: u8,
    // How many chunks the message has, and how many were taken.
    count: usize,
    taken: usize,
}

impl Model for Splitter {
    ghost use Rattle.spdm_grammar.specs.declared.names.TheConstants.{MIN_DATA_TRANSFER_SIZE, MAX_MESSAGE_SIZE};
    ghost use Rattle.std.specs.Prelude.{◌≡◌, ◌≤◌, ◌<◌, ◌+◌, List, drop, length};
    ghost use Rattle.spdm_grammar.specs.Message.{ChunkMessage};
    ghost use Rattle.chunking.specs.Cutting.{chunk_count, chunks_of};

    ghost Value = { List ChunkMessage };

    ghost view = { λ s. drop s.taken (chunks_of s.transfer s.handle s.message) };

    ghost invariant = { λ s. (MIN_DATA_TRANSFER_SIZE ≤ s.transfer)
        × (length s.message ≤ MAX_MESSAGE_SIZE) × (s.transfer < length s.message + 16)
        × (s.count ≡ chunk_count s.transfer s.message) × (s.taken ≤ s.count) };
}

impl Splitter {
    /// Cuts a message, which it copies: a first chunk of `transfer` less 16 bytes, next ones of `transfer` less 12, and
    /// the rest. Returns `TransferTooSmall` exactly when `transfer` is below 42, and then `Fits` exactly when the
    /// message is not longer than `transfer` less 16.
    pub fn new(message: &[u8], transfer: u32, handle: u8) -> Result<Splitter, SplitFault>
        requires { length message.now ≤ MAX_MESSAGE_SIZE }
        ensures chunks { IfOk result (λ splitter. splitter
            ≡ chunks_of transfer handle message.now) }
        ensures small { (result ≡ Err SplitFault.TransferTooSmall) ↔
            (transfer < MIN_DATA_TRANSFER_SIZE) }
        ensures fits { (result ≡ Err SplitFault.Fits) ↔ ((MIN_DATA_TRANSFER_SIZE ≤ transfer)
            × (length message.now + 16 ≤ transfer)) }
    {
        if transfer < MIN_DATA_TRANSFER_SIZE {
            return Err(SplitFault::TransferTooSmall);
        }
        let unit = transfer as usize - CHUNK_FIELDS_LEN;
        if message.len() + LARGE_SIZE_LEN <= unit {
            return Err(SplitFault::Fits);
        }
        let mut copy = Frame::new();
        let _ = copy.extend(message);
        Ok(Splitter {
            message: copy,
            transfer,
            handle,
            count: (message.len() + LARGE_SIZE_LEN).div_ceil(unit),
            taken: 0,
        })
    }

    /// The next chunk, and `None` exactly when all were taken.
    pub fn current(&self) -> Option<ChunkView<'_>>
        ensures { chunk_given result ≡ slice_get self.now 0 }
    {
        if self.taken == self.count {
            return None;
        }
        let message = self.message.as_slice();
        Some(chunk_at(message, self.transfer, self.handle, self.taken, self.count))
    }

    /// Moves on to the next chunk; does nothing at the end.
    pub fn advance(&mut self)
        ensures { self.new ≡ drop 1 self.old }
    {
        if self.taken < self.count {
            self.taken += 1;
        }
    }
}

/// The chunk of this number of a message, counted from 0, as a splitter gives it. `None` comes where the transfer size
/// is below 42, and where the message has no such chunk.
pub fn nth_chunk(message: &[u8], transfer: u32, handle: u8, number: u16) -> Option<ChunkView<'_>>
    requires { length message.now ≤ MAX_MESSAGE_SIZE }
    ensures { MIN_DATA_TRANSFER_SIZE ≤ transfer → number < chunk_count transfer message.now
        → chunk_given result ≡ Some (cutting.nth_chunk transfer handle message.now number) }
{
    if transfer < MIN_DATA_TRANSFER_SIZE {
        return None;
    }
    let unit = transfer as usize - CHUNK_FIELDS_LEN;
    let count = (message.len() + LARGE_SIZE_LEN).div_ceil(unit);
    let number = number as usize;
    if number >= count {
        return None;
    }
    Some(chunk_at(message, transfer, handle, number, count))
}

// The chunk of this number, of the number of chunks that the message has.
fn chunk_at(message: &[u8], transfer: u32, handle: u8, number: usize, count: usize) -> ChunkView<'_>
    requires low { MIN_DATA_TRANSFER_SIZE ≤ transfer }
    requires high { length message.now ≤ MAX_MESSAGE_SIZE }
    requires counted { count ≡ chunk_count transfer message.now }
    requires within { number < count }
    ensures { chunk_message result ≡ cutting.nth_chunk transfer handle message.now number }
{
    let unit = transfer as usize - CHUNK_FIELDS_LEN;
    let from = (number * unit).saturating_sub(LARGE_SIZE_LEN);
    let to = message.len().min(number * unit + unit - LARGE_SIZE_LEN);
    ChunkView {
        last: number + 1 == count,
        handle,
        number: number as u16,
        large: if number == 0 {
            Some(message.len() as u32)
        } else {
            None
        },
        chunk: &message[from..to],
    }
}
