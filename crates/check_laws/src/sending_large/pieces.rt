use crate::sending_large::bodies::{bytes_from, is_chunk, told_size};
use spdm_basis::Frame;
use spdm_grammar::ChunkView;
use spdm_grammar::names::MAX_MESSAGE_SIZE;

/// What a body is that comes where the next chunk of a large request is owed: that chunk, and more follow; the last
/// one; or another body.
#[derive(Clone, Copy, Debug, PartialEq, Eq)]
pub enum Piece {
    Between,
    Last,
    Other,
}

/// A large request of which not all chunks came: its announced length, and its bytes so far. Any bytes that begin so
/// may stand for it.
#[derive(Drop)]
pub struct Pieces {
    pub(crate) transfer: usize,
    pub(crate) handle: u8,
    pub(crate) size: usize,
    pub(crate) number: u16,
    pub(crate) bytes: Frame,
}

impl Pieces {
    ghost use Rattle.std.specs.Prelude.{◌≡◌, ℕ, List, true};
    ghost use Rattle.check_laws.specs.Keeping.{Kept};
    ghost use Rattle.requester_machine.specs.History.{next_handle};
    ghost use Rattle.requester_machine.specs.Setup.{ReqSetup};
    ghost use Rattle.capture_machine.specs.LargeRequests.{common_of};
    ghost use Rattle.world_machine.specs.Setup.{Configuration};
    ghost use Rattle.check_laws.specs.Large.Pieces.{IsFirstOf, IsNextOf, IsPieces};
    ghost use Rattle.check_laws.specs.Large.Sending.{IsSendingOf, Sending};

    /// A body came where a large request may be begun: its first chunk, if it is one under this handle, cut for a
    /// responder with this transfer size and this max size.
    pub fn first(transfer: usize, max: usize, handle: u8, body: &[u8]) -> Option<Pieces>
        ensures { (k : Kept) → (common_of k.requester).chunk ≡ true
            → (common_of k.requester).to_responder.transfer ≡ transfer
            → (common_of k.requester).to_responder.max ≡ max → next_handle k.requester ≡ handle
            → IsFirstOf k body.now result }
    {
        let size = told_size(body);
        let chunk = bytes_from(body, 17);
        if size <= transfer || size > max || size > MAX_MESSAGE_SIZE as usize {
            return None;
        }
        if chunk.len() != transfer.saturating_sub(16) {
            return None;
        }
        let view = ChunkView {
            last: false,
            handle,
            number: 0,
            large: Some(size as u32),
            chunk,
        };
        if !is_chunk(body, view) {
            return None;
        }
        let mut bytes = Frame::new();
        bytes.extend(chunk).ok()?;
        Some(Pieces {
            transfer,
            handle,
            size,
            number: 0,
            bytes,
        })
    }

    /// A body came where the next chunk is owed. Where it is that chunk, its bytes are held; else nothing changes.
    pub fn next(&mut self, body: &[u8]) -> Piece
        ensures { (w : Configuration) (q : ReqSetup) (older : List (List ℕ)) (s : Sending)
            → IsSendingOf w q older s → IsPieces self.old s
            → IsNextOf s body.now result self.old self.new }
    {
        let chunk = bytes_from(body, 13);
        let left = self.size.saturating_sub(self.bytes.as_slice().len());
        let unit = self.transfer.saturating_sub(12);
        let last = left <= unit;
        if chunk.len() != left.min(unit) {
            return Piece::Other;
        }
        let view = ChunkView {
            last,
            handle: self.handle,
            number: self.number.saturating_add(1),
            large: None,
            chunk,
        };
        if !is_chunk(body, view) || self.bytes.extend(chunk).is_err() {
            return Piece::Other;
        }
        self.number = self.number.saturating_add(1);
        if last {
            return Piece::Last;
        }
        Piece::Between
    }

    /// The number of the chunk that came last.
    pub fn number(&self) -> u16
        ensures { result ≡ self.now.number }
    {
        self.number
    }

    /// The bytes so far; all of them, once the last chunk came.
    pub fn bytes(&self) -> &[u8]
        ensures { result.now ≡ self.now.bytes }
    {
        self.bytes.as_slice()
    }
}
