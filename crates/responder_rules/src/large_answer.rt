ghost use Rattle.std.specs.Prelude.{◌≡◌, ◌≤◌, ◌<◌, ◌+◌, ◌∷◌, [], ℕ, List, Some, None, true, false, drop, is_some, IfSome, length, unwrap_or};
ghost use Rattle.chunking.specs.Answers.{chunk_given};
ghost use Rattle.chunking.specs.Cutting.{chunks_of};
ghost use Rattle.responder_machine.specs.LargeMessages.{given_of, handle_of, large_of, next_handle, pending_of};
ghost use Rattle.responder_machine.specs.Place as places;
ghost use Rattle.responder_machine.specs.Place.{place_terms};
ghost use Rattle.responder_machine.specs.Refusal.{has_pending};
ghost use Rattle.responder_machine.specs.Turn.{Turn, handle_in, is_taken, large_in, takes};
ghost use Rattle.spdm_grammar.specs.declared.names.TheConstants.{MAX_MESSAGE_SIZE, MIN_DATA_TRANSFER_SIZE};
ghost use Rattle.spdm_grammar.specs.declared.names.request_code.TheConstants.{CHUNK_GET};
ghost use Rattle.std.specs.List.{slice_get};
ghost use Rattle.responder_rules.specs.LargeAnswer.{IsAsked, IsUncounted, IsWiped, StandsFor, turns_unseen, turns_with};

use chunking::Splitter;
use spdm_grammar::ChunkView;
use spdm_grammar::names::MIN_DATA_TRANSFER_SIZE;
use std::marker::Model;

/// The large response of a place that is still to be given by CHUNK_GET, and the count of handles there (DSP0274,
/// "CHUNK_GET request message format").
#[derive(Drop)]
pub struct LargeAnswer {
    splitter: Option<Splitter>,
    next: u8,
}

impl Model for LargeAnswer {
    ghost use Rattle.std.specs.Prelude.{[], unwrap_or};
    ghost use Rattle.responder_rules.specs.LargeAnswer.{Seen};

    ghost Value = { Seen };

    ghost view = { λ a. record { left = unwrap_or a.splitter []; next = a.next } };
}

impl LargeAnswer {
    /// The initial state, before any request.
    pub fn new() -> LargeAnswer
        ensures { (transfer : ℕ) → StandsFor result transfer [] }
    {
        LargeAnswer {
            splitter: None,
            next: 0,
        }
    }

    // The chunk that is to be given next.
    fn current(&self) -> Option<ChunkView<'_>>
        ensures { chunk_given result ≡ slice_get self.now.left 0 }
    {
        match &self.splitter {
            Some(splitter) => splitter.current(),
            None => None,
        }
    }

    /// Whether a chunk is still to be given.
    pub fn is_pending(&self) -> bool
        ensures { (transfer : ℕ) (turns : List Turn) → StandsFor self.now transfer turns
            → result ≡ is_some (pending_of transfer turns) }
    {
        self.current().is_some()
    }

    #[tactic(auto, using(crate::proofs::Left::left_pends, crate::proofs::Left::nothing_left))]
    /// A copy where no chunk is still to be given; `None` where one is.
    pub fn idle_copy(&self) -> Option<LargeAnswer>
        ensures same { IfSome result (λ copy. copy ≡ self.now) }
        ensures idle { (transfer : ℕ) (turns : List Turn) → StandsFor self.now transfer turns
            → is_some (pending_of transfer turns) ≡ false → is_some result ≡ true }
    {
        match self.current() {
            Some(_) => None,
            None => Some(LargeAnswer {
                splitter: None,
                next: self.next,
            }),
        }
    }

    /// The handle of the next large response: they count modulo 256 from 0.
    pub fn next_handle(&self) -> u8
        ensures { (transfer : ℕ) (turns : List Turn) → StandsFor self.now transfer turns
            → result ≡ next_handle turns }
    {
        self.next
    }

    #[tactic(auto, using(crate::proofs::Left::next_given, crate::proofs::Left::none_is_left))]
    /// The chunk that a CHUNK_GET asks for where one is pending; `None` where its handle is not that of the answer, or
    /// its number not the next.
    pub fn asked(&self, handle: u8, number: u16) -> Option<ChunkView<'_>>
        ensures { (p : places.Place)
            → StandsFor self.now (place_terms p).common.to_requester.transfer p.turns
            → has_pending p ≡ true → IsAsked p handle number result }
    {
        match self.current() {
            None => None,
            Some(chunk) => {
                if chunk.handle == handle && chunk.number == number {
                    Some(chunk)
                } else {
                    None
                }
            }
        }
    }

    /// A CHUNK_GET was taken.
    pub fn advance(&mut self)
        ensures { (transfer : ℕ) (turns : List Turn) (t : Turn)
            → StandsFor self.old transfer turns → is_taken t ≡ true → takes CHUNK_GET t ≡ true
            → handle_in t.effect ≡ None → StandsFor self.new transfer (t ∷ turns) }
    {
        advance(&mut self.splitter);
    }

    /// An answer goes by LargeResponse with this handle, in chunks of this transfer size.
    pub fn begin(&mut self, answer: &[u8], transfer: u32, handle: u8)
        requires { length answer.now ≤ MAX_MESSAGE_SIZE }
        ensures { (turns : List Turn) (t : Turn) → MIN_DATA_TRANSFER_SIZE ≤ transfer
            → transfer < length answer.now + 16
            → StandsFor self.old transfer turns → is_taken t ≡ true → takes CHUNK_GET t ≡ false
            → handle_in t.effect ≡ Some handle → large_in t.effect ≡ Some answer.now
            → StandsFor self.new transfer (t ∷ turns) }
    {
        self.splitter = Splitter::new(answer, transfer, handle).ok();
        self.next = self.next.wrapping_add(1);
    }

    /// Overwrites the answer that is pending, or was, by the greatest number of zeros. Not to be gone on with.
    pub fn wipe(&mut self)
        ensures { IsWiped self.new }
    {
        self.splitter = Splitter::new(&[0u8; 4096], MIN_DATA_TRANSFER_SIZE, 0).ok();
        self.next = 0;
    }

    /// The answer that is pending gets these bytes, which are sent in chunks; as many chunks of it are given.
    pub fn put(&mut self, answer: &[u8], transfer: u32)
        requires { length answer.now ≤ MAX_MESSAGE_SIZE }
        ensures { (turns : List Turn) → MIN_DATA_TRANSFER_SIZE ≤ transfer
            → transfer < length answer.now + 16
            → StandsFor self.old transfer turns → is_some (pending_of transfer turns) ≡ true
            → StandsFor self.new transfer (turns_with answer.now turns) }
    {
        let next = self.next_chunk();
        if let Some((handle, number)) = next {
            self.splitter = splitter_at(answer, transfer, handle, number);
        }
    }

    // The handle and the number of the chunk that is to be given next.
    fn next_chunk(&self) -> Option<(u8, u16)>
        ensures { (transfer : ℕ) (turns : List Turn) → StandsFor self.now transfer turns
            → is_some (pending_of transfer turns) ≡ true
            → result ≡ Some (handle_of turns, given_of turns) }
    {
        match self.current() {
            Some(chunk) => Some((chunk.handle, chunk.number)),
            None => None,
        }
    }

    /// The answer that went by LargeResponse last was never seen, though chunks of it may have been given: it is not
    /// pending, and took no handle.
    pub fn forget(&mut self)
        ensures { (transfer : ℕ) (turns : List Turn) → StandsFor self.old transfer turns
            → is_some (large_of turns) ≡ true → StandsFor self.new transfer (turns_unseen turns) }
    {
        self.splitter = None;
        self.next = self.next.wrapping_sub(1);
    }

    /// An answer that went by LargeResponse before others was never seen: it took no handle.
    pub fn uncount(&mut self)
        ensures { (transfer : ℕ) (turns others : List Turn) → IsUncounted transfer turns others
            → StandsFor self.old transfer turns → StandsFor self.new transfer others }
    {
        self.next = self.next.wrapping_sub(1);
    }

    /// Another request was taken, whose answer does not be sent in chunks, or application data.
    pub fn clear(&mut self)
        ensures { (transfer : ℕ) (turns : List Turn) (t : Turn)
            → StandsFor self.old transfer turns → is_taken t ≡ true → takes CHUNK_GET t ≡ false
            → handle_in t.effect ≡ None → StandsFor self.new transfer (t ∷ turns) }
    {
        empty(&mut self.splitter);
    }
}

// Takes away what is left, if anything is. Where nothing is, nothing is written: `None` clears the place of a splitter,
// which is large.
fn empty(splitter: &mut Option<Splitter>)
    ensures { unwrap_or splitter.new [] ≡ [] }
{
    if splitter.is_some() {
        *splitter = None;
    }
}

// Goes on to the next chunk, if there is one.
fn advance(splitter: &mut Option<Splitter>)
    ensures { unwrap_or splitter.new [] ≡ drop 1 (unwrap_or splitter.old []) }
{
    if let Some(splitter) = splitter {
        splitter.advance();
    }
}

// The chunks of an answer from the one of this number on.
fn splitter_at(answer: &[u8], transfer: u32, handle: u8, number: u16) -> Option<Splitter>
    requires { length answer.now ≤ MAX_MESSAGE_SIZE }
    ensures { MIN_DATA_TRANSFER_SIZE ≤ transfer → transfer < length answer.now + 16
        → unwrap_or result [] ≡ drop number (chunks_of transfer handle answer.now) }
{
    let mut splitter = Splitter::new(answer, transfer, handle).ok()?;
    for _ in 0..number {
        splitter.advance();
    }
    Some(splitter)
}
