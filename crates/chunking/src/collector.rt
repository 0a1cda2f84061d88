ghost use Rattle.std.specs.Prelude.{◌≡◌, ◌≤◌, ◌+◌, ◌++◌, [], List, None, length, replicate, IfSome};
ghost use Rattle.spdm_grammar.specs.Message.{ChunkMessage, chunk_message};
ghost use Rattle.chunking.specs.Answers.{collection_of, step_answer, whole_of};
ghost use Rattle.std.specs.Borrow.{sem};
ghost use Rattle.chunking.specs.Lending.{RestsWith};
ghost use Rattle.chunking.specs.Collecting.{accepted_with, answer_from, collected, first_rule, joined, told_by, told_size, under_way};
ghost use Rattle.chunking.specs.Keeping.{Kept, StandsFor, after_chunk, after_first, after_later, answer_later, answer_to, grown};

use crate::unfinished::{Unfinished, broken_first_rule, told_by};
use spdm_basis::Frame;
use spdm_grammar::names::MAX_MESSAGE_SIZE;
use spdm_grammar::{ChunkFault, ChunkView};
use std::marker::Model;

/// Reassembles large messages from chunks (DSP0274, "CHUNK_SEND" and "CHUNK_RESPONSE"). It holds at most one unfinished
/// message. In contracts, a `Kept`.
#[derive(Drop)]
pub struct Collector {
    max: u32,
    unfinished: Option<Unfinished>,
    bytes: Frame,
}

impl Model for Collector {
    ghost use Rattle.spdm_grammar.specs.declared.names.TheConstants.{MAX_MESSAGE_SIZE};
    ghost use Rattle.std.specs.Prelude.{◌≤◌, IfSome};
    ghost use Rattle.chunking.specs.Keeping.{Kept};

    ghost Value = { Kept };

    ghost view = { λ c. record { max = c.max; unfinished = c.unfinished; bytes = c.bytes } };

    ghost invariant = { λ c. IfSome c.unfinished (λ u. u.told ≤ MAX_MESSAGE_SIZE) };
}

/// The outcome of a chunk.
#[derive(Clone, Copy, Debug, PartialEq, Eq)]
pub enum Collected<'a> {
    /// It completed this message, which is stored in the collector.
    Whole(&'a [u8]),
    /// The message is still incomplete.
    More,
    /// The chunk was refused, and nothing changed.
    Refused(ChunkFault),
}

// The outcome of a chunk; a whole message is stored in the collector.
#[derive(Clone, Copy, Debug)]
pub(crate) enum Step {
    Whole,
    More,
    Refused(ChunkFault),
}

impl Collector {
    /// A collector in its initial state, for messages of up to `max` bytes.
    pub fn new(max: u32) -> Collector
        ensures max { result.max ≡ max }
        ensures stands { StandsFor result [] }
    {
        Collector {
            max,
            unfinished: None,
            bytes: Frame::new(),
        }
    }

    /// Takes a chunk. On a refusal nothing changes.
    ///
    /// Checked in this order. Number 0 begins a new message, and drops what was unfinished where it is accepted;
    /// `TooLarge`: the announced size is above `max` or 4,096. Any other number: `WrongNumber` where nothing is
    /// unfinished, `WrongHandle`, `WrongNumber` where it is not the next. Then `WrongSize`: the chunk is empty, or the
    /// sum of the bytes passes the announced size, or a chunk without the last mark has fewer than 26 bytes.
    /// `EarlyLast`: the last mark with a sum below the announced size. `MissingLast`: the announced size is reached
    /// without the mark.
    pub fn take(&mut self, chunk: ChunkView<'_>) -> Collected<'_>
        ensures answer { (accepted : List ChunkMessage) → StandsFor self.old accepted
            → collection_of result ≡ collected self.old.max accepted (chunk_message chunk.entry) }
        ensures fits { length (whole_of result) ≤ MAX_MESSAGE_SIZE }
        // What it is once the message is given back.
        ensures* rests { sem 𝓛 (RestsWith self.entry (chunk_message chunk.entry)
            (collection_of result)) }
    {
        match self.step(chunk) {
            Step::Whole => Collected::Whole(self.bytes.as_slice()),
            Step::More => Collected::More,
            Step::Refused(fault) => Collected::Refused(fault),
        }
    }

    /// The bytes received so far of the unfinished message; empty if there is none.
    pub fn under_way(&self) -> &[u8]
        ensures { (accepted : List ChunkMessage) → StandsFor self.now accepted
            → result.now ≡ joined (under_way accepted) }
    {
        match self.unfinished {
            Some(_) => self.bytes.as_slice(),
            None => &[],
        }
    }

    /// The announced length of the unfinished message; 0 if there is none.
    pub fn told(&self) -> u32
        ensures value { (accepted : List ChunkMessage) → StandsFor self.now accepted
            → result ≡ told_size (under_way accepted) }
        ensures fits { result ≤ MAX_MESSAGE_SIZE }
    {
        match self.unfinished {
            Some(unfinished) => unfinished.told,
            None => 0,
        }
    }

    /// Drops the unfinished message.
    pub fn clear(&mut self)
        ensures max { self.new.max ≡ self.old.max }
        ensures stands { StandsFor self.new [] }
    {
        self.unfinished = None;
        self.bytes.clear();
    }

    /// Overwrites what it received by zeros, to the whole capacity of its buffer, and drops the unfinished message. Not
    /// to be gone on with.
    pub fn wipe(&mut self)
        ensures { self.new.bytes ≡ replicate MAX_MESSAGE_SIZE 0 }
    {
        self.unfinished = None;
        let _ = self.bytes.replace(&[0u8; MAX_MESSAGE_SIZE as usize]);
    }

    /// Returns a copy. An end keeps it, so that a large message that it ignores can be taken back.
    pub fn copy(&self) -> Collector
        ensures { result ≡ self.now }
    {
        let mut bytes = Frame::new();
        let _ = bytes.extend(self.bytes.as_slice());
        Collector {
            max: self.max,
            unfinished: self.unfinished,
            bytes,
        }
    }

    // Takes a chunk.
    fn step(&mut self, chunk: ChunkView<'_>) -> Step
        ensures answer { step_answer result self.new.bytes
            ≡ answer_to self.old (chunk_message chunk.entry) }
        ensures after { self.new ≡ after_chunk self.old (chunk_message chunk.entry) }
    {
        if chunk.number == 0 {
            return self.begin(chunk);
        }
        self.go_on(chunk)
    }

    // Takes a chunk of number 0.
    fn begin(&mut self, chunk: ChunkView<'_>) -> Step
        ensures answer { step_answer result self.new.bytes
            ≡ answer_from (first_rule self.old.max (chunk_message chunk.entry))
            (chunk_message chunk.entry) chunk.entry.chunk.now }
        ensures after { self.new ≡ after_first self.old (chunk_message chunk.entry) }
    {
        if let Some(fault) = broken_first_rule(chunk, self.max) {
            return Step::Refused(fault);
        }
        self.unfinished = None;
        self.bytes.clear();
        self.grow(chunk, told_by(chunk))
    }

    // Takes a chunk of another number.
    fn go_on(&mut self, chunk: ChunkView<'_>) -> Step
        ensures answer { step_answer result self.new.bytes
            ≡ answer_later self.old.unfinished self.old (chunk_message chunk.entry) }
        ensures after { self.new ≡ after_later self.old.unfinished self.old
            (chunk_message chunk.entry) }
    {
        let Some(unfinished) = self.unfinished else {
            return Step::Refused(ChunkFault::WrongNumber);
        };
        let held = self.bytes.as_slice().len();
        if let Some(fault) = unfinished.broken_rule(chunk, held) {
            return Step::Refused(fault);
        }
        self.grow(chunk, unfinished.told)
    }

    // Adds a chunk that breaks no rule.
    fn grow(&mut self, chunk: ChunkView<'_>, told: u32) -> Step
        requires most { told ≤ MAX_MESSAGE_SIZE }
        requires fits { length self.old.bytes + length chunk.chunk.now ≤ told }
        ensures answer { step_answer result self.new.bytes
            ≡ answer_from None (chunk_message chunk.entry)
            (self.old.bytes ++ chunk.entry.chunk.now) }
        ensures after { self.new ≡ grown self.old (chunk_message chunk.entry) told }
    {
        let _ = self.bytes.extend(chunk.chunk);
        if chunk.last {
            self.unfinished = None;
            return Step::Whole;
        }
        self.unfinished = Some(Unfinished {
            handle: chunk.handle,
            number: chunk.number,
            told,
        });
        Step::More
    }
}
