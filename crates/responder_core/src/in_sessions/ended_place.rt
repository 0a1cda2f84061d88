use crate::EndedRecord;
use spdm_basis::OutOfMemory;
use std::alloc::Global;
use std::marker::Model;

/// The last record of the one ended session, which stays on the heap: it has 8 KB. Allocates only when constructed (read,
/// not proved). In contracts, what an `EndedRecord` is.
#[derive(Drop)]
pub struct EndedPlace {
    inner: Box<EndedRecord>,
}

impl Model for EndedPlace {
    ghost use Rattle.std.specs.Prelude.{Option};
    ghost use Rattle.responder_machine.specs.History.{KeptRecord};

    ghost Value = { Option KeptRecord };

    ghost view = { λ p. p.inner.value };
}

impl EndedPlace {
    ghost use Rattle.std.specs.Prelude.{◌≡◌, ◌≤◌, None, Some, IfOk, length};
    ghost use Rattle.responder_machine.specs.Responder as responder;
    ghost use Rattle.secured_record.specs.declared.TheConstants.{MAX_RECORD_SIZE};

    /// Where no session is ended.
    pub fn none(alloc: Global) -> Result<EndedPlace, OutOfMemory>
        ensures { IfOk result (λ place. place ≡ None) }
    {
        match Box::new(alloc, EndedRecord::none()) {
            Ok(inner) => Ok(EndedPlace { inner }),
            Err(_) => Err(OutOfMemory),
        }
    }

    /// Returns a copy.
    pub fn copy(&self) -> EndedRecord
        ensures { result ≡ self.now }
    {
        self.inner.copy()
    }

    /// Whether a record is the kept one.
    pub fn is_repeat(&self, sealed: &[u8]) -> bool
        ensures { result ≡ responder.repeats self.now sealed.now }
    {
        self.inner.is_repeat(sealed)
    }

    /// The stored reply; empty where none is kept.
    pub fn reply(&self) -> &[u8]
        ensures value { result.now ≡ responder.kept_record self.now }
        ensures fits { length result.now ≤ MAX_RECORD_SIZE }
    {
        self.inner.reply()
    }

    /// Keeps a record with its reply, in place of the one before. Each has at most 4,160 bytes.
    pub fn keep(&mut self, sealed: &[u8], reply: &[u8])
        ensures { length sealed.now ≤ MAX_RECORD_SIZE → length reply.now ≤ MAX_RECORD_SIZE
            → self.new ≡ Some (record { sealed = sealed.now; reply = reply.now }) }
    {
        self.inner.keep(sealed, reply);
    }

    /// Forgets the record.
    pub fn clear(&mut self)
        ensures { self.new ≡ None }
    {
        self.inner.clear();
    }

    /// Replaces the record.
    pub fn put(&mut self, last: EndedRecord)
        ensures { self.new ≡ last }
    {
        *self.inner = last;
    }
}
