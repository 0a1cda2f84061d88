ghost use Rattle.std.specs.Prelude.{◌≡◌, ◌≤◌, None, Some, length};
ghost use Rattle.responder_machine.specs.Responder as responder;
ghost use Rattle.secured_record.specs.declared.TheConstants.{MAX_RECORD_SIZE};

use crate::in_sessions::records::replace_record;
use session_keys::same_bytes;
use spdm_basis::RecordFrame;
use std::marker::Model;

/// The last record of the one ended session, with its response. Fixed size; never allocates. In contracts, an option of
/// these.
#[derive(Drop)]
pub struct EndedRecord {
    is_there: bool,
    sealed: RecordFrame,
    reply: RecordFrame,
}

impl Model for EndedRecord {
    ghost use Rattle.std.specs.Prelude.{Option, Some, None, if◌then◌else◌};
    ghost use Rattle.responder_machine.specs.History.{KeptRecord};

    ghost Value = { Option KeptRecord };

    ghost view = { λ e. if e.is_there then Some (record {
      sealed = e.sealed;
      reply = e.reply;
    }) else None };
}

impl EndedRecord {
    /// Where no session is ended.
    pub fn none() -> EndedRecord
        ensures { result ≡ None }
    {
        EndedRecord {
            is_there: false,
            sealed: RecordFrame::new(),
            reply: RecordFrame::new(),
        }
    }

    /// Returns a copy.
    pub fn copy(&self) -> EndedRecord
        ensures { result ≡ self.now }
    {
        let mut sealed = RecordFrame::new();
        let _ = sealed.extend(self.sealed.as_slice());
        let mut reply = RecordFrame::new();
        let _ = reply.extend(self.reply.as_slice());
        EndedRecord {
            is_there: self.is_there,
            sealed,
            reply,
        }
    }

    /// Whether a record is the kept one.
    pub fn is_repeat(&self, sealed: &[u8]) -> bool
        ensures { result ≡ responder.repeats self.now sealed.now }
    {
        self.is_there && same_bytes(self.sealed.as_slice(), sealed)
    }

    /// The stored reply; empty where none is kept.
    pub fn reply(&self) -> &[u8]
        ensures value { result.now ≡ responder.kept_record self.now }
        ensures fits { length result.now ≤ MAX_RECORD_SIZE }
    {
        if self.is_there {
            self.reply.as_slice()
        } else {
            &[]
        }
    }

    /// Keeps a record with its reply, in place of the one before. Each has at most 4,160 bytes.
    pub fn keep(&mut self, sealed: &[u8], reply: &[u8])
        ensures { length sealed.now ≤ MAX_RECORD_SIZE → length reply.now ≤ MAX_RECORD_SIZE
            → self.new ≡ Some (record { sealed = sealed.now; reply = reply.now }) }
    {
        self.is_there = true;
        replace_record(&mut self.sealed, sealed);
        replace_record(&mut self.reply, reply);
    }

    /// Forgets the record.
    pub fn clear(&mut self)
        ensures { self.new ≡ None }
    {
        self.is_there = false;
    }
}
