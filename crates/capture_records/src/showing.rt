ghost use Rattle.std.specs.Prelude.{◌≡◌, ◌≤◌, ◌+◌, ◌-◌, length};
ghost use Rattle.capture_records.specs.Showing.{shown_told};
ghost use Rattle.secured_record.specs.declared.TheConstants.{MAX_RECORD_SIZE, MIN_RECORD_SIZE};

use crate::{Dialogue, Opening, RecordKeys, RecordTold};
use key_schedule::Direction;
use secured_record::MIN_RECORD_SIZE;
use spdm_basis::{OutOfMemory, RecordFault, RecordFrame};

/// What is shown of a record that a packet completes.
#[derive(Clone, Copy, Debug, PartialEq, Eq)]
pub enum RecordShown {
    /// The packet completes none.
    NoRecord,
    /// No session of its id was shown.
    NoSession,
    /// It does not open, and this is its fault under the keys that are in use.
    Closed(RecordFault),
    /// It opens under these keys, and has so many bytes of padding.
    Open { keys: RecordKeys, padding: usize },
}

// How many bytes of padding a record with an inner message of so many bytes has.
fn padding_of(sealed: &[u8], inner_len: usize) -> usize
    requires { inner_len ≤ MAX_RECORD_SIZE }
    ensures { result ≡ length sealed.now - (MIN_RECORD_SIZE + inner_len) }
{
    sealed.len().saturating_sub(MIN_RECORD_SIZE + inner_len)
}

// As it is told.
fn shown_by(sealed: &[u8], told: RecordTold, inner_len: usize) -> RecordShown
    requires { inner_len ≤ MAX_RECORD_SIZE }
    ensures { result ≡ shown_told sealed.now told inner_len }
{
    match told {
        RecordTold::NoSession => RecordShown::NoSession,
        RecordTold::InSession(_, Opening::Shut(fault)) => RecordShown::Closed(fault),
        RecordTold::InSession(_, Opening::Opened(keys)) => RecordShown::Open {
            keys,
            padding: padding_of(sealed, inner_len),
        },
    }
}

impl Dialogue {
    ghost use Rattle.std.specs.Prelude.{◌≡◌, IfOk, OnOk};
    ghost use Rattle.capture_records.specs.Showing.{after_record, seen_as, seen_of};

    /// The next record of a direction: what is shown of it. Of a record that opens, overwrites `inner` with its inner message.
    pub fn show(
        &mut self,
        direction: Direction,
        sealed: &[u8],
        inner: &mut RecordFrame,
    ) -> Result<RecordShown, OutOfMemory>
        ensures shown { IfOk result
            (λ shown. seen_as shown inner.new ≡ seen_of self.old direction sealed.now) }
        ensures after { OnOk result (self.new ≡ after_record self.old direction sealed.now) }
    {
        let told = self.open(direction, sealed, inner)?;
        Ok(shown_by(sealed, told, inner.as_slice().len()))
    }
}
