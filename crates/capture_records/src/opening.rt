ghost use Rattle.std.specs.Prelude.{◌≡◌, ◌≤◌};
ghost use Rattle.capture_records.specs.Opening.{IsTried, number_at};
ghost use Rattle.session_keys.specs.Keys.{IsKeyOf};
ghost use Rattle.key_schedule.specs.Purpose.{Purpose};
ghost use Rattle.spdm_grammar.specs.declared.messages.choice.Choice.{Choice};

use crate::KeyedSession;
use crate::keys::{data_key, handshake_key};
use byteorder::{ByteOrder, LittleEndian};
use key_schedule::Direction;
use secured_record::{RecordFault, RecordKey};
use session_keys::open_record;
use spdm_basis::{OutOfMemory, Psk, RecordFrame, SessionId};

/// Under which keys of its session a record opens.
#[derive(Clone, Copy, Debug, PartialEq, Eq)]
pub enum RecordKeys {
    /// Those of the handshake.
    Handshake,
    /// Those after it, after so many key updates of its direction.
    Data { epoch: u64 },
}

/// What is told of a record.
#[derive(Clone, Copy, Debug, PartialEq, Eq)]
pub enum Opening {
    /// It opens under these keys.
    Opened(RecordKeys),
    /// It does not, and this is its fault under the keys that are in use.
    Shut(RecordFault),
}

/// The two bytes at a place as a number, and 0 where they are not there.
pub(crate) fn number_at(bytes: &[u8], at: usize) -> u16
    requires { at ≤ 4 }
    ensures { result ≡ number_at bytes.now at }
{
    if bytes.len() < at + 2 {
        0
    } else {
        LittleEndian::read_u16(&bytes.split_at(at).1[..2])
    }
}

// Opens a record under a key and the number that it tells, and overwrites `out` with its inner message.
fn try_key(
    key: &RecordKey,
    id: SessionId,
    sealed: &[u8],
    out: &mut RecordFrame,
) -> Result<(), RecordFault>
    ensures { (choice : Choice) (p : Purpose) → IsKeyOf key.now choice p
        → IsTried choice p id sealed.now result out.new }
{
    open_record(key, id, number_at(sealed, 4), sealed, out)
}

impl KeyedSession {
    ghost use Rattle.std.specs.Prelude.{◌≡◌, IfOk};
    ghost use Rattle.capture_records.specs.Opening.{IsInner, IsTaken, opening_of, told_under};

    // Under the keys of the handshake.
    fn open_early(
        &self,
        psk: &Psk,
        direction: Direction,
        sealed: &[u8],
        out: &mut RecordFrame,
    ) -> Opening
        ensures told { result
            ≡ told_under self.now psk.now direction RecordKeys.Handshake sealed.now }
        ensures inner { IsInner self.now psk.now direction sealed.now result out.new }
    {
        match try_key(&handshake_key(self, psk, direction), self.id(), sealed, out) {
            Ok(()) => Opening::Opened(RecordKeys::Handshake),
            Err(fault) => Opening::Shut(fault),
        }
    }

    // Under the keys after the handshake and so many key updates.
    fn open_late(
        &self,
        psk: &Psk,
        direction: Direction,
        epoch: u64,
        sealed: &[u8],
        out: &mut RecordFrame,
    ) -> Opening
        ensures told { result
            ≡ told_under self.now psk.now direction (RecordKeys.Data epoch) sealed.now }
        ensures inner { IsInner self.now psk.now direction sealed.now result out.new }
    {
        match try_key(
            &data_key(self, psk, direction, epoch),
            self.id(),
            sealed,
            out,
        ) {
            Ok(()) => Opening::Opened(RecordKeys::Data { epoch }),
            Err(fault) => Opening::Shut(fault),
        }
    }

    /// Opens a record of a direction under the number that it tells, and overwrites `out` with its inner message: under the
    /// keys that are in use, under those after the next key update, or under those of the handshake.
    pub fn open(
        &self,
        psk: &Psk,
        direction: Direction,
        sealed: &[u8],
        out: &mut RecordFrame,
    ) -> Opening
        ensures told { result ≡ opening_of self.now psk.now direction sealed.now }
        ensures inner { IsInner self.now psk.now direction sealed.now result out.new }
    {
        if self.finished().is_empty() {
            return self.open_early(psk, direction, sealed, out);
        }
        let epoch = self.epoch(direction);
        let told = self.open_late(psk, direction, epoch, sealed, out);
        if let Opening::Opened(_) = told {
            return told;
        }
        let next = self.open_late(psk, direction, epoch.saturating_add(1), sealed, out);
        if let Opening::Opened(_) = next {
            return next;
        }
        let early = self.open_early(psk, direction, sealed, out);
        if let Opening::Opened(_) = early {
            return early;
        }
        told
    }

    /// The next record of a direction: opens it, and keeps what it shows.
    pub fn take(
        &mut self,
        psk: &Psk,
        direction: Direction,
        sealed: &[u8],
        out: &mut RecordFrame,
    ) -> Result<Opening, OutOfMemory>
        ensures { IfOk result
            (λ told. IsTaken self.old psk.now direction sealed.now told out.new self.new) }
    {
        let told = self.open(psk, direction, sealed, out);
        if let Opening::Opened(keys) = told {
            self.note(direction, keys, out.as_slice())?;
        }
        Ok(told)
    }
}
