ghost use Rattle.std.specs.Prelude.{◌≡◌, ◌≤◌, ℕ, List, OnErr, length, true};
ghost use Rattle.requester_machine.specs.Records.{sealed_next};
ghost use Rattle.requester_machine.specs.Session.{Steps, request_next};
ghost use Rattle.psk_session.specs.OwnRecords.{IsOwnOpened, SealsFor, TellsPadded};
ghost use Rattle.secured_record.specs.declared.TheConstants.{MAX_RECORD_SIZE};

use crate::finishing::Finishing;
use crate::inner_pair::InnerPair;
use crate::kept::record_number;
use crate::req_session::ReqSession;
use secured_record::{RecordFault, RecordKey};
use session_keys::{open_record, same_bytes};
use spdm_basis::{RecordFrame, SessionId};

// The most bytes that a record may have beside its inner message: 26 of its own, and 16 of padding.
const MOST_AROUND: usize = 42;

// Opens a record of this number of the session with this request key and id.
fn open_own(
    key: &RecordKey,
    id: SessionId,
    number: u16,
    sealed: &[u8],
    out: &mut RecordFrame,
) -> Result<(), RecordFault>
    ensures opened { (psk : List ℕ) (s : Steps) → SealsFor key.now id psk s
        → number ≡ request_next s → IsOwnOpened psk s sealed.now result out.new }
    ensures unchanged { OnErr result (out.new ≡ out.old) }
{
    open_record(key, id, number, sealed, out)
}

// Whether the record that was sent with this number has at most 16 bytes of padding.
fn is_padded_little(
    key: &RecordKey,
    id: SessionId,
    number: u16,
    sent: &[u8],
    pair: &mut InnerPair,
) -> bool
    requires { length sent.now ≤ MAX_RECORD_SIZE }
    ensures { (psk : List ℕ) (s : Steps) (inner pad : List ℕ) → SealsFor key.now id psk s
        → number ≡ request_next s → sent.now ≡ sealed_next psk s inner pad
        → TellsPadded psk s inner sent.now result }
{
    if key.open(id, number, sent, &mut pair.asked).is_err() {
        return false;
    }
    sent.len() <= pair.asked.as_slice().len() + MOST_AROUND
}

// Whether bytes are the record that was sent with this number, but for its padding, which has at most 16 bytes: both
// are opened.
fn is_padded_other(
    key: &RecordKey,
    id: SessionId,
    number: u16,
    sent: &[u8],
    sealed: &[u8],
    pair: &mut InnerPair,
) -> bool
    requires { length sent.now ≤ MAX_RECORD_SIZE }
    ensures told { (psk : List ℕ) (s : Steps) (inner pad : List ℕ) → SealsFor key.now id psk s
        → number ≡ request_next s → sent.now ≡ sealed_next psk s inner pad
        → TellsPadded psk s inner sealed.now result }
    ensures fits { result ≡ true → length sealed.now ≤ MAX_RECORD_SIZE }
{
    if key.open(id, number, sent, &mut pair.asked).is_err() {
        return false;
    }
    if key.open(id, number, sealed, &mut pair.came).is_err() {
        return false;
    }
    same_bytes(pair.came.as_slice(), pair.asked.as_slice())
        && sealed.len() <= pair.came.as_slice().len() + MOST_AROUND
}

// The same, where the record that was sent is opened alone if the bytes are that record.
fn is_padded_anew(
    key: &RecordKey,
    id: SessionId,
    number: u16,
    sent: &[u8],
    sealed: &[u8],
    pair: &mut InnerPair,
) -> bool
    requires { length sent.now ≤ MAX_RECORD_SIZE }
    ensures told { (psk : List ℕ) (s : Steps) (inner pad : List ℕ) → SealsFor key.now id psk s
        → number ≡ request_next s → sent.now ≡ sealed_next psk s inner pad
        → TellsPadded psk s inner sealed.now result }
    ensures fits { result ≡ true → length sealed.now ≤ MAX_RECORD_SIZE }
{
    if same_bytes(sealed, sent) {
        return is_padded_little(key, id, number, sent, pair);
    }
    is_padded_other(key, id, number, sent, sealed, pair)
}

// The record that a session sealed itself; used only by the checker.
impl ReqSession {
    ghost use Rattle.std.specs.Prelude.{◌≡◌, ◌≤◌, ℕ, List, OnErr, false, length, true};
    ghost use Rattle.requester_machine.specs.Message as message;
    ghost use Rattle.requester_machine.specs.Session.{Steps, request_next};
    ghost use Rattle.psk_session.specs.Course.{with_asked};
    ghost use Rattle.psk_session.specs.OwnRecords.{IsOwnOpened, IsRepadded, TellsPadded};
    ghost use Rattle.psk_session.specs.ReqSession.{IsAwaiting, IsOpen};

    /// Opens a record as the next one that this session would send, and overwrites `out` with its inner message. On a
    /// fault `out` is unchanged. While a response is awaited, sequence numbers up to 65,535 are covered.
    pub fn open_next(&self, sealed: &[u8], out: &mut RecordFrame) -> Result<(), RecordFault>
        ensures opened { (psk : List ℕ) (s : Steps) → IsOpen self.now psk s
            → IsOwnOpened psk s sealed.now result out.new }
        ensures awaiting { (psk : List ℕ) (s : Steps) (a : message.Ask)
            → IsAwaiting self.now psk s a → request_next s ≤ 65535
            → IsOwnOpened psk s sealed.now result out.new }
        ensures unchanged { OnErr result (out.new ≡ out.old) }
    {
        let number = record_number(self.kept.request_next);
        open_own(&self.kept.request, self.kept.id, number, sealed, out)
    }

    // The number of the record that was sent last.
    fn last_number(&self) -> u16
        ensures { (psk : List ℕ) (s : Steps) (a : message.Ask) (inner pad : List ℕ)
            → IsAwaiting self.now psk (with_asked psk s a inner pad) a → result ≡ request_next s }
    {
        record_number(self.kept.request_next.saturating_sub(1))
    }

    /// Opens a record instead of the one that this session sent last and whose response it awaits, and overwrites `out`
    /// with its inner message. On a fault `out` is unchanged.
    pub fn open_last(&self, sealed: &[u8], out: &mut RecordFrame) -> Result<(), RecordFault>
        ensures opened { (psk : List ℕ) (s : Steps) (a : message.Ask) (inner pad : List ℕ)
            → IsAwaiting self.now psk (with_asked psk s a inner pad) a
            → IsOwnOpened psk s sealed.now result out.new }
        ensures unchanged { OnErr result (out.new ≡ out.old) }
    {
        open_own(
            &self.kept.request,
            self.kept.id,
            self.last_number(),
            sealed,
            out,
        )
    }

    // Whether bytes are the record that was sent last, with a padding of at most 16 bytes.
    fn is_last_padded(&self, sealed: &[u8], pair: &mut InnerPair) -> bool
        ensures told { (psk : List ℕ) (s : Steps) (a : message.Ask) (inner pad : List ℕ)
            → IsAwaiting self.now psk (with_asked psk s a inner pad) a
            → TellsPadded psk s inner sealed.now result }
        ensures fits { result ≡ true → length sealed.now ≤ MAX_RECORD_SIZE }
    {
        is_padded_anew(
            &self.kept.request,
            self.kept.id,
            self.last_number(),
            self.sent.as_slice(),
            sealed,
            pair,
        )
    }

    /// Replaces the record that this session sent last, and whose response it awaits, by these bytes, if they are that
    /// record with some padding of at most 16 bytes. Returns whether they are; otherwise nothing changes.
    pub fn take_padded(&mut self, sealed: &[u8], pair: &mut InnerPair) -> bool
        ensures repadded { (psk : List ℕ) (s : Steps) (a : message.Ask) (inner pad : List ℕ)
            → IsAwaiting self.old psk (with_asked psk s a inner pad) a
            → IsRepadded psk s a inner sealed.now self.new result }
        ensures same { self.new ≡ record self.old { sent = self.new.sent } }
        ensures unchanged { result ≡ false → self.new ≡ self.old }
    {
        if !self.is_last_padded(sealed, pair) {
            return false;
        }
        self.sent.clear();
        let _ = self.sent.extend(sealed);
        true
    }
}

// The record of PSK_FINISH; used only by the checker.
impl Finishing {
    ghost use Rattle.std.specs.Prelude.{◌≡◌, ℕ, List, OnErr, false};
    ghost use Rattle.transcript.specs.Transcripts.{Negotiation};
    ghost use Rattle.psk_session.specs.Finishing.{StandsFor};
    ghost use Rattle.psk_session.specs.Opening.{accepted, finish_inner, finishing};
    ghost use Rattle.psk_session.specs.OwnRecords.{IsFinishRepadded, IsOwnOpened, TellsPadded};

    /// Opens a record as the next one that this session would send, after PSK_FINISH, and overwrites `out` with its
    /// inner message. On a fault `out` is unchanged.
    pub fn open_next(&self, sealed: &[u8], out: &mut RecordFrame) -> Result<(), RecordFault>
        ensures opened { (psk : List ℕ) (n : Negotiation) (exchange answer pad : List ℕ)
            → StandsFor self.now psk n exchange answer pad
            → IsOwnOpened psk (finishing psk n exchange answer pad) sealed.now result out.new }
        ensures unchanged { OnErr result (out.new ≡ out.old) }
    {
        open_own(&self.handshake.request_key(), self.id, 1, sealed, out)
    }

    /// Opens a record instead of that of PSK_FINISH, and overwrites `out` with its inner message. On a fault `out` is
    /// unchanged.
    pub fn open_last(&self, sealed: &[u8], out: &mut RecordFrame) -> Result<(), RecordFault>
        ensures opened { (psk : List ℕ) (n : Negotiation) (exchange answer pad : List ℕ)
            → StandsFor self.now psk n exchange answer pad
            → IsOwnOpened psk (accepted n exchange answer) sealed.now result out.new }
        ensures unchanged { OnErr result (out.new ≡ out.old) }
    {
        open_own(&self.handshake.request_key(), self.id, 0, sealed, out)
    }

    // Whether bytes are the record of PSK_FINISH, with a padding of at most 16 bytes.
    fn is_last_padded(&self, sealed: &[u8], pair: &mut InnerPair) -> bool
        ensures { (psk : List ℕ) (n : Negotiation) (exchange answer pad : List ℕ)
            → StandsFor self.now psk n exchange answer pad
            → TellsPadded psk (accepted n exchange answer)
            (finish_inner psk (accepted n exchange answer)) sealed.now result }
    {
        is_padded_anew(
            &self.handshake.request_key(),
            self.id,
            0,
            self.sent.as_slice(),
            sealed,
            pair,
        )
    }

    /// Replaces the record of PSK_FINISH by these bytes, if they are that record with some padding of at most 16 bytes.
    /// Returns whether they are; otherwise nothing changes.
    pub fn take_padded(&mut self, sealed: &[u8], pair: &mut InnerPair) -> bool
        ensures repadded { (psk : List ℕ) (n : Negotiation) (exchange answer pad : List ℕ)
            → StandsFor self.old psk n exchange answer pad
            → IsFinishRepadded psk n exchange answer sealed.now self.new result }
        ensures unchanged { result ≡ false → self.new ≡ self.old }
    {
        if !self.is_last_padded(sealed, pair) {
            return false;
        }
        self.sent.clear();
        let _ = self.sent.extend(sealed);
        true
    }
}
