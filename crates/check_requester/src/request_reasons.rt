//! Why no request goes on with what came. Here it is decided that the verify data of PSK_FINISH alone are wrong
//! (`bad-verify`): `is_finish_apart`.
ghost use Rattle.std.specs.Prelude.{◌≡◌, ◌≤◌, ◌<◌, ◌-◌, ◌^◌, ◌&&◌, ℕ, Some, drop, length, nat_lt, true};
ghost use Rattle.requester_core.specs.Joined.{StandsFor};
ghost use Rattle.requester_core.specs.Owed.{TookFor};
ghost use Rattle.requester_core.specs.OwnRecords.{OpensAs};
ghost use Rattle.requester_core.specs.Slot.{shown_of};
ghost use Rattle.requester_machine.specs.History.{History};
ghost use Rattle.requester_machine.specs.Message.{Sent, body_of};
ghost use Rattle.requester_machine.specs.Named.{session_named};
ghost use Rattle.requester_machine.specs.Owed.{with_next};
ghost use Rattle.requester_machine.specs.Setup.{ReqSetup};
ghost use Rattle.check_requester.specs.RefusedRequest.{IsFinishShown, finish_apart, is_handshake};
ghost use Rattle.capture_machine.specs.Difference as difference;
ghost use Rattle.capture_machine.specs.Difference.{finish_in};
ghost use Rattle.capture_machine.specs.Opening.{opens_asking};
ghost use Rattle.spdm_grammar.specs.declared.names.TheConstants.{MAX_RECORDS};
ghost use Rattle.secured_record.specs.declared.TheConstants.{MAX_RECORD_SIZE};

use requester_core::RequesterCore;
use session_keys::same_bytes;
use spdm_basis::RecordFrame;
use spdm_grammar::names::MAX_RECORDS;
use spdm_grammar::{SessionView, Stage};

// The most bytes that a record has beside its inner message: 26 of its own, and 16 of padding.
const MOST_AROUND: usize = 42;

// The session that a record names, as it is shown.
fn named_view(asking: &RequesterCore, sealed: &[u8]) -> Option<SessionView>
    ensures { (q : ReqSetup) (h : History) → length h < 2 ^ 64 - 1 → StandsFor asking.now q h
        → result ≡ shown_of (session_named h sealed.now) }
{
    match asking.named(sealed) {
        Some(id) => asking.view(id),
        None => None,
    }
}

// Whether a key has a number left that sealed as many records as this.
fn has_number(next: u32) -> bool
    ensures { result ≡ nat_lt next MAX_RECORDS }
{
    next < MAX_RECORDS
}

// Whether a record opens as the next one of the session that it names, whose key has a number left.
// Where it does, its inner message overwrites `inner`.
pub(crate) fn opens_next(asking: &RequesterCore, inner: &mut RecordFrame, sealed: &[u8]) -> bool
    ensures told { (q : ReqSetup) (h : History) → length h < 2 ^ 64 - 1
        → StandsFor asking.now q h
        → result ≡ opens_asking q (session_named h sealed.now) sealed.now }
    ensures opened { (q : ReqSetup) (h : History) → length h < 2 ^ 64 - 1
        → StandsFor asking.now q h → result ≡ true
        → OpensAs q.psk (session_named h sealed.now) sealed.now true inner.new }
{
    let Some(view) = named_view(asking, sealed) else {
        return false;
    };
    if !has_number(view.request_next) {
        return false;
    }
    asking.open_next(sealed, inner)
}

// The same without the outstanding message, where that was sent by itself in response to the last message.
pub(crate) fn opens_before(asking: &RequesterCore, inner: &mut RecordFrame, sealed: &[u8]) -> bool
    ensures { (q : ReqSetup) (bare : History) (sent : Sent) → TookFor bare sent.aim
        → length bare < 2 ^ 64 - 1 → StandsFor asking.now q (with_next (Some sent) bare)
        → result ≡ opens_asking q (session_named bare sealed.now) sealed.now }
{
    asking.open_before(sealed, inner)
}

// ---- PSK_FINISH.

// A record with an inner message has at most 16 bytes of padding.
fn is_padded(sealed: &[u8], inner: &[u8]) -> bool
    ensures { result ≡ difference.is_padded sealed.now inner.now }
{
    sealed.len() <= inner.len().saturating_add(MOST_AROUND)
}

// Two messages of one length differ in their last bytes alone, as many as verify data have.
fn is_apart(size: usize, one: &[u8], other: &[u8]) -> bool
    ensures { result ≡ difference.is_apart size one.now other.now }
{
    if one.len() != other.len() {
        return false;
    }
    if same_bytes(one, other) {
        return false;
    }
    let front = one.len().saturating_sub(size);
    same_bytes(one.split_at(front).0, other.split_at(front).0)
}

// The inner message of a record is apart from another, and the record has at most 16 bytes of padding.
fn is_padded_apart(size: usize, own: &[u8], inner: &[u8], sealed: &[u8]) -> bool
    ensures { result ≡ (difference.is_padded sealed.now inner.now
        && difference.is_apart size own.now inner.now) }
{
    is_padded(sealed, inner) && is_apart(size, own, inner)
}

// Whether a session is in its handshake.
fn is_handshake(stage: Stage) -> bool
    ensures { result ≡ is_handshake stage }
{
    matches!(stage, Stage::Handshake)
}

// The session whose PSK_FINISH is outstanding, as it is shown.
fn finish_view(asking: &RequesterCore) -> Option<SessionView>
    ensures { (q : ReqSetup) (bare : History) (sent : Sent) → TookFor bare sent.aim
        → length bare < 2 ^ 64 - 1 → StandsFor asking.now q (with_next (Some sent) bare)
        → IsFinishShown (with_next (Some sent) bare) (finish_in (Some sent)) result }
{
    let Some(id) = asking.session_awaited() else {
        return None;
    };
    let Some(view) = asking.view(id) else {
        return None;
    };
    if is_handshake(view.stage) {
        Some(view)
    } else {
        None
    }
}

// Whether a record is apart from the PSK_FINISH that is outstanding in this record, where that was sent by itself in
// response to the last message. The inner messages of both overwrite `own` and `inner`.
pub(crate) fn is_finish_apart(
    asking: &RequesterCore,
    record: &[u8],
    own: &mut RecordFrame,
    inner: &mut RecordFrame,
    sealed: &[u8],
) -> bool
    ensures { (q : ReqSetup) (bare : History) (sent : Sent) → TookFor bare sent.aim
        → length bare < 2 ^ 64 - 1 → record.now ≡ drop 1 (body_of sent.content)
        → length record.now ≤ MAX_RECORD_SIZE → StandsFor asking.now q (with_next (Some sent) bare)
        → result ≡ finish_apart q bare sealed.now (finish_in (Some sent)) }
{
    let Some(view) = finish_view(asking) else {
        return false;
    };
    if !asking.open_owed(record, own) {
        return false;
    }
    if !asking.open_owed(sealed, inner) {
        return false;
    }
    let size = view.choice.hash.size();
    is_padded_apart(size, own.as_slice(), inner.as_slice(), sealed)
}
