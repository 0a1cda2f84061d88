ghost use Rattle.std.specs.Prelude.{◌≡◌, replicate, slice_get};
ghost use Rattle.std.specs.Option.{option_map};
ghost use Rattle.c_ends.specs.Showing.{aead_code, hash_code, phase_code, shown, stage_code, yes_code};
ghost use Rattle.c_ends.specs.Writing.{IsPut, over};
ghost use Rattle.c_ends.specs.declared.codes.TheConstants.{NONE};

use crate::codes;
use crate::packet_outcome::session_number;
use crate::writing::write_over;
use responder::Phase;
use spdm_basis::{AeadAlg, HashAlg, HashBytes};
use spdm_grammar::{SessionList, SessionView, Stage};

/// A session as an end shows it. The numbers are those of `specs/Showing.antt`.
#[repr(C)]
#[derive(Clone, Copy, Debug, PartialEq, Eq)]
pub struct Session {
    /// ReqSessionID in the low half, and RspSessionID in the high one.
    pub id: u32,
    pub stage: u32,
    /// Key epoch of the request direction: the number of updates.
    pub request_epoch: u64,
    /// Key epoch of the response direction: the number of updates.
    pub response_epoch: u64,
    /// Sequence number of the next request record.
    pub request_next: u32,
    /// Sequence number of the next response record.
    pub response_next: u32,
    /// Application messages received at this endpoint.
    pub taken: u64,
    pub hash_alg: u32,
    pub aead_alg: u32,
    /// 1: measurements were chosen.
    pub measure: u32,
    /// The length of the hash in bytes: 32 or 48.
    pub hash_len: u32,
    /// The hash of T1 in the handshake, and of T2 after it; zeros behind it.
    pub hash: [u8; 48],
}

/// The number of a phase.
pub fn phase_code(phase: Phase) -> u32
    ensures { result ≡ phase_code phase }
{
    match phase {
        Phase::Fresh => 0,
        Phase::Versioned => 1,
        Phase::Capable => 2,
        Phase::Negotiated => 3,
    }
}

fn stage_code(stage: Stage) -> u32
    ensures { result ≡ stage_code stage }
{
    match stage {
        Stage::Handshake => 1,
        Stage::Open => 2,
        Stage::Verifying => 3,
    }
}

fn hash_code(alg: HashAlg) -> u32
    ensures { result ≡ hash_code alg }
{
    match alg {
        HashAlg::Sha256 => 1,
        HashAlg::Sha384 => 2,
    }
}

fn aead_code(alg: AeadAlg) -> u32
    ensures { result ≡ aead_code alg }
{
    match alg {
        AeadAlg::Aes128Gcm => 1,
        AeadAlg::Aes256Gcm => 2,
    }
}

fn yes_code(yes: bool) -> u32
    ensures { result ≡ yes_code yes }
{
    if yes { 1 } else { 0 }
}

// A hash at the beginning of 48 bytes.
fn padded(hash: &HashBytes) -> [u8; 48]
    ensures { result ≡ over hash.now (replicate 48 0) }
{
    let mut padded = [0; 48];
    write_over(hash.as_slice(), &mut padded);
    padded
}

/// A session as C is shown it.
pub fn shown(view: &SessionView) -> Session
    ensures { result ≡ shown view.now }
{
    Session {
        id: session_number(view.id),
        stage: stage_code(view.stage),
        request_epoch: view.request_epoch,
        response_epoch: view.response_epoch,
        request_next: view.request_next,
        response_next: view.response_next,
        taken: view.taken,
        hash_alg: hash_code(view.choice.hash),
        aead_alg: aead_code(view.choice.aead),
        measure: yes_code(view.choice.measure),
        hash_len: view.hash.as_slice().len() as u32,
        hash: padded(&view.hash),
    }
}

/// Writes the session of an index.
pub fn put_session(sessions: &SessionList, index: usize, session: &mut Session) -> u32
    ensures { IsPut (option_map shown (slice_get sessions.now index)) NONE result session.old session.new }
{
    match sessions.as_slice().get(index) {
        Some(view) => {
            *session = shown(view);
            codes::OK
        }
        None => codes::NONE,
    }
}
