ghost use Rattle.std.specs.Prelude.{◌≡◌, ◌≤◌, ◌<◌, ◌-◌, ◌^◌, [], ℕ, List, Some, None, IfErr, IfOk, OnOk, length};
ghost use Rattle.appraise.specs.Policies.{policy_fault};
ghost use Rattle.appraise.specs.declared.appraisal.Appraisal.{Appraisal};
ghost use Rattle.attestor.specs.Attesting.{Attesting};
ghost use Rattle.frame_stream.specs.Frames.{stream_limit};
ghost use Rattle.frame_stream.specs.Runs.{IsFresh};
ghost use Rattle.frame_stream.specs.Standing.{in_front, left_of};
ghost use Rattle.requester_attest.specs.Attested.{Appraises, HasVerdict, attested_kinds, attesting_in_life};
ghost use Rattle.requester_attest.specs.Standing.{IsCause, IsKept, StandsFor};
ghost use Rattle.requester_drive.specs.Told.{IsLate, IsRefusal, IsUnread};

use crate::attending::Attending;
use appraise::{Appraisal, Policy};
use requester_drive::DriveFault;
use script_text::ScriptConfig;
use spdm_basis::{Sink, Source};
use std::alloc::Global;

/// Runs the first requester of this configuration, with this seed, in the life of this boot number, up to a verdict under
/// this policy, on a stream of frames of which the bytes `before` were read already: it connects, opens a session, asks for all measurements in it, appraises
/// them, and ends the session. Writes the first request, and then reads the frames in order: packets (kind 1) are given to
/// the requester, whatever endpoint they name, and where seconds passed (kind 2) its outstanding request is sent again.
/// Before it reads on it writes what a frame led to: where the record came, what it comes to, and where none will come,
/// that it failed, as a frame of kind 4, and then the packets that were sent as frames of kind 1.
///
/// After `Ok` the stream was read to its end, all was written, and this is the verdict; `None` where no record came.
/// `BadFrame` is returned exactly when a frame has another kind or is cut by the end of input; and `TooLong` exactly when
/// the stream goes on beyond 2^40 bytes without one; what all frames in front led to is written then. `ReadFault` and
/// `WriteFault` are returned only if the `faults` count of the source or the sink rose; after the second a prefix was
/// written. `Requester` has the first fault of the configuration, of which one that was read from a text has none.
/// Allocates only before the first byte is written (read, not proved).
pub fn attest<S: Source, K: Sink>(
    alloc: Global,
    config: &ScriptConfig,
    policy: Policy,
    seed: [u8; 32],
    boot: u32,
    before: &[u8],
    source: &mut S,
    sink: &mut K,
) -> Result<Option<Appraisal>, DriveFault>
    requires some { 0 < length config.now.requesters }
    requires boot { boot ≤ 2 ^ 24 - 2 }
    requires sound { policy_fault policy ≡ None }
    ensures attested { (appraised : List ℕ → Appraisal) (a : Attesting)
        → attesting_in_life config.now policy seed boot ≡ Some a → Appraises policy appraised
        → IfOk result (λ verdict. HasVerdict appraised a
        (in_front before.now (S.remaining source.old)) (K.contents sink.old) (K.contents sink.new)
        verdict) }
    ensures end { OnOk result ((left : List ℕ) → S.remaining source.old ≡ Some left
        → S.remaining source.new ≡ Some []) }
    ensures fault { (appraised : List ℕ → Appraisal) (a : Attesting)
        → attesting_in_life config.now policy seed boot ≡ Some a → Appraises policy appraised
        → IfErr result (IsCause appraised a (in_front before.now (S.remaining source.old))
        (K.contents sink.old) (K.contents sink.new) (record {
          read_before = S.faults source.old;
          read_after = S.faults source.new;
          written_before = K.faults sink.old;
          written_after = K.faults sink.new;
        })) }
    ensures refused { IfErr result (IsRefusal config.now) }
    ensures unread { IfErr result (IsUnread (S.remaining source.old) (S.remaining source.new)) }
    ensures read_later { S.faults source.old ≤ S.faults source.new }
    ensures written_later { K.faults sink.old ≤ K.faults sink.new }
{
    match Attending::new(alloc, config, policy, seed, boot, before) {
        Ok(attending) => match run(attending, source, sink) {
            Ok(verdict) => Ok(verdict),
            Err(fault) => Err(fault),
        },
        Err(fault) => Err(fault),
    }
}

// Writes the first request, and what all frames lead to. Returns the verdict.
fn run<S: Source, K: Sink>(
    attending: Attending,
    source: &mut S,
    sink: &mut K,
) -> Result<Option<Appraisal>, DriveFault>
    requires fresh { IsFresh attested_kinds stream_limit attending.reader }
    requires kept { IsKept attending }
    ensures attested { (appraised : List ℕ → Appraisal) (a : Attesting)
        → StandsFor attending appraised a → IfOk result (λ verdict. HasVerdict appraised a
        (left_of attending.reader (S.remaining source.old)) (K.contents sink.old)
        (K.contents sink.new) verdict) }
    ensures end { OnOk result ((left : List ℕ) → S.remaining source.old ≡ Some left
        → S.remaining source.new ≡ Some []) }
    ensures fault { (appraised : List ℕ → Appraisal) (a : Attesting)
        → StandsFor attending appraised a → IfErr result (IsCause appraised a
        (left_of attending.reader (S.remaining source.old)) (K.contents sink.old)
        (K.contents sink.new) (record {
          read_before = S.faults source.old;
          read_after = S.faults source.new;
          written_before = K.faults sink.old;
          written_after = K.faults sink.new;
        })) }
    ensures late { IfErr result IsLate }
    ensures read_later { S.faults source.old ≤ S.faults source.new }
    ensures written_later { K.faults sink.old ≤ K.faults sink.new }
{
    let mut attending = attending;
    match attending.begin(sink) {
        Ok(()) => {}
        Err(_) => return Err(DriveFault::WriteFault),
    }
    loop {
        match attending.attest_next(source, sink) {
            Ok(true) => {}
            Ok(false) => return Ok(attending.verdict),
            Err(fault) => return Err(fault),
        }
    }
}
