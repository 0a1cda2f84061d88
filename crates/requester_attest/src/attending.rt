ghost use Rattle.std.specs.Prelude.{◌≡◌};
ghost use Rattle.requester_attest.specs.Standing.{verdict_after};
ghost use Rattle.requester_drive.specs.Told.{told_of};

use crate::making::first_attestor;
use crate::writing::write_step;
use appraise::{Appraisal, Policy};
use attestor::{Attestor, Progressed};
use frame_stream::{FrameFault, FrameKind, FrameReader, Kinds};
use mctp_framing::PacketList;
use requester_drive::DriveFault;
use script_text::ScriptConfig;
use spdm_basis::{OutFault, Sink, Source};
use std::alloc::Global;

// An attestor reads packets and seconds that passed.
const ATTESTED: Kinds = Kinds {
    ticks: true,
    commands: false,
};

/// An attestor, the reader of its stream, room for the packets that it sends, and the verdict, once there is one.
#[derive(Drop)]
pub(crate) struct Attending {
    pub(crate) attestor: Attestor,
    pub(crate) reader: FrameReader,
    pub(crate) out: PacketList,
    pub(crate) verdict: Option<Appraisal>,
}

// The fault of a call, as it is reported.
fn fault_of(fault: FrameFault) -> DriveFault
    ensures { result ≡ told_of fault }
{
    match fault {
        FrameFault::ReadFault => DriveFault::ReadFault,
        FrameFault::TooLong => DriveFault::TooLong,
        FrameFault::BadFrame { at } => DriveFault::BadFrame { at },
    }
}

// The verdict after a packet that came to this.
fn verdict_after(progress: Progressed, before: Option<Appraisal>) -> Option<Appraisal>
    ensures { result ≡ verdict_after progress before }
{
    match progress {
        Progressed::Verdict(appraisal) => Some(appraisal),
        Progressed::Going | Progressed::Failed => before,
    }
}

impl Attending {
    ghost use Rattle.std.specs.Prelude.{◌≡◌, ◌≤◌, ◌<◌, ◌-◌, ◌^◌, ℕ, List, Some, IfErr, IfOk, OnErr, OnOk, length};
    ghost use Rattle.appraise.specs.declared.appraisal.Appraisal.{Appraisal};
    ghost use Rattle.attestor.specs.Attesting.{Attesting, attesting_given, attesting_started, attesting_timed};
    ghost use Rattle.frame_stream.specs.Frames.{stream_limit};
    ghost use Rattle.frame_stream.specs.Standing.{IsNew, content_in};
    ghost use Rattle.requester_attest.specs.Attested.{Appraises, attested_kinds, attesting_in_life, step_frames};
    ghost use Rattle.requester_attest.specs.Standing.{IsAttestedBy, IsKept, IsStarted, IsStep, IsStepFault, StandsFor};
    ghost use Rattle.requester_drive.specs.Told.{IsEarly};
    ghost use Rattle.spdm_basis.specs.Stream.{HasFault, TakesPrefix};

    // An attestor over the first requester of a configuration with this seed, in the life of this boot number, and its
    // stream, of which some bytes were read already. Allocates all its memory here (read, not proved).
    pub(crate) fn new(
        alloc: Global,
        config: &ScriptConfig,
        policy: Policy,
        seed: [u8; 32],
        boot: u32,
        before: &[u8],
    ) -> Result<Attending, DriveFault>
        requires some { 0 < length config.now.requesters }
        requires boot { boot ≤ 2 ^ 24 - 2 }
        ensures stands { (appraised : List ℕ → Appraisal) (a : Attesting)
            → attesting_in_life config.now policy seed boot ≡ Some a → Appraises policy appraised
            → IfOk result (λ attending. StandsFor attending appraised a) }
        ensures reader { IfOk result
            (λ attending. IsNew attested_kinds stream_limit before.now attending.reader) }
        ensures fault { IfErr result (IsEarly config.now) }
    {
        let Ok(reader) = FrameReader::new(alloc, ATTESTED, before) else {
            return Err(DriveFault::OutOfMemory);
        };
        let Ok(out) = PacketList::new(alloc) else {
            return Err(DriveFault::OutOfMemory);
        };
        match first_attestor(alloc, config, policy, seed, boot) {
            Ok(attestor) => Ok(Attending {
                attestor,
                reader,
                out,
                verdict: None,
            }),
            Err(fault) => Err(fault),
        }
    }

    // Writes the first request.
    pub(crate) fn begin<K: Sink>(&mut self, sink: &mut K) -> Result<(), OutFault>
        requires { IsKept self.old }
        ensures reader { self.new.reader ≡ self.old.reader }
        ensures begun { (appraised : List ℕ → Appraisal) (a : Attesting)
            → StandsFor self.old appraised a → OnOk result (IsStarted appraised a
            (K.contents sink.old) self.new (K.contents sink.new)) }
        ensures prefix { (appraised : List ℕ → Appraisal) (a : Attesting)
            → StandsFor self.old appraised a → OnErr result (TakesPrefix (K.contents sink.old)
            (step_frames appraised (attesting_started a)) (K.contents sink.new)) }
        ensures fault { OnErr result (HasFault (K.faults sink.old) (K.faults sink.new)) }
        ensures later { K.faults sink.old ≤ K.faults sink.new }
    {
        self.attestor.start(&mut self.out);
        match write_step(sink, Progressed::Going, &self.out) {
            Ok(()) => Ok(()),
            Err(fault) => Err(fault),
        }
    }

    // Gives the packet that was read to the attestor, and writes what it led to.
    fn give_packet<K: Sink>(&mut self, sink: &mut K) -> Result<(), DriveFault>
        requires { IsKept self.old }
        ensures reader { self.new.reader ≡ self.old.reader }
        ensures given { (appraised : List ℕ → Appraisal) (a : Attesting)
            → StandsFor self.old appraised a
            → IsAttestedBy appraised (attesting_given a (content_in self.old.reader))
            (K.contents sink.old) result self.new (K.contents sink.new) }
        ensures fault { OnErr result (HasFault (K.faults sink.old) (K.faults sink.new)) }
        ensures later { K.faults sink.old ≤ K.faults sink.new }
    {
        let progress = self
            .attestor
            .on_packet(self.reader.content(), &mut self.out);
        self.verdict = verdict_after(progress, self.verdict);
        match write_step(sink, progress, &self.out) {
            Ok(()) => Ok(()),
            Err(_) => Err(DriveFault::WriteFault),
        }
    }

    // Tells the attestor that time passed, and writes what it led to.
    fn pass_time<K: Sink>(&mut self, sink: &mut K) -> Result<(), DriveFault>
        requires { IsKept self.old }
        ensures reader { self.new.reader ≡ self.old.reader }
        ensures timed { (appraised : List ℕ → Appraisal) (a : Attesting)
            → StandsFor self.old appraised a → IsAttestedBy appraised (attesting_timed a)
            (K.contents sink.old) result self.new (K.contents sink.new) }
        ensures fault { OnErr result (HasFault (K.faults sink.old) (K.faults sink.new)) }
        ensures later { K.faults sink.old ≤ K.faults sink.new }
    {
        self.attestor.on_time(&mut self.out);
        match write_step(sink, Progressed::Going, &self.out) {
            Ok(()) => Ok(()),
            Err(_) => Err(DriveFault::WriteFault),
        }
    }

    // Reads the next frame and writes what it led to. Returns whether there was one.
    pub(crate) fn attest_next<S: Source, K: Sink>(
        &mut self,
        source: &mut S,
        sink: &mut K,
    ) -> Result<bool, DriveFault>
        requires kinds { self.old.reader.kinds ≡ attested_kinds }
        requires kept { IsKept self.old }
        ensures step { (appraised : List ℕ → Appraisal) (a : Attesting)
            → StandsFor self.old appraised a → IfOk result
            (λ more. IsStep appraised a self.old (S.remaining source.old) (K.contents sink.old)
            more self.new (S.remaining source.new) (K.contents sink.new)) }
        ensures fault { (appraised : List ℕ → Appraisal) (a : Attesting)
            → StandsFor self.old appraised a → IfErr result
            (λ fault. IsStepFault appraised a self.old (S.remaining source.old)
            (K.contents sink.old) (record {
              read_before = S.faults source.old;
              read_after = S.faults source.new;
              written_before = K.faults sink.old;
              written_after = K.faults sink.new;
            }) fault self.new (S.remaining source.new) (K.contents sink.new)) }
        ensures read_later { S.faults source.old ≤ S.faults source.new }
        ensures written_later { K.faults sink.old ≤ K.faults sink.new }
    {
        match self.reader.next(source) {
            Ok(None) => Ok(false),
            Ok(Some(FrameKind::Packet)) => match self.give_packet(sink) {
                Ok(()) => Ok(true),
                Err(fault) => Err(fault),
            },
            Ok(Some(FrameKind::Tick(_))) => match self.pass_time(sink) {
                Ok(()) => Ok(true),
                Err(fault) => Err(fault),
            },
            Ok(Some(FrameKind::Command)) => unreachable!(),
            Err(fault) => Err(fault_of(fault)),
        }
    }
}
