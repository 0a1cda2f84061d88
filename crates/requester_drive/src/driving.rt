ghost use Rattle.std.specs.Prelude.{◌≡◌, ◌≤◌, ◌<◌, ◌-◌, ◌^◌, [], ℕ, List, Some, IfErr, OnOk, length};
ghost use Rattle.frame_stream.specs.Frames.{stream_limit};
ghost use Rattle.frame_stream.specs.Frames.Ending.{Done};
ghost use Rattle.frame_stream.specs.Runs.{IsFresh};
ghost use Rattle.frame_stream.specs.Standing.{in_front, left_of};
ghost use Rattle.requester.specs.Standing.{StandsFor};
ghost use Rattle.requester_drive.specs.Driven.{IsDriven, driven_kinds};
ghost use Rattle.requester_drive.specs.First.{first_in_life};
ghost use Rattle.requester_drive.specs.Standing.{IsCause, IsKept};
ghost use Rattle.requester_drive.specs.Told.{IsLate, IsRefusal, IsUnread};
ghost use Rattle.requester_machine.specs.Requesting.{Requesting};

use crate::DriveFault;
use crate::telling::Driver;
use script_text::{MOST_BYTES, ScriptConfig};
use spdm_basis::{Sink, Source};
use std::alloc::Global;

/// Drives the first requester of this configuration, with this seed, in the life of this boot number, by a stream of
/// frames of which the bytes `before` were read already: reads the frames in order, gives packets (kind 1) to the
/// requester, whatever endpoint they name, and tells it the commands in lines (kind 3). Before it reads on it writes
/// what a frame led to: the trace lines of the requester as frames of kind 4, without their line feeds, and then the
/// packets that it sent as frames of kind 1.
///
/// After `Ok` the stream was read to its end and all was written. Returns `BadFrame` exactly when a frame has another
/// kind, is cut by the end of input, or is a line that is no command of requester 1; and `TooLong` exactly when the
/// stream goes on beyond 2^40 bytes without one; what all frames in front led to is written then. `ReadFault` and
/// `WriteFault` are returned only if the `faults` count of the source or the sink rose; after the second a prefix was
/// written. `Requester` has the first fault of the configuration, of which one that was read from a text has none.
/// Allocates only before the first byte is read (read, not proved).
pub fn drive<S: Source, K: Sink>(
    alloc: Global,
    config: &ScriptConfig,
    seed: [u8; 32],
    boot: u32,
    before: &[u8],
    source: &mut S,
    sink: &mut K,
) -> Result<(), DriveFault>
    requires some { 0 < length config.now.requesters }
    requires boot { boot ≤ 2 ^ 24 - 2 }
    ensures driven { (a : Requesting) → first_in_life config.now seed boot ≡ Some a → OnOk result
        (IsDriven config.now a (in_front before.now (S.remaining source.old))
        (K.contents sink.old) (K.contents sink.new) Done) }
    ensures end { OnOk result ((left : List ℕ) → S.remaining source.old ≡ Some left
        → S.remaining source.new ≡ Some []) }
    ensures fault { (a : Requesting) → first_in_life config.now seed boot ≡ Some a → IfErr result
        (IsCause config.now a (in_front before.now (S.remaining source.old))
        (K.contents sink.old) (K.contents sink.new) (record {
          read_before = S.faults source.old;
          read_after = S.faults source.new;
          written_before = K.faults sink.old;
          written_after = K.faults sink.new;
        })) }
    ensures refused { IfErr result (IsRefusal config.now) }
    ensures unread { IfErr result (IsUnread (S.remaining source.old) (S.remaining source.new)) }
    ensures read_later { S.faults source.old ≤ S.faults source.new }
    ensures written_later { K.faults sink.old ≤ K.faults sink.new }
{
    match Driver::new(alloc, config, seed, boot, before) {
        Ok(driver) => match run(driver, config, source, sink) {
            Ok(()) => Ok(()),
            Err(fault) => Err(fault),
        },
        Err(fault) => Err(fault),
    }
}

// Drives the requester by all frames.
fn run<S: Source, K: Sink>(
    driver: Driver,
    config: &ScriptConfig,
    source: &mut S,
    sink: &mut K,
) -> Result<(), DriveFault>
    requires fresh { IsFresh driven_kinds stream_limit driver.reader }
    requires kept { IsKept driver.requester }
    ensures driven { (a : Requesting) → StandsFor driver.requester a → OnOk result
        (IsDriven config.now a (left_of driver.reader (S.remaining source.old))
        (K.contents sink.old) (K.contents sink.new) Done) }
    ensures end { OnOk result ((left : List ℕ) → S.remaining source.old ≡ Some left
        → S.remaining source.new ≡ Some []) }
    ensures fault { (a : Requesting) → StandsFor driver.requester a → IfErr result
        (IsCause config.now a (left_of driver.reader (S.remaining source.old))
        (K.contents sink.old) (K.contents sink.new) (record {
          read_before = S.faults source.old;
          read_after = S.faults source.new;
          written_before = K.faults sink.old;
          written_after = K.faults sink.new;
        })) }
    ensures late { IfErr result IsLate }
    ensures read_later { S.faults source.old ≤ S.faults source.new }
    ensures written_later { K.faults sink.old ≤ K.faults sink.new }
{
    let mut driver = driver;
    let mut room = [0; MOST_BYTES];
    loop {
        match driver.drive_next(config, &mut room, source, sink) {
            Ok(true) => {}
            Ok(false) => return Ok(()),
            Err(fault) => return Err(fault),
        }
    }
}
