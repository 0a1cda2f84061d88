ghost use Rattle.std.specs.Prelude.{◌≡◌, ◌≤◌, ◌⊎◌, ◌-◌, ◌^◌, List, Option, ℕ, Err, Some};
ghost use Rattle.attest_command.specs.AttestStart.{IsBegun, IsRead};
ghost use Rattle.attest_command.specs.InputEnds.{Answers, HasEnd};
ghost use Rattle.attest_command.specs.Outcome.{IsAnswered, attesting_command};
ghost use Rattle.spdm_basis.specs.Stream.{IsQuiet};
ghost use Rattle.stream_commands.specs.InputEnds.{InputEnd};
ghost use Rattle.stream_commands.specs.Outside.{IsFollowedBy, outside};

use crate::begin::{AttestStart, begin};
use crate::parsing::Parsed;
use appraise::{Appraisal, Policy};
use requester_attest::attest;
use script_text::ScriptConfig;
use spdm_basis::{Seeds, Sink, Source};
use std::alloc::Global;
use stream_commands::StreamFault;

/// Runs the first requester up to a verdict on the stream behind a beginning, in the life of a boot number.
pub(crate) fn attest_behind<S: Source, K: Sink>(
    alloc: Global,
    config: &ScriptConfig,
    policy: Policy,
    seed: [u8; 32],
    boot: u32,
    before: &[u8],
    source: &mut S,
    sink: &mut K,
) -> Result<Option<Appraisal>, StreamFault>
    requires read { IsRead (record { config = config.now; policy = policy }) }
    requires boot { boot ≤ 2 ^ 24 - 2 }
    ensures followed { (left : Option (List ℕ)) (seeds others : Option (List (List ℕ)))
        (reads seeded_before seeded_after : ℕ)
        → IsBegun left seeds (record {
          parsed = record { config = config.now; policy = policy };
          seed = seed;
          before = before.now;
        }) (S.remaining source.old) others → reads ≤ S.faults source.old
        → IsFollowedBy attesting_command boot
        (outside left (K.contents sink.old) seeds reads (K.faults sink.old) seeded_before)
        (outside (S.remaining source.new) (K.contents sink.new) others (S.faults source.new)
        (K.faults sink.new) seeded_after) result }
    ensures read_later { S.faults source.old ≤ S.faults source.new }
    ensures written_later { K.faults sink.old ≤ K.faults sink.new }
{
    match attest(alloc, config, policy, seed, boot, before, source, sink) {
        Ok(verdict) => Ok(verdict),
        Err(fault) => Err(StreamFault::of_driving(fault)),
    }
}

/// Reads a configuration up to `end` and a policy up to `go`, takes one seed, and runs the first requester that is
/// configured, with the seed, up to a verdict under the policy, on the stream of frames after: it connects, opens a session,
/// asks for all measurements in it, appraises them, and ends the session. Packets of the stream are given to it, and where
/// seconds passed its outstanding request is sent again. Before the first read and before each further one what it told and
/// sent is written. Returns the verdict, and `None` where no record came. Allocates only before the first request (read, not
/// proved).
pub fn attest_input<S: Source, K: Sink, E: Seeds>(
    alloc: Global,
    source: &mut S,
    sink: &mut K,
    seeds: &mut E,
) -> Result<Option<Appraisal>, StreamFault>
    ensures answers { IsAnswered
        (outside (S.remaining source.old) (K.contents sink.old) (E.left seeds.old)
        (S.faults source.old) (K.faults sink.old) (E.faults seeds.old))
        (outside (S.remaining source.new) (K.contents sink.new) (E.left seeds.new)
        (S.faults source.new) (K.faults sink.new) (E.faults seeds.new)) result }

    // Where nothing fails, the answer is one to the end of the input, unless memory runs out.
    ensures exact { (input : List ℕ) (end : InputEnd) → S.remaining source.old ≡ Some input
        → HasEnd input end → IsQuiet (S.faults source.old) (S.faults source.new)
        → IsQuiet (K.faults sink.old) (K.faults sink.new)
        → IsQuiet (E.faults seeds.old) (E.faults seeds.new)
        → (result ≡ Err (StreamFault.OutOfMemory)) ⊎ Answers end result }
    ensures read_later { S.faults source.old ≤ S.faults source.new }
    ensures written_later { K.faults sink.old ≤ K.faults sink.new }
    ensures seeded_later { E.faults seeds.old ≤ E.faults seeds.new }
{
    let begun = match begin(alloc, source, seeds) {
        Ok(begun) => begun,
        Err(fault) => return Err(fault),
    };
    let AttestStart {
        parsed,
        seed,
        before,
    } = begun;
    let Parsed { config, policy } = parsed;
    attest_behind(
        alloc,
        &config,
        policy,
        seed,
        0,
        before.as_slice(),
        source,
        sink,
    )
}
