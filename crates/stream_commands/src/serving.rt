ghost use Rattle.std.specs.Prelude.{◌≡◌, ◌≤◌, ◌⊎◌, ◌-◌, ◌^◌, List, Option, ℕ, Err, Some};
ghost use Rattle.spdm_basis.specs.Stream.{IsQuiet};
ghost use Rattle.stream_commands.specs.StreamStart.{IsBegun, IsRead};
ghost use Rattle.stream_commands.specs.InputEnds.{HasEnd, InputEnd, IsStreamToServe, answer_for};
ghost use Rattle.stream_commands.specs.Outside.{IsFollowedBy, outside};
ghost use Rattle.stream_commands.specs.Served.{IsAnswered, serving_command};

use crate::StreamFault;
use crate::begin::begin;
use responder_serve::serve;
use script_text::ScriptConfig;
use spdm_basis::{Seeds, Sink, Source};
use std::alloc::Global;

/// Serves the stream behind a beginning, in the life of a boot number.
pub(crate) fn serve_behind<S: Source, K: Sink>(
    alloc: Global,
    config: &ScriptConfig,
    seed: [u8; 32],
    boot: u32,
    before: &[u8],
    source: &mut S,
    sink: &mut K,
) -> Result<(), StreamFault>
    requires read { IsRead config.now }
    requires boot { boot ≤ 2 ^ 24 - 2 }
    ensures followed { (left : Option (List ℕ)) (seeds others : Option (List (List ℕ)))
        (reads seeded_before seeded_after : ℕ)
        → IsBegun left seeds (record { config = config.now; seed = seed; before = before.now })
        (S.remaining source.old) others → reads ≤ S.faults source.old
        → IsFollowedBy serving_command boot
        (outside left (K.contents sink.old) seeds reads (K.faults sink.old) seeded_before)
        (outside (S.remaining source.new) (K.contents sink.new) others (S.faults source.new)
        (K.faults sink.new) seeded_after) result }
    ensures read_later { S.faults source.old ≤ S.faults source.new }
    ensures written_later { K.faults sink.old ≤ K.faults sink.new }
{
    match serve(alloc, config, seed, boot, before, source, sink) {
        Ok(()) => Ok(()),
        Err(fault) => Err(StreamFault::of_serving(fault)),
    }
}

/// Reads a configuration up to `end`, takes one seed, and serves the stream of frames after: the responder that is
/// configured, with the seed, answers packets in order, and lets seconds pass. The answers to a frame are written
/// before the next read. Allocates only before the first frame (read, not proved).
pub fn serve_input<S: Source, K: Sink, E: Seeds>(
    alloc: Global,
    source: &mut S,
    sink: &mut K,
    seeds: &mut E,
) -> Result<(), StreamFault>
    ensures answers { IsAnswered
        (outside (S.remaining source.old) (K.contents sink.old) (E.left seeds.old)
        (S.faults source.old) (K.faults sink.old) (E.faults seeds.old))
        (outside (S.remaining source.new) (K.contents sink.new) (E.left seeds.new)
        (S.faults source.new) (K.faults sink.new) (E.faults seeds.new)) result }

    // Where nothing fails, the answer is that to the end of the input, unless memory runs out.
    ensures exact { (input : List ℕ) (end : InputEnd) → S.remaining source.old ≡ Some input
        → HasEnd IsStreamToServe input end → IsQuiet (S.faults source.old) (S.faults source.new)
        → IsQuiet (K.faults sink.old) (K.faults sink.new)
        → IsQuiet (E.faults seeds.old) (E.faults seeds.new)
        → (result ≡ Err (StreamFault.OutOfMemory)) ⊎ (result ≡ answer_for end) }
    ensures read_later { S.faults source.old ≤ S.faults source.new }
    ensures written_later { K.faults sink.old ≤ K.faults sink.new }
    ensures seeded_later { E.faults seeds.old ≤ E.faults seeds.new }
{
    match begin(alloc, source, seeds) {
        Ok(begun) => serve_behind(
            alloc,
            &begun.config,
            begun.seed,
            0,
            begun.before.as_slice(),
            source,
            sink,
        ),
        Err(fault) => Err(fault),
    }
}
