ghost use Rattle.std.specs.Prelude.{◌≡◌, ◌≤◌, length, IfErr, IfOk, OnErr};
ghost use Rattle.stream_commands.specs.StreamStart.{IsBeginCause, IsBegun, IsParsed};

use crate::StreamFault;
use frame_stream::read_text;
use script_text::{ScriptConfig, TEXT_LIMIT, parse_config};
use spdm_basis::{Buffer, Seeds, Source};
use std::alloc::Global;

/// What precedes a stream: the configuration, a seed for the end that it sets up, and the bytes of the stream that were
/// read with the text.
#[derive(Drop)]
pub(crate) struct StreamStart {
    pub(crate) config: ScriptConfig,
    pub(crate) seed: [u8; 32],
    pub(crate) before: Buffer<4096>,
}

// The configuration that a text is.
fn parse(alloc: Global, text: &[u8]) -> Result<ScriptConfig, StreamFault>
    requires { length text.now ≤ TEXT_LIMIT }
    ensures { IsParsed text.now result }
{
    match parse_config(alloc, text) {
        Ok(config) => Ok(config),
        Err(fault) => Err(StreamFault::of_text(fault)),
    }
}

/// Reads the text up to `end` or, where there is none, to the end of input, and takes one seed. After a fault no seed
/// is gone.
pub(crate) fn begin<S: Source, E: Seeds>(
    alloc: Global,
    source: &mut S,
    seeds: &mut E,
) -> Result<StreamStart, StreamFault>
    ensures begun { IfOk result (λ begun. IsBegun (S.remaining source.old) (E.left seeds.old) begun
        (S.remaining source.new) (E.left seeds.new)) }
    ensures fault { IfErr result (IsBeginCause (S.remaining source.old) (record {
      read_before = S.faults source.old;
      read_after = S.faults source.new;
      seeded_before = E.faults seeds.old;
      seeded_after = E.faults seeds.new;
    })) }
    ensures same { OnErr result (E.left seeds.new ≡ E.left seeds.old) }
    ensures read_later { S.faults source.old ≤ S.faults source.new }
    ensures seeded_later { E.faults seeds.old ≤ E.faults seeds.new }
{
    let read = match read_text(alloc, source, TEXT_LIMIT) {
        Ok(read) => read,
        Err(fault) => return Err(StreamFault::of_reading(fault)),
    };
    let config = match parse(alloc, read.text.as_slice()) {
        Ok(config) => config,
        Err(fault) => return Err(fault),
    };
    match seeds.seed() {
        Ok(seed) => Ok(StreamStart {
            config,
            seed,
            before: read.before,
        }),
        Err(_) => Err(StreamFault::SeedFault),
    }
}
