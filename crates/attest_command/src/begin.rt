ghost use Rattle.std.specs.Prelude.{◌≡◌, ◌≤◌, IfErr, IfOk, OnErr};
ghost use Rattle.attest_command.specs.AttestStart.{IsBeginCause, IsBegun};

use crate::parsing::{Parsed, parse};
use crate::texts::read_texts;
use spdm_basis::{Buffer, Seeds, Source};
use std::alloc::Global;
use stream_commands::StreamFault;

/// What precedes a stream: the configuration and the policy, a seed for the requester that they set up, and the bytes of
/// the stream that were read with them.
#[derive(Drop)]
pub(crate) struct AttestStart {
    pub(crate) parsed: Parsed,
    pub(crate) seed: [u8; 32],
    pub(crate) before: Buffer<4096>,
}

/// Reads the texts before a stream, and takes one seed. After a fault no seed is gone.
pub(crate) fn begin<S: Source, E: Seeds>(
    alloc: Global,
    source: &mut S,
    seeds: &mut E,
) -> Result<AttestStart, StreamFault>
    ensures begun { IfOk result (λ begun. IsBegun (S.remaining source.old) (E.left seeds.old) begun
        (S.remaining source.new) (E.left seeds.new)) }
    ensures fault { IfErr result (IsBeginCause (S.remaining source.old) (record {
      read_before = S.faults source.old;
      read_after = S.faults source.new;
      seeded_before = E.faults seeds.old;
      seeded_after = E.faults seeds.new;
    })) }
    ensures same { OnErr result (E.left seeds.new ≡ E.left seeds.old) }
    ensures read_later { S.faults source.old ≤ S.faults source.new }
    ensures seeded_later { E.faults seeds.old ≤ E.faults seeds.new }
{
    let texts = match read_texts(alloc, source) {
        Ok(texts) => texts,
        Err(fault) => return Err(fault),
    };
    let parsed = match parse(alloc, &texts) {
        Ok(parsed) => parsed,
        Err(fault) => return Err(fault),
    };
    match seeds.seed() {
        Ok(seed) => Ok(AttestStart {
            parsed,
            seed,
            before: texts.before,
        }),
        Err(_) => Err(StreamFault::SeedFault),
    }
}
