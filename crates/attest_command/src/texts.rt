ghost use Rattle.std.specs.Prelude.{◌+◌, ◌≤◌, length, IfErr, IfOk};
ghost use Rattle.attest_command.specs.AttestStart.{AreTextsOf, IsReadCause};

use frame_stream::{LastLine, read_text, read_text_to};
use script_text::TEXT_LIMIT;
use spdm_basis::{Buffer, Bytes, Source};
use std::alloc::Global;
use stream_commands::StreamFault;

/// The texts before a stream, and the bytes of the stream that were read with them.
#[derive(Drop)]
pub(crate) struct Texts {
    pub(crate) config: Bytes,
    pub(crate) policy: Bytes,
    pub(crate) before: Buffer<4096>,
}

/// Reads a configuration up to `end`, and a policy after it up to `go`. Where one of these lines is missing, what follows
/// is read to the end of input. Together the texts have at most 4 MiB.
pub(crate) fn read_texts<S: Source>(alloc: Global, source: &mut S) -> Result<Texts, StreamFault>
    ensures texts { IfOk result (λ texts. AreTextsOf (S.remaining source.old) texts
        (S.remaining source.new)) }
    ensures within { IfOk result
        (λ texts. length texts.config + length texts.policy ≤ TEXT_LIMIT) }
    ensures fault { IfErr result (IsReadCause (S.remaining source.old) (S.faults source.old)
        (S.faults source.new)) }
    ensures later { S.faults source.old ≤ S.faults source.new }
{
    let config = match read_text(alloc, source, TEXT_LIMIT) {
        Ok(config) => config,
        Err(fault) => return Err(StreamFault::of_reading(fault)),
    };
    let limit = TEXT_LIMIT - config.text.as_slice().len();
    match read_text_to(alloc, LastLine::Go, config.before, source, limit) {
        Ok(policy) => Ok(Texts {
            config: config.text,
            policy: policy.text,
            before: policy.before,
        }),
        Err(fault) => Err(StreamFault::of_reading(fault)),
    }
}
