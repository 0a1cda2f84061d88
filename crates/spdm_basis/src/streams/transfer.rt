ghost use Rattle.std.specs.Prelude.{◌≡◌, ◌<◌, ◌≤◌, ℕ, List, [], Some, length, take, IfOk, OnOk, OnErr, IsErrOf};
ghost use Rattle.spdm_basis.specs.Stream.{Gives, GivesSome, HasFault, Takes, TakesPrefix};

use crate::{Bytes, Sink, Source};
use std::alloc::Global;
use thiserror::Error;

/// Why the whole input was not read.
#[derive(Clone, Copy, Debug, PartialEq, Eq, Error)]
pub enum InFault {
    #[error("reading failed")]
    ReadFault,
    #[error("the input is too long")]
    TooLong,
    #[error("out of memory")]
    OutOfMemory,
}

/// Why the whole text was not written.
#[derive(Clone, Copy, Debug, PartialEq, Eq, Error)]
pub enum OutFault {
    #[error("writing failed")]
    WriteFault,
}

// How many bytes are asked for at a time.
const PIECE: usize = 4096;

/// Reads to the end of input, of which there may be at most `limit` bytes. After a fault the bytes read so far are
/// lost. `ReadFault` is returned only if the source's `faults` count rose, and `TooLong` exactly when more than `limit`
/// bytes came.
pub fn read_all<S: Source>(alloc: Global, source: &mut S, limit: usize) -> Result<Bytes, InFault>
    // Ok: the bytes are all that the source had left, and it has nothing left.
    ensures whole { IfOk result (λ bytes. Gives (S.remaining source.old) bytes (Some [])) }
    ensures end { OnOk result ((left : List ℕ) → S.remaining source.old ≡ Some left
        → S.remaining source.new ≡ Some []) }
    ensures within { IfOk result (λ bytes. length bytes ≤ limit) }

    ensures read_fault { IsErrOf result InFault.ReadFault
        → HasFault (S.faults source.old) (S.faults source.new) }
    ensures too_long { IsErrOf result InFault.TooLong → (left : List ℕ)
        → S.remaining source.old ≡ Some left → limit < length left }
    ensures gone { OnErr result (GivesSome (S.remaining source.old) (S.remaining source.new)) }
    ensures later { S.faults source.old ≤ S.faults source.new }
{
    let mut bytes = Bytes::new(alloc);
    let mut piece = [0u8; PIECE];
    loop {
        let count = source.read(&mut piece).map_err(|_| InFault::ReadFault)?;
        if count == 0 {
            return Ok(bytes);
        }
        if count > limit - bytes.as_slice().len() {
            return Err(InFault::TooLong);
        }
        bytes
            .extend(&piece[..count])
            .map_err(|_| InFault::OutOfMemory)?;
    }
}

/// Writes all of `text`. After `WriteFault` (only if the sink's `faults` count rose) a prefix of the text was written.
/// Never allocates (read, not proved).
pub fn write_all<K: Sink>(sink: &mut K, text: &[u8]) -> Result<(), OutFault>
    ensures whole { OnOk result (Takes (K.contents sink.old) text.now (K.contents sink.new)) }
    ensures prefix { OnErr result (TakesPrefix (K.contents sink.old) text.now
        (K.contents sink.new)) }
    ensures fault { OnErr result (HasFault (K.faults sink.old) (K.faults sink.new)) }
    ensures later { K.faults sink.old ≤ K.faults sink.new }
{
    let mut done = 0;
    while done < text.len() {
        let Ok(count) = sink.write(&text[done..]) else {
            return Err(OutFault::WriteFault);
        };
        done += count;
    }
    Ok(())
}
