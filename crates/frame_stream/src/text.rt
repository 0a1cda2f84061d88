ghost use Rattle.std.specs.Prelude.{◌≡◌, ◌<◌, ◌≤◌, [], ℕ, List, Some, length, IfOk, OnErr, IsErrOf};
ghost use Rattle.spdm_basis.specs.Stream.{GivesSome, HasFault};
ghost use Rattle.frame_stream.specs.Parts.{IsTextOf, IsTextTo};
ghost use Rattle.frame_stream.specs.Standing.{in_front};
ghost use Rattle.frame_stream.specs.Text.{line_of, text_of, text_to};

use crate::line::{LastLine, Place, own_part};
use spdm_basis::{Buffer, Bytes, InFault, Source};
use std::alloc::Global;

// How many bytes are asked for at a time.
const PIECE: usize = 4096;

/// A text that was read, and the bytes after it that were read with it.
#[derive(Drop)]
pub struct Text {
    pub text: Bytes,
    pub before: Buffer<4096>,
}

/// Reads a text, of which the bytes `before` were read already: the bytes up to and with the first line that is `last`, or
/// all of them. It has at most `limit` bytes: returns `TooLong` exactly when there are more. After a fault the bytes read
/// so far are lost. `ReadFault` is returned only if the source's `faults` count rose.
pub fn read_text_to<S: Source>(
    alloc: Global,
    last: LastLine,
    before: Buffer<4096>,
    source: &mut S,
    limit: usize,
) -> Result<Text, InFault>
    ensures text { IfOk result (λ read. IsTextTo (line_of last)
        (in_front before (S.remaining source.old)) read.text read.before
        (S.remaining source.new)) }
    ensures within { IfOk result (λ read. length read.text ≤ limit) }

    ensures read_fault { IsErrOf result InFault.ReadFault
        → HasFault (S.faults source.old) (S.faults source.new) }
    ensures too_long { IsErrOf result InFault.TooLong → (left : List ℕ)
        → in_front before (S.remaining source.old) ≡ Some left
        → limit < length (text_to (line_of last) left) }
    ensures gone { OnErr result (GivesSome (S.remaining source.old) (S.remaining source.new)) }
    ensures later { S.faults source.old ≤ S.faults source.new }
{
    let mut text = Bytes::new(alloc);
    let mut place = Place::Begins;
    let mut ahead = before;
    let mut piece = [0u8; PIECE];
    loop {
        let (own, behind) = own_part(last, place, ahead.as_slice());
        if own > limit - text.as_slice().len() {
            return Err(InFault::TooLong);
        }
        let (own, rest) = ahead.as_slice().split_at(own);
        let Ok(()) = text.extend(own) else {
            return Err(InFault::OutOfMemory);
        };
        match behind {
            Place::Ended => {
                let mut before = Buffer::new();
                return match before.extend(rest) {
                    Ok(()) => Ok(Text { text, before }),
                    Err(_) => unreachable!(),
                };
            }
            _ => place = behind,
        }
        let Ok(count) = source.read(&mut piece) else {
            return Err(InFault::ReadFault);
        };
        if count == 0 {
            return Ok(Text {
                text,
                before: Buffer::new(),
            });
        }
        let Ok(()) = ahead.replace(&piece[..count]) else {
            unreachable!()
        };
    }
}

/// Reads the text of an input: its bytes up to and with the first line that is `end`, or all of them. It has at most
/// `limit` bytes: returns `TooLong` exactly when there are more. After a fault the bytes read so far are lost.
/// `ReadFault` is returned only if the source's `faults` count rose.
pub fn read_text<S: Source>(alloc: Global, source: &mut S, limit: usize) -> Result<Text, InFault>
    ensures text { IfOk result (λ read. IsTextOf (S.remaining source.old) read.text read.before
        (S.remaining source.new)) }
    ensures within { IfOk result (λ read. length read.text ≤ limit) }

    ensures read_fault { IsErrOf result InFault.ReadFault
        → HasFault (S.faults source.old) (S.faults source.new) }
    ensures too_long { IsErrOf result InFault.TooLong → (left : List ℕ)
        → S.remaining source.old ≡ Some left → limit < length (text_of left) }
    ensures gone { OnErr result (GivesSome (S.remaining source.old) (S.remaining source.new)) }
    ensures later { S.faults source.old ≤ S.faults source.new }
{
    read_text_to(alloc, LastLine::End, Buffer::new(), source, limit)
}
