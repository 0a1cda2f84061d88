ghost use Rattle.std.specs.Prelude.{◌≤◌, length};

use crate::ahead::Ahead;
use crate::filling::Stop;
use crate::frame_bytes::{FrameBytes, LONGEST};
use crate::kinds::{PACKET, TICK};
use crate::{FrameFault, FrameKind, Kinds};
use spdm_basis::{OutOfMemory, Source};
use std::alloc::Global;

// The most bytes of a stream that are read: 2^40.
const STREAM_LIMIT: u64 = 1_099_511_627_776;

/// A reader of the frames of a stream. Allocates only when constructed: for one frame, and for bytes that are read
/// ahead (read, not proved).
#[derive(Drop)]
pub struct FrameReader {
    pub(crate) kinds: Kinds,
    // How many bytes of the stream are read at most.
    pub(crate) limit: u64,
    // How many bytes of the stream the frames had so far, with the one that is being read.
    pub(crate) taken: u64,
    // The bytes of the frame that is being read, or was read last.
    pub(crate) frame: FrameBytes,
    // The bytes after it that were read.
    pub(crate) ahead: Ahead,
    pub(crate) ghost within: { taken ≤ limit },
    pub(crate) ghost inside: { length frame ≤ taken },
}

impl FrameReader {
    ghost use Rattle.std.specs.Prelude.{◌≡◌, ◌≢◌, ◌<◌, ◌≤◌, ◌+◌, [], ◌∷◌, true, length, drop, slice_index, IfErr, IfOk, OnOk};
    ghost use Rattle.frame_stream.specs.Frames.{four_bytes, may_be, stream_limit};
    ghost use Rattle.frame_stream.specs.Frames.GivenFrame.{TicksOf};
    ghost use Rattle.frame_stream.specs.Standing.{IsCause, IsCauseWithin, IsCounted, IsCountedKind, IsNew, IsNext, IsWhole, beginning_of, content_in, frame_as, size_in};

    /// A reader of a stream of which the bytes `before` were read already. It reads at most 2^40 bytes of the stream.
    pub fn new(alloc: Global, kinds: Kinds, before: &[u8]) -> Result<FrameReader, OutOfMemory>
        ensures { IfOk result (IsNew kinds stream_limit before.now) }
    {
        FrameReader::with_limit(alloc, kinds, before, STREAM_LIMIT)
    }

    /// Same as `new`, with another limit on the bytes of the stream.
    pub fn with_limit(
        alloc: Global,
        kinds: Kinds,
        before: &[u8],
        limit: u64,
    ) -> Result<FrameReader, OutOfMemory>
        ensures { IfOk result (IsNew kinds limit before.now) }
    {
        let ahead = Ahead::new(alloc, before)?;
        Ok(FrameReader {
            kinds,
            limit,
            taken: 0,
            frame: FrameBytes::new(alloc)?,
            ahead,
        })
    }

    /// The offset in the stream of the frame read last.
    pub fn frame_begins(&self) -> u64
        ensures { result ≡ beginning_of self.now }
    {
        self.taken - self.frame.len() as u64
    }

    /// The bytes of the packet or of the command that was read last.
    pub fn content(&self) -> &[u8]
        ensures { result.now ≡ content_in self.now }
    {
        self.frame.content()
    }

    /// Reads the next frame, of which the bytes of a packet or a command are stored in the reader then. `None` where
    /// the stream ends between two frames. Returns `BadFrame` exactly when the next frame has a kind that is not among
    /// those of the reader or is cut by the end of input, in the bytes that are read at most; and `TooLong` exactly
    /// when it is neither bad nor whole in these bytes, and the stream has one more. `ReadFault` is returned only if
    /// the source's `faults` count rose. After a fault no clause says what the reader stands for. Never allocates
    /// (read, not proved).
    pub fn next<S: Source>(&mut self, source: &mut S) -> Result<Option<FrameKind>, FrameFault>
        ensures next { IfOk result (λ kind. IsNext self.old (S.remaining source.old) kind self.new
            (S.remaining source.new)) }
        ensures fault { IfErr result (IsCause self.old (S.remaining source.old)
            (S.faults source.old) (S.faults source.new)) }
        ensures later { S.faults source.old ≤ S.faults source.new }
    {
        self.frame.clear();
        match self.fill(source, 1) {
            Ok(()) => match self.rest(source) {
                Ok(kind) => Ok(Some(kind)),
                Err(fault) => Err(fault),
            },
            Err(Stop::End) => Ok(None),
            Err(Stop::TooLong) => Err(FrameFault::TooLong),
            Err(Stop::ReadFault) => Err(FrameFault::ReadFault),
        }
    }

    // Reads the frame of which the kind was taken.
    fn rest<S: Source>(&mut self, source: &mut S) -> Result<FrameKind, FrameFault>
        requires { length self.old.frame ≡ 1 }
        ensures whole { IfOk result (λ kind. IsWhole self.old (S.remaining source.old) self.new
            (S.remaining source.new) (frame_as kind (content_in self.new))) }
        ensures fault { IfErr result (IsCauseWithin self.old (S.remaining source.old)
            (S.faults source.old) (S.faults source.new)) }
        ensures later { S.faults source.old ≤ S.faults source.new }
    {
        let kind = self.frame.at(0);
        if !self.kinds.allow(kind) {
            return Err(FrameFault::BadFrame {
                at: self.frame_begins(),
            });
        }
        if kind == TICK {
            return match self.seconds(source) {
                Ok(seconds) => Ok(FrameKind::Tick(seconds)),
                Err(fault) => Err(fault),
            };
        }
        match self.counted(source) {
            Ok(()) if kind == PACKET => Ok(FrameKind::Packet),
            Ok(()) => Ok(FrameKind::Command),
            Err(fault) => Err(fault),
        }
    }

    // Reads the seconds after their kind.
    fn seconds<S: Source>(&mut self, source: &mut S) -> Result<u32, FrameFault>
        requires kind { self.old.frame ≡ 2 ∷ [] }
        requires allowed { may_be self.old.kinds 2 ≡ true }
        ensures whole { IfOk result (λ seconds. IsWhole self.old (S.remaining source.old) self.new
            (S.remaining source.new) (TicksOf seconds)) }
        ensures fault { IfErr result (IsCauseWithin self.old (S.remaining source.old)
            (S.faults source.old) (S.faults source.new)) }
        ensures later { S.faults source.old ≤ S.faults source.new }
    {
        let at = self.frame_begins();
        if let Err(stop) = self.fill(source, 5) {
            return Err(stop.fault(at));
        }
        Ok(self.number())
    }

    // The four bytes after the kind as a number.
    fn number(&self) -> u32
        requires { length self.now.frame ≡ 5 }
        ensures { drop 1 self.now.frame ≡ four_bytes result }
    {
        let first = u32::from(self.frame.at(1));
        let second = u32::from(self.frame.at(2));
        let third = u32::from(self.frame.at(3));
        let fourth = u32::from(self.frame.at(4));
        first + second * 0x100 + third * 0x1_0000 + fourth * 0x100_0000
    }

    // Reads the bytes of a packet or of a command after its kind.
    fn counted<S: Source>(&mut self, source: &mut S) -> Result<(), FrameFault>
        requires head { length self.old.frame ≡ 1 }
        requires allowed { IsCountedKind self.old }
        ensures whole { OnOk result (IsCounted self.old (S.remaining source.old) self.new
            (S.remaining source.new)) }
        ensures fault { IfErr result (IsCauseWithin self.old (S.remaining source.old)
            (S.faults source.old) (S.faults source.new)) }
        ensures later { S.faults source.old ≤ S.faults source.new }
    {
        let at = self.frame_begins();
        if let Err(stop) = self.fill(source, 3) {
            return Err(stop.fault(at));
        }
        let size = self.size();
        if let Err(stop) = self.fill(source, size) {
            return Err(stop.fault(at));
        }
        Ok(())
    }

    // The size of the frame whose length is the two bytes after the kind.
    fn size(&self) -> usize
        requires { length self.now.frame ≡ 3 }
        ensures size { result ≡ size_in self.now.frame }
        ensures low_byte { slice_index self.now.frame 1 < 256 }
        ensures high_byte { slice_index self.now.frame 2 < 256 }
        ensures low { 3 ≤ result }
        ensures high { result ≤ LONGEST }
    {
        3 + usize::from(self.frame.at(1)) + 256 * usize::from(self.frame.at(2))
    }
}
