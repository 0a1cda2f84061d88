ghost use Rattle.std.specs.Prelude.{◌≡◌, ◌<◌, ◌≤◌, ◌+◌, ◌++◌, length, take, drop};
ghost use Rattle.frame_stream.specs.Causes.{fault_as};

use crate::ahead::Ahead;
use crate::frame_bytes::{FrameBytes, LONGEST};
use crate::{FrameFault, FrameReader};
use spdm_basis::Source;

/// Why a frame did not get all its bytes.
#[derive(Clone, Copy, Debug, PartialEq, Eq)]
pub(crate) enum Stop {
    /// The input ends.
    End,
    /// The stream goes on beyond its limit.
    TooLong,
    /// Reading failed.
    ReadFault,
}

impl Stop {
    // The fault of the frame that begins at this byte.
    pub(crate) fn fault(self, at: u64) -> FrameFault
        ensures { result ≡ fault_as at self }
    {
        match self {
            Stop::End => FrameFault::BadFrame { at },
            Stop::TooLong => FrameFault::TooLong,
            Stop::ReadFault => FrameFault::ReadFault,
        }
    }
}

// Moves bytes that were read ahead to a frame, at most so many, and returns how many.
fn move_front(ahead: &mut Ahead, frame: &mut FrameBytes, most: usize) -> usize
    requires some { 0 < length ahead.old }
    requires fit { length frame.old + most ≤ LONGEST }
    requires wanted { 0 < most }
    ensures some { 0 < result }
    ensures most { result ≤ most }
    ensures all { result ≤ length ahead.old }
    ensures frame { frame.new ≡ frame.old ++ take result ahead.old }
    ensures ahead { ahead.new ≡ drop result ahead.old }
{
    let front = ahead.front(most);
    let count = front.len();
    frame.append(front);
    ahead.pass(count);
    count
}

impl FrameReader {
    ghost use Rattle.std.specs.Prelude.{◌≡◌, ◌<◌, ◌≤◌, ◌+◌, length, IfErr, OnOk};
    ghost use Rattle.frame_stream.specs.Standing.{IsMoved, IsShort, IsStopped, IsSupplied, IsTaken};

    // Sees to bytes that are read ahead, where the stream has more.
    fn supply<S: Source>(&mut self, source: &mut S) -> Result<(), Stop>
        ensures supplied { IsSupplied self.old (S.remaining source.old) self.new
            (S.remaining source.new) }
        ensures some { OnOk result (0 < length self.new.ahead) }
        ensures below { OnOk result (self.new.taken < self.new.limit) }
        ensures stopped { IfErr result (IsShort self.old (S.remaining source.old)
            (S.faults source.old) (S.faults source.new)) }
        ensures later { S.faults source.old ≤ S.faults source.new }
    {
        if self.ahead.is_empty() {
            match self.ahead.refill(source) {
                Ok(true) => {}
                Ok(false) => return Err(Stop::End),
                Err(_) => return Err(Stop::ReadFault),
            }
        }
        if self.taken == self.limit {
            return Err(Stop::TooLong);
        }
        Ok(())
    }

    // Takes some of the bytes that were read ahead, at most so many.
    fn take(&mut self, most: usize)
        requires some { 0 < length self.old.ahead }
        requires below { self.old.taken < self.old.limit }
        requires wanted { 0 < most }
        requires fit { length self.old.frame + most ≤ LONGEST }
        ensures { IsTaken most self.old self.new }
    {
        let room = self.limit - self.taken;
        let most = (most as u64).min(room) as usize;
        let count = move_front(&mut self.ahead, &mut self.frame, most);
        self.taken += count as u64;
    }

    // Takes bytes for the frame until it has so many.
    pub(crate) fn fill<S: Source>(&mut self, source: &mut S, size: usize) -> Result<(), Stop>
        requires low { length self.old.frame ≤ size }
        requires high { size ≤ LONGEST }
        ensures moved { IsMoved self.old (S.remaining source.old) self.new
            (S.remaining source.new) }
        ensures filled { OnOk result (length self.new.frame ≡ size) }
        ensures stopped { IfErr result (IsStopped size self.old (S.remaining source.old) self.new
            (S.faults source.old) (S.faults source.new)) }
        ensures later { S.faults source.old ≤ S.faults source.new }
    {
        while self.frame.len() < size {
            if let Err(stop) = self.supply(source) {
                return Err(stop);
            }
            let most = size - self.frame.len();
            self.take(most);
        }
        Ok(())
    }
}
