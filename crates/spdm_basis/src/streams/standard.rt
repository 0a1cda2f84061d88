ghost use Rattle.std.specs.Prelude.{◌≡◌, ◌<◌, ◌≤◌, None, length, take, IfOk, OnOk, OnErr};
ghost use Rattle.std.specs.Io.KnownBytes.{Appends, Keeps, ReadConsumes};
ghost use Rattle.spdm_basis.specs.Memory.{one_more};
ghost use Rattle.spdm_basis.specs.Stream.{HasFault};

use crate::{Failed, Sink, Source};
use std::io::{Read, Write};
use std::marker::Model;

/// Standard input, or any other reader, as a source. It tells nothing of what it has left. Its fault count rises by one
/// at each error of the reader, and saturates at `u64::MAX`.
#[derive(Drop)]
pub struct StdinSource<R: Read + Drop> {
    reader: R,
    faults: u64,
}

impl<R: Read + Drop> StdinSource<R> {
    /// The reader as a source that has not failed yet.
    pub fn new(reader: R) -> Self
        ensures reader { result.reader ≡ reader }
        ensures faults { result.faults ≡ 0 }
    {
        StdinSource { reader, faults: 0 }
    }
}

impl<R: Read + Drop> Source for StdinSource<R> {
    ghost remaining = { λ _. None };

    ghost faults = { λ s. s.faults };

    // What it gives is what the reader gave, and none is the end of the reader.
    fn read(&mut self, into: &mut [u8]) -> Result<usize, Failed>
        ensures count { IfOk result (λ n. n ≤ length into.old) }
        ensures bytes { ReadConsumes (R.remaining self.old.reader)
            (R.remaining self.new.reader) result into.new }
        ensures later { self.old.faults ≤ self.new.faults }
        ensures fault { OnErr result (HasFault self.old.faults self.new.faults) }

        ensures counted { OnErr result (self.new.faults ≡ one_more self.old.faults) }
        ensures quiet { OnOk result (self.new.faults ≡ self.old.faults) }
    {
        match self.reader.read(into) {
            Ok(count) => Ok(count),
            Err(_) => {
                self.faults = self.faults.saturating_add(1);
                Err(Failed)
            }
        }
    }
}

/// Standard output, or any other writer, as a sink. Each call hands the whole piece on in one write, so that a caller
/// who gives whole lines writes whole lines. It tells nothing of what it holds. Its fault count rises by one at each
/// error of the writer and at each write that took nothing, and saturates at `u64::MAX`.
#[derive(Drop)]
pub struct StdoutSink<W: Write + Drop> {
    writer: W,
    faults: u64,
}

impl<W: Write + Drop> StdoutSink<W> {
    /// The writer as a sink that has not failed yet.
    pub fn new(writer: W) -> Self
        ensures writer { result.writer ≡ writer }
        ensures faults { result.faults ≡ 0 }
    {
        StdoutSink { writer, faults: 0 }
    }
}

impl<W: Write + Drop> Sink for StdoutSink<W> {
    ghost contents = { λ _. None };

    ghost faults = { λ s. s.faults };

    // What it took is what the writer took.
    fn write(&mut self, from: &[u8]) -> Result<usize, Failed>
        ensures some { IfOk result (λ n. 0 < n) }
        ensures count { IfOk result (λ n. n ≤ length from.now) }
        ensures bytes { IfOk result (λ n. Appends (W.contents self.old.writer)
            (W.contents self.new.writer) (take n from.now)) }
        ensures kept { OnErr result (Keeps (W.contents self.old.writer)
            (W.contents self.new.writer)) }
        ensures later { self.old.faults ≤ self.new.faults }
        ensures fault { OnErr result (HasFault self.old.faults self.new.faults) }

        ensures counted { OnErr result (self.new.faults ≡ one_more self.old.faults) }
        ensures quiet { OnOk result (self.new.faults ≡ self.old.faults) }
    {
        match self.writer.write(from) {
            Ok(count) if count > 0 => Ok(count),
            _ => {
                self.faults = self.faults.saturating_add(1);
                Err(Failed)
            }
        }
    }
}
