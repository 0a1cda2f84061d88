use spdm_basis::{
    Failed, InFault, OutFault, Sink, Source, StdinSource, StdoutSink, read_all, write_all,
};
use std::io;
use std::io::{Read, Write};
use std::test::Fail;

// Gives its bytes, and fails at each call after them.
#[derive(Drop)]
struct BrokenReader<'a> {
    bytes: &'a [u8],
}

impl<'a> Read for BrokenReader<'a> {
    fn read(&mut self, buf: &mut [u8]) -> io::Result<usize> {
        if self.bytes.is_empty() {
            return Err(io::Error::from(io::ErrorKind::BrokenPipe));
        }
        let count = self.bytes.len().min(buf.len());
        buf[..count].copy_from_slice(&self.bytes[..count]);
        self.bytes = &self.bytes[count..];
        Ok(count)
    }
}

// Takes nothing: each call fails, or says so.
#[derive(Drop)]
struct BrokenWriter {
    fails: bool,
}

impl Write for BrokenWriter {
    fn write(&mut self, _buf: &[u8]) -> io::Result<usize> {
        if self.fails {
            return Err(io::Error::from(io::ErrorKind::BrokenPipe));
        }
        Ok(0)
    }

    fn flush(&mut self) -> io::Result<()> {
        Ok(())
    }
}

#[test]
fn a_reader_is_read_to_its_end(rt: HostRuntime) -> Result<(), Fail> {
    let mut source = StdinSource::new(b"abcd".as_slice());
    let all = read_all(rt.alloc(), &mut source, 4)?;
    assert_eq!(rt; all.as_slice(), b"abcd".as_slice());
    Ok(())
}

#[test]
fn a_reader_is_read_to_its_error(rt: HostRuntime) -> Result<(), Fail> {
    let mut source = StdinSource::new(BrokenReader { bytes: b"abcd" });
    let answer = read_all(rt.alloc(), &mut source, 5).err();
    assert_eq!(rt; answer, Some(InFault::ReadFault));
    Ok(())
}

#[test]
fn a_read_gives_what_there_is_or_fails(rt: HostRuntime) {
    let mut source = StdinSource::new(BrokenReader { bytes: b"abc" });
    let mut piece = [0; 3];
    assert!(rt; source.read(&mut piece) == Ok(3));
    assert!(rt; piece == *b"abc");
    assert!(rt; source.read(&mut piece) == Err(Failed));
}

#[test]
fn a_writer_takes_all(rt: HostRuntime) -> Result<(), Fail> {
    let mut sink = StdoutSink::new(Vec::new(rt.alloc()));
    write_all(&mut sink, b"abcd")?;
    Ok(())
}

#[test]
fn a_broken_writer_takes_nothing(rt: HostRuntime) {
    for fails in [true, false] {
        let mut sink = StdoutSink::new(BrokenWriter { fails });
        assert_eq!(rt; write_all(&mut sink, b"ab"), Err(OutFault::WriteFault));
    }
}

#[test]
fn a_write_that_takes_nothing_fails(rt: HostRuntime) {
    for fails in [true, false] {
        let mut sink = StdoutSink::new(BrokenWriter { fails });
        assert_eq!(rt; sink.write(b"ab"), Err(Failed));
    }
}
