use crate::stream_runs::outcome;
use spdm_basis::{MemSeeds, MemSink, MemSource, Sink, Source, StdinSource, StdoutSink};
use spdm_command::Outcome;
use std::io;
use std::io::{Read, Write};
use std::process::Abort;
use std::test::Fail;

// The configuration of both ends and of each script.
const CONFIGURATION: &[u8] = b"seed 0000000000000000000000000000000000000000000000000000000000000000
responder 8 1024 4096 64 30 mhkc
requester 9 1024 4096 64 0 hkc 71 31323334353637383930313233343536 -
end
";

// A negotiation and a session that is opened, as an independent program sends them.
const OPENED: &[u8] = b"packet 1 010809c80510840000
packet 2 010908c0051004000000010012
packet 3 010809c90512e1000000000000c06402000004000000100000
packet 4 010908c1051261000000000000c86802000004000000100000
packet 5 010809ca0512e304003000010200000000010000000000000000000000000000000000000002200000032001000420000005200100
packet 6 010908c20512630400340001020200000000000000010000000000000000000000000000000000000002200000032001000420000005200100
packet 7 010809cb0512e6000001000100200000007164eb37f3486e56a0ec73452bc8c3257db4ee0e51add31ff60000000000000000
packet 8 010908830512661e00010000002000000022e63c38fed4ab1af9bbbb8bed806961f05f0b955765fd9900000000000000002391e8312a48f5c3804021241deac75ac7480b
packet 9 010908533ca72f2b89a102a5aaf8165108
packet 10 010809cc060100010000003700d1f7e8c0c7c58c0a8f577f56da14fedf43dca1cbf47b1904eb2ea9125aae9cab0356ff1576a02adad120452b7f9e0f2600b5f6ea6add12
packet 11 010908c40601000100000017003ffb6f0c506002d92c24d4917127d5ccbc952d28c67906
";

// A policy, and the answers of a device that it trusts, as an independent program sends them.
const TRUSTED: &[u8] = b"expect 1 1 07\ngo\n\
    \x01\x0d\x00\x01\x09\x08\xc0\x05\x10\x04\x00\x00\x00\x01\x00\x12\
    \x01\x19\x00\x01\x09\x08\xc1\x05\x12\x61\x00\x00\x00\x00\x00\x00\xc8\x68\x02\x00\x00\x04\x00\x00\x00\x10\x00\x00\
    \x01\x39\x00\x01\x09\x08\xc2\x05\x12\x63\x04\x00\x34\x00\x01\x02\x02\x00\x00\x00\x00\x00\x00\x00\x01\x00\x00\x00\
    \x00\x00\x00\x00\x00\x00\x00\x00\x00\x00\x00\x00\x00\x00\x00\x00\x02\x20\x00\x00\x03\x20\x01\x00\x04\x20\x00\x00\
    \x05\x20\x01\x00\
    \x01\x44\x00\x01\x09\x08\x83\x05\x12\x66\x1e\x00\x01\x00\x00\x00\x20\x00\x00\x00\x48\x31\x7b\x1d\x19\xdb\x42\x90\
    \x65\x59\x46\xa2\xa2\x35\x3d\x34\x7c\x10\x5f\xd5\x77\xf8\xe4\x3e\x00\x00\x00\x00\x00\x00\x00\x00\x41\xab\x15\xb8\
    \x2a\xcc\x95\xed\x86\xcd\x66\xdc\x17\xe1\x62\xe0\xc7\xe6\x20\
    \x01\x11\x00\x01\x09\x08\x53\x57\xdf\xc8\xa6\x3e\x8b\x6e\x23\x3c\x05\xc6\x43\xfc\
    \x01\x24\x00\x01\x09\x08\xc4\x06\x01\x00\x01\x00\x00\x00\x17\x00\x81\xa2\xaa\x03\xba\x98\xed\x6f\x0a\x36\x5a\x74\
    \x99\x2a\xe9\x59\xb8\xf2\x53\xb2\x0f\x7e\xdf\
    \x01\x44\x00\x01\x09\x08\x85\x06\x01\x00\x01\x00\x00\x00\x45\x00\xf9\xb5\x58\xa8\x5f\x0e\xb7\x4a\xc1\x6d\x59\x84\
    \x6a\xb4\x77\x8b\x3b\xe2\xbe\xa4\x65\xeb\x7a\xb3\x79\x0c\x56\x52\x7a\xcb\x06\x61\x20\xbd\x41\x2f\x2b\x03\xe8\x7a\
    \x9a\xf2\x67\xed\x10\x15\xef\xd9\x07\x7a\x15\x33\xc8\x0a\x9f\
    \x01\x12\x00\x01\x09\x08\x55\x72\x81\xae\xca\xb7\x1f\x26\x38\xcd\x1e\xf7\xff\x4a\xb6\
    \x01\x24\x00\x01\x09\x08\xc6\x06\x01\x00\x01\x00\x01\x00\x17\x00\xa2\x92\xcc\x2c\xca\xed\x47\x9e\x15\x02\xa6\xa4\
    \xf0\xdd\xac\x5b\x41\x1d\xe7\x5f\x3e\x72\x34";

// Each command with what stands behind the configuration: a negotiation, one in each of two lives, its requests in frames,
// its commands and answers in frames, an attestation, and a capture.
const INPUTS: [(&str, &[u8]); 7] = [
    (
        "run",
        b"q1 connect\npump 1\npump 1\npump 1\npump 1\npump 1\npump 1\n",
    ),
    ("lives", b"q1 connect\npump 6\ncycle\nq1 connect\npump 6\n"),
    (
        "serve kept",
        b"\x01\x09\x00\x01\x08\x09\xc8\x05\x10\x84\x00\x00\x01\x19\x00\x01\x08\x09\xc9\x05\x12\xe1\x00\x00\x00\x00\x00\x00\xc0\x64\x02\x00\x00\x04\x00\x00\x00\x10\x00\x00",
    ),
    (
        "serve",
        b"\x01\x09\x00\x01\x08\x09\xc8\x05\x10\x84\x00\x00\x01\x19\x00\x01\x08\x09\xc9\x05\x12\xe1\x00\x00\x00\x00\x00\x00\xc0\x64\x02\x00\x00\x04\x00\x00\x00\x10\x00\x00",
    ),
    (
        "drive",
        b"\x03\x0a\x00q1 connect\x01\x0d\x00\x01\x09\x08\xc0\x05\x10\x04\x00\x00\x00\x01\x00\x12",
    ),
    ("attest", TRUSTED),
    ("check", OPENED),
];

// What a command came to over a source and a sink, with one seed. The requests for seeds with these numbers fail, and so
// do the calls of the keeper with those.
fn with_one_seed<S: Source, K: Sink>(
    rt: &impl AllocGlobal,
    command: &str,
    source: &mut S,
    sink: &mut K,
    seeds: &[u64],
    boots: &[u64],
) -> Result<Outcome, Fail> {
    let mut seeds = MemSeeds::new(rt.alloc(), &[[0; 32]], seeds)?;
    let mut left = None;
    outcome(rt, command, source, sink, &mut seeds, boots, &mut left)
}

// What a command came to behind the configuration, and what it wrote. The calls with these numbers fail.
fn fails(
    rt: &impl AllocGlobal,
    (command, behind): (&str, &[u8]),
    reads: &[u64],
    writes: &[u64],
    seeds: &[u64],
    boots: &[u64],
) -> Result<(Outcome, Vec<u8>), Fail> {
    let mut input = Vec::from_slice(rt.alloc(), CONFIGURATION)?;
    input.extend_from_slice(behind)?;
    let mut source = MemSource::new(rt.alloc(), input.as_slice(), reads)?;
    let mut sink = MemSink::new(rt.alloc(), 4096, writes)?;
    let outcome = with_one_seed(rt, command, &mut source, &mut sink, seeds, boots)?;
    Ok((outcome, Vec::from_slice(rt.alloc(), sink.as_slice())?))
}

// The same where the read, or the write, of this number fails.
fn fails_once(
    rt: &impl AllocGlobal,
    input: (&str, &[u8]),
    is_read: bool,
    call: u64,
) -> Result<(Outcome, Vec<u8>), Fail> {
    if is_read {
        fails(rt, input, &[call], &[], &[], &[])
    } else {
        fails(rt, input, &[], &[call], &[], &[])
    }
}

// That what was written before a fault is a beginning of the whole: none of it, where a text could not be read.
fn expect_prefix(rt: &impl Abort, word: &str, is_read: bool, written: &[u8], whole: &[u8]) {
    assert!(rt; whole.starts_with(written));
    assert!(rt; written.len() < whole.len() || is_read);
    let is_stream = word == "serve" || word == "serve kept" || word == "drive" || word == "attest";
    assert!(rt; is_stream || !is_read || written.is_empty());
}

// That each read, or each write, leads to its fault where it fails, as far as one is made.
fn expect_faults(
    rt: &(impl AllocGlobal + Abort),
    input: (&str, &[u8]),
    is_read: bool,
    whole: &[u8],
) -> Result<(), Fail> {
    let fault = if is_read {
        Outcome::ReadFault
    } else {
        Outcome::WriteFault
    };
    let mut reached: u64 = 0;
    for call in 0..64u64 {
        let (outcome, written) = fails_once(rt, input, is_read, call)?;
        if outcome == Outcome::Done {
            assert_eq!(rt; written.as_slice(), whole);
            break;
        }
        assert_eq!(rt; outcome, fault);
        expect_prefix(rt, input.0, is_read, written.as_slice(), whole);
        reached = call.wrapping_add(1);
    }
    assert!(rt; 2 <= reached && reached < 64);
    Ok(())
}

// Each call of the outside fails once, in a run of its own.
#[test]
fn each_call_fails(rt: HostRuntime) -> Result<(), Fail> {
    for input in INPUTS {
        let (outcome, whole) = fails(&rt, input, &[], &[], &[], &[])?;
        assert_eq!(rt; outcome, Outcome::Done);
        assert!(rt; whole.len() > 16);
        expect_faults(&rt, input, true, whole.as_slice())?;
        expect_faults(&rt, input, false, whole.as_slice())?;
    }
    Ok(())
}

#[test]
fn seed_fails(rt: HostRuntime) -> Result<(), Fail> {
    let [_, _, kept, serve, drive, attest, _] = INPUTS;
    for input in [kept, serve, drive, attest] {
        let (outcome, written) = fails(&rt, input, &[], &[], &[0], &[])?;
        assert_eq!(rt; outcome, Outcome::SeedFault);
        assert!(rt; written.is_empty());
    }
    Ok(())
}

// The keeper is read once, and three writes follow.
#[test]
fn keeper_fails(rt: HostRuntime) -> Result<(), Fail> {
    let [_, _, kept, _, _, _, _] = INPUTS;
    for call in 0..4u64 {
        let (outcome, written) = fails(&rt, kept, &[], &[], &[], &[call])?;
        assert_eq!(rt; outcome, Outcome::KeeperFault);
        assert!(rt; written.is_empty());
    }
    Ok(())
}

// How many bytes a call moves at most, one count after another and from the first again: no fewer than one.
#[derive(Drop)]
struct Counts<'a> {
    counts: &'a [usize],
    at: usize,
}

impl<'a> Counts<'a> {
    fn next(&mut self) -> usize {
        if self.at >= self.counts.len() {
            self.at = 0;
        }
        let count = self.counts.get(self.at).copied().unwrap_or(1).max(1);
        self.at = self.at.saturating_add(1);
        count
    }
}

// Gives its bytes by these counts.
#[derive(Drop)]
struct FewIn<'a> {
    bytes: &'a [u8],
    counts: Counts<'a>,
}

impl<'a> Read for FewIn<'a> {
    fn read(&mut self, buf: &mut [u8]) -> io::Result<usize> {
        let count = self.bytes.len().min(buf.len()).min(self.counts.next());
        buf[..count].copy_from_slice(&self.bytes[..count]);
        self.bytes = &self.bytes[count..];
        Ok(count)
    }
}

// Takes bytes by these counts.
#[derive(Drop)]
struct FewOut<'a> {
    held: &'a mut Vec<u8>,
    counts: Counts<'a>,
}

impl<'a> Write for FewOut<'a> {
    fn write(&mut self, buf: &[u8]) -> io::Result<usize> {
        let count = buf.len().min(self.counts.next());
        match self.held.extend_from_slice(&buf[..count]) {
            Ok(()) => Ok(count),
            Err(_) => Ok(0),
        }
    }

    fn flush(&mut self) -> io::Result<()> {
        Ok(())
    }
}

// What a word writes where calls move bytes by these counts.
fn moved(
    rt: &(impl AllocGlobal + Abort),
    (command, behind): (&str, &[u8]),
    counts: &[usize],
) -> Result<Vec<u8>, Fail> {
    let mut input = Vec::from_slice(rt.alloc(), CONFIGURATION)?;
    input.extend_from_slice(behind)?;
    let mut source = StdinSource::new(FewIn {
        bytes: input.as_slice(),
        counts: Counts { counts, at: 0 },
    });
    let mut held = Vec::new(rt.alloc());
    let mut sink = StdoutSink::new(FewOut {
        held: &mut held,
        counts: Counts { counts, at: 3 },
    });
    let outcome = with_one_seed(rt, command, &mut source, &mut sink, &[], &[])?;
    assert_eq!(rt; outcome, Outcome::Done);
    drop(sink);
    Ok(held)
}

// That each word writes as much as where all bytes are moved at once.
fn expect_moved(rt: &(impl AllocGlobal + Abort), counts: &[usize]) -> Result<(), Fail> {
    for input in INPUTS {
        let (_, whole) = fails(rt, input, &[], &[], &[], &[])?;
        let written = moved(rt, input, counts)?;
        assert_eq!(rt; written.as_slice(), whole.as_slice());
    }
    Ok(())
}

#[test]
fn calls_that_move_one_byte(rt: HostRuntime) -> Result<(), Fail> {
    expect_moved(&rt, &[1])
}

// Counts that were drawn once from 1 to 40.
#[test]
fn calls_that_move_few_bytes(rt: HostRuntime) -> Result<(), Fail> {
    expect_moved(
        &rt,
        &[
            17, 2, 38, 1, 9, 26, 3, 40, 12, 5, 31, 1, 22, 7, 14, 35, 1, 4, 29,
        ],
    )
}
