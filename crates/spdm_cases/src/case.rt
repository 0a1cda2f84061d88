use crate::capture::{configuration_of, packets_of};
use crate::case_error::CaseError;
use boot_keeper::{Keeper, MemKeeper};
use spdm_basis::{MemSeeds, MemSink, MemSource, Sink, Source, StdinSource, StdoutSink};
use spdm_command::{Outcome, spdm};
use std::io;
use std::io::{Read, Write};

/// Words of the command, and what they are run on.
#[derive(Drop)]
pub struct Case {
    pub name: String,
    pub words: Vec<String>,
    pub input: Vec<u8>,
    pub packets: Vec<Vec<u8>>,
    pub seeds: Vec<[u8; 32]>,
    pub device: Option<Device>,
    pub is_slow: bool,
}

/// What a keeper holds.
pub type Device = [u8; 18];

/// What a case came to: its outcome, what was written, and what the keeper holds.
#[derive(Drop)]
pub struct Ran {
    pub outcome: Outcome,
    pub written: Vec<u8>,
    pub device: Device,
}

// Gives its bytes one by one.
#[derive(Drop)]
struct ByteByByte<'a> {
    bytes: &'a [u8],
}

impl<'a> Read for ByteByByte<'a> {
    fn read(&mut self, buf: &mut [u8]) -> io::Result<usize> {
        let count = self.bytes.len().min(buf.len()).min(1);
        buf[..count].copy_from_slice(&self.bytes[..count]);
        self.bytes = &self.bytes[count..];
        Ok(count)
    }
}

// The most that a case writes.
const OUTPUT_LIMIT: usize = 1_048_576;

impl Case {
    pub fn new(rt: &impl AllocGlobal) -> Case {
        Case {
            name: String::new(rt.alloc()),
            words: Vec::new(rt.alloc()),
            input: Vec::new(rt.alloc()),
            packets: Vec::new(rt.alloc()),
            seeds: Vec::new(rt.alloc()),
            device: None,
            is_slow: false,
        }
    }

    /// More bytes of the input.
    pub fn add(&mut self, bytes: &[u8]) -> Result<(), CaseError> {
        Ok(self.input.extend_from_slice(bytes)?)
    }

    /// One more line of the input.
    pub fn add_line(&mut self, line: &str) -> Result<(), CaseError> {
        self.add(line.as_bytes())?;
        self.add(b"\n")
    }

    /// One more seed, in hexadecimal.
    pub fn add_seed(&mut self, rt: &impl AllocGlobal, digits: &str) -> Result<(), CaseError> {
        let mut seed = [0; 32];
        let bytes = hex::decode(rt.alloc(), digits)?;
        if bytes.len() != seed.len() {
            return Err(CaseError::BadLine);
        }
        seed.copy_from_slice(bytes.as_slice());
        Ok(self.seeds.push(seed)?)
    }

    /// What the keeper holds, in hexadecimal.
    pub fn set_device(&mut self, rt: &impl AllocGlobal, digits: &str) -> Result<(), CaseError> {
        let mut device = [0; 18];
        let bytes = hex::decode(rt.alloc(), digits)?;
        if bytes.len() != device.len() {
            return Err(CaseError::BadLine);
        }
        device.copy_from_slice(bytes.as_slice());
        self.device = Some(device);
        Ok(())
    }

    /// The configuration of a script, and the packets of its trace.
    pub fn add_capture(
        &mut self,
        rt: &impl AllocGlobal,
        script: &str,
        trace: &str,
    ) -> Result<(), CaseError> {
        self.packets = packets_of(rt, trace)?;
        self.add(configuration_of(script).as_bytes())
    }

    /// What the words come to over the input and the packets, and what they write.
    pub fn run(&self, rt: &impl AllocGlobal) -> Result<Ran, CaseError> {
        self.run_behind(rt, "")
    }

    /// The same with lines behind.
    pub fn run_behind(&self, rt: &impl AllocGlobal, lines: &str) -> Result<Ran, CaseError> {
        let mut input = self.input.clone()?;
        for (place, packet) in self.packets.iter().enumerate() {
            add_packet(rt, place.saturating_add(1), packet.as_slice(), &mut input)?;
        }
        input.extend_from_slice(lines.as_bytes())?;
        if self.is_slow {
            let bytes = input.as_slice();
            self.over(rt, &mut StdinSource::new(ByteByByte { bytes }))
        } else {
            self.over(rt, &mut MemSource::new(rt.alloc(), input.as_slice(), &[])?)
        }
    }

    fn over<S: Source>(&self, rt: &impl AllocGlobal, source: &mut S) -> Result<Ran, CaseError> {
        let mut sink = MemSink::new(rt.alloc(), OUTPUT_LIMIT, &[])?;
        let mut seeds = MemSeeds::new(rt.alloc(), self.seeds.as_slice(), &[])?;
        let mut keeper = MemKeeper::new(rt.alloc(), &[])?;
        keeper
            .write(0, &self.device.unwrap_or([0; 18]))
            .map_err(|_| CaseError::Keeper)?;
        let mut left = None;
        let outcome = spdm(
            rt.alloc(),
            self.words.as_slice(),
            source,
            &mut sink,
            &mut seeds,
            &mut left,
            &mut keeper,
        );
        let mut device = [0; 18];
        keeper.read(0, &mut device).map_err(|_| CaseError::Keeper)?;
        Ok(Ran {
            outcome,
            written: Vec::from_slice(rt.alloc(), sink.as_slice())?,
            device,
        })
    }
}

// The line of a packet in a capture.
fn add_packet(
    rt: &impl AllocGlobal,
    number: usize,
    packet: &[u8],
    input: &mut Vec<u8>,
) -> Result<(), CaseError> {
    let digits = hex::encode(rt.alloc(), packet)?;
    let shown = if packet.is_empty() {
        "-"
    } else {
        digits.as_str()
    };
    let line = format!(in rt.alloc(); "packet {number} {shown}\n")?;
    Ok(input.extend_from_slice(line.as_bytes())?)
}
