ghost use Rattle.std.specs.Prelude.{◌≡◌, ◌≤◌, length, None, OnOk};
ghost use Rattle.script_text.specs.Reading.{IsReading};
ghost use Rattle.script_text.specs.ScriptText.{capture_in, capture_fault, after_capture, whole_capture, packet_fault, after_capture_kind, is_packet, is_next};
ghost use Rattle.script_text.specs.Tests.{IsAnswerTo};

use crate::configuration::config_kind::{kind_of, take_config};
use crate::configuration::config_text::TEXT_LIMIT;
use crate::configuration::partial_config::PartialConfig;
use crate::events::event::MOST_EVENTS;
use crate::reading::hex_words::hex_bytes;
use crate::reading::numbers::number;
use crate::reading::words::{has_words, word};
use crate::texts::faults::{LineError, LineFault, ScriptFault};
use crate::texts::reader::{LineReader, read_text};
use crate::texts::script::{Capture, Packets};
use std::alloc::Global;

/// What the lines of a capture said so far.
#[derive(Drop)]
pub struct CaptureReader {
    pub given: PartialConfig,
    pub packets: Packets,
}

impl LineReader for CaptureReader {
    type Whole = Capture;

    ghost fault = { capture_fault };

    ghost after = { after_capture };

    ghost whole = { whole_capture };

    fn take(&mut self, alloc: Global, _number: u32, line: &[u8]) -> Result<(), LineError> {
        match kind_of(word(0, line)) {
            Some(kind) => take_config(alloc, false, &mut self.given, kind, line),
            None => self.take_packet(alloc, line),
        }
    }

    fn finish(self, alloc: Global) -> Result<Capture, LineError> {
        match self.given.config(alloc) {
            Some(config) => Ok(Capture {
                config,
                packets: self.packets,
            }),
            None => Err(LineError::Fault(LineFault::Incomplete)),
        }
    }
}

impl CaptureReader {
    // Takes the line `packet K H`.
    #[tactic(auto, unfolding(crate::specs::ScriptText::packet_fault))]
    fn take_packet(&mut self, alloc: Global, line: &[u8]) -> Result<(), LineError>
        ensures answer { IsAnswerTo (packet_fault self.old line.now) result }
        ensures after { OnOk result (self.new ≡ after_capture_kind self.old None line.now) }
    {
        if !is_packet(word(0, line)) {
            return Err(LineError::Fault(LineFault::Unknown));
        }
        if !self.given.ended {
            return Err(LineError::Fault(LineFault::Order));
        }
        if !has_words(3, line) {
            return Err(LineError::Fault(LineFault::Words));
        }
        let count = self.packets.len();
        if !is_next(count, word(1, line)) {
            return Err(LineError::Fault(LineFault::Number));
        }
        let Some(packet) = hex_bytes(alloc, word(2, line))? else {
            return Err(LineError::Fault(LineFault::Hex));
        };
        if count >= MOST_EVENTS {
            return Err(LineError::Fault(LineFault::TooManyEvents));
        }
        self.packets.push(packet)?;
        Ok(())
    }
}

// Whether a word is the number after `count`.
fn is_next(count: usize, word: &[u8]) -> bool
    ensures { result ≡ is_next count word.now }
{
    match number(1, u32::MAX, word) {
        Some(number) => number as usize - 1 == count,
        None => false,
    }
}

// Whether a line is one of a packet.
fn is_packet(word: &[u8]) -> bool
    ensures { result ≡ is_packet word.now }
{
    word == b"packet".as_slice()
}

/// The capture that a text is: a configuration, and packets. The fault is that of the first bad line, and the first
/// that it has.
#[tactic(auto, unfolding(crate::specs::ScriptText::capture_in))]
pub fn parse_capture(alloc: Global, text: &[u8]) -> Result<Capture, ScriptFault>
    requires { length text.now ≤ TEXT_LIMIT }
    ensures { IsReading (capture_in text.now) result }
{
    let reader = CaptureReader {
        given: PartialConfig::new(alloc),
        packets: Packets::new(alloc),
    };
    read_text(alloc, reader, 1, text)
}
