ghost use Rattle.std.specs.Prelude.{◌≡◌, ◌≤◌, length, None, OnOk};
ghost use Rattle.script_text.specs.Reading.{IsReading};
ghost use Rattle.script_text.specs.ScriptText.{lives_in, lives_fault, after_lives, whole_lives, lives_event_fault, after_lives_event, cycle_fault, is_cycle};
ghost use Rattle.script_text.specs.Tests.{IsAnswerTo};
ghost use Rattle.script_text.specs.declared.events.event_kind.EventKind.{EventKind};

use crate::configuration::config_kind::{kind_of, take_config};
use crate::configuration::config_text::TEXT_LIMIT;
use crate::configuration::partial_config::PartialConfig;
use crate::events::event::{Entry, Events, MOST_EVENTS};
use crate::events::event_kind::{EventKind, event, event_kind};
use crate::reading::words::{has_words, word};
use crate::texts::faults::{LineError, LineFault, ScriptFault};
use crate::texts::reader::{LineReader, read_text};
use crate::texts::script::{Life, LifeList, Lives};
use std::alloc::Global;
use std::mem;

/// What the lines of lives said so far.
#[derive(Drop)]
pub struct LivesReader {
    pub given: PartialConfig,
    /// How many events and cycles there were.
    pub count: u32,
    /// The lives before the present one.
    pub earlier: LifeList,
    /// The line with which the present life began, and its events.
    pub cycle_line: u32,
    pub events: Events,
}

impl LineReader for LivesReader {
    type Whole = Lives;

    ghost fault = { lives_fault };

    ghost after = { after_lives };

    ghost whole = { whole_lives };

    fn take(&mut self, alloc: Global, number: u32, line: &[u8]) -> Result<(), LineError> {
        match kind_of(word(0, line)) {
            Some(kind) => take_config(alloc, true, &mut self.given, kind, line),
            None => self.take_event(alloc, number, event_kind(line), line),
        }
    }

    fn finish(self, alloc: Global) -> Result<Lives, LineError> {
        let LivesReader {
            given,
            count: _,
            mut earlier,
            cycle_line,
            events,
        } = self;
        let Some(config) = given.config(alloc) else {
            return Err(LineError::Fault(LineFault::Incomplete));
        };
        earlier.push(Life { cycle_line, events })?;
        Ok(Lives {
            config,
            lives: earlier,
        })
    }
}

impl LivesReader {
    // Takes a line that is none of the configuration.
    fn take_event(
        &mut self,
        alloc: Global,
        number: u32,
        kind: Option<EventKind>,
        line: &[u8],
    ) -> Result<(), LineError>
        ensures answer { IsAnswerTo (lives_event_fault self.old kind line.now) result }
        ensures after { OnOk result (self.new ≡ after_lives_event self.old number kind line.now) }
    {
        let Some(kind) = kind else {
            return self.take_other(alloc, number, line);
        };
        if !self.given.ended {
            return Err(LineError::Fault(LineFault::Order));
        }
        let requesters = self.given.requesters.as_slice().len();
        let event = event(alloc, requesters, kind, line)?;
        if self.count >= MOST_EVENTS as u32 {
            return Err(LineError::Fault(LineFault::TooManyEvents));
        }
        self.events.push(Entry {
            line: number,
            event,
        })?;
        self.count += 1;
        Ok(())
    }

    // Takes a line that is no event: `cycle`.
    #[tactic(auto, unfolding(crate::specs::ScriptText::cycle_fault))]
    fn take_other(&mut self, alloc: Global, number: u32, line: &[u8]) -> Result<(), LineError>
        ensures answer { IsAnswerTo (lives_event_fault self.old None line.now) result }
        ensures after { OnOk result (self.new ≡ after_lives_event self.old number None line.now) }
    {
        if !is_cycle(word(0, line)) {
            return Err(LineError::Fault(LineFault::Unknown));
        }
        if !self.given.ended {
            return Err(LineError::Fault(LineFault::Order));
        }
        if !has_words(1, line) {
            return Err(LineError::Fault(LineFault::Words));
        }
        if self.count >= MOST_EVENTS as u32 {
            return Err(LineError::Fault(LineFault::TooManyEvents));
        }
        let events = mem::replace(&mut self.events, Events::new(alloc));
        self.earlier.push(Life {
            cycle_line: self.cycle_line,
            events,
        })?;
        self.cycle_line = number;
        self.count += 1;
        Ok(())
    }
}

// Whether a line says that all ends start again.
fn is_cycle(word: &[u8]) -> bool
    ensures { result ≡ is_cycle word.now }
{
    word == b"cycle".as_slice()
}

/// The lives that a text is: a script in which `cycle` is an event too. The fault is that of the first bad line, and
/// the first that it has.
#[tactic(auto, unfolding(crate::specs::ScriptText::lives_in))]
pub fn parse_lives(alloc: Global, text: &[u8]) -> Result<Lives, ScriptFault>
    requires { length text.now ≤ TEXT_LIMIT }
    ensures { IsReading (lives_in text.now) result }
{
    let reader = LivesReader {
        given: PartialConfig::new(alloc),
        count: 0,
        earlier: LifeList::new(alloc),
        cycle_line: 0,
        events: Events::new(alloc),
    };
    read_text(alloc, reader, 1, text)
}
