ghost use Rattle.std.specs.Prelude.{◌≡◌, ◌≤◌, length, IfOk, OnOk};
ghost use Rattle.script_text.specs.Reading.{IsReading};
ghost use Rattle.script_text.specs.ScriptText.{script_in, script_fault, after_script, whole_script, script_event_fault, after_script_event};
ghost use Rattle.script_text.specs.Tests.{IsAnswerTo};
ghost use Rattle.script_text.specs.declared.events.event_kind.EventKind.{EventKind};

use crate::configuration::config_kind::{kind_of, take_config};
use crate::configuration::config_text::TEXT_LIMIT;
use crate::configuration::partial_config::PartialConfig;
use crate::events::event::{Entry, Events, MOST_EVENTS};
use crate::events::event_kind::{EventKind, event, event_kind};
use crate::reading::words::word;
use crate::texts::faults::{LineError, LineFault, ScriptFault};
use crate::texts::reader::{LineReader, read_text};
use crate::texts::script::Script;
use std::alloc::Global;

/// What the lines of a script said so far.
#[derive(Drop)]
pub struct ScriptReader {
    pub given: PartialConfig,
    pub events: Events,
}

impl LineReader for ScriptReader {
    type Whole = Script;

    ghost fault = { script_fault };

    ghost after = { after_script };

    ghost whole = { whole_script };

    fn take(&mut self, alloc: Global, number: u32, line: &[u8]) -> Result<(), LineError> {
        match kind_of(word(0, line)) {
            Some(kind) => take_config(alloc, true, &mut self.given, kind, line),
            None => self.take_event(alloc, number, event_kind(line), line),
        }
    }

    fn finish(self, alloc: Global) -> Result<Script, LineError> {
        match self.given.config(alloc) {
            Some(config) => Ok(Script {
                config,
                events: self.events,
            }),
            None => Err(LineError::Fault(LineFault::Incomplete)),
        }
    }
}

impl ScriptReader {
    // Takes a line that is none of the configuration.
    fn take_event(
        &mut self,
        alloc: Global,
        number: u32,
        kind: Option<EventKind>,
        line: &[u8],
    ) -> Result<(), LineError>
        ensures answer { IsAnswerTo (script_event_fault self.old kind line.now) result }
        ensures after { OnOk result (self.new ≡ after_script_event self.old number kind line.now) }
    {
        let Some(kind) = kind else {
            return Err(LineError::Fault(LineFault::Unknown));
        };
        if !self.given.ended {
            return Err(LineError::Fault(LineFault::Order));
        }
        let requesters = self.given.requesters.as_slice().len();
        let event = event(alloc, requesters, kind, line)?;
        if self.events.as_slice().len() >= MOST_EVENTS {
            return Err(LineError::Fault(LineFault::TooManyEvents));
        }
        self.events.push(Entry {
            line: number,
            event,
        })?;
        Ok(())
    }
}

/// The script that a text is: a configuration with a seed, and events. The fault is that of the first bad line, and the
/// first that it has.
#[tactic(auto, unfolding(crate::specs::ScriptText::script_in))]
pub fn parse_script(alloc: Global, text: &[u8]) -> Result<Script, ScriptFault>
    requires { length text.now ≤ TEXT_LIMIT }
    ensures { IsReading (script_in text.now) result }
{
    let reader = ScriptReader {
        given: PartialConfig::new(alloc),
        events: Events::new(alloc),
    };
    read_text(alloc, reader, 1, text)
}
