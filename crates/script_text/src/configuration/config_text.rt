ghost use Rattle.std.specs.Prelude.{◌≡◌, ◌≤◌, length};
ghost use Rattle.script_text.specs.ConfigText.{config_in, config_text_fault, after_config_text};
ghost use Rattle.script_text.specs.Configuring.{config_of};
ghost use Rattle.script_text.specs.Reading.{IsReading};

use crate::configuration::config::ScriptConfig;
use crate::configuration::config_kind::{kind_of, take_config};
use crate::configuration::partial_config::PartialConfig;
use crate::reading::words::word;
use crate::texts::faults::{LineError, LineFault, ScriptFault};
use crate::texts::reader::{LineReader, read_text};
use std::alloc::Global;

/// The longest text: 4 MiB.
pub const TEXT_LIMIT: usize = 4 * 1024 * 1024;

impl LineReader for PartialConfig {
    type Whole = ScriptConfig;

    ghost fault = { config_text_fault };

    ghost after = { after_config_text };

    ghost whole = { config_of };

    fn take(&mut self, alloc: Global, _number: u32, line: &[u8]) -> Result<(), LineError> {
        if self.ended {
            return Err(LineError::Fault(LineFault::Order));
        }
        let Some(kind) = kind_of(word(0, line)) else {
            return Err(LineError::Fault(LineFault::Unknown));
        };
        take_config(alloc, false, self, kind, line)
    }

    fn finish(self, alloc: Global) -> Result<ScriptConfig, LineError> {
        match self.config(alloc) {
            Some(config) => Ok(config),
            None => Err(LineError::Fault(LineFault::Incomplete)),
        }
    }
}

/// The configuration that a text is: lines up to `end`. The fault is that of the first bad line, and the first that it
/// has.
#[tactic(auto, unfolding(crate::specs::ConfigText::config_in))]
pub fn parse_config(alloc: Global, text: &[u8]) -> Result<ScriptConfig, ScriptFault>
    requires { length text.now ≤ TEXT_LIMIT }
    ensures { IsReading (config_in text.now) result }
{
    read_text(alloc, PartialConfig::new(alloc), 1, text)
}
