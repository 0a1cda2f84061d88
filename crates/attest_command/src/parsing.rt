ghost use Rattle.std.specs.Prelude.{◌+◌, ◌≤◌, length};
ghost use Rattle.attest_command.specs.AttestStart.{IsParsed};

use crate::line_count::count_of_lines;
use crate::texts::Texts;
use appraise::Policy;
use script_text::{ScriptConfig, TEXT_LIMIT, parse_config, parse_policy};
use std::alloc::Global;
use stream_commands::StreamFault;

/// What the texts before a stream say.
#[derive(Drop)]
pub(crate) struct Parsed {
    pub(crate) config: ScriptConfig,
    pub(crate) policy: Policy,
}

/// What two texts say.
pub(crate) fn parse(alloc: Global, texts: &Texts) -> Result<Parsed, StreamFault>
    requires { length texts.now.config + length texts.now.policy ≤ TEXT_LIMIT }
    ensures { IsParsed texts.now result }
{
    let config = match parse_config(alloc, texts.config.as_slice()) {
        Ok(config) => config,
        Err(fault) => return Err(StreamFault::of_text(fault)),
    };
    let first = count_of_lines(texts.config.as_slice()) + 1;
    let rules = match parse_policy(alloc, texts.policy.as_slice(), first) {
        Ok(rules) => rules,
        Err(fault) => return Err(StreamFault::of_text(fault)),
    };
    // Rules that were read make a policy (`read_rules_are_sound`), so nothing but memory can be wanting.
    match Policy::new(alloc, rules.as_slice()) {
        Ok(policy) => Ok(Parsed { config, policy }),
        Err(_) => Err(StreamFault::OutOfMemory),
    }
}
