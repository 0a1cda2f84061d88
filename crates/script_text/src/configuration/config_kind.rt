ghost use Rattle.std.specs.Prelude.{◌≡◌, OnOk};
ghost use Rattle.script_text.specs.Configuring.{config_kind, config_fault, after_config};
ghost use Rattle.script_text.specs.Tests.{IsAnswerTo};

use crate::configuration::block_line::take_block;
use crate::configuration::end_line::take_end;
use crate::configuration::opaque_line::take_opaque;
use crate::configuration::partial_config::PartialConfig;
use crate::configuration::requester_line::take_requester;
use crate::configuration::responder_line::take_responder;
use crate::configuration::seed_line::take_seed;
use crate::configuration::suite_line::take_suite;
use crate::texts::faults::LineError;
use std::alloc::Global;

/// The kinds of lines of a configuration.
#[derive(Clone, Copy, Debug, PartialEq, Eq)]
pub enum ConfigKind {
    Seed,
    Responder,
    Opaque,
    Block,
    Requester,
    Suite,
    End,
}

/// The kind of a line by its first word.
#[tactic(auto, unfolding(crate::specs::Configuring::config_kind))]
pub fn kind_of(word: &[u8]) -> Option<ConfigKind>
    ensures { result ≡ config_kind word.now }
{
    if word == b"seed".as_slice() {
        Some(ConfigKind::Seed)
    } else if word == b"responder".as_slice() {
        Some(ConfigKind::Responder)
    } else if word == b"opaque".as_slice() {
        Some(ConfigKind::Opaque)
    } else if word == b"block".as_slice() {
        Some(ConfigKind::Block)
    } else if word == b"requester".as_slice() {
        Some(ConfigKind::Requester)
    } else if word == b"suite".as_slice() {
        Some(ConfigKind::Suite)
    } else if word == b"end".as_slice() {
        Some(ConfigKind::End)
    } else {
        None
    }
}

/// Takes a line of the configuration of a kind.
pub fn take_config(
    alloc: Global,
    needs_seed: bool,
    given: &mut PartialConfig,
    kind: ConfigKind,
    line: &[u8],
) -> Result<(), LineError>
    ensures answer { IsAnswerTo (config_fault needs_seed given.old kind line.now) result }
    ensures after { OnOk result (given.new ≡ after_config given.old kind line.now) }
{
    match kind {
        ConfigKind::Seed => take_seed(given, line),
        ConfigKind::Responder => take_responder(given, line),
        ConfigKind::Opaque => take_opaque(alloc, given, line),
        ConfigKind::Block => take_block(alloc, given, line),
        ConfigKind::Requester => take_requester(alloc, given, line),
        ConfigKind::Suite => take_suite(given, line),
        ConfigKind::End => take_end(needs_seed, given, line),
    }
}
