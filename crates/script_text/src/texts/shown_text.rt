ghost use Rattle.std.specs.Prelude.{◌≡◌, ◌≤◌, Some, length, OnOk};
ghost use Rattle.script_text.specs.Reading.{IsReading};
ghost use Rattle.script_text.specs.ShownText.{shown_in, shown_as, shown_fault, after_shown, message_fault, after_shown_kind};
ghost use Rattle.script_text.specs.Tests.{IsAnswerTo};

use crate::configuration::config_text::TEXT_LIMIT;
use crate::reading::hex_words::hex_bytes;
use crate::reading::words::{has_words, word};
use crate::texts::faults::{LineError, LineFault, ScriptFault};
use crate::texts::reader::{LineReader, read_text};
use crate::texts::shown::{Shown, ShownAs, ShownKind, ShownList};
use spdm_basis::HashAlg;
use std::alloc::Global;

// What a line shows by its first word.
#[tactic(auto, unfolding(crate::specs::ShownText::shown_as))]
fn shown_as(word: &[u8]) -> Option<ShownAs>
    ensures { result ≡ shown_as word.now }
{
    let (kind, hash) = if word == b"q".as_slice() {
        (ShownKind::Request, HashAlg::Sha256)
    } else if word == b"r".as_slice() {
        (ShownKind::Response, HashAlg::Sha256)
    } else if word == b"s".as_slice() {
        (ShownKind::WithSummary, HashAlg::Sha256)
    } else if word == b"q48".as_slice() {
        (ShownKind::Request, HashAlg::Sha384)
    } else if word == b"r48".as_slice() {
        (ShownKind::Response, HashAlg::Sha384)
    } else if word == b"s48".as_slice() {
        (ShownKind::WithSummary, HashAlg::Sha384)
    } else {
        return None;
    };
    Some(ShownAs { kind, hash })
}

impl LineReader for ShownList {
    type Whole = ShownList;

    ghost fault = { shown_fault };

    ghost after = { after_shown };

    ghost whole = { λ shown. Some shown };

    fn take(&mut self, alloc: Global, _number: u32, line: &[u8]) -> Result<(), LineError> {
        let Some(shown) = shown_as(word(0, line)) else {
            return Err(LineError::Fault(LineFault::Unknown));
        };
        take_message(alloc, self, shown, line)
    }

    fn finish(self, _alloc: Global) -> Result<ShownList, LineError> {
        Ok(self)
    }
}

// Takes the line of a message.
#[tactic(auto, unfolding(crate::specs::ShownText::message_fault))]
fn take_message(
    alloc: Global,
    list: &mut ShownList,
    shown: ShownAs,
    line: &[u8],
) -> Result<(), LineError>
    ensures answer { IsAnswerTo (message_fault line.now) result }
    ensures after { OnOk result (list.new ≡ after_shown_kind list.old (Some shown) line.now) }
{
    if !has_words(2, line) {
        return Err(LineError::Fault(LineFault::Words));
    }
    let Some(bytes) = hex_bytes(alloc, word(1, line))? else {
        return Err(LineError::Fault(LineFault::Hex));
    };
    list.push(Shown {
        kind: shown.kind,
        hash: shown.hash,
        bytes,
    })?;
    Ok(())
}

/// The messages that a text is, one on each line. The fault is that of the first bad line, and the first that it has.
#[tactic(auto, unfolding(crate::specs::ShownText::shown_in))]
pub fn parse_shown(alloc: Global, text: &[u8]) -> Result<ShownList, ScriptFault>
    requires { length text.now ≤ TEXT_LIMIT }
    ensures { IsReading (shown_in text.now) result }
{
    read_text(alloc, ShownList::new(alloc), 1, text)
}
