ghost use Rattle.std.specs.Prelude.{◌≡◌, ◌≤◌, ◌<◌, ◌+◌, ◌++◌, ◌∷◌, [], codes, length, fold, OnOk, IfOk};
ghost use Rattle.script_text.specs.Printing.{with_line, seed_words, flags_word, flag_letters, word_or_none, letter_if, responder_words, block_words, requester_words, suite_words, hash_word, aead_word, tcb_word, is_small, with_seed, with_opaque, with_block, with_requester, with_suite, with_requester_suites, responder_text, ends_text, config_text};
ghost use Rattle.trace_text.specs.Spelling.{requester_word, with_word};

use crate::configuration::config::{ReqPart, RspPart, ScriptConfig};
use arrayvec::ArrayVec;
use spdm_basis::{Bytes, OutOfMemory};
use spdm_grammar::{BlockSpec, FlagSet, Pick, Suites};
use std::alloc::Global;
use trace_text::{add_hex, add_number, add_requester, add_word, end_text_line};

// The line of a seed.
fn add_seed(seed: Option<[u8; 32]>, text: &mut Bytes) -> Result<(), OutOfMemory>
    ensures { OnOk result (text.new ≡ with_seed text.old seed) }
{
    match seed {
        None => Ok(()),
        Some(seed) => {
            text.extend(b"seed")?;
            add_hex(&seed, text)?;
            end_text_line(text)
        }
    }
}

// Adds the letter of a capability, where an end has it.
fn push_letter(has: bool, letter: u8, letters: &mut ArrayVec<u8, 4>)
    requires { length letters.old.items < 4 }
    ensures letters { letters.new.items ≡ letters.old.items ++ letter_if has letter }
    ensures length { length letters.new.items ≤ length letters.old.items + 1 }
{
    if has {
        letters.push(letter);
    }
}

// The letters of capabilities.
fn letters(flags: FlagSet) -> ArrayVec<u8, 4>
    ensures { result.items ≡ flag_letters flags }
{
    let mut letters = ArrayVec::new();
    push_letter(flags.measure, b'm', &mut letters);
    push_letter(flags.heartbeat, b'h', &mut letters);
    push_letter(flags.key_update, b'k', &mut letters);
    push_letter(flags.chunk, b'c', &mut letters);
    letters
}

// Puts capabilities after the words of a line.
#[tactic(auto, unfolding(crate::specs::Printing::flags_word))]
fn add_flags(flags: FlagSet, text: &mut Bytes) -> Result<(), OutOfMemory>
    ensures { OnOk result (text.new ≡ with_word text.old (flags_word flags)) }
{
    let letters = letters(flags);
    if letters.is_empty() {
        add_word(b"-", text)
    } else {
        add_word(letters.as_slice(), text)
    }
}

// The line of the responder.
fn add_responder(responder: &RspPart, text: &mut Bytes) -> Result<(), OutOfMemory>
    ensures { OnOk result (text.new ≡ with_line text.old (responder_words responder.now)) }
{
    text.extend(b"responder")?;
    add_number(u64::from(responder.eid.number()), text)?;
    add_number(u64::from(responder.transfer), text)?;
    add_number(u64::from(responder.max), text)?;
    add_number(u64::from(responder.unit), text)?;
    add_number(u64::from(responder.beat), text)?;
    add_flags(responder.flags, text)?;
    end_text_line(text)
}

// The line of opaque data, where there are any.
fn add_opaque(bytes: &[u8], text: &mut Bytes) -> Result<(), OutOfMemory>
    ensures { OnOk result (text.new ≡ with_opaque text.old bytes.now) }
{
    if bytes.is_empty() {
        return Ok(());
    }
    text.extend(b"opaque")?;
    add_hex(bytes, text)?;
    end_text_line(text)
}

// The line of a block.
fn add_block(block: &BlockSpec, text: &mut Bytes) -> Result<(), OutOfMemory>
    ensures { OnOk result (text.new ≡ with_block text.old block.now) }
{
    text.extend(b"block")?;
    add_number(u64::from(block.index), text)?;
    add_number(u64::from(block.value_type), text)?;
    add_word(tcb_word(block.tcb), text)?;
    add_hex(block.value.as_slice(), text)?;
    end_text_line(text)
}

fn tcb_word(tcb: bool) -> &'static [u8]
    ensures { result.now ≡ tcb_word tcb }
{
    if tcb { b"1" } else { b"0" }
}

// The line of a requester.
fn add_requester_line(requester: &ReqPart, text: &mut Bytes) -> Result<(), OutOfMemory>
    ensures { OnOk result (text.new ≡ with_requester text.old requester.now) }
{
    text.extend(b"requester")?;
    add_number(u64::from(requester.eid.number()), text)?;
    add_number(u64::from(requester.transfer), text)?;
    add_number(u64::from(requester.max), text)?;
    add_number(u64::from(requester.unit), text)?;
    add_number(u64::from(requester.pad), text)?;
    add_flags(requester.flags, text)?;
    add_hex(requester.hint.as_slice(), text)?;
    add_hex(requester.psk.as_slice(), text)?;
    add_hex(requester.opaque.as_slice(), text)?;
    end_text_line(text)
}

fn hash_word(pick: Pick) -> &'static [u8]
    ensures { result.now ≡ hash_word pick }
{
    match pick {
        Pick::Small => b"256",
        Pick::Large => b"384",
        Pick::Both => b"both",
    }
}

fn aead_word(pick: Pick) -> &'static [u8]
    ensures { result.now ≡ aead_word pick }
{
    match pick {
        Pick::Small => b"128",
        Pick::Large => b"256",
        Pick::Both => b"both",
    }
}

fn is_small(pick: Pick) -> bool
    ensures { result ≡ is_small pick }
{
    matches!(pick, Pick::Small)
}

// Puts algorithms after the words of a line, and ends it.
fn end_with_suites(suites: Suites, text: &mut Bytes) -> Result<(), OutOfMemory>
    ensures { OnOk result (text.new
        ≡ with_word (with_word text.old (hash_word suites.hash))
        (aead_word suites.aead) ++ 10 ∷ []) }
{
    add_word(hash_word(suites.hash), text)?;
    add_word(aead_word(suites.aead), text)?;
    end_text_line(text)
}

// The line of the responder's algorithms, where they are not those that an end has without it.
fn add_responder_suites(suites: Suites, text: &mut Bytes) -> Result<(), OutOfMemory>
    ensures { OnOk result (text.new ≡ with_suite text.old (codes "r") suites) }
{
    if is_small(suites.hash) && is_small(suites.aead) {
        return Ok(());
    }
    text.extend(b"suite")?;
    add_word(b"r", text)?;
    end_with_suites(suites, text)
}

// The line of the algorithms of requester `q`, where they are not those that an end has without it.
fn add_suites(q: u8, suites: Suites, text: &mut Bytes) -> Result<(), OutOfMemory>
    ensures { OnOk result (text.new ≡ with_suite text.old (requester_word q) suites) }
{
    if is_small(suites.hash) && is_small(suites.aead) {
        return Ok(());
    }
    text.extend(b"suite")?;
    add_requester(q, text)?;
    end_with_suites(suites, text)
}

// The lines of blocks.
fn add_blocks(blocks: &[BlockSpec], text: &mut Bytes) -> Result<(), OutOfMemory>
    ensures { OnOk result (text.new ≡ fold with_block text.old blocks.now) }
{
    for block in blocks {
        add_block(block, text)?;
    }
    Ok(())
}

// The lines of requesters.
fn add_requesters(requesters: &[ReqPart], text: &mut Bytes) -> Result<(), OutOfMemory>
    ensures { OnOk result (text.new ≡ fold with_requester text.old requesters.now) }
{
    for requester in requesters {
        add_requester_line(requester, text)?;
    }
    Ok(())
}

// The lines of the algorithms of requesters.
fn add_all_suites(requesters: &[ReqPart], text: &mut Bytes) -> Result<(), OutOfMemory>
    requires { length requesters.now ≤ 254 }
    ensures { OnOk result (text.new ≡ with_requester_suites text.old 1 requesters.now) }
{
    let mut q = 1;
    for requester in requesters {
        add_suites(q, requester.suites, text)?;
        q += 1;
    }
    Ok(())
}

// The lines of the seed, the responder and its opaque data.
fn add_responder_lines(config: &ScriptConfig, text: &mut Bytes) -> Result<(), OutOfMemory>
    requires { text.old ≡ [] }
    ensures { OnOk result (text.new ≡ responder_text config.now) }
{
    add_seed(config.seed, text)?;
    add_responder(&config.responder, text)?;
    add_opaque(config.responder.opaque.as_slice(), text)
}

// The lines of blocks and requesters after those.
fn add_ends(config: &ScriptConfig, text: &mut Bytes) -> Result<(), OutOfMemory>
    requires { text.old ≡ [] }
    ensures { OnOk result (text.new ≡ ends_text config.now) }
{
    add_responder_lines(config, text)?;
    add_blocks(config.blocks.as_slice(), text)?;
    add_requesters(config.requesters.as_slice(), text)
}

/// The text of a configuration. Lines that say what an end has without them are left out.
#[tactic(auto, unfolding(crate::specs::Printing::config_text))]
pub fn print_config(alloc: Global, config: &ScriptConfig) -> Result<Bytes, OutOfMemory>
    requires { length config.now.requesters ≤ 8 }
    ensures { IfOk result (λ text. text ≡ config_text config.now) }
{
    let mut text = Bytes::new(alloc);
    add_ends(config, &mut text)?;
    add_responder_suites(config.responder.suites, &mut text)?;
    add_all_suites(config.requesters.as_slice(), &mut text)?;
    text.extend(b"end\n")?;
    Ok(text)
}
