ghost use Rattle.std.specs.Prelude.{◌≡◌, ◌≤◌, ◌==◌, ◌^◌, Some, length, OnOk};
ghost use Rattle.script_text.specs.PolicyText.{policy_in, policy_fault, after_policy, rule_kind, rule_fault, after_rule, expect_fault, skip_fault, go_fault, has_index, index_of, is_go};
ghost use Rattle.script_text.specs.Reading.{IsReading, line_fault};
ghost use Rattle.script_text.specs.Tests.{IsAnswerTo};
ghost use Rattle.script_text.specs.declared.texts.policy_text.RuleKind.TheVariants.{Expect, Skip};

use crate::configuration::config_text::TEXT_LIMIT;
use crate::reading::hex_words::{MOST_BYTES, bytes_of, hex_len};
use crate::reading::lines::{is_passed_over, is_too_long, next_line};
use crate::reading::numbers::number;
use crate::reading::words::{has_words, word};
use crate::texts::faults::{LineError, LineFault, ScriptFault};
use crate::texts::reader::told;
use crate::texts::rule::{Rule, Rules};
use std::alloc::Global;

/// The kinds of lines of a policy.
#[derive(Clone, Copy, Debug, PartialEq, Eq)]
pub enum RuleKind {
    Expect,
    Skip,
    Go,
}

// The kind of a line by its first word.
#[tactic(auto, unfolding(crate::specs::PolicyText::rule_kind))]
fn rule_kind(word: &[u8]) -> Option<RuleKind>
    ensures { result ≡ rule_kind word.now }
{
    if word == b"expect".as_slice() {
        Some(RuleKind::Expect)
    } else if word == b"skip".as_slice() {
        Some(RuleKind::Skip)
    } else if word == b"go".as_slice() {
        Some(RuleKind::Go)
    } else {
        None
    }
}

// The index of which a rule speaks.
fn index_of(rule: &Rule) -> u8
    ensures { result ≡ index_of rule.now }
{
    match rule {
        Rule::Expect { index, .. } => *index,
        Rule::Skip { index } => *index,
    }
}

// Whether a rule speaks of this index.
fn has_index(index: u8, rules: &[Rule]) -> bool
    ensures { result ≡ has_index index rules.now }
{
    rules.iter().any(|rule| index_of(rule) == index)
}

// Takes the line `expect INDEX TYPE H`.
#[tactic(auto, unfolding(crate::specs::PolicyText::expect_fault))]
fn take_expect(alloc: Global, rules: &mut Rules, line: &[u8]) -> Result<(), LineError>
    ensures answer { IsAnswerTo (expect_fault rules.old line.now) result }
    ensures after { OnOk result (rules.new ≡ after_rule rules.old (Some Expect) line.now) }
{
    if !has_words(4, line) {
        return Err(LineError::Fault(LineFault::Words));
    }
    let Some(index) = number(1, 254, word(1, line)) else {
        return Err(LineError::Fault(LineFault::Number));
    };
    let Some(value_type) = number(0, 255, word(2, line)) else {
        return Err(LineError::Fault(LineFault::Number));
    };
    if hex_len(0, MOST_BYTES, word(3, line)).is_none() {
        return Err(LineError::Fault(LineFault::Hex));
    }
    let index = index as u8;
    if has_index(index, rules.as_slice()) {
        return Err(LineError::Fault(LineFault::Twice));
    }
    let rule = Rule::Expect {
        index,
        value_type: value_type as u8,
        value: bytes_of(alloc, word(3, line))?,
    };
    rules.push(rule)?;
    Ok(())
}

// Takes the line `skip INDEX`.
#[tactic(auto, unfolding(crate::specs::PolicyText::skip_fault))]
fn take_skip(rules: &mut Rules, line: &[u8]) -> Result<(), LineError>
    ensures answer { IsAnswerTo (skip_fault rules.old line.now) result }
    ensures after { OnOk result (rules.new ≡ after_rule rules.old (Some Skip) line.now) }
{
    if !has_words(2, line) {
        return Err(LineError::Fault(LineFault::Words));
    }
    let Some(index) = number(1, 254, word(1, line)) else {
        return Err(LineError::Fault(LineFault::Number));
    };
    let index = index as u8;
    if has_index(index, rules.as_slice()) {
        return Err(LineError::Fault(LineFault::Twice));
    }
    rules.push(Rule::Skip { index })?;
    Ok(())
}

// Whether a line with the first word `go` is good.
#[tactic(auto, unfolding(crate::specs::PolicyText::go_fault))]
fn check_go(line: &[u8]) -> Result<(), LineError>
    ensures { IsAnswerTo (go_fault line.now) result }
{
    if !has_words(1, line) {
        return Err(LineError::Fault(LineFault::Words));
    }
    Ok(())
}

// Takes a line of a kind.
fn take_rule(
    alloc: Global,
    rules: &mut Rules,
    kind: Option<RuleKind>,
    line: &[u8],
) -> Result<(), LineError>
    ensures answer { IsAnswerTo (rule_fault rules.old kind line.now) result }
    ensures after { OnOk result (rules.new ≡ after_rule rules.old kind line.now) }
{
    match kind {
        Some(RuleKind::Expect) => take_expect(alloc, rules, line),
        Some(RuleKind::Skip) => take_skip(rules, line),
        Some(RuleKind::Go) => check_go(line),
        None => Err(LineError::Fault(LineFault::Unknown)),
    }
}

// Takes a line.
fn take_line(alloc: Global, rules: &mut Rules, line: &[u8]) -> Result<(), LineError>
    ensures answer { IsAnswerTo (line_fault policy_fault rules.old line.now) result }
    ensures after { OnOk result (rules.new ≡ after_policy rules.old line.now) }
{
    if is_too_long(line) {
        return Err(LineError::Fault(LineFault::LineTooLong));
    }
    if is_passed_over(line) {
        return Ok(());
    }
    take_rule(alloc, rules, rule_kind(word(0, line)), line)
}

// Whether a line is the one that ends a policy.
fn is_go(line: &[u8]) -> bool
    ensures { result ≡ is_go line.now }
{
    line == b"go".as_slice()
}

/// The rules that a text is, up to the line `go`; its first line has the number `first`. The fault is that of the first
/// bad line, and the first that it has.
#[tactic(auto, unfolding(crate::specs::PolicyText::policy_in))]
pub fn parse_policy(alloc: Global, text: &[u8], first: u32) -> Result<Rules, ScriptFault>
    requires length { length text.now ≤ TEXT_LIMIT }
    requires first { first ≤ 2 ^ 31 }
    ensures { IsReading (policy_in first text.now) result }
{
    let mut rules = Rules::new(alloc);
    let mut number = first;
    let mut rest = text;
    while let Some((line, behind)) = next_line(rest) {
        if is_go(line) {
            return Ok(rules);
        }
        if let Err(error) = take_line(alloc, &mut rules, line) {
            return Err(told(number, error));
        }
        number += 1;
        rest = behind;
    }
    Err(ScriptFault::Line(number, LineFault::Incomplete))
}
