ghost use Rattle.std.specs.Prelude.{◌≡◌};
ghost use Rattle.script_text.specs.PolicyText.{index_of, has_index};
ghost use Rattle.appraise.specs.Policies.{has_bad_index, has_twice, is_expectation, expects, is_unmet, expects_other};

use crate::block::Block;
use script_text::Rule;
use spdm_grammar::names::ALL_BLOCKS;

// The index of which a rule speaks.
fn index_of(rule: &Rule) -> u8
    ensures { result ≡ index_of rule.now }
{
    match rule {
        Rule::Expect { index, .. } => *index,
        Rule::Skip { index } => *index,
    }
}

/// Whether an index names no block.
pub fn has_bad_index(rules: &[Rule]) -> bool
    ensures { result ≡ has_bad_index rules.now }
{
    rules
        .iter()
        .any(|rule| index_of(rule) == 0 || index_of(rule) >= ALL_BLOCKS)
}

/// Whether some rule speaks of this index.
pub fn has_index(index: u8, rules: &[Rule]) -> bool
    ensures { result ≡ has_index index rules.now }
{
    rules.iter().any(|rule| index_of(rule) == index)
}

/// Whether two rules speak of one index.
pub fn has_twice(rules: &[Rule]) -> bool
    ensures { result ≡ has_twice rules.now }
{
    let mut rest = rules;
    while let [rule, others @ ..] = rest {
        if has_index(index_of(rule), others) {
            return true;
        }
        rest = others;
    }
    false
}

// Whether a rule expects a block of this index.
fn is_expectation(index: u8, rule: &Rule) -> bool
    ensures { result ≡ is_expectation index rule.now }
{
    match rule {
        Rule::Expect {
            index: expected,
            ..
        } => *expected == index,
        Rule::Skip { .. } => false,
    }
}

/// Whether some rule expects a block of this index.
pub fn expects(index: u8, rules: &[Rule]) -> bool
    ensures { result ≡ expects index rules.now }
{
    rules.iter().any(|rule| is_expectation(index, rule))
}

// Whether a rule is one for the block's index, and expects another type or another value.
fn is_unmet(block: &Block<'_>, rule: &Rule) -> bool
    ensures { result ≡ is_unmet block.now rule.now }
{
    match rule {
        Rule::Expect {
            index,
            value_type,
            value,
        } => {
            *index == block.index
                && !(*value_type == block.value_type && value.as_slice() == block.value)
        }
        Rule::Skip { .. } => false,
    }
}

/// Whether some rule for the block's index expects another type or another value.
pub fn expects_other(block: &Block<'_>, rules: &[Rule]) -> bool
    ensures { result ≡ expects_other block.now rules.now }
{
    rules.iter().any(|rule| is_unmet(block, rule))
}
