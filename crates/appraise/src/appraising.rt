ghost use Rattle.std.specs.Prelude.{◌≡◌, List, None};
ghost use Rattle.appraise.specs.Records.{Measured, BeginsWithBlock};
ghost use Rattle.appraise.specs.Policies.{policy_fault};
ghost use Rattle.appraise.specs.Answers.{fault_of, IsAppraisal};
ghost use Rattle.appraise.specs.Walk.{StandsFor, IsRead, IsMissingOrNone};
ghost use Rattle.appraise.specs.declared.appraisal.Appraisal.{Appraisal};

use crate::block::{Block, first_block};
use crate::rules::{expects, expects_other, has_index};
use crate::seen::Seen;
use crate::{Appraisal, Policy};
use script_text::Rule;
use spdm_grammar::names::ALL_BLOCKS;

// The fault of a block behind those that were seen, if it has one.
fn fault_of(rules: &[Rule], seen: &Seen, block: &Block<'_>) -> Option<Appraisal>
    ensures { (earlier : List Measured) → StandsFor seen.now.table earlier → result ≡ fault_of rules.now earlier block.now }
{
    let index = block.index;
    if seen.has(index) {
        Some(Appraisal::Repeated { index })
    } else if !has_index(index, rules) {
        Some(Appraisal::Unknown { index })
    } else if expects_other(block, rules) {
        Some(Appraisal::Differs { index })
    } else {
        None
    }
}

// What is known of a record once the whole blocks at its front were read.
#[derive(Drop)]
struct Reading<'a> {
    seen: Seen,
    // That of the first block that has one.
    fault: Option<Appraisal>,
    // What stands behind them.
    rest: &'a [u8],
}

// Reads whole blocks from the front, as far as there are any.
fn read<'a>(rules: &[Rule], bytes: &'a [u8]) -> Reading<'a>
    ensures read { IsRead rules.now bytes.now result.seen.table result.fault result.rest.now }
    ensures last { BeginsWithBlock result.rest.now → ⊥ }
{
    let mut seen = Seen::new();
    let mut fault = None;
    let mut rest = bytes;
    while let Some((block, behind)) = first_block(rest) {
        if fault.is_none() {
            fault = fault_of(rules, &seen, &block);
        }
        seen.add(block.index);
        rest = behind;
    }
    Reading { seen, fault, rest }
}

// The least index that a rule expects and no block has.
fn first_missing(rules: &[Rule], seen: &Seen) -> Option<u8>
    requires { policy_fault rules.now ≡ None }
    ensures { (blocks : List Measured) → StandsFor seen.now.table blocks → IsMissingOrNone rules.now blocks result }
{
    for index in 1..ALL_BLOCKS {
        if expects(index, rules) && !seen.has(index) {
            return Some(index);
        }
    }
    None
}

/// What a record of measurements comes to under a policy: `Appraisal` lists the answers in the order in which they are
/// decided. Takes no memory (read, not proved).
pub fn appraise(policy: &Policy, blocks: &[u8]) -> Appraisal
    ensures holds { IsAppraisal policy.now blocks.now result }
    ensures only { (answer : Appraisal) → IsAppraisal policy.now blocks.now answer → answer ≡ result }
{
    let rules = policy.rules();
    let reading = read(rules, blocks);
    if !reading.rest.is_empty() {
        return Appraisal::Malformed {
            at: blocks.len() - reading.rest.len(),
        };
    }
    if let Some(fault) = reading.fault {
        return fault;
    }
    match first_missing(rules, &reading.seen) {
        Some(index) => Appraisal::Missing { index },
        None => Appraisal::Trusted,
    }
}
