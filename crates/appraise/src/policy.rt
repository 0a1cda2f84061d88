ghost use Rattle.std.specs.Prelude.{◌≡◌, IfOk};

use crate::PolicyFault;
use crate::rules::{has_bad_index, has_twice};
use script_text::{Rule, Rules};
use spdm_basis::{Bytes, OutOfMemory};
use std::alloc::Global;
use std::marker::Model;

/// Rules for the measurements of a responder, at most one for each index. In contracts, the list of its rules.
#[derive(Debug, Drop)]
pub struct Policy {
    rules: Rules,
}

impl Model for Policy {
    ghost use Rattle.std.specs.Prelude.{◌≡◌, List, None};
    ghost use Rattle.script_text.specs.declared.texts.rule.Rule.{Rule};
    ghost use Rattle.appraise.specs.Policies.{policy_fault};

    ghost Value = { List Rule };

    ghost view = { λ p. p.rules };

    ghost invariant = { λ p. policy_fault p.rules ≡ None };
}

impl Policy {
    ghost use Rattle.std.specs.Prelude.{◌≡◌, None, OnOk, IfOk, IfErr};
    ghost use Rattle.appraise.specs.Policies.{policy_fault, IsCause};

    /// A policy of copies of these rules, in any order. `PolicyFault` lists the faults in the order of the checks.
    pub fn new(alloc: Global, rules: &[Rule]) -> Result<Policy, PolicyFault>
        ensures rules { IfOk result (λ policy. policy ≡ rules.now) }
        ensures sound { OnOk result (policy_fault rules.now ≡ None) }
        ensures fault { IfErr result (λ fault. IsCause rules.now fault) }
    {
        if has_bad_index(rules) {
            return Err(PolicyFault::IndexOutOfRange);
        }
        if has_twice(rules) {
            return Err(PolicyFault::IndexTaken);
        }
        match copies(alloc, rules) {
            Ok(rules) => Ok(Policy { rules }),
            Err(_) => Err(PolicyFault::OutOfMemory),
        }
    }

    /// The rules, in the order in which they were given.
    pub fn rules(&self) -> &[Rule]
        ensures value { result.now ≡ self.now }
        ensures sound { policy_fault result.now ≡ None }
    {
        self.rules.as_slice()
    }
}

// A copy of a rule.
fn copy(alloc: Global, rule: &Rule) -> Result<Rule, OutOfMemory>
    ensures { IfOk result (λ copy. copy ≡ rule.now) }
{
    Ok(match rule {
        Rule::Expect {
            index,
            value_type,
            value,
        } => Rule::Expect {
            index: *index,
            value_type: *value_type,
            value: Bytes::copy(alloc, value.as_slice())?,
        },
        Rule::Skip { index } => Rule::Skip { index: *index },
    })
}

// Copies of rules, in their order.
fn copies(alloc: Global, rules: &[Rule]) -> Result<Rules, OutOfMemory>
    ensures { IfOk result (λ copies. copies ≡ rules.now) }
{
    let mut copies = Rules::new(alloc);
    for rule in rules {
        copies.push(copy(alloc, rule)?)?;
    }
    Ok(copies)
}
