ghost use Rattle.std.specs.Prelude.{◌≡◌, [], ◌∷◌, ◌++◌, OnOk, OnErr};

use spdm_basis::{Bytes, OutOfMemory};
use std::alloc::Global;
use std::marker::Model;

/// What is asked of a measurement.
#[derive(Debug, Drop)]
pub enum Rule {
    /// The block of this index has this type and this value.
    Expect {
        index: u8,
        value_type: u8,
        value: Bytes,
    },
    /// The block of this index may be anything.
    Skip {
        index: u8,
    },
}

/// Rules in the order of their lines. In contracts, a list.
#[derive(Debug, Drop)]
pub struct Rules {
    items: Vec<Rule>,
}

impl Model for Rules {
    ghost use Rattle.std.specs.Prelude.{List};
    ghost use Rattle.script_text.specs.declared.texts.rule.Rule.{Rule};

    ghost Value = { List Rule };

    ghost view = { λ r. r.items.items };
}

impl Rules {
    /// No rules.
    pub fn new(alloc: Global) -> Self
        ensures { result ≡ [] }
    {
        Rules {
            items: Vec::new(alloc),
        }
    }

    /// Appends a rule. An `Err` leaves the rules as they were.
    pub fn push(&mut self, rule: Rule) -> Result<(), OutOfMemory>
        ensures ok { OnOk result (self.new ≡ self.old ++ rule ∷ []) }
        ensures err { OnErr result (self.new ≡ self.old) }
    {
        self.items.push(rule).map_err(|_| OutOfMemory)
    }

    /// The rules.
    pub fn as_slice(&self) -> &[Rule]
        ensures { result.now ≡ self.now }
    {
        self.items.as_slice()
    }
}
