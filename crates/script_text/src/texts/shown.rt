ghost use Rattle.std.specs.Prelude.{◌≡◌, [], ◌∷◌, ◌++◌, OnOk, OnErr};

use spdm_basis::{Bytes, HashAlg, OutOfMemory};
use std::alloc::Global;
use std::marker::Model;

/// What a message is shown as.
#[derive(Clone, Copy, Debug, PartialEq, Eq)]
pub enum ShownKind {
    Request,
    Response,
    /// A response to a request that asked for a measurement summary.
    WithSummary,
}

/// What a message is shown as, and under which hash function.
#[derive(Clone, Copy, Debug, PartialEq, Eq)]
pub struct ShownAs {
    pub kind: ShownKind,
    pub hash: HashAlg,
}

/// A message that is to be shown.
#[derive(Debug, Drop)]
pub struct Shown {
    pub kind: ShownKind,
    pub hash: HashAlg,
    pub bytes: Bytes,
}

/// Messages in the order of their lines. In contracts, a list.
#[derive(Debug, Drop)]
pub struct ShownList {
    items: Vec<Shown>,
}

impl Model for ShownList {
    ghost use Rattle.std.specs.Prelude.{List};
    ghost use Rattle.script_text.specs.declared.texts.shown.Shown.{Shown};

    ghost Value = { List Shown };

    ghost view = { λ s. s.items.items };
}

impl ShownList {
    /// No messages.
    pub fn new(alloc: Global) -> Self
        ensures { result ≡ [] }
    {
        ShownList {
            items: Vec::new(alloc),
        }
    }

    /// Appends a message. An `Err` leaves the messages as they were.
    pub fn push(&mut self, shown: Shown) -> Result<(), OutOfMemory>
        ensures ok { OnOk result (self.new ≡ self.old ++ shown ∷ []) }
        ensures err { OnErr result (self.new ≡ self.old) }
    {
        self.items.push(shown).map_err(|_| OutOfMemory)
    }

    /// The messages.
    pub fn as_slice(&self) -> &[Shown]
        ensures { result.now ≡ self.now }
    {
        self.items.as_slice()
    }
}
