use spdm_basis::{Bytes, Line};
use std::alloc::Global;
use std::marker::Model;

/// The trace lines of one event. In contracts, their text.
#[derive(Drop)]
pub(crate) struct EventText {
    pub(crate) text: Bytes,
    // Scratch space for the current line, kept here so that no line zeroes a buffer of its own.
    pub(crate) line: Line,
}

impl Model for EventText {
    ghost use Rattle.std.specs.Prelude.{ℕ, List};

    ghost Value = { List ℕ };

    ghost view = { λ t. t.text };
}

impl EventText {
    ghost use Rattle.std.specs.Prelude.{◌≡◌, []};

    // No lines.
    pub(crate) fn new(alloc: Global) -> EventText
        ensures { result ≡ [] }
    {
        EventText {
            text: Bytes::new(alloc),
            line: Line::new(),
        }
    }

    pub(crate) fn as_slice(&self) -> &[u8]
        ensures { result.now ≡ self.now }
    {
        self.text.as_slice()
    }

    pub(crate) fn clear(&mut self)
        ensures { self.new ≡ [] }
    {
        self.text.clear();
    }
}
