ghost use Rattle.std.specs.Prelude.{◌≡◌, ◌++◌, ◌∷◌, [], length, OnOk, OnErr};

use spdm_basis::{Bytes, OutOfMemory};
use std::alloc::Global;
use std::marker::Model;

/// The colours of sessions.
#[derive(Clone, Copy, Debug, PartialEq, Eq)]
pub enum Colour {
    Blue,
    Green,
    Orange,
    Purple,
}

/// What a packet has.
#[derive(Clone, Copy, Debug, PartialEq, Eq)]
pub enum Style {
    /// A whole message in the clear.
    Message,
    /// A whole record, in the colour of its session.
    Record(Colour),
    /// A part of a body.
    Part,
    /// None of these.
    Unread,
}

/// What becomes of a packet.
#[derive(Clone, Copy, Debug, PartialEq, Eq)]
pub enum Fate {
    /// It arrives, or it is not known whether it does.
    Arrives,
    /// It is delivered to no end.
    Lost,
    /// It is delivered, and leads to nothing.
    Ignored,
}

/// A packet. Ends are counted from 0: the requesters in order, then the responder, and then any other end.
#[derive(Debug, Drop)]
pub struct Arrow {
    pub number: usize,
    pub from: u8,
    pub to: u8,
    pub style: Style,
    pub fate: Fate,
    pub label: Bytes,
}

/// What an end does or tells of a packet with this fate, or what happens on the link where the end is none.
#[derive(Debug, Drop)]
pub struct Note {
    pub end: u8,
    pub fate: Fate,
    pub text: Bytes,
}

/// A row of a picture.
#[derive(Debug, Drop)]
pub enum Row {
    Packet(Arrow),
    Aside(Note),
}

/// The rows of a picture, from top to bottom. In contracts, a list.
#[derive(Debug, Drop)]
pub struct Rows {
    items: Vec<Row>,
}

impl Model for Rows {
    ghost use Rattle.std.specs.Prelude.{List};
    ghost use Rattle.sequence_picture.specs.declared.rows.Row.{Row};

    ghost Value = { List Row };

    ghost view = { λ r. r.items.items };
}

impl Rows {
    /// No rows.
    pub fn new(alloc: Global) -> Self
        ensures { result ≡ [] }
    {
        Rows {
            items: Vec::new(alloc),
        }
    }

    /// Appends a row. An `Err` changes nothing.
    pub fn push(&mut self, row: Row) -> Result<(), OutOfMemory>
        ensures ok { OnOk result (self.new ≡ self.old ++ row ∷ []) }
        ensures err { OnErr result (self.new ≡ self.old) }
    {
        self.items.push(row).map_err(|_| OutOfMemory)
    }

    /// How many they are.
    pub fn len(&self) -> usize
        ensures { result ≡ length self.now }
    {
        self.items.len()
    }

    /// The rows.
    pub fn as_slice(&self) -> &[Row]
        ensures { result.now ≡ self.now }
    {
        self.items.as_slice()
    }
}
