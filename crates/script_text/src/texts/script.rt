ghost use Rattle.std.specs.Prelude.{◌≡◌, [], ◌∷◌, ◌++◌, length, OnOk, OnErr};

use crate::configuration::config::ScriptConfig;
use crate::events::event::Events;
use spdm_basis::{Bytes, OutOfMemory};
use std::alloc::Global;
use std::marker::Model;

/// A configuration and the events after it.
#[derive(Drop)]
pub struct Script {
    pub config: ScriptConfig,
    pub events: Events,
}

/// A configuration and the packets that were seen under it.
#[derive(Drop)]
pub struct Capture {
    pub config: ScriptConfig,
    pub packets: Packets,
}

/// Packets in the order in which they were seen. In contracts, a list.
#[derive(Debug, Drop)]
pub struct Packets {
    items: Vec<Bytes>,
}

impl Model for Packets {
    ghost use Rattle.std.specs.Prelude.{ℕ, List};

    ghost Value = { List (List ℕ) };

    ghost view = { λ p. p.items.items };
}

impl Packets {
    /// No packets.
    pub fn new(alloc: Global) -> Self
        ensures { result ≡ [] }
    {
        Packets {
            items: Vec::new(alloc),
        }
    }

    /// Appends a packet. An `Err` leaves the packets as they were.
    pub fn push(&mut self, packet: Bytes) -> Result<(), OutOfMemory>
        ensures ok { OnOk result (self.new ≡ self.old ++ packet ∷ []) }
        ensures err { OnErr result (self.new ≡ self.old) }
    {
        self.items.push(packet).map_err(|_| OutOfMemory)
    }

    /// How many they are.
    pub fn len(&self) -> usize
        ensures { result ≡ length self.now }
    {
        self.items.len()
    }

    /// The packets.
    pub fn as_slice(&self) -> &[Bytes]
        ensures { result.now ≡ self.now }
    {
        self.items.as_slice()
    }
}

/// The events from one start of all ends to the next.
#[derive(Debug, Drop)]
pub struct Life {
    /// The line of the `cycle` with which it began, and 0 for the first one.
    pub cycle_line: u32,
    pub events: Events,
}

/// Lives one after the other. In contracts, a list.
#[derive(Debug, Drop)]
pub struct LifeList {
    items: Vec<Life>,
}

impl Model for LifeList {
    ghost use Rattle.std.specs.Prelude.{List};
    ghost use Rattle.script_text.specs.declared.texts.script.Life.{Life};

    ghost Value = { List Life };

    ghost view = { λ l. l.items.items };
}

impl LifeList {
    /// No lives.
    pub fn new(alloc: Global) -> Self
        ensures { result ≡ [] }
    {
        LifeList {
            items: Vec::new(alloc),
        }
    }

    /// Appends a life. An `Err` leaves the lives as they were.
    pub fn push(&mut self, life: Life) -> Result<(), OutOfMemory>
        ensures ok { OnOk result (self.new ≡ self.old ++ life ∷ []) }
        ensures err { OnErr result (self.new ≡ self.old) }
    {
        self.items.push(life).map_err(|_| OutOfMemory)
    }

    /// The lives.
    pub fn as_slice(&self) -> &[Life]
        ensures { result.now ≡ self.now }
    {
        self.items.as_slice()
    }
}

/// A configuration and lives under it.
#[derive(Drop)]
pub struct Lives {
    pub config: ScriptConfig,
    pub lives: LifeList,
}
