ghost use Rattle.std.specs.Prelude.{◌≡◌, [], ◌∷◌, ◌++◌, length, OnOk, OnErr};

use spdm_basis::{Bytes, OutOfMemory};
use std::alloc::Global;
use std::marker::Model;

/// What happens on the link or is asked of an end. Requesters are counted from 1, and packets too, in the order in
/// which they are sent.
#[derive(Debug, Drop)]
pub enum LinkEvent {
    /// The requester negotiates.
    Connect { q: u8 },
    /// The requester sends its outstanding request again.
    Retry { q: u8 },
    /// The requester opens a session, and asks for this kind of measurement summary.
    Open { q: u8, summary: u8 },
    /// The requester sends application data in a session.
    Send { q: u8, session: u8, bytes: Bytes },
    /// The requester sends a heartbeat.
    Beat { q: u8, session: u8 },
    /// The requester ends a session.
    End { q: u8, session: u8 },
    /// The requester updates its own keys of a session, or those of both directions.
    Update { q: u8, session: u8, all: bool },
    /// The requester asks for measurements, in the clear or in a session.
    Measure { q: u8, session: Option<u8>, op: u8 },
    /// Application data for the requester is queued at the responder.
    Reply { q: u8, bytes: Bytes },
    /// The packet is given to its end, and waits no longer.
    Deliver { number: u32 },
    /// The packet waits no longer.
    Lose { number: u32 },
    /// These bytes are given to the end that they name.
    Inject { bytes: Bytes },
    /// Up to `count` times the waiting packet with the least number is given to its end.
    Pump { count: u32 },
    /// Time passes.
    Tick { seconds: u32 },
    /// The states of all ends are written.
    Show,
}

/// An event with the number of its line, counted from 1.
#[derive(Debug, Drop)]
pub struct Entry {
    pub line: u32,
    pub event: LinkEvent,
}

/// The most events of a script, and the most packets of a capture.
pub const MOST_EVENTS: usize = 100_000;

/// Events in the order of their lines. In contracts, a list.
#[derive(Debug, Drop)]
pub struct Events {
    items: Vec<Entry>,
}

impl Model for Events {
    ghost use Rattle.std.specs.Prelude.{List};
    ghost use Rattle.script_text.specs.declared.events.event.Entry.{Entry};

    ghost Value = { List Entry };

    ghost view = { λ e. e.items.items };
}

impl Events {
    /// No events.
    pub fn new(alloc: Global) -> Self
        ensures { result ≡ [] }
    {
        Events {
            items: Vec::new(alloc),
        }
    }

    /// Appends an event. An `Err` changes nothing.
    pub fn push(&mut self, entry: Entry) -> Result<(), OutOfMemory>
        ensures ok { OnOk result (self.new ≡ self.old ++ entry ∷ []) }
        ensures err { OnErr result (self.new ≡ self.old) }
    {
        self.items.push(entry).map_err(|_| OutOfMemory)
    }

    /// The events.
    pub fn as_slice(&self) -> &[Entry]
        ensures { result.now ≡ self.now }
    {
        self.items.as_slice()
    }
}
