ghost use Rattle.std.specs.Prelude.{◌≡◌, ◌<◌};

use crate::Change;
use crate::change::is_named;
use spdm_grammar::names::{MAX_SESSIONS, SESSION_PLACES};

/// Where the entries of one requester stand in the table of sessions, counted from 0.
#[derive(Debug, Drop)]
pub struct Places {
    // Of the live sessions, by the RspSessionIDs from 1 to 4.
    pub(crate) live: [Option<usize>; SESSION_PLACES],
    // Of those that still have a ReqSessionID, by the ReqSessionIDs from 1 to 4.
    pub(crate) asks: [Option<usize>; SESSION_PLACES],
}

impl Places {
    ghost use Rattle.std.specs.Prelude.{◌≡◌, ◌<◌, []};
    ghost use Rattle.requester_machine.specs.Setup.{ReqSetup};
    ghost use Rattle.check_laws.specs.Rows.{StandFor, asks_after, kept_for, live_after, places_after};
    ghost use Rattle.capture_machine.specs.Rounds.{new_dialogue};

    /// Those of a requester that has no entry yet.
    pub fn new() -> Places
        ensures { (q : ReqSetup) → StandFor result (new_dialogue q) [] }
    {
        Places {
            live: [None, None, None, None],
            asks: [None, None, None, None],
        }
    }

    // Where the entry stands that has this ReqSessionID.
    pub(crate) fn asking(&self, id: Option<u16>) -> Option<usize>
        ensures { result ≡ kept_for self.now.asks id }
    {
        match id {
            Some(id) if id > 0 && id <= MAX_SESSIONS as u16 => self.asks[usize::from(id) - 1],
            _ => None,
        }
    }

    // Where the entry of the live session stands afterwards that has the RspSessionID of this slot.
    fn live_after(&self, change: &Change, new: Option<usize>, slot: usize) -> Option<usize>
        requires { slot < 4 }
        ensures { result ≡ live_after change.now new self.now.live slot }
    {
        if is_named(change.begun, slot as u16 + 1) {
            return new;
        }
        if change.views[slot].is_some() {
            return self.live[slot];
        }
        None
    }

    // Where the entry stands afterwards that has the ReqSessionID of this slot.
    fn asks_after(&self, change: &Change, new: Option<usize>, slot: usize) -> Option<usize>
        requires { slot < 4 }
        ensures { result ≡ asks_after change.now new self.now.asks slot }
    {
        if is_named(change.accepted, slot as u16 + 1) {
            return new;
        }
        self.asks[slot]
    }

    // A change took place, with a new entry at this place, if there is one.
    pub(crate) fn follow(&mut self, change: &Change, new: Option<usize>)
        ensures { self.new ≡ places_after self.old change.now new }
    {
        let live = [
            self.live_after(change, new, 0),
            self.live_after(change, new, 1),
            self.live_after(change, new, 2),
            self.live_after(change, new, 3),
        ];
        let asks = [
            self.asks_after(change, new, 0),
            self.asks_after(change, new, 1),
            self.asks_after(change, new, 2),
            self.asks_after(change, new, 3),
        ];
        self.live = live;
        self.asks = asks;
    }
}
