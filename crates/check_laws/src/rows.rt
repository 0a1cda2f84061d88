use crate::{Change, Places, Seen, SessionTable};
use spdm_basis::OutOfMemory;
use spdm_grammar::names::MAX_SESSIONS;

impl SessionTable {
    ghost use Rattle.std.specs.Prelude.{◌≡◌, ◌<◌, ◌-◌, ◌^◌, ◌+◌, ◌++◌, List, ℕ, IfOk, IsSome, OnErr, OnOk, length};
    ghost use Rattle.check_laws.specs.ChangeLaws.{IsRequestStep};
    ghost use Rattle.check_laws.specs.Changes.{IsChange, IsStep};
    ghost use Rattle.check_laws.specs.Rows.{StandFor, StandsForRows, begun_view, changed_where, followed, gone_on, new_entries, new_place, places_after, table_after, with_sent};
    ghost use Rattle.capture_machine.specs.Rounds.{Dialogue};
    ghost use Rattle.capture_machine.specs.SessionTable.{Row, number_from, rows_between};
    ghost use Rattle.world_machine.specs.Setup.{Configuration};

    // The entry at a place goes on, or ends, by the RspSessionID of a slot.
    fn go_on_at(&mut self, place: Option<usize>, change: &Change, slot: usize)
        requires { slot < 4 }
        ensures { self.new ≡ changed_where place (gone_on change.now slot) self.old }
    {
        let Some(place) = place else {
            return;
        };
        if let Some(entry) = self.items.get_mut(place) {
            change.go_on(slot, entry);
        }
    }

    // The entries of live sessions go on, or end.
    fn follow(&mut self, places: &Places, change: &Change)
        ensures { self.new ≡ followed 4 places.now change.now self.old }
    {
        for slot in 0..4 {
            self.go_on_at(places.live[slot], change, slot);
        }
    }

    // The entry at a place has one more record in a request.
    fn count_sent_at(&mut self, place: Option<usize>)
        ensures { self.new ≡ changed_where place with_sent self.old }
    {
        let Some(place) = place else {
            return;
        };
        if let Some(entry) = self.items.get_mut(place) {
            entry.count_sent();
        }
    }

    // A session that was begun gets an entry at the end, at this place.
    fn begin(&mut self, requester: u8, change: &Change) -> Result<Option<usize>, OutOfMemory>
        ensures added { OnOk result (self.new ≡ self.old ++ new_entries requester
            (begun_view change.now)) }
        ensures place { IfOk result (λ place. place ≡ new_place change.now (length self.old)) }
        ensures memory { OnErr result (IsSome change.now.begun) }
    {
        let view = match change.begun {
            Some(id) if id > 0 && id <= MAX_SESSIONS as u16 => &change.views[usize::from(id) - 1],
            _ => return Ok(None),
        };
        let Some(view) = view else {
            return Ok(None);
        };
        let place = self.items.len();
        self.push(Seen {
            requester,
            id: view.id,
            stage: Some(view.stage),
            hash: view.hash.clone().unwrap(),
            sent: 0,
            answered: 0,
        })?;
        Ok(Some(place))
    }

    // What a change makes of the table, and of the places of its requester.
    fn change(
        &mut self,
        places: &mut Places,
        requester: u8,
        change: &Change,
    ) -> Result<(), OutOfMemory>
        ensures table { OnOk result (self.new ≡ table_after requester places.old change.now self.old) }
        ensures places { OnOk result (places.new ≡ places_after places.old change.now
            (new_place change.now (length self.old))) }
        ensures memory { OnErr result (IsSome change.now.begun) }
    {
        self.follow(places, change);
        self.count_sent_at(places.asking(change.asked));
        let new = self.begin(requester, change)?;
        places.follow(change, new);
        Ok(())
    }

    /// A request came, a copy or one by which a round began, of the requester whose places these are: a record of the
    /// session with this ReqSessionID, or none. Its entry has one more in requests, and the places stay. Never
    /// allocates (read, not proved). The counts are exact below 2^64 - 1 packets.
    pub fn ask(&mut self, places: &Places, sent: Option<u16>)
        ensures table { (w : Configuration) (packets : ℕ) (before after : Dialogue) (rows : List Row)
            → IsRequestStep sent before after → packets < 2 ^ 64 - 1
            → StandsForRows self.old w packets rows → StandFor places.now before rows
            → StandsForRows self.new w (packets + 1) (rows_between before after rows) }
        ensures places { (before after : Dialogue) (rows : List Row)
            → IsRequestStep sent before after → StandFor places.now before rows
            → StandFor places.now after (rows_between before after rows) }
    {
        self.count_sent_at(places.asking(sent));
    }

    /// A packet made this change between the responder and the requester with this number, whose places these are: its
    /// entries become those of the rows that the definitions give. An `Err` comes only where a session was begun and
    /// there is no memory for its entry, and says nothing of the table. The counts are exact below 2^64 - 1 packets.
    pub fn take(
        &mut self,
        places: &mut Places,
        requester: u8,
        change: &Change,
    ) -> Result<(), OutOfMemory>
        ensures table { (w : Configuration) (packets : ℕ) (before after : Dialogue) (rows : List Row)
            → IsChange change.now before after → IsStep before after → packets < 2 ^ 64 - 1
            → requester ≡ number_from 1 after.setup.eid w.requesters
            → StandsForRows self.old w packets rows → StandFor places.old before rows
            → OnOk result (StandsForRows self.new w (packets + 1) (rows_between before after rows)) }
        ensures places { (w : Configuration) (packets : ℕ) (before after : Dialogue)
            (rows : List Row) → IsChange change.now before after → IsStep before after
            → StandsForRows self.old w packets rows → StandFor places.old before rows
            → OnOk result (StandFor places.new after (rows_between before after rows)) }
        ensures memory { OnErr result (IsSome change.now.begun) }
    {
        self.change(places, requester, change)
    }
}
