ghost use Rattle.std.specs.Prelude.{◌≡◌, ◌<◌, Some};
ghost use Rattle.check_laws.specs.Rows.{gone_on, one_more, with_sent, with_view};
ghost use Rattle.capture_machine.specs.SessionTable.{is_named};

use crate::Seen;
use spdm_grammar::SessionView;
use spdm_grammar::names::SESSION_PLACES;

/// What a packet changed between a requester and the responder, as far as rows of the table of sessions depend on it.
#[derive(Debug, Drop)]
pub struct Change {
    /// The RspSessionID of the session that PSK_EXCHANGE_RSP began.
    pub begun: Option<u16>,
    /// The ReqSessionID of the PSK_EXCHANGE whose answer the requester took.
    pub accepted: Option<u16>,
    /// The RspSessionID of the session of a record that was answered.
    pub answered: Option<u16>,
    /// The ReqSessionID of the session of a record by which a round began.
    pub asked: Option<u16>,
    /// The sessions with the RspSessionIDs from 1 to 4, where they are live at the responder.
    pub views: [Option<SessionView>; SESSION_PLACES],
}

// Whether there is an id, and it is this one.
pub(crate) fn is_named(id: Option<u16>, other: u16) -> bool
    ensures { result ≡ is_named id (Some other) }
{
    match id {
        Some(id) => id == other,
        None => false,
    }
}

// One more record.
fn one_more(count: u64) -> u64
    ensures { result ≡ one_more count }
{
    if count < u64::MAX { count + 1 } else { count }
}

impl Seen {
    // The session goes on so.
    fn show(&mut self, view: &SessionView)
        ensures { self.new ≡ with_view (Some view.now) self.old }
    {
        self.id = view.id;
        self.stage = Some(view.stage);
        self.hash = view.hash.clone().unwrap();
    }

    // A record of the session began a round.
    pub(crate) fn count_sent(&mut self)
        ensures { self.new ≡ with_sent self.old }
    {
        self.sent = one_more(self.sent);
    }
}

impl Change {
    // The entry of a session that was live under the RspSessionID of this slot goes on, or ends.
    pub(crate) fn go_on(&self, slot: usize, entry: &mut Seen)
        requires { slot < 4 }
        ensures { entry.new ≡ gone_on self.now slot entry.old }
    {
        let id = slot as u16 + 1;
        if is_named(self.answered, id) {
            entry.answered = one_more(entry.answered);
        }
        if is_named(self.begun, id) {
            entry.stage = None;
            return;
        }
        match &self.views[slot] {
            Some(view) => entry.show(view),
            None => entry.stage = None,
        }
    }
}
