use crate::{ClearState, Outstanding, RequesterCore};
use psk_session::InnerPair;
use spdm_basis::RecordFrame;

impl ClearState {
    ghost use Rattle.std.specs.Prelude.{◌≡◌};
    ghost use Rattle.requester_core.specs.OwnRecords.{awaits_record, session_awaited};
    ghost use Rattle.requester_core.specs.ClearState.{Shows};
    ghost use Rattle.requester_machine.specs.History.{History, outstanding};

    // Whether a record is outstanding.
    fn awaits_record(&self) -> bool
        ensures { (h : History) → Shows self.now h → result ≡ awaits_record (outstanding h) }
    {
        matches!(self.outgoing.waiting(), Outstanding::InSession { .. })
    }

    // The ReqSessionID of the session whose record is outstanding, where one is.
    fn session_awaited(&self) -> Option<u16>
        ensures { (h : History) → Shows self.now h → result ≡ session_awaited (outstanding h) }
    {
        match self.outgoing.waiting() {
            Outstanding::InSession { id, .. } => Some(id),
            _ => None,
        }
    }
}

// What a requester sealed itself; used only by the checker.
impl RequesterCore {
    ghost use Rattle.std.specs.Prelude.{◌≡◌, ◌≤◌, ◌<◌, ◌-◌, ◌^◌, ◌∷◌, ℕ, Some, false, length, true};
    ghost use Rattle.requester_core.specs.Joined.{StandsFor};
    ghost use Rattle.requester_core.specs.Owed.{IsRepadded, IsRetold, TookFor, TookLast};
    ghost use Rattle.requester_machine.specs.Owed.{with_next};
    ghost use Rattle.requester_core.specs.OwnRecords.{OpensAs, OpensNamed, awaits_record, id_named, session_awaited};
    ghost use Rattle.requester_machine.specs.Named.{session_named};
    ghost use Rattle.requester_machine.specs.History.{History, asks_session, outstanding};
    ghost use Rattle.requester_machine.specs.History.Entry.{Told};
    ghost use Rattle.requester_machine.specs.Message as message;
    ghost use Rattle.requester_machine.specs.Message.{Sent};
    ghost use Rattle.requester_machine.specs.Message.Aim.{InSession};
    ghost use Rattle.requester_machine.specs.Session.{request_next, session_of};
    ghost use Rattle.requester_machine.specs.Setup.{ReqSetup};
    ghost use Rattle.spdm_machine.specs.Keys.{Draw};

    /// The ReqSessionID of the session whose record is outstanding, where one is.
    pub fn session_awaited(&self) -> Option<u16>
        ensures { (q : ReqSetup) (h : History) → StandsFor self.now q h
            → result ≡ session_awaited (outstanding h) }
    {
        self.clear_state.session_awaited()
    }

    /// The ReqSessionID of the session that a record names, the least.
    pub fn named(&self, sealed: &[u8]) -> Option<u16>
        ensures { (q : ReqSetup) (h : History) → StandsFor self.now q h → length h < 2 ^ 64 - 1
            → result ≡ id_named h sealed.now }
    {
        self.sessions.named(sealed)
    }

    /// Whether a record opens as the next one of the session that it names; its inner message then overwrites `out`.
    /// Covers sequence numbers up to 65,535.
    pub fn open_next(&self, sealed: &[u8], out: &mut RecordFrame) -> bool
        ensures few { (q : ReqSetup) (h : History) → StandsFor self.now q h → length h < 2 ^ 64 - 1
            → request_next (session_named h sealed.now) ≤ 65535
            → OpensAs q.psk (session_named h sealed.now) sealed.now result out.new }
        ensures resting { (q : ReqSetup) (h : History) → StandsFor self.now q h
            → length h < 2 ^ 64 - 1 → awaits_record (outstanding h) ≡ false
            → OpensAs q.psk (session_named h sealed.now) sealed.now result out.new }
    {
        self.sessions.open_next(sealed, out)
    }

    /// Same as `open_next`, but as if the outstanding message, which was sent in response to the last message, had not
    /// been: a record opens in its place if it names the same session.
    pub fn open_before(&self, sealed: &[u8], out: &mut RecordFrame) -> bool
        ensures { (q : ReqSetup) (bare : History) (sent : Sent) → TookFor bare sent.aim
            → length bare < 2 ^ 64 - 1 → StandsFor self.now q (with_next (Some sent) bare)
            → OpensAs q.psk (session_named bare sealed.now) sealed.now result out.new }
    {
        if self.clear_state.awaits_record() {
            self.sessions.open_before(sealed, out)
        } else {
            self.sessions.open_next(sealed, out)
        }
    }

    /// Whether a record names the session whose record is outstanding, where that was sent by itself in response to the
    /// last message, and opens in its place; its inner message then overwrites `out`.
    pub fn open_owed(&self, sealed: &[u8], out: &mut RecordFrame) -> bool
        ensures { (q : ReqSetup) (bare : History) (sent : Sent) (id : ℕ) (ask : message.Ask)
            → TookLast bare id → sent.aim ≡ InSession id ask → length bare < 2 ^ 64 - 1
            → StandsFor self.now q (with_next (Some sent) bare)
            → OpensNamed q.psk (session_of id bare) sealed.now result out.new }
    {
        self.sessions.open_owed(sealed, out)
    }

    /// Takes bytes as the outstanding record, where that was sent by itself in response to the last message or by a
    /// command: whether they are that record with some padding of at most 16 bytes. Where they are not, nothing
    /// changes.
    pub fn take_padded(&mut self, sealed: &[u8], pair: &mut InnerPair) -> bool
        ensures repadded { (q : ReqSetup) (bare : History) (sent : Sent) (id : ℕ)
            (ask : message.Ask) → TookLast bare id → sent.aim ≡ InSession id ask
            → StandsFor self.old q (with_next (Some sent) bare)
            → IsRepadded q bare id sent sealed.now self.new result }
        ensures retold { (q : ReqSetup) (older : History) (command : message.Command) (d : Draw)
            (sent : Sent) (id : ℕ) (ask : message.Ask) → asks_session command ≡ true
            → sent.aim ≡ InSession id ask → StandsFor self.old q (Told command sent d ∷ older)
            → IsRetold q older command d id sent sealed.now self.new result }
        ensures unchanged { result ≡ false → self.new ≡ self.old }
    {
        self.sessions.take_padded(sealed, pair)
    }
}
