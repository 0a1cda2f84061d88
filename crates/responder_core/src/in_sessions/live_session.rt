ghost use Rattle.std.specs.Prelude.{◌≡◌, ◌≤◌, slice_index, length};
ghost use Rattle.spdm_grammar.specs.declared.names.TheConstants.{MAX_APP_DATA_LEN, MAX_OPAQUE_LEN, MAX_PADDING};

use crate::in_sessions::records::replace_record;
use measurements::Inventory;
use responder_session::{ResponseValues, RspSession, RspTold, Work};
use spdm_basis::RecordFrame;
use spdm_grammar::Stage;

/// A live session, with the seconds since its last record and its HeartbeatPeriod in seconds. Fixed size; moved once,
/// at construction.
#[derive(Drop)]
pub struct LiveSession {
    pub(crate) session: RspSession,
    pub(crate) idle: u32,
    pub(crate) period: u8,
}

// HeartbeatPeriod of a PSK_EXCHANGE_RSP.
fn period_in(answer: &[u8]) -> u8
    ensures { result ≡ slice_index answer.now 2 }
{
    match answer {
        [_, _, period, ..] => *period,
        _ => 0,
    }
}

impl LiveSession {
    ghost use Rattle.std.specs.Prelude.{◌≡◌, ◌≤◌, [], ℕ, List, true, false, length, slice_index, Some};
    ghost use Rattle.responder_machine.specs.Answer.{Free};
    ghost use Rattle.responder_machine.specs.Session.{Events, after_tick, session_terms, stage_of};
    ghost use Rattle.responder_machine.specs.Setup.{RspSetup, inventory_of};
    ghost use Rattle.responder_machine.specs.SizeLaws.{HasSizes};
    ghost use Rattle.responder_session.specs.RequestEffects.{AreFree, AreGiven};
    ghost use Rattle.responder_session.specs.Reply.{kept_reply};
    ghost use Rattle.responder_session.specs.Session as sessions;
    ghost use Rattle.responder_session.specs.Updates.{HasEpochs};
    ghost use Rattle.spdm_machine.specs.Sessions.{is_past_handshake};
    ghost use Rattle.responder_core.specs.LiveSession.{IsTaken, IsWaited, StandsFor};
    ghost use Rattle.responder_core.specs.Wiped.{IsWipedLive};

    // A session that this PSK_EXCHANGE_RSP began.
    pub(crate) fn begin(session: RspSession, answer: &[u8]) -> LiveSession
        ensures session { result.session ≡ session }
        ensures idle { result.idle ≡ 0 }
        ensures period { result.period ≡ slice_index answer.now 2 }
    {
        let period = period_in(answer);
        LiveSession {
            session,
            idle: 0,
            period,
        }
    }

    // What stands where there is no session: one that was overwritten.
    pub(crate) fn wiped() -> LiveSession
        ensures { IsWipedLive result }
    {
        LiveSession {
            session: RspSession::wiped(),
            idle: 0,
            period: 0,
        }
    }

    // Overwrites the session in place.
    pub(crate) fn wipe(&mut self)
        ensures { IsWipedLive self.new }
    {
        self.session.wipe();
        self.idle = 0;
        self.period = 0;
    }

    /// Whether the session is established.
    pub fn is_held(&self) -> bool
        ensures { (r : RspSetup) (s : Events) → StandsFor self.now r s
            → result ≡ is_past_handshake (stage_of s) }
    {
        match self.session.stage() {
            Some(Stage::Open | Stage::Verifying) => true,
            Some(Stage::Handshake) | None => false,
        }
    }

    // Whether END_SESSION ended it.
    pub(crate) fn is_ended(&self) -> bool
        ensures live { (r : RspSetup) (s : Events) → StandsFor self.now r s → result ≡ false }
        ensures ended { (id old answer : List ℕ) → sessions.IsEnded self.now.session id old answer
            → result ≡ true }
    {
        self.session.stage().is_none()
    }

    /// A record for this session, which is no repeat of an ended one's. The response record overwrites `out`, unless
    /// this one does not open.
    pub fn take(
        &mut self,
        sealed: &[u8],
        inventory: &Inventory,
        free: &ResponseValues<'_>,
        work: &mut Work,
        out: &mut RecordFrame,
    ) -> RspTold
        requires nonce { length free.now.nonce.now ≡ 32 }
        requires opaque { length free.now.opaque.now ≤ MAX_OPAQUE_LEN }
        requires reply { length free.now.reply.now ≤ MAX_APP_DATA_LEN }
        requires pad { length free.now.pad.now ≤ MAX_PADDING }
        ensures { (r : RspSetup) (s : Events) (f : Free) → AreFree free.now f → HasEpochs s
            → inventory_of r ≡ inventory.now → StandsFor self.old r s
            → IsTaken r s f sealed.now self.new result out.new }
    {
        match self.session.take_with(sealed, Some(inventory), free, work) {
            RspTold::Moved(act) => {
                self.idle = 0;
                self.write_reply(out);
                RspTold::Moved(act)
            }
            RspTold::Same => {
                self.write_reply(out);
                RspTold::Same
            }
            RspTold::Unopened(fault) => RspTold::Unopened(fault),
        }
    }

    // Advances the clock; returns whether the session is still live.
    pub(crate) fn wait(&mut self, seconds: u32) -> bool
        ensures { (r : RspSetup) (s : Events) → StandsFor self.old r s
            → IsWaited r (after_tick s seconds) self.new result }
    {
        if !self.is_held() || self.period == 0 {
            return true;
        }
        let waited = self.idle as u64 + seconds as u64;
        if waited >= 2 * self.period as u64 {
            return false;
        }
        self.idle = waited as u32;
        true
    }

    // Overwrites `out` with the reply to the last record, where there is one.
    fn write_reply(&self, out: &mut RecordFrame)
        ensures { (reply : List ℕ) → kept_reply self.now.session ≡ Some reply → out.new ≡ reply }
    {
        if let Some(reply) = self.session.reply() {
            replace_record(out, reply);
        }
    }
}
