ghost use Rattle.std.specs.Prelude.{◌≡◌, ◌≤◌, ◌<◌, ◌-◌, ◌^◌, ℕ, List, length};
ghost use Rattle.requester_machine.specs.Session.{Steps, taken_of};
ghost use Rattle.requester_machine.specs.Shown.{view_of};
ghost use Rattle.psk_session.specs.AskTook.{IsAsked};
ghost use Rattle.psk_session.specs.ReqOpen.{StandsFor};
ghost use Rattle.psk_session.specs.ReqSession.{IsOpen};
ghost use Rattle.spdm_grammar.specs.declared.names.TheConstants.{MAX_PADDING};

use crate::req_session::ReqSession;
use crate::{AskFault, SessionRequest, SessionTold, Waiting};
use spdm_grammar::SessionView;
use std::marker::Model;

/// A session at the requester that is open, with nothing outstanding.
#[derive(Drop)]
pub struct ReqOpen {
    pub(crate) session: ReqSession,
}

impl Model for ReqOpen {
    ghost use Rattle.std.specs.Prelude.{◌≡◌, true};
    ghost use Rattle.psk_session.specs.ReqOpen.{Seen};
    ghost use Rattle.psk_session.specs.ReqSession.{is_open, open_of};

    ghost Value = { Seen };

    ghost view = { λ o. open_of o.session };

    ghost invariant = { λ o. is_open o.session.standing ≡ true };
}

impl ReqOpen {
    /// A view of the session. Its count of application messages has 64 bits.
    pub fn view(&self) -> SessionView
        ensures value { (psk : List ℕ) (s : Steps) → StandsFor self.now psk s
            → taken_of s < 2 ^ 64 → result ≡ view_of s }
        ensures response_epoch { result.response_epoch ≡ self.now.kept.response.epoch }
    {
        self.session.view()
    }

    /// What PSK_EXCHANGE_RSP told of the session.
    pub fn told(&self) -> &SessionTold
        ensures { result.now ≡ self.now.kept.told }
    {
        self.session.told()
    }

    /// The application data or the measurement record of the last answer; empty where it had none.
    pub fn data(&self) -> &[u8]
        ensures { result.now ≡ self.now.brought }
    {
        self.session.data()
    }

    /// Sends a request in the session, in a record with this padding of at most 16 bytes. A refused request changes
    /// nothing. Requires an epoch below 2^64 - 1 for the response key.
    pub fn ask(self, ask: SessionRequest<'_>, pad: &[u8]) -> Result<Waiting, (ReqOpen, AskFault)>
        requires epoch { self.kept.response.epoch < 2 ^ 64 - 1 }
        requires pad { length pad.now ≤ MAX_PADDING }
        ensures { (psk : List ℕ) (s : Steps) → StandsFor self psk s
            → IsAsked self psk s ask.entry pad.now result }
    {
        let ReqOpen { mut session } = self;
        match session.ask(ask, pad) {
            Ok(()) => Ok(Waiting { session }),
            Err(fault) => Err((ReqOpen { session }, fault)),
        }
    }

    /// The session itself, to be stepped in place.
    pub fn into_session(self) -> ReqSession
        ensures { (psk : List ℕ) (s : Steps) → StandsFor self psk s → IsOpen result psk s }
    {
        self.session
    }
}
