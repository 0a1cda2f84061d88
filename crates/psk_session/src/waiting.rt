ghost use Rattle.std.specs.Prelude.{◌≡◌, ◌≤◌, ◌<◌, ◌-◌, ◌^◌, [], ℕ, List, length};
ghost use Rattle.requester_machine.specs.Message.{Ask};
ghost use Rattle.requester_machine.specs.Session.{Steps, taken_of};
ghost use Rattle.requester_machine.specs.Shown.{view_of};
ghost use Rattle.psk_session.specs.Took.{IsTook};
ghost use Rattle.psk_session.specs.Waiting.{StandsFor};
ghost use Rattle.spdm_grammar.specs.declared.names.TheConstants.{MAX_PADDING};

use crate::req_session::ReqSession;
use crate::response_outcome::ResponseOutcome;
use crate::{Closed, ReqOpen, Took};
use spdm_grammar::SessionView;
use std::marker::Model;

/// A session at the requester that awaits an answer.
#[derive(Drop)]
pub struct Waiting {
    pub(crate) session: ReqSession,
}

impl Model for Waiting {
    ghost use Rattle.std.specs.Prelude.{◌≡◌, true};
    ghost use Rattle.psk_session.specs.ReqSession.{is_awaiting, waiting_of};
    ghost use Rattle.psk_session.specs.Waiting.{Seen};

    ghost Value = { Seen };

    ghost view = { λ w. waiting_of w.session };

    ghost invariant = { λ w. is_awaiting w.session.standing ≡ true };
}

impl Waiting {
    /// The record last sealed, to be sent again.
    pub fn again(&self) -> &[u8]
        ensures { result.now ≡ self.now.sent }
    {
        self.session.again()
    }

    /// A view of the session. Its count of application messages has 64 bits.
    pub fn view(&self) -> SessionView
        ensures value { (psk : List ℕ) (s : Steps) (a : Ask) → StandsFor self.now psk s a
            → taken_of s < 2 ^ 64 → result ≡ view_of s }
        ensures request_epoch { result.request_epoch ≡ self.now.kept.request.epoch }
    {
        self.session.view()
    }

    /// Handles a record from the responder. A further record that is then to be sent has no padding. Requires an epoch
    /// below 2^64 - 1 for the request key.
    pub fn take(self, sealed: &[u8]) -> Took
        requires { self.kept.request.epoch < 2 ^ 64 - 1 }
        ensures { (psk : List ℕ) (s : Steps) (a : Ask) → StandsFor self psk s a
            → IsTook self psk s a sealed.now [] result }
    {
        self.take_with(sealed, &[])
    }

    /// Same as `take`, with this padding for the further record, of at most 16 bytes.
    pub fn take_with(self, sealed: &[u8], pad: &[u8]) -> Took
        requires epoch { self.kept.request.epoch < 2 ^ 64 - 1 }
        requires pad { length pad.now ≤ MAX_PADDING }
        ensures { (psk : List ℕ) (s : Steps) (a : Ask) → StandsFor self psk s a
            → IsTook self psk s a sealed.now pad.now result }
    {
        let Waiting { mut session } = self;
        match session.take_with(sealed, pad) {
            ResponseOutcome::Answer(reply) => Took::Answer(ReqOpen { session }, reply),
            ResponseOutcome::Next => Took::Next(Waiting { session }),
            ResponseOutcome::Ended => Took::Ended(Closed),
            ResponseOutcome::Bad(fault) => Took::Bad(Closed, fault),
            ResponseOutcome::Stay(fault) => Took::Stay(Waiting { session }, fault),
        }
    }
}
