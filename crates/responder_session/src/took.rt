use crate::{RspAct, RspEnded, RspHandshake, RspOpen, RspSession, RspTold, RspVerifying};
use secured_record::RecordFault;
use spdm_grammar::Stage;

/// A session at the responder.
#[derive(Drop)]
pub enum RspState {
    /// PSK_FINISH is awaited.
    Handshake(RspHandshake),
    /// It is open.
    Open(RspOpen),
    /// Keys were updated, and VerifyNewKey is awaited.
    Verifying(RspVerifying),
    /// It is ended.
    Ended(RspEnded),
}

/// The outcome of a record.
#[derive(Drop)]
pub enum RspTook {
    /// The session accepted it.
    Moved(RspState, RspAct),
    /// It repeats the last accepted record: its response is sent again, and nothing changed.
    Same(RspState),
    /// It did not open, and nothing changed.
    Unopened(RspState, RecordFault),
}

impl RspTook {
    ghost use Rattle.std.specs.Prelude.{◌≡◌, ℕ, List};
    ghost use Rattle.responder_machine.specs.Answer.{Free};
    ghost use Rattle.responder_machine.specs.Session.{Events, session_terms};
    ghost use Rattle.responder_machine.specs.Setup.{RspSetup};
    ghost use Rattle.responder_machine.specs.SizeLaws.{HasSizes};
    ghost use Rattle.responder_session.specs.EndedTook.{IsEndedTold, IsEndedTook};
    ghost use Rattle.responder_session.specs.Queue.{took_data};
    ghost use Rattle.responder_session.specs.Took.{IsTold, IsTook};

    // What a session told, with the session as a state.
    pub(crate) fn of(session: RspSession, told: RspTold) -> RspTook
        ensures live { (r : RspSetup) (s : Events) (f : Free) (sealed : List ℕ)
            → HasSizes r (session_terms s).common → IsTold r s f sealed session told
            → IsTook r s f sealed result }
        ensures ended { (id old answer sealed : List ℕ)
            → IsEndedTold id old answer sealed session told
            → IsEndedTook id old answer sealed result }
    {
        let state = RspState::of(session);
        match told {
            RspTold::Moved(act) => RspTook::Moved(state, act),
            RspTold::Same => RspTook::Same(state),
            RspTold::Unopened(fault) => RspTook::Unopened(state, fault),
        }
    }

    // Whether application data was taken.
    pub(crate) fn takes_data(&self) -> bool
        ensures { result ≡ took_data self.now }
    {
        matches!(self, RspTook::Moved(_, RspAct::Data))
    }
}

impl RspState {
    ghost use Rattle.std.specs.Prelude.{◌≡◌, ℕ, List, None, Some, MatchOption};
    ghost use Rattle.responder_machine.specs.Session.{Events, last_of, session_terms};
    ghost use Rattle.responder_machine.specs.Setup.{RspSetup};
    ghost use Rattle.responder_machine.specs.SizeLaws.{HasSizes};
    ghost use Rattle.responder_session.specs.EndedTook.{IsEndedStill};
    ghost use Rattle.responder_session.specs.Reply.{last_reply, reply_of};
    ghost use Rattle.responder_session.specs.Session.{IsEnded, StandsFor};
    ghost use Rattle.responder_session.specs.Took.{IsStateOf};

    // A session as the state that it is in.
    pub(crate) fn of(session: RspSession) -> RspState
        ensures live { (r : RspSetup) (s : Events) → HasSizes r (session_terms s).common
            → StandsFor session r.psk s → IsStateOf result r s }
        ensures ended { (id old answer : List ℕ) → IsEnded session id old answer
            → IsEndedStill id old answer result }
    {
        match session.stage {
            Some(Stage::Handshake) => RspState::Handshake(RspHandshake { session }),
            Some(Stage::Open) => RspState::Open(RspOpen { session }),
            Some(Stage::Verifying) => RspState::Verifying(RspVerifying { session }),
            None => RspState::Ended(RspEnded { session }),
        }
    }

    /// The response to the last record; `None` exactly in a handshake before the first record.
    pub fn reply(&self) -> Option<&[u8]>
        ensures kept { MatchOption result (reply_of self.now ≡ None)
            (λ reply. reply_of self.now ≡ Some reply.now) }
        ensures last { (r : RspSetup) (s : Events) → IsStateOf self.now r s
            → MatchOption result (last_reply (last_of s) ≡ None)
            (λ reply. last_reply (last_of s) ≡ Some reply.now) }
    {
        match self {
            RspState::Handshake(state) => state.session.reply(),
            RspState::Open(state) => state.session.reply(),
            RspState::Verifying(state) => state.session.reply(),
            RspState::Ended(state) => state.session.reply(),
        }
    }
}
