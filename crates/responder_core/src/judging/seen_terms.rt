use crate::{ClearState, Connection, Sessions};
use negotiate::Common;
use session_keys::SessionTerms;

impl ClearState {
    ghost use Rattle.std.specs.Prelude.{◌≡◌, List};
    ghost use Rattle.responder_machine.specs.History.{negotiation_of};
    ghost use Rattle.responder_machine.specs.Turn.{Turn};
    ghost use Rattle.spdm_machine.specs.Terms.{terms_of};
    ghost use Rattle.responder_core.specs.ClearState.{StandsFor};

    /// What both ends can do.
    pub fn common(&self) -> Common
        ensures { (turns : List Turn) → StandsFor self.now turns
            → result ≡ (terms_of (negotiation_of turns)).common }
    {
        self.negotiating.common()
    }
}

impl Sessions {
    ghost use Rattle.responder_machine.specs.History.{History};
    ghost use Rattle.responder_machine.specs.Session.{session_of};
    ghost use Rattle.responder_machine.specs.Setup.{RspSetup};
    ghost use Rattle.responder_core.specs.SeenTerms.{AreTermsIn};
    ghost use Rattle.responder_core.specs.Sessions.{StandsFor};

    /// The terms of the session with this RspSessionID; `None` if there is none.
    pub fn terms(&self, id: u16) -> Option<SessionTerms>
        ensures { (r : RspSetup) (h : History) → StandsFor self.now r h
            → AreTermsIn result (session_of id h) }
    {
        match self.session(id) {
            Some(live) => Some(live.session.terms()),
            None => None,
        }
    }
}

impl Connection {
    ghost use Rattle.std.specs.Prelude.{◌≡◌, ◌≤◌};
    ghost use Rattle.chunking.specs.Collecting.{told_size, under_way};
    ghost use Rattle.responder_machine.specs.LargeMessages.{chunks_of};
    ghost use Rattle.spdm_grammar.specs.declared.names.TheConstants.{MAX_MESSAGE_SIZE};
    ghost use Rattle.responder_machine.specs.History.{History, clear_turns, negotiation_of};
    ghost use Rattle.responder_machine.specs.Session.{session_of};
    ghost use Rattle.responder_machine.specs.Setup.{RspSetup};
    ghost use Rattle.spdm_machine.specs.Terms.{terms_of};
    ghost use Rattle.responder_core.specs.Connected.{StandsFor};
    ghost use Rattle.responder_core.specs.SeenTerms.{AreTermsIn};

    /// What both ends can do.
    pub fn common(&self) -> Common
        ensures { (r : RspSetup) (h : History) → StandsFor self.now r h
            → result ≡ (terms_of (negotiation_of (clear_turns h))).common }
    {
        self.clear.standing().common()
    }

    /// The announced length of the clear large request in progress; 0 if there is none.
    pub fn told(&self) -> u32
        ensures value { (r : RspSetup) (h : History) → StandsFor self.now r h
            → result ≡ told_size (under_way (chunks_of (clear_turns h))) }
        ensures fits { result ≤ MAX_MESSAGE_SIZE }
    {
        self.clear.requests().told()
    }

    /// The terms of the session with this RspSessionID; `None` if there is none.
    pub fn session_terms(&self, id: u16) -> Option<SessionTerms>
        ensures { (r : RspSetup) (h : History) → StandsFor self.now r h
            → AreTermsIn result (session_of id h) }
    {
        self.sessions.terms(id)
    }
}
