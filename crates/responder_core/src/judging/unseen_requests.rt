use crate::{ClearPart, ClearPlace, ClearState, Connection, Requests, Sessions};

// How the clear part follows a request that was taken, whose large response was never seen.
impl ClearState {
    ghost use Rattle.std.specs.Prelude.{◌∷◌, List};
    ghost use Rattle.responder_machine.specs.Turn.{Turn};
    ghost use Rattle.responder_core.specs.ClearState.{StandsFor};
    ghost use Rattle.responder_core.specs.UnseenRequests.{IsUnseenTurn};

    fn skip_large_response(&mut self)
        ensures { (t : Turn) (older : List Turn) → IsUnseenTurn t → StandsFor self.old older
            → StandsFor self.new (t ∷ older) }
    {
        self.large.clear();
    }
}

impl Requests {
    ghost use Rattle.std.specs.Prelude.{◌∷◌, List};
    ghost use Rattle.responder_machine.specs.Setup.{RspSetup};
    ghost use Rattle.responder_machine.specs.Turn.{Turn};
    ghost use Rattle.responder_core.specs.Coming.{StandsFor};
    ghost use Rattle.responder_core.specs.UnseenRequests.{IsUnseenTurn};

    fn skip_large_response(&mut self)
        ensures { (r : RspSetup) (t : Turn) (older : List Turn) → IsUnseenTurn t
            → StandsFor self.old r older → StandsFor self.new r (t ∷ older) }
    {
        self.standing.skip_large_response();
        self.collector.clear();
    }
}

impl ClearPart {
    ghost use Rattle.std.specs.Prelude.{◌≤◌, ◌∷◌, Bool, length};
    ghost use Rattle.responder_machine.specs.History.{History};
    ghost use Rattle.responder_machine.specs.History.Entry.{Clear};
    ghost use Rattle.responder_machine.specs.Setup.{RspSetup};
    ghost use Rattle.responder_machine.specs.Turn.{Turn};
    ghost use Rattle.spdm_grammar.specs.declared.names.TheConstants.{MAX_MESSAGE_SIZE};
    ghost use Rattle.spdm_machine.specs.Keys.{Draw};
    ghost use Rattle.responder_core.specs.ClearPart.{StandsFor};
    ghost use Rattle.responder_core.specs.UnseenRequests.{IsTurnOf, IsUnseenTurn};

    fn skip_large_response(&mut self, tag: u8, message: &[u8], reply: &[u8])
        ensures { (r : RspSetup) (h : History) (t : Turn) (d : Draw) (exchange : Bool)
            → length message.now ≤ MAX_MESSAGE_SIZE → length reply.now ≤ MAX_MESSAGE_SIZE
            → IsUnseenTurn t → IsTurnOf t message.now reply.now exchange → StandsFor self.old r h
            → StandsFor self.new r (Clear tag t d ∷ h) }
    {
        self.requests.skip_large_response();
        self.kept.keep(tag, message, reply);
    }
}

impl ClearPlace {
    ghost use Rattle.std.specs.Prelude.{◌≤◌, ◌∷◌, Bool, length};
    ghost use Rattle.responder_machine.specs.History.{History};
    ghost use Rattle.responder_machine.specs.History.Entry.{Clear};
    ghost use Rattle.responder_machine.specs.Setup.{RspSetup};
    ghost use Rattle.responder_machine.specs.Turn.{Turn};
    ghost use Rattle.spdm_grammar.specs.declared.names.TheConstants.{MAX_MESSAGE_SIZE};
    ghost use Rattle.spdm_machine.specs.Keys.{Draw};
    ghost use Rattle.responder_core.specs.ClearPart.{StandsFor};
    ghost use Rattle.responder_core.specs.UnseenRequests.{IsTurnOf, IsUnseenTurn};

    fn skip_large_response(&mut self, tag: u8, message: &[u8], reply: &[u8])
        ensures { (r : RspSetup) (h : History) (t : Turn) (d : Draw) (exchange : Bool)
            → length message.now ≤ MAX_MESSAGE_SIZE → length reply.now ≤ MAX_MESSAGE_SIZE
            → IsUnseenTurn t → IsTurnOf t message.now reply.now exchange → StandsFor self.old r h
            → StandsFor self.new r (Clear tag t d ∷ h) }
    {
        self.inner.skip_large_response(tag, message, reply);
    }
}

// The sessions after it: PSK_EXCHANGE ends the one in its handshake, and begins none.
impl Sessions {
    ghost use Rattle.std.specs.Prelude.{◌≡◌, ◌∷◌, ℕ, true};
    ghost use Rattle.responder_machine.specs.History.{History};
    ghost use Rattle.responder_machine.specs.History.Entry.{Clear};
    ghost use Rattle.responder_machine.specs.Setup.{RspSetup};
    ghost use Rattle.responder_machine.specs.Turn.{Turn, takes};
    ghost use Rattle.spdm_grammar.specs.declared.names.request_code.TheConstants.{PSK_EXCHANGE};
    ghost use Rattle.spdm_machine.specs.Keys.{Draw};
    ghost use Rattle.responder_core.specs.Sessions.{StandsFor};
    ghost use Rattle.responder_core.specs.UnseenRequests.{IsUnseenTurn};

    fn leave_handshake(&mut self)
        ensures { (r : RspSetup) (h : History) (tag : ℕ) (t : Turn) (d : Draw) → IsUnseenTurn t
            → takes PSK_EXCHANGE t ≡ true → StandsFor self.old r h
            → StandsFor self.new r (Clear tag t d ∷ h) }
    {
        self.leave(1);
        self.leave(2);
        self.leave(3);
        self.leave(4);
        self.ended.clear();
    }

    fn skip_large_response(&mut self, exchange: bool)
        ensures { (r : RspSetup) (h : History) (tag : ℕ) (t : Turn) (d : Draw) → IsUnseenTurn t
            → takes PSK_EXCHANGE t ≡ exchange → StandsFor self.old r h
            → StandsFor self.new r (Clear tag t d ∷ h) }
    {
        if exchange {
            self.leave_handshake();
        }
    }
}

// A request whose large response was never seen; used only by the checker.
impl Connection {
    ghost use Rattle.std.specs.Prelude.{◌≤◌, ◌∷◌, length};
    ghost use Rattle.responder_machine.specs.History.{History};
    ghost use Rattle.responder_machine.specs.History.Entry.{Clear};
    ghost use Rattle.responder_machine.specs.Setup.{RspSetup};
    ghost use Rattle.responder_machine.specs.Turn.{Turn};
    ghost use Rattle.spdm_grammar.specs.declared.names.TheConstants.{MAX_MESSAGE_SIZE};
    ghost use Rattle.spdm_machine.specs.Keys.{Draw};
    ghost use Rattle.responder_core.specs.Connected.{StandsFor};
    ghost use Rattle.responder_core.specs.UnseenRequests.{IsTurnOf, IsUnseenTurn};

    /// A clear request with this tag got this LargeResponse, and its response was never seen. The request is unchunked
    /// GET_MEASUREMENTS, or PSK_EXCHANGE if `exchange` is set. It is stored with its response, no large response is
    /// pending, and PSK_EXCHANGE removes a session in its handshake and begins none. Message and response have at most
    /// 4,096 bytes.
    pub fn skip_large_response(&mut self, tag: u8, message: &[u8], reply: &[u8], exchange: bool)
        ensures { (r : RspSetup) (h : History) (t : Turn) (d : Draw)
            → length message.now ≤ MAX_MESSAGE_SIZE → length reply.now ≤ MAX_MESSAGE_SIZE
            → IsUnseenTurn t → IsTurnOf t message.now reply.now exchange → StandsFor self.old r h
            → StandsFor self.new r (Clear tag t d ∷ h) }
    {
        self.clear.skip_large_response(tag, message, reply);
        self.sessions.skip_large_response(exchange);
    }
}
