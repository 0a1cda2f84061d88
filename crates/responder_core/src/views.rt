ghost use Rattle.spdm_grammar.specs.declared.names.TheConstants.{MAX_APP_DATA_LEN};

use crate::Connection;
use spdm_grammar::{Choice, Phase, SessionList, SessionView};

// Accessors.
impl Connection {
    ghost use Rattle.std.specs.Prelude.{◌≡◌, ◌≤◌, ◌<◌, ◌^◌, length};
    ghost use Rattle.chunking.specs.Collecting.{joined, under_way};
    ghost use Rattle.responder_core.specs.Connected.{StandsFor, context_len};
    ghost use Rattle.responder_core.specs.Sessions.{IsViewOf};
    ghost use Rattle.responder_machine.specs.BoundLaws.{messages_of};
    ghost use Rattle.responder_machine.specs.Does.{first_queued};
    ghost use Rattle.responder_machine.specs.Heard.{views_of};
    ghost use Rattle.responder_machine.specs.History.{History, clear_turns, kept_of, negotiation_of, phase_of, queue_of};
    ghost use Rattle.responder_machine.specs.LargeMessages.{chunks_of, next_handle};
    ghost use Rattle.responder_machine.specs.Place.{clear_place, free_id, held_of};
    ghost use Rattle.responder_machine.specs.Refusal.{has_pending};
    ghost use Rattle.responder_machine.specs.Responder.{is_repeat};
    ghost use Rattle.responder_machine.specs.Session.{session_of};
    ghost use Rattle.responder_machine.specs.Setup.{RspSetup};
    ghost use Rattle.responder_session.specs.Data.{data_of};
    ghost use Rattle.spdm_basis.specs.Sizes.{hash_size};
    ghost use Rattle.spdm_machine.specs.Terms.{terms_of};

    /// The phase of the negotiation.
    pub fn phase(&self) -> Phase
        ensures { (r : RspSetup) (h : History) → StandsFor self.now r h
            → result ≡ phase_of (clear_turns h) }
    {
        self.clear.standing().phase()
    }

    /// Whether the last body used a draw: for the context of PSK_EXCHANGE_RSP, or for the nonce of MEASUREMENTS.
    pub fn is_drawn(&self) -> bool
        ensures { result ≡ self.now.drawn }
    {
        self.drawn
    }

    /// Whether this clear message and tag repeat the last one that was not refused; its stored response is then sent
    /// again.
    pub fn is_repeat(&self, tag: u8, message: &[u8]) -> bool
        ensures { (r : RspSetup) (h : History) → StandsFor self.now r h
            → result ≡ is_repeat (kept_of h) tag message.now }
    {
        self.clear.is_repeat(tag, message)
    }

    /// The negotiated algorithms.
    pub fn choice(&self) -> Choice
        ensures value { (r : RspSetup) (h : History) → StandsFor self.now r h
            → result ≡ (terms_of (negotiation_of (clear_turns h))).choice }
        ensures context { hash_size result.hash ≡ context_len self.now }
    {
        self.clear.standing().choice()
    }

    /// The number of established sessions.
    pub fn held(&self) -> u8
        ensures { (r : RspSetup) (h : History) → StandsFor self.now r h → result ≡ held_of h }
    {
        self.sessions.held()
    }

    /// The least RspSessionID without an established session; 4 if all four have one.
    pub fn free_id(&self) -> u16
        ensures value { (r : RspSetup) (h : History) → StandsFor self.now r h
            → result ≡ free_id h }
        ensures least { 1 ≤ result }
        ensures most { result ≤ 4 }
    {
        self.sessions.free_id()
    }

    /// The bytes received so far of a large request in the clear; empty if there is none.
    pub fn under_way(&self) -> &[u8]
        ensures { (r : RspSetup) (h : History) → StandsFor self.now r h
            → result.now ≡ joined (under_way (chunks_of (clear_turns h))) }
    {
        self.clear.requests().under_way()
    }

    /// The handle of the next clear response that is sent in chunks.
    pub fn next_handle(&self) -> u8
        ensures { (r : RspSetup) (h : History) → StandsFor self.now r h
            → result ≡ next_handle (clear_turns h) }
    {
        self.clear.standing().next_handle()
    }

    /// Whether a large response is pending in the clear, that is, some chunk of it was not sent yet.
    pub fn is_pending(&self) -> bool
        ensures { (r : RspSetup) (h : History) → StandsFor self.now r h
            → result ≡ has_pending (clear_place h) }
    {
        self.clear.standing().is_pending()
    }

    /// The next application data to send in reply; empty if the queue is.
    pub fn next_reply(&self) -> &[u8]
        ensures value { (r : RspSetup) (h : History) → StandsFor self.now r h
            → result.now ≡ first_queued (queue_of h) }
        ensures fits { length result.now ≤ MAX_APP_DATA_LEN }
    {
        self.queue.first()
    }

    /// A view of the session with this RspSessionID; `None` if there is none. Requires fewer than 2^64 received
    /// messages.
    pub fn view(&self, id: u16) -> Option<SessionView>
        ensures { (r : RspSetup) (h : History) → StandsFor self.now r h → messages_of h < 2 ^ 64
            → IsViewOf result (session_of id h) }
    {
        self.sessions.view(id)
    }

    /// Views of the sessions, by rising RspSessionID. Requires fewer than 2^64 received messages.
    pub fn sessions(&self) -> SessionList
        ensures { (r : RspSetup) (h : History) → StandsFor self.now r h → messages_of h < 2 ^ 64
            → result ≡ views_of h }
    {
        SessionList::of(self.view(1), self.view(2), self.view(3), self.view(4))
    }

    /// The application data that the session with this RspSessionID received last; empty before the first and without
    /// such a session.
    pub fn data(&self, id: u16) -> &[u8]
        ensures { (r : RspSetup) (h : History) → StandsFor self.now r h
            → result.now ≡ data_of (session_of id h) }
    {
        self.sessions.data(id)
    }
}
