use crate::{ClearState, Sessions};
use chunking::Collector;
use negotiate::Common;
use psk_session::SessionTold;
use spdm_basis::{Frame, OutOfMemory};
use spdm_grammar::{Choice, Phase, SessionList, SessionView};
use std::alloc::Global;

/// A requester (DSP0274, section 10), with every free value handed in: the clear part, the part received so far of a
/// large response in the clear, and the sessions. Allocates only when constructed (read, not proved).
#[derive(Drop)]
pub struct RequesterCore {
    pub(crate) clear_state: ClearState,
    pub(crate) gathered: Collector,
    pub(crate) sessions: Sessions,
    // Scratch space for the clear message last sent or received, so that no call zeroes a buffer of its own.
    pub(crate) message: Frame,
}

impl RequesterCore {
    ghost use Rattle.spdm_grammar.specs.declared.names.TheConstants.{MAX_MESSAGE_SIZE};
    ghost use Rattle.std.specs.Prelude.{replicate, ◌≡◌, ◌≤◌, ◌<◌, ◌^◌, ◌-◌, [], IfOk, MatchOption, None, Some, length};
    ghost use Rattle.requester_core.specs.Joined.{StandsFor};
    ghost use Rattle.requester_core.specs.Slot.{shown_of};
    ghost use Rattle.requester_core.specs.Wiped.{IsWiped};
    ghost use Rattle.psk_session.specs.Told.{told_of};
    ghost use Rattle.requester_machine.specs.Commands.{live_count};
    ghost use Rattle.requester_machine.specs.Does.{free_id};
    ghost use Rattle.requester_machine.specs.History.{History, connection_terms, next_handle, phase_of};
    ghost use Rattle.requester_machine.specs.Session.{session_of};
    ghost use Rattle.requester_machine.specs.Setup.{ReqSetup};
    ghost use Rattle.requester_machine.specs.Shown.{last_data, views_of};

    /// The initial state of a requester with this MaxSPDMmsgSize.
    pub fn new(alloc: Global, max: u32) -> Result<RequesterCore, OutOfMemory>
        ensures { (q : ReqSetup) → q.max ≡ max → IfOk result (λ core. StandsFor core q []) }
    {
        let sessions = Sessions::new(alloc)?;
        Ok(RequesterCore {
            clear_state: ClearState::new(),
            gathered: Collector::new(max),
            sessions,
            message: Frame::new(),
        })
    }

    /// Overwrites the keys and the plaintexts of each session in place, and the data that were brought last. Not to be
    /// gone on with.
    pub fn wipe(&mut self)
        ensures sessions { IsWiped self.new.sessions }
        ensures brought { self.new.clear_state.brought ≡ replicate MAX_MESSAGE_SIZE 0 }
    {
        self.sessions.wipe();
        self.clear_state.wipe();
    }

    /// The phase of the negotiation.
    pub fn phase(&self) -> Phase
        ensures { (q : ReqSetup) (h : History) → StandsFor self.now q h → result ≡ phase_of h }
    {
        self.clear_state.phase()
    }

    /// The algorithms negotiated so far.
    pub fn choice(&self) -> Choice
        ensures { (q : ReqSetup) (h : History) → StandsFor self.now q h
            → result ≡ (connection_terms h).choice }
    {
        self.clear_state.choice()
    }

    /// The common capabilities negotiated so far.
    pub fn common(&self) -> &Common
        ensures { (q : ReqSetup) (h : History) → StandsFor self.now q h
            → result.now ≡ (connection_terms h).common }
    {
        self.clear_state.common()
    }

    /// The handle of the next large request.
    pub fn next_handle(&self) -> u8
        ensures { (q : ReqSetup) (h : History) → StandsFor self.now q h → result ≡ next_handle h }
    {
        self.clear_state.next_handle()
    }

    /// The least unused ReqSessionID; 4 if there is none.
    pub fn free_id(&self) -> u16
        ensures value { (q : ReqSetup) (h : History) → StandsFor self.now q h
            → result ≡ free_id h }
        ensures least { 1 ≤ result }
        ensures most { result ≤ 4 }
    {
        self.sessions.free_id()
    }

    /// A view of the session with this ReqSessionID, from its PSK_EXCHANGE_RSP on.
    pub fn view(&self, id: u16) -> Option<SessionView>
        ensures { (q : ReqSetup) (h : History) → StandsFor self.now q h → length h < 2 ^ 64 - 1
            → result ≡ shown_of (session_of id h) }
    {
        self.sessions.view(id)
    }

    /// What PSK_EXCHANGE_RSP told of the session with this ReqSessionID; none before it came, and where there is no
    /// session.
    pub fn told(&self, id: u16) -> Option<&SessionTold>
        ensures { (q : ReqSetup) (h : History) → StandsFor self.now q h → MatchOption result
            (told_of (session_of id h) ≡ None)
            (λ told. told_of (session_of id h) ≡ Some told.now) }
    {
        self.sessions.told(id)
    }

    /// Views of the sessions, by rising ReqSessionID.
    pub fn sessions(&self) -> SessionList
        ensures { (q : ReqSetup) (h : History) → StandsFor self.now q h → length h < 2 ^ 64 - 1
            → result ≡ views_of h }
    {
        SessionList::of(self.view(1), self.view(2), self.view(3), self.view(4))
    }

    /// The application data or measurement record received last; empty before the first.
    pub fn last_data(&self) -> &[u8]
        ensures { (q : ReqSetup) (h : History) → StandsFor self.now q h
            → result.now ≡ last_data h }
    {
        self.clear_state.last_data()
    }
}
