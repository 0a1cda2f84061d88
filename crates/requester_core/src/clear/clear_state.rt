ghost use Rattle.spdm_grammar.specs.declared.names.TheConstants.{MAX_MESSAGE_SIZE};
ghost use Rattle.std.specs.Prelude.{replicate, ◌≡◌, [], ℕ};
ghost use Rattle.requester_machine.specs.History.{History, connection_terms, negotiation_of, next_handle, phase_of};
ghost use Rattle.requester_machine.specs.Setup.{ReqSetup};
ghost use Rattle.requester_machine.specs.Shown.{last_data};
ghost use Rattle.transcript.specs.Transcripts.{vca_of};
ghost use Rattle.requester_core.specs.ClearState.{Shows, StandsFor};

use crate::{Negotiating, Outgoing};
use negotiate::Common;
use session_keys::wipe_buffer;
use spdm_basis::Frame;
use spdm_grammar::{Choice, Phase};
use std::marker::Model;
use transcript::Vca;

/// The clear part of a requester: the negotiation, the sending side, and the application data or measurement record
/// received last. The part received of a large response is kept separately.
#[derive(Drop)]
pub struct ClearState {
    pub(crate) negotiating: Negotiating,
    pub(crate) outgoing: Outgoing,
    pub(crate) brought: Frame,
}

impl Model for ClearState {
    ghost use Rattle.requester_core.specs.ClearState.{Seen};

    ghost Value = { Seen };

    ghost view = { λ t. record {
      negotiating = t.negotiating;
      outgoing = t.outgoing;
      brought = t.brought;
    } };
}

impl ClearState {
    /// The initial state, before any command or message.
    pub fn new() -> ClearState
        ensures { (q : ReqSetup) → StandsFor result q [] }
    {
        ClearState {
            negotiating: Negotiating::new(),
            outgoing: Outgoing::new(),
            brought: Frame::new(),
        }
    }

    /// Overwrites the data that were brought last by zeros. Not to be gone on with.
    pub fn wipe(&mut self)
        ensures { self.new.brought ≡ replicate MAX_MESSAGE_SIZE 0 }
    {
        wipe_buffer(&mut self.brought);
    }

    /// The phase of the negotiation.
    pub fn phase(&self) -> Phase
        ensures { (h : History) → Shows self.now h → result ≡ phase_of h }
    {
        self.negotiating.phase()
    }

    /// What both ends can do, as far as it was settled.
    pub fn common(&self) -> &Common
        ensures { (h : History) → Shows self.now h → result.now ≡ (connection_terms h).common }
    {
        self.negotiating.common()
    }

    /// The algorithms that were chosen, as far as they were settled.
    pub fn choice(&self) -> Choice
        ensures { (h : History) → Shows self.now h → result ≡ (connection_terms h).choice }
    {
        self.negotiating.choice()
    }

    /// The handle of the next large request.
    pub fn next_handle(&self) -> u8
        ensures { (h : History) → Shows self.now h → result ≡ next_handle h }
    {
        self.outgoing.next_handle()
    }

    /// The bytes of the messages of the negotiation so far, one after the other; in phase Negotiated VCA (DSP0274,
    /// "Transcript hash").
    pub fn vca(&self) -> &Vca
        ensures { (h : History) → Shows self.now h → result.now ≡ vca_of (negotiation_of h) }
    {
        self.negotiating.messages()
    }

    /// The application data or measurement record received last; empty before the first.
    pub fn last_data(&self) -> &[u8]
        ensures { (h : History) → Shows self.now h → result.now ≡ last_data h }
    {
        self.brought.as_slice()
    }
}
