ghost use Rattle.std.specs.Prelude.{◌≡◌, ◌==◌, ◌||◌, [], if◌then◌else◌, ℕ, List, IfSome, is_some, length, unwrap_or};
ghost use Rattle.spdm_basis.specs.Sizes.{hash_size};
ghost use Rattle.responder_machine.specs.Answer.{summary_answer};
ghost use Rattle.responder_machine.specs.History.{History, clear_turns, negotiation_of, phase_of};
ghost use Rattle.responder_machine.specs.LargeMessages.{next_handle};
ghost use Rattle.responder_machine.specs.Place.{Where, place_terms};
ghost use Rattle.responder_machine.specs.Refusal.{has_pending};
ghost use Rattle.responder_machine.specs.Setup.{RspSetup};
ghost use Rattle.responder_machine.specs.Turn.{Turn};
ghost use Rattle.spdm_machine.specs.Terms.{terms_of};
ghost use Rattle.transcript.specs.Transcripts.{vca_of};
ghost use Rattle.responder_core.specs.ClearPart as clear_parts;
ghost use Rattle.responder_core.specs.Coming.{exchange_bytes};
ghost use Rattle.responder_core.specs.Setup.{IsSetUp};
ghost use Rattle.responder_core.specs.ClearState.{StandsFor, place_at};

use crate::{ClearPart, ClearState, ExchangeOrigin, Setup};
use spdm_basis::HashBytes;
use spdm_grammar::{Choice, Phase};

impl ClearState {
    /// The messages of the negotiation, one after the other; VCA in phase Negotiated (DSP0274, "Transcript hash").
    pub fn vca(&self) -> &[u8]
        ensures { (turns : List Turn) → StandsFor self.now turns
            → result.now ≡ vca_of (negotiation_of turns) }
    {
        self.negotiating.messages()
    }

    /// HeartbeatPeriod of PSK_EXCHANGE_RSP, in seconds: the configured one where both ends have heartbeats,
    /// else 0.
    pub fn heartbeat(&self, setup: &Setup<'_>) -> u8
        ensures { (r : RspSetup) (at : Where) (turns : List Turn) (held : ℕ) → IsSetUp setup.now r
            → StandsFor self.now turns → result ≡ (if (place_terms
            (place_at at turns held)).common.heartbeat then r.beat else 0) }
    {
        if self.negotiating.common().heartbeat {
            setup.beat
        } else {
            0
        }
    }

    /// MeasurementSummaryHash of PSK_EXCHANGE_RSP, where a PSK_EXCHANGE asks for this kind: the hash of the blocks of
    /// the trusted computing base for 1, and of all for 255; none for another kind.
    pub fn summary(&self, setup: &Setup<'_>, kind: u8) -> Option<HashBytes>
        ensures value { (r : RspSetup) (at : Where) (turns : List Turn) (held : ℕ)
            → IsSetUp setup.now r → StandsFor self.now turns
            → unwrap_or result [] ≡ summary_answer r (place_at at turns held) kind }
        ensures size { IfSome result (λ summary. length summary
            ≡ hash_size self.now.negotiating.choice.hash) }
        ensures asked { is_some result ≡ (kind == 1 || kind == 255) }
    {
        setup
            .inventory
            .summary_by(self.negotiating.choice().hash, kind)
    }

    /// The handle of the next answer that is sent in chunks.
    pub fn next_handle(&self) -> u8
        ensures { (turns : List Turn) → StandsFor self.now turns → result ≡ next_handle turns }
    {
        self.large.next_handle()
    }

    /// Whether a large response is pending: a chunk of it is still to be given.
    pub fn is_pending(&self) -> bool
        ensures { (at : Where) (turns : List Turn) (held : ℕ) → StandsFor self.now turns
            → result ≡ has_pending (place_at at turns held) }
    {
        self.large.is_pending()
    }

    /// The algorithms that were chosen.
    pub fn choice(&self) -> Choice
        ensures value { (turns : List Turn) → StandsFor self.now turns
            → result ≡ (terms_of (negotiation_of turns)).choice }
        ensures own { result ≡ self.now.negotiating.choice }
    {
        self.negotiating.choice()
    }

    /// How far the connection has come.
    pub fn phase(&self) -> Phase
        ensures { (turns : List Turn) → StandsFor self.now turns → result ≡ phase_of turns }
    {
        self.negotiating.phase()
    }
}

impl ClearPart {
    /// The state apart from large requests.
    pub fn standing(&self) -> &ClearState
        ensures value { result.now ≡ self.now.requests.standing }
        ensures stands { (r : RspSetup) (h : History) → clear_parts.StandsFor self.now r h
            → StandsFor result.now (clear_turns h) }
    {
        self.requests().standing()
    }

    /// The bytes of the PSK_EXCHANGE that begins a session, in this clear message.
    pub fn exchange<'a>(&'a self, begun: ExchangeOrigin, message: &'a [u8]) -> &'a [u8]
        ensures { result.now ≡ exchange_bytes begun message.now self.now.requests }
    {
        match begun {
            ExchangeOrigin::InClear => message,
            ExchangeOrigin::InChunks { .. } => self.requests().whole(),
        }
    }
}
