ghost use Rattle.std.specs.Prelude.{◌≡◌, [], ℕ, List, IfSome, is_some, true, false};
ghost use Rattle.responder_machine.specs.Place as places;
ghost use Rattle.responder_machine.specs.Refusal.{has_pending};
ghost use Rattle.responder_machine.specs.Turn.{Turn};
ghost use Rattle.responder_rules.specs.Place.{IsPlace, where_of};
ghost use Rattle.responder_core.specs.ClearState.{StandsFor, place_at};

use crate::Negotiating;
use responder_rules::{LargeAnswer, Place, Where};
use spdm_grammar::Stage;
use std::marker::Model;

/// The state of the clear part of a connection, apart from its large request: the negotiation, and the large response
/// that is still to be sent.
#[derive(Drop)]
pub struct ClearState {
    pub(crate) negotiating: Negotiating,
    pub(crate) large: LargeAnswer,
}

impl Model for ClearState {
    ghost use Rattle.responder_core.specs.ClearState.{Seen};

    ghost Value = { Seen };

    ghost view = { λ s. record { negotiating = s.negotiating; large = s.large } };
}

impl ClearState {
    /// The initial state, before any request.
    pub fn new() -> ClearState
        ensures { StandsFor result [] }
    {
        ClearState {
            negotiating: Negotiating::new(),
            large: LargeAnswer::new(),
        }
    }

    /// Returns a copy; `None` while a large response is pending.
    pub fn idle_copy(&self) -> Option<ClearState>
        ensures same { IfSome result (λ copy. copy ≡ self.now) }
        ensures idle { (at : places.Where) (turns : List Turn) (held : ℕ) → StandsFor self.now turns
            → has_pending (place_at at turns held) ≡ false → is_some result ≡ true }
    {
        let large = self.large.idle_copy()?;
        Some(ClearState {
            negotiating: self.negotiating.copy(),
            large,
        })
    }

    /// What the rules for requests go by in the clear, or inside a large request.
    pub fn place(&self, at: Where) -> Place
        ensures { (turns : List Turn) (held : ℕ) → StandsFor self.now turns
            → IsPlace result (place_at (where_of at) turns held) }
    {
        Place {
            at,
            phase: self.negotiating.phase(),
            stage: Stage::Handshake,
            choice: self.negotiating.choice(),
            common: self.negotiating.common(),
            pending: self.large.is_pending(),
        }
    }
}
