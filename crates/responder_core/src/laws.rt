//! What holds of the clear part, each law stated as the contract of an empty function.

ghost use Rattle.std.specs.Prelude.{◌∷◌, ℕ, List};
ghost use Rattle.responder_machine.specs.History.{History};
ghost use Rattle.responder_machine.specs.History.Entry.{Dropped, Queued, Sealed, Ticked};
ghost use Rattle.responder_machine.specs.Setup.{RspSetup};
ghost use Rattle.responder_machine.specs.Turn.{Turn};
ghost use Rattle.spdm_machine.specs.Keys.{Draw};
ghost use Rattle.responder_core.specs.ClearPart.{Seen, StandsFor};

/// What is kept of the clear part is kept over every other entry of the history: records, queued application data,
/// seconds that pass, and sessions that were dropped without a trace.
pub fn others_keep_the_clear_part()
    ensures sealed { (seen : Seen) (r : RspSetup) (h : History) (tag : ℕ) (bytes : List ℕ)
        (t : Turn) (reply : List ℕ) (d : Draw) → StandsFor seen r h
        → StandsFor seen r (Sealed tag bytes t reply d ∷ h) }
    ensures queued { (seen : Seen) (r : RspSetup) (h : History) (bytes : List ℕ)
        → StandsFor seen r h → StandsFor seen r (Queued bytes ∷ h) }
    ensures ticked { (seen : Seen) (r : RspSetup) (h : History) (seconds : ℕ)
        → StandsFor seen r h → StandsFor seen r (Ticked seconds ∷ h) }
    ensures dropped { (seen : Seen) (r : RspSetup) (h : History) (id : ℕ)
        → StandsFor seen r h → StandsFor seen r (Dropped id ∷ h) }
{}
