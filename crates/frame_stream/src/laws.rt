//! A law of the definitions, stated as the contract of an empty function. Call it where a proof needs it.
ghost use Rattle.std.specs.Prelude.{◌≡◌, ℕ, List};
ghost use Rattle.frame_stream.specs.Frames.{Ending, GivenFrame, IsStream};
ghost use Rattle.frame_stream.specs.declared.kinds.Kinds.{Kinds};

/// A stream determines its whole frames and how it ends after them.
pub fn stream_is_determined()
    ensures { (kinds : Kinds) (limit : ℕ) (stream : List ℕ) (frames others : List GivenFrame)
        (ending end : Ending) → IsStream kinds limit stream frames ending
        → IsStream kinds limit stream others end → (frames ≡ others) × (ending ≡ end) }
{}
