use spdm_basis::RecordFault;
use spdm_grammar::Event;

/// The outcome of a record at the session that awaits it.
#[derive(Clone, Copy, Debug, PartialEq, Eq)]
pub enum RecordOutcome {
    /// It does not open, and nothing changed.
    Ignored(RecordFault),
    /// It answers the request, and this is reported: the session is open.
    Rests(Event),
    /// This is reported, and the session is removed.
    Ends(Event),
    /// A further record is sent.
    Sends,
}

impl RecordOutcome {
    ghost use Rattle.std.specs.Prelude.{◌≡◌};
    ghost use Rattle.requester_core.specs.RecordOutcome.{is_end};

    // Whether the session is gone.
    pub(crate) fn is_end(&self) -> bool
        ensures { result ≡ is_end self.now }
    {
        matches!(self, RecordOutcome::Ends(_))
    }
}
