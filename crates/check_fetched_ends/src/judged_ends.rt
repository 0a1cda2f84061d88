use crate::Fetch;
use check_ends::{Conversation, Party};

/// A requester of a capture and the responder towards it, at any place: what is kept of both, and the large response
/// that is fetched, if one is. It judges requests and answers whose order is right, and tells the table of sessions of
/// those that go on. Allocates only when constructed (read, not proved).
#[derive(Drop)]
pub struct JudgedEnds {
    /// What is kept of both.
    pub talk: Conversation,
    /// The large response that is fetched. No large request is in progress then.
    pub fetched: Option<Fetch>,
}

impl JudgedEnds {
    ghost use Rattle.std.specs.Prelude.{[]};
    ghost use Rattle.requester_machine.specs.Setup.{ReqSetup};
    ghost use Rattle.check_ends.specs.Party.{IsParty};
    ghost use Rattle.check_laws.specs.Keeping.{kept_of};
    ghost use Rattle.check_fetched_ends.specs.JudgedEnds.{StandsFor};
    ghost use Rattle.capture_machine.specs.Rounds.{new_dialogue};
    ghost use Rattle.world_machine.specs.Setup.{Configuration};

    /// The initial state, before any message.
    pub fn new(party: Party) -> JudgedEnds
        ensures { (w : Configuration) (q : ReqSetup) → IsParty party w q (kept_of (new_dialogue q)) []
            → StandsFor result w q [] [] }
    {
        JudgedEnds {
            talk: Conversation::new(party),
            fetched: None,
        }
    }
}
