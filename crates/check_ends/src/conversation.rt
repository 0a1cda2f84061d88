ghost use Rattle.std.specs.Prelude.{◌≡◌};

use crate::Party;
use check_laws::LargeRequest;

/// A requester of a capture and the responder towards it, at any place but while a large response is fetched: what is
/// kept of both, and the large request that is in progress, if one is. It judges requests and answers whose order is
/// right, and tells the table of sessions of those that go on. Allocates only when constructed (read, not proved).
#[derive(Drop)]
pub struct Conversation {
    /// The two ends.
    pub party: Party,
    /// The large request that is in progress.
    pub large: Option<LargeRequest>,
}

impl Conversation {
    ghost use Rattle.std.specs.Prelude.{◌≡◌, List, []};
    ghost use Rattle.requester_machine.specs.Setup.{ReqSetup};
    ghost use Rattle.check_ends.specs.Conversation.{StandsFor};
    ghost use Rattle.check_ends.specs.Party.{IsParty};
    ghost use Rattle.check_laws.specs.Keeping.{kept_of};
    ghost use Rattle.capture_machine.specs.Rounds.{new_dialogue};
    ghost use Rattle.world_machine.specs.Setup.{Configuration};

    /// The initial state, before any message.
    pub fn new(party: Party) -> Conversation
        ensures { (w : Configuration) (q : ReqSetup) → IsParty party w q (kept_of (new_dialogue q)) []
            → StandsFor result w q [] [] }
    {
        Conversation { party, large: None }
    }
}
