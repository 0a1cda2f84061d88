ghost use Rattle.spdm_grammar.specs.declared.names.TheConstants.{MAX_BODY_SIZE};

use crate::JudgedEnds;
use check_laws::{Round, SessionTable};
use spdm_grammar::Why;

// The requests that a requester sends.
impl JudgedEnds {
    ghost use Rattle.std.specs.Prelude.{◌≡◌, ◌≤◌, ◌<◌, ◌-◌, ◌^◌, ℕ, List, OnErr, None, length};
    ghost use Rattle.check_ends.specs.Conversation.{IsRequest};
    ghost use Rattle.check_laws.specs.Order.{asked_why, round_of};
    ghost use Rattle.check_laws.specs.Rows.{StandsForRows};
    ghost use Rattle.check_fetched_ends.specs.JudgedEnds.{IsAskedOf, StandsFor};
    ghost use Rattle.mctp_framing.specs.Cutting.{RouteFields};
    ghost use Rattle.mctp_framing.specs.Gathering.Gathered.{Whole};
    ghost use Rattle.requester_machine.specs.Setup.{ReqSetup};
    ghost use Rattle.capture_machine.specs.SessionTable.{Row};
    ghost use Rattle.world_machine.specs.Setup.{Configuration};

    /// Handles a complete request of at most 4,161 bytes with its tag, next in order after this round: it is accepted
    /// and the session table updated; or no walk accepts it, with a reason, and the table is unchanged. The state is
    /// then unspecified. While a large response is fetched it goes on where it does without that, and changes nothing
    /// of the answer.
    pub fn asks(
        &mut self,
        table: &mut SessionTable,
        round: &Round,
        tag: u8,
        body: &[u8],
    ) -> Result<(), Why>
        ensures told { (w : Configuration) (q : ReqSetup) (older : List (List ℕ)) (rows : List Row)
            (packet : List ℕ) (route : RouteFields) → IsRequest w q older packet route body.now
            → length older < 2 ^ 64 - 1 → length body.now ≤ MAX_BODY_SIZE → route.tag ≡ tag
            → round.now ≡ round_of w.responder.eid q.eid older
            → asked_why round.now (Whole route body.now) ≡ None → StandsFor self.old w q older rows
            → StandsForRows table.old w (length older) rows
            → IsAskedOf w q older rows packet (Whole route body.now) result self.new table.new }
        ensures stays { OnErr result (table.new ≡ table.old) }
    {
        if self.fetched.is_some() {
            return self.talk.party.asks_whole(table, round, tag, body);
        }
        self.talk.asks(table, round, tag, body)
    }
}
