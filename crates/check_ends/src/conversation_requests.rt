ghost use Rattle.spdm_grammar.specs.declared.names.TheConstants.{MAX_BODY_SIZE};

use crate::{Conversation, Party};
use check_laws::{
    LargeRequest, Piece, Round, SessionTable, copy_is_request, is_get_version, round_is_request,
};
use check_requester::is_first_chunk;
use spdm_grammar::Why;

// The requests that a requester sends.
impl Party {
    ghost use Rattle.std.specs.Prelude.{◌≡◌, ◌≤◌, ◌<◌, ◌-◌, ◌^◌, ℕ, List, OnErr, None, Some, false, true, length};
    ghost use Rattle.mctp_framing.specs.Cutting.{RouteFields};
    ghost use Rattle.mctp_framing.specs.Gathering.Gathered.{Whole};
    ghost use Rattle.requester_machine.specs.Setup.{ReqSetup};
    ghost use Rattle.check_ends.specs.Conversation.{IsBeginning, IsJudgedRequest, IsRequest, IsUnderWay, StandsAs};
    ghost use Rattle.check_laws.specs.Keeping.{Keeps, Kept};
    ghost use Rattle.check_laws.specs.Order.{asked_why, round_of};
    ghost use Rattle.check_laws.specs.Rows.{StandsForRows};
    ghost use Rattle.check_ends.specs.Party.{IsParty};
    ghost use Rattle.check_laws.specs.Large.Sending.{Sending};
    ghost use Rattle.capture_machine.specs.Capture.{may_begin};
    ghost use Rattle.capture_machine.specs.Difference.{is_copy};
    ghost use Rattle.capture_machine.specs.SessionTable.{Row};
    ghost use Rattle.world_machine.specs.Setup.{Configuration};

    // The large request that a request begins, if it begins one. What is kept stays.
    fn begins(&mut self, round: &Round, tag: u8, body: &[u8]) -> Option<LargeRequest>
        ensures told { (w : Configuration) (q : ReqSetup) (older : List (List ℕ)) (rows : List Row)
            (k : Kept) (route : RouteFields) → length older < 2 ^ 64 - 1 → round.now ≡ k.round
            → route.tag ≡ tag → asked_why k.round (Whole route body.now) ≡ None → Keeps w q older k
            → IsParty self.old w q k rows → IsBeginning k route body.now result }
        ensures kept { (w : Configuration) (q : ReqSetup) (older : List (List ℕ)) (rows : List Row)
            (k : Kept) → length older < 2 ^ 64 - 1 → Keeps w q older k
            → IsParty self.old w q k rows → IsParty self.new w q k rows }
        ensures places { self.new.places ≡ self.old.places }
    {
        if round.is_copy(tag, body) {
            return None;
        }
        if !round.may_begin(body) {
            return None;
        }
        self.asker.begins_large(body)
    }

    // A request came where no large one is in progress: it goes on, and begins one or none; or why it is refused.
    fn asks_at_rest(
        &mut self,
        table: &mut SessionTable,
        round: &Round,
        tag: u8,
        body: &[u8],
    ) -> Result<Option<LargeRequest>, Why>
        ensures told { (w : Configuration) (q : ReqSetup) (older : List (List ℕ)) (rows : List Row)
            (packet : List ℕ) (route : RouteFields) (k : Kept)
            → IsRequest w q older packet route body.now → length older < 2 ^ 64 - 1
            → length body.now ≤ MAX_BODY_SIZE → round.now ≡ k.round → route.tag ≡ tag
            → asked_why k.round (Whole route body.now) ≡ None → Keeps w q older k
            → IsParty self.old w q k rows → StandsForRows table.old w (length older) rows
            → IsJudgedRequest w q older rows packet (Whole route body.now) result self.new
            table.new }
        ensures stays { OnErr result (table.new ≡ table.old) }
    {
        copy_is_request();
        round_is_request();
        if let Some(large) = self.begins(round, tag, body) {
            table.ask(&self.places, None);
            return Ok(Some(large));
        }
        match self.asks_whole(table, round, tag, body) {
            Ok(()) => Ok(None),
            Err(why) => Err(why),
        }
    }

    // A request that is no copy came while a large one is in progress, and a round may begin with it: it is the next
    // chunk, or the last one, or GET_VERSION; or why it is refused.
    fn asks_onward(
        &mut self,
        mut large: LargeRequest,
        table: &mut SessionTable,
        body: &[u8],
    ) -> Result<Option<LargeRequest>, Why>
        ensures told { (w : Configuration) (q : ReqSetup) (older : List (List ℕ)) (rows : List Row)
            (packet : List ℕ) (route : RouteFields) (s : Sending)
            → IsRequest w q older packet route body.now → length older < 2 ^ 64 - 1
            → asked_why (Some s.round) (Whole route body.now) ≡ None
            → is_copy (Some s.round) route.tag body.now ≡ false
            → may_begin (Some s.round) body.now ≡ true
            → IsUnderWay self.old large w q older rows s
            → StandsForRows table.old w (length older) rows
            → IsJudgedRequest w q older rows packet (Whole route body.now) result self.new
            table.new }
        ensures stays { OnErr result (table.new ≡ table.old) }
    {
        copy_is_request();
        round_is_request();
        let number = large.number();
        if is_get_version(body) {
            self.asker.connects_over(number);
            table.ask(&self.places, None);
            return Ok(None);
        }
        let why = self.asker.why_other(body);
        match large.next(body) {
            Piece::Between => {
                table.ask(&self.places, None);
                Ok(Some(large))
            }
            Piece::Last => {
                if !self.asker.ends_large(large.bytes(), number) {
                    return Err(why);
                }
                table.ask(&self.places, None);
                Ok(None)
            }
            Piece::Other => Err(why),
        }
    }

    // A request came while a large one is in progress: it goes on, and the large one with it; or why it is refused.
    fn asks_meanwhile(
        &mut self,
        large: LargeRequest,
        table: &mut SessionTable,
        round: &Round,
        tag: u8,
        body: &[u8],
    ) -> Result<Option<LargeRequest>, Why>
        ensures told { (w : Configuration) (q : ReqSetup) (older : List (List ℕ)) (rows : List Row)
            (packet : List ℕ) (route : RouteFields) (s : Sending)
            → IsRequest w q older packet route body.now → length older < 2 ^ 64 - 1
            → round.now ≡ Some s.round → route.tag ≡ tag
            → asked_why (Some s.round) (Whole route body.now) ≡ None
            → IsUnderWay self.old large w q older rows s
            → StandsForRows table.old w (length older) rows
            → IsJudgedRequest w q older rows packet (Whole route body.now) result self.new
            table.new }
        ensures stays { OnErr result (table.new ≡ table.old) }
    {
        copy_is_request();
        round_is_request();
        if round.is_copy(tag, body) {
            table.ask(&self.places, None);
            return Ok(Some(large));
        }
        if !round.may_begin(body) {
            return Err(self.asker.why_other(body));
        }
        self.asks_onward(large, table, body)
    }

    // A request came while this large one is in progress, or none: it goes on, and what is in progress then; or why it
    // is refused.
    pub(crate) fn asks_at(
        &mut self,
        large: Option<LargeRequest>,
        table: &mut SessionTable,
        round: &Round,
        tag: u8,
        body: &[u8],
    ) -> Result<Option<LargeRequest>, Why>
        ensures told { (w : Configuration) (q : ReqSetup) (older : List (List ℕ)) (rows : List Row)
            (packet : List ℕ) (route : RouteFields) → IsRequest w q older packet route body.now
            → length older < 2 ^ 64 - 1 → length body.now ≤ MAX_BODY_SIZE → route.tag ≡ tag
            → round.now ≡ round_of w.responder.eid q.eid older
            → asked_why round.now (Whole route body.now) ≡ None
            → StandsAs self.old large w q older rows → StandsForRows table.old w (length older) rows
            → IsJudgedRequest w q older rows packet (Whole route body.now) result self.new
            table.new }
        ensures stays { OnErr result (table.new ≡ table.old) }
    {
        match large {
            None => self.asks_at_rest(table, round, tag, body),
            Some(large) => self.asks_meanwhile(large, table, round, tag, body),
        }
    }
}

impl Conversation {
    ghost use Rattle.std.specs.Prelude.{◌≡◌, ◌≤◌, ◌<◌, ◌-◌, ◌^◌, ℕ, List, OnErr, None, false, length};
    ghost use Rattle.mctp_framing.specs.Cutting.{RouteFields};
    ghost use Rattle.mctp_framing.specs.Gathering.Gathered.{Whole};
    ghost use Rattle.requester_machine.specs.Setup.{ReqSetup};
    ghost use Rattle.check_requester.specs.JudgedRequester.{is_first_chunk};
    ghost use Rattle.check_ends.specs.Conversation.{IsAskedOf, IsRequest, StandsFor};
    ghost use Rattle.check_laws.specs.Order.{asked_why, round_of};
    ghost use Rattle.check_laws.specs.Rows.{StandsForRows};
    ghost use Rattle.capture_machine.specs.SessionTable.{Row};
    ghost use Rattle.world_machine.specs.Setup.{Configuration};

    // The same where none is in progress, and none begins by this body.
    fn asks_plainly(
        &mut self,
        table: &mut SessionTable,
        round: &Round,
        tag: u8,
        body: &[u8],
    ) -> Result<(), Why>
        ensures told { (w : Configuration) (q : ReqSetup) (older : List (List ℕ)) (rows : List Row)
            (packet : List ℕ) (route : RouteFields) → IsRequest w q older packet route body.now
            → length older < 2 ^ 64 - 1 → length body.now ≤ MAX_BODY_SIZE → route.tag ≡ tag
            → round.now ≡ round_of w.responder.eid q.eid older
            → asked_why round.now (Whole route body.now) ≡ None → is_first_chunk body.now ≡ false
            → self.old.large ≡ None → StandsFor self.old w q older rows
            → StandsForRows table.old w (length older) rows
            → IsAskedOf w q older rows packet (Whole route body.now) result self.new table.new }
        ensures stays { OnErr result (table.new ≡ table.old) }
    {
        self.party.asks_whole(table, round, tag, body)
    }

    // The same where a large request is in progress, or may begin. A function of its own: at entry a function clears
    // the stack of its values, and a large request is large.
    fn asks_largely(
        &mut self,
        table: &mut SessionTable,
        round: &Round,
        tag: u8,
        body: &[u8],
    ) -> Result<(), Why>
        ensures told { (w : Configuration) (q : ReqSetup) (older : List (List ℕ)) (rows : List Row)
            (packet : List ℕ) (route : RouteFields) → IsRequest w q older packet route body.now
            → length older < 2 ^ 64 - 1 → length body.now ≤ MAX_BODY_SIZE → route.tag ≡ tag
            → round.now ≡ round_of w.responder.eid q.eid older
            → asked_why round.now (Whole route body.now) ≡ None → StandsFor self.old w q older rows
            → StandsForRows table.old w (length older) rows
            → IsAskedOf w q older rows packet (Whole route body.now) result self.new table.new }
        ensures stays { OnErr result (table.new ≡ table.old) }
    {
        let large = self.large.take();
        match self.party.asks_at(large, table, round, tag, body) {
            Ok(behind) => {
                self.large = behind;
                Ok(())
            }
            Err(why) => Err(why),
        }
    }

    /// Handles a complete request of at most 4,161 bytes with its tag, next in order after this round: it is accepted
    /// and the session table updated; or no walk accepts it, with a reason, and the table is unchanged. The state is
    /// then unspecified.
    pub fn asks(
        &mut self,
        table: &mut SessionTable,
        round: &Round,
        tag: u8,
        body: &[u8],
    ) -> Result<(), Why>
        ensures told { (w : Configuration) (q : ReqSetup) (older : List (List ℕ)) (rows : List Row)
            (packet : List ℕ) (route : RouteFields) → IsRequest w q older packet route body.now
            → length older < 2 ^ 64 - 1 → length body.now ≤ MAX_BODY_SIZE → route.tag ≡ tag
            → round.now ≡ round_of w.responder.eid q.eid older
            → asked_why round.now (Whole route body.now) ≡ None → StandsFor self.old w q older rows
            → StandsForRows table.old w (length older) rows
            → IsAskedOf w q older rows packet (Whole route body.now) result self.new table.new }
        ensures stays { OnErr result (table.new ≡ table.old) }
    {
        if self.large.is_some() || is_first_chunk(body) {
            return self.asks_largely(table, round, tag, body);
        }
        self.asks_plainly(table, round, tag, body)
    }
}
