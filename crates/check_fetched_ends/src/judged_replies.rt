ghost use Rattle.std.specs.Prelude.{◌≡◌, ◌==◌, slice_index};
ghost use Rattle.spdm_grammar.specs.declared.names.TheConstants.{MAX_BODY_SIZE};
ghost use Rattle.spdm_grammar.specs.declared.names.message_type.TheConstants.{SPDM};

use crate::{
    BegunHeld, BegunIn, Fetch, Held, InSession, JudgedEnds, Upon, begins_held, begins_in_session,
    replies_held, replies_in_session,
};
use check_ends::Continuation;
use check_laws::{Round, SessionTable};
use responder_core::Setup;
use session_keys::byte_at;
use spdm_basis::OutOfMemory;
use spdm_grammar::Why;
use spdm_grammar::names::message_type::SPDM;
use spdm_grammar::names::request_code::GET_MEASUREMENTS;

// Whether a body is a message in the clear.
pub(crate) fn is_clear(body: &[u8]) -> bool
    ensures { result ≡ (slice_index body.now 0 == SPDM) }
{
    byte_at(body, 0) == SPDM
}

// The answers that a responder gives.
impl JudgedEnds {
    ghost use Rattle.std.specs.Prelude.{◌≡◌, ◌≤◌, ◌<◌, ◌-◌, ◌^◌, ℕ, List, None, IfOk, OnErr, IsSome, drop, length};
    ghost use Rattle.check_responder.specs.AnswerKeys.{IsComing};
    ghost use Rattle.check_ends.specs.Conversation as conversations;
    ghost use Rattle.check_ends.specs.Conversation.{IsAnswer};
    ghost use Rattle.check_ends.specs.Party.{IsParty};
    ghost use Rattle.check_laws.specs.DropsShown.{id_begun, response_of};
    ghost use Rattle.check_laws.specs.Keeping.{Keeps, Kept};
    ghost use Rattle.check_laws.specs.Order.{answered_why, body_in, round_of};
    ghost use Rattle.check_laws.specs.RepliesShown.{responder_for};
    ghost use Rattle.check_laws.specs.Rows.{StandsForRows};
    ghost use Rattle.responder_core.specs.Setup.{IsSetUp};
    ghost use Rattle.check_fetched_ends.specs.BegunIn.{IsLargeInRecord};
    ghost use Rattle.check_fetched_ends.specs.Held.{IsHeldIn};
    ghost use Rattle.check_fetched_ends.specs.InSession.{IsFetchedIn};
    ghost use Rattle.check_fetched_ends.specs.JudgedEnds.{IsJudgedAnswer, MayBegin, StandsFor};
    ghost use Rattle.check_late_laws.specs.Fetching.{Fetching, IsFetchingOf};
    ghost use Rattle.mctp_framing.specs.Cutting.{RouteFields};
    ghost use Rattle.mctp_framing.specs.Gathering.Gathered.{Whole};
    ghost use Rattle.requester_machine.specs.Setup.{ReqSetup};
    ghost use Rattle.responder_machine.specs.Setup.{towards};
    ghost use Rattle.capture_machine.specs.SessionTable.{Row};
    ghost use Rattle.world_machine.specs.Setup.{Configuration, known_of};

    // An answer came while this large one is fetched in a session.
    fn replies_fetched(
        &mut self,
        mut fetched: InSession,
        table: &mut SessionTable,
        setup: &Setup<'_>,
        round: &Round,
        answer: &[u8],
    ) -> Result<Result<Continuation, Why>, OutOfMemory>
        requires { length answer.now ≤ MAX_BODY_SIZE }
        ensures told { (w : Configuration) (q : ReqSetup) (older : List (List ℕ)) (rows : List Row)
            (packet : List ℕ) (route : RouteFields) (f : Fetching)
            → IsAnswer w q older packet route answer.now → length older < 2 ^ 64 - 2
            → w.responder.beat < 256 → round.now ≡ round_of w.responder.eid q.eid older
            → IsSetUp setup.now (towards w.responder (known_of q))
            → answered_why round.now (Whole route answer.now) ≡ None → self.old.talk.large ≡ None
            → IsFetchingOf w q older f → IsFetchedIn self.old.talk.party fetched w q f rows
            → StandsForRows table.old w (length older) rows
            → IfOk result (λ told. IsJudgedAnswer w q older rows packet route answer.now told self.new
            table.new) }
        ensures memory { OnErr result (IsSome (id_begun (response_of (drop 1 answer.now)))) }
    {
        let party = &mut self.talk.party;
        match replies_in_session(party, &mut fetched, table, setup, round, answer)? {
            Ok(Upon::Fetched) => {
                self.fetched = Some(Fetch::InSession(fetched));
                Ok(Ok(Continuation::Kept))
            }
            Ok(Upon::Turned) => {
                self.fetched = Some(Fetch::InSession(fetched));
                Ok(Ok(Continuation::Kept))
            }
            Ok(Upon::Ended) => {
                self.fetched = None;
                Ok(Ok(Continuation::Kept))
            }
            Err(why) => Ok(Err(why)),
        }
    }

    // An answer came while this large one is fetched in the clear.
    fn replies_clear(
        &mut self,
        mut held: Held,
        table: &mut SessionTable,
        setup: &Setup<'_>,
        round: &Round,
        answer: &[u8],
    ) -> Result<Result<Continuation, Why>, OutOfMemory>
        requires { length answer.now ≤ MAX_BODY_SIZE }
        ensures { (w : Configuration) (q : ReqSetup) (older : List (List ℕ)) (rows : List Row)
            (packet : List ℕ) (route : RouteFields) (f : Fetching)
            → IsAnswer w q older packet route answer.now → length older < 2 ^ 64 - 2
            → w.responder.beat < 256 → round.now ≡ round_of w.responder.eid q.eid older
            → IsSetUp setup.now (towards w.responder (known_of q))
            → answered_why round.now (Whole route answer.now) ≡ None → self.old.talk.large ≡ None
            → IsFetchingOf w q older f → IsHeldIn self.old.talk.party held w q f rows
            → StandsForRows table.old w (length older) rows
            → IfOk result (λ told. IsJudgedAnswer w q older rows packet route answer.now told self.new
            table.new) }
    {
        let party = &mut self.talk.party;
        match replies_held(party, &mut held, table, setup, round, answer)? {
            Ok(Upon::Fetched) => {
                self.fetched = Some(Fetch::InClear(held));
                Ok(Ok(Continuation::Kept))
            }
            Ok(Upon::Turned) => {
                self.fetched = Some(Fetch::InClear(held));
                Ok(Ok(Continuation::Kept))
            }
            Ok(Upon::Ended) => {
                self.fetched = None;
                Ok(Ok(Continuation::Kept))
            }
            Err(why) => Ok(Err(why)),
        }
    }

    // An answer came where no large message is in progress: it may begin a large one in the clear.
    fn begins_clear(
        &mut self,
        table: &mut SessionTable,
        setup: &Setup<'_>,
        round: &Round,
        answer: &[u8],
    ) -> Result<Result<Continuation, Why>, OutOfMemory>
        requires { length answer.now ≤ MAX_BODY_SIZE }
        ensures told { (w : Configuration) (q : ReqSetup) (older : List (List ℕ)) (rows : List Row)
            (packet : List ℕ) (route : RouteFields) (k : Kept)
            → IsAnswer w q older packet route answer.now → length older < 2 ^ 64 - 2
            → w.responder.beat < 256
            → round.now ≡ round_of w.responder.eid q.eid older
            → IsSetUp setup.now (towards w.responder (known_of q))
            → answered_why round.now (Whole route answer.now) ≡ None → self.old.fetched ≡ None
            → self.old.talk.large ≡ None → Keeps w q older k
            → (IsLargeInRecord w k route.tag answer.now → ⊥)
            → IsParty self.old.talk.party w q k rows
            → StandsForRows table.old w (length older) rows
            → IfOk result (λ told. IsJudgedAnswer w q older rows packet route answer.now told self.new
            table.new) }
        ensures memory { OnErr result (IsSome (id_begun (response_of (drop 1 answer.now)))) }
    {
        match begins_held(&mut self.talk.party, table, setup, round, answer)? {
            BegunHeld::Not => self.talk.party.replies(table, setup, round, answer),
            BegunHeld::Passed => Ok(Ok(Continuation::Kept)),
            BegunHeld::Fetching(held) => {
                self.fetched = Some(Fetch::InClear(held));
                Ok(Ok(Continuation::Kept))
            }
        }
    }

    // An answer came where no large message is in progress, and it begins no large one in a session: it may begin one
    // where its request is in the clear. Any other is told before places are made for a large response. The request was
    // prepared for.
    fn begins_other(
        &mut self,
        table: &mut SessionTable,
        setup: &Setup<'_>,
        round: &Round,
        answer: &[u8],
    ) -> Result<Result<Continuation, Why>, OutOfMemory>
        requires { length answer.now ≤ MAX_BODY_SIZE }
        ensures told { (w : Configuration) (q : ReqSetup) (older : List (List ℕ)) (rows : List Row)
            (packet : List ℕ) (route : RouteFields) (k : Kept)
            → IsAnswer w q older packet route answer.now → length older < 2 ^ 64 - 2
            → w.responder.beat < 256
            → round.now ≡ round_of w.responder.eid q.eid older
            → IsSetUp setup.now (towards w.responder (known_of q))
            → answered_why round.now (Whole route answer.now) ≡ None → self.old.fetched ≡ None
            → self.old.talk.large ≡ None → Keeps w q older k
            → (IsLargeInRecord w k route.tag answer.now → ⊥)
            → IsParty self.old.talk.party w q k rows
            → IsComing self.old.talk.party.coming (responder_for w k) k.responder (body_in round.now)
            → StandsForRows table.old w (length older) rows
            → IfOk result (λ told. IsJudgedAnswer w q older rows packet route answer.now told self.new
            table.new) }
        ensures memory { OnErr result (IsSome (id_begun (response_of (drop 1 answer.now)))) }
    {
        if !is_clear(round.body()) {
            return self
                .talk
                .party
                .replies_prepared(table, setup, round, answer);
        }
        self.begins_clear(table, setup, round, answer)
    }

    // An answer came where no large message is in progress: it may begin a large one in a session.
    fn begins_session(
        &mut self,
        table: &mut SessionTable,
        setup: &Setup<'_>,
        round: &Round,
        answer: &[u8],
    ) -> Result<Result<Continuation, Why>, OutOfMemory>
        requires { length answer.now ≤ MAX_BODY_SIZE }
        ensures told { (w : Configuration) (q : ReqSetup) (older : List (List ℕ)) (rows : List Row)
            (packet : List ℕ) (route : RouteFields) → IsAnswer w q older packet route answer.now
            → length older < 2 ^ 64 - 2 → w.responder.beat < 256
            → round.now ≡ round_of w.responder.eid q.eid older
            → IsSetUp setup.now (towards w.responder (known_of q))
            → answered_why round.now (Whole route answer.now) ≡ None → self.old.fetched ≡ None
            → self.old.talk.large ≡ None
            → conversations.StandsFor self.old.talk w q older rows
            → StandsForRows table.old w (length older) rows
            → IfOk result (λ told. IsJudgedAnswer w q older rows packet route answer.now told self.new
            table.new) }
        ensures memory { OnErr result (IsSome (id_begun (response_of (drop 1 answer.now)))) }
    {
        match begins_in_session(&mut self.talk.party, table, setup, round, answer)? {
            BegunIn::Not => {
                self.talk.party.prepare(round.body());
                self.begins_other(table, setup, round, answer)
            }
            BegunIn::Fetching(fetched) => {
                self.fetched = Some(Fetch::InSession(fetched));
                Ok(Ok(Continuation::Kept))
            }
            BegunIn::Told(told) => Ok(told),
        }
    }

    // An answer came where no large one is fetched: it may begin one, where no large request is sent. The request is
    // opened once, for what it asks for and for the key of its answer.
    fn replies_at_rest(
        &mut self,
        table: &mut SessionTable,
        setup: &Setup<'_>,
        round: &Round,
        answer: &[u8],
    ) -> Result<Result<Continuation, Why>, OutOfMemory>
        requires { length answer.now ≤ MAX_BODY_SIZE }
        ensures told { (w : Configuration) (q : ReqSetup) (older : List (List ℕ)) (rows : List Row)
            (packet : List ℕ) (route : RouteFields) → IsAnswer w q older packet route answer.now
            → length older < 2 ^ 64 - 2 → w.responder.beat < 256
            → round.now ≡ round_of w.responder.eid q.eid older
            → IsSetUp setup.now (towards w.responder (known_of q))
            → answered_why round.now (Whole route answer.now) ≡ None → self.old.fetched ≡ None
            → conversations.StandsFor self.old.talk w q older rows
            → StandsForRows table.old w (length older) rows
            → IfOk result (λ told. IsJudgedAnswer w q older rows packet route answer.now told self.new
            table.new) }
        ensures memory { OnErr result (IsSome (id_begun (response_of (drop 1 answer.now)))) }
    {
        if self.talk.large.is_some() {
            return self.talk.replies(table, setup, round, answer);
        }
        self.talk.party.prepare(round.body());
        if self.talk.party.coming.asks(GET_MEASUREMENTS) {
            return self.begins_session(table, setup, round, answer);
        }
        self.begins_other(table, setup, round, answer)
    }

    // The same while a large response is fetched. A function of its own: at entry a function clears the stack of its
    // values, and what is fetched is large.
    fn replies_meanwhile(
        &mut self,
        table: &mut SessionTable,
        setup: &Setup<'_>,
        round: &Round,
        answer: &[u8],
    ) -> Result<Result<Continuation, Why>, OutOfMemory>
        requires { length answer.now ≤ MAX_BODY_SIZE }
        ensures told { (w : Configuration) (q : ReqSetup) (older : List (List ℕ)) (rows : List Row)
            (packet : List ℕ) (route : RouteFields) → IsAnswer w q older packet route answer.now
            → length older < 2 ^ 64 - 2 → w.responder.beat < 256
            → round.now ≡ round_of w.responder.eid q.eid older
            → IsSetUp setup.now (towards w.responder (known_of q))
            → answered_why round.now (Whole route answer.now) ≡ None
            → StandsFor self.old w q older rows → StandsForRows table.old w (length older) rows
            → IfOk result (λ told. IsJudgedAnswer w q older rows packet route answer.now told self.new
            table.new) }
        ensures memory { OnErr result (MayBegin self.old.fetched answer.now) }
    {
        match self.fetched.take() {
            None => self.replies_at_rest(table, setup, round, answer),
            Some(Fetch::InSession(fetched)) => self.replies_fetched(
                fetched, table, setup, round, answer,
            ),
            Some(Fetch::InClear(held)) => self.replies_clear(held, table, setup, round, answer),
        }
    }

    /// Handles a complete response of at most 4,161 bytes, next in order after this round: it is accepted and the
    /// session table updated; or the requester requests a chunk in response where nothing is fetched, which is left
    /// unjudged, and why it is refused where no walk goes on with it; or no walk accepts it, with a reason. But for the
    /// first, the state and the table are then unspecified. An `Err` means that memory ran out for the table entry of a
    /// session that PSK_EXCHANGE_RSP began; the state is then unspecified.
    pub fn replies(
        &mut self,
        table: &mut SessionTable,
        setup: &Setup<'_>,
        round: &Round,
        answer: &[u8],
    ) -> Result<Result<Continuation, Why>, OutOfMemory>
        requires { length answer.now ≤ MAX_BODY_SIZE }
        ensures told { (w : Configuration) (q : ReqSetup) (older : List (List ℕ)) (rows : List Row)
            (packet : List ℕ) (route : RouteFields) → IsAnswer w q older packet route answer.now
            → length older < 2 ^ 64 - 2 → w.responder.beat < 256
            → round.now ≡ round_of w.responder.eid q.eid older
            → IsSetUp setup.now (towards w.responder (known_of q))
            → answered_why round.now (Whole route answer.now) ≡ None
            → StandsFor self.old w q older rows → StandsForRows table.old w (length older) rows
            → IfOk result (λ told. IsJudgedAnswer w q older rows packet route answer.now told self.new
            table.new) }
        ensures memory { OnErr result (MayBegin self.old.fetched answer.now) }
    {
        if self.fetched.is_some() {
            return self.replies_meanwhile(table, setup, round, answer);
        }
        self.replies_at_rest(table, setup, round, answer)
    }
}
