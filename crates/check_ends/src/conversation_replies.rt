use crate::{Continuation, Conversation, Party};
use check_laws::{
    LargeRequest, Round, SessionTable, ack_accepts_none, answer_asks_none, walks_step,
};
use check_responder::{Given, Judged};
use responder_core::Setup;
use spdm_basis::OutOfMemory;
use spdm_grammar::Why;

// The answers that a responder gives.
impl Party {
    ghost use Rattle.std.specs.Prelude.{◌≡◌, ◌≤◌, ◌<◌, ◌-◌, ◌^◌, ℕ, List, None, Some, Ok, IfOk, OnErr, IsSome, drop, length};
    ghost use Rattle.spdm_grammar.specs.declared.names.TheConstants.{MAX_BODY_SIZE};
    ghost use Rattle.responder_core.specs.Setup.{IsSetUp};
    ghost use Rattle.mctp_framing.specs.Cutting.{RouteFields};
    ghost use Rattle.mctp_framing.specs.Gathering.Gathered.{Whole};
    ghost use Rattle.requester_machine.specs.Setup.{ReqSetup};
    ghost use Rattle.check_ends.specs.Conversation.{IsAnswer, IsJudgedAnswer, IsUnderWay};
    ghost use Rattle.check_laws.specs.DropsShown.{id_begun, response_of};
    ghost use Rattle.check_laws.specs.Order.{answered_why};
    ghost use Rattle.check_laws.specs.RepliesShown.{responder_for};
    ghost use Rattle.check_laws.specs.Rows.{StandsForRows};
    ghost use Rattle.check_ends.specs.declared.continuation.Continuation.TheVariants as onward;
    ghost use Rattle.check_laws.specs.Large.Sending.{Sending};
    ghost use Rattle.capture_machine.specs.SessionTable.{Row};
    ghost use Rattle.world_machine.specs.Setup.{Configuration};

    // An answer came while a large request is in progress: it goes on, and is taken for the acknowledgement of the last
    // chunk, unless the next one is owed; or why it is refused. No large response begins or ends by it.
    pub(crate) fn replies_meanwhile(
        &mut self,
        large: &mut LargeRequest,
        table: &mut SessionTable,
        setup: &Setup<'_>,
        round: &Round,
        answer: &[u8],
    ) -> Result<Result<Continuation, Why>, OutOfMemory>
        requires { length answer.now ≤ MAX_BODY_SIZE }
        ensures told { (w : Configuration) (q : ReqSetup) (older : List (List ℕ)) (rows : List Row)
            (packet : List ℕ) (route : RouteFields) (s : Sending)
            → IsAnswer w q older packet route answer.now → length older < 2 ^ 64 - 2
            → w.responder.beat < 256 → round.now ≡ Some s.round
            → IsSetUp setup.now (responder_for w s.before)
            → answered_why (Some s.round) (Whole route answer.now) ≡ None
            → IsUnderWay self.old large.old w q older rows s
            → StandsForRows table.old w (length older) rows
            → IfOk result (λ told. IsJudgedAnswer w q older rows packet route answer.now told self.new
            (Some large.new) table.new) }
        ensures stays { IfOk result (λ told. (told ≡ Ok onward.Kept → ⊥) → table.new ≡ table.old) }
        ensures memory { OnErr result (IsSome (id_begun (response_of (drop 1 answer.now)))) }
    {
        walks_step();
        answer_asks_none();
        ack_accepts_none();
        let body = round.body();
        let why = self.answerer.reply_why(&self.keys, body, answer);
        let key = self.answerer.coming_key(body);
        let begun = self.answerer.begun(round.tag(), body, answer);
        let taken = self.answerer.taken(body, answer);
        match self.answerer.judges(setup, round.tag(), body, answer) {
            Judged::Given(Given::Whole) => {
                self.keys.follow(&self.answerer.connection, body, key);
                let change = self.change(begun, None, taken);
                table.take(&mut self.places, self.number, &change)?;
                large.acknowledge();
                Ok(Ok(Continuation::Kept))
            }
            // A chunk that is not the last one leads to neither.
            Judged::Given(Given::Large) => Ok(Err(why)),
            Judged::Given(Given::Last) => Ok(Err(why)),
            Judged::Apart => Ok(Err(Why::BadVerify)),
            Judged::Refused => Ok(Err(why)),
        }
    }
}

impl Conversation {
    ghost use Rattle.std.specs.Prelude.{◌≡◌, ◌≤◌, ◌<◌, ◌-◌, ◌^◌, ℕ, List, None, Ok, IfOk, OnErr, IsSome, drop, length};
    ghost use Rattle.spdm_grammar.specs.declared.names.TheConstants.{MAX_BODY_SIZE};
    ghost use Rattle.responder_core.specs.Setup.{IsSetUp};
    ghost use Rattle.mctp_framing.specs.Cutting.{RouteFields};
    ghost use Rattle.mctp_framing.specs.Gathering.Gathered.{Whole};
    ghost use Rattle.requester_machine.specs.Setup.{ReqSetup};
    ghost use Rattle.responder_machine.specs.Setup.{towards};
    ghost use Rattle.check_ends.specs.Conversation.{IsAnswer, IsJudgedAnswer, StandsFor};
    ghost use Rattle.check_laws.specs.DropsShown.{id_begun, response_of};
    ghost use Rattle.check_laws.specs.Order.{answered_why, round_of};
    ghost use Rattle.check_laws.specs.Rows.{StandsForRows};
    ghost use Rattle.check_ends.specs.declared.continuation.Continuation.TheVariants as onward;
    ghost use Rattle.capture_machine.specs.SessionTable.{Row};
    ghost use Rattle.world_machine.specs.Setup.{Configuration, known_of};

    // The same where a large request is in progress. A function of its own: at entry a function clears the stack of its
    // values, and a large request is large.
    fn replies_largely(
        &mut self,
        table: &mut SessionTable,
        setup: &Setup<'_>,
        round: &Round,
        answer: &[u8],
    ) -> Result<Result<Continuation, Why>, OutOfMemory>
        requires { length answer.now ≤ MAX_BODY_SIZE }
        ensures told { (w : Configuration) (q : ReqSetup) (older : List (List ℕ)) (rows : List Row)
            (packet : List ℕ) (route : RouteFields) → IsAnswer w q older packet route answer.now
            → length older < 2 ^ 64 - 2 → w.responder.beat < 256
            → round.now ≡ round_of w.responder.eid q.eid older
            → IsSetUp setup.now (towards w.responder (known_of q))
            → answered_why round.now (Whole route answer.now) ≡ None
            → StandsFor self.old w q older rows → StandsForRows table.old w (length older) rows
            → IfOk result (λ told. IsJudgedAnswer w q older rows packet route answer.now told self.new.party
            self.new.large table.new) }
        ensures stays { IfOk result (λ told. (told ≡ Ok onward.Kept → ⊥) → table.new ≡ table.old) }
        ensures memory { OnErr result (IsSome (id_begun (response_of (drop 1 answer.now)))) }
    {
        match self.large.take() {
            None => self.party.replies(table, setup, round, answer),
            Some(mut large) => {
                let told = self
                    .party
                    .replies_meanwhile(&mut large, table, setup, round, answer);
                self.large = Some(large);
                told
            }
        }
    }

    /// Handles a complete response of at most 4,161 bytes, next in order after this round: it is accepted and the
    /// session table updated; or it is a part of a large response, where no large request is sent; or no walk accepts
    /// it, with a reason. But for the first, the table stays, and the state is then unspecified. An `Err` means that
    /// memory ran out for the table entry of a session that PSK_EXCHANGE_RSP began; the state is then unspecified.
    pub fn replies(
        &mut self,
        table: &mut SessionTable,
        setup: &Setup<'_>,
        round: &Round,
        answer: &[u8],
    ) -> Result<Result<Continuation, Why>, OutOfMemory>
        requires { length answer.now ≤ MAX_BODY_SIZE }
        ensures told { (w : Configuration) (q : ReqSetup) (older : List (List ℕ)) (rows : List Row)
            (packet : List ℕ) (route : RouteFields) → IsAnswer w q older packet route answer.now
            → length older < 2 ^ 64 - 2 → w.responder.beat < 256
            → round.now ≡ round_of w.responder.eid q.eid older
            → IsSetUp setup.now (towards w.responder (known_of q))
            → answered_why round.now (Whole route answer.now) ≡ None
            → StandsFor self.old w q older rows → StandsForRows table.old w (length older) rows
            → IfOk result (λ told. IsJudgedAnswer w q older rows packet route answer.now told self.new.party
            self.new.large table.new) }
        ensures stays { IfOk result (λ told. (told ≡ Ok onward.Kept → ⊥) → table.new ≡ table.old) }
        ensures memory { OnErr result (IsSome (id_begun (response_of (drop 1 answer.now)))) }
    {
        if self.large.is_some() {
            return self.replies_largely(table, setup, round, answer);
        }
        self.party.replies(table, setup, round, answer)
    }
}
