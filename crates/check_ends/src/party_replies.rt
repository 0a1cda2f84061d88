ghost use Rattle.spdm_grammar.specs.declared.names.TheConstants.{MAX_BODY_SIZE};

use crate::{Continuation, Party};
use check_laws::{Change, Round, SessionTable};
use check_requester::AnswerEffect;
use check_responder::{Given, Judged, reason_for};
use responder_core::Setup;
use responder_session::AnswerKey;
use spdm_basis::OutOfMemory;
use spdm_grammar::Why;

// The answers that a responder gives.
impl Party {
    ghost use Rattle.std.specs.Prelude.{◌≡◌, ◌≤◌, ◌<◌, ◌-◌, ◌^◌, ℕ, List, None, Some, Ok, IfOk, OnErr, IsSome, drop, length};
    ghost use Rattle.responder_core.specs.Setup.{IsSetUp};
    ghost use Rattle.mctp_framing.specs.Cutting.{RouteFields};
    ghost use Rattle.mctp_framing.specs.Gathering.Gathered.{Whole};
    ghost use Rattle.requester_machine.specs.History.{outstanding};
    ghost use Rattle.requester_machine.specs.Setup.{ReqSetup};
    ghost use Rattle.responder_machine.specs.Answer.{Free};
    ghost use Rattle.responder_machine.specs.BoundLaws.{messages_of};
    ghost use Rattle.responder_machine.specs.History.{History};
    ghost use Rattle.responder_machine.specs.May.{on_body, with_dropped};
    ghost use Rattle.responder_machine.specs.Responder.{after};
    ghost use Rattle.responder_machine.specs.Setup.{RspSetup};
    ghost use Rattle.spdm_machine.specs.Keys.{Draw};
    ghost use Rattle.check_responder.specs.AnswerKeys.{IsComing, IsComingKey, StandFor};
    ghost use Rattle.check_responder.specs.JudgedResponder.{IsAnswerer};
    ghost use Rattle.check_requester.specs.JudgedRequester.{Carries, IsAsker};
    ghost use Rattle.check_requester.specs.HeardKept.{asks_upon, heard_kept};
    ghost use Rattle.check_laws.specs.Changes.{views_in};
    ghost use Rattle.check_laws.specs.DropsShown.{id_begun, response_of};
    ghost use Rattle.check_laws.specs.Keeping.{Keeps, Kept, restored};
    ghost use Rattle.check_laws.specs.KeptChanges.{accepted_from};
    ghost use Rattle.check_laws.specs.Order.{answered_why, body_in, tag_in};
    ghost use Rattle.check_ends.specs.Party.{IsParty};
    ghost use Rattle.check_ends.specs.PartyReplies.{IsReplied};
    ghost use Rattle.check_laws.specs.RepliesShown.{responder_for};
    ghost use Rattle.check_laws.specs.Rows.{StandsForRows};
    ghost use Rattle.check_ends.specs.declared.continuation.Continuation.TheVariants as onward;
    ghost use Rattle.capture_machine.specs.LargeAnswers.{is_fetching};
    ghost use Rattle.capture_machine.specs.Rounds as rounds;
    ghost use Rattle.capture_machine.specs.SessionTable.{Row};
    ghost use Rattle.world_machine.specs.Setup.{Configuration};

    /// Prepares for the answer to a request, before it is judged: what is known of the request is kept, and all else is
    /// unchanged. Requires fewer than 2^64 - 1 received messages.
    pub fn prepare(&mut self, body: &[u8])
        ensures coming { (r : RspSetup) (h : History) → IsAnswerer self.old.answerer r h
            → messages_of h < 2 ^ 64 - 1 → IsComing self.new.coming r h body.now }
        ensures same { self.new ≡ record self.old { coming = self.new.coming } }
    {
        self.answerer.prepare(body, &mut self.coming);
    }

    /// Handles a complete response of at most 4,161 bytes, next in order after this round: it is accepted and the
    /// session table updated; or it is refused with a reason, and the table is unchanged. The state is then
    /// unspecified, and where it is a part of a large response, or the requester requests a chunk in response. An `Err`
    /// means that memory ran out for the table entry of a session that PSK_EXCHANGE_RSP began; the state is then
    /// unspecified.
    pub fn replies(
        &mut self,
        table: &mut SessionTable,
        setup: &Setup<'_>,
        round: &Round,
        answer: &[u8],
    ) -> Result<Result<Continuation, Why>, OutOfMemory>
        requires { length answer.now ≤ MAX_BODY_SIZE }
        ensures told { (w : Configuration) (q : ReqSetup) (older : List (List ℕ)) (rows : List Row)
            (k : Kept) (route : RouteFields) → Keeps w q older k → length older < 2 ^ 64 - 2
            → w.responder.beat < 256 → round.now ≡ k.round
            → IsSetUp setup.now (responder_for w k)
            → answered_why k.round (Whole route answer.now) ≡ None → IsParty self.old w q k rows
            → StandsForRows table.old w (length older) rows
            → IfOk result (λ told. IsReplied w q older rows k route answer.now told self.new table.new) }
        ensures stays { IfOk result (λ told. (told ≡ Ok onward.Kept → ⊥) → table.new ≡ table.old) }
        ensures memory { OnErr result (IsSome (id_begun (response_of (drop 1 answer.now)))) }
    {
        self.prepare(round.body());
        self.replies_prepared(table, setup, round, answer)
    }

    /// The same, where this round's request was prepared for.
    pub fn replies_prepared(
        &mut self,
        table: &mut SessionTable,
        setup: &Setup<'_>,
        round: &Round,
        answer: &[u8],
    ) -> Result<Result<Continuation, Why>, OutOfMemory>
        requires { length answer.now ≤ MAX_BODY_SIZE }
        ensures told { (w : Configuration) (q : ReqSetup) (older : List (List ℕ)) (rows : List Row)
            (k : Kept) (route : RouteFields) → Keeps w q older k → length older < 2 ^ 64 - 2
            → w.responder.beat < 256 → round.now ≡ k.round
            → IsSetUp setup.now (responder_for w k)
            → answered_why k.round (Whole route answer.now) ≡ None → IsParty self.old w q k rows
            → IsComing self.old.coming (responder_for w k) k.responder (body_in round.now)
            → StandsForRows table.old w (length older) rows
            → IfOk result (λ told. IsReplied w q older rows k route answer.now told self.new table.new) }
        ensures stays { IfOk result (λ told. (told ≡ Ok onward.Kept → ⊥) → table.new ≡ table.old) }
        ensures memory { OnErr result (IsSome (id_begun (response_of (drop 1 answer.now)))) }
    {
        let body = round.body();
        let told = self
            .answerer
            .opening_with(&self.keys, body, &self.coming, answer);
        let begun = self.answerer.begun(round.tag(), body, answer);
        let taken = self.answerer.taken(body, answer);
        match self.answerer.judges_with(
            setup,
            round.tag(),
            body,
            &self.coming,
            answer,
            &mut self.text,
        ) {
            Judged::Given(Given::Whole) => {
                let heard = self.asker.hears(round.tag(), answer, false);
                if heard.fetches {
                    let why = reason_for(told, &self.coming, answer, &mut self.text);
                    return Ok(Ok(Continuation::Asked(why)));
                }
                let key = self.coming.take_key();
                self.keys.follow(&self.answerer.connection, body, key);
                let change = self.change(begun, heard.accepted, taken);
                table.take(&mut self.places, self.number, &change)?;
                Ok(Ok(Continuation::Kept))
            }
            Judged::Given(Given::Large) => Ok(Ok(Continuation::Large)),
            Judged::Given(Given::Last) => Ok(Ok(Continuation::Large)),
            Judged::Apart => Ok(Err(Why::BadVerify)),
            Judged::Refused => Ok(Err(reason_for(told, &self.coming, answer, &mut self.text))),
        }
    }

    /// What an answer changed by which this session was begun, if one was; after it the requester accepted a session
    /// under this ReqSessionID, and the session with this RspSessionID took a record.
    pub fn change(&self, begun: Option<u16>, accepted: Option<u16>, taken: Option<u16>) -> Change
        ensures begun { result.begun ≡ begun }
        ensures accepted { result.accepted ≡ accepted }
        ensures taken { result.answered ≡ taken }
        ensures asked { result.asked ≡ None }
        ensures views { (r : RspSetup) (h : History) → IsAnswerer self.now.answerer r h
            → messages_of h < 2 ^ 64 → result.views ≡ views_in h }
    {
        Change {
            begun,
            accepted,
            answered: taken,
            asked: None,
            views: self.answerer.views(),
        }
    }

    /// An answer was given, with the key of the answer to its request, while the requester awaits a chunk of a large
    /// response or not: both ends go on. The requester's reaction is told. A large response is fetched from then on
    /// where it asks for a chunk.
    pub fn go_on(
        &mut self,
        round: &Round,
        key: Option<AnswerKey>,
        answer: &[u8],
        awaits: bool,
    ) -> AnswerEffect
        ensures answerer { self.new.answerer ≡ self.old.answerer }
        ensures number { self.new.number ≡ self.old.number }
        ensures places { self.new.places ≡ self.old.places }
        ensures keys { (r : RspSetup) (h : History) (ids : List ℕ) (f : Free) (d : Draw)
            → StandFor self.old.keys r h → IsComingKey r h (body_in round.now) key
            → IsAnswerer self.old.answerer r (after (with_dropped h ids)
            (on_body r (with_dropped h ids) (tag_in round.now) (body_in round.now) f d))
            → StandFor self.new.keys r (after (with_dropped h ids)
            (on_body r (with_dropped h ids) (tag_in round.now) (body_in round.now) f d)) }
        ensures asker { (w : Configuration) (q : ReqSetup) (older : List (List ℕ)) (k : Kept)
            (behind : History) (of : rounds.Round) → Carries w q older k
            → length older < 2 ^ 64 - 2 → k.round ≡ Some of → round.now ≡ Some of
            → IsAsker self.old.asker q k
            → IsAsker self.new.asker q (heard_kept k behind of.tag of answer.now) }
        ensures accepted { (w : Configuration) (q : ReqSetup) (older : List (List ℕ)) (k : Kept)
            (of : rounds.Round) → Carries w q older k → length older < 2 ^ 64 - 1
            → k.round ≡ Some of → round.now ≡ Some of → IsAsker self.old.asker q k
            → result.accepted ≡ accepted_from k of.tag answer.now }
        ensures fetches { (w : Configuration) (q : ReqSetup) (older : List (List ℕ)) (k : Kept)
            (of : rounds.Round) → Carries w q older k → length older < 2 ^ 64 - 2
            → k.round ≡ Some of → round.now ≡ Some of → IsAsker self.old.asker q k
            → awaits ≡ is_fetching (outstanding (restored k).requester)
            → result.fetches ≡ asks_upon k of.tag answer.now }
    {
        self.keys
            .follow(&self.answerer.connection, round.body(), key);
        self.asker.hears(round.tag(), answer, awaits)
    }
}
