ghost use Rattle.spdm_grammar.specs.declared.names.TheConstants.{MAX_BODY_SIZE};
ghost use Rattle.spdm_grammar.specs.declared.names.message_type.TheConstants.{SPDM};

use crate::clear_fetch::late_begins::{begins_late, may_begin_late};
use crate::judged_replies::is_clear;
use crate::marked_ends::{is_live_in, moves_behind, repeats_clear, repeats_record};
use crate::marking::move_marks;
use crate::{BegunAgain, BegunHeld, Fetch, JudgedEnds, begins_again};
use check_ends::{Continuation, Party};
use check_late_laws::Marks;
use check_laws::{Round, SessionTable};
use responder_core::{Setup, record_id};
use session_keys::behind_type;
use spdm_basis::OutOfMemory;
use spdm_grammar::Why;

/// A requester of a capture and the responder towards it, at any place, and which sessions were touched since the
/// newest request in the clear that was taken: by that a fetch that begins late is judged.
#[derive(Drop)]
pub struct MarkedEnds {
    /// What is kept of both, and of the large response that is fetched.
    pub ends: JudgedEnds,
    /// A mark for each session that was touched.
    pub marks: Marks,
}

impl MarkedEnds {
    ghost use Rattle.std.specs.Prelude.{◌≡◌, ◌≤◌, ◌<◌, ◌-◌, ◌^◌, ◌==◌, ℕ, List, [], None, IfOk, OnErr, true, false, length, slice_index};
    ghost use Rattle.check_ends.specs.Conversation.{IsAnswer, IsRequest};
    ghost use Rattle.check_ends.specs.Party.{IsParty};
    ghost use Rattle.check_laws.specs.Keeping.{kept_of};
    ghost use Rattle.check_laws.specs.Order.{answered_why, asked_why, body_in, round_of};
    ghost use Rattle.check_laws.specs.Rows.{StandsForRows};
    ghost use Rattle.responder_core.specs.Connected as connected;
    ghost use Rattle.responder_core.specs.Setup.{IsSetUp};
    ghost use Rattle.check_fetched_ends.specs.JudgedEnds.{MayBegin};
    ghost use Rattle.check_fetched_ends.specs.MarkedEnds.{IsAskedOf, IsJudgedAnswer, IsMovedAnswer, NoneAsked, StandsFor, may_come_again};
    ghost use Rattle.mctp_framing.specs.Cutting.{RouteFields};
    ghost use Rattle.mctp_framing.specs.Gathering.Gathered.{Whole};
    ghost use Rattle.requester_machine.specs.Setup.{ReqSetup};
    ghost use Rattle.responder_machine.specs.History.{History};
    ghost use Rattle.responder_machine.specs.Setup.{RspSetup, towards};
    ghost use Rattle.capture_machine.specs.Rounds.{new_dialogue};
    ghost use Rattle.capture_machine.specs.SessionTable.{Row};
    ghost use Rattle.world_machine.specs.Setup.{Configuration, known_of};

    /// The initial state, before any message.
    pub fn new(party: Party) -> MarkedEnds
        ensures { (w : Configuration) (q : ReqSetup) → IsParty party w q (kept_of (new_dialogue q)) []
            → StandsFor result w q [] [] }
    {
        MarkedEnds {
            ends: JudgedEnds::new(party),
            marks: Marks::new(),
        }
    }

    /// Handles a complete request of at most 4,161 bytes with its tag, next in order after this round: as
    /// `JudgedEnds::asks` tells. It leaves the marks.
    pub fn asks(
        &mut self,
        table: &mut SessionTable,
        round: &Round,
        tag: u8,
        body: &[u8],
    ) -> Result<(), Why>
        ensures told { (w : Configuration) (q : ReqSetup) (older : List (List ℕ)) (rows : List Row)
            (packet : List ℕ) (route : RouteFields) → IsRequest w q older packet route body.now
            → length older < 2 ^ 64 - 1 → length body.now ≤ MAX_BODY_SIZE → route.tag ≡ tag
            → round.now ≡ round_of w.responder.eid q.eid older
            → asked_why round.now (Whole route body.now) ≡ None → StandsFor self.old w q older rows
            → StandsForRows table.old w (length older) rows
            → IsAskedOf w q older rows packet (Whole route body.now) result self.new table.new }
        ensures stays { OnErr result (table.new ≡ table.old) }
    {
        self.ends.asks(table, round, tag, body)
    }

    // An answer came: as `JudgedEnds::replies` tells, and where it goes on the marks go on too.
    fn replies_on(
        &mut self,
        table: &mut SessionTable,
        setup: &Setup<'_>,
        round: &Round,
        answer: &[u8],
    ) -> Result<Result<Continuation, Why>, OutOfMemory>
        requires { length answer.now ≤ MAX_BODY_SIZE }
        ensures told { (w : Configuration) (q : ReqSetup) (older : List (List ℕ)) (rows : List Row)
            (packet : List ℕ) (route : RouteFields) → IsAnswer w q older packet route answer.now
            → length older < 2 ^ 64 - 2 → w.responder.beat < 256
            → round.now ≡ round_of w.responder.eid q.eid older
            → IsSetUp setup.now (towards w.responder (known_of q))
            → answered_why round.now (Whole route answer.now) ≡ None
            → StandsFor self.old w q older rows → StandsForRows table.old w (length older) rows
            → IfOk result (λ told. IsMovedAnswer w q older rows packet route answer.now told self.new
            table.new) }
        ensures memory { OnErr result (MayBegin self.old.ends.fetched answer.now) }
    {
        let body = round.body();
        let tag = round.tag();
        let message = behind_type(body);
        let repeats = repeats_clear(&self.ends, tag, message);
        let kept = repeats_record(&self.ends, message);
        let live = is_live_in(&self.ends, message);
        let clear = is_clear(body);
        match self.ends.replies(table, setup, round, answer)? {
            Ok(Continuation::Kept) => {
                let moves = moves_behind(&self.ends, tag, body, answer, repeats, kept, live);
                move_marks(&mut self.marks, clear, moves, record_id(message).rsp);
                Ok(Ok(Continuation::Kept))
            }
            Ok(Continuation::Large) => Ok(Ok(Continuation::Large)),
            Ok(Continuation::Asked(why)) => Ok(Ok(Continuation::Asked(why))),
            Err(why) => Ok(Err(why)),
        }
    }

    // An answer came: it goes on, or why it is refused. Where the requester asks for a chunk on an answer that goes
    // whole, no walk goes on with it; and none is a part of a large response that is left.
    fn judges(
        &mut self,
        table: &mut SessionTable,
        setup: &Setup<'_>,
        round: &Round,
        answer: &[u8],
    ) -> Result<Result<(), Why>, OutOfMemory>
        requires { length answer.now ≤ MAX_BODY_SIZE }
        ensures told { (w : Configuration) (q : ReqSetup) (older : List (List ℕ)) (rows : List Row)
            (packet : List ℕ) (route : RouteFields) → IsAnswer w q older packet route answer.now
            → length older < 2 ^ 64 - 2 → w.responder.beat < 256
            → round.now ≡ round_of w.responder.eid q.eid older
            → IsSetUp setup.now (towards w.responder (known_of q))
            → answered_why round.now (Whole route answer.now) ≡ None
            → NoneAsked w q older packet route.tag answer.now
            → StandsFor self.old w q older rows → StandsForRows table.old w (length older) rows
            → IfOk result (λ told. IsJudgedAnswer w q older rows packet route answer.now told self.new
            table.new) }
        ensures memory { OnErr result (MayBegin self.old.ends.fetched answer.now) }
    {
        match self.replies_on(table, setup, round, answer)? {
            Ok(Continuation::Kept) => Ok(Ok(())),
            Ok(Continuation::Large) => Ok(Err(Why::BadReply)),
            Ok(Continuation::Asked(why)) => Ok(Err(why)),
            Err(why) => Ok(Err(why)),
        }
    }

    // An answer to a message in the clear came where no large message is in progress: a fetch may begin late by it. A
    // function of its own, since a function zeroes its locals on entry, and the state of a large response is large.
    fn begins_in_clear(
        &mut self,
        table: &mut SessionTable,
        setup: &Setup<'_>,
        round: &Round,
        answer: &[u8],
    ) -> Result<Result<(), Why>, OutOfMemory>
        requires { length answer.now ≤ MAX_BODY_SIZE }
        ensures told { (w : Configuration) (q : ReqSetup) (older : List (List ℕ)) (rows : List Row)
            (packet : List ℕ) (route : RouteFields) → IsAnswer w q older packet route answer.now
            → length older < 2 ^ 64 - 2 → w.responder.beat < 256
            → round.now ≡ round_of w.responder.eid q.eid older
            → IsSetUp setup.now (towards w.responder (known_of q))
            → answered_why round.now (Whole route answer.now) ≡ None
            → (slice_index (body_in round.now) 0 == SPDM) ≡ true
            → self.old.ends.fetched ≡ None → self.old.ends.talk.large ≡ None
            → StandsFor self.old w q older rows → StandsForRows table.old w (length older) rows
            → IfOk result (λ told. IsJudgedAnswer w q older rows packet route answer.now told self.new
            table.new) }
        ensures memory { OnErr result (MayBegin self.old.ends.fetched answer.now) }
    {
        let party = &mut self.ends.talk.party;
        match begins_late(party, table, setup, &self.marks, round, answer)? {
            BegunHeld::Not => self.judges(table, setup, round, answer),
            BegunHeld::Passed => Ok(Ok(())),
            BegunHeld::Fetching(held) => {
                self.ends.fetched = Some(Fetch::InClear(held));
                Ok(Ok(()))
            }
        }
    }

    // The same of an answer to a record, and of a fetch in a session.
    fn begins_in_session(
        &mut self,
        table: &mut SessionTable,
        setup: &Setup<'_>,
        round: &Round,
        answer: &[u8],
    ) -> Result<Result<(), Why>, OutOfMemory>
        requires { length answer.now ≤ MAX_BODY_SIZE }
        ensures told { (w : Configuration) (q : ReqSetup) (older : List (List ℕ)) (rows : List Row)
            (packet : List ℕ) (route : RouteFields) → IsAnswer w q older packet route answer.now
            → length older < 2 ^ 64 - 2 → w.responder.beat < 256
            → round.now ≡ round_of w.responder.eid q.eid older
            → IsSetUp setup.now (towards w.responder (known_of q))
            → answered_why round.now (Whole route answer.now) ≡ None
            → (slice_index (body_in round.now) 0 == SPDM) ≡ false
            → self.old.ends.fetched ≡ None → self.old.ends.talk.large ≡ None
            → StandsFor self.old w q older rows → StandsForRows table.old w (length older) rows
            → IfOk result (λ told. IsJudgedAnswer w q older rows packet route answer.now told self.new
            table.new) }
        ensures memory { OnErr result (MayBegin self.old.ends.fetched answer.now) }
    {
        let party = &mut self.ends.talk.party;
        match begins_again(party, table, setup, round, answer)? {
            BegunAgain::Not => self.judges(table, setup, round, answer),
            BegunAgain::Passed => Ok(Ok(())),
            BegunAgain::Fetching(fetched) => {
                self.ends.fetched = Some(Fetch::InSession(fetched));
                Ok(Ok(()))
            }
        }
    }

    // Whether an answer may be LargeResponse again, where no large message is in progress: to GET_MEASUREMENTS or
    // PSK_EXCHANGE in the clear, or to the last record that its session took.
    fn may_come_again(&self, body: &[u8], answer: &[u8]) -> bool
        ensures { (r : RspSetup) (h : History)
            → connected.StandsFor self.now.ends.talk.party.answerer.connection r h
            → result ≡ may_come_again h body.now answer.now }
    {
        if is_clear(body) {
            return may_begin_late(body, answer);
        }
        let connection = &self.ends.talk.party.answerer.connection;
        connection.repeats_last(behind_type(body))
    }

    /// Handles a complete response of at most 4,161 bytes, next in order after this round: it is accepted and the
    /// session table updated; or no walk accepts it, with a reason, and state and table are then unspecified. An `Err`
    /// means that memory ran out for the table entry of a session that PSK_EXCHANGE_RSP began; the state is then
    /// unspecified.
    pub fn replies(
        &mut self,
        table: &mut SessionTable,
        setup: &Setup<'_>,
        round: &Round,
        answer: &[u8],
    ) -> Result<Result<(), Why>, OutOfMemory>
        requires { length answer.now ≤ MAX_BODY_SIZE }
        ensures told { (w : Configuration) (q : ReqSetup) (older : List (List ℕ)) (rows : List Row)
            (packet : List ℕ) (route : RouteFields) → IsAnswer w q older packet route answer.now
            → length older < 2 ^ 64 - 2 → w.responder.beat < 256
            → round.now ≡ round_of w.responder.eid q.eid older
            → IsSetUp setup.now (towards w.responder (known_of q))
            → answered_why round.now (Whole route answer.now) ≡ None
            → StandsFor self.old w q older rows → StandsForRows table.old w (length older) rows
            → IfOk result (λ told. IsJudgedAnswer w q older rows packet route answer.now told self.new
            table.new) }
        ensures memory { OnErr result (MayBegin self.old.ends.fetched answer.now) }
    {
        if self.ends.fetched.is_some() {
            return self.judges(table, setup, round, answer);
        }
        if self.ends.talk.large.is_some() {
            return self.judges(table, setup, round, answer);
        }
        let body = round.body();
        if !self.may_come_again(body, answer) {
            return self.judges(table, setup, round, answer);
        }
        if is_clear(body) {
            return self.begins_in_clear(table, setup, round, answer);
        }
        self.begins_in_session(table, setup, round, answer)
    }
}
