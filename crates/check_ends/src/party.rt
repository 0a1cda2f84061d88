ghost use Rattle.std.specs.Prelude.{◌≡◌, Err, Ok, if◌then◌else◌};
ghost use Rattle.check_requester.specs.JudgedRequester.{is_first_chunk};
ghost use Rattle.check_ends.specs.declared.continuation.Continuation.TheVariants as onward;
ghost use Rattle.spdm_grammar.specs.declared.names.TheConstants.{MAX_BODY_SIZE};

use crate::Continuation;
use check_laws::{Places, Round, SessionTable};
use check_requester::{JudgedRequester, is_first_chunk};
use check_responder::{AnswerKeys, JudgedResponder, PreparedRequest};
use responder_core::Setup;
use spdm_basis::{OutOfMemory, RecordFrame};
use spdm_grammar::Why;
use std::alloc::Global;

/// A requester of a capture and the responder towards it, while no large message is in progress: what the two ends
/// hold, and the keys of answers that were given; its number, and where its entries stand in the table of sessions. It
/// judges requests and answers whose order is right, and tells the table of those that go on. Allocates only when
/// constructed (read, not proved).
#[derive(Drop)]
pub struct Party {
    /// The requester.
    pub asker: JudgedRequester,
    /// The responder towards it.
    pub answerer: JudgedResponder,
    /// The keys of answers that were given.
    pub keys: AnswerKeys,
    /// The requester's number, counted from 1.
    pub number: u8,
    /// Where its entries stand in the table of sessions.
    pub places: Places,
    /// What is known of the request whose answer is judged. Meaningless between two calls.
    pub coming: PreparedRequest,
    /// Room for the text of a record. Scratch space.
    pub text: RecordFrame,
}

// What is reported of a request that is refused for this: its body may be the first chunk of a large one.
fn refused(why: Why, body: &[u8]) -> Result<Continuation, Why>
    ensures { result ≡ (if is_first_chunk body.now then Ok onward.Large else Err why) }
{
    if is_first_chunk(body) {
        return Ok(Continuation::Large);
    }
    Err(why)
}

impl Party {
    ghost use Rattle.std.specs.Prelude.{◌≡◌, ◌≤◌, ◌<◌, ◌-◌, ◌^◌, ℕ, List, [], None, Ok, IfOk, OnErr, length};
    ghost use Rattle.responder_core.specs.Setup.{IsSetUp};
    ghost use Rattle.mctp_framing.specs.Cutting.{RouteFields};
    ghost use Rattle.mctp_framing.specs.Gathering.Gathered.{Whole};
    ghost use Rattle.requester_machine.specs.Setup.{ReqSetup};
    ghost use Rattle.check_requester.specs.JudgedRequester.{Carries, IsAsker};
    ghost use Rattle.check_laws.specs.Keeping.{Keeps, Kept, kept_of};
    ghost use Rattle.check_laws.specs.Order.{asked_why};
    ghost use Rattle.check_ends.specs.Party.{IsAsked, IsAskedBeside, IsBeside, IsParty};
    ghost use Rattle.check_laws.specs.RepliesShown.{responder_for};
    ghost use Rattle.check_laws.specs.Rows.{StandsForRows};
    ghost use Rattle.capture_machine.specs.Rounds.{new_dialogue};
    ghost use Rattle.capture_machine.specs.SessionTable.{Row, number_from};
    ghost use Rattle.world_machine.specs.Setup.{Configuration};

    /// A requester with this number, counted from 1, of which nothing came yet, and the responder that is set up so
    /// towards it. The table of sessions has no entries.
    pub fn new(
        alloc: Global,
        asker: JudgedRequester,
        number: u8,
        setup: &Setup<'_>,
    ) -> Result<Party, OutOfMemory>
        ensures { (w : Configuration) (q : ReqSetup) → IsAsker asker q (kept_of (new_dialogue q))
            → number ≡ number_from 1 q.eid w.requesters
            → IsSetUp setup.now (responder_for w (kept_of (new_dialogue q)))
            → IfOk result (λ party. IsParty party w q (kept_of (new_dialogue q)) []) }
    {
        let answerer = JudgedResponder::new(alloc, setup)?;
        Ok(Party {
            asker,
            answerer,
            keys: AnswerKeys::new(),
            number,
            places: Places::new(),
            coming: PreparedRequest::new(),
            text: RecordFrame::new(),
        })
    }

    /// Handles a complete request of at most 4,161 bytes with its tag, next in order after this round: it is accepted
    /// and the session table updated; or it is refused with a reason, and the table is unchanged. The state is then
    /// unspecified, and where it may begin a large request.
    pub fn asks(
        &mut self,
        table: &mut SessionTable,
        round: &Round,
        tag: u8,
        body: &[u8],
    ) -> Result<Continuation, Why>
        ensures told { (w : Configuration) (q : ReqSetup) (older : List (List ℕ)) (rows : List Row)
            (k : Kept) (route : RouteFields) → Keeps w q older k → length older < 2 ^ 64 - 1
            → length body.now ≤ MAX_BODY_SIZE → round.now ≡ k.round → route.tag ≡ tag
            → asked_why k.round (Whole route body.now) ≡ None → IsParty self.old w q k rows
            → StandsForRows table.old w (length older) rows
            → IsAsked w q older rows k route body.now result self.new table.new }
        ensures stays { (result ≡ Ok onward.Kept → ⊥) → table.new ≡ table.old }
    {
        match self.asks_whole(table, round, tag, body) {
            Ok(()) => Ok(Continuation::Kept),
            Err(why) => refused(why, body),
        }
    }

    /// The same of a request that goes whole, at any place where no large request is sent: it goes on, or why it is
    /// refused as such a one. The responder's connection is not asked.
    pub fn asks_whole(
        &mut self,
        table: &mut SessionTable,
        round: &Round,
        tag: u8,
        body: &[u8],
    ) -> Result<(), Why>
        ensures told { (w : Configuration) (q : ReqSetup) (older : List (List ℕ)) (rows : List Row)
            (k : Kept) (route : RouteFields) → Carries w q older k → length older < 2 ^ 64 - 1
            → length body.now ≤ MAX_BODY_SIZE → round.now ≡ k.round → route.tag ≡ tag
            → asked_why k.round (Whole route body.now) ≡ None → IsBeside self.old w q k rows
            → StandsForRows table.old w (length older) rows
            → IsAskedBeside w q older rows k route body.now result self.new table.new }
        ensures answerer { self.new.answerer ≡ self.old.answerer }
        ensures keys { self.new.keys ≡ self.old.keys }
        ensures stays { OnErr result (table.new ≡ table.old) }
    {
        if round.is_copy(tag, body) {
            table.ask(&self.places, None);
            return Ok(());
        }
        if !round.may_begin(body) {
            return Err(self.asker.why(body));
        }
        match self.asker.judge(body) {
            Ok(()) => {
                table.ask(&self.places, self.asker.sent());
                Ok(())
            }
            Err(why) => Err(why),
        }
    }
}
