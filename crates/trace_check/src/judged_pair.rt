ghost use Rattle.std.specs.Prelude.{◌≡◌, ℕ};
ghost use Rattle.requester_core.specs.Setup.{IsSetUp};
ghost use Rattle.script_ends.specs.Configured.{requester_in};
ghost use Rattle.requester_machine.specs.UnderWay.{HasSizes};
ghost use Rattle.spdm_grammar.specs.declared.names.TheConstants.{MAX_BODY_SIZE};

use crate::Answering;
use crate::bodies::{takes_answer, takes_request};
use check_ends::{Party, walks_show};
use check_fetched_ends::MarkedEnds;
use check_laws::{Round, SessionTable};
use check_requester::JudgedRequester;
use mctp_framing::{Assembler, Fed, PacketView};
use script_text::ReqPart;
use spdm_basis::{Bytes, Eid, OutOfMemory, Psk};
use spdm_grammar::Why;
use spdm_grammar::names::MAX_BODY_SIZE;
use std::alloc::Global;

/// A requester of a capture and the responder: the bodies that are gathered in both directions, the round in progress,
/// what the two ends hold, and what the responder knows of the requester. It judges the packets between them. Allocates
/// only when constructed (read, not proved).
#[derive(Drop)]
pub struct JudgedPair {
    pub(crate) eid: Eid,
    pub(crate) requests: Assembler,
    pub(crate) answers: Assembler,
    pub(crate) round: Round,
    pub(crate) ends: MarkedEnds,
    pub(crate) hint: Bytes,
    pub(crate) psk: Psk,
    pub(crate) ghost limit: { answers.receiver.limit ≡ MAX_BODY_SIZE },
}

// What the requester's own code sees of how a requester is set up.
fn setup_of(q: &ReqPart) -> requester_core::Setup<'_>
    ensures { (responder : ℕ) → HasSizes (requester_in responder q.now)
        → IsSetUp result (requester_in responder q.now) }
{
    requester_core::Setup {
        transfer: q.transfer,
        max: q.max,
        flags: q.flags,
        suites: q.suites,
        hint: q.hint.as_slice(),
    }
}

// A copy of a key.
fn copy_of(psk: &Psk) -> Psk
    ensures { result ≡ psk.now }
{
    psk.clone().unwrap()
}

impl JudgedPair {
    ghost use Rattle.std.specs.Prelude.{◌≡◌, ◌<◌, [], ℕ, List, IfOk, length, true};
    ghost use Rattle.check_laws.specs.Order.{is_answer, is_request};
    ghost use Rattle.check_laws.specs.Rows.{StandsForRows};
    ghost use Rattle.script_ends.specs.Configured.{requester_in};
    ghost use Rattle.mctp_framing.specs.Packet.{view_of};
    ghost use Rattle.requester_machine.specs.Setup.{ReqSetup};
    ghost use Rattle.trace_check.specs.JudgedPair.{ComesBehind, IsTaken, StandsFor};
    ghost use Rattle.trace_check.specs.Limits.{HasLimits, IsAnswering, IsSound};
    ghost use Rattle.capture_machine.specs.SessionTable.{Row, number_from};
    ghost use Rattle.world_machine.specs.Setup.{Configuration};

    // A requester with this number, counted from 1, and the responder with this endpoint, where no packet came yet.
    pub(crate) fn new(
        alloc: Global,
        own: Eid,
        number: u8,
        q: &ReqPart,
        answering: &Answering,
    ) -> Result<JudgedPair, OutOfMemory>
        ensures { (w : Configuration) → w.responder.eid ≡ own.number → HasLimits w.responder
            → IsSound (requester_in own.number q.now) → IsAnswering answering.now w.responder
            → number ≡ number_from 1 q.now.eid.number w.requesters
            → IfOk result (λ pair. StandsFor pair w (requester_in own.number q.now) [] []) }
    {
        let asker = JudgedRequester::new(alloc, &setup_of(q), &q.psk)?;
        let hint = Bytes::copy(alloc, q.hint.as_slice())?;
        let psk = copy_of(&q.psk);
        let party = Party::new(
            alloc,
            asker,
            number,
            &answering.towards(hint.as_slice(), &psk),
        )?;
        Ok(JudgedPair {
            eid: q.eid,
            requests: Assembler::new(alloc, own, q.eid, MAX_BODY_SIZE)?,
            answers: Assembler::new(alloc, q.eid, own, MAX_BODY_SIZE)?,
            round: Round::new(),
            ends: MarkedEnds::new(party),
            hint,
            psk,
        })
    }

    // A packet came of this requester, for the responder.
    pub(crate) fn take_request(
        &mut self,
        table: &mut SessionTable,
        view: PacketView<'_>,
    ) -> Result<(), Why>
        requires sequence { view.sequence < 4 }
        requires tag { view.tag < 8 }
        ensures { (w : Configuration) (q : ReqSetup) (older : List (List ℕ)) (rows : List Row)
            (packet : List ℕ) → ComesBehind w q older rows packet (view_of view.entry)
            → is_request w.responder.eid q.eid (view_of view.entry) ≡ true
            → StandsFor self.old w q older rows → StandsForRows table.old w (length older) rows
            → IsTaken w q older packet rows result self.new table.new }
    {
        walks_show();
        match self.requests.take(view) {
            Fed::Whole(route, body) => {
                takes_request(&mut self.round, &mut self.ends, table, route, body)
            }
            Fed::More => Ok(()),
            Fed::Dropped(_) => Err(Why::BadPacket),
        }
    }

    // A packet came of the responder that is set up so, for this requester. An `Err` comes for allocation failure.
    pub(crate) fn take_answer(
        &mut self,
        table: &mut SessionTable,
        answering: &Answering,
        view: PacketView<'_>,
    ) -> Result<Result<(), Why>, OutOfMemory>
        requires sequence { view.sequence < 4 }
        requires tag { view.tag < 8 }
        ensures { (w : Configuration) (q : ReqSetup) (older : List (List ℕ)) (rows : List Row)
            (packet : List ℕ) → ComesBehind w q older rows packet (view_of view.entry)
            → is_answer w.responder.eid q.eid (view_of view.entry) ≡ true
            → IsAnswering answering.now w.responder
            → StandsFor self.old w q older rows → StandsForRows table.old w (length older) rows
            → IfOk result (λ told. IsTaken w q older packet rows told self.new table.new) }
    {
        walks_show();
        let setup = answering.towards(self.hint.as_slice(), &self.psk);
        match self.answers.take(view) {
            Fed::Whole(route, answer) => takes_answer(
                &mut self.round,
                &mut self.ends,
                table,
                &setup,
                route,
                answer,
            ),
            Fed::More => Ok(Ok(())),
            Fed::Dropped(_) => Ok(Err(Why::BadPacket)),
        }
    }
}
