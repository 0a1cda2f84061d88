ghost use Rattle.std.specs.Prelude.{◌≡◌, [], IfOk, map};
ghost use Rattle.script_ends.specs.Configured.{requester_in};
ghost use Rattle.trace_check.specs.Checker.{AreKept};
ghost use Rattle.trace_check.specs.Limits.{AreSound, IsAnswering};
ghost use Rattle.world_machine.specs.Setup.{Configuration};

use crate::{Answering, JudgedPair};
use check_laws::SessionTable;
use mctp_framing::{Packet, PacketView};
use script_text::{ReqPart, ScriptConfig};
use spdm_basis::{Eid, OutOfMemory};
use spdm_grammar::Why;
use std::alloc::Global;

/// The requesters of a capture and its responder after some packets that conform, and the sessions that these show. It
/// takes one packet after another, and keeps a fixed amount for each requester and an entry for each session.
#[derive(Drop)]
pub struct Checker {
    pub(crate) own: Eid,
    pub(crate) answering: Answering,
    // The requesters, in the order of the configuration.
    pub(crate) pairs: Vec<JudgedPair>,
    pub(crate) table: SessionTable,
}

// What is kept of the requesters where no packet came yet.
fn pairs_of(
    alloc: Global,
    own: Eid,
    answering: &Answering,
    requesters: &[ReqPart],
) -> Result<Vec<JudgedPair>, OutOfMemory>
    ensures { (w : Configuration) → AreSound w → w.responder.eid ≡ own.number
        → w.requesters ≡ map (requester_in own.number) requesters.now
        → IsAnswering answering.now w.responder
        → IfOk result (λ pairs. AreKept pairs.items w [] [] w.requesters) }
{
    let Ok(mut pairs) = Vec::with_capacity(alloc, requesters.len()) else {
        return Err(OutOfMemory);
    };
    let mut number: u8 = 0;
    for q in requesters {
        number = number.saturating_add(1);
        let pair = JudgedPair::new(alloc, own, number, q, answering)?;
        let Ok(()) = pairs.push(pair) else {
            return Err(OutOfMemory);
        };
    }
    Ok(pairs)
}

impl Checker {
    ghost use Rattle.std.specs.Prelude.{◌≡◌, ◌≢◌, ◌<◌, ◌-◌, ◌^◌, [], List, ℕ, None, Ok, IfOk, IfSome, length};
    ghost use Rattle.std.specs.List.{position_from};
    ghost use Rattle.script_ends.specs.Configured.{configuration_in};
    ghost use Rattle.measurements.specs.Faults.{inventory_fault};
    ghost use Rattle.mctp_framing.specs.Packet.{parsed, view_of};
    ghost use Rattle.trace_check.specs.Checker.{IsChecker, IsTold, has_eid};
    ghost use Rattle.trace_check.specs.Limits.{AreSound};
    ghost use Rattle.world_machine.specs.Setup.{Configuration};

    /// Where no packet came yet under this configuration, whose measurements have no fault.
    pub fn new(alloc: Global, config: &ScriptConfig) -> Result<Checker, OutOfMemory>
        requires { inventory_fault config.now.blocks ≡ None }
        ensures { AreSound (configuration_in config.now)
            → IfOk result (λ checker. IsChecker checker (configuration_in config.now) []) }
    {
        let own = config.responder.eid;
        let answering = Answering::new(alloc, config)?;
        let pairs = pairs_of(alloc, own, &answering, config.requesters.as_slice())?;
        Ok(Checker {
            own,
            answering,
            pairs,
            table: SessionTable::new(alloc),
        })
    }

    // The place of the requester with this endpoint, if there is one.
    fn place_of(&self, eid: u8) -> Option<usize>
        ensures place { result ≡ position_from (has_eid eid) 0 self.now.pairs.items }
        ensures inside { IfSome result (λ place. place < length self.now.pairs.items) }
    {
        self.pairs.iter().position(|pair| pair.eid.number() == eid)
    }

    /// The next packet of the capture: it conforms after those before it, or it does not conform, and then why. The
    /// state is then unspecified. An `Err` is allocation failure.
    pub fn take(&mut self, packet: &[u8]) -> Result<Result<(), Why>, OutOfMemory>
        ensures { (w : Configuration) (older : List (List ℕ)) → AreSound w
            → IsChecker self.old w older → length older < 2 ^ 64 - 2
            → IfOk result (λ told. IsTold w older packet.now told self.new) }
    {
        match Packet::parse(packet) {
            Ok(view) => self.take_view(view),
            Err(_) => Ok(Err(Why::BadPacket)),
        }
    }

    // The next packet, with these fields.
    fn take_view(&mut self, view: PacketView<'_>) -> Result<Result<(), Why>, OutOfMemory>
        requires sequence { view.sequence < 4 }
        requires tag { view.tag < 8 }
        ensures { (w : Configuration) (older : List (List ℕ)) (packet : List ℕ) → AreSound w
            → IsChecker self.old w older → length older < 2 ^ 64 - 2
            → parsed packet ≡ Ok (view_of view.entry)
            → IfOk result (λ told. IsTold w older packet told self.new) }
    {
        if view.to == self.own.number() {
            return Ok(self.take_request(view));
        }
        if view.from == self.own.number() {
            return self.take_answer(view);
        }
        Ok(Err(Why::UnknownEnd))
    }

    // A packet for the responder.
    fn take_request(&mut self, view: PacketView<'_>) -> Result<(), Why>
        requires sequence { view.sequence < 4 }
        requires tag { view.tag < 8 }
        requires own { view.to ≡ self.old.own.number }
        ensures { (w : Configuration) (older : List (List ℕ)) (packet : List ℕ) → AreSound w
            → IsChecker self.old w older → length older < 2 ^ 64 - 2
            → parsed packet ≡ Ok (view_of view.entry) → IsTold w older packet result self.new }
    {
        match self.place_of(view.from) {
            Some(place) => match self.pairs.get_mut(place) {
                Some(pair) => pair.take_request(&mut self.table, view),
                None => unreachable!(),
            },
            None => Err(Why::UnknownEnd),
        }
    }

    // A packet of the responder, for another end.
    fn take_answer(&mut self, view: PacketView<'_>) -> Result<Result<(), Why>, OutOfMemory>
        requires sequence { view.sequence < 4 }
        requires tag { view.tag < 8 }
        requires own { view.from ≡ self.old.own.number }
        requires other { view.to ≢ self.old.own.number }
        ensures { (w : Configuration) (older : List (List ℕ)) (packet : List ℕ) → AreSound w
            → IsChecker self.old w older → length older < 2 ^ 64 - 2
            → parsed packet ≡ Ok (view_of view.entry)
            → IfOk result (λ told. IsTold w older packet told self.new) }
    {
        match self.place_of(view.to) {
            Some(place) => match self.pairs.get_mut(place) {
                Some(pair) => pair.take_answer(&mut self.table, &self.answering, view),
                None => unreachable!(),
            },
            None => Ok(Err(Why::UnknownEnd)),
        }
    }

    // The sessions that the packets show, after the last one.
    pub(crate) fn into_table(self) -> SessionTable
        ensures { result ≡ self.table }
    {
        self.table
    }
}
