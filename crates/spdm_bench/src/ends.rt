use crate::bench_error::BenchError;
use mctp_framing::PacketList;
use requester::{ReqConfig, ReqConfigFault, Requester};
use requester_core::Command;
use responder::{Known, Responder, RspConfig, RspConfigFault};
use spdm_basis::{Bytes, Eid, Psk};
use spdm_grammar::{Event, FlagSet, Pick, Suites};
use std::alloc::Global;

// The endpoint of the responder; those of its requesters follow it.
const RESPONDER: u8 = 8;

// After so many messages a requester has all keys updated: the numbers of its records are few.
const UPDATE_AFTER: u64 = 60_000;

const TEXT: [u8; 32] = [0; 32];

const SUITES: Suites = Suites {
    hash: Pick::Small,
    aead: Pick::Small,
};

const FLAGS: FlagSet = FlagSet {
    measure: false,
    heartbeat: true,
    key_update: true,
    chunk: true,
};

/// A responder, its requesters, and the packets on their way between them.
#[derive(Drop)]
struct Ends {
    responder: Responder,
    requesters: Vec<Requester>,
    asked: PacketList,
    answer: PacketList,
}

fn eid(number: u8) -> Result<Eid, BenchError> {
    Eid::new(number).ok_or(BenchError::NoSession)
}

// The pre-shared key of the requester with this endpoint.
fn psk(number: u8) -> Result<Psk, BenchError> {
    Psk::new(&[number; 16]).ok_or(BenchError::NoSession)
}

// A responder that knows so many requesters.
fn responder(alloc: Global, count: u8) -> Result<Responder, BenchError> {
    let mut known = Vec::new(alloc);
    for place in 0..count {
        let number = RESPONDER.saturating_add(place).saturating_add(1);
        let one = Known {
            eid: eid(number)?,
            hint: Bytes::copy(alloc, &[number]).map_err(|_| BenchError::OutOfMemory)?,
            psk: psk(number)?,
        };
        known.push(one).map_err(|_| BenchError::OutOfMemory)?;
    }
    let config = RspConfig {
        eid: eid(RESPONDER)?,
        transfer: 1024,
        max: 4096,
        unit: 64,
        beat: 0,
        flags: FLAGS,
        opaque: &[],
        blocks: &[],
        known: known.as_slice(),
        suites: SUITES,
    };
    Ok(Responder::new(alloc, &config, [0; 32])?)
}

// The requester with this endpoint.
fn requester(alloc: Global, number: u8) -> Result<Requester, BenchError> {
    let config = ReqConfig {
        eid: eid(number)?,
        responder: eid(RESPONDER)?,
        transfer: 1024,
        max: 4096,
        unit: 64,
        pad: 0,
        flags: FLAGS,
        hint: &[number],
        psk: psk(number)?,
        opaque: &[],
        suites: SUITES,
    };
    Ok(Requester::new(alloc, &config, [number; 32])?)
}

impl From<RspConfigFault> for BenchError {
    fn from(_fault: RspConfigFault) -> BenchError {
        BenchError::NoSession
    }
}

impl From<ReqConfigFault> for BenchError {
    fn from(_fault: ReqConfigFault) -> BenchError {
        BenchError::NoSession
    }
}

impl Ends {
    // So many requesters, each with an open session.
    fn open(alloc: Global, count: u8) -> Result<Ends, BenchError> {
        let mut ends = Ends {
            responder: responder(alloc, count)?,
            requesters: Vec::new(alloc),
            asked: PacketList::new(alloc).map_err(|_| BenchError::OutOfMemory)?,
            answer: PacketList::new(alloc).map_err(|_| BenchError::OutOfMemory)?,
        };
        for place in 0..count {
            let number = RESPONDER.saturating_add(place).saturating_add(1);
            let one = requester(alloc, number)?;
            ends.requesters
                .push(one)
                .map_err(|_| BenchError::OutOfMemory)?;
            ends.bring(place.into(), Command::Connect)?;
            ends.bring(place.into(), Command::Open { summary: 0 })?;
        }
        Ok(ends)
    }

    // The packets of a requester are given to the responder, and the answer to the requester; what it is told last.
    fn round(&mut self, place: usize) -> Option<Event> {
        for index in 0..self.asked.len() {
            let _ = self
                .responder
                .on_packet(self.asked.get(index)?, &mut self.answer);
        }
        let requester = self.requesters.get_mut(place)?;
        let mut told = None;
        for index in 0..self.answer.len() {
            told = Some(requester.on_packet(self.answer.get(index)?, &mut self.asked));
        }
        told
    }

    // A command of the requester at this place, which has at most three rounds, is brought to its end.
    fn bring(&mut self, place: usize, command: Command<'_>) -> Result<(), BenchError> {
        let requester = self.requesters.get_mut(place).ok_or(BenchError::NoSession)?;
        requester
            .command(command, &mut self.asked)
            .map_err(|_| BenchError::Refused)?;
        for _ in 0..3 {
            match self.round(place) {
                Some(Event::Done(_)) => return Ok(()),
                Some(Event::Progress) => {}
                _ => return Err(BenchError::Refused),
            }
        }
        Err(BenchError::Refused)
    }
}

/// Has so many requesters, at most eight, send `count` application messages of 32 bytes in turn to one responder, over
/// packets, and gives the last packet of the responder in hexadecimal.
pub fn last_of_ends(alloc: Global, requesters: usize, count: u64) -> Result<String, BenchError> {
    let all = u8::try_from(requesters).map_err(|_| BenchError::Usage)?;
    if all == 0 || all > 8 {
        return Err(BenchError::Usage);
    }
    let mut ends = Ends::open(alloc, all)?;
    for turn in 0..count {
        let place = (turn % u64::from(all)) as usize;
        if turn / u64::from(all) % UPDATE_AFTER == UPDATE_AFTER - 1 {
            ends.bring(
                place,
                Command::Update {
                    session: 1,
                    all: true,
                },
            )?;
        }
        let text = &TEXT;
        ends.bring(
            place,
            Command::Send {
                session: 1,
                bytes: text,
            },
        )?;
    }
    let last = ends.answer.get(0).ok_or(BenchError::NoSession)?;
    Ok(hex::encode(alloc, last)?)
}
