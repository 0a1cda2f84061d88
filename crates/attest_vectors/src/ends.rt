use appraise::{Policy, Rule};
use attestor::{Attestor, Progressed};
use mctp_framing::PacketList;
use requester::ReqConfig;
use responder::{Known, Responder, RspConfig};
use spdm_basis::{Bytes, Eid, Psk};
use spdm_grammar::{BlockSpec, FlagSet, Pick, Suites};
use std::alloc::Global;
use std::test::Fail;

// How many blocks the responder has.
const BLOCKS: u8 = 12;

// The most packets that one body takes, and the most requests of an attestation in chunks.
const TURNS: usize = 64;

const SUITES: Suites = Suites {
    hash: Pick::Small,
    aead: Pick::Small,
};

const FLAGS: FlagSet = FlagSet {
    measure: true,
    heartbeat: false,
    key_update: false,
    chunk: true,
};

const KEY: &[u8] = b"1234567890123456";

// The value of the block of this index.
fn value(alloc: Global, index: u8) -> Result<Bytes, Fail> {
    Ok(Bytes::copy(alloc, &[index; 32])?)
}

// The blocks of the responder, of types 0 to 3 in turn.
fn blocks(alloc: Global) -> Result<Vec<BlockSpec>, Fail> {
    let mut blocks = Vec::new(alloc);
    for index in 1..=BLOCKS {
        blocks.push(BlockSpec {
            index,
            value_type: index % 4,
            tcb: false,
            value: value(alloc, index)?,
        })?;
    }
    Ok(blocks)
}

// What the responder has is expected, but of the block of index `other` another value.
pub(crate) fn policy(alloc: Global, other: Option<u8>) -> Result<Policy, Fail> {
    let mut rules = Vec::new(alloc);
    for index in 1..=BLOCKS {
        let of = if other == Some(index) { 0 } else { index };
        rules.push(Rule::Expect {
            index,
            value_type: index % 4,
            value: value(alloc, of)?,
        })?;
    }
    Ok(Policy::new(alloc, rules.as_slice())?)
}

fn attestor(alloc: Global, transfer: u32, policy: Policy) -> Result<Attestor, Fail> {
    let config = ReqConfig {
        eid: Eid::new(9).ok_or("no end point")?,
        responder: Eid::new(8).ok_or("no end point")?,
        transfer,
        max: 4096,
        unit: 64,
        pad: 0,
        flags: FLAGS,
        hint: &[0x71],
        psk: Psk::new(KEY).ok_or("no key")?,
        opaque: &[],
        suites: SUITES,
    };
    Ok(Attestor::new(alloc, &config, [1; 32], policy)?)
}

fn responder(alloc: Global, transfer: u32) -> Result<Responder, Fail> {
    let known = [Known {
        eid: Eid::new(9).ok_or("no end point")?,
        hint: Bytes::copy(alloc, &[0x71])?,
        psk: Psk::new(KEY).ok_or("no key")?,
    }];
    let blocks = blocks(alloc)?;
    let config = RspConfig {
        eid: Eid::new(8).ok_or("no end point")?,
        transfer,
        max: 4096,
        unit: 64,
        beat: 0,
        flags: FLAGS,
        opaque: &[],
        blocks: blocks.as_slice(),
        known: &known,
        suites: SUITES,
    };
    Ok(Responder::new(alloc, &config, [2; 32])?)
}

// Both ends, and the packets that they sent last.
#[derive(Drop)]
pub(crate) struct Ends {
    attestor: Attestor,
    responder: Responder,
    requests: PacketList,
    answers: PacketList,
}

impl Ends {
    // Both ends with this DataTransferSize.
    pub(crate) fn new(alloc: Global, transfer: u32, policy: Policy) -> Result<Ends, Fail> {
        Ok(Ends {
            attestor: attestor(alloc, transfer, policy)?,
            responder: responder(alloc, transfer)?,
            requests: PacketList::new(alloc)?,
            answers: PacketList::new(alloc)?,
        })
    }

    // The request is given to the responder, and its answer to the attestor: what the last packet of the answer came to.
    fn turn(&mut self) -> Result<Progressed, Fail> {
        for packet in 0..self.requests.len().min(TURNS) {
            let request = self.requests.get(packet).ok_or("no packet")?;
            let _ = self.responder.on_packet(request, &mut self.answers);
        }
        let mut progressed = Progressed::Going;
        for packet in 0..self.answers.len().min(TURNS) {
            let answer = self.answers.get(packet).ok_or("no packet")?;
            progressed = self.attestor.on_packet(answer, &mut self.requests);
        }
        Ok(progressed)
    }

    // What is decided, once each packet was carried until the attestor sends none: behind the decision nothing is.
    pub(crate) fn decided(&mut self) -> Result<Progressed, Fail> {
        let mut decided = Progressed::Going;
        self.attestor.start(&mut self.requests);
        for _ in 0..TURNS {
            if self.requests.is_empty() {
                break;
            }
            let progressed = self.turn()?;
            if decided == Progressed::Going {
                decided = progressed;
            } else if progressed != Progressed::Going {
                return Err("decided twice".into());
            }
        }
        if self.requests.is_empty() {
            Ok(decided)
        } else {
            Err("the attestor sends on".into())
        }
    }
}
