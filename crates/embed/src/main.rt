//! A session between a requester and a responder, as a program of one's own embeds them: they negotiate, open a session,
//! and one message goes each way.
//!
//! Read first: `session` in `src/main.rt`.
#![tactic(auto)]

use mctp_framing::PacketList;
use requester::{Command, Event, ReqConfig, Requester};
use responder::{Known, Responder, RspConfig};
use spdm_basis::{Bytes, Eid, Psk};
use spdm_grammar::{FlagSet, Pick, Suites};
use std::process::ExitCode;

const FLAGS: FlagSet = FlagSet {
    measure: false,
    heartbeat: true,
    key_update: true,
    chunk: true,
};

const SUITES: Suites = Suites {
    hash: Pick::Both,
    aead: Pick::Both,
};
// Both ends know it; in a product it comes from a store that nothing else reads.
const KEY: &[u8] = b"1234567890123456";

// Both ends, and the packets between them.
#[derive(Drop)]
struct Ends {
    requester: Requester,
    responder: Responder,
    requests: PacketList,
    answers: PacketList,
}

impl Ends {
    // In a product the seeds are 32 secret random bytes each, or `resume` is told which boot it is.
    fn new(rt: &HostRuntime) -> Option<Ends> {
        let alloc = rt.alloc();
        let eid = Eid::new(8)?;
        let config = ReqConfig {
            eid: Eid::new(9)?,
            responder: eid,
            transfer: 512,
            max: 2048,
            unit: 64,
            pad: 0,
            flags: FLAGS,
            hint: b"q",
            psk: Psk::new(KEY)?,
            opaque: &[],
            suites: SUITES,
        };
        let requester = Requester::new(alloc, &config, [1; 32]).ok()?;
        let known = [Known {
            eid: Eid::new(9)?,
            hint: Bytes::copy(alloc, b"q").ok()?,
            psk: Psk::new(KEY)?,
        }];
        let config = RspConfig {
            eid,
            transfer: 512,
            max: 2048,
            unit: 64,
            beat: 30,
            flags: FLAGS,
            opaque: &[],
            blocks: &[],
            known: &known,
            suites: SUITES,
        };
        Some(Ends {
            requester,
            responder: Responder::new(alloc, &config, [2; 32]).ok()?,
            requests: PacketList::new(alloc).ok()?,
            answers: PacketList::new(alloc).ok()?,
        })
    }

    // Runs a command: carries packets until the requester is told its outcome.
    fn run(&mut self, command: Command<'_>) -> Option<Event> {
        self.requester.command(command, &mut self.requests).ok()?;
        let mut told = None;
        // No command of this example takes more messages.
        for _ in 0..8 {
            for i in 0..self.requests.len() {
                let packet = self.requests.get(i)?;
                self.responder.on_packet(packet, &mut self.answers);
            }
            self.requests.clear();
            for i in 0..self.answers.len() {
                let packet = self.answers.get(i)?;
                told = Some(self.requester.on_packet(packet, &mut self.requests));
            }
            self.answers.clear();
        }
        told
    }
}

// Runs three commands, and writes what comes of each. `None` if memory or the output failed.
fn session(rt: &HostRuntime) -> Option<()> {
    let mut ends = Ends::new(rt)?;
    // The answer of the application waits before the data come.
    ends.responder.queue(Eid::new(9)?, b"hi").ok()?;
    let (session, bytes) = (1, b"hello");
    let told = [
        ends.run(Command::Connect)?,
        ends.run(Command::Open { summary: 0 })?,
        ends.run(Command::Send { session, bytes })?,
    ];
    println!(rt; "{told:?}").ok()
}

fn main(rt: HostRuntime) -> ExitCode {
    ExitCode::from(u8::from(session(&rt).is_none()))
}
