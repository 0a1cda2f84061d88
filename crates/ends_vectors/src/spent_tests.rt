use mctp_framing::PacketList;
use requester::{Command, ReqConfig, Requester};
use responder::{Known, Responder, RspConfig};
use spdm_basis::{Bytes, Eid, Psk, SessionId};
use spdm_grammar::{CommandFault, Event, Finished, FlagSet, Pick, Suites};
use std::process::Abort;
use std::test::Fail;

const SUITES: Suites = Suites {
    hash: Pick::Small,
    aead: Pick::Small,
};

const FLAGS: FlagSet = FlagSet {
    measure: false,
    heartbeat: true,
    key_update: true,
    chunk: true,
};

const KEY: &[u8] = b"1234567890123456";

// The one session.
const ID: SessionId = SessionId { req: 1, rsp: 1 };

// Application data of one byte.
const SEND: Command<'_> = Command::Send {
    session: 1,
    bytes: b"a",
};

// Both ends, and the packets that they sent last.
#[derive(Drop)]
struct Ends {
    requester: Requester,
    responder: Responder,
    requests: PacketList,
    answers: PacketList,
}

fn requester(rt: &impl AllocGlobal) -> Result<Requester, Fail> {
    let config = ReqConfig {
        eid: Eid::new(9).ok_or("no end point")?,
        responder: Eid::new(8).ok_or("no end point")?,
        transfer: 1024,
        max: 4096,
        unit: 1024,
        pad: 0,
        flags: FLAGS,
        hint: &[0x71],
        psk: Psk::new(KEY).ok_or("no key")?,
        opaque: &[],
        suites: SUITES,
    };
    Ok(Requester::new(rt.alloc(), &config, [1; 32])?)
}

fn responder(rt: &impl AllocGlobal) -> Result<Responder, Fail> {
    let known = [Known {
        eid: Eid::new(9).ok_or("no end point")?,
        hint: Bytes::copy(rt.alloc(), &[0x71])?,
        psk: Psk::new(KEY).ok_or("no key")?,
    }];
    let config = RspConfig {
        eid: Eid::new(8).ok_or("no end point")?,
        transfer: 1024,
        max: 4096,
        unit: 1024,
        beat: 30,
        flags: FLAGS,
        opaque: &[],
        blocks: &[],
        known: &known,
        suites: SUITES,
    };
    Ok(Responder::new(rt.alloc(), &config, [2; 32])?)
}

impl Ends {
    fn new(rt: &impl AllocGlobal) -> Result<Ends, Fail> {
        Ok(Ends {
            requester: requester(rt)?,
            responder: responder(rt)?,
            requests: PacketList::new(rt.alloc())?,
            answers: PacketList::new(rt.alloc())?,
        })
    }

    // Each of whose bodies goes in one packet: the request is answered, and the answer taken.
    fn turn(&mut self) -> Result<Event, Fail> {
        let request = self.requests.get(0).ok_or("nothing asked")?;
        let _ = self.responder.on_packet(request, &mut self.answers);
        let answer = self.answers.get(0).ok_or("no answer")?;
        Ok(self.requester.on_packet(answer, &mut self.requests))
    }

    // What a command comes to, behind at most eight turns.
    fn does(&mut self, command: Command<'_>) -> Result<Event, Fail> {
        self.requester.command(command, &mut self.requests)?;
        let mut event = self.turn()?;
        for _ in 0..8 {
            if event != Event::Progress {
                break;
            }
            event = self.turn()?;
        }
        Ok(event)
    }

    // Why a command is not done.
    fn fault(&mut self, command: Command<'_>) -> Option<CommandFault> {
        self.requester.command(command, &mut self.requests).err()
    }

    // The command comes to this.
    fn comes_to(
        &mut self,
        rt: &impl Abort,
        command: Command<'_>,
        finished: Finished,
    ) -> Result<(), Fail> {
        assert_eq!(rt; self.does(command)?, Event::Done(finished));
        Ok(())
    }
    // Both ends with one session.
    fn in_session(rt: &(impl AllocGlobal + Abort)) -> Result<Ends, Fail> {
        let mut ends = Ends::new(rt)?;
        ends.comes_to(rt, Command::Connect, Finished::Connected)?;
        ends.comes_to(rt, Command::Open { summary: 0 }, Finished::Opened(ID))?;
        Ok(ends)
    }

    // So many application messages, each of which is answered.
    fn sends(&mut self, rt: &impl Abort, count: u32) -> Result<(), Fail> {
        for _ in 0..count {
            self.comes_to(rt, SEND, Finished::Answered(ID))?;
        }
        Ok(())
    }
}

// KEY_UPDATE of the requester's key alone, and of both keys.
const UPDATE_KEY: Command<'_> = Command::Update {
    session: 1,
    all: false,
};

const UPDATE_ALL_KEYS: Command<'_> = Command::Update {
    session: 1,
    all: true,
};

// With 65,535 application messages the next number is the last of its key, so that nothing but an update of all keys goes; and
// behind that all goes on.
#[test]
fn spent_key(rt: HostRuntime) -> Result<(), Fail> {
    let mut ends = Ends::in_session(&rt)?;
    ends.sends(&rt, 65_535)?;
    for command in [SEND, Command::Beat { session: 1 }, UPDATE_KEY] {
        assert_eq!(rt; ends.fault(command), Some(CommandFault::KeySpent));
    }
    ends.comes_to(&rt, UPDATE_ALL_KEYS, Finished::Updated(ID))?;
    ends.sends(&rt, 1)
}
