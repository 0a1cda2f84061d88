//! A responder whose requester is gone: its connection is reset, and that of another requester goes on.
use mctp_framing::PacketList;
use requester::{Command, ReqConfig, Requester};
use responder::{Known, Phase, ResetFault, Responder, RspConfig};
use spdm_basis::{Bytes, Eid, Psk, SessionId};
use spdm_grammar::{Event, Finished, FlagSet, Pick, Suites};
use std::process::Abort;
use std::test::Fail;

const SUITES: Suites = Suites {
    hash: Pick::Small,
    aead: Pick::Small,
};

const FLAGS: FlagSet = FlagSet {
    measure: false,
    heartbeat: true,
    key_update: true,
    chunk: true,
};

// The pre-shared keys of the requesters with the endpoint IDs 9 and 10.
const KEYS: [&[u8]; 2] = [b"1234567890123456", b"6543210987654321"];

// The one session of each.
const ID: SessionId = SessionId { req: 1, rsp: 1 };

fn eid(number: u8) -> Result<Eid, Fail> {
    Ok(Eid::new(number).ok_or("no end point")?)
}

// A requester with an endpoint ID and the packets that it sent last.
#[derive(Drop)]
struct Peer {
    eid: Eid,
    end: Requester,
    sent: PacketList,
}

impl Peer {
    fn new(rt: &impl AllocGlobal, number: u8, key: &[u8]) -> Result<Peer, Fail> {
        let config = ReqConfig {
            eid: eid(number)?,
            responder: eid(8)?,
            transfer: 1024,
            max: 4096,
            unit: 1024,
            pad: 0,
            flags: FLAGS,
            hint: &[number],
            psk: Psk::new(key).ok_or("no key")?,
            opaque: &[],
            suites: SUITES,
        };
        Ok(Peer {
            eid: eid(number)?,
            end: Requester::new(rt.alloc(), &config, [number; 32])?,
            sent: PacketList::new(rt.alloc())?,
        })
    }
}

// A responder and the packets that it sent last.
#[derive(Drop)]
struct Device {
    end: Responder,
    sent: PacketList,
}

fn known(rt: &impl AllocGlobal, number: u8, key: &[u8]) -> Result<Known, Fail> {
    Ok(Known {
        eid: eid(number)?,
        hint: Bytes::copy(rt.alloc(), &[number])?,
        psk: Psk::new(key).ok_or("no key")?,
    })
}

impl Device {
    fn new(rt: &impl AllocGlobal) -> Result<Device, Fail> {
        let config = RspConfig {
            eid: eid(8)?,
            transfer: 1024,
            max: 4096,
            unit: 1024,
            beat: 30,
            flags: FLAGS,
            opaque: &[],
            blocks: &[],
            known: &[known(rt, 9, KEYS[0])?, known(rt, 10, KEYS[1])?],
            suites: SUITES,
        };
        Ok(Device {
            end: Responder::new(rt.alloc(), &config, [2; 32])?,
            sent: PacketList::new(rt.alloc())?,
        })
    }

    // Each body goes in one packet: the request is answered, and the answer taken.
    fn turn(&mut self, peer: &mut Peer) -> Result<Event, Fail> {
        let request = peer.sent.get(0).ok_or("nothing asked")?;
        let _ = self.end.on_packet(request, &mut self.sent);
        let answer = self.sent.get(0).ok_or("no answer")?;
        Ok(peer.end.on_packet(answer, &mut peer.sent))
    }

    // What a command of a requester comes to, behind at most eight turns.
    fn serves(&mut self, peer: &mut Peer, command: Command<'_>) -> Result<Event, Fail> {
        peer.end.command(command, &mut peer.sent)?;
        let mut event = self.turn(peer)?;
        for _ in 0..8 {
            if event != Event::Progress {
                break;
            }
            event = self.turn(peer)?;
        }
        Ok(event)
    }

    // A requester negotiates and opens its session.
    fn opens(&mut self, rt: &impl Abort, peer: &mut Peer) -> Result<(), Fail> {
        assert_eq!(rt;
            self.serves(peer, Command::Connect)?,
            Event::Done(Finished::Connected)
        );
        assert_eq!(rt;
            self.serves(peer, Command::Open { summary: 0 })?,
            Event::Done(Finished::Opened(ID))
        );
        Ok(())
    }

    // Whether the session with a requester is there.
    fn holds(&self, peer: &Peer) -> bool {
        self.end.session(peer.eid, ID.rsp).is_some()
    }
}

const SEND: Command<'_> = Command::Send {
    session: 1,
    bytes: b"a",
};

#[test]
fn reset_of_one_requester(rt: HostRuntime) -> Result<(), Fail> {
    let mut device = Device::new(&rt)?;
    let mut gone = Peer::new(&rt, 9, KEYS[0])?;
    let mut other = Peer::new(&rt, 10, KEYS[1])?;
    device.opens(&rt, &mut gone)?;
    device.opens(&rt, &mut other)?;
    assert!(rt; device.holds(&gone));

    assert_eq!(rt; device.end.reset(gone.eid, &mut device.sent), Ok(()));
    assert!(rt; device.sent.is_empty());
    assert!(rt; !device.holds(&gone));
    assert_eq!(rt; device.end.phase(gone.eid), Some(Phase::Versioned));
    assert!(rt; device.holds(&other));
    assert_eq!(rt;
        device.serves(&mut other, SEND)?,
        Event::Done(Finished::Answered(ID))
    );

    // Again, which changes nothing; and the requester comes back.
    assert_eq!(rt; device.end.reset(gone.eid, &mut device.sent), Ok(()));
    assert_eq!(rt; device.end.phase(gone.eid), Some(Phase::Versioned));
    device.opens(&rt, &mut gone)?;
    assert!(rt; device.holds(&gone));
    assert!(rt; device.holds(&other));
    Ok(())
}

#[test]
fn reset_of_no_requester(rt: HostRuntime) -> Result<(), Fail> {
    let mut device = Device::new(&rt)?;
    let mut peer = Peer::new(&rt, 9, KEYS[0])?;
    device.opens(&rt, &mut peer)?;
    let fault = device.end.reset(eid(11)?, &mut device.sent);
    assert_eq!(rt; fault, Err(ResetFault::UnknownPeer));
    assert!(rt; device.holds(&peer));
    Ok(())
}
