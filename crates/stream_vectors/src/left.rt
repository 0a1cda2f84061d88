use crate::stream_runs::outcome;
use key_schedule::HandshakeKeys;
use link_world::World;
use spdm_basis::{AeadAlg, Eid, HashAlg, HashBytes, MemSeeds, MemSink, MemSource, Psk};
use spdm_command::Outcome;
use spdm_grammar::Stage;
use std::process::Abort;
use std::str;
use std::test::Fail;
use transcript::Lane;

// The configuration of both ends, and the first command.
const CONFIGURATION: &[u8] = b"seed 0000000000000000000000000000000000000000000000000000000000000000
responder 8 1024 4096 64 30 mhkc
requester 9 1024 4096 64 0 hkc 71 31323334353637383930313233343536 -
end
q1 connect
";

// A session whose last answer is lost: the request is sent again, and the answer given from memory.
const RETRIED: &[u8] = b"pump 6
q1 open 0
pump 4
lose 11
q1 retry
pump 2
";

// ALGORITHMS is lost, and comes with a reserved byte changed.
const ALTERED: &[u8] = b"pump 5
lose 6
inject 010908c20512630400340001020200000000000000010000000100000000000000000000000000000002200000032001000420000005200100
q1 open 0
pump 4
";

// ALGORITHMS as it is injected.
const ALTERED_ALGORITHMS: &str =
    "12630400340001020200000000000000010000000100000000000000000000000000000002200000032001000420000005200100";

// The pre-shared key of both.
const PSK: &[u8] = b"1234567890123456";

// How many bytes a tag of a record has, and verify data under SHA-256.
const TAG: usize = 16;

const VERIFY: usize = 32;

// What a script left: both ends, and the packets that they sent.
#[derive(Drop)]
struct Left {
    world: World,
    packets: Vec<Vec<u8>>,
}

// The packets of a trace.
fn packets_in(rt: &impl AllocGlobal, trace: &[u8]) -> Result<Vec<Vec<u8>>, Fail> {
    let mut packets = Vec::new(rt.alloc());
    for line in str::from_utf8(trace)?.lines() {
        if line.starts_with("packet ") {
            let digits = line.rsplit(' ').next().unwrap_or("");
            packets.push(hex::decode(rt.alloc(), digits)?)?;
        }
    }
    Ok(packets)
}

impl Left {
    fn of(rt: &(impl AllocGlobal + Abort), events: &[u8]) -> Result<Left, Fail> {
        let mut script = Vec::from_slice(rt.alloc(), CONFIGURATION)?;
        script.extend_from_slice(events)?;
        let mut source = MemSource::new(rt.alloc(), script.as_slice(), &[])?;
        let mut sink = MemSink::new(rt.alloc(), 8192, &[])?;
        let mut seeds = MemSeeds::new(rt.alloc(), &[], &[])?;
        let mut left = None;
        let outcome = outcome(
            rt,
            "run",
            &mut source,
            &mut sink,
            &mut seeds,
            &[],
            &mut left,
        )?;
        assert_eq!(rt; outcome, Outcome::Done);
        let packets = packets_in(rt, sink.as_slice())?;
        let world = left.ok_or("the script left no world")?;
        Ok(Left { world, packets })
    }

    // Appends the bytes behind the type of the body that packets from this number on carry. Packets are counted from 1.
    fn add_message(&self, first: usize, count: usize, to: &mut Vec<u8>) -> Result<(), Fail> {
        let mut skipped = 5;
        for packet in self
            .packets
            .iter()
            .skip(first.saturating_sub(1))
            .take(count)
        {
            to.extend_from_slice(packet.get(skipped..).unwrap_or(&[]))?;
            skipped = 4;
        }
        Ok(())
    }

    // The last bytes of a packet.
    fn end_of(&self, number: usize, size: usize) -> &[u8] {
        let packet = self.packets.get(number.saturating_sub(1));
        let bytes = packet.map_or(&[][..], |packet| packet.as_slice());
        let (_, end) = bytes.split_at(bytes.len().saturating_sub(size));
        end
    }

    // The verify data of the responder over what was sent, with these bytes as ALGORITHMS; and as they were sent.
    fn verify_data(
        &self,
        rt: &(impl AllocGlobal + Abort),
        algorithms: &[u8],
    ) -> Result<(HashBytes, Vec<u8>), Fail> {
        let mut transcript = Vec::new(rt.alloc());
        for number in 1..6 {
            self.add_message(number, 1, &mut transcript)?;
        }
        transcript.extend_from_slice(algorithms)?;
        self.add_message(7, 1, &mut transcript)?;
        self.add_message(8, 2, &mut transcript)?;
        let sent = transcript.split_off(transcript.len().saturating_sub(VERIFY))?;
        let mut lane = Lane::new(HashAlg::Sha256);
        lane.push(transcript.as_slice());
        let th1 = lane.finish();
        let psk = Psk::new(PSK).expect(rt, "a key");
        let keys = HandshakeKeys::derive(HashAlg::Sha256, AeadAlg::Aes128Gcm, &psk, &th1);
        Ok((keys.responder_verify(&th1), sent))
    }

    // The one session that each end shows: its stage at the requester and at the responder, and whether the hashes are equal.
    fn stages(&self, rt: &impl Abort) -> (Option<Stage>, Option<Stage>, bool) {
        let asked = self.world.requester(0).expect(rt, "a requester").sessions();
        let served = self
            .world
            .responder()
            .sessions(Eid::new(9).expect(rt, "an end point"));
        let (asked, served) = (asked.as_slice().first(), served.as_slice().first());
        let same = match (asked, served) {
            (Some(asked), Some(served)) => asked.hash.as_slice() == served.hash.as_slice(),
            _ => false,
        };
        (
            asked.map(|view| view.stage),
            served.map(|view| view.stage),
            same,
        )
    }
}

// Both ends hold one session open, with one hash. The two records of the handshake have different tags, and each came twice with
// the same one.
#[test]
fn lost_finish_answer_is_retried(rt: HostRuntime) -> Result<(), Fail> {
    let left = Left::of(&rt, RETRIED)?;
    assert_eq!(rt;
        left.stages(&rt),
        (Some(Stage::Open), Some(Stage::Open), true)
    );
    assert!(rt; left.end_of(10, TAG) != left.end_of(11, TAG));
    assert_eq!(rt; left.end_of(10, TAG), left.end_of(12, TAG));
    assert_eq!(rt; left.end_of(11, TAG), left.end_of(13, TAG));
    Ok(())
}

// The responder's verify data are over ALGORITHMS as it sent them. Over those that the requester took they are others, so the
// requester holds no session.
#[test]
fn altered_algorithms_fail_verify(rt: HostRuntime) -> Result<(), Fail> {
    let left = Left::of(&rt, ALTERED)?;
    assert_eq!(rt; left.stages(&rt), (None, Some(Stage::Handshake), false));
    let mut algorithms = Vec::new(rt.alloc());
    left.add_message(6, 1, &mut algorithms)?;
    let (own, sent) = left.verify_data(&rt, algorithms.as_slice())?;
    assert_eq!(rt; own.as_slice(), sent.as_slice());
    let (other, _) = left.verify_data(
        &rt,
        hex::decode(rt.alloc(), ALTERED_ALGORITHMS)?.as_slice(),
    )?;
    assert!(rt; other.as_slice() != sent.as_slice());
    Ok(())
}
