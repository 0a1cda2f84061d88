use crate::stream_runs::run;
use spdm_command::Outcome;
use std::process::Abort;
use std::test::Fail;

const CONFIGURATION: &[u8] = b"responder 8 1024 4096 64 30 mhkc
requester 9 1024 4096 64 0 hkc 71 31323334353637383930313233343536 -
end
";

// The lines that the requester writes of the commands below.
const LINES: &[u8] = b"q1 ok
to q1 progress
to q1 progress
to q1 done connected
q1 ok
to q1 more
to q1 progress
to q1 done opened 01000100
q1 ok
to q1 done answered 01000100
data q1 01000100 -
q1 ok
to q1 done ended 01000100
q1 fault no-session
";

// One of the two programs, the frames that it was given, and what it wrote.
#[derive(Drop)]
struct Program<'a> {
    word: &'a str,
    seed: [u8; 32],
    given: Vec<u8>,
    wrote: Vec<u8>,
}

impl<'a> Program<'a> {
    fn new(rt: &impl AllocGlobal, word: &'a str, seed: [u8; 32]) -> Program<'a> {
        Program {
            word,
            seed,
            given: Vec::new(rt.alloc()),
            wrote: Vec::new(rt.alloc()),
        }
    }

    // What it writes of one frame more, behind all that it wrote before.
    fn give(&mut self, rt: &(impl AllocGlobal + Abort), frame: &[u8]) -> Result<Vec<u8>, Fail> {
        self.given.extend_from_slice(frame)?;
        let (outcome, written) = run(
            rt,
            self.word,
            CONFIGURATION,
            self.given.as_slice(),
            &[self.seed],
        )?;
        assert_eq!(rt; outcome, Outcome::Done);
        let (before, new) = written
            .as_slice()
            .split_at(self.wrote.len().min(written.len()));
        assert_eq!(rt; before, self.wrote.as_slice());
        self.wrote.extend_from_slice(new)?;
        Ok(Vec::from_slice(rt.alloc(), new)?)
    }
}

// A frame, and whether the requester is to get it.
type Waiting = (bool, Vec<u8>);

// The packets among these frames wait for the other program, and the lines are written down.
fn sort(
    rt: &(impl AllocGlobal + Abort),
    to_requester: bool,
    written: &[u8],
    waiting: &mut Vec<Waiting>,
    lines: &mut Vec<u8>,
) -> Result<(), Fail> {
    let mut rest = written;
    for _ in 0..16 {
        if rest.len() < 3 {
            break;
        }
        let size = 3 + rest[1] as usize + 256 * rest[2] as usize;
        let (frame, behind) = rest.split_at(size.min(rest.len()));
        if frame.first() == Some(&1) {
            waiting.push((to_requester, Vec::from_slice(rt.alloc(), frame)?))?;
        } else {
            lines.extend_from_slice(frame.get(3..).unwrap_or(&[]))?;
            lines.push(b'\n')?;
        }
        rest = behind;
    }
    assert!(rt; rest.is_empty());
    Ok(())
}

// Both programs from the first command to a session that has ended, where each gets what the other writes.
#[test]
fn carried_to_each_other(rt: HostRuntime) -> Result<(), Fail> {
    let mut requester = Program::new(&rt, "drive", [1; 32]);
    let mut responder = Program::new(&rt, "serve", [2; 32]);
    let mut lines = Vec::new(rt.alloc());
    let commands: [&[u8]; 5] = [
        b"\x03\x0a\x00q1 connect",
        b"\x03\x09\x00q1 open 0",
        b"\x03\x0e\x00q1 send 1 6869",
        b"\x03\x08\x00q1 end 1",
        b"\x03\x0c\x00q1 send 1 00",
    ];
    for command in commands {
        let mut waiting = Vec::new(rt.alloc());
        waiting.push((true, Vec::from_slice(rt.alloc(), command)?))?;
        for _ in 0..16 {
            if waiting.is_empty() {
                break;
            }
            let (to_requester, frame) = waiting.remove(0);
            let written = if to_requester {
                requester.give(&rt, frame.as_slice())?
            } else {
                responder.give(&rt, frame.as_slice())?
            };
            sort(
                &rt,
                !to_requester,
                written.as_slice(),
                &mut waiting,
                &mut lines,
            )?;
        }
        assert!(rt; waiting.is_empty());
    }
    assert_eq!(rt; lines.as_slice(), LINES);
    Ok(())
}
