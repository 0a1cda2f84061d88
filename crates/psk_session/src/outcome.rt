ghost use Rattle.std.specs.Prelude.{◌≡◌, ℕ, List};
ghost use Rattle.requester_machine.specs.Message.{Ask};
ghost use Rattle.requester_machine.specs.Session.{Steps};
ghost use Rattle.psk_session.specs.Held.{verdict_of, verdict_with};
ghost use Rattle.psk_session.specs.Verdict.{Fits};

use crate::Reply;
use crate::verdict::Verdict;
use spdm_basis::RecordFrame;
use spdm_grammar::BadReply;

// A verdict whose application data or measurement record were put down.
#[derive(Clone, Copy)]
pub enum Outcome {
    Bad(BadReply),
    Ended,
    Answered(Reply),
    Updated { all: bool },
    Large { op: u8, handle: u8 },
}

// Overwrites `out` with the application data or the measurement record of a verdict.
pub fn store_data(verdict: Verdict<'_>, out: &mut RecordFrame) -> Outcome
    ensures { (s : Steps) (a : Ask) (answer : List ℕ) → Fits s a answer (verdict_of verdict.entry)
        → verdict_with result out.new ≡ verdict_of verdict.entry }
{
    match verdict {
        Verdict::Bad(fault) => Outcome::Bad(fault),
        Verdict::Ended => Outcome::Ended,
        Verdict::Answered(reply, bytes) => {
            out.clear();
            let _ = out.extend(bytes);
            Outcome::Answered(reply)
        }
        Verdict::Updated { all } => Outcome::Updated { all },
        Verdict::Large { op, handle } => Outcome::Large { op, handle },
    }
}
