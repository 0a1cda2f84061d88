// What C is told of an attestation. The numbers are those of `specs/Telling.antt`.
ghost use Rattle.std.specs.Prelude.{◌≡◌};
ghost use Rattle.c_attestor.specs.Telling.{appraisal_told, progress_told, verdict_of};

use appraise::Appraisal;
use attestor::Progressed;

/// What a packet decided.
#[repr(C)]
#[derive(Clone, Copy, Debug, PartialEq, Eq)]
pub struct Verdict {
    pub kind: u32,
    /// The place in the record, in bytes from the front, or the index of a block; 0 where the kind has none.
    pub number: u64,
}

// Of a kind.
fn verdict_of(kind: u32, number: u64) -> Verdict
    ensures { result ≡ verdict_of kind number }
{
    Verdict { kind, number }
}

fn appraisal_told(appraisal: Appraisal) -> Verdict
    ensures { result ≡ appraisal_told appraisal }
{
    match appraisal {
        Appraisal::Trusted => verdict_of(2, 0),
        Appraisal::Malformed { at } => verdict_of(3, at as u64),
        Appraisal::Repeated { index } => verdict_of(4, u64::from(index)),
        Appraisal::Unknown { index } => verdict_of(5, u64::from(index)),
        Appraisal::Differs { index } => verdict_of(6, u64::from(index)),
        Appraisal::Missing { index } => verdict_of(7, u64::from(index)),
    }
}

/// What a packet came to, in numbers.
pub fn progress_told(progress: Progressed) -> Verdict
    ensures { result ≡ progress_told progress }
{
    match progress {
        Progressed::Going => verdict_of(0, 0),
        Progressed::Failed => verdict_of(1, 0),
        Progressed::Verdict(appraisal) => appraisal_told(appraisal),
    }
}
