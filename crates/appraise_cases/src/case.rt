use crate::case_error::CaseError;
use crate::words::{bytes_in, rule_in};
use appraise::{Appraisal, Policy, PolicyFault, Rule, appraise};

/// What a line asks for: `RECORD RULE RULE ..`. The record of these bytes is appraised under the policy of these rules.
#[derive(Drop)]
pub struct Case {
    record: Vec<u8>,
    rules: Vec<Rule>,
}

impl Case {
    pub fn of(rt: &impl AllocGlobal, line: &str) -> Result<Case, CaseError> {
        let mut words = line.split(' ');
        let record = bytes_in(rt, words.next().ok_or(CaseError::BadLine)?)?;
        let mut rules = Vec::new(rt.alloc());
        for word in words {
            rules.push(rule_in(rt, word)?)?;
        }
        Ok(Case { record, rules })
    }

    /// Tells the answer, or why the rules make no policy.
    pub fn run(&self, rt: &(impl Print + AllocGlobal)) -> Result<(), CaseError> {
        match Policy::new(rt.alloc(), &self.rules) {
            Ok(policy) => tell(rt, appraise(&policy, &self.record)),
            Err(PolicyFault::IndexOutOfRange) => Ok(println!(rt; "index-out-of-range")?),
            Err(PolicyFault::IndexTaken) => Ok(println!(rt; "index-taken")?),
            Err(PolicyFault::OutOfMemory) => Err(CaseError::OutOfMemory),
        }
    }
}

// Tells an answer as a word and the number that it carries.
fn tell(rt: &impl Print, answer: Appraisal) -> Result<(), CaseError> {
    match answer {
        Appraisal::Trusted => println!(rt; "trusted")?,
        Appraisal::Malformed { at } => println!(rt; "malformed {at}")?,
        Appraisal::Repeated { index } => println!(rt; "repeated {index}")?,
        Appraisal::Unknown { index } => println!(rt; "unknown {index}")?,
        Appraisal::Differs { index } => println!(rt; "differs {index}")?,
        Appraisal::Missing { index } => println!(rt; "missing {index}")?,
    }
    Ok(())
}
