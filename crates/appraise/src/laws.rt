//! What follows of policies and answers, each law as the contract of a function that does nothing.

ghost use Rattle.appraise.specs.Laws.{OneAnswerHolds, ReadRulesAreSound};

/// Exactly one answer holds of any bytes under the rules of a policy.
pub fn one_answer_holds()
    ensures { OneAnswerHolds }
{}

/// The rules that `parse_policy` reads make a policy: `Policy::new` has no fault for them but want of memory.
pub fn read_rules_are_sound()
    ensures { ReadRulesAreSound }
{}
