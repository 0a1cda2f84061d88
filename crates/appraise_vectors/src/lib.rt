//! Tests alone: records of one block, and of none, under a policy of one rule.
//!
//! Read first: `appraisals` in `src/appraisals_tests.rt`, a record for each answer.
#![tactic(auto)]

#[cfg(test)]
mod appraisals_tests;
