//! The command `spdm` where calls of the outside fail or move few bytes, and where its two streams are carried to each other.
//! There is nothing here but tests; the cases that no test has are those of `spdm_cases`.
//!
//! Read first: `each_call_fails` in `src/failing_calls.rt`.
#![tactic(auto)]

#[cfg(test)]
mod carried;
#[cfg(test)]
mod failing_calls;
#[cfg(test)]
mod left;
#[cfg(test)]
mod stream_runs;
