//! A requester and a responder that are given each other's packets until the numbers of a key are spent, a responder
//! that tells what packets would bring, and one whose requester is gone. There is nothing here but tests.
//!
//! Read first: `spent_key` in `src/spent_tests.rt`.
#![tactic(auto)]

#[cfg(test)]
mod peek_tests;
#[cfg(test)]
mod reset_tests;
#[cfg(test)]
mod spent_tests;
