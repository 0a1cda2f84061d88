//! An attestor and a responder that are given each other's packets. There is nothing here but a test.
//!
//! Read first: `twelve_blocks` in `src/carried_tests.rt`.
#![tactic(auto)]

#[cfg(test)]
mod carried_tests;
#[cfg(test)]
mod ends;
