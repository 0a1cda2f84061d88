//! Tests alone: boot numbers over a keeper in memory of which calls fail, and over a file.
//!
//! Read first: `boots_rise` in `src/boots_tests.rt`, three boots in a row, at the second of which a call fails.
#![tactic(auto)]

#[cfg(test)]
mod boots_tests;
