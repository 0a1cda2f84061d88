//! The typed states of a session at both ends, which are given each other's records from PSK_EXCHANGE_RSP to END_SESSION. There
//! is nothing here but tests.
//!
//! Read first: `data_goes_both_ways` in `src/state_tests.rt`.
#![tactic(auto)]

#[cfg(test)]
mod state_tests;
#[cfg(test)]
mod states;
