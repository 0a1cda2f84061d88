//! The command `spdm_device` beside an independent program: data that are answered, repeated and late, sessions that come and
//! go, and bad frames.
//!
//! Read first: `data_are_answered` in `src/streams.rt`.
#![tactic(auto)]

#[cfg(test)]
mod streams;
