//! What a requester and a responder are made of: limits and faults. There is nothing here but tests.
//!
//! Read first: `long_hint` in `src/responder_tests.rt`.
#![tactic(auto)]

#[cfg(test)]
mod configuration_tests;
#[cfg(test)]
mod requester_tests;
#[cfg(test)]
mod responder_tests;
