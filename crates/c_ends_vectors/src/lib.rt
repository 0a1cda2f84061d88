//! Both ends and an attestor behind handles of C, with sessions between them. There is nothing here but tests.
//!
//! Read first: `a_session_by_handles` in `src/session_tests.rt`.
#![tactic(auto)]

#[cfg(test)]
mod attestor_tests;
#[cfg(test)]
mod look_tests;
#[cfg(test)]
mod reset_tests;
#[cfg(test)]
mod session_tests;
#[cfg(test)]
mod setting;
