//! Negotiation, measurements, chunks and the codec: tables of standards and worked values. There is nothing here
//! but tests.
//!
//! Read first: `capabilities_in_common` in `src/negotiation_tests.rt`.
#![tactic(auto)]

#[cfg(test)]
mod chunk_tests;
#[cfg(test)]
mod codec_tests;
#[cfg(test)]
mod measurement_tests;
#[cfg(test)]
mod negotiation_tests;
