//! The static library that C links, `libmekurdai.a`: an export for each call of the two ends and of an attestor.
//!
//! Read first: `spdm_responder_on_packet` in `src/responder_exports.rt`. Each export states the clauses of the method of
//! `c_ends`, `c_attestor` or `c_boots` that it calls; `include/spdm.h` declares them for C.
#![tactic(auto)]

mod attestor_exports;
mod boots;
mod requester_exports;
mod requester_told;
mod responder_exports;
mod responder_looks;
mod sizes;
