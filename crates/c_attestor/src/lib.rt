//! An attestor as C holds it: a handle on a boxed attestor, the numbers that C is told in place of verdicts, and the calls.
//!
//! Read first: `HoldsAttestor` in `specs/Holding.antt`, and the table `progress_told` in `specs/Telling.antt`. The exports are
//! those of the static library `mekurdai`, which states the clauses of these methods again.
#![tactic(auto)]

mod attestor_calls;
mod attestor_handle;
mod attestor_set_up;
mod giving_back;
mod kept_attestor;
mod open_attestor;
mod policy_text;
mod sizes;
mod verdict;

pub use attestor_handle::AttestorHandle;
pub use sizes::attestor_size;
pub use verdict::Verdict;
