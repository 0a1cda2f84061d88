//! The boot number of an end as C keeps it: in 18 bytes of the caller's memory, which the caller stores.
//!
//! Read first: `IsNextBoot` in `specs/Booting.antt`, what the call answers and leaves. The call is `next_boot_in`.
#![tactic(auto)]

mod bytes_keeper;
mod next;

pub use next::next_boot_in;
