//! A boot number that outlives crashes, so that an end that starts again with an old seed repeats no
//! draw.
//!
//! Read first: `NextBoot` in `specs/Boots.antt`, what a call answers and leaves. The call is
//! `next_boot`.
#![tactic(auto)]

mod boot_fault;
mod boots;
mod file_keeper;
mod keeper;
mod laws;
mod mem_keeper;
mod slot;

pub use boot_fault::BootFault;
pub use boots::next_boot;
pub use file_keeper::FileKeeper;
pub use keeper::Keeper;
pub use laws::{boots_are_counted, boots_rise};
pub use mem_keeper::MemKeeper;
