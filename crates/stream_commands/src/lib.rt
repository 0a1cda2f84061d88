//! The commands that answer a stream of frames after a configuration.
//!
//! Read first: `IsServed` in `specs/Served.antt`, what `serve` comes to, with `IsDriven` for `drive`, and `specs/Kept.antt`
//! for a responder of which the boots are counted. Calls are `serve_input`, `drive_input` and `serve_kept_input`.
#![tactic(auto)]

mod begin;
mod driving;
mod driving_kept;
mod fault;
mod kept_fault;
mod serving;
mod serving_kept;

pub use driving::drive_input;
pub use driving_kept::drive_kept_input;
pub use fault::StreamFault;
pub use kept_fault::KeptFault;
pub use serving::serve_input;
pub use serving_kept::serve_kept_input;
