//! A responder that serves a stream of frames.
//!
//! Read first: `IsServed` in `specs/Served.antt`, what is written for a stream of frames. The call is `serve`.
#![tactic(auto)]

mod answering;
mod fault;
mod making;
mod serving;

pub use fault::ServeFault;
pub use serving::serve;
