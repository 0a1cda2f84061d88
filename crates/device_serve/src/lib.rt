//! A responder with an application behind it, on a stream of frames: the application sees each message of application data before it is
//! answered.
//!
//! Read first: `devised_by` in `specs/Devised.antt`, what a frame leads to. The call is `serve_device`.
#![tactic(auto)]

mod changing;
mod device;
mod hearing;
mod lines;
mod replies;
mod serving;
mod waiting;

pub use responder_serve::ServeFault;
pub use serving::serve_device;
