//! What a responder goes by at each place where a request comes, in the clear, in a large request and in a session
//! (DSP0274, section 10): which request is refused, with which ERROR, and how a large response goes.
//!
//! Read first: `IsPlace` in `specs/Place.antt`, what a responder goes by where a request comes. The call to begin with
//! is `Place::read`.
#![tactic(auto)]

mod error;
mod form;
mod large_answer;
mod measured;
mod place;
mod sizes;
mod where_asked;

pub use error::write_large_response;
pub use large_answer::LargeAnswer;
pub use measured::write_measurements;
pub use place::Place;
pub use where_asked::Where;
