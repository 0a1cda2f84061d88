//! Exact decoding and encoding of the messages of `spdm_grammar`: a reader returns the value that the complete input
//! encodes, or its first fault, and a writer writes the canonical encoding. No call allocates.
//!
//! Read first: `Gives` in `specs/Answer.antt`, when a reader answers what the definitions read.
//! Calls are `read_request` and `write_request`.
#![tactic(auto)]

mod algorithms;
mod capabilities;
mod chunk;
mod cursor;
mod end_session;
mod error;
mod exchange;
mod exchange_rsp;
mod expect;
mod feed;
mod finish;
mod heartbeat;
mod key_update;
mod measurements;
mod put;
mod request;
mod response;
mod version;

pub use expect::Expect;
pub use feed::{Feed, FeedFault, feed_fault_stays};
pub use put::TooLong;
pub use request::{read_request, write_request};
pub use response::{read_response, write_response};
pub use spdm_grammar::{Malformed, Part};
