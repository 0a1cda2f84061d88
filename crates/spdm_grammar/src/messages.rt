//! The messages (DSP0274, section 10): their fields, their codes, and where bytes are no message.

pub mod algorithms;
pub mod capabilities;
pub mod choice;
pub mod chunk;
pub mod error_code;
pub mod exchange;
pub mod malformed;
pub mod measurements;
pub mod part_faults;
pub mod request;
pub mod response;
pub mod tables;
