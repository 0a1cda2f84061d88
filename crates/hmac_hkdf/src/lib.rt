//! HMAC (RFC 2104) and HKDF (RFC 5869) over SHA-256 and SHA-384, and the stream of draws that an end takes its random
//! bytes from. No call allocates.
//!
//! Read first: `expand` in `specs/Hkdf.antt`, the output of HKDF. Calls are `hmac`, `expand` and `DrawStream::advance`.
#![tactic(auto)]

mod draws;
mod hkdf;
mod mac;

pub use draws::{DrawStream, Drawn, Spent};
pub use hkdf::{expand, expand_by, extract, extract_by};
pub use mac::{hmac, hmac_by};
