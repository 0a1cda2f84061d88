//! Bytes, endpoints, keys and algorithms as types.

pub mod aead_alg;
pub mod buffer;
pub mod bytes;
pub mod eid;
pub mod hash_alg;
pub mod hash_bytes;
pub mod psk;
pub mod session_id;
