//! Authenticated encryption by AES in Galois/Counter Mode (SP 800-38D) with keys of 16 and 32 bytes, as
//! DSP0277 uses it. Texts are encrypted and decrypted in place, and no call takes memory. The cipher and the
//! hash are those of `src/primitives.rt`, which read no place in memory and take no branch that depends on a
//! key or a text; tags are compared over all bytes. That is how they are written, and not proved.
//!
//! Read first: `crypted` in `specs/Gcm.antt`, a text under a key and nonce, with `tag_of` beside
//! it. Calls are `GcmKey::seal` and `GcmKey::open`.
#![tactic(auto)]

mod bad_tag;
mod counter;
mod gcm_key;
mod primitives;

pub use bad_tag::BadTag;
pub use gcm_key::GcmKey;
