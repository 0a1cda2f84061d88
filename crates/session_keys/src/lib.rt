//! What both ends of a session under a pre-shared key do alike (DSP0274, "Session" and "Key schedule"; DSP0277): the
//! keys of its handshake and after it, its verify data, and its records. No call allocates.
//!
//! Read first: `IsKeyOf` in `specs/Keys.antt`, which key of a direction is kept. Calls are `seal_record` and
//! `open_record`.
#![tactic(auto)]

mod context;
mod handshake;
mod inner;
mod keys;
mod terms;
mod wiping;

pub use context::{Context, context_of};
pub use handshake::{Handshake, without_verify};
pub use inner::{APP_DATA, behind_type, byte_at, same_bytes};
pub use keys::{open_record, seal_record};
pub use terms::SessionTerms;
pub use wiping::{wipe_buffer, wipe_key, zero_hash};
