//! The keys of a session under a pre-shared key (DSP0274, "Key schedule"; DSP0277): from the key and the hashes of the
//! transcripts to the keys of each direction, to verify data, and to the keys that follow by updates. Nothing here
//! takes memory.
//!
//! Read first: `secret_at` in `specs/Schedule.antt`, a secret of a direction after so many updates.
//! The call to begin with is `HandshakeKeys::derive`.
#![tactic(auto)]

mod app_keys;
mod derivation;
mod direction;
mod direction_key;
mod handshake_keys;
mod label;

pub use app_keys::AppKeys;
pub use direction::Direction;
pub use direction_key::DirectionKey;
pub use handshake_keys::HandshakeKeys;
