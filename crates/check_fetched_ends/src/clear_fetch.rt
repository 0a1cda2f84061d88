//! A large response that is fetched in the clear.

pub mod asked_exchange;
pub mod handshake_left;
pub mod held;
pub mod held_begins;
pub mod held_given;
pub mod held_heard;
pub mod held_last;
pub mod held_late;
pub mod held_replies;
pub mod held_version;
pub mod held_whole;
pub mod late_begins;
pub mod led;
pub mod shown;
