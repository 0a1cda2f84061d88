//! What two ends agree on before a session: the version, what both can do, and the algorithms (DSP0274, "GET_VERSION",
//! "GET_CAPABILITIES" and "NEGOTIATE_ALGORITHMS"). No call allocates, and each answer is a function of both ends'
//! messages and of what an end has.
//!
//! Read first: `reply_of` in `specs/Reply.antt`, the answer to an offer. The call is `select`.
#![tactic(auto)]

mod agreement;
mod capabilities;
mod laws;
mod no_choice;
mod offer;
mod reply;
mod selection;
mod shared;
mod tables;
mod version;

pub use agreement::agrees;
pub use capabilities::common;
pub use laws::{reply_is_sound, selected_is_agreed};
pub use no_choice::NoChoice;
pub use offer::own_offer;
pub use reply::Reply;
pub use selection::{AlgPolicy, select};
pub use shared::{Common, Sizes};
pub use spdm_grammar::{CapsFault, FlagSet};
pub use version::choose_version;
