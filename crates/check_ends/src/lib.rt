//! What the two ends of a capture may have sent, judged by the ends' own code: the requests and the answers of one
//! requester, while no large response is fetched.
//!
//! Read first: `StandsFor` in `specs/Conversation.antt`, what is kept of a requester and the responder at any such
//! place, and `IsParty` in `specs/Party.antt`, what is kept while no large message is in progress. The calls are
//! `Conversation::asks` and `Conversation::replies`, and `Party::asks` and `Party::replies`.
#![tactic(auto)]

mod continuation;
mod conversation;
mod conversation_laws;
mod conversation_replies;
mod conversation_requests;
mod party;
mod party_laws;
mod party_replies;

pub use continuation::Continuation;
pub use conversation::Conversation;
pub use conversation_laws::{awaiting_conversations_stay, other_conversations_stay, walks_show};
pub use party::Party;
pub use party_laws::other_parties_stay;
pub use spdm_grammar::Why;
