//! What the definitions of both ends share: the terms of a negotiation, keys, records and draws, and the log of
//! computed tags. No code runs here. The definitions are in `specs/`.
//!
//! Read first: `terms_of` in `specs/Terms.antt`, the terms that a negotiation settles.
#![tactic(auto)]
