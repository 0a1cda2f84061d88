//! A responder, its requesters and the packets between them as definitions: what one event of a script does, what may
//! go wrong by chance, and what has to hold. No code runs here. The definitions are in `specs/`, and each function
//! below has a law about them as its contract.
//!
//! Read first: `happens` in `specs/World.antt`, the lines and the world after one event. The law is `chance_stays`.
#![tactic(auto)]

mod laws;

pub use laws::chance_stays;
