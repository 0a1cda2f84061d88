//! A world in which a session is opened, data is sent in it, and nothing agrees by chance: so the laws of agreement and
//! of honest completion speak of something. No code runs here: the function below has the statement as its contract.
//!
//! Read first: `SessionOpens` in `specs/Example.antt`. The proof computes the run of the two ends packet by packet, with
//! HMAC, SHA-256, AES and GHASH as they are defined.
#![tactic(auto)]

ghost use Rattle.example_world.specs.Example.{SessionOpens};

/// The world keeps all limits, no two of its tags agree by chance, both of its ends hold one session open under which the
/// responder took data, and its script is honest.
pub fn session_opens()
    ensures { SessionOpens }
{}
