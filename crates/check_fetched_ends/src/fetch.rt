use crate::{Held, InSession};

/// A large response that is fetched.
#[derive(Drop)]
pub enum Fetch {
    /// In a session: the responder's connection judges with some bytes in the place of the answer.
    InSession(InSession),
    /// In the clear: the responder's connection stands as the request left it.
    InClear(Held),
}
