use spdm_grammar::Why;

/// How a request or an answer goes on from what is kept of a requester and the responder.
#[derive(Clone, Copy, Debug, PartialEq, Eq)]
pub enum Continuation {
    /// To what is kept after it.
    Kept,
    /// Into a large message: the state is then unspecified.
    Large,
    /// An answer may be given by what it shows, and the requester requests a chunk in response: a fetch begins by it
    /// where it is LargeResponse again, and else it is refused, and this is why. The state is then unspecified.
    Asked(Why),
}
