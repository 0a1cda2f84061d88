/// How an answer goes on that comes while a large one is fetched.
#[derive(Clone, Copy, Debug, PartialEq, Eq)]
pub enum Upon {
    /// The large response is fetched on.
    Fetched,
    /// Another large response is fetched from now on, and the one before stays unseen.
    Turned,
    /// Nothing is fetched after it: it is the last chunk, or the requester awaits no chunk any more.
    Ended,
}
