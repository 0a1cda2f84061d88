/// What an answer is that comes while a large one is fetched in the clear.
#[derive(Clone, Copy, Debug, PartialEq, Eq)]
pub enum Shown {
    /// The answer that the same request got before.
    Same,
    /// The next chunk, and more follow.
    Between,
    /// The next chunk, which is the last one.
    Last,
    /// None of these.
    Other,
}
