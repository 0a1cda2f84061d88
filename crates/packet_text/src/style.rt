/// How packets are written.
#[derive(Clone, Copy, Debug, PartialEq, Eq)]
pub enum Style {
    /// A block of lines for each, for a person.
    Words,
    /// An object of JSON on a line of its own for each, for scripts.
    Json,
}
