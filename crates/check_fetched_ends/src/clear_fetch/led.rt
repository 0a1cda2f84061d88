/// What the request of a large response leads to in the clear, once all its bytes are there.
#[derive(Clone, Copy, Debug, PartialEq, Eq)]
pub(crate) enum Led {
    /// These bytes.
    Whole,
    /// Others, from which these differ in their verify data alone.
    Apart,
    /// Neither.
    Other,
}
