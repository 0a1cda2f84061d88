/// What a record comes to under a policy: the first of these that holds.
#[derive(Clone, Copy, Debug, PartialEq, Eq)]
pub enum Appraisal {
    /// Whole blocks alone stand before this place, in bytes from the front, and what stands there begins none.
    Malformed { at: usize },
    /// A block has the index of an earlier one.
    Repeated { index: u8 },
    /// No rule has the index of a block.
    Unknown { index: u8 },
    /// A block has another type or another value than its rule expects.
    Differs { index: u8 },
    /// A rule expects a block of this index, the least of which there is none.
    Missing { index: u8 },
    /// The blocks are those that the rules expect, and any that they skip.
    Trusted,
}
