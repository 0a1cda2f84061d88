use crate::Name;
use arrayvec::ArrayVec;

/// A field and its size in bytes.
#[derive(Clone, Copy, Debug, Default, PartialEq, Eq)]
pub struct Field {
    pub name: Name,
    pub size: usize,
}

/// The fields of a message, in their order.
pub type FieldList = ArrayVec<Field, 20>;
