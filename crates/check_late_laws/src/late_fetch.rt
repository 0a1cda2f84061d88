//! A large response in the clear whose fetch begins late: its LargeResponse was not seen at first.

pub mod laws;
pub mod marks;
