/// A session that is ended.
#[derive(Clone, Copy, Debug, PartialEq, Eq)]
pub struct Closed;
