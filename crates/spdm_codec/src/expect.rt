/// What kind of message is read, and what decides how long its parts are.
#[derive(Clone, Copy, Debug, PartialEq, Eq)]
pub enum Expect {
    /// A request, where a hash has `hash_len` bytes.
    Request { hash_len: usize },
    /// A response, where a hash has `hash_len` bytes and `summary` says whether a measurement summary hash was asked
    /// for.
    Response { hash_len: usize, summary: bool },
}
