/// What an answer in a capture brings.
#[derive(Clone, Copy, Debug, PartialEq, Eq)]
pub enum Given {
    /// It goes whole; or it is a repeat, or a chunk of a large response, but for the last one.
    Whole,
    /// LargeResponse.
    Large,
    /// The last chunk of a large response.
    Last,
}

/// What is said of an answer in a capture.
#[derive(Clone, Copy, Debug, PartialEq, Eq)]
pub enum Judged {
    /// It is right, and brings this.
    Given(Given),
    /// It is wrong in its verify data only: with others it would be right.
    Apart,
    /// It is wrong otherwise.
    Refused,
}
