use thiserror::Error;

/// The tag is not that of the text (SP 800-38D, section 7.2: the output FAIL).
#[derive(Clone, Copy, Debug, PartialEq, Eq, Error)]
#[error("the tag is not that of the text")]
pub struct BadTag {
    /// The tag that the text has.
    pub computed: [u8; 16],
}
