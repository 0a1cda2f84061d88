use spdm_grammar::Heard;

/// What would come of a clear message.
#[derive(Clone, Copy, Debug, PartialEq, Eq)]
pub struct DryRun {
    /// The outcome that would be reported.
    pub heard: Heard,
    /// Whether a large response would be pending after it.
    pub pending: bool,
}
