use spdm_basis::RecordFrame;

/// Scratch space for the inner messages of two records that are compared. Fixed size; never allocates.
#[derive(Drop)]
pub struct InnerPair {
    pub(crate) asked: RecordFrame,
    pub(crate) came: RecordFrame,
}

impl InnerPair {
    ghost use Rattle.std.specs.Prelude.{◌≡◌, []};

    /// Empty buffers.
    pub fn new() -> InnerPair
        ensures asked { result.asked ≡ [] }
        ensures came { result.came ≡ [] }
    {
        InnerPair {
            asked: RecordFrame::new(),
            came: RecordFrame::new(),
        }
    }
}
