use crate::messages::{chunk_in, size_with};
use spdm_basis::Frame;

/// A large response that is fetched in chunks: its announced length, how many chunks came, and their bytes. Never
/// allocates.
#[derive(Drop)]
pub struct LargeAnswer {
    pub(crate) size: Option<usize>,
    pub(crate) number: u16,
    pub(crate) bytes: Frame,
}

impl LargeAnswer {
    ghost use Rattle.std.specs.Prelude.{◌≡◌, ℕ, List};
    ghost use Rattle.check_late_laws.specs.Fetching.{Fetching, answer_by, number_of};
    ghost use Rattle.check_late_laws.specs.FetchingShown.{ShowsChunk};
    ghost use Rattle.check_late_laws.specs.LargeAnswers.{StandsFor};

    /// LargeResponse came, in response to which the requester asks for a chunk.
    pub fn new() -> LargeAnswer
        ensures { (f : Fetching) → number_of f ≡ 0 → StandsFor result f }
    {
        LargeAnswer {
            size: None,
            number: 0,
            bytes: Frame::new(),
        }
    }

    /// The next chunk came, in this CHUNK_RESPONSE.
    pub fn take(&mut self, message: &[u8])
        ensures { (f next : Fetching) (answer : List ℕ) (shown : ShowsChunk f next answer)
            → answer_by shown.entry ≡ message.now → StandsFor self.old f → StandsFor self.new next }
    {
        let first = self.number == 0;
        if self.bytes.extend(chunk_in(first, message)).is_err() {
            return;
        }
        self.size = size_with(first, message, self.size);
        self.number = self.number.saturating_add(1);
    }

    /// The announced length; none before the first chunk.
    pub fn size(&self) -> Option<usize>
        ensures { result ≡ self.now.size }
    {
        self.size
    }

    /// How many chunks came, which is the number of the next one.
    pub fn number(&self) -> u16
        ensures { result ≡ self.now.number }
    {
        self.number
    }

    /// The bytes so far; all of them, once the last chunk came.
    pub fn bytes(&self) -> &[u8]
        ensures { result.now ≡ self.now.bytes }
    {
        self.bytes.as_slice()
    }
}
