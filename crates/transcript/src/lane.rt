use running_hash::RunningHash;
use spdm_basis::{HashAlg, HashBytes};

/// The hash of a transcript, taken message by message (DSP0274, "Transcript hash"). A lane does not keep what was
/// pushed: contracts relate it to the list of all pushed bytes, for which it stands.
#[derive(Clone, Drop)]
pub struct Lane {
    running: RunningHash,
}

impl Lane {
    ghost use Rattle.std.specs.Prelude.{◌≡◌, ◌++◌, [], ℕ, List, length};
    ghost use Rattle.spdm_basis.specs.Sizes.{hash_size};
    ghost use Rattle.running_hash.specs.Hash.{hash_of};
    ghost use Rattle.transcript.specs.Lane.{StandsFor, lane_hash};

    /// A lane of no bytes.
    pub fn new(hash: HashAlg) -> Lane
        ensures hash { lane_hash result ≡ hash }
        ensures pushed { StandsFor result [] }
    {
        Lane {
            running: RunningHash::new(hash),
        }
    }

    /// Appends bytes of what was pushed.
    pub fn push(&mut self, bytes: &[u8])
        ensures hash { lane_hash self.new ≡ lane_hash self.old }
        ensures pushed { (pushed : List ℕ) → StandsFor self.old pushed
            → StandsFor self.new (pushed ++ bytes.now) }
    {
        self.running.push(bytes);
    }

    /// The hash of all that was pushed.
    pub fn finish(self) -> HashBytes
        ensures value { (pushed : List ℕ) → StandsFor self pushed
            → result ≡ (hash_of (lane_hash self)).digest pushed }
        ensures size { length result ≡ hash_size (lane_hash self) }
    {
        self.running.finish()
    }
}
