//! A hash function that is chosen when the program runs: SHA-256 or SHA-384 (FIPS 180-4), taken piece by piece without
//! memory of its own.
//!
//! Read first: `hash_of` in `specs/Hash.antt`, a hash of a list of bytes. The call is `RunningHash::push`.
#![tactic(auto)]

ghost use Rattle.std.specs.Prelude.{◌≡◌, length};
ghost use Rattle.spdm_basis.specs.Sizes.{hash_size};
ghost use Rattle.running_hash.specs.Hash.{hash_of};

use sha2::{Digest, Sha256, Sha384};
use spdm_basis::{HashAlg, HashBytes};

/// A running hash: a hash function and what it was given so far. Contracts relate it to the list of bytes that it was
/// given, which it does not keep.
#[derive(Clone, Drop)]
pub enum RunningHash {
    /// A running SHA-256.
    Small(Sha256),
    /// A running SHA-384.
    Large(Sha384),
}

impl RunningHash {
    ghost use Rattle.std.specs.Prelude.{◌≡◌, ◌++◌, [], ℕ, List, length};
    ghost use Rattle.spdm_basis.specs.Sizes.{hash_size};
    ghost use Rattle.running_hash.specs.Hash.{hash_of};
    ghost use Rattle.running_hash.specs.Holds.{Holds, function_of};

    /// The running hash of no bytes.
    pub fn new(hash: HashAlg) -> Self
        ensures function { function_of result ≡ hash }
        ensures given { Holds result [] }
    {
        match hash {
            HashAlg::Sha256 => RunningHash::Small(Sha256::new()),
            HashAlg::Sha384 => RunningHash::Large(Sha384::new()),
        }
    }

    /// Appends bytes of what was given.
    pub fn push(&mut self, bytes: &[u8])
        ensures function { function_of self.new ≡ function_of self.old }
        ensures given { (given : List ℕ) → Holds self.old given
            → Holds self.new (given ++ bytes.now) }
    {
        match self {
            RunningHash::Small(hasher) => hasher.update(bytes),
            RunningHash::Large(hasher) => hasher.update(bytes),
        }
    }

    /// The hash of all that was given.
    pub fn finish(self) -> HashBytes
        ensures value { (given : List ℕ) → Holds self given
            → result ≡ (hash_of (function_of self)).digest given }
        ensures size { length result ≡ hash_size (function_of self) }
    {
        match self {
            RunningHash::Small(hasher) => HashBytes::from(hasher.finalize()),
            RunningHash::Large(hasher) => HashBytes::from(hasher.finalize()),
        }
    }
}

/// The hash of `bytes`.
pub fn digest(hash: HashAlg, bytes: &[u8]) -> HashBytes
    ensures value { result ≡ (hash_of hash).digest bytes.now }
    ensures size { length result ≡ hash_size hash }
{
    let mut running = RunningHash::new(hash);
    running.push(bytes);
    running.finish()
}
