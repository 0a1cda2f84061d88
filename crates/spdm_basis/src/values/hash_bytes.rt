ghost use Rattle.std.specs.Prelude.{◌≡◌, ◌↔◌, ◌⊎◌, length, IsSome, IfSome, IsTrue};
ghost use Rattle.spdm_basis.specs.Sizes.{is_hash_size};

use arrayvec::ArrayVec;
use std::marker::Model;

/// A hash: 32 bytes of SHA-256 or 48 bytes of SHA-384. In contracts, a list.
#[derive(Clone, Debug, Drop)]
pub struct HashBytes {
    items: ArrayVec<u8, 48>,
}

impl Model for HashBytes {
    ghost use Rattle.std.specs.Prelude.{ℕ, List, IsTrue, length};
    ghost use Rattle.spdm_basis.specs.Sizes.{is_hash_size};

    ghost Value = { List ℕ };

    ghost view = { λ h. h.items.items };

    ghost invariant = { λ h. IsTrue (is_hash_size (length h.items.items)) };
}

impl HashBytes {
    /// The hash of these bytes, and `None` exactly when there are neither 32 nor 48.
    pub fn new(bytes: &[u8]) -> Option<HashBytes>
        ensures range { IsSome result ↔ ((length bytes.now ≡ 32) ⊎ (length bytes.now ≡ 48)) }
        ensures value { IfSome result (λ hash. hash ≡ bytes.now) }
    {
        if bytes.len() != 32 && bytes.len() != 48 {
            return None;
        }
        let mut items = ArrayVec::new();
        let _ = items.try_extend_from_slice(bytes);
        Some(HashBytes { items })
    }

    /// The bytes.
    pub fn as_slice(&self) -> &[u8]
        ensures value { result.now ≡ self.now }
        ensures size { IsTrue (is_hash_size (length self.now)) }
    {
        self.items.as_slice()
    }
}

impl From<[u8; 32]> for HashBytes {
    ghost from_gives = { λ bytes hash. hash ≡ bytes };

    fn from(bytes: [u8; 32]) -> HashBytes {
        let mut items = ArrayVec::new();
        let _ = items.try_extend_from_slice(&bytes);
        HashBytes { items }
    }
}

impl From<[u8; 48]> for HashBytes {
    ghost from_gives = { λ bytes hash. hash ≡ bytes };

    fn from(bytes: [u8; 48]) -> HashBytes {
        HashBytes {
            items: ArrayVec::from_array_in((), bytes),
        }
    }
}
