ghost use Rattle.std.specs.Prelude.{◌≡◌, ◌<◌, ◌≤◌, ◌↔◌, length, IsSome, IfSome};

use arrayvec::ArrayVec;
use std::marker::Model;

/// A pre-shared key: 1 to 64 bytes. In contracts, a list.
#[derive(Clone, Drop)]
pub struct Psk {
    items: ArrayVec<u8, 64>,
}

impl Model for Psk {
    ghost use Rattle.std.specs.Prelude.{ℕ, List, ◌<◌, length};

    ghost Value = { List ℕ };

    ghost view = { λ k. k.items.items };

    ghost invariant = { λ k. 0 < length k.items.items };
}

impl Psk {
    /// The key of these bytes, and `None` exactly when there are none or more than 64.
    pub fn new(bytes: &[u8]) -> Option<Psk>
        ensures range { IsSome result ↔ ((0 < length bytes.now) × (length bytes.now ≤ 64)) }
        ensures value { IfSome result (λ psk. psk ≡ bytes.now) }
    {
        if bytes.is_empty() {
            return None;
        }
        let mut items = ArrayVec::new();
        match items.try_extend_from_slice(bytes) {
            Ok(()) => Some(Psk { items }),
            Err(_) => None,
        }
    }

    /// The bytes of the key.
    pub fn as_slice(&self) -> &[u8]
        ensures value { result.now ≡ self.now }
        ensures some { 0 < length self.now }
        ensures few { length self.now ≤ 64 }
    {
        self.items.as_slice()
    }
}
