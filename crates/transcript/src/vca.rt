ghost use Rattle.std.specs.Prelude.{◌≡◌, ◌≤◌, ◌+◌, ◌++◌, [], length};

use spdm_basis::Buffer;
use std::marker::Model;

/// The messages of a negotiation, one after the other: GET_VERSION, VERSION, GET_CAPABILITIES, CAPABILITIES,
/// NEGOTIATE_ALGORITHMS and ALGORITHMS, whole and as sent (DSP0274, "VCA"). It holds up to 8,768 bytes. In contracts, a
/// list.
#[derive(Clone, Drop)]
pub struct Vca {
    messages: Buffer<8768>,
}

impl Model for Vca {
    ghost use Rattle.std.specs.Prelude.{ℕ, List};

    ghost Value = { List ℕ };

    ghost view = { λ v. v.messages };
}

impl Vca {
    /// No message.
    pub fn new() -> Vca
        ensures { result ≡ [] }
    {
        Vca {
            messages: Buffer::new(),
        }
    }

    /// Adds a message, which fits into what is left of the buffer.
    pub fn push(&mut self, message: &[u8])
        requires { length self.old + length message.now ≤ 8768 }
        ensures { self.new ≡ self.old ++ message.now }
    {
        let _ = self.messages.extend(message);
    }

    /// Takes all messages out.
    pub fn clear(&mut self)
        ensures { self.new ≡ [] }
    {
        self.messages.clear();
    }

    /// The bytes of all messages.
    pub fn as_slice(&self) -> &[u8]
        ensures value { result.now ≡ self.now }
        ensures fits { length self.now ≤ 8768 }
    {
        self.messages.as_slice()
    }
}
