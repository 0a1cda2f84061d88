ghost use Rattle.std.specs.Prelude.{◌≡◌, ◌<◌, ◌≤◌, ◌↔◌, IsSome, IfSome};

/// An endpoint ID (DSP0236, "Endpoint ID"): 8 to 254. Values below 8 are null or reserved, and 255 is broadcast.
#[derive(Clone, Copy, Debug, PartialEq, Eq)]
pub struct Eid {
    number: u8,
    pub ghost low: { 8 ≤ number },
    pub ghost high: { number < 255 },
}

impl Eid {
    /// The endpoint ID with this value; `None` exactly when it is below 8 or is 255.
    pub fn new(number: u8) -> Option<Eid>
        ensures range { IsSome result ↔ ((8 ≤ number) × (number < 255)) }
        ensures value { IfSome result (λ eid. eid.number ≡ number) }
    {
        if number < 8 || number == 255 {
            return None;
        }
        Some(Eid { number })
    }

    /// The value.
    pub fn number(&self) -> u8
        ensures value { result ≡ self.now.number }
        ensures low { 8 ≤ result }
        ensures high { result < 255 }
    {
        self.number
    }
}
