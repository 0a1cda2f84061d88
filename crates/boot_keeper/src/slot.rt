ghost use Rattle.std.specs.Prelude.{◌≡◌, length};
ghost use Rattle.boot_keeper.specs.Slots.{gate_of, greatest, is_valid, kept, number_in, other_than, place_of, valid_number};

use crate::keeper::Device;
use byteorder::{ByteOrder, LittleEndian};

/// One of the two slots of a device.
#[derive(Clone, Copy)]
pub enum Slot {
    First,
    Second,
}

/// The gate byte of a slot whose number is valid.
pub const OPEN: u8 = 1;

/// The gate byte of a slot whose number is being written.
pub const CLOSED: u8 = 0;

impl Slot {
    /// The place of its number, which has eight bytes.
    pub fn place(self) -> u8
        ensures { result ≡ place_of self }
    {
        match self {
            Slot::First => 0,
            Slot::Second => 9,
        }
    }

    /// The place of its gate byte.
    pub fn gate(self) -> u8
        ensures { result ≡ gate_of self }
    {
        self.place() + 8
    }

    // Whether its gate is open.
    fn is_valid(self, device: &Device) -> bool
        ensures { result ≡ is_valid device.now self }
    {
        device[usize::from(self.gate())] == OPEN
    }

    // The number in it.
    fn number(self, device: &Device) -> u64
        ensures { result ≡ number_in device.now self }
    {
        LittleEndian::read_u64(&device[usize::from(self.place())..])
    }

    // The number in it where its gate is open, and 0 elsewhere.
    fn valid_number(self, device: &Device) -> u64
        ensures { result ≡ valid_number device.now self }
    {
        if self.is_valid(device) {
            self.number(device)
        } else {
            0
        }
    }
}

/// The greatest valid number of a device, 0 where no slot is valid.
pub fn greatest(device: &Device) -> u64
    ensures { result ≡ greatest device.now }
{
    Slot::First
        .valid_number(device)
        .max(Slot::Second.valid_number(device))
}

// The slot with that number, the first of two.
fn kept(device: &Device) -> Option<Slot>
    ensures { result ≡ kept device.now }
{
    let (first, second) = (Slot::First, Slot::Second);
    if first.is_valid(device)
        && (!second.is_valid(device) || second.number(device) <= first.number(device))
    {
        Some(first)
    } else if second.is_valid(device) {
        Some(second)
    } else {
        None
    }
}

/// The slot that the next number goes into: the other than that of the greatest valid number.
pub fn free(device: &Device) -> Slot
    ensures { result ≡ other_than (kept device.now) }
{
    match kept(device) {
        Some(Slot::First) => Slot::Second,
        Some(Slot::Second) | None => Slot::First,
    }
}
