ghost use Rattle.std.specs.Prelude.{◌≡◌, ◌+◌, ◌<◌, ◌^◌, length};
ghost use Rattle.pcap_file.specs.Numbers.{number_at};

/// The order in which the bytes of a number stand.
#[derive(Clone, Copy, Debug, PartialEq, Eq)]
pub enum ByteOrder {
    /// The low byte first.
    Little,
    /// The high byte first.
    Big,
}

impl ByteOrder {
    ghost use Rattle.std.specs.Prelude.{◌≡◌, ◌+◌, ◌<◌, ◌^◌, length};
    ghost use Rattle.pcap_file.specs.Numbers.{number_at};

    /// The number that four bytes are from a place on.
    pub(crate) fn number_at(self, place: usize, bytes: &[u8]) -> u32
        requires { place + 3 < length bytes.now }
        ensures { result ≡ number_at self place bytes.now }
    {
        let first = u32::from(bytes[place]);
        let second = u32::from(bytes[place + 1]);
        let third = u32::from(bytes[place + 2]);
        let fourth = u32::from(bytes[place + 3]);
        match self {
            ByteOrder::Little => first + 256 * second + 65_536 * third + 16_777_216 * fourth,
            ByteOrder::Big => 16_777_216 * first + 65_536 * second + 256 * third + fourth,
        }
    }
}
