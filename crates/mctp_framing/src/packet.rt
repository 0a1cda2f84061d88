ghost use Rattle.std.specs.Prelude.{◌≡◌, ◌<◌, IfOk};
ghost use Rattle.mctp_framing.specs.Packet.{parsed, view_of_result};

use spdm_basis::PacketFault;

/// The fields of a packet (DSP0236, "MCTP packet fields"). The payload is borrowed from the packet.
#[derive(Clone, Copy, Debug, PartialEq, Eq)]
pub struct PacketView<'a> {
    /// Destination endpoint ID.
    pub to: u8,
    /// Source endpoint ID.
    pub from: u8,
    /// Whether this is the first packet of its message body (SOM).
    pub start: bool,
    /// Whether this is the last packet of its message body (EOM).
    pub end: bool,
    /// The packet sequence number, below 4 in a packet that was parsed.
    pub sequence: u8,
    /// The tag owner bit (TO).
    pub owner: bool,
    /// The message tag, below 8 in a packet that was parsed.
    pub tag: u8,
    /// What follows the transport header.
    pub payload: &'a [u8],
}

// How many bytes the transport header has, and its version.
const HEADER_LEN: usize = 4;

pub(crate) const HEADER_VERSION: u8 = 1;

/// A packet as bytes.
#[derive(Clone, Copy, Debug, PartialEq, Eq)]
pub struct Packet;

impl Packet {
    /// Reads the transport header of a packet. Returns `Short` exactly when there are fewer than four bytes, and then
    /// `WrongVersion` exactly when the header version is not 1. The reserved bits of the first byte may hold anything.
    pub fn parse(bytes: &[u8]) -> Result<PacketView<'_>, PacketFault>
        ensures parsed { view_of_result result ≡ parsed bytes.now }
        ensures sequence { IfOk result (λ view. view.sequence < 4) }
        ensures tag { IfOk result (λ view. view.tag < 8) }
    {
        if bytes.len() < HEADER_LEN {
            return Err(PacketFault::Short);
        }
        if bytes[0] & 0xf != HEADER_VERSION {
            return Err(PacketFault::WrongVersion);
        }
        let marks = bytes[3];
        let (_, payload) = bytes.split_at(HEADER_LEN);
        Ok(PacketView {
            to: bytes[1],
            from: bytes[2],
            start: marks >> 7 == 1,
            end: (marks >> 6) & 1 == 1,
            sequence: (marks >> 4) & 3,
            owner: (marks >> 3) & 1 == 1,
            tag: marks & 7,
            payload,
        })
    }
}
