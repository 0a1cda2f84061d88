ghost use Rattle.std.specs.Prelude.{◌≡◌, ◌≤◌, ◌<◌, ◌+◌, ◌*◌, ◌%◌, [], ◌∷◌, length};
ghost use Rattle.mctp_framing.specs.Packet.{bit, spelled_packet};
ghost use Rattle.mctp_framing.specs.Cutting.{nth_packet, only_packet, packet_count, packets_of, route_of};

use crate::Route;
use crate::packet::HEADER_VERSION;
use spdm_basis::Buffer;
use std::marker::Model;

/// A packet as bytes: up to 4 bytes of header and 1,024 of payload. In contracts, a list.
pub type PacketBuf = Buffer<1028>;

/// The packets of a message body, in order. In contracts, the list of those that are left.
#[derive(Drop)]
pub struct Cutter<'a> {
    body: &'a [u8],
    unit: usize,
    route: Route,
    // How many packets the body has, and how many were given.
    count: usize,
    given: usize,
}

impl<'a> Model for Cutter<'a> {
    ghost use Rattle.std.specs.Prelude.{◌≡◌, ◌≤◌, List, ℕ, drop};
    ghost use Rattle.mctp_framing.specs.Cutting.{packet_count, packets_of, route_of};

    ghost Value = { List (List ℕ) };

    ghost view = { λ c. drop c.given (packets_of (route_of c.route) c.unit c.body.now) };

    ghost invariant = { λ c. (64 ≤ c.unit) × (c.unit ≤ 1024)
        × (c.count ≡ packet_count c.unit c.body.now) × (c.given ≤ c.count) };
}

/// Fragments a message body into packets of `unit` payload bytes, the last of which may be shorter (DSP0236, "Message
/// assembly"). The body is not empty, and the unit is from 64 to 1,024.
pub fn cut<'a>(body: &'a [u8], unit: usize, route: Route) -> Cutter<'a>
    requires filled { 0 < length body.now }
    requires low { 64 ≤ unit }
    requires high { unit ≤ 1024 }
    ensures packets { result ≡ packets_of (route_of route) unit body.now }
    // A body of at most a unit is one packet.
    ensures only { length body.now ≤ unit
        → result ≡ spelled_packet (only_packet (route_of route) body.now) ∷ [] }
{
    Cutter {
        body,
        unit,
        route,
        count: body.len().div_ceil(unit),
        given: 0,
    }
}

impl<'a> Iterator for Cutter<'a> {
    ghost use Rattle.std.specs.Iterator.{YieldsFirst, item_count};

    type Item = PacketBuf;

    ghost next_gives = { YieldsFirst (λ left. left) };

    ghost remaining = { item_count (λ left. left) };

    fn next(&mut self) -> Option<PacketBuf> {
        if self.given == self.count {
            return None;
        }
        let packet = packet_at(self.body, self.unit, self.route, self.given, self.count);
        self.given += 1;
        Some(packet)
    }
}

// The packet of this number, of the number of packets that the body has.
fn packet_at(body: &[u8], unit: usize, route: Route, number: usize, count: usize) -> PacketBuf
    requires low { 64 ≤ unit }
    requires high { unit ≤ 1024 }
    requires counted { count ≡ packet_count unit body.now }
    requires within { number < count }
    ensures { result ≡ spelled_packet (nth_packet (route_of route) unit body.now number) }
{
    let from = number * unit;
    let len = unit.min(body.len() - from);
    let payload = &body[from..from + len];
    let marks = marks_byte(route, number == 0, number + 1 == count, number);
    let mut packet = PacketBuf::new();
    let _ = packet.extend(&[
        HEADER_VERSION,
        route.to.number(),
        route.from.number(),
        marks,
    ]);
    let _ = packet.extend(payload);
    packet
}

// The fourth byte of a packet: SOM, EOM, sequence number, tag owner bit and tag.
fn marks_byte(route: Route, start: bool, end: bool, number: usize) -> u8
    ensures { result ≡ bit start * 128 + bit end * 64 + number % 4 * 16 + bit route.owner * 8
        + route.tag }
{
    let sequence = (number % 4) as u8;
    route.tag
        | u8::from(route.owner) << 3
        | sequence << 4
        | u8::from(end) << 6
        | u8::from(start) << 7
}
