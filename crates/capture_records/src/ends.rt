ghost use Rattle.std.specs.Prelude.{◌≡◌, ◌<◌, length, IfSome, Some};
ghost use Rattle.capture_records.specs.Ends.{place_of, way_at, way_by, way_in};
ghost use Rattle.mctp_framing.specs.Packet.{parsed, view_of};

use key_schedule::Direction;
use mctp_framing::{Packet, PacketView};
use script_text::ScriptConfig;

/// The way of a packet between the responder and the requester at a place, counted from 0.
#[derive(Clone, Copy, Debug, PartialEq, Eq)]
pub struct Way {
    pub direction: Direction,
    pub place: usize,
}

/// The place of the requester with this endpoint, if there is one.
pub fn place_of(config: &ScriptConfig, eid: u8) -> Option<usize>
    ensures place { result ≡ place_of config.now eid }
    ensures inside { IfSome result (λ place. place < length config.now.requesters) }
{
    config
        .requesters
        .as_slice()
        .iter()
        .position(|q| q.eid.number() == eid)
}

// The way of a packet whose requester stands at a place, if it has one.
fn way_at(direction: Direction, place: Option<usize>) -> Option<Way>
    ensures { result ≡ way_at direction place }
{
    match place {
        Some(place) => Some(Way { direction, place }),
        None => None,
    }
}

// The way of a packet with these fields.
fn way_by(config: &ScriptConfig, view: &PacketView<'_>) -> Option<Way>
    ensures { result ≡ way_by config.now (view_of view.now) }
{
    let own = config.responder.eid.number();
    if view.to == view.from {
        None
    } else if view.to == own && view.owner {
        way_at(Direction::Request, place_of(config, view.from))
    } else if view.from == own && !view.owner {
        way_at(Direction::Response, place_of(config, view.to))
    } else {
        None
    }
}

/// The way of a packet, if it goes between the responder and a requester.
pub fn way_of(config: &ScriptConfig, packet: &[u8]) -> Option<Way>
    ensures { result ≡ way_in config.now (parsed packet.now) }
{
    match Packet::parse(packet) {
        Ok(view) => way_by(config, &view),
        Err(_) => None,
    }
}
