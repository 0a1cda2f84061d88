//! The application message that a packet would bring, told without taking the packet.
ghost use Rattle.std.specs.Prelude.{◌≡◌, ◌≤◌, ◌+◌, ◌++◌, length};
ghost use Rattle.responder.specs.Peeking.{IsBrought};
ghost use Rattle.responder_core.specs.Connected as connected;
ghost use Rattle.responder_machine.specs.NewData.{body_brings};
ghost use Rattle.responder_machine.specs.Responding as responding;
ghost use Rattle.mctp_framing.specs.Cutting.{RouteFields};
ghost use Rattle.spdm_grammar.specs.declared.names.TheConstants.{MAX_BODY_SIZE};

use crate::Responder;
use crate::body::Body;
use crate::peer::Peer;
use crate::serving::WEAR_LIMIT;
use mctp_framing::{Packet, PacketView};
use responder_core::{Connection, record_id};
use spdm_basis::{Eid, RecordFrame, SessionId};
use spdm_grammar::names::message_type::SECURED;

/// Room that `Responder::peek` works in, and holds the data in that it tells. One serves any number of calls. Fixed
/// size, 8,321 bytes and two lengths; never allocates.
#[derive(Drop)]
pub struct PeekRoom {
    // The message body that the packet completes.
    body: Body,
    // What is sealed in it.
    inner: RecordFrame,
}

impl PeekRoom {
    /// Empty room.
    pub fn new() -> PeekRoom {
        PeekRoom {
            body: Body::new(),
            inner: RecordFrame::new(),
        }
    }
}

/// An application message that a packet would bring.
#[derive(Clone, Copy, Debug, PartialEq, Eq)]
pub struct Peeked<'a> {
    /// The requester that it comes from.
    pub eid: Eid,
    /// Its session.
    pub id: SessionId,
    /// The application data: at most 1,024 bytes.
    pub data: &'a [u8],
}

// Overwrites a body with what came before a packet, and the payload of the packet.
fn write_whole(before: &[u8], payload: &[u8], body: &mut Body)
    ensures { length before.now + length payload.now ≤ MAX_BODY_SIZE
        → body.new ≡ before.now ++ payload.now }
{
    body.clear();
    let _ = body.extend(before);
    let _ = body.extend(payload);
}

// The application message that a whole body of the requester with this endpoint ID would bring; `owner` is the tag owner
// bit of its route.
fn peek_body<'a>(
    connection: &Connection,
    eid: Eid,
    owner: bool,
    body: &[u8],
    inner: &'a mut RecordFrame,
) -> Option<Peeked<'a>>
    ensures { (c : responding.Connection) (route : RouteFields) → route.owner ≡ owner
        → connected.StandsFor connection.now c.setup c.history
        → IsBrought result eid.number (body_brings c route body.now) }
{
    if !owner {
        return None;
    }
    match body {
        [SECURED, sealed @ ..] => {
            let data = connection.new_data(sealed, inner)?;
            Some(Peeked {
                eid,
                id: record_id(sealed),
                data,
            })
        }
        _ => None,
    }
}

impl Peer {
    ghost use Rattle.std.specs.Prelude.{◌<◌, List};
    ghost use Rattle.mctp_framing.specs.Packet.{PacketFields, view_of};
    ghost use Rattle.responder.specs.Peeking.{IsBrought};
    ghost use Rattle.responder.specs.Peers.{StandsFor, gathered_at};
    ghost use Rattle.responder_machine.specs.NewData.{gathered_brings};
    ghost use Rattle.responder_machine.specs.Responding as responding;
    ghost use Rattle.responder_machine.specs.Setup.{RspPart};

    // The application message that a packet from this requester to the responder would bring.
    pub(crate) fn peek<'a>(
        &self,
        view: PacketView<'_>,
        room: &'a mut PeekRoom,
    ) -> Option<Peeked<'a>>
        requires { view.tag < 8 }
        ensures { (p : RspPart) (given : List PacketFields) (c : responding.Connection)
            → StandsFor self.now p given c → IsBrought result self.now.known.eid.number
            (gathered_brings c (gathered_at p given c (view_of view.entry))) }
    {
        let completing = self.assembler.completing(view)?;
        let PeekRoom { body, inner } = room;
        write_whole(completing.before, view.payload, body);
        let owner = completing.route.owner;
        peek_body(
            &self.connection,
            self.known.eid,
            owner,
            body.as_slice(),
            inner,
        )
    }
}

impl Responder {
    ghost use Rattle.std.specs.Prelude.{◌<◌, Ok};
    ghost use Rattle.mctp_framing.specs.Packet.{view_of};
    ghost use Rattle.responder.specs.Peeking.{IsBrought};
    ghost use Rattle.responder.specs.Standing.{StandsFor};
    ghost use Rattle.responder_machine.specs.EndLaws.{source_of};
    ghost use Rattle.responder_machine.specs.NewData.{brings, brings_packet};
    ghost use Rattle.responder_machine.specs.Responding.{Responding, responder_hears};

    /// The application message that `on_packet` would take as a new one, if it were given this packet now: `Some`
    /// exactly where it would report `Taken`. A repeat gives `None`, since its response is stored. The data stands in
    /// `room`. Nothing of the responder changes, so a caller can queue a reply and then give the packet to `on_packet`,
    /// which sends it. Never allocates (read, not proved).
    pub fn peek<'a>(&self, packet: &[u8], room: &'a mut PeekRoom) -> Option<Peeked<'a>>
        ensures brings { (r : Responding) → StandsFor self.now r
            → IsBrought result (source_of packet.now) (brings r packet.now) }
        ensures taken { (r : Responding) → StandsFor self.now r
            → IsBrought result (source_of packet.now) (responder_hears r packet.now).taken }
    {
        if self.given >= WEAR_LIMIT {
            return None;
        }
        match Packet::parse(packet) {
            Ok(view) => self.peek_view(view, room),
            Err(_) => None,
        }
    }

    // The same of a packet below the lifetime limit.
    fn peek_view<'a>(&self, view: PacketView<'_>, room: &'a mut PeekRoom) -> Option<Peeked<'a>>
        requires { view.tag < 8 }
        ensures { (r : Responding) → StandsFor self.now r
            → IsBrought result view.entry.from (brings_packet r (Ok (view_of view.entry))) }
    {
        if view.to != self.part.eid.number() {
            return None;
        }
        match self.place_of(view.from) {
            Some(place) => self.peers[place].peek(view, room),
            None => None,
        }
    }
}
