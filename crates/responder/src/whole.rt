ghost use Rattle.std.specs.Prelude.{◌≡◌, ◌≤◌, ◌<◌, ◌-◌, ◌^◌, [], false, length};
ghost use Rattle.responder_core.specs.Connected.{StandsFor};
ghost use Rattle.responder_core.specs.Setup.{IsSetUp};
ghost use Rattle.mctp_framing.specs.Cutting.{route_of};
ghost use Rattle.responder.specs.Came.{IsMet, came_whole};
ghost use Rattle.responder.specs.SetUp.{IsPart};
ghost use Rattle.responder_machine.specs.BoundLaws.{messages_of};
ghost use Rattle.responder_machine.specs.Does.{IsMade};
ghost use Rattle.responder_machine.specs.Responding as responding;
ghost use Rattle.responder_machine.specs.Setup.{Known, RspPart, towards};
ghost use Rattle.spdm_machine.specs.Keys.{draw_of};
ghost use Rattle.spdm_grammar.specs.declared.names.TheConstants.{MAX_OPAQUE_LEN};

use crate::hearing::{hear_clear, hear_record};
use crate::part::Part;
use crate::shared::Shared;
use mctp_framing::{PacketList, Route};
use responder_core::{Connection, Setup};
use spdm_grammar::names::message_type::{SECURED, SPDM};
use spdm_grammar::{Heard, RspIgnored};

/// The route of a response.
fn reversed(route: Route) -> Route
    ensures { route_of result
        ≡ record {
          to = route.from.number;
          from = route.to.number;
          owner = false;
          tag = route.tag;
        } }
{
    Route {
        to: route.from,
        from: route.to,
        owner: false,
        tag: route.tag,
    }
}

/// Handles a complete message body that arrived by this route. The response packets overwrite `out`; without a response
/// `out` is unchanged.
pub(crate) fn hear_whole(
    connection: &mut Connection,
    part: &Part,
    setup: &Setup<'_>,
    shared: &mut Shared,
    route: Route,
    bytes: &[u8],
    out: &mut PacketList,
) -> Heard
    requires { length setup.now.opaque.now ≤ MAX_OPAQUE_LEN }
    ensures { (p : RspPart) (q : Known) (c : responding.Connection) → IsPart part.now p
        → IsSetUp setup.now c.setup → c.setup ≡ towards p q → IsMade c.setup c.history
        → messages_of c.history < 2 ^ 64 - 1 → shared.old.draws.number < 2 ^ 64 - 1
        → route.to.number ≡ p.eid → route.from.number ≡ q.eid → out.old ≡ []
        → StandsFor connection.old c.setup c.history
        → IsMet c
        (came_whole c (draw_of shared.old.draws.seed shared.old.draws.number) (route_of route)
        bytes.now)
        result out.new connection.new shared.old shared.new }
{
    if !route.owner {
        return Heard::Ignored(RspIgnored::NotRequest);
    }
    let drawn = shared.draws.peek();
    let room = shared.room.as_mut();
    let heard = match bytes {
        [SPDM, message @ ..] => hear_clear(connection, setup, route.tag, message, &drawn, room),
        [SECURED, sealed @ ..] => hear_record(connection, setup, sealed, &drawn, room),
        _ => return Heard::Ignored(RspIgnored::OtherType),
    };
    out.fill(
        room.body.as_slice(),
        usize::from(part.unit),
        reversed(route),
    );
    shared.follow(connection, heard);
    heard
}
