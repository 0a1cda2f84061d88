ghost use Rattle.std.specs.Prelude.{◌≡◌};
ghost use Rattle.mctp_framing.specs.Cutting.{route_of};
ghost use Rattle.mctp_framing.specs.Gathering.Gathered.{Whole};
ghost use Rattle.check_laws.specs.Order.{answered_why, asked_why};
ghost use Rattle.trace_check.specs.Bodies.{told_of};
ghost use Rattle.capture_machine.specs.Difference.{is_other_type};

use check_laws::Round;
use mctp_framing::Route;
use spdm_grammar::Why;
use spdm_grammar::names::message_type::{SECURED, SPDM};

// Whether a body is neither an SPDM message in the clear nor a secured record.
fn is_other_type(body: &[u8]) -> bool
    ensures { result ≡ is_other_type body.now }
{
    match body.first() {
        Some(&kind) => kind != SPDM && kind != SECURED,
        None => true,
    }
}

// The reason that the order gives against a request that came whole; `None` where it is in order.
pub(crate) fn asked_why(round: &Round, route: Route, body: &[u8]) -> Option<Why>
    ensures { told_of result ≡ asked_why round.now (Whole (route_of route) body.now) }
{
    if is_other_type(body) {
        return Some(Why::BadPacket);
    }
    if round.asks_wrong(route.owner, route.tag, body) {
        return Some(Why::WrongTurn);
    }
    None
}

// The reason that the order gives against an answer that came whole; `None` where it is in order.
pub(crate) fn answered_why(round: &Round, route: Route, answer: &[u8]) -> Option<Why>
    ensures { told_of result ≡ answered_why round.now (Whole (route_of route) answer.now) }
{
    if is_other_type(answer) {
        return Some(Why::BadPacket);
    }
    if round.replies_wrong(route.owner, route.tag) {
        return Some(Why::WrongTurn);
    }
    None
}
