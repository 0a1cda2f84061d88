ghost use Rattle.std.specs.Prelude.{◌≡◌, ◌≢◌, ◌<◌, ◌^◌, ℕ, false, true, MatchOption};
ghost use Rattle.responder_core.specs.Connected.{StandsFor};
ghost use Rattle.responder_core.specs.Sessions.{IsViewOf};
ghost use Rattle.check_fetched_laws.specs.ClearSessions.{IsWithoutHandshake, is_in_handshake};
ghost use Rattle.check_fetched_ends.specs.AskedInClear.{IsLeftIf};
ghost use Rattle.responder_machine.specs.BoundLaws.{messages_of};
ghost use Rattle.responder_machine.specs.History.{History};
ghost use Rattle.responder_machine.specs.Session.{Events, session_of};
ghost use Rattle.responder_machine.specs.Setup.{RspSetup};

use responder_core::Connection;
use spdm_grammar::{SessionView, Stage};

// Whether a session is in its handshake.
#[tactic(auto, unfolding(responder_machine::specs::Heard::view_of))]
fn is_beginning(view: Option<SessionView>) -> bool
    ensures { (s : Events) → IsViewOf view s → result ≡ is_in_handshake s }
{
    match view {
        Some(view) => view.stage == Stage::Handshake,
        None => false,
    }
}

// Whether the session with this RspSessionID is in its handshake. Requires fewer than 2^64 received messages.
fn is_begun(connection: &Connection, id: u16) -> bool
    ensures { (r : RspSetup) (h : History) → StandsFor connection.now r h → messages_of h < 2 ^ 64
        → result ≡ is_in_handshake (session_of id h) }
{
    is_beginning(connection.view(id))
}

// The session that is in its handshake, if one is.
fn handshake_id(connection: &Connection) -> Option<u16>
    ensures { (r : RspSetup) (h : History) → StandsFor connection.now r h → messages_of h < 2 ^ 64
        → MatchOption result ((id : ℕ) → id ≢ 0 → is_in_handshake (session_of id h) ≡ false)
        (λ id. is_in_handshake (session_of id h) ≡ true) }
{
    if is_begun(connection, 1) {
        return Some(1);
    }
    if is_begun(connection, 2) {
        return Some(2);
    }
    if is_begun(connection, 3) {
        return Some(3);
    }
    if is_begun(connection, 4) {
        return Some(4);
    }
    None
}

// Ends the handshake of the session that is in it, if one is.
fn end_handshake(connection: &mut Connection)
    ensures { (r : RspSetup) (h : History) → StandsFor connection.old r h → messages_of h < 2 ^ 64
        → (left : History) × IsWithoutHandshake h left × StandsFor connection.new r left }
{
    if let Some(id) = handshake_id(connection) {
        connection.expire(id);
    }
}

/// A request in the clear came whose large response was not seen: PSK_EXCHANGE ends the handshake of the session that
/// is in it, and any other leaves the sessions. Requires fewer than 2^64 received messages.
pub(crate) fn leave_handshake(connection: &mut Connection, exchange: bool)
    ensures { (r : RspSetup) (h : History) → StandsFor connection.old r h → messages_of h < 2 ^ 64
        → (left : History) × IsLeftIf exchange h left × StandsFor connection.new r left }
{
    if exchange {
        end_handshake(connection);
    }
}
