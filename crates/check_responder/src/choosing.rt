ghost use Rattle.std.specs.Prelude.{◌≡◌, ◌≤◌, ◌<◌, true, ◌&&◌, ◌^◌, length};
ghost use Rattle.responder_core.specs.Connected.{StandsFor};
ghost use Rattle.responder_core.specs.Free.{IsFree};
ghost use Rattle.responder_core.specs.Sessions.{IsViewOf};
ghost use Rattle.responder_machine.specs.Answer.{Free};
ghost use Rattle.responder_machine.specs.BoundLaws.{messages_of};
ghost use Rattle.responder_machine.specs.History.{History};
ghost use Rattle.responder_machine.specs.Place.{Place, place_terms};
ghost use Rattle.responder_machine.specs.Session.{Events, is_live, stage_of};
ghost use Rattle.responder_machine.specs.Setup.{RspSetup};
ghost use Rattle.spdm_basis.specs.Sizes.{hash_size};
ghost use Rattle.spdm_machine.specs.Sessions.{is_past_handshake};
ghost use Rattle.check_responder.specs.JudgedResponder.{are_allowed, are_few, is_id, is_unused};
ghost use Rattle.spdm_grammar.specs.declared.names.TheConstants.{MAX_SESSIONS};

use responder_core::{Connection, FreeValues};
use spdm_grammar::names::{MAX_APP_DATA_LEN, MAX_PADDING, MAX_SESSIONS};
use spdm_grammar::{HashAlg, SessionView, Stage};

// Whether a session is established.
#[tactic(auto, unfolding(responder_machine::specs::Heard::view_of))]
fn is_held(view: Option<SessionView>) -> bool
    ensures { (s : Events) → IsViewOf view s
        → result ≡ (is_live s && is_past_handshake (stage_of s)) }
{
    match view {
        Some(view) => view.stage != Stage::Handshake,
        None => false,
    }
}

// Whether a session may get this id. Requires fewer than 2^64 received messages.
fn is_unused(connection: &Connection, id: u16) -> bool
    ensures { (r : RspSetup) (h : History) → StandsFor connection.now r h → messages_of h < 2 ^ 64
        → result ≡ is_unused h id }
{
    connection.held() == MAX_SESSIONS || !is_held(connection.view(id))
}

// Whether it is an id from 1 to 4.
fn is_id(id: u16) -> bool
    ensures value { result ≡ is_id id }
    ensures least { result ≡ true → 1 ≤ id }
    ensures most { result ≡ true → id ≤ MAX_SESSIONS }
{
    id >= 1 && id <= MAX_SESSIONS as u16
}

// Whether the application data and the padding of a record have no more bytes than are allowed.
fn are_few(reply: &[u8], pad: &[u8]) -> bool
    ensures { result ≡ are_few reply.now pad.now }
{
    reply.len() <= MAX_APP_DATA_LEN && pad.len() <= MAX_PADDING
}

/// Whether a responder may choose these values at a place where this hash was chosen. Requires fewer than 2^64 received
/// messages.
pub(crate) fn are_allowed(connection: &Connection, hash: HashAlg, values: &FreeValues<'_>) -> bool
    ensures least { result ≡ true → 1 ≤ values.now.id }
    ensures most { result ≡ true → values.now.id ≤ MAX_SESSIONS }
    ensures context { result ≡ true → hash_size hash ≤ length values.now.context.now }
    ensures value { (r : RspSetup) (h : History) (p : Place) (f : Free) → StandsFor connection.now r h
        → messages_of h < 2 ^ 64 → (place_terms p).choice.hash ≡ hash → IsFree values.now f
        → result ≡ are_allowed h p f }
{
    if !is_id(values.id) {
        return false;
    }
    if !is_unused(connection, values.id) {
        return false;
    }
    if values.context.len() < hash.size() {
        return false;
    }
    are_few(values.reply, values.pad)
}
