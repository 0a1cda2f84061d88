ghost use Rattle.std.specs.Prelude.{◌≡◌, ◌≤◌, ◌<◌, ℕ, length};
ghost use Rattle.responder_core.specs.Connected.{StandsFor};
ghost use Rattle.responder_core.specs.Free.{IsFree};
ghost use Rattle.measurements.specs.Blocks.{record_of};
ghost use Rattle.measurements.specs.Records.{asked};
ghost use Rattle.responder_machine.specs.Answer.{Free};
ghost use Rattle.responder_machine.specs.History.{History};
ghost use Rattle.responder_machine.specs.Setup.{RspSetup};
ghost use Rattle.spdm_machine.specs.Sessions.{id_in_exchange};
ghost use Rattle.check_laws.specs.DropsShown.{id_begun};
ghost use Rattle.check_responder.specs.JudgedResponder.{AreBounded, IsDropped};
ghost use Rattle.check_responder.specs.ClearAnswers.{dropped_before, first_of_held};

use crate::answer_length::blocks_length;
use crate::judged_responder::{response_of, shows_large};
use byteorder::{ByteOrder, LittleEndian};
use measurements::Inventory;
use responder_core::{Connection, FreeValues};
use session_keys::byte_at;
use spdm_grammar::names::response_code::PSK_EXCHANGE_RSP;
use spdm_grammar::names::{ALL_BLOCKS, MAX_SESSIONS};

// RspSessionID of a PSK_EXCHANGE_RSP.
fn rsp_id_in(response: &[u8]) -> u16
    ensures { result ≡ id_in_exchange response.now }
{
    let id = [byte_at(response, 4), byte_at(response, 5)];
    LittleEndian::read_u16(&id)
}

/// RspSessionID of the session that a response begins; `None` where it is no PSK_EXCHANGE_RSP.
pub(crate) fn id_begun(response: &[u8]) -> Option<u16>
    ensures { result ≡ id_begun response.now }
{
    if byte_at(response, 1) == PSK_EXCHANGE_RSP {
        Some(rsp_id_in(response))
    } else {
        None
    }
}

// Beside four established sessions the first that may have been dropped without a trace.
fn first_of_held(connection: &Connection) -> Option<u16>
    ensures { (r : RspSetup) (h : History) → StandsFor connection.now r h
        → IsDropped (first_of_held h) result }
{
    if connection.held() != MAX_SESSIONS {
        return None;
    }
    if connection.is_timed(1) {
        return Some(1);
    }
    if connection.is_timed(2) {
        return Some(2);
    }
    if connection.is_timed(3) {
        return Some(3);
    }
    if connection.is_timed(4) {
        return Some(4);
    }
    None
}

/// The session that an answer to a clear message, which is no repeat, shows as dropped before it; `None` where it shows
/// none.
pub(crate) fn dropped_before(connection: &Connection, reply: &[u8]) -> Option<u16>
    ensures { (r : RspSetup) (h : History) → StandsFor connection.now r h
        → IsDropped (dropped_before h reply.now) result }
{
    let response = response_of(reply);
    if shows_large(response) {
        return first_of_held(connection);
    }
    let Some(id) = id_begun(response) else {
        return None;
    };
    if !connection.is_timed(id) {
        return None;
    }
    Some(id)
}

// A handle is a byte.
fn handle_is_byte(handle: u8)
    ensures { handle < 256 }
{}

// A nonce has 32 bytes.
fn nonce_is_whole(nonce: [u8; 32])
    ensures { length nonce ≡ 32 }
{}

/// The bounds that the types of values have.
pub(crate) fn values_are_bounded(values: &FreeValues<'_>)
    ensures { (f : Free) → IsFree values.now f → AreBounded f }
{
    handle_is_byte(values.handle);
    nonce_is_whole(values.nonce);
}

/// No operation asks for more blocks than all.
pub(crate) fn blocks_are_few(inventory: &Inventory)
    ensures { (op : ℕ) → length (record_of (asked op inventory.now)) ≤ 4054 }
{
    blocks_length(inventory, ALL_BLOCKS);
}
