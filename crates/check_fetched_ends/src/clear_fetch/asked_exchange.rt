ghost use Rattle.std.specs.Prelude.{◌≡◌};
ghost use Rattle.std.specs.Option.{option_map};
ghost use Rattle.responder_core.specs.Connected.{StandsFor};
ghost use Rattle.check_fetched_ends.specs.AskedInClear.{IsExchangeBy, chunk_at};
ghost use Rattle.responder_machine.specs.Handling.{chunk_in};
ghost use Rattle.responder_machine.specs.History.{History, clear_turns};
ghost use Rattle.responder_machine.specs.Setup.{RspSetup};
ghost use Rattle.spdm_grammar.specs.Message.{chunk_message};
ghost use Rattle.spdm_grammar.specs.Requests.{request_in};

use responder_core::Connection;
use session_keys::byte_at;
use spdm_basis::Frame;
use spdm_codec::read_request;
use spdm_grammar::names::request_code::PSK_EXCHANGE;
use spdm_grammar::{ChunkView, Request};

// The chunk of a large request that a message is, where a hash has so many bytes; `None` where it is no chunk.
fn chunk_of(message: &[u8], hash_len: usize) -> Option<ChunkView<'_>>
    ensures { option_map chunk_message result ≡ chunk_in (request_in hash_len message.now) }
{
    match read_request(message, hash_len) {
        Ok(Request::ChunkSend(chunk)) => Some(chunk),
        _ => None,
    }
}

/// Whether a message in the clear is PSK_EXCHANGE, or the chunk that completes one.
pub(crate) fn asks_exchange(connection: &Connection, message: &[u8]) -> bool
    ensures { (r : RspSetup) (h : History) → StandsFor connection.now r h → IsExchangeBy r
        (clear_turns h) message.now (chunk_at (clear_turns h) message.now) result }
{
    let mut whole = Frame::new();
    match chunk_of(message, connection.choice().hash.size()) {
        Some(chunk) => {
            if !connection.completes(chunk, &mut whole) {
                return false;
            }
            byte_at(whole.as_slice(), 1) == PSK_EXCHANGE
        }
        None => byte_at(message, 1) == PSK_EXCHANGE,
    }
}
