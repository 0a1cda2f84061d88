ghost use Rattle.std.specs.Prelude.{◌≡◌, ◌==◌, ◌&&◌, slice_index};
ghost use Rattle.responder_core.specs.Connected.{StandsFor};
ghost use Rattle.responder_core.specs.Setup.{IsSetUp};
ghost use Rattle.responder_machine.specs.History.{History};
ghost use Rattle.responder_machine.specs.Place.{clear_place, place_terms};
ghost use Rattle.responder_machine.specs.Setup.{RspSetup};
ghost use Rattle.spdm_grammar.specs.declared.names.response_code.TheConstants.{CHUNK_SEND_ACK};
ghost use Rattle.check_responder.specs.ClearAnswers.{IsAskedBy};

use crate::clear_answers::blocks_are_few;
use crate::clear_values::chunk_of;
use responder_core::{Connection, Setup};
use session_keys::byte_at;
use spdm_basis::Frame;
use spdm_grammar::HashAlg;
use spdm_grammar::names::response_code::CHUNK_SEND_ACK;

/// Which bytes have the request whose answer an answer to a clear message gives.
#[derive(Clone, Copy, Debug, PartialEq, Eq)]
pub(crate) enum RequestSource {
    /// The message itself.
    Itself,
    /// The large request that its chunk completes.
    Carried,
    /// A last chunk completes none, but is acknowledged: no responder answers so.
    Never,
}

// Whether a last chunk is acknowledged.
fn is_acknowledged(last: bool, reply: &[u8]) -> bool
    ensures { result ≡ (last && (slice_index reply.now 1 == CHUNK_SEND_ACK)) }
{
    last && byte_at(reply, 1) == CHUNK_SEND_ACK
}

/// Which bytes have the request whose answer an answer to a clear message gives, where this hash was chosen. A large
/// request overwrites `whole`.
pub(crate) fn asked_by(
    setup: &Setup<'_>,
    connection: &Connection,
    hash: HashAlg,
    message: &[u8],
    reply: &[u8],
    whole: &mut Frame,
) -> RequestSource
    ensures { (r : RspSetup) (h : History) → IsSetUp setup.now r → StandsFor connection.now r h
        → (place_terms (clear_place h)).choice.hash ≡ hash
        → IsAskedBy r h message.now reply.now whole.new result }
{
    match chunk_of(message, hash.size()) {
        None => RequestSource::Itself,
        Some(chunk) => {
            if connection.completes(chunk, whole) {
                return RequestSource::Carried;
            }
            if is_acknowledged(chunk.last, reply) {
                return RequestSource::Never;
            }
            blocks_are_few(setup.inventory);
            RequestSource::Itself
        }
    }
}
