ghost use Rattle.std.specs.Prelude.{◌≡◌, List, Some, false};
ghost use Rattle.capture_bodies.specs.Answers.{chunk_read, collected_as, part_as};
ghost use Rattle.capture_bodies.specs.Collecting.{chunk_answered, chunk_asked, chunk_in, chunk_of, large_by};
ghost use Rattle.capture_bodies.specs.Completing.Completed.{Body};
ghost use Rattle.chunking.specs.Collecting.{accepted_with, collected};
ghost use Rattle.chunking.specs.Keeping as keeping;
ghost use Rattle.spdm_grammar.specs.Message.{ChunkMessage, chunk_message};
ghost use Rattle.spdm_grammar.specs.Requests.{request_reading};
ghost use Rattle.spdm_grammar.specs.Responses.{response_reading};
ghost use Rattle.spdm_grammar.specs.declared.names.TheConstants.{MAX_MESSAGE_SIZE};

use crate::LargePart;
use crate::came::Collected;
use chunking::Collector;
use spdm_basis::Frame;
use spdm_codec::{read_request, read_response};
use spdm_grammar::names::message_type::SPDM;
use spdm_grammar::{ChunkView, Request, Response};

// How long a hash is taken to be, on which no chunk depends.
const ANY_HASH: usize = 32;

// The chunk in a request.
fn chunk_asked(message: &[u8]) -> Option<ChunkView<'_>>
    ensures { chunk_read result ≡ chunk_asked (request_reading 32 message.now) }
{
    match read_request(message, ANY_HASH) {
        Ok(Request::ChunkSend(chunk)) => Some(chunk),
        _ => None,
    }
}

// The chunk in a response.
fn chunk_answered(message: &[u8]) -> Option<ChunkView<'_>>
    ensures { chunk_read result ≡ chunk_answered (response_reading 32 false message.now) }
{
    match read_response(message, ANY_HASH, false) {
        Ok(Response::ChunkResponse(chunk)) => Some(chunk),
        _ => None,
    }
}

// The chunk in a message.
fn chunk_in(owner: bool, message: &[u8]) -> Option<ChunkView<'_>>
    ensures { chunk_read result ≡ chunk_in owner message.now }
{
    if owner {
        chunk_asked(message)
    } else {
        chunk_answered(message)
    }
}

/// The chunk in a whole body in the clear, if it has one.
pub(crate) fn chunk_of(owner: bool, body: &[u8]) -> Option<ChunkView<'_>>
    ensures { chunk_read result ≡ chunk_of (Body owner body.now) }
{
    match body {
        [SPDM, message @ ..] => chunk_in(owner, message),
        _ => None,
    }
}

// Gives a chunk to a collector. A large message that it completes overwrites `whole`.
fn collect(collector: &mut Collector, chunk: ChunkView<'_>, whole: &mut Frame) -> Collected
    ensures answer { (accepted : List ChunkMessage) → keeping.StandsFor collector.old accepted
        → collected_as result whole.new
        ≡ collected collector.old.max accepted (chunk_message chunk.entry) }
    ensures max { collector.new.max ≡ collector.old.max }
    ensures stands { (accepted : List ChunkMessage) → keeping.StandsFor collector.old accepted
        → keeping.StandsFor collector.new
        (accepted_with collector.old.max accepted (chunk_message chunk.entry)) }
{
    match collector.take(chunk) {
        chunking::Collected::Whole(message) => {
            let _ = whole.replace(message);
            Collected::Whole
        }
        chunking::Collected::More => Collected::More,
        chunking::Collected::Refused(fault) => Collected::Refused(fault),
    }
}

/// Gives a chunk to a collector, and tells what it does to the large message. One that it completes overwrites `whole`.
pub(crate) fn take_chunk(
    collector: &mut Collector,
    chunk: ChunkView<'_>,
    whole: &mut Frame,
) -> LargePart
    ensures answer { (accepted : List ChunkMessage) → keeping.StandsFor collector.old accepted
        → collector.old.max ≡ MAX_MESSAGE_SIZE
        → part_as result whole.new ≡ large_by accepted (Some (chunk_message chunk.entry)) }
    ensures max { collector.new.max ≡ collector.old.max }
    ensures stands { (accepted : List ChunkMessage) → keeping.StandsFor collector.old accepted
        → keeping.StandsFor collector.new
        (accepted_with collector.old.max accepted (chunk_message chunk.entry)) }
{
    match collect(collector, chunk, whole) {
        Collected::Whole => LargePart::Whole,
        Collected::More => LargePart::Awaiting {
            held: collector.under_way().len(),
            told: collector.told(),
        },
        Collected::Refused(fault) => LargePart::Refused(fault),
    }
}
