ghost use Rattle.std.specs.Prelude.{◌≡◌, ◌≤◌, ◌<◌, ◌+◌, ◌^◌, [], Some, false, length, ℕ, List};
ghost use Rattle.responder_machine.specs.Answer.{algorithms_answer, version_answer};
ghost use Rattle.responder_machine.specs.Setup.{RspSetup, responder_caps};
ghost use Rattle.spdm_grammar.specs.Fields.{IsSoundChunk, large_bytes};
ghost use Rattle.spdm_grammar.specs.Message.{chunk_message, offer_message};
ghost use Rattle.spdm_grammar.specs.Message.ResponseMessage.{Capabilities, ChunkResponse, ChunkSendAck};
ghost use Rattle.spdm_grammar.specs.Responses.{canonical_response};
ghost use Rattle.spdm_grammar.specs.declared.names.TheConstants.{MAX_MESSAGE_SIZE};
ghost use Rattle.responder_core.specs.Setup.{IsSetUp};

use crate::Setup;
use crate::clear::contents::{announced, choice_of};
use crate::clear::negotiating::NO_CHOICE;
use negotiate::{Reply, reply_is_sound};
use spdm_basis::Frame;
use spdm_codec::write_response;
use spdm_grammar::names::spdm_version::V1_2;
use spdm_grammar::names::{CHUNK_FIELDS_LEN, LARGE_SIZE_LEN, MAX_MESSAGE_SIZE};
use spdm_grammar::{AlgOffer, ChunkView, Response};

/// VERSION: one entry, 1.2.
pub fn write_version(out: &mut Frame)
    ensures value { out.new ≡ canonical_response version_answer }
    ensures size { length out.new ≡ 8 }
{
    let entries = [0x00, V1_2];
    let _ = write_response(&Response::Version { entries: &entries }, 0, false, out);
}

/// CAPABILITIES: what the responder announces.
pub fn write_capabilities(setup: &Setup<'_>, out: &mut Frame)
    ensures value { (r : RspSetup) → IsSetUp setup.now r
        → out.new ≡ canonical_response (Capabilities (responder_caps r)) }
    ensures size { length out.new ≡ 20 }
{
    let _ = write_response(&Response::Capabilities(announced(setup)), 0, false, out);
}

/// ALGORITHMS: the reply to a sound offer with the choice that the responder makes.
#[tactic(auto, using(crate::proofs::Lengths::algorithms_long))]
pub fn write_algorithms(setup: &Setup<'_>, offer: &AlgOffer<'_>, out: &mut Frame)
    ensures value { (r : RspSetup) → IsSetUp setup.now r
        → out.new ≡ canonical_response (algorithms_answer r (offer_message offer.now)) }
    ensures size { length out.new ≤ 52 }
{
    let choice = match choice_of(setup, offer) {
        Some(choice) => choice,
        None => NO_CHOICE,
    };
    let reply = Reply::new(offer, choice);
    reply_is_sound();
    let _ = write_response(&Response::Algorithms(reply.message()), 0, false, out);
}

/// CHUNK_RESPONSE with a chunk of at most 4,096 bytes that has an encoding, and its length. One that passes 4,096 bytes
/// is not whole in `out`.
pub fn write_chunk_response(chunk: ChunkView<'_>, out: &mut Frame) -> usize
    ensures size { length chunk.entry.chunk.now ≤ MAX_MESSAGE_SIZE → result
        ≡ length (canonical_response (ChunkResponse (chunk_message chunk.entry))) }
    ensures most { result ≤ 4112 }
    ensures value { IsSoundChunk (chunk_message chunk.entry)
        → length chunk.entry.chunk.now ≤ MAX_MESSAGE_SIZE → result ≤ MAX_MESSAGE_SIZE
        → out.new ≡ canonical_response (ChunkResponse (chunk_message chunk.entry)) }
{
    if chunk.is_sound() {
        let _ = write_response(&Response::ChunkResponse(chunk), 0, false, out);
    }
    let len = chunk.chunk.len().min(MAX_MESSAGE_SIZE as usize);
    CHUNK_FIELDS_LEN + large_len(chunk.large) + len
}

// The length of LargeMessageSize, where it is told.
fn large_len(large: Option<u32>) -> usize
    ensures value { result ≡ length (large_bytes large) }
    ensures most { result ≤ 4 }
{
    match large {
        Some(_) => LARGE_SIZE_LEN,
        None => 0,
    }
}

/// CHUNK_SEND_ACK to the chunk of this handle and number, with a response in it; one that passes 4,096 bytes is not
/// whole in `out`.
pub fn write_acknowledgement(handle: u8, number: u16, response: &[u8], out: &mut Frame)
    ensures { length response.now + 6 ≤ MAX_MESSAGE_SIZE
        → out.new ≡ canonical_response (ChunkSendAck false handle number response.now) }
{
    let answer = Response::ChunkSendAck {
        early: false,
        handle,
        number,
        response,
    };
    let _ = write_response(&answer, 0, false, out);
}
