ghost use Rattle.std.specs.Prelude.{◌≡◌, ◌≤◌, ◌<◌, ◌^◌, true, false, length, ℕ, List};
ghost use Rattle.measurements.specs.Records.{is_missing};
ghost use Rattle.responder_machine.specs.Answer.{Free, answer_of, chunk_answer, measurements_answer};
ghost use Rattle.spdm_grammar.specs.Message.RequestMessage.{ChunkGet};
ghost use Rattle.responder_machine.specs.Place as places;
ghost use Rattle.responder_machine.specs.Setup.{RspSetup};
ghost use Rattle.spdm_grammar.specs.Message.{request_message};
ghost use Rattle.spdm_grammar.specs.Responses.{canonical_response};
ghost use Rattle.spdm_grammar.specs.declared.names.TheConstants.{MAX_MESSAGE_SIZE};
ghost use Rattle.responder_core.specs.Answering.{IsAnswerable, is_made_here};
ghost use Rattle.responder_core.specs.Contents.{asks_missing};
ghost use Rattle.responder_core.specs.Free.{IsFree};
ghost use Rattle.responder_core.specs.Setup.{IsSetUp};
ghost use Rattle.responder_rules.specs.Place.{IsPlace};

use crate::clear::answers::{
    write_acknowledgement, write_algorithms, write_capabilities, write_chunk_response,
    write_version,
};
use crate::clear::exchange::exchange_rsp_len;
use crate::{ClearState, FreeValues, Setup};
use responder_rules::{LargeAnswer, Place, write_measurements};
use spdm_basis::Frame;
use spdm_grammar::Request;
use spdm_grammar::names::CHUNK_SEND_ACK_FIELDS_LEN;

impl ClearState {
    /// Writes the complete response to a request that passed its checks, and returns its length. A response above 4,096
    /// bytes is incomplete in `out`. For PSK_EXCHANGE_RSP only the length is returned.
    pub fn write_answer(
        &self,
        place: &Place,
        setup: &Setup<'_>,
        request: &Request<'_>,
        free: &FreeValues<'_>,
        out: &mut Frame,
    ) -> usize
        requires found { asks_missing setup.now.inventory.now (request_message request.now)
            ≡ false }
        ensures most { result < 2 ^ 32 }
        ensures size { (r : RspSetup) (p : places.Place) (m : List ℕ) (f : Free)
            → IsSetUp setup.now r → IsPlace place.now p → IsFree free.now f
            → IsAnswerable self.now.large p (request_message request.now)
            → result ≡ length (canonical_response
            (answer_of r p m f (request_message request.now))) }
        ensures value { (r : RspSetup) (p : places.Place) (m : List ℕ) (f : Free)
            → IsSetUp setup.now r → IsPlace place.now p → IsFree free.now f
            → IsAnswerable self.now.large p (request_message request.now)
            → is_made_here (request_message request.now) ≡ true → result ≤ MAX_MESSAGE_SIZE
            → out.new ≡ canonical_response (answer_of r p m f (request_message request.now)) }
    {
        match request {
            Request::GetVersion => write_version(out),
            Request::GetCapabilities(_) => write_capabilities(setup, out),
            Request::NegotiateAlgorithms(offer) => write_algorithms(setup, offer, out),
            Request::GetMeasurements { op } => {
                return write_measured(setup, *op, free, out);
            }
            Request::PskExchange(exchange) => return exchange_rsp_len(place, exchange, free),
            Request::ChunkSend(chunk) => {
                write_acknowledgement(chunk.handle, chunk.number, &[], out);
                return CHUNK_SEND_ACK_FIELDS_LEN;
            }
            Request::ChunkGet { handle, number } => {
                return write_asked(&self.large, *handle, *number, out);
            }
            Request::PskFinish { .. }
            | Request::Heartbeat
            | Request::KeyUpdate { .. }
            | Request::EndSession => out.clear(),
        }
        out.as_slice().len()
    }
}

// MEASUREMENTS for an operation, with these values, and their length.
fn write_measured(setup: &Setup<'_>, op: u8, free: &FreeValues<'_>, out: &mut Frame) -> usize
    requires { is_missing op setup.now.inventory.now ≡ false }
    ensures most { result < 2 ^ 32 }
    ensures size { (r : RspSetup) (f : Free) → IsSetUp setup.now r → IsFree free.now f
        → result ≡ length (canonical_response (measurements_answer r f op)) }
    ensures value { (r : RspSetup) (f : Free) → IsSetUp setup.now r → IsFree free.now f
        → result ≤ MAX_MESSAGE_SIZE
        → out.new ≡ canonical_response (measurements_answer r f op) }
{
    write_measurements(setup.inventory, op, &free.nonce, free.measured_opaque, out) as usize
}

// The chunk that a CHUNK_GET asks for, and its length.
fn write_asked(large: &LargeAnswer, handle: u8, number: u16, out: &mut Frame) -> usize
    ensures most { result ≤ 4112 }
    ensures size { (p : places.Place) → IsAnswerable large.now p (ChunkGet handle number)
        → result ≡ length (canonical_response (chunk_answer p handle number)) }
    ensures value { (p : places.Place) → IsAnswerable large.now p (ChunkGet handle number)
        → result ≤ MAX_MESSAGE_SIZE
        → out.new ≡ canonical_response (chunk_answer p handle number) }
{
    match large.asked(handle, number) {
        Some(chunk) => write_chunk_response(chunk, out),
        None => 0,
    }
}
