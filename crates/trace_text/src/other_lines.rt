ghost use Rattle.spdm_grammar.specs.Message.{request_message, response_message};
ghost use Rattle.std.specs.Prelude.{◌≡◌, ◌≤◌, length};
ghost use Rattle.trace_text.specs.OtherLines.{cycle_text, conforms_text, seen_stage_word, seen_text, why_word, differs_text, request_name, response_name, message_text, part_word, malformed_text, summary_text};

use crate::print::{begin, end_line, push_hash, push_id, push_number, push_requester, push_word};
use crate::trace_words::stage_word;
use spdm_basis::{HashBytes, Line, SessionId};
use spdm_grammar::{Malformed, Part, Request, Response, Stage, Why};

/// All ends start again, with this boot number.
#[tactic(auto, unfolding(crate::specs::OtherLines::cycle_text))]
pub fn line_cycle(boot: u32, out: &mut Line)
    ensures { out.new ≡ cycle_text boot }
{
    begin(b"cycle", out);
    push_number(u64::from(boot), out);
    end_line(out);
}

/// The capture conforms.
#[tactic(auto, unfolding(crate::specs::OtherLines::conforms_text))]
pub fn line_conforms(out: &mut Line)
    ensures { out.new ≡ conforms_text }
{
    begin(b"conforms", out);
    end_line(out);
}

// The word of a stage in the table of a capture.
fn seen_stage_word(stage: Option<Stage>) -> &'static [u8]
    ensures word { result.now ≡ seen_stage_word stage }
    ensures short { length result.now ≤ 20 }
{
    match stage {
        Some(stage) => stage_word(stage),
        None => b"ended",
    }
}

/// A session that a capture shows, of requester `q`; one without a stage is ended.
#[tactic(auto, unfolding(crate::specs::OtherLines::seen_text))]
pub fn line_seen(
    q: u8,
    id: SessionId,
    stage: Option<Stage>,
    hash: &HashBytes,
    sent: u64,
    answered: u64,
    out: &mut Line,
)
    ensures { out.new ≡ seen_text q id stage hash.now sent answered }
{
    begin(b"session", out);
    push_requester(q, out);
    push_id(id, out);
    push_word(seen_stage_word(stage), out);
    push_hash(hash, out);
    push_number(sent, out);
    push_number(answered, out);
    end_line(out);
}

// The word for why a packet differs.
fn why_word(why: Why) -> &'static [u8]
    ensures word { result.now ≡ why_word why }
    ensures short { length result.now ≤ 20 }
{
    match why {
        Why::BadPacket => b"bad-packet",
        Why::UnknownEnd => b"unknown-end",
        Why::WrongTurn => b"wrong-turn",
        Why::BadRequest => b"bad-request",
        Why::BadReply => b"bad-reply",
        Why::BadVerify => b"bad-verify",
        Why::BadRecord => b"bad-record",
    }
}

/// The first packet of a capture that differs.
#[tactic(auto, unfolding(crate::specs::OtherLines::differs_text))]
pub fn line_differs(packet: u32, why: Why, out: &mut Line)
    ensures { out.new ≡ differs_text packet why }
{
    begin(b"differs", out);
    push_number(u64::from(packet), out);
    push_word(why_word(why), out);
    end_line(out);
}

// The name of a request.
fn request_name(request: &Request<'_>) -> &'static [u8]
    ensures name { result.now ≡ request_name (request_message request.now) }
    ensures short { length result.now ≤ 20 }
{
    match request {
        Request::GetVersion => b"GET_VERSION",
        Request::GetCapabilities(_) => b"GET_CAPABILITIES",
        Request::NegotiateAlgorithms(_) => b"NEGOTIATE_ALGORITHMS",
        Request::GetMeasurements { .. } => b"GET_MEASUREMENTS",
        Request::PskExchange(_) => b"PSK_EXCHANGE",
        Request::PskFinish { .. } => b"PSK_FINISH",
        Request::Heartbeat => b"HEARTBEAT",
        Request::KeyUpdate { .. } => b"KEY_UPDATE",
        Request::EndSession => b"END_SESSION",
        Request::ChunkSend(_) => b"CHUNK_SEND",
        Request::ChunkGet { .. } => b"CHUNK_GET",
    }
}

// The name of a response.
fn response_name(response: &Response<'_>) -> &'static [u8]
    ensures name { result.now ≡ response_name (response_message response.now) }
    ensures short { length result.now ≤ 20 }
{
    match response {
        Response::Version { .. } => b"VERSION",
        Response::Capabilities(_) => b"CAPABILITIES",
        Response::Algorithms(_) => b"ALGORITHMS",
        Response::Measurements(_) => b"MEASUREMENTS",
        Response::PskExchangeRsp(_) => b"PSK_EXCHANGE_RSP",
        Response::PskFinishRsp => b"PSK_FINISH_RSP",
        Response::HeartbeatAck => b"HEARTBEAT_ACK",
        Response::KeyUpdateAck { .. } => b"KEY_UPDATE_ACK",
        Response::EndSessionAck => b"END_SESSION_ACK",
        Response::ChunkSendAck { .. } => b"CHUNK_SEND_ACK",
        Response::ChunkResponse(_) => b"CHUNK_RESPONSE",
        Response::Error { .. } => b"ERROR",
    }
}

/// A request of `count` bytes by its name.
#[tactic(auto, unfolding(crate::specs::OtherLines::message_text))]
pub fn line_request(request: &Request<'_>, count: usize, out: &mut Line)
    ensures { out.new ≡ message_text (request_name (request_message request.now)) count }
{
    begin(request_name(request), out);
    push_number(count as u64, out);
    end_line(out);
}

/// A response of `count` bytes by its name.
#[tactic(auto, unfolding(crate::specs::OtherLines::message_text))]
pub fn line_response(response: &Response<'_>, count: usize, out: &mut Line)
    ensures { out.new ≡ message_text (response_name (response_message response.now)) count }
{
    begin(response_name(response), out);
    push_number(count as u64, out);
    end_line(out);
}

// The word of the part of a message that is at fault.
fn part_word(part: Part) -> &'static [u8]
    ensures word { result.now ≡ part_word part }
    ensures short { length result.now ≤ 20 }
{
    match part {
        Part::End => b"end",
        Part::Field => b"field",
        Part::Length => b"length",
        Part::Rest => b"rest",
    }
}

/// Where bytes that encode no message are at fault.
#[tactic(auto, unfolding(crate::specs::OtherLines::malformed_text))]
pub fn line_malformed(malformed: &Malformed, out: &mut Line)
    ensures { out.new ≡ malformed_text malformed.now }
{
    begin(b"malformed", out);
    push_number(malformed.at as u64, out);
    push_word(part_word(malformed.what), out);
    end_line(out);
}

/// What a generated script came to: the packets that were sent, the application messages that were taken at both ends,
/// and the sessions that are open.
#[tactic(auto, unfolding(crate::specs::OtherLines::summary_text))]
pub fn line_summary(seed: u64, count: u32, packets: u32, taken: u64, live: u32, out: &mut Line)
    ensures { out.new ≡ summary_text seed count packets taken live }
{
    begin(b"gen", out);
    push_number(seed, out);
    push_number(u64::from(count), out);
    push_word(b"packets", out);
    push_number(u64::from(packets), out);
    push_word(b"taken", out);
    push_number(taken, out);
    push_word(b"open", out);
    push_number(u64::from(live), out);
    end_line(out);
}
