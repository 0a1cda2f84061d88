ghost use Rattle.std.specs.Prelude.{◌≡◌, List, false};
ghost use Rattle.spdm_grammar.specs.Message.{ChunkMessage, chunk_message, measured_message, response_message};
ghost use Rattle.spdm_grammar.specs.Responses.{response_reading};
ghost use Rattle.psk_session.specs.Held.{seen_meaning, verdict_of};
ghost use Rattle.psk_session.specs.Verdict.{ack_verdict, beat_verdict, chunk_meaning, data_verdict, end_verdict, error_verdict, measured_by, measured_verdict, message_meaning, whole_verdict};
ghost use Rattle.psk_session.specs.Waiting.{awaited_by};

use crate::Reply;
use crate::answers::read_answer;
use crate::requests::operation_of;
use crate::session_request::Awaited;
use session_keys::byte_at;
use spdm_grammar::names::error_number::LARGE_RESPONSE;
use spdm_grammar::names::key_operation::VERIFY_NEW_KEY;
use spdm_grammar::{BadReply, ChunkFault, ChunkView, Measured, Response};

// What an inner message is to what is awaited.
#[derive(Clone, Copy)]
pub enum Verdict<'a> {
    // No answer.
    Bad(BadReply),
    // END_SESSION_ACK.
    Ended,
    // The answer, with its application data or measurement record.
    Answered(Reply, &'a [u8]),
    // KEY_UPDATE_ACK to an update.
    Updated { all: bool },
    // LargeResponse, with the operation and the handle of the large response.
    Large { op: u8, handle: u8 },
}

// It has a verdict, or it is the chunk that is awaited, of a large response to an operation.
#[derive(Clone, Copy)]
pub enum Meaning<'a> {
    Done(Verdict<'a>),
    Piece { op: u8, chunk: ChunkView<'a> },
}

const WRONG_KIND: Verdict<'static> = Verdict::Bad(BadReply::WrongKind);

// The number that is told of measurements in answer to an operation, and their record.
fn measured_by(op: u8, measured: Measured<'_>) -> Verdict<'_>
    ensures { verdict_of result ≡ measured_by op (measured_message measured.entry) }
{
    let number = if op == 0 {
        measured.total
    } else {
        measured.blocks
    };
    Verdict::Answered(Reply::Measured(number), measured.block_bytes)
}

impl Awaited {
    // What an ERROR is, where chunks are in common or not.
    fn error(self, chunks: bool, code: u8, extended: &[u8]) -> Verdict<'static>
        ensures { (before : List ChunkMessage) → verdict_of result
            ≡ error_verdict chunks (awaited_by self before) code extended.now }
    {
        match self {
            Awaited::Measure { op } if code == LARGE_RESPONSE && chunks => Verdict::Large {
                op,
                handle: byte_at(extended, 0),
            },
            Awaited::Update { .. } | Awaited::Verify | Awaited::End => {
                Verdict::Bad(BadReply::Refused(code))
            }
            _ => Verdict::Answered(Reply::Refused(code), &[]),
        }
    }

    // What KEY_UPDATE_ACK is, under the tag that KEY_UPDATE told.
    fn acknowledged(self, tag: u8, op: u8, told: u8) -> Verdict<'static>
        ensures { (before : List ChunkMessage) → verdict_of result
            ≡ ack_verdict tag (awaited_by self before) op told }
    {
        match self {
            Awaited::Update { all } if op == operation_of(all) && told == tag => {
                Verdict::Updated { all }
            }
            Awaited::Verify if op == VERIFY_NEW_KEY && told == tag => {
                Verdict::Answered(Reply::Updated, &[])
            }
            _ => WRONG_KIND,
        }
    }

    // What HEARTBEAT_ACK is.
    fn beat(self) -> Verdict<'static>
        ensures { (before : List ChunkMessage) → verdict_of result
            ≡ beat_verdict (awaited_by self before) }
    {
        match self {
            Awaited::Beat => Verdict::Answered(Reply::Alive, &[]),
            _ => WRONG_KIND,
        }
    }

    // What END_SESSION_ACK is.
    fn end(self) -> Verdict<'static>
        ensures { (before : List ChunkMessage) → verdict_of result
            ≡ end_verdict (awaited_by self before) }
    {
        match self {
            Awaited::End => Verdict::Ended,
            _ => WRONG_KIND,
        }
    }

    // What application data are.
    pub fn data(self, bytes: &[u8]) -> Verdict<'_>
        ensures { (before : List ChunkMessage) → verdict_of result
            ≡ data_verdict (awaited_by self before) bytes.now }
    {
        match self {
            Awaited::Data => Verdict::Answered(Reply::Data, bytes),
            _ => WRONG_KIND,
        }
    }

    // What MEASUREMENTS are.
    fn measured(self, measured: Measured<'_>) -> Verdict<'_>
        ensures { (before : List ChunkMessage) → verdict_of result
            ≡ measured_verdict (awaited_by self before) (measured_message measured.entry) }
    {
        match self {
            Awaited::Measure { op } => measured_by(op, measured),
            _ => WRONG_KIND,
        }
    }

    // What a chunk is.
    fn chunk(self, chunk: ChunkView<'_>) -> Meaning<'_>
        ensures { (before : List ChunkMessage) → seen_meaning result
            ≡ chunk_meaning (awaited_by self before) (chunk_message chunk.entry) }
    {
        let Awaited::Chunk { op, handle, number } = self else {
            return Meaning::Done(WRONG_KIND);
        };
        if chunk.handle != handle {
            return Meaning::Done(Verdict::Bad(BadReply::Chunk(ChunkFault::WrongHandle)));
        }
        if chunk.number != number {
            return Meaning::Done(Verdict::Bad(BadReply::Chunk(ChunkFault::WrongNumber)));
        }
        Meaning::Piece { op, chunk }
    }

    // What a response is, where chunks are in common or not, and under the tag that KEY_UPDATE told.
    pub fn message(self, chunks: bool, tag: u8, message: Response<'_>) -> Meaning<'_>
        ensures { (before : List ChunkMessage) → seen_meaning result
            ≡ message_meaning chunks tag (awaited_by self before)
            (response_message message.entry) }
    {
        match message {
            Response::Error { code, extended, .. } => {
                Meaning::Done(self.error(chunks, code, extended))
            }
            Response::HeartbeatAck => Meaning::Done(self.beat()),
            Response::KeyUpdateAck { op, tag: told } => {
                Meaning::Done(self.acknowledged(tag, op, told))
            }
            Response::Measurements(measured) => Meaning::Done(self.measured(measured)),
            Response::EndSessionAck => Meaning::Done(self.end()),
            Response::ChunkResponse(chunk) => self.chunk(chunk),
            _ => Meaning::Done(WRONG_KIND),
        }
    }
}

// What a whole large response to an operation is, in a session of hashes of this length; where the numbers are reached
// or not from which on no GET_MEASUREMENTS is asked.
pub fn whole_verdict(whole: &[u8], hash_len: usize, reached: bool, op: u8) -> Verdict<'_>
    ensures { verdict_of result
        ≡ whole_verdict reached op (response_reading hash_len false whole.now) }
{
    match read_answer(whole, hash_len, false) {
        Err(fault) => Verdict::Bad(BadReply::Malformed(fault.at)),
        Ok(Response::Error { code, extended, .. }) => {
            if code == LARGE_RESPONSE && !reached {
                Verdict::Large {
                    op,
                    handle: byte_at(extended, 0),
                }
            } else {
                Verdict::Answered(Reply::Refused(code), &[])
            }
        }
        Ok(Response::Measurements(measured)) => measured_by(op, measured),
        Ok(_) => WRONG_KIND,
    }
}
