ghost use Rattle.std.specs.Prelude.{◌≡◌, ◌≤◌, ◌<◌, ◌+◌, [], false, length, ℕ};
ghost use Rattle.chunking.specs.Cutting as cutting;
ghost use Rattle.chunking.specs.Cutting.{chunk_count};
ghost use Rattle.negotiate.specs.declared.shared.Common.{Common};
ghost use Rattle.requester_machine.specs.Sending.{request_sent};
ghost use Rattle.requester_core.specs.Outstanding.{kind_of};
ghost use Rattle.requester_machine.specs.History.{History, next_handle, next_tag};
ghost use Rattle.spdm_grammar.specs.Message.{RequestMessage, request_message};
ghost use Rattle.spdm_grammar.specs.Message.RequestMessage.{ChunkGet, ChunkSend};
ghost use Rattle.spdm_grammar.specs.Requests.{IsSoundRequest, canonical_request};
ghost use Rattle.spdm_grammar.specs.declared.names.TheConstants.{MAX_MESSAGE_SIZE, MIN_DATA_TRANSFER_SIZE};
ghost use Rattle.requester_core.specs.Outgoing.{IsCut, Sends, message_for, passed_over, tag_after, taken_back};
ghost use Rattle.requester_core.specs.declared.clear.outstanding.Outstanding.TheVariants as waits;
ghost use Rattle.requester_core.specs.declared.clear.outstanding.TransferMode.TheVariants as modes;

use crate::{Outstanding, PendingRequest, TransferMode};
use chunking::nth_chunk;
use spdm_basis::Frame;
use spdm_codec::write_request;
use spdm_grammar::Request;
use std::marker::Model;

/// The sending side of a requester: the next tag and handle, what is awaited, and the outstanding clear request. Tags
/// and handles are never reused, except those of a message that was never sent.
#[derive(Drop)]
pub struct Outgoing {
    tag: u8,
    handle: u8,
    waiting: Outstanding,
    request: Frame,
}

impl Model for Outgoing {
    ghost use Rattle.requester_core.specs.Outgoing.{Seen};

    ghost Value = { Seen };

    ghost view = { λ o. record {
      tag = o.tag;
      handle = o.handle;
      waiting = o.waiting;
      request = o.request;
    } };
}

impl Outgoing {
    /// The initial state: nothing sent.
    pub fn new() -> Outgoing
        ensures { result ≡ record { tag = 0; handle = 0; waiting = waits.Nothing; request = [] } }
    {
        Outgoing {
            tag: 0,
            handle: 0,
            waiting: Outstanding::Nothing,
            request: Frame::new(),
        }
    }

    /// What is awaited.
    pub fn waiting(&self) -> Outstanding
        ensures { result ≡ self.now.waiting }
    {
        self.waiting
    }

    /// The handle that the next large request gets.
    pub fn next_handle(&self) -> u8
        ensures { result ≡ self.now.handle }
    {
        self.handle
    }

    /// The request in the clear that is outstanding, whole.
    pub fn request(&self) -> &[u8]
        ensures value { result.now ≡ self.now.request }
        ensures fits { length result.now ≤ MAX_MESSAGE_SIZE }
    {
        self.request.as_slice()
    }

    /// Clears what is outstanding.
    pub fn clear_outstanding(&mut self)
        ensures { self.new ≡ record self.old { waiting = waits.Nothing } }
    {
        self.waiting = Outstanding::Nothing;
    }

    /// The outstanding message was never sent: its tag is the next one again, and so is its handle,
    /// where it was the first chunk of a large request.
    pub fn undo_send(&mut self)
        ensures { self.new ≡ taken_back self.old }
    {
        self.tag = (self.tag % 8 + 7) % 8;
        if self.waiting.is_first() {
            self.handle = self.handle.wrapping_sub(1);
        }
        self.waiting = Outstanding::Nothing;
    }

    /// A large request was sent in chunks, of which this was the number of the last, from 0 on: they took their tags,
    /// and it took its handle.
    pub fn skip_chunks(&mut self, number: u16)
        ensures { self.new ≡ passed_over number self.old }
    {
        self.tag = (self.tag % 8 + (number % 8) as u8 + 1) % 8;
        self.handle = self.handle.wrapping_add(1);
    }

    // The next tag, which is taken.
    fn take_tag(&mut self) -> u8
        ensures tag { result ≡ self.old.tag }
        ensures new { self.new ≡ record self.old { tag = tag_after self.old.tag } }
    {
        let tag = self.tag;
        self.tag = (tag % 8 + 1) % 8;
        tag
    }

    /// A record of the session with this ReqSessionID is sent, and outstanding: its tag.
    pub fn send_record(&mut self, id: u16) -> u8
        ensures tag { result ≡ self.old.tag }
        ensures new { self.new ≡ record self.old {
          tag = tag_after self.old.tag;
          waiting = waits.InSession self.old.tag id;
        } }
    {
        let tag = self.take_tag();
        self.waiting = Outstanding::InSession { tag, id };
        tag
    }

    /// Keeps a request in place of the one before, where it has an encoding of at most 4,096 bytes.
    pub fn keep(&mut self, request: &Request<'_>, hash_len: usize)
        ensures { IsSoundRequest hash_len (request_message request.now)
            → length (canonical_request (request_message request.now)) ≤ MAX_MESSAGE_SIZE
            → self.new ≡ record self.old {
              request = canonical_request (request_message request.now);
            } }
    {
        write_sound(request, hash_len, &mut self.request);
    }

    /// Overwrites `out` with the message that is sent for the kept request, to a responder of this DataTransferSize.
    pub fn write(&self, mode: TransferMode, transfer: u32, out: &mut Frame)
        ensures out { IsCut mode transfer self.now.request
            → out.new ≡ message_for mode transfer self.now.request }
        ensures fits { length self.now.request ≤ MAX_MESSAGE_SIZE }
    {
        let request = self.request.as_slice();
        match mode {
            TransferMode::Whole => {
                let _ = out.replace(request);
            }
            TransferMode::ByChunks { handle, number } => {
                write_piece(request, transfer, handle, number, out);
            }
            TransferMode::ForChunk { handle, number } => write_get(handle, number, out),
        }
    }

    /// Whether the chunk of this number of the kept request is the last, for a responder of this DataTransferSize.
    pub fn is_last(&self, transfer: u32, handle: u8, number: u16) -> bool
        ensures { IsCut (modes.ByChunks handle number) transfer self.now.request → result
            ≡ (cutting.nth_chunk transfer handle self.now.request number).last }
    {
        match nth_chunk(self.request.as_slice(), transfer, handle, number) {
            Some(chunk) => chunk.last,
            None => false,
        }
    }

    /// Sends the message for the stored request, to a responder with this DataTransferSize, overwriting `out`; returns
    /// its tag.
    pub fn send(
        &mut self,
        asked: PendingRequest,
        mode: TransferMode,
        transfer: u32,
        out: &mut Frame,
    ) -> u8
        ensures tag { result ≡ self.old.tag }
        ensures new { self.new ≡ record self.old {
          tag = tag_after self.old.tag;
          waiting = waits.InClear self.old.tag asked mode;
        } }
        ensures out { IsCut mode transfer self.old.request
            → out.new ≡ message_for mode transfer self.old.request }
        ensures fits { length self.old.request ≤ MAX_MESSAGE_SIZE }
    {
        self.write(mode, transfer, out);
        let tag = self.take_tag();
        self.waiting = Outstanding::InClear { tag, asked, mode };
        tag
    }

    /// Sends the stored request to a responder with this DataTransferSize, overwriting `out`: unchunked, or in chunks
    /// under the next handle if it is longer. Returns the tag.
    pub fn send_request(&mut self, transfer: u32, asked: PendingRequest, out: &mut Frame) -> u8
        ensures { (h : History) (request : RequestMessage) (common : Common)
            → self.old.tag ≡ next_tag h → self.old.handle ≡ next_handle h
            → self.old.request ≡ canonical_request request → kind_of request ≡ asked
            → common.to_responder.transfer ≡ transfer → MIN_DATA_TRANSFER_SIZE ≤ transfer
            → transfer ≤ MAX_MESSAGE_SIZE
            → Sends (request_sent common h request) self.old self.new result out.new }
    {
        if self.request.as_slice().len() <= transfer as usize {
            return self.send(asked, TransferMode::Whole, transfer, out);
        }
        let handle = self.handle;
        self.handle = handle.wrapping_add(1);
        let first = TransferMode::ByChunks { handle, number: 0 };
        self.send(asked, first, transfer, out)
    }
}

// CHUNK_SEND with the chunk of this number of a request.
#[tactic(auto, using(crate::proofs::Pieces::piece_sound, crate::proofs::Pieces::piece_short))]
fn write_piece(request: &[u8], transfer: u32, handle: u8, number: u16, out: &mut Frame)
    requires { length request.now ≤ MAX_MESSAGE_SIZE }
    ensures { MIN_DATA_TRANSFER_SIZE ≤ transfer → transfer ≤ MAX_MESSAGE_SIZE
        → number < chunk_count transfer request.now → out.new ≡ canonical_request
        (ChunkSend (cutting.nth_chunk transfer handle request.now number)) }
{
    if let Some(chunk) = nth_chunk(request, transfer, handle, number) {
        write_sound(&Request::ChunkSend(chunk), 0, out);
    }
}

// CHUNK_GET for the chunk of this number.
fn write_get(handle: u8, number: u16, out: &mut Frame)
    ensures { out.new ≡ canonical_request (ChunkGet handle number) }
{
    let _ = write_request(&Request::ChunkGet { handle, number }, 0, out);
}

// A request that has an encoding of at most 4,096 bytes.
fn write_sound(request: &Request<'_>, hash_len: usize, out: &mut Frame)
    ensures { IsSoundRequest hash_len (request_message request.now)
        → length (canonical_request (request_message request.now)) ≤ MAX_MESSAGE_SIZE
        → out.new ≡ canonical_request (request_message request.now) }
{
    if request.is_sound(hash_len) {
        let _ = write_request(request, hash_len, out);
    }
}
