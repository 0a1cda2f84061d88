ghost use Rattle.std.specs.Prelude.{◌≡◌, ◌≤◌, None, Some, length};
ghost use Rattle.responder_machine.specs.Responder as responder;
ghost use Rattle.spdm_grammar.specs.declared.names.TheConstants.{MAX_MESSAGE_SIZE};

use spdm_basis::Frame;
use std::marker::Model;

/// The last clear request that was not refused, with its tag and its response. Fixed size; never allocates. In
/// contracts, an option of these.
#[derive(Drop)]
pub struct KeptReply {
    is_there: bool,
    tag: u8,
    message: Frame,
    reply: Frame,
}

impl Model for KeptReply {
    ghost use Rattle.std.specs.Prelude.{Option, Some, None, if◌then◌else◌};
    ghost use Rattle.responder_machine.specs.History.{Kept};

    ghost Value = { Option Kept };

    ghost view = { λ k. if k.is_there then Some (record {
      tag = k.tag;
      message = k.message;
      reply = k.reply;
    }) else None };
}

impl KeptReply {
    /// The initial state, before any request.
    pub fn new() -> KeptReply
        ensures { result ≡ None }
    {
        KeptReply {
            is_there: false,
            tag: 0,
            message: Frame::new(),
            reply: Frame::new(),
        }
    }

    /// Returns a copy.
    pub fn copy(&self) -> KeptReply
        ensures { result ≡ self.now }
    {
        let mut message = Frame::new();
        let _ = message.extend(self.message.as_slice());
        let mut reply = Frame::new();
        let _ = reply.extend(self.reply.as_slice());
        KeptReply {
            is_there: self.is_there,
            tag: self.tag,
            message,
            reply,
        }
    }

    /// Whether a message with this tag is the kept request.
    pub fn is_repeat(&self, tag: u8, message: &[u8]) -> bool
        ensures { result ≡ responder.is_repeat self.now tag message.now }
    {
        self.is_there && self.tag == tag && self.message.as_slice() == message
    }

    /// The stored reply; empty where none is kept.
    pub fn reply(&self) -> &[u8]
        ensures value { result.now ≡ responder.kept_reply self.now }
        ensures fits { length result.now ≤ MAX_MESSAGE_SIZE }
    {
        if self.is_there {
            self.reply.as_slice()
        } else {
            &[]
        }
    }

    /// Keeps a request with its tag and its reply, in place of the one before. Each has at most 4,096 bytes.
    pub fn keep(&mut self, tag: u8, message: &[u8], reply: &[u8])
        ensures { length message.now ≤ MAX_MESSAGE_SIZE → length reply.now ≤ MAX_MESSAGE_SIZE
            → self.new ≡ Some (record { tag = tag; message = message.now; reply = reply.now }) }
    {
        self.is_there = true;
        self.tag = tag;
        let _ = self.message.replace(message);
        let _ = self.reply.replace(reply);
    }
}
