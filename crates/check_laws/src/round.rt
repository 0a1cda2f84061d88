ghost use Rattle.std.specs.Prelude.{◌≡◌, ◌≤◌, ◌<◌, ◌-◌, ◌^◌, length};
ghost use Rattle.spdm_machine.specs.Terms.{request_value};
ghost use Rattle.check_laws.specs.Judged.{waiting_in};
ghost use Rattle.check_laws.specs.Order.{body_in, tag_in};
ghost use Rattle.check_laws.specs.Order.{asks_wrong, replies_wrong, round_answered, round_asked};
ghost use Rattle.capture_machine.specs.Capture.{may_begin};
ghost use Rattle.capture_machine.specs.Difference.{is_copy, is_get_version, may_come};
ghost use Rattle.capture_machine.specs.Rounds.{following_tag};
ghost use Rattle.spdm_grammar.specs.declared.names.TheConstants.{MAX_BODY_SIZE};

use spdm_basis::Buffer;
use spdm_codec::read_request;
use spdm_grammar::Request;
use spdm_grammar::names::MAX_BODY_SIZE;
use spdm_grammar::names::message_type::SPDM;
use std::marker::Model;

// How many bytes the hash has that messages are read with before one is chosen.
const LEAST_HASH: usize = 32;

// GET_VERSION in the clear, as a requester sends it.
const GET_VERSION: &[u8] = &[SPDM, 0x10, 0x84, 0, 0];

/// The round in progress between the responder and a requester: the request that began it, how many of it and its
/// copies have no answer yet, and whether one has. In contracts, that of the definitions, or none where nothing was
/// asked yet.
#[derive(Drop)]
pub struct Round {
    begun: bool,
    tag: u8,
    body: Buffer<MAX_BODY_SIZE>,
    waiting: u64,
    answered: bool,
}

impl Model for Round {
    ghost use Rattle.std.specs.Prelude.{Option, Some, None, if◌then◌else◌};
    ghost use Rattle.capture_machine.specs.Rounds as rounds;

    ghost Value = { Option rounds.Round };

    ghost view = { λ r. if r.begun then Some (record {
      tag = r.tag;
      body = r.body;
      waiting = r.waiting;
      answered = r.answered;
    }) else None };
}

// Whether a message is GET_VERSION, in any encoding.
fn is_version(message: &[u8]) -> bool
    ensures { result ≡ is_get_version (request_value message.now) }
{
    match read_request(message, LEAST_HASH) {
        Ok(Request::GetVersion) => true,
        _ => false,
    }
}

impl Round {
    ghost use Rattle.std.specs.Prelude.{◌≡◌, ◌≤◌, ◌<◌, ◌-◌, ◌^◌, length, None};

    /// Nothing was asked yet.
    pub fn new() -> Round
        ensures { result ≡ None }
    {
        Round {
            begun: false,
            tag: 0,
            body: Buffer::new(),
            waiting: 0,
            answered: false,
        }
    }

    /// Whether a request has the tag and the bytes of the one that began the round.
    pub fn is_copy(&self, tag: u8, body: &[u8]) -> bool
        ensures { result ≡ is_copy self.now tag body.now }
    {
        self.begun && self.tag == tag && self.body.as_slice() == body
    }

    // The tag of the next round: tags count modulo 8.
    fn following_tag(&self) -> u8
        ensures { result ≡ following_tag self.now }
    {
        if self.begun {
            ((u16::from(self.tag) + 1) % 8) as u8
        } else {
            0
        }
    }

    // Whether a request may begin a round here: the last one has an answer, or it is GET_VERSION.
    fn may_come(&self, body: &[u8]) -> bool
        ensures { result ≡ may_come self.now body.now }
    {
        if !self.begun || self.answered {
            return true;
        }
        match body.split_first() {
            Some((&kind, message)) => kind == SPDM && is_version(message),
            None => false,
        }
    }

    /// Whether a request may begin a round here, in the one encoding of GET_VERSION that a requester sends.
    pub fn may_begin(&self, body: &[u8]) -> bool
        ensures { result ≡ may_begin self.now body.now }
    {
        !self.begun || self.answered || body == GET_VERSION
    }

    /// The body of the request that began the round; empty where nothing was asked yet.
    pub fn body(&self) -> &[u8]
        ensures { result.now ≡ body_in self.now }
    {
        if self.begun {
            self.body.as_slice()
        } else {
            &[]
        }
    }

    /// The tag of the request that began the round; 0 where nothing was asked yet.
    pub fn tag(&self) -> u8
        ensures { result ≡ tag_in self.now }
    {
        if self.begun { self.tag } else { 0 }
    }

    /// Whether a request is out of turn.
    pub fn asks_wrong(&self, owner: bool, tag: u8, body: &[u8]) -> bool
        ensures { result ≡ asks_wrong self.now owner tag body.now }
    {
        !owner
            || (!self.is_copy(tag, body) && (tag != self.following_tag() || !self.may_come(body)))
    }

    /// Whether an answer is out of turn.
    pub fn replies_wrong(&self, owner: bool, tag: u8) -> bool
        ensures { result ≡ replies_wrong self.now owner tag }
    {
        owner || !(self.begun && self.tag == tag && self.waiting > 0)
    }

    /// A request of at most 4,161 bytes came in turn: a copy of the last one, or one that begins a round.
    pub fn ask(&mut self, tag: u8, body: &[u8])
        ensures { waiting_in self.old < 2 ^ 64 - 1 → length body.now ≤ MAX_BODY_SIZE
            → self.new ≡ round_asked self.old tag body.now }
    {
        if self.is_copy(tag, body) {
            self.waiting = self.waiting.saturating_add(1);
            return;
        }
        self.begun = true;
        self.tag = tag;
        self.body.clear();
        let _ = self.body.extend(body);
        self.waiting = 1;
        self.answered = false;
    }

    /// An answer came in turn.
    pub fn answer(&mut self)
        ensures { self.new ≡ round_answered self.old }
    {
        self.waiting = self.waiting.saturating_sub(1);
        self.answered = true;
    }
}
