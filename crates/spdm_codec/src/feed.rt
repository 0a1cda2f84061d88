ghost use Rattle.std.specs.Prelude.{◌≡◌, ◌≢◌, ◌<◌, ◌≤◌, ◌+◌, ◌++◌, ◌↔◌, [], ℕ, List, Bool, Some, length, OnOk, OnErr};
ghost use Rattle.std.specs.Option.{option_map};
ghost use Rattle.std.specs.Result.{result_ok, result_err};
ghost use Rattle.spdm_grammar.specs.Message.{request_message, response_message};
ghost use Rattle.spdm_grammar.specs.Requests.{request_in, request_fault};
ghost use Rattle.spdm_grammar.specs.Responses.{response_in, response_fault};
ghost use Rattle.spdm_grammar.specs.declared.messages.malformed.Malformed.{Malformed};
ghost use Rattle.spdm_grammar.specs.declared.messages.malformed.Part.TheVariants.{End};
ghost use Rattle.spdm_codec.specs.declared.expect.Expect.{Expect};
ghost use Rattle.spdm_codec.specs.Feed.{fault_in, AwaitsRequest, AwaitsResponse};

use crate::{Expect, read_request, read_response};
use spdm_basis::Frame;
use spdm_grammar::names::MAX_MESSAGE_SIZE;
use spdm_grammar::{Malformed, Part, Request, Response};
use std::marker::Model;
use thiserror::Error;

/// Why a piece is refused.
#[derive(Clone, Copy, Debug, PartialEq, Eq, Error)]
pub enum FeedFault {
    /// The message would exceed 4,096 bytes.
    #[error("the message passes 4096 bytes")]
    TooLong,
    /// The bytes with this piece encode no message, and neither do any longer ones.
    #[error(transparent)]
    Bad(Malformed),
}

/// A message that arrives in pieces. Its bytes are stored inline, and parsed again with each piece. Never allocates (read, not proved).
#[derive(Drop)]
pub struct Feed {
    expect: Expect,
    bytes: Frame,
}

impl Model for Feed {
    ghost use Rattle.spdm_codec.specs.Feed.{Fed};

    ghost Value = { Fed };

    ghost view = { λ f. record { expect = f.expect; bytes = f.bytes } };
}

impl Feed {
    /// An empty feed.
    pub fn new(expect: Expect) -> Feed
        ensures { result ≡ record { expect = expect; bytes = [] } }
    {
        Feed {
            expect,
            bytes: Frame::new(),
        }
    }

    /// Appends a piece. Returns `TooLong` exactly when more than 4,096 bytes would stand, and `Bad` exactly when fewer
    /// would and they have another fault than that they end too early. A refused piece changes nothing.
    pub fn push(&mut self, piece: &[u8]) -> Result<(), FeedFault>
        ensures ok { OnOk result (self.new
            ≡ record { expect = self.old.expect; bytes = self.old.bytes ++ piece.now }) }
        ensures err { OnErr result (self.new ≡ self.old) }

        ensures too_long { (result ≡ Err FeedFault.TooLong) ↔
            (MAX_MESSAGE_SIZE < length self.old.bytes + length piece.now) }
        ensures bad { (fault : Malformed) → (result ≡ Err (FeedFault.Bad fault)) ↔
            ((length self.old.bytes + length piece.now ≤ MAX_MESSAGE_SIZE)
            × (fault_in self.old.expect (self.old.bytes ++ piece.now) ≡ Some fault)
            × (fault.what ≢ End)) }
    {
        let mut bytes = Frame::new();
        bytes
            .extend(self.bytes.as_slice())
            .map_err(|_| FeedFault::TooLong)?;
        bytes.extend(piece).map_err(|_| FeedFault::TooLong)?;
        match fault_of(self.expect, bytes.as_slice()) {
            Some(fault) if fault.what != Part::End => Err(FeedFault::Bad(fault)),
            _ => {
                self.bytes = bytes;
                Ok(())
            }
        }
    }

    /// The request that the pieces encode, as `read_request` answers.
    pub fn finish_request(&self) -> Result<Request<'_>, Malformed>
        requires { AwaitsRequest self.now.expect }
        ensures value { (hash_len : ℕ) → self.now.expect ≡ Expect.Request hash_len →
            option_map request_message (result_ok result) ≡ request_in hash_len self.now.bytes }
        ensures fault { (hash_len : ℕ) → self.now.expect ≡ Expect.Request hash_len →
            result_err result ≡ request_fault hash_len self.now.bytes }
    {
        match self.expect {
            Expect::Request { hash_len } => read_request(self.bytes.as_slice(), hash_len),
            Expect::Response { .. } => unreachable!(),
        }
    }

    /// The response that the pieces encode, as `read_response` answers.
    pub fn finish_response(&self) -> Result<Response<'_>, Malformed>
        requires { AwaitsResponse self.now.expect }
        ensures value { (hash_len : ℕ) (summary : Bool)
            → self.now.expect ≡ Expect.Response hash_len summary →
            option_map response_message (result_ok result)
            ≡ response_in hash_len summary self.now.bytes }
        ensures fault { (hash_len : ℕ) (summary : Bool)
            → self.now.expect ≡ Expect.Response hash_len summary →
            result_err result ≡ response_fault hash_len summary self.now.bytes }
    {
        match self.expect {
            Expect::Response { hash_len, summary } => {
                read_response(self.bytes.as_slice(), hash_len, summary)
            }
            Expect::Request { .. } => unreachable!(),
        }
    }
}

// The first fault of the bytes, if they encode no message of the expected kind.
fn fault_of(expect: Expect, bytes: &[u8]) -> Option<Malformed>
    ensures { result ≡ fault_in expect bytes.now }
{
    match expect {
        Expect::Request { hash_len } => read_request(bytes, hash_len).err(),
        Expect::Response { hash_len, summary } => read_response(bytes, hash_len, summary).err(),
    }
}

/// A fault that refuses a piece is that of the whole input, however it goes on: no cut into pieces changes the answer.
pub fn feed_fault_stays()
    ensures { (expect : Expect) (bytes more : List ℕ) (fault : Malformed) →
        fault_in expect bytes ≡ Some fault → fault.what ≢ End
        → fault_in expect (bytes ++ more) ≡ Some fault }
{}
