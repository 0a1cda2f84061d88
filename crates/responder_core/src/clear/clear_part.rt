ghost use Rattle.std.specs.Prelude.{◌≡◌, ◌≤◌, [], IfSome, is_some, true, false, length};
ghost use Rattle.responder_machine.specs.Answer.{Free, answer_bytes};
ghost use Rattle.responder_machine.specs.History.{History};
ghost use Rattle.responder_machine.specs.Place.{clear_place, held_of};
ghost use Rattle.responder_machine.specs.Refusal as refusals;
ghost use Rattle.responder_machine.specs.Responder as responder;
ghost use Rattle.responder_machine.specs.Setup.{RspSetup};
ghost use Rattle.spdm_grammar.specs.declared.told.heard.Heard.TheVariants as hearing;
ghost use Rattle.spdm_grammar.specs.declared.names.TheConstants.{MAX_MESSAGE_SIZE};
ghost use Rattle.spdm_machine.specs.Keys.{Draw};
ghost use Rattle.responder_core.specs.ClearPart.{IsAnswered, IsBeginning, IsTold, StandsFor, StaysToBegin};
ghost use Rattle.responder_core.specs.Coming.{exchange_bytes, exchange_place};
ghost use Rattle.responder_core.specs.Free.{IsFree};
ghost use Rattle.responder_core.specs.Setup.{IsSetUp};

use crate::clear::handling::replace;
use crate::{ClearOutcome, ExchangeOrigin, FreeValues, KeptReply, RequestOutcome, Requests, Setup};
use spdm_basis::Frame;
use std::marker::Model;

/// The clear part of a responder's connection with one requester: the state of its requests, and the stored response.
/// Fixed size; never allocates.
#[derive(Drop)]
pub struct ClearPart {
    pub(crate) requests: Requests,
    pub(crate) kept: KeptReply,
}

impl Model for ClearPart {
    ghost use Rattle.responder_core.specs.ClearPart.{Seen};

    ghost Value = { Seen };

    ghost view = { λ c. record { requests = c.requests; kept = c.kept } };
}

impl ClearPart {
    /// The initial state, before any message.
    pub fn new(setup: &Setup<'_>) -> ClearPart
        ensures { (r : RspSetup) → IsSetUp setup.now r → StandsFor result r [] }
    {
        ClearPart {
            requests: Requests::new(setup),
            kept: KeptReply::new(),
        }
    }

    /// Returns a copy; `None` while a large response is pending.
    pub fn idle_copy(&self) -> Option<ClearPart>
        ensures same { IfSome result (λ copy. copy ≡ self.now) }
        ensures idle { (r : RspSetup) (h : History) → StandsFor self.now r h
            → refusals.has_pending (clear_place h) ≡ false → is_some result ≡ true }
    {
        let requests = self.requests.idle_copy()?;
        Some(ClearPart {
            requests,
            kept: self.kept.copy(),
        })
    }

    /// What is kept of the requests.
    pub fn requests(&self) -> &Requests
        ensures { result.now ≡ self.now.requests }
    {
        &self.requests
    }

    /// Whether this message and tag repeat the last request that was not refused.
    pub fn is_repeat(&self, tag: u8, message: &[u8]) -> bool
        ensures { result ≡ responder.is_repeat self.now.kept tag message.now }
    {
        self.kept.is_repeat(tag, message)
    }

    /// Handles a clear message with its tag; `held` counts established sessions. The response overwrites `out`: a
    /// repeat gets the stored response. If the message begins a session nothing is sent yet, and `begin` completes the
    /// turn.
    pub fn on_clear(
        &mut self,
        setup: &Setup<'_>,
        held: u8,
        tag: u8,
        message: &[u8],
        free: &FreeValues<'_>,
        out: &mut Frame,
    ) -> ClearOutcome
        ensures told { (r : RspSetup) (h : History) (f : Free) (d : Draw) → IsSetUp setup.now r
            → IsFree free.now f → StandsFor self.old r h → held_of h ≡ held
            → IsTold r h tag message.now f d result self.new out.new }
        ensures stays { StaysToBegin result self.old self.new }
    {
        if self.kept.is_repeat(tag, message) {
            replace(out, self.kept.reply());
            return ClearOutcome::Same;
        }
        match self.requests.on_request(setup, held, message, free, out) {
            RequestOutcome::Refused(code) => ClearOutcome::Refused(code),
            RequestOutcome::Answered { code, drawn } => {
                self.kept.keep(tag, message, out.as_slice());
                ClearOutcome::Answered { code, drawn }
            }
            RequestOutcome::Begins(begun) => ClearOutcome::Begins(begun),
        }
    }

    /// Completes the turn of a clear message that begins a session: `answer` is the PSK_EXCHANGE_RSP, of at most 4,096
    /// bytes, with this handle if it is sent in chunks. The message sent overwrites `out`.
    pub fn begin(
        &mut self,
        begun: ExchangeOrigin,
        tag: u8,
        message: &[u8],
        answer: &[u8],
        handle: u8,
        out: &mut Frame,
    )
        requires { length answer.now ≤ MAX_MESSAGE_SIZE }
        ensures { (r : RspSetup) (h : History) (f : Free) (d : Draw) → f.handle ≡ handle
            → r.transfer ≤ r.max → r.max ≤ MAX_MESSAGE_SIZE
            → IsBeginning r h tag message.now f begun self.old
            → answer.now ≡ answer_bytes r (exchange_place begun (clear_place h))
            (exchange_bytes begun message.now self.old.requests) f
            → IsAnswered r h tag message.now f d
            (hearing.Answered (refusals.code_of message.now)) self.new out.new }
    {
        self.requests.begin(begun, answer, handle, out);
        self.kept.keep(tag, message, out.as_slice());
    }
}
