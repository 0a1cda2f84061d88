ghost use Rattle.std.specs.Prelude.{◌≡◌, ◌≤◌, [], ℕ, IfOk, IfSome, is_some, true, false, length};
ghost use Rattle.responder_machine.specs.Answer.{Free, answer_bytes};
ghost use Rattle.responder_machine.specs.History.{History, clear_turns};
ghost use Rattle.responder_machine.specs.May.{IsAllowed};
ghost use Rattle.responder_machine.specs.Place.{clear_place, held_of};
ghost use Rattle.responder_machine.specs.Refusal as refusals;
ghost use Rattle.responder_machine.specs.Responder as responder;
ghost use Rattle.responder_machine.specs.Setup.{RspSetup};
ghost use Rattle.spdm_grammar.specs.declared.told.heard.Heard.TheVariants as hearing;
ghost use Rattle.spdm_grammar.specs.declared.names.TheConstants.{MAX_MESSAGE_SIZE};
ghost use Rattle.spdm_machine.specs.Keys.{Draw};
ghost use Rattle.responder_core.specs.ClearPart.{IsAnswered, IsBeginning, IsTold, StandsFor, StaysToBegin};
ghost use Rattle.responder_core.specs.ClearState as standings;
ghost use Rattle.responder_core.specs.ClearState.{chosen_len};
ghost use Rattle.responder_core.specs.Coming.{exchange_bytes, exchange_place};
ghost use Rattle.responder_core.specs.Free.{IsFree};
ghost use Rattle.responder_core.specs.Setup.{IsSetUp};
ghost use Rattle.responder_core.specs.Starting.{IsStartedAt};

use crate::{ClearOutcome, ClearPart, ClearState, ExchangeOrigin, FreeValues, Requests, Setup};
use responder_session::RspSession;
use spdm_basis::{Frame, OutOfMemory};
use std::alloc::Global;
use std::marker::Model;

/// The clear part of a connection, which stays on the heap: it has 21 KB. Its methods are those of `ClearPart`. Allocates
/// only when constructed (read, not proved). In contracts, what a `ClearPart` is.
#[derive(Drop)]
pub struct ClearPlace {
    pub(crate) inner: Box<ClearPart>,
}

impl Model for ClearPlace {
    ghost use Rattle.responder_core.specs.ClearPart.{Seen};

    ghost Value = { Seen };

    ghost view = { λ p. p.inner.value };
}

impl ClearPlace {
    /// The initial state, before any message.
    pub fn new(alloc: Global, setup: &Setup<'_>) -> Result<ClearPlace, OutOfMemory>
        ensures { (r : RspSetup) → IsSetUp setup.now r
            → IfOk result (λ place. StandsFor place r []) }
    {
        match Box::new(alloc, ClearPart::new(setup)) {
            Ok(inner) => Ok(ClearPlace { inner }),
            Err(_) => Err(OutOfMemory),
        }
    }

    /// Returns a copy; `None` while a large response is pending.
    pub fn idle_copy(&self) -> Option<ClearPart>
        ensures same { IfSome result (λ copy. copy ≡ self.now) }
        ensures idle { (r : RspSetup) (h : History) → StandsFor self.now r h
            → refusals.has_pending (clear_place h) ≡ false → is_some result ≡ true }
    {
        self.inner.idle_copy()
    }

    /// What is kept of the requests.
    pub fn requests(&self) -> &Requests
        ensures { result.now ≡ self.now.requests }
    {
        self.inner.requests()
    }

    /// The state apart from large requests.
    pub fn standing(&self) -> &ClearState
        ensures value { result.now ≡ self.now.requests.standing }
        ensures stands { (r : RspSetup) (h : History) → StandsFor self.now r h
            → standings.StandsFor result.now (clear_turns h) }
    {
        self.inner.standing()
    }

    /// Whether this message and tag repeat the last request that was not refused.
    pub fn is_repeat(&self, tag: u8, message: &[u8]) -> bool
        ensures { result ≡ responder.is_repeat self.now.kept tag message.now }
    {
        self.inner.is_repeat(tag, message)
    }

    /// `ClearPart::on_clear`.
    pub fn on_clear(
        &mut self,
        setup: &Setup<'_>,
        held: u8,
        tag: u8,
        message: &[u8],
        free: &FreeValues<'_>,
        out: &mut Frame,
    ) -> ClearOutcome
        ensures told { (r : RspSetup) (h : History) (f : Free) (d : Draw) → IsSetUp setup.now r
            → IsFree free.now f → StandsFor self.old r h → held_of h ≡ held
            → IsTold r h tag message.now f d result self.new out.new }
        ensures stays { StaysToBegin result self.old self.new }
    {
        self.inner.on_clear(setup, held, tag, message, free, out)
    }

    /// `ClearPart::start`.
    pub fn start(
        &self,
        begun: ExchangeOrigin,
        setup: &Setup<'_>,
        message: &[u8],
        free: &FreeValues<'_>,
        out: &mut Frame,
    ) -> RspSession
        requires context { chosen_len self.now.requests.standing ≤ length free.now.context.now }
        ensures { (r : RspSetup) (h : History) (tag : ℕ) (f : Free) → IsSetUp setup.now r
            → IsFree free.now f → IsAllowed h (clear_place h) f
            → IsBeginning r h tag message.now f begun self.now
            → IsStartedAt r h message.now f begun self.now.requests result out.new }
    {
        self.inner.start(begun, setup, message, free, out)
    }

    /// `ClearPart::begin`.
    pub fn begin(
        &mut self,
        begun: ExchangeOrigin,
        tag: u8,
        message: &[u8],
        answer: &[u8],
        handle: u8,
        out: &mut Frame,
    )
        requires { length answer.now ≤ MAX_MESSAGE_SIZE }
        ensures { (r : RspSetup) (h : History) (f : Free) (d : Draw) → f.handle ≡ handle
            → r.transfer ≤ r.max → r.max ≤ MAX_MESSAGE_SIZE
            → IsBeginning r h tag message.now f begun self.old
            → answer.now ≡ answer_bytes r (exchange_place begun (clear_place h))
            (exchange_bytes begun message.now self.old.requests) f
            → IsAnswered r h tag message.now f d
            (hearing.Answered (refusals.code_of message.now)) self.new out.new }
    {
        self.inner.begin(begun, tag, message, answer, handle, out);
    }
}
