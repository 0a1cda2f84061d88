ghost use Rattle.std.specs.Prelude.{◌≡◌, ◌≤◌, ◌+◌, ◌++◌, [], ◌∷◌, ℕ, List, Some, Ok, Option, length};
ghost use Rattle.negotiate.specs.Capabilities.{common_of};
ghost use Rattle.negotiate.specs.Choosing.{selected};
ghost use Rattle.responder_machine.specs.Answer.{Free, answer_bytes, request_at};
ghost use Rattle.responder_machine.specs.History.{phase_of};
ghost use Rattle.responder_machine.specs.Place as places;
ghost use Rattle.responder_machine.specs.Setup.{RspSetup, policy_of, responder_caps};
ghost use Rattle.responder_machine.specs.Turn.{Turn};
ghost use Rattle.responder_machine.specs.Turn.Effect.{Took};
ghost use Rattle.spdm_grammar.specs.Fields.{FitsCaps};
ghost use Rattle.spdm_grammar.specs.Message.{OfferMessage};
ghost use Rattle.spdm_grammar.specs.Message.RequestMessage.{GetCapabilities, GetVersion, NegotiateAlgorithms};
ghost use Rattle.spdm_grammar.specs.declared.messages.capabilities.Caps.{Caps};
ghost use Rattle.spdm_grammar.specs.declared.told.phase.Phase.TheVariants.{Capable, Versioned};
ghost use Rattle.spdm_grammar.specs.declared.names.TheConstants.{MAX_MESSAGE_SIZE};
ghost use Rattle.std.specs.Result.{result_ok};
ghost use Rattle.responder_core.specs.Negotiating.{StandsFor};

use negotiate::{Common, Sizes};
use spdm_basis::{AeadAlg, HashAlg};
use spdm_grammar::{Choice, Phase};
use std::marker::Model;
use transcript::Vca;

// What both ends can do where nothing was settled.
const NO_COMMON: Common = Common {
    measure: false,
    heartbeat: false,
    key_update: false,
    chunk: false,
    to_requester: Sizes {
        transfer: 0,
        max: 0,
    },
    to_responder: Sizes {
        transfer: 0,
        max: 0,
    },
};

// The choice where nothing was settled.
pub const NO_CHOICE: Choice = Choice {
    hash: HashAlg::Sha256,
    aead: AeadAlg::Aes128Gcm,
    measure: false,
};

/// How far the negotiation has come, its messages, and what they settled (DSP0274, "GET_VERSION",
/// "GET_CAPABILITIES" and "NEGOTIATE_ALGORITHMS").
#[derive(Drop)]
pub struct Negotiating {
    phase: Phase,
    messages: Vca,
    common: Common,
    choice: Choice,
}

impl Model for Negotiating {
    ghost use Rattle.responder_core.specs.Negotiating.{Seen};

    ghost Value = { Seen };

    ghost view = { λ n. record {
      phase = n.phase;
      messages = n.messages;
      common = n.common;
      choice = n.choice;
    } };
}

impl Negotiating {
    /// The initial state, before any request.
    pub fn new() -> Negotiating
        ensures { StandsFor result [] }
    {
        Negotiating {
            phase: Phase::Fresh,
            messages: Vca::new(),
            common: NO_COMMON,
            choice: NO_CHOICE,
        }
    }

    /// Returns a copy.
    pub fn copy(&self) -> Negotiating
        ensures { result ≡ self.now }
    {
        Negotiating {
            phase: self.phase,
            messages: self.messages.clone().unwrap(),
            common: self.common,
            choice: self.choice,
        }
    }

    /// How far it has come.
    pub fn phase(&self) -> Phase
        ensures { result ≡ self.now.phase }
    {
        self.phase
    }

    /// What both ends can do.
    pub fn common(&self) -> Common
        ensures { result ≡ self.now.common }
    {
        self.common
    }

    /// The algorithms that were chosen.
    pub fn choice(&self) -> Choice
        ensures { result ≡ self.now.choice }
    {
        self.choice
    }

    /// Its messages so far; in phase Negotiated the whole VCA.
    pub fn vca(&self) -> &Vca
        ensures { result.now ≡ self.now.messages }
    {
        &self.messages
    }

    /// Its messages so far, concatenated; in phase Negotiated the complete VCA.
    pub fn messages(&self) -> &[u8]
        ensures { result.now ≡ self.now.messages }
    {
        self.messages.as_slice()
    }

    /// GET_VERSION was accepted with this response: discards the negotiation so far.
    pub fn take_version(&mut self, request: &[u8], answer: &[u8])
        ensures { (r : RspSetup) (p : places.Place) (f : Free) (turns : List Turn) (t : Turn)
            (large : Option ℕ) → request_at p request.now ≡ Some GetVersion
            → answer.now ≡ answer_bytes r p request.now f
            → t.effect ≡ Took GetVersion request.now answer.now large
            → StandsFor self.new (t ∷ turns) }
    {
        self.phase = Phase::Versioned;
        self.messages.clear();
        keep(&mut self.messages, request, answer);
        self.common = NO_COMMON;
        self.choice = NO_CHOICE;
    }

    /// GET_CAPABILITIES was accepted in phase Versioned with this response and these common capabilities.
    pub fn take_capabilities(&mut self, request: &[u8], answer: &[u8], common: Common)
        ensures { (r : RspSetup) (p : places.Place) (f : Free) (caps : Caps) (turns : List Turn)
            (t : Turn) (large : Option ℕ) → StandsFor self.old turns
            → self.old.phase ≡ Versioned → FitsCaps (responder_caps r)
            → request_at p request.now ≡ Some (GetCapabilities caps)
            → result_ok (common_of caps (responder_caps r)) ≡ Some common
            → answer.now ≡ answer_bytes r p request.now f
            → t.effect ≡ Took (GetCapabilities caps) request.now answer.now large
            → StandsFor self.new (t ∷ turns) }
    {
        self.phase = Phase::Capable;
        keep(&mut self.messages, request, answer);
        self.common = common;
    }

    /// NEGOTIATE_ALGORITHMS was accepted in phase Capable with this response and this choice of algorithms.
    pub fn take_algorithms(&mut self, request: &[u8], answer: &[u8], choice: Choice)
        ensures { (r : RspSetup) (p : places.Place) (f : Free) (offer : OfferMessage)
            (turns : List Turn) (t : Turn) (large : Option ℕ) → StandsFor self.old turns
            → self.old.phase ≡ Capable → length request.now ≤ MAX_MESSAGE_SIZE
            → request_at p request.now ≡ Some (NegotiateAlgorithms offer)
            → selected offer (policy_of r) ≡ Some choice
            → answer.now ≡ answer_bytes r p request.now f
            → t.effect ≡ Took (NegotiateAlgorithms offer) request.now answer.now large
            → StandsFor self.new (t ∷ turns) }
    {
        self.phase = Phase::Negotiated;
        keep(&mut self.messages, request, answer);
        self.choice = choice;
    }
}

// Adds a request and its answer; those of a negotiation fit.
fn keep(messages: &mut Vca, request: &[u8], answer: &[u8])
    ensures { length messages.old + length request.now + length answer.now ≤ 8768
        → messages.new ≡ messages.old ++ request.now ++ answer.now }
{
    let left = 8768 - messages.as_slice().len();
    if request.len() <= left && answer.len() <= left - request.len() {
        messages.push(request);
        messages.push(answer);
    }
}
