ghost use Rattle.std.specs.Prelude.{◌≡◌, ◌≤◌, ◌+◌, ◌++◌, [], length, if◌then◌else◌};
ghost use Rattle.spdm_grammar.specs.declared.told.phase.Phase.TheVariants.{Capable, Fresh, Negotiated, Versioned};
ghost use Rattle.spdm_machine.specs.Terms.{no_choice, no_common};

use negotiate::{Common, Sizes};
use spdm_basis::{AeadAlg, HashAlg};
use spdm_grammar::{Choice, Phase};
use std::marker::Model;
use transcript::Vca;

// What both ends can do where nothing was settled.
const NO_COMMON: Common = Common {
    measure: false,
    heartbeat: false,
    key_update: false,
    chunk: false,
    to_requester: Sizes {
        transfer: 0,
        max: 0,
    },
    to_responder: Sizes {
        transfer: 0,
        max: 0,
    },
};

// The choice where nothing was settled.
const NO_CHOICE: Choice = Choice {
    hash: HashAlg::Sha256,
    aead: AeadAlg::Aes128Gcm,
    measure: false,
};

/// How far the negotiation has come, its messages, and what they settled (DSP0274, "GET_VERSION",
/// "GET_CAPABILITIES" and "NEGOTIATE_ALGORITHMS").
#[derive(Drop)]
pub struct Negotiating {
    phase: Phase,
    messages: Vca,
    common: Common,
    choice: Choice,
}

impl Model for Negotiating {
    ghost use Rattle.requester_core.specs.Negotiating.{Seen};

    ghost Value = { Seen };

    ghost view = { λ n. record {
      phase = n.phase;
      messages = n.messages;
      common = n.common;
      choice = n.choice;
    } };
}

impl Negotiating {
    /// The initial state.
    pub fn new() -> Negotiating
        ensures { result
            ≡ record { phase = Fresh; messages = []; common = no_common; choice = no_choice } }
    {
        Negotiating {
            phase: Phase::Fresh,
            messages: Vca::new(),
            common: NO_COMMON,
            choice: NO_CHOICE,
        }
    }

    /// How far it has come.
    pub fn phase(&self) -> Phase
        ensures { result ≡ self.now.phase }
    {
        self.phase
    }

    /// What both ends can do.
    pub fn common(&self) -> &Common
        ensures { result.now ≡ self.now.common }
    {
        &self.common
    }

    /// The algorithms that were chosen.
    pub fn choice(&self) -> Choice
        ensures { result ≡ self.now.choice }
    {
        self.choice
    }

    /// The bytes of its messages so far, one after the other; in phase Negotiated the whole VCA (DSP0274, "Transcript
    /// hash").
    pub fn messages(&self) -> &Vca
        ensures { result.now ≡ self.now.messages }
    {
        &self.messages
    }

    /// It starts over: all that was said is void.
    pub fn begin(&mut self)
        ensures { self.new
            ≡ record { phase = Fresh; messages = []; common = no_common; choice = no_choice } }
    {
        self.phase = Phase::Fresh;
        self.messages.clear();
        self.common = NO_COMMON;
        self.choice = NO_CHOICE;
    }

    /// It ended without a connection.
    pub fn stop(&mut self)
        ensures { self.new ≡ record self.old { phase = Fresh } }
    {
        self.phase = Phase::Fresh;
    }

    /// A request was refused: where that was one of the negotiation, it ended without a connection.
    pub fn refuse(&mut self, negotiates: bool)
        ensures { self.new
            ≡ (if negotiates then record self.old { phase = Fresh } else self.old) }
    {
        if negotiates {
            self.stop();
        }
    }

    /// VERSION was accepted. The messages of a negotiation always fit.
    pub fn take_version(&mut self, request: &[u8], answer: &[u8])
        ensures { length self.old.messages + length request.now + length answer.now ≤ 8768
            → self.new ≡ record self.old {
              phase = Versioned;
              messages = self.old.messages ++ request.now ++ answer.now;
            } }
    {
        self.phase = Phase::Versioned;
        keep(&mut self.messages, request, answer);
    }

    /// CAPABILITIES was accepted, with these common capabilities.
    pub fn take_capabilities(&mut self, request: &[u8], answer: &[u8], common: Common)
        ensures { length self.old.messages + length request.now + length answer.now ≤ 8768
            → self.new ≡ record self.old {
              phase = Capable;
              messages = self.old.messages ++ request.now ++ answer.now;
              common = common;
            } }
    {
        self.phase = Phase::Capable;
        keep(&mut self.messages, request, answer);
        self.common = common;
    }

    /// ALGORITHMS was accepted, with this choice.
    pub fn take_algorithms(&mut self, request: &[u8], answer: &[u8], choice: Choice)
        ensures { length self.old.messages + length request.now + length answer.now ≤ 8768
            → self.new ≡ record self.old {
              phase = Negotiated;
              messages = self.old.messages ++ request.now ++ answer.now;
              choice = choice;
            } }
    {
        self.phase = Phase::Negotiated;
        keep(&mut self.messages, request, answer);
        self.choice = choice;
    }
}

// Adds a request and its answer; those of a negotiation fit.
fn keep(messages: &mut Vca, request: &[u8], answer: &[u8])
    ensures { length messages.old + length request.now + length answer.now ≤ 8768
        → messages.new ≡ messages.old ++ request.now ++ answer.now }
{
    let left = 8768 - messages.as_slice().len();
    if request.len() <= left && answer.len() <= left - request.len() {
        messages.push(request);
        messages.push(answer);
    }
}
