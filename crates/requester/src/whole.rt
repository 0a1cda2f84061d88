use crate::part::Part;
use crate::{ReqConfig, ReqConfigFault};
use hmac_hkdf::DrawStream;
use mctp_framing::Assembler;
use requester_core::{Body, RequesterCore, SessionTold};
use spdm_grammar::names::MAX_BODY_SIZE;
use spdm_grammar::{Phase, SessionList};
use std::alloc::Global;

/// The most packets and commands, counted together, that a requester handles: 2^40. After them it is `Worn`.
pub(crate) const WEAR_LIMIT: u64 = 1_099_511_627_776;

/// A requester of one responder (DSP0274, section 10): commands and packets in, packets out. Allocates only when
/// constructed (read, not proved).
#[derive(Drop)]
pub struct Requester {
    pub(crate) part: Part,
    pub(crate) asking: RequesterCore,
    pub(crate) assembler: Assembler,
    pub(crate) draws: DrawStream,
    // The number of packets and commands so far.
    pub(crate) taken: u64,
    // Scratch space for the body sent, kept here so that no call zeroes a buffer of its own.
    pub(crate) body: Body,
}

impl Requester {
    ghost use Rattle.std.specs.Prelude.{◌≡◌, ◌≤◌, ◌*◌, ◌-◌, ◌^◌, None, Some, IfErr, IfOk, MatchOption, OnOk};
    ghost use Rattle.requester.specs.Config.{IsCause, config_fault};
    ghost use Rattle.requester.specs.SetUp.{end_of};
    ghost use Rattle.requester.specs.Standing.{StandsFor};
    ghost use Rattle.requester_machine.specs.History.{phase_of};
    ghost use Rattle.requester_machine.specs.Requesting.{Requesting, new_requesting};
    ghost use Rattle.requester_machine.specs.Session.{session_of};
    ghost use Rattle.requester_machine.specs.Shown.{last_data, views_of};
    ghost use Rattle.psk_session.specs.Told.{told_of};

    /// A requester in its initial state. `ReqConfigFault` lists the faults in the order of the checks.
    pub fn new(
        alloc: Global,
        config: &ReqConfig<'_>,
        seed: [u8; 32],
    ) -> Result<Requester, ReqConfigFault>
        ensures stands { IfOk result
            (λ requester. StandsFor requester (new_requesting (end_of config.now seed 0))) }
        ensures sound { OnOk result (config_fault config.now ≡ None) }
        ensures fault { IfErr result (λ fault. IsCause config.now fault) }
    {
        Requester::resume(alloc, config, seed, 0)
    }

    /// A requester in its initial state. `boot` is the number of earlier boots with this seed, at most 2^24 - 2. Each
    /// boot uses random values that no other boot uses. Faults as for `new`.
    pub fn resume(
        alloc: Global,
        config: &ReqConfig<'_>,
        seed: [u8; 32],
        boot: u32,
    ) -> Result<Requester, ReqConfigFault>
        requires { boot ≤ 2 ^ 24 - 2 }
        ensures stands { IfOk result (λ requester. StandsFor requester
            (new_requesting (end_of config.now seed (boot * 2 ^ 40)))) }
        ensures sound { OnOk result (config_fault config.now ≡ None) }
        ensures fault { IfErr result (λ fault. IsCause config.now fault) }
    {
        let part = Part::new(alloc, config)?;
        let Ok(assembler) = Assembler::new(alloc, part.eid, part.responder, MAX_BODY_SIZE) else {
            return Err(ReqConfigFault::OutOfMemory);
        };
        let Ok(asking) = RequesterCore::new(alloc, part.max) else {
            return Err(ReqConfigFault::OutOfMemory);
        };
        let draws = DrawStream::from_number(seed, u64::from(boot) * WEAR_LIMIT);
        Ok(Requester {
            part,
            asking,
            assembler,
            draws,
            taken: 0,
            body: Body::new(),
        })
    }

    /// The phase of the negotiation.
    pub fn phase(&self) -> Phase
        ensures { (a : Requesting) → StandsFor self.now a → result ≡ phase_of a.history }
    {
        self.asking.phase()
    }

    /// Views of the sessions whose PSK_EXCHANGE_RSP was accepted, also those still in their handshake, by rising
    /// ReqSessionID.
    pub fn sessions(&self) -> SessionList
        ensures { (a : Requesting) → StandsFor self.now a → result ≡ views_of a.history }
    {
        self.asking.sessions()
    }

    /// What PSK_EXCHANGE_RSP told of the session with this ReqSessionID (DSP0274, "PSK_EXCHANGE_RSP response message
    /// format"): HeartbeatPeriod, measurement summary and opaque data. None before it was accepted, and where there is
    /// no session.
    pub fn told(&self, id: u16) -> Option<&SessionTold>
        ensures { (a : Requesting) → StandsFor self.now a → MatchOption result
            (told_of (session_of id a.history) ≡ None)
            (λ told. told_of (session_of id a.history) ≡ Some told.now) }
    {
        self.asking.told(id)
    }

    /// The application data or measurement record received last; empty before the first.
    pub fn last_data(&self) -> &[u8]
        ensures { (a : Requesting) → StandsFor self.now a → result.now ≡ last_data a.history }
    {
        self.asking.last_data()
    }
}
