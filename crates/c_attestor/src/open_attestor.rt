use appraise::Policy;
use attestor::{Attestor, Progressed};
use mctp_framing::PacketList;
use requester::ReqConfig;
use spdm_basis::OutOfMemory;
use std::alloc::Global;

/// An attestor, and the packets that it sends next.
#[derive(Drop)]
pub struct OpenAttestor {
    pub attestor: Attestor,
    pub out: PacketList,
}

impl OpenAttestor {
    ghost use Rattle.std.specs.Prelude.{◌≡◌, ◌≤◌, ◌*◌, ◌-◌, ◌^◌, [], None, true, IfOk};
    ghost use Rattle.attestor.specs.Attesting.{Attesting, attesting_given, attesting_over, attesting_started, attesting_timed, has_failed};
    ghost use Rattle.attestor.specs.Standing.{IsGiven, IsSent, StandsFor};
    ghost use Rattle.requester.specs.Config.{config_fault};
    ghost use Rattle.requester.specs.SetUp.{end_of};
    ghost use Rattle.requester_machine.specs.Requesting.{new_requesting};

    /// An attestor over a new requester of a configuration without a fault, with nothing to send. It appraises under this
    /// policy. `boot` as for `Attestor::resume`.
    pub fn new(
        alloc: Global,
        config: &ReqConfig<'_>,
        seed: [u8; 32],
        boot: u32,
        policy: Policy,
    ) -> Result<Box<OpenAttestor, Global>, OutOfMemory>
        requires sound { config_fault config.now ≡ None }
        requires boot { boot ≤ 2 ^ 24 - 2 }
        ensures stands { IfOk result (λ end. StandsFor end.value.attestor (attesting_over
            (new_requesting (end_of config.now seed (boot * 2 ^ 40))) policy)) }
        ensures sends { IfOk result (λ end. end.value.out ≡ []) }
    {
        // Before the attestor is made, so that it is moved less often on the stack.
        let out = PacketList::new(alloc)?;
        let Ok(attestor) = Attestor::resume(alloc, config, seed, boot, policy) else {
            return Err(OutOfMemory);
        };
        match Box::new(alloc, OpenAttestor { attestor, out }) {
            Ok(end) => Ok(end),
            Err(_) => Err(OutOfMemory),
        }
    }

    /// `Attestor::start`, whose packets overwrite `out`.
    pub fn start(&mut self)
        ensures { (a : Attesting) → StandsFor self.old.attestor a
            → IsSent (attesting_started a) self.new.out self.new.attestor }
    {
        self.attestor.start(&mut self.out);
    }

    /// `Attestor::on_packet`, whose packets overwrite `out`.
    pub fn on_packet(&mut self, packet: &[u8]) -> Progressed
        ensures given { (a : Attesting) → StandsFor self.old.attestor a
            → IsGiven (attesting_given a packet.now) result self.new.out self.new.attestor }
        ensures silent { (a : Attesting) → StandsFor self.old.attestor a
            → has_failed a.decision ≡ true → self.new.out ≡ [] }
    {
        self.attestor.on_packet(packet, &mut self.out)
    }

    /// `Attestor::on_time`, whose packets overwrite `out`.
    pub fn on_time(&mut self)
        ensures timed { (a : Attesting) → StandsFor self.old.attestor a
            → IsSent (attesting_timed a) self.new.out self.new.attestor }
        ensures silent { (a : Attesting) → StandsFor self.old.attestor a
            → has_failed a.decision ≡ true → self.new.out ≡ [] }
    {
        self.attestor.on_time(&mut self.out);
    }
}
