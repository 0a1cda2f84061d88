use mctp_framing::PacketList;
use responder::{Heard, ReplyFault, ResetFault, Responder, RspConfig, RspConfigFault};
use spdm_basis::Eid;
use std::alloc::Global;

/// A responder, and the packets that it sends next.
#[derive(Drop)]
pub struct OpenResponder {
    pub responder: Responder,
    pub out: PacketList,
}

impl OpenResponder {
    ghost use Rattle.std.specs.Prelude.{◌≡◌, ◌≤◌, ◌*◌, ◌-◌, ◌^◌, [], IfErr, IfOk, MatchResult, None, OnOk, Some};
    ghost use Rattle.responder.specs.Config.{IsCause, config_fault};
    ghost use Rattle.responder.specs.Resetting.{after_reset, reset_fault, version_packet};
    ghost use Rattle.responder.specs.SetUp.{end_of};
    ghost use Rattle.responder.specs.Standing.{IsStep, StandsFor};
    ghost use Rattle.responder.specs.Unharmed.{AreOthersKept, IsHarmless};
    ghost use Rattle.responder_machine.specs.Independence.{after_reply};
    ghost use Rattle.responder_machine.specs.Responding.{Responding, connection_of, new_responding, reply_fault_of, responder_hears, ticks};

    /// A responder in its initial state, with nothing to send. Faults as for `Responder::resume`.
    pub fn new(
        alloc: Global,
        config: &RspConfig<'_>,
        seed: [u8; 32],
        boot: u32,
    ) -> Result<Box<OpenResponder, Global>, RspConfigFault>
        requires { boot ≤ 2 ^ 24 - 2 }
        ensures stands { IfOk result (λ end. StandsFor end.value.responder
            (new_responding (end_of config.now seed (boot * 2 ^ 40)))) }
        ensures sends { IfOk result (λ end. end.value.out ≡ []) }
        ensures sound { OnOk result (config_fault config.now ≡ None) }
        ensures fault { IfErr result (λ fault. IsCause config.now fault) }
    {
        let responder = Responder::resume(alloc, config, seed, boot)?;
        let Ok(out) = PacketList::new(alloc) else {
            return Err(RspConfigFault::OutOfMemory);
        };
        match Box::new(alloc, OpenResponder { responder, out }) {
            Ok(end) => Ok(end),
            Err(_) => Err(RspConfigFault::OutOfMemory),
        }
    }

    /// `Responder::on_packet`, whose packets overwrite `out`.
    pub fn on_packet(&mut self, packet: &[u8]) -> Heard
        ensures step { (r : Responding) → StandsFor self.old.responder r
            → IsStep (responder_hears r packet.now) result self.new.out self.new.responder }
        ensures harmless { (r : Responding) → StandsFor self.old.responder r
            → IsHarmless r packet.now result }
        ensures others { (r : Responding) → StandsFor self.old.responder r
            → AreOthersKept r packet.now self.new.responder }
    {
        self.responder.on_packet(packet, &mut self.out)
    }

    /// `Responder::queue`.
    pub fn queue(&mut self, eid: Eid, bytes: &[u8]) -> Result<(), ReplyFault>
        ensures fault { (r : Responding) → StandsFor self.old.responder r → MatchResult result
            (λ _. reply_fault_of (connection_of eid.number r.connections) bytes.now ≡ None)
            (λ fault. reply_fault_of (connection_of eid.number r.connections) bytes.now
            ≡ Some fault) }
        ensures stands { (r : Responding) → StandsFor self.old.responder r
            → StandsFor self.new.responder (after_reply eid.number bytes.now r) }
        ensures sends { self.new.out ≡ self.old.out }
    {
        self.responder.queue(eid, bytes)
    }

    /// `Responder::tick`.
    pub fn tick(&mut self, seconds: u32)
        ensures stands { (r : Responding) → StandsFor self.old.responder r
            → StandsFor self.new.responder (ticks r seconds) }
        ensures sends { self.new.out ≡ self.old.out }
    {
        self.responder.tick(seconds);
    }
    /// `Responder::reset`, with `out` for its room: nothing is to be sent then, whatever it answers.
    pub fn reset(&mut self, eid: Eid) -> Result<(), ResetFault>
        ensures fault { (r : Responding) → StandsFor self.old.responder r → MatchResult result
            (λ _. reset_fault eid.number r ≡ None)
            (λ fault. reset_fault eid.number r ≡ Some fault) }
        ensures stands { (r : Responding) → StandsFor self.old.responder r
            → StandsFor self.new.responder (after_reset eid.number r) }
        ensures others { (r : Responding) → StandsFor self.old.responder r
            → AreOthersKept r (version_packet r.part.eid eid.number) self.new.responder }
        ensures sends { self.new.out ≡ [] }
    {
        self.responder.reset(eid, &mut self.out)
    }
}
