use mctp_framing::PacketList;
use requester::{Command, CommandFault, Event, ReqConfig, ReqConfigFault, Requester};
use std::alloc::Global;

/// A requester, and the packets that it sends next.
#[derive(Drop)]
pub struct OpenRequester {
    pub requester: Requester,
    pub out: PacketList,
}

impl OpenRequester {
    ghost use Rattle.std.specs.Prelude.{◌≡◌, ◌≤◌, ◌*◌, ◌-◌, ◌^◌, [], IfErr, IfOk, None, OnOk};
    ghost use Rattle.requester.specs.Config.{IsCause, config_fault};
    ghost use Rattle.requester.specs.SetUp.{end_of};
    ghost use Rattle.requester.specs.Standing.{IsGiven, IsTold, StandsFor};
    ghost use Rattle.requester_core.specs.Joined.{command_of};
    ghost use Rattle.requester_machine.specs.Requesting.{Requesting, new_requesting, requester_given, requester_told};

    /// A requester in its initial state, with nothing to send. Faults as for `Requester::resume`.
    pub fn new(
        alloc: Global,
        config: &ReqConfig<'_>,
        seed: [u8; 32],
        boot: u32,
    ) -> Result<Box<OpenRequester, Global>, ReqConfigFault>
        requires { boot ≤ 2 ^ 24 - 2 }
        ensures stands { IfOk result (λ end. StandsFor end.value.requester
            (new_requesting (end_of config.now seed (boot * 2 ^ 40)))) }
        ensures sends { IfOk result (λ end. end.value.out ≡ []) }
        ensures sound { OnOk result (config_fault config.now ≡ None) }
        ensures fault { IfErr result (λ fault. IsCause config.now fault) }
    {
        if let Some(fault) = config.fault() {
            return Err(fault);
        }
        // Before the requester is made, so that it is moved less often on the stack.
        let Ok(out) = PacketList::new(alloc) else {
            return Err(ReqConfigFault::OutOfMemory);
        };
        let requester = Requester::resume(alloc, config, seed, boot)?;
        match Box::new(alloc, OpenRequester { requester, out }) {
            Ok(end) => Ok(end),
            Err(_) => Err(ReqConfigFault::OutOfMemory),
        }
    }

    /// `Requester::on_packet`, whose packets overwrite `out`.
    pub fn on_packet(&mut self, packet: &[u8]) -> Event
        ensures { (a : Requesting) → StandsFor self.old.requester a
            → IsGiven (requester_given a packet.now) result self.new.out self.new.requester }
    {
        self.requester.on_packet(packet, &mut self.out)
    }

    /// `Requester::command`, whose packets overwrite `out`.
    pub fn command(&mut self, command: Command<'_>) -> Result<(), CommandFault>
        ensures { (a : Requesting) → StandsFor self.old.requester a
            → IsTold (requester_told a (command_of command.entry)) result self.new.out
            self.new.requester }
    {
        self.requester.command(command, &mut self.out)
    }
}
