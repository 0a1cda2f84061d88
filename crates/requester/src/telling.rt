ghost use Rattle.std.specs.Prelude.{◌≡◌, ◌≤◌, ◌<◌, ◌^◌, ◌+◌, ◌-◌, [], false, length};
ghost use Rattle.requester_core.specs.Joined.{IsCommanded, command_of};
ghost use Rattle.requester_core.specs.Joined as joined;
ghost use Rattle.session_keys.specs.Drawing.{draw_as, drawn_by};
ghost use Rattle.requester.specs.SetUp.{IsPart};
ghost use Rattle.requester.specs.Standing.{IsTold, StandsFor};
ghost use Rattle.requester_machine.specs.Does.{requester_asks};
ghost use Rattle.requester_machine.specs.History as history;
ghost use Rattle.requester_machine.specs.History.{History};
ghost use Rattle.requester_machine.specs.Requesting.{Requesting, requester_told};
ghost use Rattle.requester_machine.specs.Setup.{ReqSetup};

use crate::Requester;
use crate::part::Part;
use crate::sending::send;
use crate::whole::WEAR_LIMIT;
use hmac_hkdf::{DrawStream, Drawn};
use mctp_framing::PacketList;
use requester_core::{Body, Command, FreeValues, RequesterCore};
use session_keys::context_of;
use spdm_grammar::CommandFault;

// Whether a command that succeeds uses a draw.
fn takes_draw(command: Command<'_>, pad: u8) -> bool
    ensures { (q : ReqSetup) → q.pad ≡ pad
        → result ≡ history.takes_draw q (command_of command.entry) }
{
    match command {
        Command::Open { .. } => true,
        Command::Send { .. }
        | Command::Beat { .. }
        | Command::Update { .. }
        | Command::Measure {
            session: Some(_),
            ..
        }
        | Command::End { .. } => pad != 0,
        Command::Connect | Command::Measure { session: None, .. } | Command::Retry => false,
    }
}

// Runs a command with the values of the next unused draw. The body sent overwrites `body`.
fn tell(
    asking: &mut RequesterCore,
    part: &Part,
    command: Command<'_>,
    drawn: &Drawn,
    body: &mut Body,
) -> Result<u8, CommandFault>
    ensures { (q : ReqSetup) (h : History) → IsPart part.now q → length h < 2 ^ 64 - 1
        → joined.StandsFor asking.old q h → IsCommanded q h
        (requester_asks false q h (command_of command.entry) (draw_as drawn.now)) result body.new
        asking.new }
{
    let context = context_of(asking.choice().hash, drawn);
    let free = FreeValues {
        id: asking.free_id(),
        context: context.as_slice(),
        opaque: part.opaque.as_slice(),
    };
    let pad = &drawn.bytes[..usize::from(part.pad)];
    asking.command(&part.setup(), &part.psk, command, &free, pad, body)
}

// Discards the next draw if it was used.
fn take_draw(draws: &mut DrawStream, is_taken: bool)
    ensures { draws.old.number < 2 ^ 64 - 1 → draws.new
        ≡ record draws.old { number = draws.old.number + drawn_by is_taken } }
{
    if is_taken {
        let _ = draws.advance();
    }
}

impl Requester {
    /// Runs a command. The packets sent overwrite `out`. After a fault there are none, and nothing has changed but the
    /// count of packets and commands; after `Worn` not even that. `CommandFault` lists the faults in the order of the
    /// checks. Never allocates (read, not proved).
    pub fn command(
        &mut self,
        command: Command<'_>,
        out: &mut PacketList,
    ) -> Result<(), CommandFault>
        ensures { (a : Requesting) → StandsFor self.old a
            → IsTold (requester_told a (command_of command.entry)) result out.new self.new }
    {
        out.clear();
        if self.taken >= WEAR_LIMIT {
            return Err(CommandFault::Worn);
        }
        self.taken += 1;
        let drawn = self.draws.peek();
        match tell(
            &mut self.asking,
            &self.part,
            command,
            &drawn,
            &mut self.body,
        ) {
            Err(fault) => Err(fault),
            Ok(tag) => {
                take_draw(&mut self.draws, takes_draw(command, self.part.pad));
                send(&self.part, tag, self.body.as_slice(), out);
                Ok(())
            }
        }
    }
}
