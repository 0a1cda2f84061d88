ghost use Rattle.std.specs.Prelude.{◌≡◌, IfErr, is_ok};

use crate::SendFault;
use crate::event_text::EventText;
use crate::lines::push_no_packet;
use crate::link::Link;
use crate::sending::send_packets;
use requester::Command;
use script_text::LinkEvent;
use spdm_basis::OutOfMemory;

// Allocation failure for a line.
fn no_memory(_: OutOfMemory) -> SendFault
    ensures { result ≡ SendFault.OutOfMemory }
{
    SendFault::OutOfMemory
}

// A line was added, or there was no memory for it.
fn line_added(done: Result<(), OutOfMemory>) -> Result<(), SendFault>
    ensures same { is_ok result ≡ is_ok done }
    ensures fault { IfErr result (λ fault. fault ≡ SendFault.OutOfMemory) }
{
    match done {
        Ok(()) => Ok(()),
        Err(_) => Err(SendFault::OutOfMemory),
    }
}

impl Link {
    ghost use Rattle.std.specs.Prelude.{◌≡◌, false};
    ghost use Rattle.requester_core.specs.Joined.{command_of};
    ghost use Rattle.link_world.specs.Events.{happening_of, is_show};
    ghost use Rattle.link_world.specs.Standing.{IsLink, IsStepped};
    ghost use Rattle.world_machine.specs.World.{World, delivers, given, happens, loses, packet_of, pumps, replied, requester_of, told};

    // Gives a command to the requester with this number.
    fn tell(&mut self, q: u8, command: Command<'_>, text: &mut EventText) -> Result<(), SendFault>
        ensures { (w : World) → IsLink self.old w → IsStepped
            (told w q (command_of command.entry) (requester_of q w)) result text.old text.new
            self.new }
    {
        self.ends
            .tell(q, command, &mut self.out, text)
            .map_err(no_memory)?;
        send_packets(&self.out, &mut self.sent, text)
    }

    // Delivers bytes to the endpoint that they name.
    fn inject(&mut self, bytes: &[u8], text: &mut EventText) -> Result<(), SendFault>
        ensures { (w : World) → IsLink self.old w
            → IsStepped (given w bytes.now) result text.old text.new self.new }
    {
        self.ends
            .give(bytes, &mut self.out, text)
            .map_err(no_memory)?;
        send_packets(&self.out, &mut self.sent, text)
    }

    // Delivers the packet with this number to its endpoint, even if it no longer waits. It no longer waits then.
    fn deliver(&mut self, number: u32, text: &mut EventText) -> Result<(), SendFault>
        ensures { (w : World) → IsLink self.old w → IsStepped
            (delivers w number (packet_of number w.sent)) result text.old text.new self.new }
    {
        self.sent.stop(number);
        let Some(packet) = self.sent.get(number) else {
            return line_added(push_no_packet(number, text));
        };
        self.ends
            .give(packet, &mut self.out, text)
            .map_err(no_memory)?;
        send_packets(&self.out, &mut self.sent, text)
    }

    // Drops the packet with this number from those that wait.
    fn lose(&mut self, number: u32, text: &mut EventText) -> Result<(), SendFault>
        ensures { (w : World) → IsLink self.old w → IsStepped
            (loses w number (packet_of number w.sent)) result text.old text.new self.new }
    {
        self.sent.stop(number);
        match self.sent.get(number) {
            Some(_) => Ok(()),
            None => line_added(push_no_packet(number, text)),
        }
    }

    // Delivers the waiting packet of least number, at most `count` times.
    fn pump(&mut self, count: u32, text: &mut EventText) -> Result<(), SendFault>
        ensures { (w : World) → IsLink self.old w
            → IsStepped (pumps count w) result text.old text.new self.new }
    {
        for turn in 0..count {
            let Some(number) = self.sent.first_waiting() else {
                return Ok(());
            };
            self.deliver(number, text)?;
        }
        Ok(())
    }

    // Queues application data for a requester.
    fn reply(&mut self, q: u8, bytes: &[u8], text: &mut EventText) -> Result<(), SendFault>
        ensures { (w : World) → IsLink self.old w → IsStepped
            (replied w bytes.now (requester_of q w)) result text.old text.new self.new }
    {
        line_added(self.ends.reply(q, bytes, text))
    }

    /// Runs an event other than `Show`, and appends its trace lines to `text`. After `LinkFull` the lines before that
    /// of the packet without room were appended.
    #[tactic(auto, unfolding(world_machine::specs::World::happens))]
    pub(crate) fn happen(
        &mut self,
        event: &LinkEvent,
        text: &mut EventText,
    ) -> Result<(), SendFault>
        requires { is_show event.now ≡ false }
        ensures { (w : World) → IsLink self.old w → IsStepped
            (happens w (happening_of event.now)) result text.old text.new self.new }
    {
        match event {
            LinkEvent::Connect { q } => self.tell(*q, Command::Connect, text),
            LinkEvent::Retry { q } => self.tell(*q, Command::Retry, text),
            LinkEvent::Open { q, summary } => {
                self.tell(*q, Command::Open { summary: *summary }, text)
            }
            LinkEvent::Send { q, session, bytes } => {
                let command = Command::Send {
                    session: *session,
                    bytes: bytes.as_slice(),
                };
                self.tell(*q, command, text)
            }
            LinkEvent::Beat { q, session } => {
                self.tell(*q, Command::Beat { session: *session }, text)
            }
            LinkEvent::End { q, session } => {
                self.tell(*q, Command::End { session: *session }, text)
            }
            LinkEvent::Update { q, session, all } => {
                let command = Command::Update {
                    session: *session,
                    all: *all,
                };
                self.tell(*q, command, text)
            }
            LinkEvent::Measure { q, session, op } => {
                let command = Command::Measure {
                    session: *session,
                    op: *op,
                };
                self.tell(*q, command, text)
            }
            LinkEvent::Reply { q, bytes } => self.reply(*q, bytes.as_slice(), text),
            LinkEvent::Deliver { number } => self.deliver(*number, text),
            LinkEvent::Lose { number } => self.lose(*number, text),
            LinkEvent::Inject { bytes } => self.inject(bytes.as_slice(), text),
            LinkEvent::Pump { count } => self.pump(*count, text),
            LinkEvent::Tick { seconds } => {
                self.ends.tick(*seconds);
                Ok(())
            }
            LinkEvent::Show => unreachable!(),
        }
    }
}
