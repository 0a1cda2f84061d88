ghost use Rattle.std.specs.Prelude.{◌≡◌, slice_index};

use crate::ends::{Ends, number_of_place};
use crate::event_text::EventText;
use crate::lines::{push_command, push_event, push_heard, push_nobody, push_reply};
use crate::totals::{is_answered, is_taken, with_one};
use mctp_framing::PacketList;
use requester::Command;
use spdm_basis::OutOfMemory;

// The source of a packet, and 0 where it is too short to have one.
fn source(packet: &[u8]) -> u8
    ensures { result ≡ slice_index packet.now 2 }
{
    packet.get(2).copied().unwrap_or(0)
}

// The endpoints' reactions. Their trace lines, except those of the packets sent, are appended to `text`, and the
// packets sent overwrite `out`.
impl Ends {
    ghost use Rattle.std.specs.Prelude.{◌≡◌, ◌<◌, Some, OnOk, length};
    ghost use Rattle.requester_core.specs.Joined.{command_of};
    ghost use Rattle.link_world.specs.Standing.{AreEnds, IsDone, IsGivenTo};
    ghost use Rattle.responder_machine.specs.Responding.{responder_hears, ticks};
    ghost use Rattle.requester_machine.specs.Requesting.{Requesting, requester_given};
    ghost use Rattle.world_machine.specs.World.{World, given, given_to_requester, given_to_responder, replied, requester_at, requester_of, told, number_at};

    /// Gives a command to a requester. Does nothing if there is none with this number.
    pub(crate) fn tell(
        &mut self,
        q: u8,
        command: Command<'_>,
        out: &mut PacketList,
        text: &mut EventText,
    ) -> Result<(), OutOfMemory>
        ensures { (w : World) → AreEnds self.old w → OnOk result (IsGivenTo w
            (told w q (command_of command.entry) (requester_of q w)) text.old text.new out.new
            self.new) }
    {
        out.clear();
        let Some(place) = usize::from(q).checked_sub(1) else {
            return Ok(());
        };
        let Some(asker) = self.requesters.get_mut(place) else {
            return Ok(());
        };
        let answer = asker.requester.command(command, out);
        push_command(q, &answer, text)
    }

    /// Delivers a packet to the endpoint in its byte 1.
    pub(crate) fn give(
        &mut self,
        packet: &[u8],
        out: &mut PacketList,
        text: &mut EventText,
    ) -> Result<(), OutOfMemory>
        ensures { (w : World) → AreEnds self.old w → OnOk result
            (IsGivenTo w (given w packet.now) text.old text.new out.new self.new) }
    {
        out.clear();
        if packet.len() < 2 {
            return push_nobody(text);
        }
        let to = packet[1];
        if to == self.eid.number() {
            return self.give_responder(packet, out, text);
        }
        match self.place_of(to) {
            Some(place) => self.give_requester(place, packet, out, text),
            None => push_nobody(text),
        }
    }

    // Delivers a packet to the responder.
    fn give_responder(
        &mut self,
        packet: &[u8],
        out: &mut PacketList,
        text: &mut EventText,
    ) -> Result<(), OutOfMemory>
        ensures { (w : World) → AreEnds self.old w → OnOk result (IsGivenTo w
            (given_to_responder w packet.now (responder_hears w.responder packet.now)) text.old
            text.new out.new self.new) }
    {
        let q = self.number_of(source(packet));
        let heard = self.responder.on_packet(packet, out);
        self.taken = with_one(self.taken, is_taken(&heard));
        push_heard(q, heard, self.responder.last_data(), text)
    }

    // Delivers a packet to the requester at this index.
    fn give_requester(
        &mut self,
        place: usize,
        packet: &[u8],
        out: &mut PacketList,
        text: &mut EventText,
    ) -> Result<(), OutOfMemory>
        requires { place < length self.old.requesters.items }
        ensures { (w : World) (a : Requesting) → AreEnds self.old w
            → requester_at place w.requesters ≡ Some a → OnOk result (IsGivenTo w
            (given_to_requester w (number_at a.setup.eid w) (requester_given a packet.now))
            text.old text.new out.new self.new) }
    {
        let Some(asker) = self.requesters.get_mut(place) else {
            unreachable!()
        };
        let event = asker.requester.on_packet(packet, out);
        self.taken = with_one(self.taken, is_answered(&event));
        push_event(
            number_of_place(place),
            event,
            asker.requester.last_data(),
            text,
        )
    }

    /// Queues application data for a requester at the responder. Does nothing if there is none with this number.
    pub(crate) fn reply(
        &mut self,
        q: u8,
        bytes: &[u8],
        text: &mut EventText,
    ) -> Result<(), OutOfMemory>
        ensures { (w : World) → AreEnds self.old w → OnOk result
            (IsDone w (replied w bytes.now (requester_of q w)) text.old text.new self.new) }
    {
        let Some(place) = usize::from(q).checked_sub(1) else {
            return Ok(());
        };
        let Some(asker) = self.requesters.get(place) else {
            return Ok(());
        };
        let answer = self.responder.queue(asker.eid, bytes);
        push_reply(&answer, text)
    }

    /// Advances the responder's clock.
    pub(crate) fn tick(&mut self, seconds: u32)
        ensures { (w : World) → AreEnds self.old w
            → AreEnds self.new (record w { responder = ticks w.responder seconds }) }
    {
        self.responder.tick(seconds);
    }
}
