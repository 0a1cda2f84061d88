ghost use Rattle.std.specs.Prelude.{◌≡◌, ℕ, List, None};
ghost use Rattle.c_ends.specs.Holding.{HoldsResponder};
ghost use Rattle.c_ends.specs.Peeking.{IsPeeked};
ghost use Rattle.c_ends.specs.declared.codes.TheConstants.{CLOSED};
ghost use Rattle.responder.specs.Standing.{StandsFor};
ghost use Rattle.responder_machine.specs.EndLaws.{source_of};
ghost use Rattle.responder_machine.specs.NewData.{brings};
ghost use Rattle.responder_machine.specs.Responding.{Responding, responder_hears};

use crate::codes;
use crate::message::{Message, put_message};
use crate::open_responder::OpenResponder;
use crate::responder_handle::ResponderHandle;
use responder::PeekRoom;
use std::alloc::Global;

impl ResponderHandle {
    /// Tells the application message that `on_packet` would take from this packet as a new one, if it were given it now.
    /// Nothing of the responder changes.
    pub fn peek(
        &mut self,
        alloc: Global,
        packet: &[u8],
        message: &mut Message,
        room: &mut [u8],
        len: &mut usize,
    ) -> u32
        ensures brings { (r : Responding) (sends : List (List ℕ))
            → HoldsResponder self.old.kept.held r sends
            → IsPeeked (source_of packet.now) (brings r packet.now) result room.old room.new len.old
            len.new message.old message.new }
        ensures taken { (r : Responding) (sends : List (List ℕ))
            → HoldsResponder self.old.kept.held r sends
            → IsPeeked (source_of packet.now) (responder_hears r packet.now).taken result room.old
            room.new len.old len.new message.old message.new }
        ensures kept { self.new.kept.held ≡ self.old.kept.held }
        ensures closed { self.old.kept.held ≡ None → (result ≡ CLOSED) × (room.new ≡ room.old)
            × (len.new ≡ len.old) × (message.new ≡ message.old) }
    {
        let Some(end) = self.take_out(alloc) else {
            return codes::CLOSED;
        };
        let code = write_peeked(&end, packet, message, room, len);
        self.put_in(end);
        code
    }
}

fn write_peeked(
    end: &OpenResponder,
    packet: &[u8],
    message: &mut Message,
    room: &mut [u8],
    len: &mut usize,
) -> u32
    ensures brings { (r : Responding) → StandsFor end.now.responder r
        → IsPeeked (source_of packet.now) (brings r packet.now) result room.old room.new len.old
        len.new message.old message.new }
    ensures taken { (r : Responding) → StandsFor end.now.responder r
        → IsPeeked (source_of packet.now) (responder_hears r packet.now).taken result room.old room.new
        len.old len.new message.old message.new }
{
    let mut work = PeekRoom::new();
    match end.responder.peek(packet, &mut work) {
        Some(peeked) => put_message(&peeked, message, room, len),
        None => codes::NONE,
    }
}
