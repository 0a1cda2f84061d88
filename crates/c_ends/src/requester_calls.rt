ghost use Rattle.std.specs.Prelude.{◌≡◌, ◌≢◌, ℕ, List, [], None, Some, slice_get};
ghost use Rattle.c_ends.specs.Codes.{told_of_command};
ghost use Rattle.c_ends.specs.Holding.{HoldsRequester};
ghost use Rattle.c_ends.specs.Opening.{HasRequesterFault, RefusesRequester};
ghost use Rattle.c_ends.specs.Setting.{as_told, command_in, requester_argument, requester_in};
ghost use Rattle.c_ends.specs.Telling.{event_told};
ghost use Rattle.c_ends.specs.Writing.{IsWritten};
ghost use Rattle.c_ends.specs.declared.codes.TheConstants.{BAD_COMMAND, CLOSED, OK};
ghost use Rattle.requester.specs.Standing.{StandsFor};
ghost use Rattle.requester_machine.specs.Message.{Command as Commanded};
ghost use Rattle.requester_machine.specs.Requesting.{Requesting, new_requesting, requester_given, requester_told};

use crate::command::command_of;
use crate::giving_back::end_requester;
use crate::open_requester::OpenRequester;
use crate::packet_outcome::{PacketOutcome, event_told};
use crate::requester_handle::RequesterHandle;
use crate::requester_set_up::{fault_code, open_requester};
use crate::writing::write_packet;
use crate::{RequesterConfig, codes};
use std::alloc::Global;

impl RequesterHandle {
    /// Opens a requester. Takes all the memory that it will ever have. After any answer but `OK` the handle holds what
    /// it held.
    pub fn open(&mut self, alloc: Global, config: &RequesterConfig<'_>) -> u32
        ensures opened { result ≡ OK → HoldsRequester self.new.kept.held
            (new_requesting (requester_in config.now)) [] }
        ensures was_closed { result ≡ OK → self.old.kept.held ≡ None }
        ensures words { result ≡ OK → requester_argument config.now ≡ None }
        ensures config { result ≡ OK → HasRequesterFault config.now None }
        ensures refused { result ≢ OK → RefusesRequester self.old.kept.held config.now result }
        ensures unchanged { result ≢ OK → self.new.kept.held ≡ self.old.kept.held }
    {
        if self.is_open() {
            return codes::OPEN;
        }
        match open_requester(alloc, config) {
            Ok(end) => {
                self.put_in(end);
                codes::OK
            }
            Err(fault) => fault_code(fault),
        }
    }

    /// Runs the command of a number. The packets that a requester sends next replace those before; after a fault of the
    /// command there are none.
    pub fn command(
        &mut self,
        alloc: Global,
        command: u32,
        session: u8,
        number: u8,
        bytes: &[u8],
    ) -> u32
        ensures step { (a : Requesting) (sends : List (List ℕ)) (c : Commanded)
            → HoldsRequester self.old.kept.held a sends
            → command_in command session number bytes.now ≡ Some c
            → (result ≡ told_of_command (requester_told a c).fault)
            × HoldsRequester self.new.kept.held (requester_told a c).after
            (requester_told a c).sent }
        ensures unknown { self.old.kept.held ≢ None
            → command_in command session number bytes.now ≡ None
            → (result ≡ BAD_COMMAND) × (self.new.kept.held ≡ self.old.kept.held) }
        ensures closed { self.old.kept.held ≡ None
            → (result ≡ CLOSED) × (self.new.kept.held ≡ None) }
    {
        let Some(mut end) = self.take_out(alloc) else {
            return codes::CLOSED;
        };
        let code = commanded(&mut end, command, session, number, bytes);
        self.put_in(end);
        code
    }

    /// Gives a packet to a requester. What it led to is written to `told`, and the packets that it sends next replace
    /// those before.
    pub fn on_packet(&mut self, alloc: Global, packet: &[u8], told: &mut PacketOutcome) -> u32
        ensures step { (a : Requesting) (sends : List (List ℕ))
            → HoldsRequester self.old.kept.held a sends
            → (result ≡ OK) × (told.new ≡ event_told (requester_given a packet.now).event)
            × HoldsRequester self.new.kept.held (requester_given a packet.now).after
            (requester_given a packet.now).sent }
        ensures closed { self.old.kept.held ≡ None
            → (result ≡ CLOSED) × (told.new ≡ told.old) × (self.new.kept.held ≡ None) }
    {
        let Some(mut end) = self.take_out(alloc) else {
            return codes::CLOSED;
        };
        *told = event_told(end.on_packet(packet));
        self.put_in(end);
        codes::OK
    }

    /// Writes packet `index`, from 0, of those that a requester sends next.
    pub fn packet(&mut self, alloc: Global, index: usize, room: &mut [u8], len: &mut usize) -> u32
        ensures written { (a : Requesting) (sends : List (List ℕ))
            → HoldsRequester self.old.kept.held a sends
            → IsWritten (slice_get sends index) result room.old room.new len.old len.new }
        ensures kept { self.new.kept.held ≡ self.old.kept.held }
        ensures closed { self.old.kept.held ≡ None
            → (result ≡ CLOSED) × (room.new ≡ room.old) × (len.new ≡ len.old) }
    {
        let Some(end) = self.take_out(alloc) else {
            return codes::CLOSED;
        };
        let code = write_packet(&end.out, index, room, len);
        self.put_in(end);
        code
    }

    /// Closes a requester, overwrites what is secret in it, and frees its memory. A closed one stays closed.
    pub fn close(&mut self, alloc: Global)
        ensures { self.new.kept.held ≡ None }
    {
        if let Some(end) = self.take_out(alloc) {
            end_requester(end);
        }
    }
}

// Runs the command of a number, if there is one.
fn commanded(end: &mut OpenRequester, command: u32, session: u8, number: u8, bytes: &[u8]) -> u32
    ensures step { (a : Requesting) (c : Commanded) → StandsFor end.old.requester a
        → command_in command session number bytes.now ≡ Some c
        → (result ≡ told_of_command (requester_told a c).fault)
        × StandsFor end.new.requester (requester_told a c).after
        × (end.new.out ≡ (requester_told a c).sent) }
    ensures unknown { command_in command session number bytes.now ≡ None
        → (result ≡ BAD_COMMAND) × (end.new ≡ end.old) }
{
    let Some(command) = command_of(command, session, number, bytes) else {
        return codes::BAD_COMMAND;
    };
    match end.command(command) {
        Ok(()) => codes::OK,
        Err(fault) => codes::of_command(fault),
    }
}
