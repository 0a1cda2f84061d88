ghost use Rattle.std.specs.Prelude.{◌≡◌, ◌≢◌, ◌≤◌, ◌<◌, ℕ, List, [], None, Some, false, true, slice_get};
ghost use Rattle.c_ends.specs.Codes.{told_of_reply};
ghost use Rattle.c_ends.specs.Holding.{HoldsOthers, HoldsResponder};
ghost use Rattle.c_ends.specs.Opening.{HasResponderFault, RefusesResponder, code_of_responder};
ghost use Rattle.c_ends.specs.Setting.{is_eid, responder_argument, responder_in};
ghost use Rattle.c_ends.specs.Telling.{heard_told};
ghost use Rattle.c_ends.specs.Writing.{IsWritten};
ghost use Rattle.c_ends.specs.declared.codes.TheConstants.{BAD_EID, CLOSED, OK};
ghost use Rattle.responder.specs.Standing.{StandsFor};
ghost use Rattle.responder.specs.Unharmed.{IsHarmless};
ghost use Rattle.responder_machine.specs.Independence.{after_reply};
ghost use Rattle.responder_machine.specs.Responding.{Responding, connection_of, new_responding, reply_fault_of, responder_hears, ticks};

use crate::giving_back::end_responder;
use crate::open_responder::OpenResponder;
use crate::packet_outcome::{PacketOutcome, heard_told};
use crate::responder_handle::ResponderHandle;
use crate::responder_set_up::{ResponderFault, open_responder};
use crate::writing::write_packet;
use crate::{Block, KnownRequester, ResponderConfig, codes};
use spdm_basis::Eid;
use std::alloc::Global;

fn code_of(fault: ResponderFault) -> u32
    ensures { result ≡ code_of_responder fault }
{
    match fault {
        ResponderFault::Argument(fault) => codes::of_argument(fault),
        ResponderFault::Config(fault) => codes::of_responder(fault),
    }
}

impl ResponderHandle {
    /// Opens a responder. Takes all the memory that it will ever have. After any answer but `OK` the handle holds what
    /// it held.
    pub fn open(
        &mut self,
        alloc: Global,
        config: &ResponderConfig<'_>,
        known: &[KnownRequester<'_>],
        blocks: &[Block<'_>],
    ) -> u32
        ensures opened { result ≡ OK → HoldsResponder self.new.kept.held
            (new_responding (responder_in config.now known.now blocks.now)) [] }
        ensures was_closed { result ≡ OK → self.old.kept.held ≡ None }
        ensures words { result ≡ OK → responder_argument config.now known.now ≡ None }
        ensures config { result ≡ OK → HasResponderFault config.now known.now blocks.now None }
        ensures refused { result ≢ OK
            → RefusesResponder self.old.kept.held config.now known.now blocks.now result }
        ensures unchanged { result ≢ OK → self.new.kept.held ≡ self.old.kept.held }
    {
        if self.is_open() {
            return codes::OPEN;
        }
        match open_responder(alloc, config, known, blocks) {
            Ok(end) => {
                self.put_in(end);
                codes::OK
            }
            Err(fault) => code_of(fault),
        }
    }

    /// Gives a packet to a responder. What it led to is written to `told`, and the packets that it sends next replace
    /// those before. A refused request changes nothing in the sessions but the record numbers, the stored response and
    /// the clock of the session that its record names; the connections with other endpoints than the source of the packet
    /// stay as they were.
    pub fn on_packet(&mut self, alloc: Global, packet: &[u8], told: &mut PacketOutcome) -> u32
        ensures step { (r : Responding) (sends : List (List ℕ))
            → HoldsResponder self.old.kept.held r sends
            → (result ≡ OK) × (told.new ≡ heard_told (responder_hears r packet.now).heard)
            × HoldsResponder self.new.kept.held (responder_hears r packet.now).after
            (responder_hears r packet.now).sent }
        ensures harmless { (r : Responding) (sends : List (List ℕ))
            → HoldsResponder self.old.kept.held r sends
            → IsHarmless r packet.now (responder_hears r packet.now).heard }
        ensures others { (r : Responding) (sends : List (List ℕ))
            → HoldsResponder self.old.kept.held r sends
            → HoldsOthers self.new.kept.held r packet.now }
        ensures closed { self.old.kept.held ≡ None
            → (result ≡ CLOSED) × (told.new ≡ told.old) × (self.new.kept.held ≡ None) }
    {
        let Some(mut end) = self.take_out(alloc) else {
            return codes::CLOSED;
        };
        *told = heard_told(end.on_packet(packet));
        self.put_in(end);
        codes::OK
    }

    /// Writes packet `index`, from 0, of those that a responder sends next.
    pub fn packet(&mut self, alloc: Global, index: usize, room: &mut [u8], len: &mut usize) -> u32
        ensures written { (r : Responding) (sends : List (List ℕ))
            → HoldsResponder self.old.kept.held r sends
            → IsWritten (slice_get sends index) result room.old room.new len.old len.new }
        ensures kept { self.new.kept.held ≡ self.old.kept.held }
        ensures closed { self.old.kept.held ≡ None
            → (result ≡ CLOSED) × (room.new ≡ room.old) × (len.new ≡ len.old) }
    {
        let Some(end) = self.take_out(alloc) else {
            return codes::CLOSED;
        };
        let code = write_packet(&end.out, index, room, len);
        self.put_in(end);
        code
    }

    /// Queues application data for the requester with this endpoint ID.
    pub fn queue(&mut self, alloc: Global, eid: u8, bytes: &[u8]) -> u32
        ensures queued { (r : Responding) (sends : List (List ℕ))
            → HoldsResponder self.old.kept.held r sends → is_eid eid ≡ true
            → (result ≡ told_of_reply (reply_fault_of (connection_of eid r.connections) bytes.now))
            × HoldsResponder self.new.kept.held (after_reply eid bytes.now r) sends }
        ensures bad_eid { self.old.kept.held ≢ None → is_eid eid ≡ false
            → (result ≡ BAD_EID) × (self.new.kept.held ≡ self.old.kept.held) }
        ensures closed { self.old.kept.held ≡ None
            → (result ≡ CLOSED) × (self.new.kept.held ≡ None) }
    {
        let Some(mut end) = self.take_out(alloc) else {
            return codes::CLOSED;
        };
        let code = queued(&mut end, eid, bytes);
        self.put_in(end);
        code
    }

    /// Advances the clock of a responder.
    pub fn tick(&mut self, alloc: Global, seconds: u32) -> u32
        ensures ticked { (r : Responding) (sends : List (List ℕ))
            → HoldsResponder self.old.kept.held r sends
            → (result ≡ OK) × HoldsResponder self.new.kept.held (ticks r seconds) sends }
        ensures closed { self.old.kept.held ≡ None
            → (result ≡ CLOSED) × (self.new.kept.held ≡ None) }
    {
        let Some(mut end) = self.take_out(alloc) else {
            return codes::CLOSED;
        };
        end.tick(seconds);
        self.put_in(end);
        codes::OK
    }

    /// Closes a responder, overwrites what is secret in it, and frees its memory. A closed one stays closed.
    pub fn close(&mut self, alloc: Global)
        ensures { self.new.kept.held ≡ None }
    {
        if let Some(end) = self.take_out(alloc) {
            end_responder(end);
        }
    }
}

// Queues application data where the endpoint ID is one.
fn queued(end: &mut OpenResponder, eid: u8, bytes: &[u8]) -> u32
    ensures queued { (r : Responding) → StandsFor end.old.responder r → is_eid eid ≡ true
        → (result ≡ told_of_reply (reply_fault_of (connection_of eid r.connections) bytes.now))
        × StandsFor end.new.responder (after_reply eid bytes.now r) × (end.new.out ≡ end.old.out) }
    ensures bad_eid { is_eid eid ≡ false → (result ≡ BAD_EID) × (end.new ≡ end.old) }
{
    let Some(eid) = Eid::new(eid) else {
        return codes::BAD_EID;
    };
    match end.queue(eid, bytes) {
        Ok(()) => codes::OK,
        Err(fault) => codes::of_reply(fault),
    }
}
