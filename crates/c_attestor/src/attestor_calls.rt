ghost use Rattle.std.specs.Prelude.{◌≡◌, ◌≢◌, ℕ, List, [], None, slice_get, true};
ghost use Rattle.attestor.specs.Attesting.{Attesting, attesting_given, attesting_started, attesting_timed, has_failed};
ghost use Rattle.c_attestor.specs.Holding.{HoldsAttestor, HoldsOpened};
ghost use Rattle.c_attestor.specs.Opening.{RefusesAttestor, SetsUp};
ghost use Rattle.c_attestor.specs.Telling.{IsToldOf};
ghost use Rattle.c_ends.specs.Writing.{IsWritten};
ghost use Rattle.c_ends.specs.declared.codes.TheConstants.{CLOSED, OK};

use crate::attestor_handle::AttestorHandle;
use crate::attestor_set_up::{attestor_code, open_attestor};
use crate::giving_back::end_attestor;
use crate::verdict::{Verdict, progress_told};
use c_ends::writing::write_packet;
use c_ends::{RequesterConfig, codes};
use std::alloc::Global;

impl AttestorHandle {
    /// Opens an attestor over a requester, with the text of a policy, the lines up to `go`. Takes all the memory that it
    /// will ever have, and for a moment that of a copy of the policy. After any answer but `OK` the handle holds what it
    /// held.
    pub fn open(&mut self, alloc: Global, config: &RequesterConfig<'_>, policy: &[u8]) -> u32
        ensures opened { result ≡ OK → HoldsOpened self.new.kept.held config.now policy.now }
        ensures was_closed { result ≡ OK → self.old.kept.held ≡ None }
        ensures words { result ≡ OK → SetsUp config.now }
        ensures refused { result ≢ OK
            → RefusesAttestor self.old.kept.held config.now policy.now result }
        ensures unchanged { result ≢ OK → self.new.kept.held ≡ self.old.kept.held }
    {
        if self.is_open() {
            return codes::OPEN;
        }
        match open_attestor(alloc, config, policy) {
            Ok(end) => {
                self.put_in(end);
                codes::OK
            }
            Err(fault) => attestor_code(fault),
        }
    }

    /// Has an attestor send its first request. Called once, before the other calls.
    pub fn start(&mut self, alloc: Global) -> u32
        ensures started { (a : Attesting) (sends : List (List ℕ))
            → HoldsAttestor self.old.kept.held a sends
            → (result ≡ OK) × HoldsAttestor self.new.kept.held (attesting_started a).after
            (attesting_started a).sent }
        ensures closed { self.old.kept.held ≡ None
            → (result ≡ CLOSED) × (self.new.kept.held ≡ None) }
    {
        let Some(mut end) = self.take_out(alloc) else {
            return codes::CLOSED;
        };
        end.start();
        self.put_in(end);
        codes::OK
    }

    /// Gives a packet to an attestor. What it decided is written to `verdict`, and the packets that it sends next replace
    /// those before. After the failure none are sent.
    pub fn on_packet(&mut self, alloc: Global, packet: &[u8], verdict: &mut Verdict) -> u32
        ensures step { (a : Attesting) (sends : List (List ℕ))
            → HoldsAttestor self.old.kept.held a sends
            → (result ≡ OK) × IsToldOf (attesting_given a packet.now) verdict.new
            × HoldsAttestor self.new.kept.held (attesting_given a packet.now).after
            (attesting_given a packet.now).sent }
        ensures silent { (a : Attesting) (sends : List (List ℕ))
            → HoldsAttestor self.old.kept.held a sends → has_failed a.decision ≡ true
            → HoldsAttestor self.new.kept.held (attesting_given a packet.now).after [] }
        ensures closed { self.old.kept.held ≡ None
            → (result ≡ CLOSED) × (verdict.new ≡ verdict.old) × (self.new.kept.held ≡ None) }
    {
        let Some(mut end) = self.take_out(alloc) else {
            return codes::CLOSED;
        };
        *verdict = progress_told(end.on_packet(packet));
        self.put_in(end);
        codes::OK
    }

    /// Tells an attestor that no answer came in time: it sends the outstanding request again, if there is one.
    pub fn on_time(&mut self, alloc: Global) -> u32
        ensures timed { (a : Attesting) (sends : List (List ℕ))
            → HoldsAttestor self.old.kept.held a sends
            → (result ≡ OK) × HoldsAttestor self.new.kept.held (attesting_timed a).after
            (attesting_timed a).sent }
        ensures silent { (a : Attesting) (sends : List (List ℕ))
            → HoldsAttestor self.old.kept.held a sends → has_failed a.decision ≡ true
            → HoldsAttestor self.new.kept.held (attesting_timed a).after [] }
        ensures closed { self.old.kept.held ≡ None
            → (result ≡ CLOSED) × (self.new.kept.held ≡ None) }
    {
        let Some(mut end) = self.take_out(alloc) else {
            return codes::CLOSED;
        };
        end.on_time();
        self.put_in(end);
        codes::OK
    }

    /// Writes packet `index`, from 0, of those that an attestor sends next.
    pub fn packet(&mut self, alloc: Global, index: usize, room: &mut [u8], len: &mut usize) -> u32
        ensures written { (a : Attesting) (sends : List (List ℕ))
            → HoldsAttestor self.old.kept.held a sends
            → IsWritten (slice_get sends index) result room.old room.new len.old len.new }
        ensures kept { self.new.kept.held ≡ self.old.kept.held }
        ensures closed { self.old.kept.held ≡ None
            → (result ≡ CLOSED) × (room.new ≡ room.old) × (len.new ≡ len.old) }
    {
        let Some(end) = self.take_out(alloc) else {
            return codes::CLOSED;
        };
        let code = write_packet(&end.out, index, room, len);
        self.put_in(end);
        code
    }

    /// Closes an attestor, overwrites what is secret in it, and frees its memory. A closed one stays closed.
    pub fn close(&mut self, alloc: Global)
        ensures { self.new.kept.held ≡ None }
    {
        if let Some(end) = self.take_out(alloc) {
            end_attestor(end);
        }
    }
}
