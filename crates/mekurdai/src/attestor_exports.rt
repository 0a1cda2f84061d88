ghost use Rattle.std.specs.Prelude.{List, None, [], slice_get, true, ℕ, ◌≡◌, ◌≢◌};
ghost use Rattle.attestor.specs.Attesting.{Attesting, attesting_given, attesting_started, attesting_timed, has_failed};
ghost use Rattle.c_attestor.specs.Holding.{HoldsAttestor, HoldsOpened};
ghost use Rattle.c_attestor.specs.Opening.{RefusesAttestor, SetsUp};
ghost use Rattle.c_attestor.specs.Telling.{IsToldOf};
ghost use Rattle.c_ends.specs.Writing.{IsWritten};
ghost use Rattle.c_ends.specs.declared.codes.TheConstants.{CLOSED, OK};

use c_attestor::{AttestorHandle, Verdict};
use c_ends::RequesterConfig;
use std::alloc::Global;

/// Opens an attestor over a requester, with the text of a policy. Takes all the memory that it will ever have. After any
/// answer but `OK` the handle holds what it held.
#[unsafe(no_mangle)]
pub extern "C" fn spdm_attestor_open(
    attestor: &mut AttestorHandle,
    alloc: Global,
    config: &RequesterConfig<'_>,
    policy: &[u8],
) -> u32
    ensures opened { result ≡ OK → HoldsOpened attestor.new.kept.held config.now policy.now }
    ensures was_closed { result ≡ OK → attestor.old.kept.held ≡ None }
    ensures words { result ≡ OK → SetsUp config.now }
    ensures refused { result ≢ OK
        → RefusesAttestor attestor.old.kept.held config.now policy.now result }
    ensures unchanged { result ≢ OK → attestor.new.kept.held ≡ attestor.old.kept.held }
{
    attestor.open(alloc, config, policy)
}

/// Has an attestor send its first request.
#[unsafe(no_mangle)]
pub extern "C" fn spdm_attestor_start(attestor: &mut AttestorHandle, alloc: Global) -> u32
    ensures started { (a : Attesting) (sends : List (List ℕ))
        → HoldsAttestor attestor.old.kept.held a sends
        → (result ≡ OK) × HoldsAttestor attestor.new.kept.held (attesting_started a).after
        (attesting_started a).sent }
    ensures closed { attestor.old.kept.held ≡ None
        → (result ≡ CLOSED) × (attestor.new.kept.held ≡ None) }
{
    attestor.start(alloc)
}

/// Gives a packet to an attestor. What it decided is written to `verdict`, and the packets that it sends next replace
/// those before. After the failure none are sent.
#[unsafe(no_mangle)]
pub extern "C" fn spdm_attestor_on_packet(
    attestor: &mut AttestorHandle,
    alloc: Global,
    packet: &[u8],
    verdict: &mut Verdict,
) -> u32
    ensures step { (a : Attesting) (sends : List (List ℕ))
        → HoldsAttestor attestor.old.kept.held a sends
        → (result ≡ OK) × IsToldOf (attesting_given a packet.now) verdict.new
        × HoldsAttestor attestor.new.kept.held (attesting_given a packet.now).after
        (attesting_given a packet.now).sent }
    ensures silent { (a : Attesting) (sends : List (List ℕ))
        → HoldsAttestor attestor.old.kept.held a sends → has_failed a.decision ≡ true
        → HoldsAttestor attestor.new.kept.held (attesting_given a packet.now).after [] }
    ensures closed { attestor.old.kept.held ≡ None
        → (result ≡ CLOSED) × (verdict.new ≡ verdict.old) × (attestor.new.kept.held ≡ None) }
{
    attestor.on_packet(alloc, packet, verdict)
}

/// Tells an attestor that no answer came in time.
#[unsafe(no_mangle)]
pub extern "C" fn spdm_attestor_on_time(attestor: &mut AttestorHandle, alloc: Global) -> u32
    ensures timed { (a : Attesting) (sends : List (List ℕ))
        → HoldsAttestor attestor.old.kept.held a sends
        → (result ≡ OK) × HoldsAttestor attestor.new.kept.held (attesting_timed a).after
        (attesting_timed a).sent }
    ensures silent { (a : Attesting) (sends : List (List ℕ))
        → HoldsAttestor attestor.old.kept.held a sends → has_failed a.decision ≡ true
        → HoldsAttestor attestor.new.kept.held (attesting_timed a).after [] }
    ensures closed { attestor.old.kept.held ≡ None
        → (result ≡ CLOSED) × (attestor.new.kept.held ≡ None) }
{
    attestor.on_time(alloc)
}

/// Writes packet `index`, from 0, of those that an attestor sends next.
#[unsafe(no_mangle)]
pub extern "C" fn spdm_attestor_packet(
    attestor: &mut AttestorHandle,
    alloc: Global,
    index: usize,
    room: &mut [u8],
    len: &mut usize,
) -> u32
    ensures written { (a : Attesting) (sends : List (List ℕ))
        → HoldsAttestor attestor.old.kept.held a sends
        → IsWritten (slice_get sends index) result room.old room.new len.old len.new }
    ensures kept { attestor.new.kept.held ≡ attestor.old.kept.held }
    ensures closed { attestor.old.kept.held ≡ None
        → (result ≡ CLOSED) × (room.new ≡ room.old) × (len.new ≡ len.old) }
{
    attestor.packet(alloc, index, room, len)
}

/// Closes an attestor, overwrites what is secret in it, and frees its memory. A closed one stays closed.
#[unsafe(no_mangle)]
pub extern "C" fn spdm_attestor_close(attestor: &mut AttestorHandle, alloc: Global)
    ensures { attestor.new.kept.held ≡ None }
{
    attestor.close(alloc);
}
