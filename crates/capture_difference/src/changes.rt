ghost use Rattle.std.specs.Prelude.{◌≡◌, ◌<◌, length, IfOk};
ghost use Rattle.capture_difference.specs.Changes.{change_of, changed, changes_of, is_end, keeps_end, mask_of, share_of};

use spdm_basis::OutOfMemory;
use std::alloc::Global;

// How many masks there are: each bit, and then each byte but 0.
const MASKS: usize = 8 + 255;

// How many bits a byte has.
const BITS: usize = 8;

// How many bytes the header of a packet has: the first one is its version, and the last one has its flags.
const HEADER_LEN: usize = 4;

const VERSION: u8 = 1;

const FLAGS: usize = 3;

// The longest packet of a capture.
const MOST_LEN: usize = 8000;

// How many packets of one byte may be judged for each mask, where all are tried, and where only bits are.
const FEW: usize = 4000;

const MANY: usize = 128_000;

/// Another byte at a place of a packet.
#[derive(Clone, Copy, Debug, PartialEq, Eq)]
pub struct Change {
    pub place: usize,
    pub byte: u8,
}

// What a byte is XORed with.
#[tactic(auto, using(std::proofs::lemmas::Nat::one_shl))]
fn mask_of(number: usize) -> u8
    ensures { result ≡ mask_of number }
{
    if number < BITS {
        1 << number
    } else {
        (number - 7).min(255) as u8
    }
}

/// The change of a packet with this number, counted from 0.
pub(crate) fn change_of(packet: &[u8], number: usize) -> Change
    requires { 0 < length packet.now }
    ensures change { result ≡ change_of packet.now number }
    ensures inside { result.place < length packet.now }
{
    let place = (number % packet.len() + HEADER_LEN) % packet.len();
    let byte = if place == 0 {
        VERSION
    } else {
        packet[place] ^ mask_of(number / packet.len())
    };
    Change { place, byte }
}

// Whether a byte of flags says that its packet ends a body.
fn is_end(flags: u8) -> bool
    ensures { result ≡ is_end flags }
{
    flags / 64 % 2 == 1
}

/// Whether a packet with a change ends a body, or begins and ends one as it did.
pub(crate) fn keeps_end(packet: &[u8], change: Change) -> bool
    requires { change.place < length packet.now }
    ensures { result ≡ keeps_end packet.now change }
{
    change.place != FLAGS || is_end(change.byte) || change.byte / 64 == packet[change.place] / 64
}

/// The packet with a change.
pub(crate) fn changed(alloc: Global, packet: &[u8], change: Change) -> Result<Vec<u8>, OutOfMemory>
    requires { change.place < length packet.now }
    ensures { IfOk result (λ bytes. bytes.items ≡ changed packet.now change) }
{
    let Ok(mut bytes) = Vec::from_slice(alloc, packet) else {
        return Err(OutOfMemory);
    };
    bytes[change.place] = change.byte;
    Ok(bytes)
}

/// By how much the work is divided for the packet at a place of so many.
pub(crate) fn share_of(place: usize, count: usize) -> usize
    requires { place < count }
    ensures value { result ≡ share_of place count }
    ensures some { 0 < result }
{
    if place + 1 == count { 1 } else { count }
}

/// How many changes are tried of a packet of this length, where so many packets are judged for each.
pub(crate) fn changes_of(judged: usize, share: usize, len: usize) -> usize
    requires { 0 < share }
    ensures { result ≡ changes_of judged share len }
{
    if len > MOST_LEN {
        0
    } else if judged < FEW / (len + 1) / share {
        len * MASKS
    } else if judged < MANY / (len + 1) / share {
        len * BITS
    } else {
        0
    }
}
