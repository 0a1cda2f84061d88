ghost use Rattle.std.specs.Prelude.{◌≡◌, ◌≤◌, ◌<◌, ◌+◌, ◌-◌, ◌^◌, ◌++◌, ◌∷◌, ℕ, List, None, length, reverse, IfOk};
ghost use Rattle.capture_difference.specs.Changes.{changed};
ghost use Rattle.capture_difference.specs.Difference.{IsFollowed, IsFound, IsFoundAt, IsSought, IsTried, IsWhether, wrong_byte};
ghost use Rattle.measurements.specs.Faults.{inventory_fault};
ghost use Rattle.script_ends.specs.Configured.{configuration_in};
ghost use Rattle.trace_check.specs.Checker.{IsChecker};
ghost use Rattle.trace_check.specs.Limits.{AreSound};
ghost use Rattle.world_machine.specs.Setup.{Configuration};

use crate::WrongByte;
use crate::changes::{Change, change_of, changed, changes_of, keeps_end, share_of};
use crate::spots::spot_at;
use script_text::ScriptConfig;
use spdm_basis::{Bytes, OutOfMemory};
use std::alloc::Global;
use trace_check::Checker;

// Takes packets, as long as they conform.
fn follow(checker: &mut Checker, packets: &[Bytes]) -> Result<bool, OutOfMemory>
    ensures { (w : Configuration) (before : List (List ℕ)) → AreSound w
        → IsChecker checker.old w (reverse before)
        → length before + length packets.now < 2 ^ 64 - 2
        → IfOk result (λ goes. IsFollowed w (before ++ packets.now) goes checker.new) }
{
    for packet in packets {
        match checker.take(packet.as_slice())? {
            Ok(()) => {}
            Err(_) => return Ok(false),
        }
    }
    Ok(true)
}

// Whether packets conform.
fn conforms(
    alloc: Global,
    config: &ScriptConfig,
    before: &[Bytes],
    packet: &[u8],
    behind: &[Bytes],
) -> Result<bool, OutOfMemory>
    requires { inventory_fault config.now.blocks ≡ None }
    ensures { AreSound (configuration_in config.now)
        → length before.now + length behind.now < 2 ^ 32 - 1
        → IfOk result (IsWhether (configuration_in config.now)
        (before.now ++ packet.now ∷ behind.now)) }
{
    let mut checker = Checker::new(alloc, config)?;
    if !follow(&mut checker, before)? {
        return Ok(false);
    }
    match checker.take(packet)? {
        Ok(()) => {}
        Err(_) => return Ok(false),
    }
    follow(&mut checker, behind)
}

// What is told of a change of the packet with this number.
fn wrong_byte(number: usize, packet: &[u8], bytes: &[u8], change: Change) -> WrongByte
    requires { change.place < length packet.now }
    ensures { bytes.now ≡ changed packet.now change
        → result ≡ wrong_byte number packet.now change }
{
    WrongByte {
        packet: number,
        place: change.place,
        came: packet[change.place],
        conforms: change.byte,
        spot: spot_at(bytes, change.place),
    }
}

// The byte that the change of this number puts right, if the packets conform with it.
fn try_change(
    alloc: Global,
    config: &ScriptConfig,
    before: &[Bytes],
    packet: &[u8],
    behind: &[Bytes],
    number: usize,
) -> Result<Option<WrongByte>, OutOfMemory>
    requires measured { inventory_fault config.now.blocks ≡ None }
    requires some { 0 < length packet.now }
    ensures { AreSound (configuration_in config.now)
        → length before.now + length behind.now < 2 ^ 32 - 1
        → IfOk result (IsTried (configuration_in config.now) before.now packet.now behind.now number) }
{
    let change = change_of(packet, number);
    if !keeps_end(packet, change) {
        return Ok(None);
    }
    let bytes = changed(alloc, packet, change)?;
    if conforms(alloc, config, before, bytes.as_slice(), behind)? {
        let byte = wrong_byte(before.len() + 1, packet, bytes.as_slice(), change);
        Ok(Some(byte))
    } else {
        Ok(None)
    }
}

// The byte of a packet that the first of so many changes puts right with which the packets conform.
fn seek(
    alloc: Global,
    config: &ScriptConfig,
    before: &[Bytes],
    packet: &[u8],
    behind: &[Bytes],
    most: usize,
) -> Result<Option<WrongByte>, OutOfMemory>
    requires measured { inventory_fault config.now.blocks ≡ None }
    requires some { 0 < most → 0 < length packet.now }
    ensures { AreSound (configuration_in config.now)
        → length before.now + length behind.now < 2 ^ 32 - 1
        → IfOk result (IsFound (configuration_in config.now) before.now packet.now behind.now most) }
{
    for number in 0..most {
        match try_change(alloc, config, before, packet, behind, number)? {
            Some(byte) => return Ok(Some(byte)),
            None => {}
        }
    }
    Ok(None)
}

// The same of the packet at a place.
fn seek_at(
    alloc: Global,
    config: &ScriptConfig,
    packets: &[Bytes],
    place: usize,
) -> Result<Option<WrongByte>, OutOfMemory>
    requires measured { inventory_fault config.now.blocks ≡ None }
    requires inside { place < length packets.now }
    ensures { AreSound (configuration_in config.now) → length packets.now < 2 ^ 32 - 1
        → IfOk result (IsFoundAt (configuration_in config.now) packets.now place) }
{
    let (before, _) = packets.split_at(place);
    let (_, behind) = packets.split_at(place + 1);
    let packet = packets[place].as_slice();
    let share = share_of(place, packets.len());
    let most = changes_of(packets.len(), share, packet.len());
    seek(alloc, config, before, packet, behind, most)
}

/// The byte of which another value is enough, of packets of which the last does not conform: of the last one where such a byte is found
/// in it, and else of the one before it, and so on. An `Err` is allocation failure.
pub(crate) fn seek_back(
    alloc: Global,
    config: &ScriptConfig,
    packets: &[Bytes],
) -> Result<Option<WrongByte>, OutOfMemory>
    requires { inventory_fault config.now.blocks ≡ None }
    ensures { AreSound (configuration_in config.now) → length packets.now < 2 ^ 32 - 1
        → IfOk result (IsSought (configuration_in config.now) packets.now) }
{
    for passed in 0..packets.len() {
        match seek_at(alloc, config, packets, packets.len() - 1 - passed)? {
            Some(byte) => return Ok(Some(byte)),
            None => {}
        }
    }
    Ok(None)
}
