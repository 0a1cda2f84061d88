ghost use Rattle.std.specs.Prelude.{◌≡◌, ◌<◌, ◌≤◌, true, is_ok, IfOk, OnOk, OnErr, IsErrOf};
ghost use Rattle.spdm_basis.specs.Stream.{HasFault};
ghost use Rattle.boot_keeper.specs.Boots.{BootsNext};
ghost use Rattle.boot_keeper.specs.Device.{TakesAll, TakesSome};
ghost use Rattle.boot_keeper.specs.Slots.{last_boot, three_writes};

use crate::keeper::SIZE;
use crate::slot::{CLOSED, OPEN, Slot, free, greatest};
use crate::{BootFault, Keeper};
use byteorder::{ByteOrder, LittleEndian};
use spdm_basis::Failed;

// The last boot number that there is: 2^24 - 2.
const LAST_BOOT: u32 = 16_777_214;

// Closes the gate of a slot, writes a number into it, and opens the gate. A crash at any moment leaves
// the other slot alone.
fn renew<P: Keeper>(keeper: &mut P, slot: Slot, number: u64) -> Result<(), Failed>
    ensures takes { OnOk result (TakesAll (P.contents keeper.old) (three_writes slot number)
        (P.contents keeper.new)) }
    ensures tears { OnErr result (TakesSome (P.contents keeper.old) (three_writes slot number)
        (P.contents keeper.new)) }
    ensures later { P.faults keeper.old ≤ P.faults keeper.new }
    ensures fault { OnErr result (HasFault (P.faults keeper.old) (P.faults keeper.new)) }
    ensures quiet { OnOk result (P.faults keeper.new ≡ P.faults keeper.old) }
    ensures succeeds { P.is_sound keeper.old → is_ok result ≡ true }
    ensures sound { P.is_sound keeper.old → P.is_sound keeper.new }
{
    let mut bytes = [0; 8];
    LittleEndian::write_u64(&mut bytes, number);
    keeper.write(slot.gate(), &[CLOSED])?;
    keeper.write(slot.place(), &bytes)?;
    keeper.write(slot.gate(), &[OPEN])?;
    Ok(())
}

/// The next boot number of a keeper: one more than the greatest valid number that it held. It writes
/// that into the other slot before it answers, so that no number comes twice, whatever fails and
/// whenever a crash comes. Never allocates (read, not proved).
///
/// `KeeperFault` comes only by the count of the keeper, and `Spent` exactly where the greatest valid
/// number is at least 2^24 - 2.
pub fn next_boot<P: Keeper>(keeper: &mut P) -> Result<u32, BootFault>
    // What is answered, and what is left of the device.
    ensures next { BootsNext (P.contents keeper.old) result (P.contents keeper.new) }
    ensures above { IfOk result (λ boot. 0 < boot) }
    ensures fits { IfOk result (λ boot. boot ≤ last_boot) }

    // `KeeperFault` comes where the count of the keeper shows a fault, and another answer where it stands.
    ensures fault { IsErrOf result BootFault.KeeperFault
        → HasFault (P.faults keeper.old) (P.faults keeper.new) }
    ensures quiet { OnOk result (P.faults keeper.new ≡ P.faults keeper.old) }
    ensures spent { IsErrOf result BootFault.Spent → P.faults keeper.new ≡ P.faults keeper.old }
    ensures later { P.faults keeper.old ≤ P.faults keeper.new }

    // And never from a keeper that does not fail.
    ensures succeeds { P.is_sound keeper.old → IsErrOf result BootFault.KeeperFault → ⊥ }
    ensures sound { P.is_sound keeper.old → P.is_sound keeper.new }
{
    let mut device = [0; SIZE];
    keeper
        .read(0, &mut device)
        .map_err(|_| BootFault::KeeperFault)?;
    let found = greatest(&device);
    if found >= u64::from(LAST_BOOT) {
        return Err(BootFault::Spent);
    }
    renew(keeper, free(&device), found + 1).map_err(|_| BootFault::KeeperFault)?;
    Ok(found as u32 + 1)
}
