ghost use Rattle.c_boots.specs.Booting.{IsNextBoot};

use crate::bytes_keeper::BytesKeeper;
use boot_keeper::{BootFault, next_boot};
use c_ends::codes;

/// Writes the next boot number of a device, and leaves the device with it. The number may be used once the device is
/// stored, its changed slot in the order of `three_writes`. Two slots of nine bytes, of which one is changed, hold a
/// number of eight bytes and a gate byte.
pub fn next_boot_in(device: &mut [u8; 18], boot: &mut u32) -> u32
    ensures { IsNextBoot device.old result device.new boot.old boot.new }
{
    let mut keeper = BytesKeeper::new(device);
    match next_boot(&mut keeper) {
        Ok(number) => {
            *device = keeper.bytes();
            *boot = number;
            codes::OK
        }
        Err(BootFault::Spent) => codes::BOOTS_SPENT,
        Err(BootFault::KeeperFault) => unreachable!(),
    }
}
