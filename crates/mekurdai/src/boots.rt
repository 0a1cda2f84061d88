ghost use Rattle.c_boots.specs.Booting.{IsNextBoot};

use c_boots::next_boot_in;

/// Writes the next boot number of a device of 18 bytes, and leaves the bytes with that number in them.
#[unsafe(no_mangle)]
pub extern "C" fn spdm_next_boot(device: &mut [u8; 18], boot: &mut u32) -> u32
    ensures { IsNextBoot device.old result device.new boot.old boot.new }
{
    next_boot_in(device, boot)
}
