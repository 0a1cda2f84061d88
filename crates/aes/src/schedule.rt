ghost use Rattle.std.specs.Prelude.{◌≡◌, ◌⊎◌, ◌+◌, length};
ghost use Rattle.aes.specs.Cipher.{round_count};
ghost use Rattle.aes.specs.Schedule.{IsSchedule};

use crate::columns::Columns;
use crate::expansion::expand_key;
use arrayvec::ArrayVec;

/// The round keys of a key of 16 or 32 bytes (FIPS 197, section 5.2).
pub fn schedule(key: &[u8]) -> ArrayVec<Columns, 15>
    requires { (length key.now ≡ 16) ⊎ (length key.now ≡ 32) }
    ensures keys { IsSchedule result.items key.now }
    ensures count { length result.items ≡ round_count key.now + 1 }
{
    let bytes = expand_key(key);
    let bytes = bytes.as_slice();
    let mut keys = ArrayVec::new();
    for n in 0..key.len() / 4 + 7 {
        keys.push(Columns::of_bytes(&bytes[16 * n..16 * n + 16]));
    }
    keys
}
