ghost use Rattle.std.specs.Prelude.{◌≡◌, length, replicate};
ghost use Rattle.spdm_basis.specs.Sizes.{hash_size};
ghost use Rattle.session_keys.specs.Wiped.{IsWipedKey};

use secured_record::RecordKey;
use spdm_basis::{Buffer, HashAlg, HashBytes};

/// Overwrites each byte of a buffer by 0, to its whole capacity. The buffer then holds these zeros.
pub fn wipe_buffer<const N: usize>(buffer: &mut Buffer<N>)
    ensures { buffer.new ≡ replicate N 0 }
{
    let _ = buffer.replace(&[0u8; N]);
}

/// Overwrites a key, with all that is derived of its secret, by that of a secret of zeros.
pub fn wipe_key(key: &mut RecordKey)
    ensures { IsWipedKey key.new }
{
    key.wipe();
}

/// As many zeros as the hash is long, which stand where there is no hash.
pub fn zero_hash(hash: HashAlg) -> HashBytes
    ensures value { result ≡ replicate (hash_size hash) 0 }
    ensures size { length result ≡ hash_size hash }
{
    match hash {
        HashAlg::Sha256 => HashBytes::from([0u8; 32]),
        HashAlg::Sha384 => HashBytes::from([0u8; 48]),
    }
}
