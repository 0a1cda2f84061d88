ghost use Rattle.std.specs.Prelude.{◌≡◌};
ghost use Rattle.secured_record.specs.Format.{key_of};

use aes_gcm::GcmKey;
use key_schedule::DirectionKey;

// The cipher of the records of a direction.
pub fn cipher_of(direction: &DirectionKey) -> GcmKey
    ensures { result ≡ key_of direction.now }
{
    GcmKey::new(direction.key())
}
