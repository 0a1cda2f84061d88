ghost use Rattle.std.specs.Prelude.{◌≡◌, ◌≤◌, [], length};
ghost use Rattle.spdm_basis.specs.Sizes.{hash_size, key_size};
ghost use Rattle.running_hash.specs.Hash.{hash_of};
ghost use Rattle.key_schedule.specs.Schedule.{bin_label, derived, zeros, record_key};

use crate::label::Label;
use arrayvec::ArrayVec;
use hmac_hkdf::expand_by;
use spdm_basis::{AeadAlg, HashAlg, HashBytes};

// The text before each label (DSP0274, "BinConcat").
const VERSION_TEXT: &[u8; 8] = b"spdm1.2 ";

// What HKDF-Expand is told besides the secret: the length that is asked for, the text of the version,
// the label and the context.
fn bin_label(len: u16, label: Label, context: &[u8]) -> ArrayVec<u8, 80>
    requires { length context.now ≤ 48 }
    ensures { result.items ≡ bin_label len label context.now }
{
    let mut info = ArrayVec::new();
    let _ = info.try_extend_from_slice(&len.to_le_bytes());
    let _ = info.try_extend_from_slice(VERSION_TEXT);
    let _ = info.try_extend_from_slice(label.text());
    let _ = info.try_extend_from_slice(context);
    info
}

// Fills `out` with bytes derived from a secret for a label and a context.
pub fn derive_into(hash: HashAlg, secret: &HashBytes, label: Label, context: &[u8], out: &mut [u8])
    requires secret { length secret.now ≡ hash_size hash }
    requires context { length context.now ≤ 48 }
    requires out { length out.old ≤ 48 }
    ensures { out.new ≡ derived (hash_of hash) secret.now (length out.old) label context.now }
{
    let info = bin_label(out.len() as u16, label, context);
    expand_by(hash, secret, info.as_slice(), out);
}

// A secret as long as the hash, derived from a secret for a label and a context.
pub fn derive_secret(hash: HashAlg, secret: &HashBytes, label: Label, context: &[u8]) -> HashBytes
    requires secret { length secret.now ≡ hash_size hash }
    requires context { length context.now ≤ 48 }
    ensures value { result ≡ derived (hash_of hash) secret.now (hash_size hash) label context.now }
    ensures size { length result ≡ hash_size hash }
{
    match hash {
        HashAlg::Sha256 => {
            let mut bytes = [0u8; 32];
            derive_into(hash, secret, label, context, &mut bytes);
            HashBytes::from(bytes)
        }
        HashAlg::Sha384 => {
            let mut bytes = [0u8; 48];
            derive_into(hash, secret, label, context, &mut bytes);
            HashBytes::from(bytes)
        }
    }
}

// The key of the records of a direction, derived from its secret.
pub fn derive_key(hash: HashAlg, aead: AeadAlg, secret: &HashBytes) -> ArrayVec<u8, 32>
    requires { length secret.now ≡ hash_size hash }
    ensures value { result.items ≡ record_key (hash_of hash) aead secret.now }
    ensures size { length result.items ≡ key_size aead }
{
    match aead {
        AeadAlg::Aes128Gcm => {
            let mut bytes = [0u8; 16];
            derive_into(hash, secret, Label::Key, &[], &mut bytes);
            let mut key = ArrayVec::new();
            let _ = key.try_extend_from_slice(&bytes);
            key
        }
        AeadAlg::Aes256Gcm => {
            let mut bytes = [0u8; 32];
            derive_into(hash, secret, Label::Key, &[], &mut bytes);
            ArrayVec::from_array_in((), bytes)
        }
    }
}

// As many zero bytes as the hash is long.
pub fn zero_bytes(hash: HashAlg) -> HashBytes
    ensures { result ≡ zeros (hash_of hash) }
{
    match hash {
        HashAlg::Sha256 => HashBytes::from([0u8; 32]),
        HashAlg::Sha384 => HashBytes::from([0u8; 48]),
    }
}
