ghost use Rattle.std.specs.Prelude.{◌≡◌, ◌≤◌, ◌<◌, ◌+◌, ◌-◌, ◌*◌, ℕ, List, ◌++◌, [], ◌∷◌, length, take, drop};
ghost use Rattle.spdm_basis.specs.Sizes.{hash_size};
ghost use Rattle.spdm_basis.specs.declared.values.hash_alg.HashAlg.TheVariants.{Sha256};
ghost use Rattle.running_hash.specs.Hash.{hash_of};
ghost use Rattle.hmac_hkdf.specs.Hmac.{hmac};
ghost use Rattle.hmac_hkdf.specs.Hkdf.{extract, expand, block_of, blocks_of};

use crate::mac::{RunningMac, hmac, hmac_by};
use arrayvec::ArrayVec;
use spdm_basis::{HashAlg, HashBytes};

/// The pseudorandom key of a salt and of input keying material (RFC 5869, section 2.2).
pub fn extract_by(hash: HashAlg, salt: &[u8], input: &[u8]) -> HashBytes
    ensures value { result ≡ extract (hash_of hash) salt.now input.now }
    ensures size { length result ≡ hash_size hash }
{
    hmac_by(hash, salt, input)
}

/// The pseudorandom key over SHA-256 of a salt and of input keying material (RFC 5869, section 2.2).
pub fn extract(salt: &[u8], input: &[u8]) -> [u8; 32]
    ensures { result ≡ extract (hash_of Sha256) salt.now input.now }
{
    hmac(salt, input)
}

// The next block, T(count) of the one before it.
fn next_block(hash: HashAlg, prk: &[u8], last: &[u8], info: &[u8], count: u8) -> HashBytes
    ensures value { result ≡ hmac (hash_of hash) prk.now (last.now ++ info.now ++ count ∷ []) }
    ensures size { length result ≡ hash_size hash }
{
    let mut mac = RunningMac::new(hash, prk);
    mac.push(last);
    mac.push(info);
    mac.push(&[count]);
    mac.finish()
}

// Writes `block` into `out` from `at` on, as much of it as there is room for.
fn write_block(out: &mut [u8], at: usize, block: &[u8])
    requires { at ≤ length out.old }
    ensures { out.new ≡ take at out.old ++ take (length out.old - at) block.now ++ drop (at
        + length block.now) out.old }
{
    let count = block.len().min(out.len() - at);
    out[at..at + count].copy_from_slice(&block[..count]);
}

/// Fills `out` with bytes derived from a pseudorandom key and `info` (RFC 5869, section 2.3). The key has the length of
/// the hash, and `out` is at most 255 hashes long.
#[tactic(auto, unfolding(crate::specs::Hkdf::block_of, crate::specs::Hkdf::blocks_of, crate::specs::Hkdf::expand))]
pub fn expand_by(hash: HashAlg, prk: &HashBytes, info: &[u8], out: &mut [u8])
    requires prk { length prk.now ≡ hash_size hash }
    requires out { length out.old ≤ 255 * hash_size hash }
    ensures { out.new ≡ expand (hash_of hash) prk.now info.now (length out.old) }
{
    let size = hash.size();
    let count = out.len().div_ceil(size);
    let mut last = ArrayVec::<u8, 48>::new();
    for i in 0..count {
        let block = next_block(hash, prk.as_slice(), last.as_slice(), info, (i + 1) as u8);
        write_block(out, i * size, block.as_slice());
        last.clear();
        let _ = last.try_extend_from_slice(block.as_slice());
    }
}

/// Fills `out` with bytes derived over SHA-256 from a pseudorandom key and `info` (RFC 5869, section 2.3). `out` is at
/// most 8,160 bytes long.
pub fn expand(prk: &[u8; 32], info: &[u8], out: &mut [u8])
    requires { length out.old ≤ 8160 }
    ensures { out.new ≡ expand (hash_of Sha256) prk.now info.now (length out.old) }
{
    expand_by(HashAlg::Sha256, &HashBytes::from(*prk), info, out);
}
