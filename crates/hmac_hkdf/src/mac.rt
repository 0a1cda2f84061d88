ghost use Rattle.std.specs.Prelude.{◌≡◌, ◌≤◌, ◌+◌, ℕ, List, ◌++◌, [], length, replicate};
ghost use Rattle.spdm_basis.specs.Sizes.{hash_size};
ghost use Rattle.spdm_basis.specs.declared.values.hash_alg.HashAlg.TheVariants.{Sha256};
ghost use Rattle.running_hash.specs.Hash.{hash_of, block_size};
ghost use Rattle.hmac_hkdf.specs.Hmac.{hmac, short_key, padded_key, masked};

use arrayvec::ArrayVec;
use running_hash::{RunningHash, digest};
use spdm_basis::{HashAlg, HashBytes};

// The length of the blocks that a hash function takes its input in, in bytes.
fn block_len(hash: HashAlg) -> usize
    ensures { result ≡ block_size hash }
{
    match hash {
        HashAlg::Sha256 => 64,
        HashAlg::Sha384 => 128,
    }
}

// The key itself, or its hash where it is longer than a block.
fn shorten_key(hash: HashAlg, key: &[u8]) -> ArrayVec<u8, 128>
    ensures value { result.items ≡ short_key (hash_of hash) key.now }
    ensures fits { length result.items ≤ block_size hash }
{
    let mut short = ArrayVec::new();
    if key.len() <= block_len(hash) {
        let _ = short.try_extend_from_slice(key);
    } else {
        let _ = short.try_extend_from_slice(digest(hash, key).as_slice());
    }
    short
}

const ZEROS: [u8; 128] = [0; 128];

// So many zeros.
fn zeros(count: usize) -> &'static [u8]
    requires { count ≤ 128 }
    ensures { result.now ≡ replicate count 0 }
{
    &ZEROS[..count]
}

// Appends `count` zeros.
fn push_zeros(block: &mut ArrayVec<u8, 128>, count: usize)
    requires { length block.old.items + count ≤ 128 }
    ensures { block.new.items ≡ block.old.items ++ replicate count 0 }
{
    let _ = block.try_extend_from_slice(zeros(count));
}

// The key with zeros up to the length of a block; a key longer than a block is hashed first.
fn pad_key(hash: HashAlg, key: &[u8]) -> ArrayVec<u8, 128>
    ensures { result.items ≡ padded_key (hash_of hash) key.now }
{
    let mut block = shorten_key(hash, key);
    let missing = block_len(hash) - block.len();
    push_zeros(&mut block, missing);
    block
}

// XORs each byte with `pad`.
fn mask(bytes: &mut [u8], pad: u8)
    ensures { bytes.new ≡ masked pad bytes.old }
{
    for x in bytes.iter_mut() {
        *x ^= pad;
    }
}

// Masks a key with opad, 5c, that was masked with ipad, 36: 6a is both XORed.
fn mask_again(bytes: &mut [u8])
    ensures { (key : List ℕ) → bytes.old ≡ masked 0x36 key → bytes.new ≡ masked 0x5c key }
{
    mask(bytes, 0x6a);
}

// An HMAC whose text comes piece by piece.
#[derive(Drop)]
pub struct RunningMac {
    inner: RunningHash,
    outer: RunningHash,
}

impl RunningMac {
    ghost use Rattle.std.specs.Prelude.{◌≡◌, ◌++◌, [], ℕ, List, length};
    ghost use Rattle.spdm_basis.specs.Sizes.{hash_size};
    ghost use Rattle.spdm_basis.specs.declared.values.hash_alg.HashAlg.{HashAlg};
    ghost use Rattle.running_hash.specs.Hash.{hash_of};
    ghost use Rattle.hmac_hkdf.specs.Hmac.{hmac};
    ghost use Rattle.hmac_hkdf.specs.Keyed.{HoldsMac, Runs};

    // The HMAC of no text under `key`.
    pub fn new(hash: HashAlg, key: &[u8]) -> Self
        ensures runs { Runs result hash }
        ensures given { HoldsMac hash result key.now [] }
    {
        let mut block = pad_key(hash, key);
        mask(block.as_mut_slice(), 0x36);
        let mut inner = RunningHash::new(hash);
        inner.push(block.as_slice());
        mask_again(block.as_mut_slice());
        let mut outer = RunningHash::new(hash);
        outer.push(block.as_slice());
        RunningMac { inner, outer }
    }

    // Adds a piece to the text.
    pub fn push(&mut self, piece: &[u8])
        ensures runs { (hash : HashAlg) → Runs self.old hash → Runs self.new hash }
        ensures given { (hash : HashAlg) (key text : List ℕ) → HoldsMac hash self.old key text
            → HoldsMac hash self.new key (text ++ piece.now) }
    {
        self.inner.push(piece);
    }

    // The HMAC of the text.
    #[tactic(auto, unfolding(crate::specs::Hmac::hmac))]
    pub fn finish(mut self) -> HashBytes
        ensures value { (hash : HashAlg) (key text : List ℕ) → Runs self hash
            → HoldsMac hash self key text
            → result ≡ hmac (hash_of hash) key text }
        ensures size { (hash : HashAlg) → Runs self hash → length result ≡ hash_size hash }
    {
        let inner_hash = self.inner.finish();
        self.outer.push(inner_hash.as_slice());
        self.outer.finish()
    }
}

/// The HMAC of `text` under `key`, which may have any length (RFC 2104, section 2). It has as many bytes as the hash.
pub fn hmac_by(hash: HashAlg, key: &[u8], text: &[u8]) -> HashBytes
    ensures value { result ≡ hmac (hash_of hash) key.now text.now }
    ensures size { length result ≡ hash_size hash }
{
    let mut mac = RunningMac::new(hash, key);
    mac.push(text);
    mac.finish()
}

/// The HMAC over SHA-256 of `text` under `key` (RFC 2104, section 2).
pub fn hmac(key: &[u8], text: &[u8]) -> [u8; 32]
    ensures { result ≡ hmac (hash_of Sha256) key.now text.now }
{
    let mut code = [0u8; 32];
    code.copy_from_slice(hmac_by(HashAlg::Sha256, key, text).as_slice());
    code
}
