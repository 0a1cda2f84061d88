ghost use Rattle.std.specs.Prelude.{◌≡◌, ℕ, List, ◌≤◌, ◌+◌, ◌*◌, ◌++◌, ◌↔◌, ◌⊎◌, IsOk, IfOk, IfErr, OnOk, OnErr, length, take};
ghost use Rattle.aes.specs.Words.{block_bytes};
ghost use Rattle.aes_gcm.specs.Gcm.{stream_block, crypt, tag_of, lengths_block};
ghost use Rattle.aes_gcm.specs.Behind.{crypt_behind};

use crate::BadTag;
use crate::counter::{blocks_at, crypt_behind, crypt_in_place, stream_block};
use crate::primitives::{BlockCipher, BlockHash};
use arrayvec::ArrayVec;
use byte_compare::same_bytes;
use ghash::block_bytes;
use std::marker::Model;

// The lengths of the associated data and of the text in bits, in one block.
fn lengths_block(aad: &[u8], text: &[u8]) -> u128
    requires aad { length aad.now ≤ 65535 }
    requires text { length text.now ≤ 65535 }
    ensures { result ≡ lengths_block aad.now text.now }
{
    8 * aad.len() as u128 * (1 << 64) + 8 * text.len() as u128
}

// The first 48 bytes, or all where there are fewer.
fn first_bytes(text: &[u8]) -> ArrayVec<u8, 48>
    ensures { result.items ≡ take 48 text.now }
{
    let mut bytes = ArrayVec::<u8, 48>::new();
    let _ = bytes.try_extend_from_slice(text.split_at(48.min(text.len())).0);
    bytes
}

/// AES-128 or AES-256 in Galois/Counter Mode: a key of 16 or 32 bytes, with what is computed of it once.
/// Contracts see the key.
#[derive(Drop)]
pub struct GcmKey {
    aes: BlockCipher,
    hash: BlockHash,
}

impl Model for GcmKey {
    ghost use Rattle.std.specs.Prelude.{◌≡◌, ℕ, List};
    ghost use Rattle.aes_gcm.specs.Gcm.{hash_key};

    ghost Value = { List ℕ };

    ghost view = { λ k. k.aes };

    ghost invariant = { λ k. k.hash ≡ hash_key k.aes };
}

impl GcmKey {
    /// The cipher under a key of 16 or 32 bytes.
    pub fn new(key: &[u8]) -> GcmKey
        requires { (length key.now ≡ 16) ⊎ (length key.now ≡ 32) }
        ensures { result ≡ key.now }
    {
        let aes = BlockCipher::new(key);
        let hash = BlockHash::new(aes.encrypt_number(0));
        GcmKey { aes, hash }
    }

    /// The same key once more, with what is computed of it.
    pub fn copied(&self) -> GcmKey
        ensures { result ≡ self.now }
    {
        GcmKey {
            aes: self.aes.copied(),
            hash: self.hash.copied(),
        }
    }

    // The tag of associated data and an encrypted text, where `mask` is the block of the key stream with the
    // counter 1.
    fn tag(&self, mask: u128, aad: &[u8], text: &[u8]) -> [u8; 16]
        requires aad { length aad.now ≤ 65535 }
        requires text { length text.now ≤ 65535 }
        ensures { (iv : List ℕ) → block_bytes mask ≡ stream_block self.now iv 1
            → result ≡ tag_of self.now iv aad.now text.now }
    {
        let lengths = lengths_block(aad, text);
        let hash = self.hash.absorb(0, aad);
        let hash = self.hash.absorb(hash, text);
        let hash = self.hash.absorb_block(hash, lengths);
        block_bytes(hash ^ mask)
    }

    /// Encrypts a text in place and gives the tag of the text and the associated data (SP 800-38D, section
    /// 7.1). Both have at most 65,535 bytes. An IV serves once under a key.
    pub fn seal(&self, iv: &[u8; 12], aad: &[u8], text: &mut [u8]) -> [u8; 16]
        requires aad { length aad.now ≤ 65535 }
        requires text { length text.old ≤ 65535 }
        ensures text { text.new ≡ crypt self.now iv.now text.old }
        ensures tag { result ≡ tag_of self.now iv.now aad.now text.new }
    {
        let stream = blocks_at(&self.aes, iv, 0);
        crypt_in_place(&self.aes, iv, stream, text);
        self.tag(stream[0], aad, text)
    }

    // Whether a tag is that of associated data and an encrypted text, where `mask` is the block of the key
    // stream with the counter 1.
    fn compare(&self, mask: u128, aad: &[u8], text: &[u8], tag: &[u8; 16]) -> Result<(), BadTag>
        requires aad { length aad.now ≤ 65535 }
        requires text { length text.now ≤ 65535 }
        ensures opens { (iv : List ℕ) → block_bytes mask ≡ stream_block self.now iv 1
            → IsOk result ↔ (tag.now ≡ tag_of self.now iv aad.now text.now) }
        ensures computed { (iv : List ℕ) → block_bytes mask ≡ stream_block self.now iv 1
            → IfErr result (λ e. e.computed ≡ tag_of self.now iv aad.now text.now) }
    {
        let computed = self.tag(mask, aad, text);
        if !same_bytes(&computed, tag) {
            return Err(BadTag { computed });
        }
        Ok(())
    }

    /// Tests a tag as `open` does, and decrypts nothing (SP 800-38D, section 7.2, without step 4).
    /// Associated data and text have at most 65,535 bytes. `BadTag` comes exactly where `tag` is not the tag
    /// of both.
    pub fn verify(
        &self,
        iv: &[u8; 12],
        aad: &[u8],
        text: &[u8],
        tag: &[u8; 16],
    ) -> Result<(), BadTag>
        requires aad { length aad.now ≤ 65535 }
        requires text { length text.now ≤ 65535 }
        ensures opens { IsOk result ↔ (tag.now ≡ tag_of self.now iv.now aad.now text.now) }
        ensures computed { IfErr result
            (λ e. e.computed ≡ tag_of self.now iv.now aad.now text.now) }
    {
        self.compare(stream_block(&self.aes, iv, 1), aad, text, tag)
    }

    /// Tests a tag as `open` does, and gives the first 48 bytes of the text decrypted, or all where there are
    /// fewer: what the blocks of the key stream suffice for that the test makes at once. Associated data and
    /// text have at most 65,535 bytes. `BadTag` comes exactly where `tag` is not the tag of both.
    pub fn open_first(
        &self,
        iv: &[u8; 12],
        aad: &[u8],
        text: &[u8],
        tag: &[u8; 16],
    ) -> Result<ArrayVec<u8, 48>, BadTag>
        requires aad { length aad.now ≤ 65535 }
        requires text { length text.now ≤ 65535 }
        ensures opens { IsOk result ↔ (tag.now ≡ tag_of self.now iv.now aad.now text.now) }
        ensures first { IfOk result (λ b. b.items ≡ take 48 (crypt self.now iv.now text.now)) }
        ensures computed { IfErr result
            (λ e. e.computed ≡ tag_of self.now iv.now aad.now text.now) }
    {
        let stream = blocks_at(&self.aes, iv, 0);
        let mask = stream[0];
        self.compare(mask, aad, text, tag)?;
        let mut first = first_bytes(text);
        crypt_in_place(&self.aes, iv, stream, first.as_mut_slice());
        Ok(first)
    }

    /// Decrypts a text in place (SP 800-38D, section 7.2). Associated data and text have at most 65,535
    /// bytes. `BadTag` comes exactly where `tag` is not the tag of both, and the text is then as before.
    pub fn open(
        &self,
        iv: &[u8; 12],
        aad: &[u8],
        text: &mut [u8],
        tag: &[u8; 16],
    ) -> Result<(), BadTag>
        requires aad { length aad.now ≤ 65535 }
        requires text { length text.old ≤ 65535 }
        ensures opens { IsOk result ↔ (tag.now ≡ tag_of self.now iv.now aad.now text.old) }
        ensures text { OnOk result (text.new ≡ crypt self.now iv.now text.old) }
        ensures computed { IfErr result
            (λ e. e.computed ≡ tag_of self.now iv.now aad.now text.old) }
        ensures unchanged { OnErr result (text.new ≡ text.old) }
    {
        let stream = blocks_at(&self.aes, iv, 0);
        self.compare(stream[0], aad, text, tag)?;
        crypt_in_place(&self.aes, iv, stream, text);
        Ok(())
    }

    /// Encrypts or decrypts in place a text of at most 65,535 bytes, without a tag (SP 800-38D, section
    /// 6.5): only for a text whose tag was tested, or whose tag is made after it.
    pub fn crypt(&self, iv: &[u8; 12], text: &mut [u8])
        requires { length text.old ≤ 65535 }
        ensures { text.new ≡ crypt self.now iv.now text.old }
    {
        crypt_in_place(&self.aes, iv, blocks_at(&self.aes, iv, 0), text);
    }

    /// Encrypts or decrypts in place, without a tag, what a text has behind its first `blocks` blocks of 16
    /// bytes (SP 800-38D, section 6.5). The whole text has at most 65,535 bytes: only one whose tag was
    /// tested, or whose tag is made after it.
    pub fn crypt_behind(&self, iv: &[u8; 12], blocks: usize, text: &mut [u8])
        requires { 16 * blocks + length text.old ≤ 65535 }
        ensures value { text.new ≡ crypt_behind blocks self.now iv.now text.old }

        // What stands in front and this text are then the whole text, encrypted or decrypted.
        ensures whole { (front : List ℕ) → length front ≡ 16 * blocks
            → crypt self.now iv.now (front ++ text.old) ≡ crypt self.now iv.now front ++ text.new }
    {
        crypt_behind(&self.aes, iv, blocks, text);
    }
}
