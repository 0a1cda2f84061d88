use crate::begun::Begun;
use crate::columns::Columns;
use crate::schedule::schedule;
use arrayvec::ArrayVec;
use byteorder::{BigEndian, ByteOrder};
use std::marker::Model;

/// AES under a key, with its round keys. Contracts see the key.
#[derive(Drop)]
pub struct Aes {
    key: ArrayVec<u8, 32>,
    keys: ArrayVec<Columns, 15>,
    rounds: usize,
}

impl Model for Aes {
    ghost use Rattle.std.specs.Prelude.{◌≡◌, ◌+◌, ◌%◌, ℕ, List, length};

    ghost Value = { List ℕ };

    ghost use Rattle.aes.specs.Cipher.{round_count};
    ghost use Rattle.aes.specs.Schedule.{IsSchedule};

    ghost view = { λ a. a.key.items };

    ghost invariant = { λ a. IsSchedule a.keys.items a.key.items
        × (length a.keys.items ≡ a.rounds + 1)
        × (a.rounds ≡ round_count a.key.items)
        × (a.rounds % 2 ≡ 0) };
}

impl Aes {
    ghost use Rattle.std.specs.Prelude.{◌≡◌, ◌<◌, ◌⊎◌, ◌+◌, ◌*◌, ◌/◌, ◌^◌, ℕ, List, length, slice_index};
    ghost use Rattle.aes.specs.Cipher.{cipher, rounds, round_keys};
    ghost use Rattle.aes.specs.Words.{block_bytes, bytes_of};
    ghost use Rattle.aes.specs.Begun.{IsBegun};

    /// AES under a key of 16 or 32 bytes.
    pub fn new(key: &[u8]) -> Aes
        requires { (length key.now ≡ 16) ⊎ (length key.now ≡ 32) }
        ensures { result ≡ key.now }
    {
        let mut copy = ArrayVec::new();
        let _ = copy.try_extend_from_slice(key);
        Aes {
            key: copy,
            keys: schedule(key),
            rounds: key.len() / 4 + 6,
        }
    }

    // What the rounds from the third on make of the state after the second.
    fn finish(&self, second: &Columns) -> u128
        ensures { (block : List ℕ) → bytes_of second.now ≡ rounds (round_keys self.now) block 2
            → block_bytes result ≡ cipher self.now block }
    {
        let keys = self.keys.as_slice();
        let mut state = second.round(&keys[3]);
        for n in 0..self.rounds / 2 - 2 {
            state = state.round(&keys[2 * n + 4]).round(&keys[2 * n + 5]);
        }
        state.last_round(&keys[self.rounds]).block()
    }

    /// The same key once more, with its round keys.
    pub fn copied(&self) -> Aes
        ensures { result ≡ self.now }
    {
        Aes {
            key: self.key.clone().unwrap(),
            keys: self.keys.clone().unwrap(),
            rounds: self.rounds,
        }
    }

    /// The block that `block` is enciphered to (FIPS 197, section 5.1). Both are the numbers that their 16
    /// bytes read as, the highest first.
    pub fn encrypt_number(&self, block: u128) -> u128
        ensures { block_bytes result ≡ cipher self.now (block_bytes block) }
    {
        let keys = self.keys.as_slice();
        let start = Columns::of(block).add(&keys[0]);
        self.finish(&start.round(&keys[1]).round(&keys[2]))
    }

    /// The four blocks that four blocks are enciphered to, each as `encrypt_number` does.
    pub fn encrypt_four(&self, blocks: &[u128; 4]) -> [u128; 4]
        ensures { (b : ℕ) → b < 4 → block_bytes (slice_index result b)
            ≡ cipher self.now (block_bytes (slice_index blocks.now b)) }
    {
        [
            self.encrypt_number(blocks[0]),
            self.encrypt_number(blocks[1]),
            self.encrypt_number(blocks[2]),
            self.encrypt_number(blocks[3]),
        ]
    }

    /// What can be enciphered of a block without its last byte, for many blocks that have the other 15 bytes.
    pub fn begin(&self, block: u128) -> Begun
        ensures { IsBegun result self.now block }
    {
        let keys = self.keys.as_slice();
        let start = Columns::of(block).add(&keys[0]);
        Begun::of(&start, (keys[0].fourth % 256) as u8, &keys[1], &keys[2])
    }

    /// The block that the begun block with `last` as its last byte is enciphered to.
    pub fn encrypt_begun(&self, begun: &Begun, last: u8) -> u128
        ensures { (block : ℕ) → IsBegun begun.now self.now block
            → block_bytes result ≡ cipher self.now (block_bytes (block / 2 ^ 8 * 2 ^ 8 + last)) }
    {
        self.finish(&begun.state(last))
    }

    /// The block that `block` is enciphered to (FIPS 197, section 5.1).
    pub fn encrypt(&self, block: &[u8; 16]) -> [u8; 16]
        ensures { result ≡ cipher self.now block.now }
    {
        let mut bytes = [0u8; 16];
        BigEndian::write_u128(&mut bytes, self.encrypt_number(BigEndian::read_u128(block)));
        bytes
    }
}
