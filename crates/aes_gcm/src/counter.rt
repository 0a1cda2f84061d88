ghost use Rattle.std.specs.Prelude.{◌≡◌, ◌<◌, ◌≤◌, ◌+◌, ◌-◌, ◌*◌, ◌/◌, ◌^◌, ◌++◌, ℕ, length, slice_index, bit_xor};
ghost use Rattle.byteorder.specs.Endian.{big_bytes};
ghost use Rattle.aes.specs.Words.{block_bytes};
ghost use Rattle.aes_gcm.specs.Gcm.{stream_block, crypt};
ghost use Rattle.aes_gcm.specs.Stream.{HasBlock, IsReady};
ghost use Rattle.aes_gcm.specs.Behind.{crypted_behind, crypt_behind};

use crate::primitives::BlockCipher;
use byteorder::{BigEndian, ByteOrder};

// The block of an IV and a counter.
fn counter_block(iv: &[u8; 12], counter: u32) -> u128
    ensures { block_bytes result ≡ iv.now ++ big_bytes 4 counter }
{
    let (high, low) = iv.split_at(8);
    BigEndian::read_u64(high) as u128 * (1 << 64)
        + BigEndian::read_u32(low) as u128 * (1 << 32)
        + counter as u128
}

/// The block of the key stream with this counter.
pub fn stream_block(aes: &BlockCipher, iv: &[u8; 12], counter: u32) -> u128
    ensures { block_bytes result ≡ stream_block aes.now iv.now counter }
{
    aes.encrypt_number(counter_block(iv, counter))
}

// The four blocks of the key stream from this counter on.
fn four_blocks(aes: &BlockCipher, iv: &[u8; 12], counter: u32) -> [u128; 4]
    requires { counter + 3 < 2 ^ 32 }
    ensures { (b : ℕ) → b < 4
        → block_bytes (slice_index result b) ≡ stream_block aes.now iv.now (counter + b) }
{
    aes.encrypt_four(&[
        counter_block(iv, counter),
        counter_block(iv, counter + 1),
        counter_block(iv, counter + 2),
        counter_block(iv, counter + 3),
    ])
}

/// Four blocks of the key stream, among them block `n`. Block 0 has the counter 1.
pub fn blocks_at(aes: &BlockCipher, iv: &[u8; 12], n: usize) -> [u128; 4]
    requires { n ≤ 65535 }
    ensures { HasBlock result aes.now iv.now n }
{
    four_blocks(aes, iv, (n / 4 * 4 + 1) as u32)
}

// Block `n` of the key stream, where `stream` has it or it begins the next four.
fn next_block(aes: &BlockCipher, iv: &[u8; 12], stream: &mut [u128; 4], n: usize) -> u128
    requires small { n ≤ 65535 }
    requires stream { IsReady stream.old aes.now iv.now n }
    ensures stream { HasBlock stream.new aes.now iv.now n }
    ensures block { block_bytes result ≡ stream_block aes.now iv.now (n + 1) }
{
    if n % 4 == 0 {
        *stream = blocks_at(aes, iv, n);
    }
    stream[n % 4]
}

// The sum of eight bytes and half a block of the key stream.
fn masked(bytes: &[u8], stream: u64) -> u64
    requires { length bytes.now ≡ 8 }
    ensures { (k : ℕ) → k < 8
        → slice_index (big_bytes 8 result) k
        ≡ bit_xor (slice_index bytes.now k) (slice_index (big_bytes 8 stream) k) }
{
    BigEndian::read_u64(bytes) ^ stream
}

// Encrypts or decrypts eight bytes in place.
fn mask_half(bytes: &mut [u8], stream: u64)
    requires { length bytes.old ≡ 8 }
    ensures { (k : ℕ) → k < 8
        → slice_index bytes.new k
        ≡ bit_xor (slice_index bytes.old k) (slice_index (big_bytes 8 stream) k) }
{
    let sum = masked(bytes, stream);
    BigEndian::write_u64(bytes, sum);
}

// Encrypts or decrypts in place the eight bytes from `at` on.
fn mask(text: &mut [u8], at: usize, stream: u64)
    requires { at + 8 ≤ length text.old }
    ensures here { (k : ℕ) → at ≤ k → k < at + 8
        → slice_index text.new k
        ≡ bit_xor (slice_index text.old k) (slice_index (big_bytes 8 stream) (k - at)) }
    ensures before { (k : ℕ) → k < at → slice_index text.new k ≡ slice_index text.old k }
    ensures behind { (k : ℕ) → at + 8 ≤ k → slice_index text.new k ≡ slice_index text.old k }
{
    mask_half(&mut text[at..at + 8], stream);
}

// Encrypts or decrypts in place block `n` of a text that stands behind `first` blocks, where `stream` has its block of
// the key stream or that begins the next four.
fn crypt_block(
    aes: &BlockCipher,
    iv: &[u8; 12],
    stream: &mut [u128; 4],
    first: usize,
    text: &mut [u8],
    n: usize,
)
    requires whole { 16 * n + 16 ≤ length text.old }
    requires small { 16 * first + length text.old ≤ 65535 }
    requires stream { IsReady stream.old aes.now iv.now (first + n + 1) }
    ensures block { (k : ℕ) → 16 * n ≤ k → k < 16 * n + 16
        → slice_index text.new k ≡ crypted_behind first aes.now iv.now text.old k }
    ensures before { (k : ℕ) → k < 16 * n → slice_index text.new k ≡ slice_index text.old k }
    ensures behind { (k : ℕ) → 16 * n + 16 ≤ k → slice_index text.new k ≡ slice_index text.old k }
    ensures stream { IsReady stream.new aes.now iv.now (first + n + 2) }
{
    let block = next_block(aes, iv, stream, first + n + 1);
    mask(text, 16 * n, (block >> 64) as u64);
    mask(text, 16 * n + 8, (block % (1 << 64)) as u64);
}

// Encrypts or decrypts in place what a text that stands behind `first` blocks has behind its `n` whole blocks, where
// `stream` has the block of the key stream before its own.
fn crypt_rest(
    aes: &BlockCipher,
    iv: &[u8; 12],
    stream: &mut [u128; 4],
    first: usize,
    text: &mut [u8],
    n: usize,
)
    requires rest { length text.old / 16 ≡ n }
    requires small { 16 * first + length text.old ≤ 65535 }
    requires stream { IsReady stream.old aes.now iv.now (first + n + 1) }
    ensures rest { (k : ℕ) → 16 * n ≤ k → k < length text.old
        → slice_index text.new k ≡ crypted_behind first aes.now iv.now text.old k }
    ensures before { (k : ℕ) → k < 16 * n → slice_index text.new k ≡ slice_index text.old k }
{
    let block = next_block(aes, iv, stream, first + n + 1).to_be_bytes();
    for i in 16 * n..text.len() {
        text[i] ^= block[i - 16 * n];
    }
}

/// Encrypts or decrypts in place a text that stands behind `first` blocks, where `stream` has the block of the key
/// stream before its own.
pub fn crypt_from(
    aes: &BlockCipher,
    iv: &[u8; 12],
    mut stream: [u128; 4],
    first: usize,
    text: &mut [u8],
)
    requires small { 16 * first + length text.old ≤ 65535 }
    requires stream { IsReady stream aes.now iv.now (first + 1) }
    ensures { text.new ≡ crypt_behind first aes.now iv.now text.old }
{
    let whole = text.len() / 16;
    for n in 0..whole {
        crypt_block(aes, iv, &mut stream, first, text, n);
    }
    if text.len() % 16 > 0 {
        crypt_rest(aes, iv, &mut stream, first, text, whole);
    }
}

/// Encrypts or decrypts in place a text that stands behind `first` blocks.
pub fn crypt_behind(aes: &BlockCipher, iv: &[u8; 12], first: usize, text: &mut [u8])
    requires { 16 * first + length text.old ≤ 65535 }
    ensures { text.new ≡ crypt_behind first aes.now iv.now text.old }
{
    let stream = if first % 4 == 3 {
        [0; 4]
    } else {
        blocks_at(aes, iv, first + 1)
    };
    crypt_from(aes, iv, stream, first, text);
}

/// Encrypts or decrypts a text in place, where `stream` has the block of the key stream with the counter 1.
pub fn crypt_in_place(aes: &BlockCipher, iv: &[u8; 12], stream: [u128; 4], text: &mut [u8])
    requires small { length text.old ≤ 65535 }
    requires stream { HasBlock stream aes.now iv.now 0 }
    ensures { text.new ≡ crypt aes.now iv.now text.old }
{
    crypt_from(aes, iv, stream, 0, text);
}
