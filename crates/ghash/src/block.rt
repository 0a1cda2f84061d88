ghost use Rattle.std.specs.Prelude.{◌≡◌, ◌≤◌, ◌*◌, length, slice_index};
ghost use Rattle.ghash.specs.Hash.{block_at, block_number, block_bytes};

use byteorder::{BigEndian, ByteOrder};

// The byte at `i`, and 0 behind the last.
fn byte_at(bytes: &[u8], i: usize) -> u8
    ensures { result ≡ slice_index bytes.now i }
{
    if i < bytes.len() { bytes[i] } else { 0 }
}

/// The block of the first 16 bytes, the number that they read as, the highest first; where there are
/// fewer, zeros stand behind the last (SP 800-38D, section 6.3).
#[tactic(auto, unfolding(crate::specs::Hash::block_number))]
pub fn block_number(bytes: &[u8]) -> u128
    ensures { result ≡ block_number bytes.now }
{
    if bytes.len() >= 16 {
        return BigEndian::read_u128(bytes);
    }
    BigEndian::read_u128(&[
        byte_at(bytes, 0),
        byte_at(bytes, 1),
        byte_at(bytes, 2),
        byte_at(bytes, 3),
        byte_at(bytes, 4),
        byte_at(bytes, 5),
        byte_at(bytes, 6),
        byte_at(bytes, 7),
        byte_at(bytes, 8),
        byte_at(bytes, 9),
        byte_at(bytes, 10),
        byte_at(bytes, 11),
        byte_at(bytes, 12),
        byte_at(bytes, 13),
        byte_at(bytes, 14),
        byte_at(bytes, 15),
    ])
}

// Block `n` of some bytes, with zeros behind the last.
pub fn block_at(bytes: &[u8], n: usize) -> u128
    requires { 16 * n ≤ length bytes.now }
    ensures { result ≡ block_at bytes.now n }
{
    block_number(bytes.split_at(16 * n).1)
}

/// The 16 bytes of a block, the highest first.
#[tactic(auto, unfolding(crate::specs::Hash::block_bytes))]
pub fn block_bytes(block: u128) -> [u8; 16]
    ensures { result ≡ block_bytes block }
{
    let mut bytes = [0u8; 16];
    BigEndian::write_u128(&mut bytes, block);
    bytes
}
