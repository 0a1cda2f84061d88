ghost use Rattle.std.specs.Prelude.{◌≡◌};
ghost use Rattle.byteorder.specs.Endian.{little_bytes};
ghost use Rattle.secured_record.specs.Format.{header, nonce};

use arrayvec::ArrayVec;
use byteorder::{ByteOrder, LittleEndian};

// A number as two bytes, little-endian.
pub fn two_bytes(number: u16) -> [u8; 2]
    ensures { result ≡ little_bytes 2 number }
{
    let mut bytes = [0u8; 2];
    LittleEndian::write_u16(&mut bytes, number);
    bytes
}

// A number as eight bytes, little-endian.
fn eight_bytes(number: u64) -> [u8; 8]
    ensures { result ≡ little_bytes 8 number }
{
    let mut bytes = [0u8; 8];
    LittleEndian::write_u64(&mut bytes, number);
    bytes
}

// The header of a record with `count` bytes after it.
pub fn header(id: &[u8; 4], number: u16, count: u16) -> [u8; 8]
    ensures { result ≡ header id.now number count }
{
    let mut header = ArrayVec::<u8, 8>::new();
    let _ = header.try_extend_from_slice(id);
    let _ = header.try_extend_from_slice(&two_bytes(number));
    let _ = header.try_extend_from_slice(&two_bytes(count));
    header.into_inner().unwrap()
}

// The nonce of a record.
pub fn nonce(iv: &[u8; 12], number: u16) -> [u8; 12]
    ensures { result ≡ nonce iv.now number }
{
    let bytes = eight_bytes(number as u64);
    let first = [
        iv[0] ^ bytes[0],
        iv[1] ^ bytes[1],
        iv[2] ^ bytes[2],
        iv[3] ^ bytes[3],
        iv[4] ^ bytes[4],
        iv[5] ^ bytes[5],
        iv[6] ^ bytes[6],
        iv[7] ^ bytes[7],
    ];
    let mut nonce = ArrayVec::<u8, 12>::new();
    let _ = nonce.try_extend_from_slice(&first);
    let _ = nonce.try_extend_from_slice(iv.split_at(8).1);
    nonce.into_inner().unwrap()
}
