ghost use Rattle.std.specs.Prelude.{◌≡◌, ◌≤◌, ◌++◌, length, replicate};
ghost use Rattle.byteorder.specs.Endian.{little_bytes};
ghost use Rattle.spdm_bench.specs.Repeat.{iv_of, sealed, last_tag, last_code};

use aes_gcm::GcmKey;
use byteorder::{ByteOrder, LittleEndian};
use hmac_hkdf::hmac;

// The IV of message `number`.
fn iv_of(number: u64) -> [u8; 12]
    ensures { result ≡ iv_of number }
{
    let mut iv = [0u8; 12];
    LittleEndian::write_u64(&mut iv, number);
    iv
}

/// Seals `count` messages under a key of zeros with eight bytes of associated data, each message the one before it
/// sealed, and gives the last tag. The text has at most 65,535 bytes.
#[tactic(auto, unfolding(crate::specs::Repeat::sealed, crate::specs::Repeat::last_tag))]
pub fn seal_all(text: &mut [u8], count: u64) -> [u8; 16]
    requires { length text.old ≤ 65535 }
    ensures text { text.new ≡ sealed text.old count }
    ensures tag { result ≡ last_tag text.old count }
{
    let cipher = GcmKey::new(&[0u8; 16]);
    let mut tag = [0u8; 16];
    for number in 0..count {
        tag = cipher.seal(&iv_of(number), &[0u8; 8], text);
    }
    tag
}

/// Gives the HMAC over SHA-256 of the last of `count` messages, each of as many bytes as `text`,
/// after that of each before it, under a key of 16 zeros. The text is overwritten.
#[tactic(auto, unfolding(crate::specs::Repeat::last_code))]
pub fn authenticate_all(text: &mut [u8], count: u64) -> [u8; 32]
    ensures { result ≡ last_code (length text.old) count }
{
    let mut code = [0u8; 32];
    for number in 0..count {
        text.fill((number % 256) as u8);
        code = hmac(&[0u8; 16], text);
    }
    code
}
