ghost use Rattle.std.specs.Prelude.{◌≡◌, length};
ghost use Rattle.aes.specs.ByteField.{times};
ghost use Rattle.aes.specs.Cipher.{sub_bytes, shift_rows, mix_columns, add_round_key};

use crate::sbox::substitute;

// SubBytes (FIPS 197, section 5.1.1).
pub fn substitute_all(state: &[u8; 16]) -> [u8; 16]
    ensures { result ≡ sub_bytes state.now }
{
    let mut out = *state;
    for x in out.iter_mut() {
        *x = substitute(*x);
    }
    out
}

// ShiftRows (FIPS 197, section 5.1.2).
pub fn shift_rows(s: &[u8; 16]) -> [u8; 16]
    ensures { result ≡ shift_rows s.now }
{
    [
        s[0], s[5], s[10], s[15], s[4], s[9], s[14], s[3], s[8], s[13], s[2], s[7], s[12], s[1],
        s[6], s[11],
    ]
}

// {02} times a byte (FIPS 197, section 4.2.1).
fn double(x: u8) -> u8
    ensures { result ≡ times 2 x }
{
    if x < 128 { x * 2 } else { (x - 128) * 2 ^ 0x1b }
}

// {03} times a byte.
fn triple(x: u8) -> u8
    ensures { result ≡ times 3 x }
{
    double(x) ^ x
}

// MixColumns (FIPS 197, section 5.1.3).
pub fn mix_columns(s: &[u8; 16]) -> [u8; 16]
    ensures { result ≡ mix_columns s.now }
{
    let mut out = [0u8; 16];
    for i in 0..16usize {
        let column = i / 4 * 4;
        out[i] = (double(s[i]) ^ triple(s[column + (i + 1) % 4]))
            ^ (s[column + (i + 2) % 4] ^ s[column + (i + 3) % 4]);
    }
    out
}

// AddRoundKey (FIPS 197, section 5.1.4), under a round key of 16 bytes.
pub fn add_round_key(s: &[u8; 16], key: &[u8]) -> [u8; 16]
    requires { length key.now ≡ 16 }
    ensures { result ≡ add_round_key s.now key.now }
{
    let mut out = [0u8; 16];
    for i in 0..16usize {
        out[i] = s[i] ^ key[i];
    }
    out
}
