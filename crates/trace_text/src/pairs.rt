//! Pairs of hexadecimal digits, by arithmetic on each byte alone, so that many are read or written at once.
ghost use Rattle.std.specs.Prelude.{◌≡◌, ◌<◌, ◌*◌, length, slice_index, true, Ok, Some};
ghost use Rattle.std.specs.List.{list_all};
ghost use Rattle.hex.specs.Hex.{decode_of, encode_lower, hex_digit_value, is_hex_digit, lower_digits};

// How far a small letter follows the place where the digits of the numbers end.
const LETTERS: u8 = b'a' - b'9' - 1;

// The digit of four bits.
fn digit(bits: u8) -> u8
    requires { bits < 16 }
    ensures { result ≡ slice_index lower_digits bits }
{
    b'0' + bits + if bits > 9 { LETTERS } else { 0 }
}

/// Writes the two digits of each byte, with small letters.
pub fn write_pairs(bytes: &[u8], digits: &mut [u8])
    requires { length digits.old ≡ 2 * length bytes.now }
    ensures { digits.new ≡ encode_lower bytes.now }
{
    'bytes: for i in 0..bytes.len() {
        digits[2 * i] = digit(bytes[i] / 16);
        digits[2 * i + 1] = digit(bytes[i] % 16);
    }
}

// The four bits of a digit of either case. Those of a letter are 9 more than its last four bits.
fn value(digit: u8) -> u8
    requires { is_hex_digit digit ≡ true }
    ensures value { hex_digit_value digit ≡ Some result }
    ensures small { result < 16 }
{
    digit % 16 + if digit > b'9' { 9 } else { 0 }
}

/// Reads the byte of each pair of digits.
pub fn read_pairs(digits: &[u8], bytes: &mut [u8])
    requires twice { length digits.now ≡ 2 * length bytes.old }
    requires digits { list_all is_hex_digit digits.now ≡ true }
    ensures { decode_of digits.now ≡ Ok bytes.new }
{
    'bytes: for i in 0..bytes.len() {
        bytes[i] = value(digits[2 * i]) * 16 + value(digits[2 * i + 1]);
    }
}
