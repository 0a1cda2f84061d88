ghost use Rattle.std.specs.Prelude.{◌≡◌, ◌<◌, ◌≤◌, ◌+◌, ◌-◌, ◌*◌, ◌/◌, ◌⊎◌, ◌++◌, length, map};
ghost use Rattle.std.specs.List.{range_with_len};
ghost use Rattle.aes.specs.ByteField.{power};
ghost use Rattle.aes.specs.Cipher.{taken, next_word, expanded, word_count, round_count, round_keys};

use crate::sbox::substitute;
use crate::sliced_word::substituted_word;
use arrayvec::ArrayVec;

/// How the bytes of a key are substituted when it is expanded.
#[derive(Clone, Copy)]
pub enum Substitution {
    /// By a table, at places that depend on the key.
    Table,
    /// By a circuit, with no place and no branch that depends on the key.
    Circuit,
}

impl Substitution {
    ghost use Rattle.std.specs.Prelude.{◌≡◌, ◌∷◌, []};
    ghost use Rattle.aes.specs.Cipher.{sub_bytes};

    // The substitutions of four bytes.
    fn word(self, a: u8, b: u8, c: u8, d: u8) -> [u8; 4]
        ensures { result ≡ sub_bytes (a ∷ b ∷ c ∷ d ∷ []) }
    {
        match self {
            Substitution::Table => [substitute(a), substitute(b), substitute(c), substitute(d)],
            Substitution::Circuit => substituted_word(a, b, c, d),
        }
    }
}

// The first byte of each round constant: the powers of x (FIPS 197, section 5.2).
const ROUND_CONSTANTS: [u8; 10] = [0x01, 0x02, 0x04, 0x08, 0x10, 0x20, 0x40, 0x80, 0x1b, 0x36];

fn round_constant(n: usize) -> u8
    requires { n < 10 }
    ensures { result ≡ power n }
{
    ROUND_CONSTANTS[n]
}

// What word `i` takes from the word before it, where the key has `nk` words.
fn taken(substitution: Substitution, w: &[u8], nk: usize, i: usize) -> [u8; 4]
    requires known { 4 * i ≤ length w.now }
    requires long { 4 ≤ nk }
    requires first { nk ≤ i }
    requires small { i < 11 * nk }
    ensures { result ≡ map (taken w.now nk i) (range_with_len 0 4) }
{
    let at = 4 * (i - 1);
    if i % nk == 0 {
        let mut word = substitution.word(w[at + 1], w[at + 2], w[at + 3], w[at]);
        word[0] ^= round_constant(i / nk - 1);
        word
    } else if 6 < nk && i % nk == 4 {
        substitution.word(w[at], w[at + 1], w[at + 2], w[at + 3])
    } else {
        [w[at], w[at + 1], w[at + 2], w[at + 3]]
    }
}

// Word `i`, from those before it, where the key has `nk` words.
fn next_word(substitution: Substitution, w: &[u8], nk: usize, i: usize) -> [u8; 4]
    requires known { 4 * i ≤ length w.now }
    requires long { 4 ≤ nk }
    requires first { nk ≤ i }
    requires small { i < 11 * nk }
    ensures { result ≡ next_word w.now nk i }
{
    let t = taken(substitution, w, nk, i);
    let at = 4 * (i - nk);
    [
        w[at] ^ t[0],
        w[at + 1] ^ t[1],
        w[at + 2] ^ t[2],
        w[at + 3] ^ t[3],
    ]
}

// Adds a word.
fn append(bytes: &mut ArrayVec<u8, 240>, word: &[u8; 4])
    requires { length bytes.old.items ≤ 236 }
    ensures { bytes.new.items ≡ bytes.old.items ++ word.now }
{
    let _ = bytes.try_extend_from_slice(word);
}

/// The round keys of a key of 16 or 32 bytes, one after the other: 176 or 240 bytes (FIPS 197, section 5.2).
#[tactic(auto, unfolding(crate::specs::Cipher::expanded))]
pub fn expanded_by(substitution: Substitution, key: &[u8]) -> ArrayVec<u8, 240>
    requires { (length key.now ≡ 16) ⊎ (length key.now ≡ 32) }
    ensures value { result.items ≡ round_keys key.now }
    ensures size { length result.items ≡ 16 * round_count key.now + 16 }
{
    let nk = key.len() / 4;
    let mut bytes = ArrayVec::<u8, 240>::new();
    let _ = bytes.try_extend_from_slice(key);
    for n in 0..3 * nk + 28 {
        let word = next_word(substitution, bytes.as_slice(), nk, nk + n);
        append(&mut bytes, &word);
    }
    bytes
}

/// The same, with bytes substituted by the table.
pub fn expand_key(key: &[u8]) -> ArrayVec<u8, 240>
    requires { (length key.now ≡ 16) ⊎ (length key.now ≡ 32) }
    ensures value { result.items ≡ round_keys key.now }
    ensures size { length result.items ≡ 16 * round_count key.now + 16 }
{
    expanded_by(Substitution::Table, key)
}
