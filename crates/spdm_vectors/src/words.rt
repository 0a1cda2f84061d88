use spdm_basis::{AeadAlg, HashAlg};
use std::alloc::Global;

/// The words of a line.
#[derive(Drop)]
pub struct Words<'a> {
    words: Vec<&'a str>,
}

impl<'a> Words<'a> {
    /// The words between single blanks.
    pub fn of(alloc: Global, line: &'a str) -> Option<Words<'a>> {
        let words = line.split(' ').collect(alloc).ok()?;
        Some(Words { words })
    }

    /// The word at a place, counted from 0; an empty one where there are fewer.
    pub fn at(&self, place: usize) -> &'a str {
        match self.words.as_slice().get(place) {
            Some(word) => *word,
            None => "",
        }
    }
}

/// The bytes of a word: hexadecimal digits, `-` for none, or as `5a*33` one byte so many times.
pub fn bytes_of(alloc: Global, word: &str) -> Option<Vec<u8>> {
    if word == "-" {
        return Some(Vec::new(alloc));
    }
    match word.split_once('*') {
        Some((byte, count)) => filled(alloc, byte, count),
        None => hex::decode(alloc, word).ok(),
    }
}

fn filled(alloc: Global, byte: &str, count: &str) -> Option<Vec<u8>> {
    let byte: [u8; 1] = array_of(byte)?;
    let count = number_of(count)?;
    vec![in alloc; byte[0]; count].ok()
}

/// The bytes of a word, as many as are wanted.
pub fn array_of<const N: usize>(word: &str) -> Option<[u8; N]> {
    let mut bytes = [0; N];
    hex::decode_to_slice(word, &mut bytes).ok()?;
    Some(bytes)
}

/// The number in a word.
pub fn number_of(word: &str) -> Option<usize> {
    word.parse::<usize>().ok()
}

/// Bytes as a word.
pub fn hex_of(alloc: Global, bytes: &[u8]) -> Option<String> {
    if bytes.is_empty() {
        return text_of(alloc, "-");
    }
    hex::encode(alloc, bytes).ok()
}

/// A word or more.
pub fn text_of(alloc: Global, text: &str) -> Option<String> {
    String::from_str(alloc, text).ok()
}

/// The hash function of a word.
pub fn hash_of(word: &str) -> Option<HashAlg> {
    match word {
        "256" => Some(HashAlg::Sha256),
        "384" => Some(HashAlg::Sha384),
        _ => None,
    }
}

/// The AEAD that goes with a hash function here.
pub fn aead_of(hash: HashAlg) -> AeadAlg {
    match hash {
        HashAlg::Sha256 => AeadAlg::Aes128Gcm,
        HashAlg::Sha384 => AeadAlg::Aes256Gcm,
    }
}
