ghost use Rattle.std.specs.Prelude.{◌≤◌, ◌*◌, IsTrue};
ghost use Rattle.spdm_basis.specs.Sizes.{hash_size};

use crate::words::{Words, array_of, bytes_of, hash_of, hex_of, number_of};
use hmac_hkdf::{expand, expand_by, extract, extract_by, hmac, hmac_by};
use spdm_basis::{HashAlg, HashBytes};
use std::alloc::Global;

/// HMAC and HKDF.
pub fn told(alloc: Global, words: &Words<'_>) -> Option<String> {
    match words.at(0) {
        "hmac" => code(alloc, words.at(1), words.at(2)),
        "hmac_by" => code_by(alloc, words.at(1), words.at(2), words.at(3)),
        "extract" => extracted(alloc, words.at(1), words.at(2)),
        "extract_by" => extracted_by(alloc, words.at(1), words.at(2), words.at(3)),
        "expand" => expanded(alloc, words.at(1), words.at(2), words.at(3)),
        "expand_by" => expanded_by(alloc, words.at(1), words.at(2), words.at(3), words.at(4)),
        _ => None,
    }
}

fn code(alloc: Global, key: &str, text: &str) -> Option<String> {
    hex_of(
        alloc,
        &hmac(&bytes_of(alloc, key)?, &bytes_of(alloc, text)?),
    )
}

fn code_by(alloc: Global, hash: &str, key: &str, text: &str) -> Option<String> {
    let code = hmac_by(
        hash_of(hash)?,
        &bytes_of(alloc, key)?,
        &bytes_of(alloc, text)?,
    );
    hex_of(alloc, code.as_slice())
}

fn extracted(alloc: Global, salt: &str, input: &str) -> Option<String> {
    hex_of(
        alloc,
        &extract(&bytes_of(alloc, salt)?, &bytes_of(alloc, input)?),
    )
}

fn extracted_by(alloc: Global, hash: &str, salt: &str, input: &str) -> Option<String> {
    let key = extract_by(
        hash_of(hash)?,
        &bytes_of(alloc, salt)?,
        &bytes_of(alloc, input)?,
    );
    hex_of(alloc, key.as_slice())
}

// Room for so many bytes, as many as HKDF gives at most over SHA-256.
fn room(alloc: Global, count: &str) -> Option<Vec<u8>> {
    let count = number_of(count)?.min(8160);
    vec![in alloc; 0; count].ok()
}

fn expanded(alloc: Global, key: &str, info: &str, count: &str) -> Option<String> {
    let (key, info) = (array_of(key)?, bytes_of(alloc, info)?);
    let mut out = room(alloc, count)?;
    if out.len() > 8160 {
        return None;
    }
    expand(&key, &info, out.as_mut_slice());
    hex_of(alloc, out.as_slice())
}

// Whether HKDF gives as many bytes.
fn is_within(hash: HashAlg, count: usize) -> bool
    ensures { IsTrue result → count ≤ 255 * hash_size hash }
{
    match hash {
        HashAlg::Sha256 => count <= 8160,
        HashAlg::Sha384 => count <= 12_240,
    }
}

fn expanded_by(alloc: Global, hash: &str, key: &str, info: &str, count: &str) -> Option<String> {
    let hash = hash_of(hash)?;
    let key = HashBytes::new(&bytes_of(alloc, key)?)?;
    let info = bytes_of(alloc, info)?;
    let mut out = room(alloc, count)?;
    if key.as_slice().len() != hash.size() || !is_within(hash, out.len()) {
        return None;
    }
    expand_by(hash, &key, &info, out.as_mut_slice());
    hex_of(alloc, out.as_slice())
}
