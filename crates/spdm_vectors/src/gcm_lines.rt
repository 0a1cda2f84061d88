use crate::words::{Words, array_of, bytes_of, hex_of};
use aes_gcm::{BadTag, GcmKey};
use std::alloc::Global;

/// Galois/Counter Mode.
pub fn told(alloc: Global, words: &Words<'_>) -> Option<String> {
    match words.at(0) {
        "seal" => sealed(alloc, words.at(1), words.at(2), words.at(3), words.at(4)),
        "tag" => tag(alloc, words.at(1), words.at(2), words.at(3), words.at(4)),
        "open" => opened(
            alloc,
            words.at(1),
            words.at(2),
            words.at(3),
            words.at(4),
            words.at(5),
        ),
        _ => None,
    }
}

// The cipher under a key of 16 or 32 bytes.
fn cipher_of(key: &str) -> Option<GcmKey> {
    if key.len() == 32 {
        let key: [u8; 16] = array_of(key)?;
        Some(GcmKey::new(&key))
    } else {
        let key: [u8; 32] = array_of(key)?;
        Some(GcmKey::new(&key))
    }
}

// Encrypts a text, and gives its tag.
fn seal(key: &str, iv: &str, aad: &[u8], text: &mut [u8]) -> Option<[u8; 16]> {
    let iv = array_of(iv)?;
    if aad.len() > 65_535 || text.len() > 65_535 {
        return None;
    }
    Some(cipher_of(key)?.seal(&iv, aad, text))
}

// Decrypts a text, if this is its tag.
fn open(
    key: &str,
    iv: &str,
    aad: &[u8],
    text: &mut [u8],
    tag: &[u8; 16],
) -> Option<Result<(), BadTag>> {
    let iv = array_of(iv)?;
    if aad.len() > 65_535 || text.len() > 65_535 {
        return None;
    }
    Some(cipher_of(key)?.open(&iv, aad, text, tag))
}

// The encrypted text and its tag.
fn sealed(alloc: Global, key: &str, iv: &str, aad: &str, text: &str) -> Option<String> {
    let aad = bytes_of(alloc, aad)?;
    let mut text = bytes_of(alloc, text)?;
    let tag = seal(key, iv, aad.as_slice(), text.as_mut_slice())?;
    let (text, tag) = (hex_of(alloc, text.as_slice())?, hex_of(alloc, &tag)?);
    format!(in alloc; "{text} {tag}").ok()
}

// The tag alone.
fn tag(alloc: Global, key: &str, iv: &str, aad: &str, text: &str) -> Option<String> {
    let aad = bytes_of(alloc, aad)?;
    let mut text = bytes_of(alloc, text)?;
    hex_of(alloc, &seal(key, iv, aad.as_slice(), text.as_mut_slice())?)
}

// The decrypted text; or the right tag, and the text as it is left.
fn opened(alloc: Global, key: &str, iv: &str, aad: &str, text: &str, tag: &str) -> Option<String> {
    let aad = bytes_of(alloc, aad)?;
    let mut text = bytes_of(alloc, text)?;
    let done = open(
        key,
        iv,
        aad.as_slice(),
        text.as_mut_slice(),
        &array_of(tag)?,
    )?;
    let text = hex_of(alloc, text.as_slice())?;
    match done {
        Ok(()) => Some(text),
        Err(fault) => {
            let computed = fault.computed;
            let computed = hex_of(alloc, &computed)?;
            format!(in alloc; "BadTag {computed} {text}").ok()
        }
    }
}
