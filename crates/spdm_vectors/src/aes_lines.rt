use crate::words::{Words, array_of, bytes_of, hex_of, number_of, text_of};
use aes::{Aes, encrypt_step_by_step, expand_key};
use ghash::{HashKey, multiply};
use std::alloc::Global;

/// The block cipher, and the product of blocks.
pub fn told(alloc: Global, words: &Words<'_>) -> Option<String> {
    match words.at(0) {
        "block" => encrypted(alloc, words.at(1), words.at(2)),
        "keys" => expanded(alloc, words.at(1)),
        "chain" => ciphers(alloc, words.at(1)),
        "product" => product(alloc, words.at(1), words.at(2)),
        "products" => products(alloc, words.at(1), words.at(2), words.at(3)),
        _ => None,
    }
}

// A block enciphered under a key.
fn encrypted(alloc: Global, key: &str, block: &str) -> Option<String> {
    let key = bytes_of(alloc, key)?;
    let block = array_of(block)?;
    if key.len() != 16 && key.len() != 32 {
        return None;
    }
    hex_of(alloc, &Aes::new(&key).encrypt(&block))
}

// A key with all round keys behind it.
fn expanded(alloc: Global, key: &str) -> Option<String> {
    let key = bytes_of(alloc, key)?;
    if key.len() != 16 && key.len() != 32 {
        return None;
    }
    hex_of(alloc, expand_key(&key).as_slice())
}

// Whether the cipher by tables and that step by step do the same, on so many blocks that come of one another.
fn ciphers(alloc: Global, count: &str) -> Option<String> {
    let mut block = [0; 16];
    let mut key = [0; 32];
    let mut is_same = true;
    for _ in 0..number_of(count)? {
        let short = Aes::new(&block).encrypt(&block);
        is_same = is_same && short == encrypt_step_by_step(&block, &block);
        key[..16].copy_from_slice(&block);
        key[16..].copy_from_slice(&short);
        block = Aes::new(&key).encrypt(&short);
        is_same = is_same && block == encrypt_step_by_step(&key, &short);
    }
    text_of(alloc, if is_same { "same" } else { "different" })
}

// The product of two blocks, bit by bit and by tables.
fn product(alloc: Global, first: &str, second: &str) -> Option<String> {
    let first = u128::from_be_bytes(array_of(first)?);
    let second = u128::from_be_bytes(array_of(second)?);
    let (plain, fast) = (multiply(first, second), HashKey::new(second).times(first));
    format!(in alloc; "{plain:032x} {fast:032x}").ok()
}

// Whether the product by tables and that bit by bit are the same, on so many blocks that come of one another.
fn products(alloc: Global, first: &str, second: &str, count: &str) -> Option<String> {
    let mut block = u128::from_be_bytes(array_of(first)?);
    let mut key = u128::from_be_bytes(array_of(second)?);
    let mut is_same = true;
    for _ in 0..number_of(count)? {
        let product = multiply(block, key);
        is_same = is_same && HashKey::new(key).times(block) == product;
        key = block ^ 1;
        block = product;
    }
    text_of(alloc, if is_same { "same" } else { "different" })
}
