use crate::words::{Words, bytes_of, hash_of, hex_of, number_of};
use spdm_basis::HashBytes;
use std::alloc::Global;
use std::fmt::Write;
use transcript::{Lane, Vca};

/// Hashes, and what of a transcript is kept whole.
pub fn told(alloc: Global, words: &Words<'_>) -> Option<String> {
    match words.at(0) {
        "pieces" => pieces(alloc, words.at(1), words.at(2), words.at(3)),
        "copy" => copied(alloc, words.at(1), words.at(2), words.at(3)),
        "kept" => kept(alloc, words.at(1), words.at(2)),
        "sizes" => sizes(alloc, words.at(1)),
        _ => None,
    }
}

// The hash of two pieces.
fn pieces(alloc: Global, hash: &str, first: &str, second: &str) -> Option<String> {
    let mut lane = Lane::new(hash_of(hash)?);
    lane.push(&bytes_of(alloc, first)?);
    lane.push(&bytes_of(alloc, second)?);
    hex_of(alloc, lane.finish().as_slice())
}

// The hash of the first piece, by a copy, and that of both.
fn copied(alloc: Global, hash: &str, first: &str, second: &str) -> Option<String> {
    let mut lane = Lane::new(hash_of(hash)?);
    lane.push(&bytes_of(alloc, first)?);
    let so_far = hex_of(alloc, lane.clone().ok()?.finish().as_slice())?;
    lane.push(&bytes_of(alloc, second)?);
    let whole = hex_of(alloc, lane.finish().as_slice())?;
    format!(in alloc; "{so_far} {whole}").ok()
}

// Two messages of a negotiation, and what is left of them when they are cleared.
fn kept(alloc: Global, first: &str, second: &str) -> Option<String> {
    let (first, second) = (bytes_of(alloc, first)?, bytes_of(alloc, second)?);
    let mut vca = Vca::new();
    if first.len() > 4096 || second.len() > 4096 {
        return None;
    }
    vca.push(&first);
    vca.push(&second);
    let held = hex_of(alloc, vca.as_slice())?;
    vca.clear();
    let left = hex_of(alloc, vca.as_slice())?;
    format!(in alloc; "{held} {left}").ok()
}

// The lengths up to this one that a hash can have.
fn sizes(alloc: Global, most: &str) -> Option<String> {
    let bytes = bytes_of(alloc, "5a*64")?;
    let mut told = String::new(alloc);
    for size in 0..=number_of(most)? {
        if HashBytes::new(bytes.as_slice().get(..size)?).is_some() {
            write!(told, "{size};").ok()?;
        }
    }
    Some(told)
}
