//! The stream of draws of a seed. Which messages take one is computed in the rows `draws` and `no_draws` of
//! `responder_machine/proofs/PinnedCounts.antt`.
use crate::words::{Words, array_of, hex_of};
use hmac_hkdf::{DrawStream, Spent};
use std::alloc::Global;

/// Draws of a seed.
pub fn told(alloc: Global, words: &Words<'_>) -> Option<String> {
    match words.at(0) {
        "first" => first(alloc, words.at(1)),
        "at" => at(alloc, words.at(1), words.at(2)),
        "next" => next(alloc, words.at(1), words.at(2)),
        _ => None,
    }
}

fn first(alloc: Global, seed: &str) -> Option<String> {
    drawn(alloc, &DrawStream::new(array_of(seed)?))
}

fn at(alloc: Global, seed: &str, number: &str) -> Option<String> {
    drawn(alloc, &stream_of(seed, number)?)
}

fn stream_of(seed: &str, number: &str) -> Option<DrawStream> {
    Some(DrawStream::from_number(array_of(seed)?, number.parse().ok()?))
}

// The number and the bytes of the next draw, which stays the next.
fn drawn(alloc: Global, stream: &DrawStream) -> Option<String> {
    let drawn = stream.peek();
    if stream.peek() != drawn {
        return None;
    }
    let (number, bytes) = (drawn.number, hex_of(alloc, &drawn.bytes)?);
    format!(in alloc; "{number} {bytes}").ok()
}

// The draw after the next, or the last one once more.
fn next(alloc: Global, seed: &str, number: &str) -> Option<String> {
    let mut stream = stream_of(seed, number)?;
    let done = match stream.advance() {
        Ok(()) => "then",
        Err(Spent) => "Spent",
    };
    let drawn = drawn(alloc, &stream)?;
    format!(in alloc; "{done} {drawn}").ok()
}
