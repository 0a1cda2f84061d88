use crate::runs::Runs;
use crate::words::{Words, bytes_of, hex_of, text_of};
use spdm_basis::Frame;
use spdm_codec::{
    Expect, Feed, FeedFault, read_request, read_response, write_request, write_response,
};
use spdm_grammar::{Malformed, Part, Request, Response};
use std::alloc::Global;

/// Messages and their readers: `q` a request, `r` a response, `s` one to a request that asked for a measurement summary.
pub fn told(alloc: Global, words: &Words<'_>) -> Option<String> {
    match words.at(0) {
        "first" => first_bytes(alloc, words.at(1)),
        what => read(alloc, what, words.at(1), &bytes_of(alloc, words.at(2))?),
    }
}

fn read(alloc: Global, what: &str, kind: &str, message: &[u8]) -> Option<String> {
    match what {
        "fault" => word_of(alloc, fault_of(kind, message)),
        "bytes" => by_bytes(alloc, kind, message),
        "halves" => by_halves(alloc, kind, message),
        "request" => request_again(alloc, message),
        "response" => response_again(alloc, message),
        "asked" => request_shown(alloc, message),
        "answered" => response_shown(alloc, message),
        _ => None,
    }
}

/// The fault that a reader finds in a message.
pub fn fault_of(kind: &str, message: &[u8]) -> Option<Malformed> {
    match kind {
        "q" => read_request(message, 32).err(),
        _ => read_response(message, 32, kind == "s").err(),
    }
}

/// A fault as a word: the place and the part, or `-` for none.
pub fn word_of(alloc: Global, fault: Option<Malformed>) -> Option<String> {
    let Some(Malformed { at, what }) = fault else {
        return text_of(alloc, "-");
    };
    let part = match what {
        Part::End => "end",
        Part::Field => "field",
        Part::Length => "length",
        Part::Rest => "rest",
    };
    format!(in alloc; "{at}:{part}").ok()
}

// A request as it is written when it was read.
fn request_again(alloc: Global, message: &[u8]) -> Option<String> {
    let message = read_request(message, 32).ok()?;
    let mut out = Frame::new();
    if !message.is_sound(32) {
        return None;
    }
    write_request(&message, 32, &mut out).ok()?;
    hex_of(alloc, out.as_slice())
}

// A response as it is written when it was read.
fn response_again(alloc: Global, message: &[u8]) -> Option<String> {
    let message = read_response(message, 32, false).ok()?;
    let mut out = Frame::new();
    if !message.is_sound(32, false) {
        return None;
    }
    write_response(&message, 32, false, &mut out).ok()?;
    hex_of(alloc, out.as_slice())
}

// Fields of a request.
fn request_shown(alloc: Global, message: &[u8]) -> Option<String> {
    match read_request(message, 32).ok()? {
        Request::GetVersion => text_of(alloc, "GetVersion"),
        Request::NegotiateAlgorithms(offer) => {
            let (hash, other, tables) = (offer.hash, offer.other, hex_of(alloc, offer.tables)?);
            format!(in alloc; "NegotiateAlgorithms {hash} {other} {tables}").ok()
        }
        Request::ChunkSend(chunk) => {
            let (last, number, large) = (chunk.last, chunk.number, chunk.large.is_some());
            let bytes = hex_of(alloc, chunk.chunk)?;
            format!(in alloc; "ChunkSend {last} {number} {large} {bytes}").ok()
        }
        _ => None,
    }
}

// A field of a response.
fn response_shown(alloc: Global, message: &[u8]) -> Option<String> {
    match read_response(message, 32, false).ok()? {
        Response::Version { entries } => hex_of(alloc, entries),
        Response::ChunkSendAck { response, .. } => hex_of(alloc, response),
        _ => None,
    }
}

const REQUEST: Expect = Expect::Request { hash_len: 32 };

const RESPONSE: Expect = Expect::Response {
    hash_len: 32,
    summary: false,
};

// What one more byte behind a message comes to.
fn one_more(alloc: Global, feed: &mut Feed) -> Option<String> {
    match feed.push(&[0]) {
        Ok(()) => word_of(alloc, None),
        Err(FeedFault::Bad(fault)) => word_of(alloc, Some(fault)),
        Err(FeedFault::TooLong) => text_of(alloc, "TooLong"),
    }
}

// A message byte by byte, and what one more comes to.
fn by_bytes(alloc: Global, kind: &str, message: &[u8]) -> Option<String> {
    let mut feed = Feed::new(if kind == "q" { REQUEST } else { RESPONSE });
    for byte in message {
        feed.push(&[*byte]).ok()?;
    }
    one_more(alloc, &mut feed)
}

// A message in two pieces, cut at each place, and what one more byte comes to.
fn by_halves(alloc: Global, kind: &str, message: &[u8]) -> Option<String> {
    let mut runs = Runs::new(alloc);
    for at in 0..message.len() {
        let (first, second) = message.split_at(at);
        let word = if kind == "q" {
            request_in_halves(alloc, first, second)?
        } else {
            response_in_halves(alloc, first, second)?
        };
        runs.take(at, word)?;
    }
    Some(runs.finish())
}

fn request_in_halves(alloc: Global, first: &[u8], second: &[u8]) -> Option<String> {
    let mut feed = Feed::new(REQUEST);
    feed.push(first).ok()?;
    feed.push(second).ok()?;
    feed.finish_request().ok()?;
    one_more(alloc, &mut feed)
}

fn response_in_halves(alloc: Global, first: &[u8], second: &[u8]) -> Option<String> {
    let mut feed = Feed::new(RESPONSE);
    feed.push(first).ok()?;
    feed.push(second).ok()?;
    feed.finish_response().ok()?;
    one_more(alloc, &mut feed)
}

// The fault of each first byte alone, and how many of two bytes are no message.
fn first_bytes(alloc: Global, kind: &str) -> Option<String> {
    let mut runs = Runs::new(alloc);
    let mut count = 0u32;
    for version in 0..=255u8 {
        runs.take(
            usize::from(version),
            word_of(alloc, fault_of(kind, &[version]))?,
        )?;
        for code in 0..=255u8 {
            if fault_of(kind, &[version, code]).is_some() {
                count = count.saturating_add(1);
            }
        }
    }
    let told = runs.finish();
    format!(in alloc; "{told} {count}").ok()
}
