//! The program `spdm_vectors`: values of published standards and of independent programs, for cryptography and messages. It
//! reads lines, each of which asks for something, and writes for each a line of what came of it. Its input names where each
//! value comes from.
//!
//! Read first: `told` in `src/main.rt`, which gives a line to the file of its first word.
#![tactic(auto)]

mod aes_lines;
mod cut_lines;
mod draw_lines;
mod gcm_lines;
mod hash_lines;
mod key_lines;
mod mac_lines;
mod message_lines;
mod record_lines;
mod runs;
mod words;

use std::alloc::Global;
use std::io;
use std::io::{BufRead, BufReader};
use words::{Words, text_of};

/// What comes of a line: of a comment itself. None where the line asks for nothing that is known, or memory ran out.
fn told(alloc: Global, line: &str) -> Option<String> {
    if line.is_empty() || line.starts_with('#') {
        return text_of(alloc, line);
    }
    let (subject, rest) = line.split_once(' ')?;
    answer(alloc, subject, &Words::of(alloc, rest)?)
}

fn answer(alloc: Global, subject: &str, words: &Words<'_>) -> Option<String> {
    match subject {
        "aes" => aes_lines::told(alloc, words),
        "gcm" => gcm_lines::told(alloc, words),
        "mac" => mac_lines::told(alloc, words),
        "hash" => hash_lines::told(alloc, words),
        "draw" => draw_lines::told(alloc, words),
        "key" => key_lines::told(alloc, words),
        "record" => record_lines::told(alloc, words),
        "message" => message_lines::told(alloc, words),
        "cut" => cut_lines::told(alloc, words),
        _ => None,
    }
}

/// Takes the lines of standard input, one after another, and writes what comes of each as a line of standard output.
fn main(rt: HostRuntime) -> io::Result<()> {
    for line in BufReader::new(rt.alloc(), rt.reader())?.lines(rt.alloc()) {
        match told(rt.alloc(), line?.as_str()) {
            Some(told) => println!(rt; "{told}")?,
            None => println!(rt; "no answer")?,
        }
    }
    Ok(())
}
