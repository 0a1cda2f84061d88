//! The program `spdm_bench`: it seals or authenticates many messages, or has a session send and answer them, so that
//! the time that this takes can be measured from outside. It tells no time itself.
//!
//! Read first: `kind_named` in `specs/Words.antt`, the work that a word asks for. The call is `Work::of`.
#![tactic(auto)]

mod answer;
mod bench_error;
mod ends;
mod repeat;
mod talk;
mod work;

use answer::{last_code, last_tag};
use bench_error::BenchError;
use ends::last_of_ends;
use std::env;
use std::rt::Env;
use talk::{last_of_records, last_of_session};
use work::{Kind, Work};

/// Does the work that the words after the program's name ask for, and prints the last tag, code or record in
/// hexadecimal.
fn main(rt: HostRuntime) -> Result<(), BenchError> {
    let work = asked(&rt)?;
    let last = match work.kind {
        Kind::Gcm => last_tag(rt.alloc(), work.size, work.count)?,
        Kind::Hmac => last_code(rt.alloc(), work.size, work.count)?,
        Kind::Session => last_of_session(rt.alloc(), work.size, few(work.count)?)?,
        Kind::Records => last_of_records(rt.alloc(), work.size, few(work.count)?)?,
        Kind::Ends => last_of_ends(rt.alloc(), work.size, work.count)?,
    };
    println!(rt; "{last}")?;
    Ok(())
}

// A count of records, which have numbers of 16 bits.
fn few(count: u64) -> Result<u16, BenchError> {
    u16::try_from(count).map_err(|_| BenchError::Usage)
}

fn asked(rt: &(impl Env + AllocGlobal)) -> Result<Work, BenchError> {
    let mut words = Vec::new(rt.alloc());
    for word in env::args(rt)?.skip(1) {
        words.push(word).map_err(|_| BenchError::OutOfMemory)?;
    }
    Work::of(words.as_slice()).ok_or(BenchError::Usage)
}
