//! The program `spdm_device`: the call `spdm_device` of `device_command`, over standard input and output.
//!
//! Read first: `main` in `src/main.rt`, what is reported of an outcome.
#![tactic(auto)]

use device_command::{Outcome, spdm_device};
use spdm_basis::{FileSeeds, StdinSource, StdoutSink};
use std::process::ExitCode;
use std::rt::Env;
use std::{env, io};

/// Runs the command with the words after the program's name, over standard input and output. The name of each outcome
/// but `Done` is printed to standard error, and the status is that of the outcome.
fn main(rt: HostRuntime) -> ExitCode {
    let outcome = command(&rt);
    match outcome {
        Outcome::Done => {}
        _ => drop(rt.eprintln(outcome.name())),
    }
    ExitCode::from(outcome.status())
}

fn command(rt: &HostRuntime) -> Outcome {
    let Ok(words) = words(rt) else {
        return Outcome::OutOfMemory;
    };
    let mut source = StdinSource::new(rt.stdin());
    let mut sink = StdoutSink::new(rt.stdout());
    let mut seeds = FileSeeds::new(rt);
    spdm_device(
        rt.alloc(),
        words.as_slice(),
        &mut source,
        &mut sink,
        &mut seeds,
    )
}

// The words that the program was started with, after its name.
fn words(rt: &(impl Env + AllocGlobal)) -> io::Result<Vec<String>> {
    let mut words = Vec::new(rt.alloc());
    for word in env::args(rt)?.skip(1) {
        words.push(word)?;
    }
    Ok(words)
}
