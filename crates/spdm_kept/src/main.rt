//! The program `spdm_kept`: the call `spdm_kept` of `kept_command`, over standard input and output.
//!
//! Read first: `main` in `src/main.rt`, what is reported of an outcome.
#![tactic(auto)]

use boot_keeper::FileKeeper;
use kept_command::{Outcome, spdm_kept};
use spdm_basis::{FileSeeds, StdinSource, StdoutSink};
use std::process::ExitCode;
use std::rt::Env;
use std::{env, io};

/// Runs the command with the words after the program's name, over standard input and output; boots are counted in the
/// file `spdm.boot`. The name of each outcome but `Done` is printed to standard error, and the status is that of the
/// outcome.
fn main(rt: HostRuntime) -> ExitCode {
    let outcome = command(&rt);
    match outcome {
        Outcome::Done => {}
        _ => drop(rt.eprintln(outcome.name())),
    }
    ExitCode::from(outcome.status())
}

fn command(rt: &HostRuntime) -> Outcome {
    let Ok(words) = words(rt) else {
        return Outcome::OutOfMemory;
    };
    let mut source = StdinSource::new(rt.stdin());
    let mut sink = StdoutSink::new(rt.stdout());
    let mut seeds = FileSeeds::new(rt);
    let mut keeper = FileKeeper::new(rt);
    spdm_kept(
        rt.alloc(),
        words.as_slice(),
        &mut source,
        &mut sink,
        &mut seeds,
        &mut keeper,
    )
}

// The words that the program was started with, after its name.
fn words(rt: &(impl Env + AllocGlobal)) -> io::Result<Vec<String>> {
    let mut words = Vec::new(rt.alloc());
    for word in env::args(rt)?.skip(1) {
        words.push(word)?;
    }
    Ok(words)
}
