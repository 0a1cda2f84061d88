//! The program `spdm_explain`: it reads a text from standard input and tells whether it is good, or its first bad line
//! with a sentence of help.
//!
//! Read first: `report_of` in `specs/Report.antt`, what is reported of a text. The call is `explain`.
#![tactic(auto)]

mod form;
mod help;
mod report;
mod run;

use run::Outcome;
use spdm_basis::{StdinSource, StdoutSink};
use std::process::ExitCode;
use std::rt::Env;
use std::{env, io};

fn main(rt: HostRuntime) -> ExitCode {
    let outcome = command(&rt);
    match outcome {
        Outcome::Good => ExitCode::from(0),
        Outcome::Bad => ExitCode::from(1),
        Outcome::Usage => {
            let _ = rt.eprintln("one of the words: script capture config lives policy");
            ExitCode::from(2)
        }
        _ => {
            let _ = rt.eprintln(
                "reading, writing or memory failed, or the text has more than 4 MiB",
            );
            ExitCode::from(3)
        }
    }
}

fn command(rt: &HostRuntime) -> Outcome {
    let Ok(words) = given(rt) else {
        return Outcome::OutOfMemory;
    };
    let mut source = StdinSource::new(rt.stdin());
    let mut sink = StdoutSink::new(rt.stdout());
    run::run(rt.alloc(), words.as_slice(), &mut source, &mut sink)
}

// The words that the program was started with, after its name.
fn given(rt: &(impl Env + AllocGlobal)) -> io::Result<Vec<String>> {
    let mut words = Vec::new(rt.alloc());
    for word in env::args(rt)?.skip(1) {
        words.push(word)?;
    }
    Ok(words)
}
