//! The program `spdm_cases`: it runs the command `spdm` on many words and inputs that lie beside it, and tells what each came
//! to, for a comparison with what an independent program says of them.
//!
//! Read first: `Directive` in `src/directive.rt`, what a line of its input asks for. The call is `Bench::take`.
#![tactic(auto)]

mod bench;
mod capture;
mod case;
mod case_error;
mod directive;
mod hostile;
mod told;

use bench::Bench;
use case_error::CaseError;
use std::io::{BufRead, BufReader};

/// Takes the lines of standard input, one after another, and tells on standard output what the cases came to.
fn main(rt: HostRuntime) -> Result<(), CaseError> {
    let mut bench = Bench::new(&rt);
    for line in BufReader::new(rt.alloc(), rt.reader())?.lines(rt.alloc()) {
        bench.take(&rt, line?.as_str())?;
    }
    Ok(())
}
