ghost use Rattle.std.specs.Prelude.{◌≡◌, ◌≤◌, ◌++◌, ◌∷◌, [], codes, length, string_bytes, IfOk};
ghost use Rattle.std.specs.Fmt.{decimal};
ghost use Rattle.spdm_explain.specs.Report.{IsTold, said_of, report_text};

use crate::form::Form;
use crate::help::{help_of, name_of};
use script_text::{
    LineFault, ScriptFault, TEXT_LIMIT, parse_capture, parse_config, parse_lives, parse_policy,
    parse_script,
};
use std::alloc::{AllocError, Global};

/// What is reported of a text.
#[derive(Clone, Copy, Debug, PartialEq, Eq)]
pub enum Report {
    /// No line is bad.
    Good,
    /// The first bad line and its first fault.
    Bad { line: u32, fault: LineFault },
    /// Out of memory.
    OutOfMemory,
}

// What the answer of a reader comes to.
macro_rules! report {
    ($answer:expr) => {
        match $answer {
            Ok(_) => Report::Good,
            Err(ScriptFault::Line(line, fault)) => Report::Bad { line, fault },
            Err(ScriptFault::TooManyEvents(line)) => Report::Bad {
                line,
                fault: LineFault::TooManyEvents,
            },
            Err(ScriptFault::OutOfMemory) => Report::OutOfMemory,
        }
    };
}

/// What is reported of a text of a form: the answer of its reader.
pub fn explain(alloc: Global, form: Form, text: &[u8]) -> Report
    requires { length text.now ≤ TEXT_LIMIT }
    ensures { IsTold (said_of form text.now) result }
{
    match form {
        Form::Script => report!(parse_script(alloc, text)),
        Form::Capture => report!(parse_capture(alloc, text)),
        Form::Config => report!(parse_config(alloc, text)),
        Form::Lives => report!(parse_lives(alloc, text)),
        Form::Policy => report!(parse_policy(alloc, text, 1)),
    }
}

impl Report {
    ghost use Rattle.std.specs.Prelude.{◌≡◌, string_bytes, IfOk};
    ghost use Rattle.spdm_explain.specs.Report.{report_text};

    /// What is written of a report.
    #[tactic(auto, unfolding(crate::specs::Report::report_text))]
    pub fn text(self, alloc: Global) -> Result<String, AllocError>
        ensures { IfOk result (λ text. string_bytes text ≡ report_text self) }
    {
        match self {
            Report::Good => String::from_str(alloc, "good\n"),
            Report::Bad { line, fault } => bad_text(alloc, line, name_of(fault), help_of(fault)),
            Report::OutOfMemory => Ok(String::new(alloc)),
        }
    }
}

// What is written of a bad line.
fn bad_text(alloc: Global, line: u32, name: &str, help: &str) -> Result<String, AllocError>
    ensures { IfOk result (λ text. string_bytes text ≡ codes "line " ++ decimal line
        ++ codes ": " ++ name.now ++ 10 ∷ [] ++ help.now ++ 10 ∷ []) }
{
    let mut text = String::from_str(alloc, "line ")?;
    text.push_str(line.to_string(alloc)?.as_str())?;
    text.push_str(": ")?;
    text.push_str(name)?;
    text.push_str("\n")?;
    text.push_str(help)?;
    text.push_str("\n")?;
    Ok(text)
}
