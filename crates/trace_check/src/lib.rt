//! The check of a capture: whether a text is one whose packets its ends could have sent, and else the first packet that
//! they could not, with the reason; from the lines of the text to the lines of the verdict.
//!
//! Read first: `IsTold` in `specs/Checker.antt`, what is reported of a packet, and `HasVerdict` in
//! `specs/Answers.antt`, when a text has a verdict. The calls are `check`, over packets, and `check_input` and
//! `write_verdict`, over texts.
#![tactic(auto)]

mod answer;
mod answering;
mod bodies;
mod checker;
mod checking;
mod input;
mod judged_pair;
mod ordering;
mod text;
mod writing;

pub use answer::{CheckAnswer, CheckFault};
pub use answering::Answering;
pub use checker::Checker;
pub use checking::check;
pub use input::check_input;
pub use judged_pair::JudgedPair;
pub use text::check_text;
pub use writing::write_verdict;
