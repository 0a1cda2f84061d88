ghost use Rattle.std.specs.Prelude.{◌≡◌, map, string_bytes, IfSome};
ghost use Rattle.spdm_command.specs.Words.{IsInRange, command_kept, command_named, command_of, generator};

use script_text::{MOST_GENERATED, long_number, number};

/// A command of the program.
#[derive(Clone, Copy, Debug, PartialEq, Eq)]
pub enum Command {
    /// Reads one text and writes its output.
    Text(TextCommand),
    /// A responder answers a stream of frames.
    Serve,
    /// A responder answers a stream of frames, in the life of the next boot that a keeper counts.
    ServeKept,
    /// A requester is driven by a stream of frames.
    Drive,
    /// A requester appraises its responder's measurements, on a stream of frames.
    Attest,
    /// A capture is read, and its verdict written.
    Check,
}

/// A command that reads one text whole, or none.
#[derive(Clone, Copy, Debug, PartialEq, Eq)]
pub enum TextCommand {
    /// A script is run, and its trace written.
    Run,
    /// A script in which all ends start again is run, and its trace written.
    Lives,
    /// Messages are shown, a line for each.
    Show,
    /// The script generated from `seed` and `count`, a number of events, is run, and one line of totals is written in
    /// place of its trace.
    Gen { seed: u64, count: u32 },
}

/// Parses the arguments.
pub fn command_of(words: &[String]) -> Option<Command>
    ensures is { result ≡ command_of (map string_bytes words.now) }
    ensures range { IfSome result (λ command. IsInRange command) }
{
    match words {
        [word] => command_named(word.as_str()),
        [word, kept] => command_kept(word.as_str(), kept.as_str()),
        [word, seed, count] => generator(word.as_str(), seed.as_str(), count.as_str()),
        _ => None,
    }
}

// The command of one word.
#[tactic(auto, unfolding(crate::specs::Words::command_named))]
fn command_named(word: &str) -> Option<Command>
    ensures is { result ≡ command_named word.now }
    ensures range { IfSome result (λ command. IsInRange command) }
{
    if word == "run" {
        Some(Command::Text(TextCommand::Run))
    } else if word == "lives" {
        Some(Command::Text(TextCommand::Lives))
    } else if word == "show" {
        Some(Command::Text(TextCommand::Show))
    } else if word == "serve" {
        Some(Command::Serve)
    } else if word == "drive" {
        Some(Command::Drive)
    } else if word == "attest" {
        Some(Command::Attest)
    } else if word == "check" {
        Some(Command::Check)
    } else {
        None
    }
}

// The command of two words.
#[tactic(auto, unfolding(crate::specs::Words::command_kept))]
fn command_kept(word: &str, kept: &str) -> Option<Command>
    ensures is { result ≡ command_kept word.now kept.now }
    ensures range { IfSome result (λ command. IsInRange command) }
{
    if word == "serve" && kept == "kept" {
        Some(Command::ServeKept)
    } else {
        None
    }
}

// The command of three words.
#[tactic(auto, unfolding(crate::specs::Words::generator))]
fn generator(word: &str, seed: &str, count: &str) -> Option<Command>
    ensures is { result ≡ generator word.now seed.now count.now }
    ensures range { IfSome result (λ command. IsInRange command) }
{
    if word != "gen" {
        return None;
    }
    let seed = long_number(seed.as_bytes())?;
    let count = number(1, MOST_GENERATED, count.as_bytes())?;
    Some(Command::Text(TextCommand::Gen { seed, count }))
}
