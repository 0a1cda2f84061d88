ghost use Rattle.std.specs.Prelude.{◌≡◌, map, string_bytes};
ghost use Rattle.kept_command.specs.Words.{command_named, command_of};

/// A command of a requester of which the boots are counted.
#[derive(Clone, Copy, Debug, PartialEq, Eq)]
pub(crate) enum Command {
    /// It is driven by a stream of frames.
    Drive,
    /// It appraises its responder's measurements, on a stream of frames.
    Attest,
}

/// Parses the arguments.
pub(crate) fn command_of(words: &[String]) -> Option<Command>
    ensures { result ≡ command_of (map string_bytes words.now) }
{
    match words {
        [word] => command_named(word.as_str()),
        _ => None,
    }
}

// The command of one word.
#[tactic(auto, unfolding(crate::specs::Words::command_named))]
fn command_named(word: &str) -> Option<Command>
    ensures { result ≡ command_named word.now }
{
    if word == "drive" {
        Some(Command::Drive)
    } else if word == "attest" {
        Some(Command::Attest)
    } else {
        None
    }
}
