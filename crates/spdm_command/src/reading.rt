ghost use Rattle.std.specs.Prelude.{◌≡◌, ◌≤◌, ◌<◌, [], ℕ, List, Some, true, false, length, IfOk, IsErrOf, OnErr, OnOk};
ghost use Rattle.spdm_basis.specs.Stream.{HasFault};
ghost use Rattle.spdm_command.specs.Answer.{IsReadQuietly, input_of, reads, text_limit};
ghost use Rattle.spdm_command.specs.declared.words.Command.TheVariants.{Text};

use crate::words::TextCommand;
use script_text::TEXT_LIMIT;
use spdm_basis::{Bytes, InFault, Source, read_all};
use std::alloc::Global;

/// Reads a command's input, up to 4 MiB; empty for a command without input.
pub fn read_text<S: Source>(
    alloc: Global,
    command: TextCommand,
    source: &mut S,
) -> Result<Bytes, InFault>
    ensures whole { IfOk result (λ bytes. (text : List ℕ)
        → input_of command (S.remaining source.old) ≡ Some text → bytes ≡ text) }
    ensures within { IfOk result (λ bytes. length bytes ≤ text_limit) }
    ensures end { OnOk result ((text : List ℕ)
        → input_of command (S.remaining source.old) ≡ Some text
        → input_of command (S.remaining source.new) ≡ Some []) }
    ensures nothing { reads (Some (Text command)) ≡ false → source.new ≡ source.old }
    ensures too_long { IsErrOf result InFault.TooLong → (text : List ℕ)
        → input_of command (S.remaining source.old) ≡ Some text → text_limit < length text }
    ensures read_fault { IsErrOf result InFault.ReadFault → (reads (Some (Text command)) ≡ true)
        × HasFault (S.faults source.old) (S.faults source.new) }
    ensures noisy { IsErrOf result InFault.ReadFault
        → IsReadQuietly (Some (Text command)) (S.faults source.old) (S.faults source.new) → ⊥ }
{
    match command {
        TextCommand::Run => read_all(alloc, source, TEXT_LIMIT),
        TextCommand::Lives => read_all(alloc, source, TEXT_LIMIT),
        TextCommand::Show => read_all(alloc, source, TEXT_LIMIT),
        TextCommand::Gen { .. } => Ok(Bytes::new(alloc)),
    }
}
