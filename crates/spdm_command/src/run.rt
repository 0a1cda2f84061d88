ghost use Rattle.std.specs.Prelude.{◌≡◌, ◌≢◌, ◌≤◌, ◌<◌, ◌↔◌, ◌⊎◌, [], ℕ, List, Some, None, IsSome, true, false, length};
ghost use Rattle.attest_command.specs.InputEnds as attesting;
ghost use Rattle.lives_laws.specs.TextLives.{LivesApartIn, LivesHoldIn};
ghost use Rattle.script_text.specs.Reading.{bad_line_in};
ghost use Rattle.script_text.specs.ScriptText.{capture_in};
ghost use Rattle.script_text.specs.declared.texts.faults.LineFault.{LineFault};
ghost use Rattle.script_text.specs.declared.texts.script.Capture.{Capture};
ghost use Rattle.script_laws.specs.Refused.{RefusesIn};
ghost use Rattle.script_laws.specs.Worlds.{AgreesIn, CompletesIn, DeliversIn, HoldsOf, MatchesAtPacketsIn, MatchesIn, SealsOnceIn, ShowsAlikeIn};
ghost use Rattle.script_text.specs.Generator.{generated};
ghost use Rattle.spdm_basis.specs.Stream.{HasFault, IsQuiet, Takes, TakesPrefix};
ghost use Rattle.trace_check.specs.Answers.{Finding, HasFinding, IsCapture};
ghost use Rattle.spdm_command.specs.Answer.{IsLeft, IsReadQuietly, answer_to, bad_line_by, full_by, input_by, is_of_scripts, output_by, ran, reads, runs_script, text_limit, writes_nothing};
ghost use Rattle.spdm_command.specs.Checks.{IsChecked, IsJudgedExactly, is_judged, is_of_captures, outcome_for};
ghost use Rattle.spdm_command.specs.Streams.{IsAttested, IsAttestedFor, IsDriven, IsServed, IsServedKept, answers_stream, asks_keeper, attests, is_of_keepers, is_of_streams, is_of_verdicts, is_unasked, outcome_of, outcome_of_kept};
ghost use Rattle.spdm_command.specs.Words.{call_of};
ghost use Rattle.spdm_command.specs.declared.words.Command.TheVariants.{Attest, Check, Drive, Serve, ServeKept, Text};
ghost use Rattle.spdm_command.specs.declared.words.TextCommand.TheVariants.{Gen};
ghost use Rattle.stream_commands.specs.InputEnds.{HasEnd, InputEnd, IsStreamToDrive, IsStreamToServe, answer_for};
ghost use Rattle.stream_commands.specs.Kept as kept;
ghost use Rattle.stream_commands.specs.Kept.{keeper_state};
ghost use Rattle.stream_commands.specs.Outside.{outside};

use crate::checks::check_capture;
use crate::outcome::Outcome;
use crate::output::{TextFault, write_output};
use crate::reading::read_text;
use crate::streams::{attest_stream, drive_stream, serve_kept_stream, serve_stream};
use crate::words::{Command, command_of};
use boot_keeper::Keeper;
use link_world::World;
use spdm_basis::{InFault, Seeds, Sink, Source};
use std::alloc::Global;

/// The command `spdm` with these arguments. `run` reads a script, runs its requesters and its responder over its link,
/// writes their trace, and leaves the final world in `left`. `lives` does the same with a script in which all ends start
/// again at each `cycle`. `show` reads messages, one per line, and writes their names and lengths. `gen SEED COUNT` runs
/// the script generated from a seed below 2^64 and a count of 1 to 20,000 events, writes one line of totals in place of
/// the trace, and leaves the final world in `left`. `serve` reads a configuration up to the line `end`, takes one seed
/// from `seeds`, and answers the frames behind that line as the configured responder; `serve kept` does so in the life of
/// the next boot of `keeper`, which it asks for behind the seed. `drive` does the same as `serve` with the first
/// configured requester, whose commands are frames too. `attest` reads a policy behind the configuration, up to the line
/// `go`, and has that requester measure its responder, up to a verdict. `check` reads a capture, and writes whether its
/// endpoints could have produced it. Only commands on streams use `seeds`, and only `serve kept` uses `keeper`.
#[tactic(auto, using(crate::proofs::TopCall::read_is))]
pub fn spdm<S: Source, K: Sink, E: Seeds, P: Keeper>(
    alloc: Global,
    words: &[String],
    source: &mut S,
    sink: &mut K,
    seeds: &mut E,
    left: &mut Option<World>,
    keeper: &mut P,
) -> Outcome
    // Done: the source was read to its end, and the sink holds what it held and then the whole output.
    ensures read_to_end { result ≡ Outcome.Done → (text : List ℕ)
        → input_by (call_of words.now) (S.remaining source.old) ≡ Some text
        → input_by (call_of words.now) (S.remaining source.new) ≡ Some [] }
    ensures whole_output { result ≡ Outcome.Done → (text : List ℕ)
        → input_by (call_of words.now) (S.remaining source.old) ≡ Some text
        → Takes (K.contents sink.old) (output_by (call_of words.now) text)
        (K.contents sink.new) }

    // With any answer the sink holds what it held and a prefix of the output, and with some of them nothing more.
    ensures prefix { (text : List ℕ)
        → input_by (call_of words.now) (S.remaining source.old) ≡ Some text
        → TakesPrefix (K.contents sink.old)
        (output_by (call_of words.now) text) (K.contents sink.new) }
    ensures nothing_written { answers_stream (call_of words.now) ≡ false
        → writes_nothing result ≡ true → sink.new ≡ sink.old }

    // Where a packet finds the link full, all that stands before its line was written.
    ensures link_full { (line : ℕ) → result ≡ Outcome.LinkFull line → (text : List ℕ)
        → input_by (call_of words.now) (S.remaining source.old) ≡ Some text
        → full_by (call_of words.now) text ≡ Some line }
    ensures before_full { (line : ℕ) → result ≡ Outcome.LinkFull line → (text : List ℕ)
        → input_by (call_of words.now) (S.remaining source.old) ≡ Some text
        → Takes (K.contents sink.old) (output_by (call_of words.now) text)
        (K.contents sink.new) }
    ensures of_scripts_alone { is_of_scripts result ≡ true
        → runs_script (call_of words.now) ≡ true }
    ensures room { result ≡ Outcome.Done → (text : List ℕ)
        → input_by (call_of words.now) (S.remaining source.old) ≡ Some text
        → full_by (call_of words.now) text ≡ None }

    // What is left stands for the last world of the script, of lives for that of the last; with any other answer it is as before.
    ensures left { result ≡ Outcome.Done → (text : List ℕ)
        → input_by (call_of words.now) (S.remaining source.old) ≡ Some text
        → IsLeft (call_of words.now) text left.old left.new }
    ensures left_as_before { result ≢ Outcome.Done → left.new ≡ left.old }
    ensures no_seed { answers_stream (call_of words.now) ≡ false
        → seeds.new ≡ seeds.old }

    // The word `serve`: all whole frames of the stream are answered, in order, by the responder of the configuration
    // with the one seed that was taken; with each other answer what was written tells how far.
    ensures served { call_of words.now ≡ Some Serve → IsServed
        (outside (S.remaining source.old) (K.contents sink.old) (E.left seeds.old)
        (S.faults source.old) (K.faults sink.old) (E.faults seeds.old))
        (outside (S.remaining source.new) (K.contents sink.new) (E.left seeds.new)
        (S.faults source.new) (K.faults sink.new) (E.faults seeds.new)) result }
    ensures served_exactly { call_of words.now ≡ Some Serve
        → (input : List ℕ) (end : InputEnd) → S.remaining source.old ≡ Some input
        → HasEnd IsStreamToServe input end → IsQuiet (S.faults source.old) (S.faults source.new)
        → IsQuiet (K.faults sink.old) (K.faults sink.new)
        → IsQuiet (E.faults seeds.old) (E.faults seeds.new)
        → (result ≡ Outcome.OutOfMemory) ⊎ (result ≡ outcome_of (answer_for end)) }

    // The words `serve kept`: likewise the responder in the life of the next boot of the keeper, which no other command
    // asks for.
    ensures served_kept { call_of words.now ≡ Some ServeKept → IsServedKept
        (keeper_state (P.contents keeper.old) (P.faults keeper.old))
        (keeper_state (P.contents keeper.new) (P.faults keeper.new))
        (outside (S.remaining source.old) (K.contents sink.old) (E.left seeds.old)
        (S.faults source.old) (K.faults sink.old) (E.faults seeds.old))
        (outside (S.remaining source.new) (K.contents sink.new) (E.left seeds.new)
        (S.faults source.new) (K.faults sink.new) (E.faults seeds.new)) result }
    ensures served_kept_exactly { call_of words.now ≡ Some ServeKept
        → (input device : List ℕ) (end : InputEnd) → S.remaining source.old ≡ Some input
        → P.contents keeper.old ≡ Some device → HasEnd IsStreamToServe input end
        → IsQuiet (S.faults source.old) (S.faults source.new)
        → IsQuiet (K.faults sink.old) (K.faults sink.new)
        → IsQuiet (E.faults seeds.old) (E.faults seeds.new)
        → IsQuiet (P.faults keeper.old) (P.faults keeper.new)
        → (result ≡ Outcome.OutOfMemory)
        ⊎ (result ≡ outcome_of_kept (kept.answer_for device end)) }
    ensures keeper_alone { asks_keeper (call_of words.now) ≡ false → keeper.new ≡ keeper.old }
    ensures unasked { is_unasked result ≡ true → keeper.new ≡ keeper.old }
    ensures of_keepers_alone { is_of_keepers result ≡ true
        → asks_keeper (call_of words.now) ≡ true }

    // The word `drive`: likewise the first requester of the configuration is told and given all whole frames.
    ensures driven { call_of words.now ≡ Some Drive → IsDriven
        (outside (S.remaining source.old) (K.contents sink.old) (E.left seeds.old)
        (S.faults source.old) (K.faults sink.old) (E.faults seeds.old))
        (outside (S.remaining source.new) (K.contents sink.new) (E.left seeds.new)
        (S.faults source.new) (K.faults sink.new) (E.faults seeds.new)) result }
    ensures driven_exactly { call_of words.now ≡ Some Drive
        → (input : List ℕ) (end : InputEnd) → S.remaining source.old ≡ Some input
        → HasEnd IsStreamToDrive input end → IsQuiet (S.faults source.old) (S.faults source.new)
        → IsQuiet (K.faults sink.old) (K.faults sink.new)
        → IsQuiet (E.faults seeds.old) (E.faults seeds.new)
        → (result ≡ Outcome.OutOfMemory) ⊎ (result ≡ outcome_of (answer_for end)) }

    // The word `attest`: the first requester of the configuration measures its responder over all whole frames, up to a
    // verdict under the policy behind the configuration.
    ensures attested { call_of words.now ≡ Some Attest → IsAttested
        (outside (S.remaining source.old) (K.contents sink.old) (E.left seeds.old)
        (S.faults source.old) (K.faults sink.old) (E.faults seeds.old))
        (outside (S.remaining source.new) (K.contents sink.new) (E.left seeds.new)
        (S.faults source.new) (K.faults sink.new) (E.faults seeds.new)) result }
    ensures attested_exactly { call_of words.now ≡ Some Attest
        → (input : List ℕ) (end : InputEnd) → S.remaining source.old ≡ Some input
        → attesting.HasEnd input end → IsQuiet (S.faults source.old) (S.faults source.new)
        → IsQuiet (K.faults sink.old) (K.faults sink.new)
        → IsQuiet (E.faults seeds.old) (E.faults seeds.new)
        → (result ≡ Outcome.OutOfMemory) ⊎ IsAttestedFor end result }
    ensures of_verdicts_alone { is_of_verdicts result ≡ true → attests (call_of words.now) ≡ true }

    // The word `check`: the verdict on the capture that the source has is told, and its lines are written; or why there
    // is none.
    ensures checked { call_of words.now ≡ Some Check → (text : List ℕ)
        → S.remaining source.old ≡ Some text
        → IsChecked text (K.contents sink.old) (K.contents sink.new) result }
    ensures checked_exactly { call_of words.now ≡ Some Check
        → (text : List ℕ) (found : Finding) → S.remaining source.old ≡ Some text
        → HasFinding text found → IsQuiet (S.faults source.old) (S.faults source.new)
        → IsQuiet (K.faults sink.old) (K.faults sink.new)
        → (result ≡ Outcome.OutOfMemory) ⊎ (result ≡ outcome_for found) }
    ensures judged_exactly { call_of words.now ≡ Some Check
        → (text : List ℕ) (capture : Capture) → S.remaining source.old ≡ Some text
        → IsCapture text capture → IsQuiet (S.faults source.old) (S.faults source.new)
        → IsQuiet (K.faults sink.old) (K.faults sink.new)
        → (result ≡ Outcome.OutOfMemory) ⊎ IsJudgedExactly capture result }
    ensures each_capture_judged { call_of words.now ≡ Some Check
        → (text : List ℕ) → S.remaining source.old ≡ Some text
        → length text ≤ text_limit → bad_line_in (capture_in text) ≡ None
        → IsQuiet (S.faults source.old) (S.faults source.new)
        → IsQuiet (K.faults sink.old) (K.faults sink.new)
        → (result ≡ Outcome.OutOfMemory) ⊎ (is_judged result ≡ true) }
    ensures capture_read { call_of words.now ≡ Some Check
        → is_judged result ≡ true → (text : List ℕ) → S.remaining source.old ≡ Some text
        → S.remaining source.new ≡ Some [] }
    ensures check_leaves_nothing { call_of words.now ≡ Some Check
        → left.new ≡ left.old }
    ensures check_without_memory { call_of words.now ≡ Some Check
        → result ≡ Outcome.OutOfMemory → sink.new ≡ sink.old }
    ensures of_captures_alone { is_of_captures result ≡ true
        → call_of words.now ≡ Some Check }

    ensures leaves_nothing { answers_stream (call_of words.now) ≡ true
        → left.new ≡ left.old }
    ensures of_streams_alone { is_of_streams result ≡ true
        → answers_stream (call_of words.now) ≡ true }

    // The headline, of each script that the source has: after each beginning of its events, without chance up to there;
    // and at each of its events.
    ensures agreement { (text : List ℕ) → S.remaining source.old ≡ Some text
        → AgreesIn text × ShowsAlikeIn text }
    ensures data_prefix { (text : List ℕ) → S.remaining source.old ≡ Some text → DeliversIn text }
    ensures matched { (text : List ℕ) → S.remaining source.old ≡ Some text → MatchesIn text }
    ensures at_each_packet { (text : List ℕ) → S.remaining source.old ≡ Some text
        → MatchesAtPacketsIn text }
    ensures sealed_once { (text : List ℕ) → S.remaining source.old ≡ Some text → SealsOnceIn text }
    ensures refused { (text : List ℕ) → S.remaining source.old ≡ Some text → RefusesIn text }

    // And of each text of lives: over all lives, without chance; and that no transcript comes twice, whatever agrees.
    ensures nothing_old { (text : List ℕ) → S.remaining source.old ≡ Some text → LivesHoldIn text }
    ensures no_transcript_twice { (text : List ℕ) → S.remaining source.old ≡ Some text
        → LivesApartIn text }

    // Where delivery is honest, each command that could be done is done.
    ensures completes { (text : List ℕ) → S.remaining source.old ≡ Some text → CompletesIn text }

    // And of the script that `gen` makes.
    ensures generated { (seed count : ℕ) → call_of words.now ≡ Some (Text (Gen seed count))
        → HoldsOf (generated seed count) }

    // Each answer comes at its cause.
    ensures usage { (result ≡ Outcome.Usage) ↔ (call_of words.now ≡ None) }
    ensures nothing_read { reads (call_of words.now) ≡ false
        → source.new ≡ source.old }
    ensures bad_script { (line : ℕ) (fault : LineFault) → result ≡ Outcome.BadScript line fault
        → (text : List ℕ)
        → input_by (call_of words.now) (S.remaining source.old) ≡ Some text
        → (length text ≤ text_limit)
        × (bad_line_by (call_of words.now) text
        ≡ Some (record { line = line; fault = fault })) }
    ensures script { ran result ≡ true → (text : List ℕ)
        → input_by (call_of words.now) (S.remaining source.old) ≡ Some text
        → (length text ≤ text_limit)
        × (bad_line_by (call_of words.now) text ≡ None) }
    ensures too_long { result ≡ Outcome.TooLong → (text : List ℕ)
        → input_by (call_of words.now) (S.remaining source.old) ≡ Some text
        → text_limit < length text }
    ensures read_fault { result ≡ Outcome.ReadFault
        → (reads (call_of words.now) ≡ true)
        × HasFault (S.faults source.old) (S.faults source.new) }
    ensures write_fault { result ≡ Outcome.WriteFault
        → HasFault (K.faults sink.old) (K.faults sink.new) }

    // Where nothing fails, the answer is that to the words and the text, unless memory runs out.
    ensures exact { (text : List ℕ)
        → input_by (call_of words.now) (S.remaining source.old) ≡ Some text
        → IsReadQuietly (call_of words.now) (S.faults source.old) (S.faults source.new)
        → IsQuiet (K.faults sink.old) (K.faults sink.new)
        → (result ≡ Outcome.OutOfMemory)
        ⊎ (result ≡ answer_to (call_of words.now) text) }
    ensures complete { (text : List ℕ)
        → input_by (call_of words.now) (S.remaining source.old) ≡ Some text
        → IsReadQuietly (call_of words.now) (S.faults source.old) (S.faults source.new)
        → IsQuiet (K.faults sink.old) (K.faults sink.new)
        → IsSome (call_of words.now) → length text ≤ text_limit
        → bad_line_by (call_of words.now) text ≡ None
        → full_by (call_of words.now) text ≡ None
        → (result ≡ Outcome.Done) ⊎ (result ≡ Outcome.OutOfMemory) }
{
    let Some(command) = command_of(words) else {
        return Outcome::Usage;
    };
    let command = match command {
        Command::Text(command) => command,
        Command::Serve => return serve_stream(alloc, source, sink, seeds),
        Command::ServeKept => {
            return serve_kept_stream(alloc, source, sink, seeds, keeper);
        }
        Command::Drive => return drive_stream(alloc, source, sink, seeds),
        Command::Attest => return attest_stream(alloc, source, sink, seeds),
        Command::Check => return check_capture(alloc, source, sink),
    };
    let text = match read_text(alloc, command, source) {
        Ok(text) => text,
        Err(InFault::ReadFault) => return Outcome::ReadFault,
        Err(InFault::TooLong) => return Outcome::TooLong,
        Err(InFault::OutOfMemory) => return Outcome::OutOfMemory,
    };
    match write_output(alloc, command, text.as_slice(), sink, left) {
        Ok(()) => Outcome::Done,
        Err(TextFault::Line(line, fault)) => Outcome::BadScript { line, fault },
        Err(TextFault::LinkFull(line)) => Outcome::LinkFull { line },
        Err(TextFault::WriteFault) => Outcome::WriteFault,
        Err(TextFault::OutOfMemory) => Outcome::OutOfMemory,
    }
}
