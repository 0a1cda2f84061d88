ghost use Rattle.std.specs.Prelude.{◌≡◌, ◌≤◌, ◌⊎◌, List, ℕ, Err, Some, true};
ghost use Rattle.attest_command.specs.InputEnds.{Answers, HasEnd};
ghost use Rattle.attest_command.specs.Outcome.{IsAnsweredKept};
ghost use Rattle.spdm_basis.specs.Stream.{IsQuiet};
ghost use Rattle.stream_commands.specs.InputEnds.{InputEnd};
ghost use Rattle.stream_commands.specs.Kept.{KeptAnswers, is_unasked, keeper_state};
ghost use Rattle.stream_commands.specs.Outside.{outside};
ghost use Rattle.stream_commands.specs.declared.fault.StreamFault.TheVariants.{OutOfMemory};

use crate::attesting::attest_behind;
use crate::begin::{AttestStart, begin};
use crate::parsing::Parsed;
use appraise::Appraisal;
use boot_keeper::{Keeper, next_boot};
use spdm_basis::{Seeds, Sink, Source};
use std::alloc::Global;
use stream_commands::KeptFault;

/// Does what `attest_input` does, in the life of the next boot of a keeper. It is asked for, once, behind the seed, so that
/// a requester which starts again with an old seed repeats no draw, and believes no answer that was recorded.
///
/// A fault of the texts, or no seed, leaves the keeper alone. `Boot` comes with the seed gone, and before the first request.
pub fn attest_kept_input<S: Source, K: Sink, E: Seeds, P: Keeper>(
    alloc: Global,
    source: &mut S,
    sink: &mut K,
    seeds: &mut E,
    keeper: &mut P,
) -> Result<Option<Appraisal>, KeptFault>
    ensures answers { IsAnsweredKept (keeper_state (P.contents keeper.old) (P.faults keeper.old))
        (keeper_state (P.contents keeper.new) (P.faults keeper.new))
        (outside (S.remaining source.old) (K.contents sink.old) (E.left seeds.old)
        (S.faults source.old) (K.faults sink.old) (E.faults seeds.old))
        (outside (S.remaining source.new) (K.contents sink.new) (E.left seeds.new)
        (S.faults source.new) (K.faults sink.new) (E.faults seeds.new)) result }
    ensures unasked { is_unasked result ≡ true → keeper.new ≡ keeper.old }

    // Where nothing fails, the answer is one to the end of the input and to the device, unless memory runs out.
    ensures exact { (input device : List ℕ) (end : InputEnd) → S.remaining source.old ≡ Some input
        → P.contents keeper.old ≡ Some device → HasEnd input end
        → IsQuiet (S.faults source.old) (S.faults source.new)
        → IsQuiet (K.faults sink.old) (K.faults sink.new)
        → IsQuiet (E.faults seeds.old) (E.faults seeds.new)
        → IsQuiet (P.faults keeper.old) (P.faults keeper.new)
        → (result ≡ Err (KeptFault.Stream OutOfMemory)) ⊎ KeptAnswers Answers device end result }
    ensures read_later { S.faults source.old ≤ S.faults source.new }
    ensures written_later { K.faults sink.old ≤ K.faults sink.new }
    ensures seeded_later { E.faults seeds.old ≤ E.faults seeds.new }
    ensures kept_later { P.faults keeper.old ≤ P.faults keeper.new }
{
    let begun = match begin(alloc, source, seeds) {
        Ok(begun) => begun,
        Err(fault) => return Err(KeptFault::Stream(fault)),
    };
    let AttestStart {
        parsed,
        seed,
        before,
    } = begun;
    let Parsed { config, policy } = parsed;
    let before = before.as_slice();
    let boot = match next_boot(keeper) {
        Ok(boot) => boot,
        Err(fault) => return Err(KeptFault::Boot(fault)),
    };
    match attest_behind(alloc, &config, policy, seed, boot, before, source, sink) {
        Ok(verdict) => Ok(verdict),
        Err(fault) => Err(KeptFault::Stream(fault)),
    }
}
