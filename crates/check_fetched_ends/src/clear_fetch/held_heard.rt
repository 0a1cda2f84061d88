ghost use Rattle.std.specs.Prelude.{◌≡◌, ◌<◌, ◌-◌, ◌^◌, ℕ, List, None, Some, true, OnErr, OnOk, length};
ghost use Rattle.check_requester.specs.HeardKept.{asks_upon, heard_kept};
ghost use Rattle.check_laws.specs.KeptChanges.{accepted_from};
ghost use Rattle.check_laws.specs.Rows.{StandsForRows};
ghost use Rattle.check_fetched_ends.specs.Held.{IsHeardHeld, IsHeldIn, IsQuiet};
ghost use Rattle.check_fetched_ends.specs.declared.clear_fetch.held.Held.{Held};
ghost use Rattle.check_late_laws.specs.Fetching.{Fetching, IsFetchingOf};
ghost use Rattle.mctp_framing.specs.Cutting.{RouteFields};
ghost use Rattle.requester_machine.specs.History.{outstanding};
ghost use Rattle.requester_machine.specs.Setup.{ReqSetup};
ghost use Rattle.responder_machine.specs.History.{History};
ghost use Rattle.check_laws.specs.Keeping.{restored};
ghost use Rattle.capture_machine.specs.LargeAnswers.{is_fetching};
ghost use Rattle.capture_machine.specs.Rounds as rounds;
ghost use Rattle.capture_machine.specs.SessionTable.{Row};
ghost use Rattle.world_machine.specs.Setup.{Configuration};

use check_ends::Party;
use check_laws::{Round, SessionTable, answer_accepts};
use spdm_basis::OutOfMemory;

// An answer goes on in the clear, by which no session begins and none takes a record, while a chunk is awaited, and in
// response to which the requester asks for one still: it hears it, and the table is told of it.
pub(crate) fn hears_on(
    party: &mut Party,
    table: &mut SessionTable,
    round: &Round,
    answer: &[u8],
) -> Result<(), OutOfMemory>
    ensures told { (w : Configuration) (q : ReqSetup) (older : List (List ℕ)) (rows : List Row)
        (f : Fetching) (route : RouteFields) (held : Held) (behind : History) (of : rounds.Round)
        → IsFetchingOf w q older f → length older < 2 ^ 64 - 2 → f.kept.round ≡ Some of
        → round.now ≡ Some of → of.tag ≡ route.tag → IsHeldIn party.old held w q f rows
        → is_fetching (outstanding (restored f.kept).requester) ≡ true
        → asks_upon f.kept route.tag answer.now ≡ true
        → accepted_from f.kept route.tag answer.now ≡ None
        → IsQuiet f.kept.responder behind
        → StandsForRows table.old w (length older) rows
        → OnOk result (IsHeardHeld party.old party.new table.new w q older rows f
        (record f { kept = heard_kept f.kept behind route.tag of answer.now })) }
    ensures memory { OnErr result ⊥ }
{
    let heard = party.asker.hears(round.tag(), answer, true);
    answer_accepts();
    let change = party.change(None, heard.accepted, None);
    table.take(&mut party.places, party.number, &change)?;
    Ok(())
}
