ghost use Rattle.std.specs.Prelude.{◌≡◌, ◌<◌, ◌-◌, ◌^◌, true, false, length};
ghost use Rattle.requester_core.specs.Joined.{StandsFor};
ghost use Rattle.requester_machine.specs.History.{History};
ghost use Rattle.requester_machine.specs.Setup.{ReqSetup};
ghost use Rattle.check_requester.specs.JudgedRequester.{IsKeptSetup};
ghost use Rattle.check_requester.specs.LargeAsked.{HasRoom, is_least_short, is_refused_late};

use crate::JudgedRequester;
use crate::judged_setup::JudgedSetup;
use crate::owed_messages::{LONG_CONTEXT, is_first_chunk, write_outstanding};
use check_laws::{LargeRequest, is_secured};
use requester_core::{Body, Command, FreeValues, RequesterCore};
use spdm_grammar::CommandFault;
use spdm_grammar::names::{MAX_MESSAGE_SIZE, PSK_EXCHANGE_FIELDS_LEN};

// A kind of measurement summary that there is none of, so that Open is refused.
const NO_SUMMARY: u8 = 2;

// The most bytes of a PSK_EXCHANGE.
const MAX_LEN: usize = MAX_MESSAGE_SIZE as usize;

// Whether a command that was refused so has all else that it needs.
fn is_refused_late(fault: CommandFault) -> bool
    ensures { result ≡ is_refused_late fault }
{
    matches!(
        fault,
        CommandFault::NotNegotiated | CommandFault::BadSummary
    )
}

// Whether Open has all that it needs, but for its kind of summary and its length: it is told with a kind that there is
// none of, and is refused for that.
fn has_room(asking: &mut RequesterCore, setup: &JudgedSetup, room: &mut Body) -> bool
    ensures room { (q : ReqSetup) (h : History) → IsKeptSetup setup.now q → length h < 2 ^ 64 - 1
        → StandsFor asking.old q h → result ≡ true → HasRoom h }
    ensures none { (q : ReqSetup) (h : History) → IsKeptSetup setup.now q → length h < 2 ^ 64 - 1
        → StandsFor asking.old q h → HasRoom h → result ≡ true }
    ensures stands { (q : ReqSetup) (h : History) → IsKeptSetup setup.now q
        → length h < 2 ^ 64 - 1 → StandsFor asking.old q h → StandsFor asking.new q h }
{
    let free = FreeValues {
        id: asking.free_id(),
        context: &LONG_CONTEXT,
        opaque: &[],
    };
    let open = Command::Open {
        summary: NO_SUMMARY,
    };
    match asking.command(&setup.setup(), &setup.psk, open, &free, &[], room) {
        Ok(_) => false,
        Err(fault) => is_refused_late(fault),
    }
}

// Whether the shortest PSK_EXCHANGE is no longer than the responder takes.
fn is_least_short(asking: &RequesterCore, setup: &JudgedSetup) -> bool
    ensures { (q : ReqSetup) (h : History) → IsKeptSetup setup.now q → StandsFor asking.now q h
        → result ≡ is_least_short q h }
{
    let least = PSK_EXCHANGE_FIELDS_LEN
        .saturating_add(setup.hint.as_slice().len())
        .saturating_add(asking.choice().hash.size());
    least <= asking.common().to_responder.max as usize && least <= MAX_LEN
}

// Where a large request begins.
impl JudgedRequester {
    ghost use Rattle.std.specs.Prelude.{◌≡◌, ◌<◌, ◌-◌, ◌^◌, ℕ, List, Some, None, length};
    ghost use Rattle.requester_core.specs.Joined.{StandsFor};
    ghost use Rattle.requester_machine.specs.History.{connection_terms, next_handle};
    ghost use Rattle.requester_machine.specs.Setup.{ReqSetup};
    ghost use Rattle.check_requester.specs.JudgedRequester.{IsAsker};
    ghost use Rattle.check_requester.specs.LargeAsked.{IsBegun};
    ghost use Rattle.check_laws.specs.Keeping.{Keeps, Kept, owing};
    ghost use Rattle.check_laws.specs.Large.LargeRequests.{IsBegunBy};
    ghost use Rattle.world_machine.specs.Setup.{Configuration};

    // The large request that a body begins under this handle, if it is the first chunk of one.
    fn first_chunk(&self, handle: u8, body: &[u8]) -> Option<LargeRequest>
        ensures { (q : ReqSetup) (k : Kept) → IsAsker self.now q k → next_handle k.requester ≡ handle
            → IsBegunBy k body.now result }
    {
        let common = self.asking.common();
        if !common.chunk {
            return None;
        }
        let sizes = common.to_responder;
        LargeRequest::begin(sizes.transfer as usize, sizes.max as usize, handle, body)
    }

    // The same where a message is owed, which has to be the first chunk of one.
    fn begins_owed(&mut self, body: &[u8]) -> Option<LargeRequest>
        ensures told { (w : Configuration) (q : ReqSetup) (older : List (List ℕ)) (k : Kept)
            → Keeps w q older k → length older < 2 ^ 64 - 1 → self.old.owes ≡ true
            → IsAsker self.old q k → IsBegun k body.now result }
        ensures kept { (w : Configuration) (q : ReqSetup) (older : List (List ℕ)) (k : Kept)
            → Keeps w q older k → length older < 2 ^ 64 - 1 → self.old.owes ≡ true
            → IsAsker self.old q k → IsAsker self.new q k }
    {
        let _ = write_outstanding(&mut self.asking, &self.setup, &mut self.room);
        if is_secured(self.room.as_slice()) {
            return None;
        }
        if !is_first_chunk(self.room.as_slice()) {
            return None;
        }
        self.first_chunk(self.asking.next_handle().wrapping_sub(1), body)
    }

    // The same where none is owed.
    fn begins_open(&mut self, body: &[u8]) -> Option<LargeRequest>
        ensures told { (w : Configuration) (q : ReqSetup) (older : List (List ℕ)) (k : Kept)
            → Keeps w q older k → length older < 2 ^ 64 - 1 → self.old.owes ≡ false
            → IsAsker self.old q k → IsBegun k body.now result }
        ensures kept { (w : Configuration) (q : ReqSetup) (older : List (List ℕ)) (k : Kept)
            → Keeps w q older k → length older < 2 ^ 64 - 1 → self.old.owes ≡ false
            → IsAsker self.old q k → IsAsker self.new q k }
    {
        if !has_room(&mut self.asking, &self.setup, &mut self.room) {
            return None;
        }
        if !is_least_short(&self.asking, &self.setup) {
            return None;
        }
        self.first_chunk(self.asking.next_handle(), body)
    }

    /// The large request that a body begins, if one may be begun, and it is the first chunk of one. What is kept of the
    /// requester stays.
    pub fn begins_large(&mut self, body: &[u8]) -> Option<LargeRequest>
        ensures told { (w : Configuration) (q : ReqSetup) (older : List (List ℕ)) (k : Kept)
            → Keeps w q older k → length older < 2 ^ 64 - 1 → IsAsker self.old q k
            → IsBegun k body.now result }
        ensures kept { (w : Configuration) (q : ReqSetup) (older : List (List ℕ)) (k : Kept)
            → Keeps w q older k → length older < 2 ^ 64 - 1 → IsAsker self.old q k
            → IsAsker self.new q k }
    {
        if self.owes {
            self.begins_owed(body)
        } else {
            self.begins_open(body)
        }
    }
}
