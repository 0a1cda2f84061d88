ghost use Rattle.std.specs.Prelude.{◌≡◌, ◌<◌, ◌-◌, ◌^◌, ◌&&◌, if◌then◌else◌, None, Some, is_some, length};
ghost use Rattle.requester_core.specs.Joined.{StandsFor};
ghost use Rattle.requester_core.specs.Owed.{TookFor};
ghost use Rattle.requester_core.specs.OwnRecords.{session_awaited};
ghost use Rattle.requester_machine.specs.History.{History, outstanding};
ghost use Rattle.requester_machine.specs.Message.{Sent, body_of};
ghost use Rattle.requester_machine.specs.Owed.{with_next};
ghost use Rattle.requester_machine.specs.Setup.{ReqSetup};
ghost use Rattle.responder_machine.specs.Responder.{is_open};
ghost use Rattle.check_requester.specs.JudgedRequester.{IsKeptSetup};
ghost use Rattle.check_requester.specs.HeardKept.{IsHeardAs, ShowsChunk};
ghost use Rattle.capture_machine.specs.LargeAnswers.{is_for_chunk};

use crate::JudgedRequester;
use crate::judged_setup::JudgedSetup;
use crate::owed_messages::write_outstanding;
use check_laws::byte_at;
use requester_core::{Body, RequesterCore};
use spdm_grammar::Stage;
use spdm_grammar::names::request_code::CHUNK_GET;

/// What a requester does on an answer that it hears.
#[derive(Clone, Copy, Debug, PartialEq, Eq)]
pub struct AnswerEffect {
    /// The ReqSessionID of the PSK_EXCHANGE whose answer it takes, if it takes one.
    pub accepted: Option<u16>,
    /// Whether it asks for a chunk of a large response, or awaits the one that it asked for.
    pub fetches: bool,
}

// Overwrites `room` with Hears a body that came under a tag, and tells whether a message is sent in response to it,
// which has no padding, and whose body is then.
fn hear(
    asking: &mut RequesterCore,
    setup: &JudgedSetup,
    room: &mut Body,
    tag: u8,
    body: &[u8],
) -> bool
    ensures { (q : ReqSetup) (h : History) → IsKeptSetup setup.now q → length h < 2 ^ 64 - 1
        → StandsFor asking.old q h → IsHeardAs q h tag body.now result asking.new room.new }
{
    let reaction = asking.on_body(&setup.setup(), false, tag, body, &[], room);
    reaction.tag.is_some()
}

// The session whose record is awaited, where none was before.
fn awaited_anew(asking: &RequesterCore, before: bool) -> Option<u16>
    ensures { (q : ReqSetup) (h : History) → StandsFor asking.now q h
        → result ≡ (if before then None else session_awaited (outstanding h)) }
{
    if before {
        return None;
    }
    asking.session_awaited()
}

// Whether what is outstanding asks for a chunk, where it was sent in response to the last message, and `room` has its
// body.
fn asks_chunk(asking: &RequesterCore, room: &Body) -> bool
    ensures { (q : ReqSetup) (bare : History) (sent : Sent) → TookFor bare sent.aim
        → ShowsChunk sent.aim (body_of sent.content) → room.now ≡ body_of sent.content
        → length bare < 2 ^ 64 - 1 → StandsFor asking.now q (with_next (Some sent) bare)
        → result ≡ is_for_chunk sent.aim }
{
    let Some(id) = asking.session_awaited() else {
        return byte_at(room.as_slice(), 2) == CHUNK_GET;
    };
    match asking.view(id) {
        Some(view) => is_open(view.stage),
        None => false,
    }
}

// Whether a chunk is awaited still, which was awaited or not, where nothing was sent in response to the last message.
fn awaits_still(
    asking: &mut RequesterCore,
    setup: &JudgedSetup,
    room: &mut Body,
    awaited: bool,
) -> bool
    ensures waits { (q : ReqSetup) (h : History) → IsKeptSetup setup.now q
        → length h < 2 ^ 64 - 1 → StandsFor asking.old q h
        → result ≡ (awaited && is_some (outstanding h)) }
    ensures stands { (q : ReqSetup) (h : History) → IsKeptSetup setup.now q
        → length h < 2 ^ 64 - 1 → StandsFor asking.old q h → StandsFor asking.new q h }
{
    if !awaited {
        return false;
    }
    write_outstanding(asking, setup, room)
}

// Whether a session is open.
fn is_open(stage: Stage) -> bool
    ensures { result ≡ is_open stage }
{
    matches!(stage, Stage::Open)
}

impl JudgedRequester {
    ghost use Rattle.std.specs.Prelude.{◌≡◌, ◌<◌, ◌-◌, ◌^◌, ℕ, List, Some, length};
    ghost use Rattle.requester_machine.specs.History.{outstanding};
    ghost use Rattle.requester_machine.specs.Setup.{ReqSetup};
    ghost use Rattle.responder_machine.specs.History as responder_history;
    ghost use Rattle.check_requester.specs.JudgedRequester.{Carries, IsAsker};
    ghost use Rattle.check_requester.specs.HeardKept.{asks_upon, heard_kept};
    ghost use Rattle.check_laws.specs.Keeping.{Kept, restored};
    ghost use Rattle.check_laws.specs.KeptChanges.{accepted_from};
    ghost use Rattle.capture_machine.specs.LargeAnswers.{is_fetching};
    ghost use Rattle.capture_machine.specs.Rounds.{Round};
    ghost use Rattle.world_machine.specs.Setup.{Configuration};

    /// The requester hears an answer under the tag of the round in progress, while it awaits a chunk of a large
    /// response or not: what it does in response to it is told. What it sends by itself then is owed. While it owes a
    /// message it hears nothing: the request of the round has had its answer. Fewer than 2^64 - 2 packets came.
    pub fn hears(&mut self, tag: u8, answer: &[u8], awaits: bool) -> AnswerEffect
        ensures kept { (w : Configuration) (q : ReqSetup) (older : List (List ℕ)) (k : Kept)
            (behind : responder_history.History) (round : Round) → Carries w q older k
            → length older < 2 ^ 64 - 2 → k.round ≡ Some round → round.tag ≡ tag
            → IsAsker self.old q k
            → IsAsker self.new q (heard_kept k behind tag round answer.now) }
        ensures accepted { (w : Configuration) (q : ReqSetup) (older : List (List ℕ)) (k : Kept)
            (round : Round) → Carries w q older k → length older < 2 ^ 64 - 1
            → k.round ≡ Some round → round.tag ≡ tag → IsAsker self.old q k
            → result.accepted ≡ accepted_from k tag answer.now }
        ensures fetches { (w : Configuration) (q : ReqSetup) (older : List (List ℕ)) (k : Kept)
            (round : Round) → Carries w q older k → length older < 2 ^ 64 - 2
            → k.round ≡ Some round → round.tag ≡ tag → IsAsker self.old q k
            → awaits ≡ is_fetching (outstanding (restored k).requester)
            → result.fetches ≡ asks_upon k tag answer.now }
    {
        if self.owes {
            return AnswerEffect {
                accepted: None,
                fetches: awaits,
            };
        }
        let in_session = self.asking.session_awaited().is_some();
        self.owes = hear(&mut self.asking, &self.setup, &mut self.room, tag, answer);
        let accepted = awaited_anew(&self.asking, in_session);
        if !self.owes {
            let fetches = awaits_still(&mut self.asking, &self.setup, &mut self.room, awaits);
            return AnswerEffect { accepted, fetches };
        }
        let fetches = asks_chunk(&self.asking, &self.room);
        AnswerEffect { accepted, fetches }
    }
}
