ghost use Rattle.std.specs.Prelude.{◌≡◌};
ghost use Rattle.requester_machine.specs.History.{History, outstanding};
ghost use Rattle.requester_machine.specs.Setup.{ReqSetup};
ghost use Rattle.requester_core.specs.Gathering.{Gathers};
ghost use Rattle.requester_core.specs.Hearing.{IsHeard, IsRegathered, exchange_id, heard_in, heard_of, rested};
ghost use Rattle.requester_core.specs.Setup.{IsSetUp};
ghost use Rattle.requester_core.specs.ClearState.{StandsFor};

use crate::clear::bodies::{error_in, is_clear, message_in};
use crate::{BodyOutcome, ClearState, Outstanding, PendingRequest, ReplyOutcome, Setup};
use chunking::Collector;
use spdm_basis::Frame;
use spdm_grammar::{Event, ReqIgnored};

impl PendingRequest {
    // The ReqSessionID of a PSK_EXCHANGE, and 0 for any other request.
    fn exchange_id(self) -> u16
        ensures { result ≡ exchange_id self }
    {
        match self {
            PendingRequest::Exchange { id, .. } => id,
            _ => 0,
        }
    }

    // What is reported where nothing is sent on a message to a request that asks this.
    fn rested(self, told: Event) -> BodyOutcome
        ensures { result ≡ rested self told }
    {
        match self {
            PendingRequest::Exchange { id, .. } => BodyOutcome::Closes { id, told },
            _ => BodyOutcome::Rests(told),
        }
    }
}

impl ReplyOutcome {
    // What is reported of a body with a message to a request that asks this.
    fn heard(self, asked: PendingRequest) -> BodyOutcome
        ensures { result ≡ heard_of asked self }
    {
        match self {
            ReplyOutcome::Ignored(cause) => BodyOutcome::Ignored(cause),
            ReplyOutcome::Rests(told) => asked.rested(told),
            ReplyOutcome::Sends { tag }
            | ReplyOutcome::Large { tag }
            | ReplyOutcome::More { tag } => BodyOutcome::Sends { tag },
            ReplyOutcome::Exchange => BodyOutcome::Exchange {
                id: asked.exchange_id(),
            },
        }
    }
}

// A body came that no test refuses, while a record of the session with this ReqSessionID is outstanding.
fn in_session(id: u16, body: &[u8]) -> BodyOutcome
    ensures { result ≡ heard_in id body.now }
{
    if is_clear(body) {
        return BodyOutcome::Warned(error_in(message_in(body)).unwrap_or(0));
    }
    BodyOutcome::Record { id }
}

impl ClearState {
    /// Handles a complete message body, with its tag owner bit and tag. `gathered` has the chunks received of the large
    /// response to the outstanding request. The clear message sent next, if any, or the awaited PSK_EXCHANGE_RSP,
    /// overwrites `out`.
    pub fn on_body(
        &mut self,
        setup: &Setup<'_>,
        gathered: &mut Collector,
        owner: bool,
        tag: u8,
        body: &[u8],
        out: &mut Frame,
    ) -> BodyOutcome
        ensures heard { (q : ReqSetup) (h : History) → IsSetUp setup.now q → StandsFor self.old q h
            → Gathers q (outstanding h) gathered.old
            → IsHeard q h owner tag body.now result self.old self.new out.new }
        ensures gathered { (q : ReqSetup) (h : History) → IsSetUp setup.now q
            → StandsFor self.old q h → Gathers q (outstanding h) gathered.old
            → IsRegathered q h owner tag body.now result gathered.old gathered.new }
    {
        if let Some(cause) = self.body_fault(setup, owner, tag, body) {
            return BodyOutcome::Ignored(cause);
        }
        match self.outgoing.waiting() {
            Outstanding::Nothing => BodyOutcome::Ignored(ReqIgnored::NothingOutstanding),
            Outstanding::InSession { id, .. } => in_session(id, body),
            Outstanding::InClear { asked, .. } => self
                .on_clear(setup, gathered, message_in(body), out)
                .heard(asked),
        }
    }
}
