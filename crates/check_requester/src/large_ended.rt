ghost use Rattle.std.specs.Prelude.{◌≡◌, ◌<◌, ◌-◌, ◌^◌, MatchOption, None, Some, length};
ghost use Rattle.requester_core.specs.Joined.{StandsFor};
ghost use Rattle.requester_machine.specs.History.{History, outstanding};
ghost use Rattle.requester_machine.specs.Setup.{ReqSetup};
ghost use Rattle.spdm_grammar.specs.Message.{exchange_message, request_message};
ghost use Rattle.spdm_grammar.specs.Requests.{request_in};
ghost use Rattle.check_requester.specs.JudgedRequester.{IsKeptSetup};
ghost use Rattle.check_requester.specs.LargeAsked.{IsOpenedLarge, exchange_of, exchange_shown};

use crate::JudgedRequester;
use crate::clear_commands::may_open;
use crate::judged_setup::JudgedSetup;
use crate::large_carried::carries;
use crate::owed_messages::{is_first_chunk, write_outstanding};
use requester_core::{Body, Command, FreeValues, RequesterCore};
use spdm_codec::read_request;
use spdm_grammar::{Exchange, Request};

// The PSK_EXCHANGE that a request is, if it is one.
fn exchange_of(request: Request<'_>) -> Option<Exchange<'_>>
    ensures { MatchOption result (exchange_of (request_message request.entry) ≡ None)
        (λ exchange. exchange_of (request_message request.entry) ≡ Some (exchange_message exchange)) }
{
    match request {
        Request::PskExchange(exchange) => Some(exchange),
        Request::GetVersion
        | Request::GetCapabilities(_)
        | Request::NegotiateAlgorithms(_)
        | Request::GetMeasurements { .. }
        | Request::PskFinish { .. }
        | Request::Heartbeat
        | Request::KeyUpdate { .. }
        | Request::EndSession
        | Request::ChunkSend(_)
        | Request::ChunkGet { .. } => None,
    }
}

// The PSK_EXCHANGE that a message encodes, if it is one.
fn exchange_in(message: &[u8]) -> Option<Exchange<'_>>
    ensures { MatchOption result (exchange_shown (request_in 0 message.now) ≡ None)
        (λ exchange. exchange_shown (request_in 0 message.now) ≡ Some (exchange_message exchange)) }
{
    match read_request(message, 0) {
        Ok(request) => exchange_of(request),
        Err(_) => None,
    }
}

// Whether Open sends a PSK_EXCHANGE in chunks at the values in the fields of this one: its first chunk overwrites
// `room`.
fn opens_large(
    asking: &mut RequesterCore,
    setup: &JudgedSetup,
    room: &mut Body,
    exchange: &Exchange<'_>,
) -> bool
    ensures { (q : ReqSetup) (h : History) → IsKeptSetup setup.now q → length h < 2 ^ 64 - 1
        → outstanding h ≡ None → StandsFor asking.old q h
        → IsOpenedLarge q h (exchange_message exchange.now) result asking.new room.new }
{
    if !may_open(asking, setup, exchange) {
        return false;
    }
    let free = FreeValues {
        id: exchange.req_id,
        context: exchange.context,
        opaque: exchange.opaque,
    };
    let command = Command::Open {
        summary: exchange.summary,
    };
    if asking
        .command(&setup.setup(), &setup.psk, command, &free, &[], room)
        .is_err()
    {
        return false;
    }
    is_first_chunk(room.as_slice())
}

// The end of a large request.
impl JudgedRequester {
    ghost use Rattle.std.specs.Prelude.{◌≡◌, ◌<◌, ◌-◌, ◌^◌, ◌+◌, ℕ, List, length, is_some, true, false};
    ghost use Rattle.requester_machine.specs.Setup.{ReqSetup};
    ghost use Rattle.check_requester.specs.JudgedRequester.{IsAsker};
    ghost use Rattle.check_requester.specs.LargeAsked.{IsConnectedOver, IsEnded};
    ghost use Rattle.check_laws.specs.Keeping.{Keeps};
    ghost use Rattle.check_laws.specs.Large.Sending.{IsSendingOf, MayStand, Sending, is_last, number_of};
    ghost use Rattle.world_machine.specs.Setup.{Configuration};

    // Whether the large request, which was begun by a command, ends with these bytes.
    fn ends_open(&mut self, whole: &[u8], number: u16) -> bool
        ensures { (w : Configuration) (q : ReqSetup) (older earlier : List (List ℕ)) (s : Sending)
            → IsSendingOf w q older s → Keeps w q earlier s.before → length earlier < 2 ^ 64 - 1
            → MayStand s whole.now → is_last s (number_of s + 1) ≡ true → is_some s.due ≡ true
            → number ≡ number_of s → self.old.owes ≡ false → IsAsker self.old q s.before
            → IsEnded q s whole.now result self.new }
    {
        let Some(exchange) = exchange_in(whole) else {
            return false;
        };
        if !opens_large(&mut self.asking, &self.setup, &mut self.room, &exchange) {
            return false;
        }
        let count = u32::from(number) + 1;
        carries(&mut self.asking, &mut self.room, whole, count)
    }

    /// Whether the large request ends with these bytes, of which the last chunk came after the one of this number: then
    /// what is kept is that of the history after it. Else nothing is said of that.
    pub fn ends_large(&mut self, whole: &[u8], number: u16) -> bool
        ensures { (w : Configuration) (q : ReqSetup) (older earlier : List (List ℕ)) (s : Sending)
            → IsSendingOf w q older s → Keeps w q earlier s.before → length earlier < 2 ^ 64 - 1
            → MayStand s whole.now → is_last s (number_of s + 1) ≡ true → is_some s.due ≡ true
            → number ≡ number_of s → IsAsker self.old q s.before → IsEnded q s whole.now result self.new }
    {
        if !self.owes {
            return self.ends_open(whole, number);
        }
        self.owes = false;
        let _ = write_outstanding(&mut self.asking, &self.setup, &mut self.room);
        let count = u32::from(number) + 1;
        carries(&mut self.asking, &mut self.room, whole, count)
    }

    /// Starts over over the large request of which the chunk of this number was sent last: what is kept is that of a
    /// history after GET_VERSION.
    pub fn connects_over(&mut self, number: u16)
        ensures { (w : Configuration) (q : ReqSetup) (older earlier : List (List ℕ)) (s : Sending)
            → IsSendingOf w q older s → Keeps w q earlier s.before → number ≡ number_of s
            → IsAsker self.old q s.before → IsConnectedOver q s self.new }
    {
        self.owes = false;
        self.asking.connect_over(number, &mut self.room);
    }
}
