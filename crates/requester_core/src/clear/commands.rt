ghost use Rattle.std.specs.Prelude.{◌≡◌, ◌≤◌, ◌+◌, ℕ, List, length, is_some, None, false};
ghost use Rattle.requester_machine.specs.Commands as commands;
ghost use Rattle.requester_machine.specs.Commands.{Free, command_fault, is_negotiated, live_count};
ghost use Rattle.requester_machine.specs.History.{History, connection_terms, outstanding, phase_of};
ghost use Rattle.requester_machine.specs.May.{IsAllowed};
ghost use Rattle.requester_machine.specs.Message.Command.{Connect, Measure, Open};
ghost use Rattle.requester_machine.specs.Sending as sending;
ghost use Rattle.requester_machine.specs.Setup.{ReqSetup};
ghost use Rattle.requester_machine.specs.UnderWay.{HasSizes};
ghost use Rattle.spdm_grammar.specs.Fields as fields;
ghost use Rattle.spdm_grammar.specs.declared.names.TheConstants.{MAX_MESSAGE_SIZE};
ghost use Rattle.spdm_machine.specs.Keys.{Draw};
ghost use Rattle.requester_core.specs.Commands.{IsDone, IsRetried, IsTold};
ghost use Rattle.requester_core.specs.Free.{IsFree};
ghost use Rattle.requester_core.specs.Setup.{IsSetUp};
ghost use Rattle.requester_core.specs.ClearState.{Counts, Shows, StandsFor};

use crate::{ClearState, FreeValues, Outstanding, PendingRequest, Resend, Setup, TransferMode};
use negotiate::Common;
use spdm_basis::Frame;
use spdm_grammar::names::{MAX_SESSIONS, PSK_EXCHANGE_FIELDS_LEN};
use spdm_grammar::{CommandFault, Exchange, Phase, Request};

// Whether a message of this length is too long for the responder.
pub fn is_too_long(common: &Common, len: usize) -> bool
    ensures { (message : List ℕ) → length message ≡ len → result
        ≡ sending.is_too_long common.now message }
{
    len > common.to_responder.max as usize
        || (!common.chunk && len > common.to_responder.transfer as usize)
}

// Whether it is a kind of summary.
fn is_summary(summary: u8) -> bool
    ensures { result ≡ fields.is_summary summary }
{
    matches!(summary, 0 | 1 | 255)
}

// The length of a PSK_EXCHANGE.
fn exchange_len(setup: &Setup<'_>, free: &FreeValues<'_>) -> usize
    ensures { 12 + length setup.now.hint.now + length free.now.context.now + length
        free.now.opaque.now ≤ MAX_MESSAGE_SIZE
        → result ≡ 12 + length setup.now.hint.now + length free.now.context.now + length
        free.now.opaque.now }
{
    PSK_EXCHANGE_FIELDS_LEN
        .saturating_add(setup.hint.len())
        .saturating_add(free.context.len())
        .saturating_add(free.opaque.len())
}

impl ClearState {
    // Whether something is outstanding.
    pub(crate) fn is_busy(&self) -> bool
        ensures { (h : History) → Shows self.now h → result ≡ is_some (outstanding h) }
    {
        !matches!(self.outgoing.waiting(), Outstanding::Nothing)
    }

    // Whether there is a connection.
    pub(crate) fn is_connected(&self) -> bool
        ensures { (h : History) → Shows self.now h → result ≡ is_negotiated (phase_of h) }
    {
        matches!(self.negotiating.phase(), Phase::Negotiated)
    }

    // Whether measurements were negotiated.
    fn has_measurements(&self) -> bool
        ensures { (h : History) → Shows self.now h
            → result ≡ commands.has_measurements (connection_terms h) }
    {
        self.negotiating.common().measure && self.negotiating.choice().measure
    }

    // Whether it is a kind of summary for which no measurements were negotiated.
    fn lacks_summary(&self, summary: u8) -> bool
        ensures { (h : History) → Shows self.now h
            → result ≡ commands.lacks (connection_terms h) (Open summary) }
    {
        summary != 0 && !self.has_measurements()
    }

    // The fault of asking for measurements in the clear.
    #[tactic(auto, unfolding(requester_machine::specs::Commands::command_fault))]
    fn measure_fault(&self) -> Option<CommandFault>
        ensures { (q : ReqSetup) (h : History) (f : Free) (op : ℕ) → Shows self.now h
            → result ≡ command_fault false q h (Measure None op) f }
    {
        if self.is_busy() {
            return Some(CommandFault::Busy);
        }
        if !self.is_connected() {
            return Some(CommandFault::NotConnected);
        }
        if !self.has_measurements() {
            return Some(CommandFault::NotNegotiated);
        }
        None
    }

    // Whether a PSK_EXCHANGE with these values is too long for the responder.
    fn is_exchange_long(&self, setup: &Setup<'_>, free: &FreeValues<'_>) -> bool
        ensures { (q : ReqSetup) (h : History) (f : Free) (summary : ℕ) → IsSetUp setup.now q
            → IsFree free.now f → IsAllowed q h f → Shows self.now h
            → result ≡ commands.is_long q h f (Open summary) }
    {
        is_too_long(self.negotiating.common(), exchange_len(setup, free))
    }

    // The fault of opening a session while `live` sessions are live; `is_long` tells whether its PSK_EXCHANGE is too
    // long.
    #[tactic(auto, unfolding(requester_machine::specs::Commands::command_fault))]
    fn open_fault(&self, live: u8, summary: u8, is_long: bool) -> Option<CommandFault>
        ensures { (q : ReqSetup) (h : History) (f : Free) → Shows self.now h → live_count h ≡ live
            → commands.is_long q h f (Open summary) ≡ is_long
            → result ≡ command_fault false q h (Open summary) f }
    {
        if self.is_busy() {
            return Some(CommandFault::Busy);
        }
        if !self.is_connected() {
            return Some(CommandFault::NotConnected);
        }
        if live == MAX_SESSIONS {
            return Some(CommandFault::SessionLimit);
        }
        if self.lacks_summary(summary) {
            return Some(CommandFault::NotNegotiated);
        }
        if !is_summary(summary) {
            return Some(CommandFault::BadSummary);
        }
        if is_long {
            return Some(CommandFault::TooLong);
        }
        None
    }

    /// Starts over with GET_VERSION, which overwrites `out`; returns its tag.
    pub fn connect(&mut self, out: &mut Frame) -> u8
        ensures { (q : ReqSetup) (h : History) (f : Free) (d : Draw) → Counts self.old h
            → IsDone q h Connect f d result self.new out.new }
    {
        self.negotiating.begin();
        self.outgoing.keep(&Request::GetVersion, 0);
        self.outgoing
            .send(PendingRequest::Version, TransferMode::Whole, 0, out)
    }

    /// Requests measurements in the clear, by an operation. The message sent overwrites `out`; returns its tag.
    pub fn measure(&mut self, op: u8, out: &mut Frame) -> Result<u8, CommandFault>
        ensures { (q : ReqSetup) (h : History) (f : Free) (d : Draw) → HasSizes q
            → StandsFor self.old q h
            → IsTold q h (Measure None op) f d result self.old self.new out.new }
    {
        if let Some(fault) = self.measure_fault() {
            return Err(fault);
        }
        self.outgoing.keep(&Request::GetMeasurements { op }, 0);
        let transfer = self.negotiating.common().to_responder.transfer;
        let asked = PendingRequest::Measurements { op };
        Ok(self.outgoing.send_request(transfer, asked, out))
    }

    /// Begins a session while `live` sessions are live, with this kind of measurement summary and these values. The
    /// message sent for PSK_EXCHANGE overwrites `out`; returns its tag.
    pub fn open(
        &mut self,
        setup: &Setup<'_>,
        live: u8,
        summary: u8,
        free: &FreeValues<'_>,
        out: &mut Frame,
    ) -> Result<u8, CommandFault>
        ensures { (q : ReqSetup) (h : History) (f : Free) (d : Draw) → IsSetUp setup.now q
            → IsFree free.now f → IsAllowed q h f → live_count h ≡ live → StandsFor self.old q h
            → IsTold q h (Open summary) f d result self.old self.new out.new }
    {
        if let Some(fault) = self.open_fault(live, summary, self.is_exchange_long(setup, free)) {
            return Err(fault);
        }
        let exchange = Exchange {
            summary,
            req_id: free.id,
            hint: setup.hint,
            context: free.context,
            opaque: free.opaque,
        };
        let hash_len = self.negotiating.choice().hash.size();
        self.outgoing
            .keep(&Request::PskExchange(exchange), hash_len);
        let transfer = self.negotiating.common().to_responder.transfer;
        let asked = PendingRequest::Exchange {
            id: free.id,
            summary,
        };
        Ok(self.outgoing.send_request(transfer, asked, out))
    }

    /// Resends the outstanding message. A clear one overwrites `out`.
    pub fn retry(&self, out: &mut Frame) -> Result<Resend, CommandFault>
        ensures { (q : ReqSetup) (h : History) (f : Free) (d : Draw) → HasSizes q
            → StandsFor self.now q h → IsRetried q h f d result out.new }
    {
        match self.outgoing.waiting() {
            Outstanding::Nothing => Err(CommandFault::NothingToRetry),
            Outstanding::InSession { tag, id } => Ok(Resend::InSession { tag, id }),
            Outstanding::InClear { tag, mode, .. } => {
                let transfer = self.negotiating.common().to_responder.transfer;
                self.outgoing.write(mode, transfer, out);
                Ok(Resend::InClear { tag })
            }
        }
    }
}
