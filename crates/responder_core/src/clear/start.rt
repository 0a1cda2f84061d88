ghost use Rattle.std.specs.Prelude.{◌≡◌, ◌==◌, ◌||◌, ◌≤◌, [], ℕ, List, Some, false, is_some, length, slice_index, unwrap_or};
ghost use Rattle.responder_machine.specs.Answer.{Free, answer_bytes, request_at};
ghost use Rattle.responder_machine.specs.History.{History, negotiation_of};
ghost use Rattle.responder_machine.specs.May.{IsAllowed};
ghost use Rattle.responder_machine.specs.Place.{Where, clear_place};
ghost use Rattle.responder_machine.specs.Setup.{RspSetup};
ghost use Rattle.responder_machine.specs.Turn.{Turn};
ghost use Rattle.session_keys.specs.Terms.{AreTermsOf, asks_summary};
ghost use Rattle.spdm_grammar.specs.Message.{ExchangeMessage};
ghost use Rattle.spdm_grammar.specs.Message.RequestMessage.{PskExchange};
ghost use Rattle.spdm_grammar.specs.declared.names.TheConstants.{MAX_MESSAGE_SIZE};
ghost use Rattle.spdm_machine.specs.Sessions.{id_in_exchange};
ghost use Rattle.responder_core.specs.ClearPart.{IsBeginning};
ghost use Rattle.responder_core.specs.Free.{IsFree};
ghost use Rattle.responder_core.specs.Setup.{IsSetUp};
ghost use Rattle.responder_core.specs.ClearState.{StandsFor, chosen_len, place_at};
ghost use Rattle.responder_core.specs.Starting.{IsStarted, IsStartedAt};

use crate::{ClearPart, ClearState, ExchangeOrigin, FreeValues, Setup};
use byteorder::{ByteOrder, LittleEndian};
use responder_session::{ExchangeParts, RspSession};
use session_keys::{SessionTerms, byte_at};
use spdm_basis::{Frame, HashBytes};

// ReqSessionID of a PSK_EXCHANGE.
fn req_id_in(exchange: &[u8]) -> u16
    ensures { result ≡ id_in_exchange exchange.now }
{
    let id = [byte_at(exchange, 4), byte_at(exchange, 5)];
    LittleEndian::read_u16(&id)
}

// The bytes of a summary; `None` if there is none.
fn summary_bytes(summary: &Option<HashBytes>) -> &[u8]
    ensures { result.now ≡ unwrap_or summary.now [] }
{
    match summary {
        Some(hash) => hash.as_slice(),
        None => &[],
    }
}

impl ClearState {
    // What the session of a PSK_EXCHANGE stands under.
    fn terms(&self, exchange: &[u8], summary: bool) -> SessionTerms
        ensures value { (turns : List Turn) → StandsFor self.now turns
            → summary ≡ asks_summary exchange.now
            → AreTermsOf result (negotiation_of turns) exchange.now }
        ensures choice { result.choice ≡ self.now.negotiating.choice }
        ensures summary { result.summary ≡ summary }
    {
        SessionTerms {
            choice: self.negotiating.choice(),
            common: self.negotiating.common(),
            summary,
            req_id: req_id_in(exchange),
        }
    }

    /// The session that a PSK_EXCHANGE begins; its whole PSK_EXCHANGE_RSP, of at most 4,096 bytes, overwrites `out`.
    /// The context is at least as long as the hash.
    pub fn start(
        &self,
        setup: &Setup<'_>,
        exchange: &[u8],
        free: &FreeValues<'_>,
        out: &mut Frame,
    ) -> RspSession
        requires context { chosen_len self.now ≤ length free.now.context.now }
        ensures { (r : RspSetup) (at : Where) (turns : List Turn) (held : ℕ) (f : Free)
            (asked : ExchangeMessage) → IsSetUp setup.now r → IsFree free.now f
            → StandsFor self.now turns
            → request_at (place_at at turns held) exchange.now ≡ Some (PskExchange asked)
            → length (answer_bytes r (place_at at turns held) exchange.now f) ≤ MAX_MESSAGE_SIZE
            → IsStarted r (negotiation_of turns) exchange.now
            (answer_bytes r (place_at at turns held) exchange.now f) result out.new }
    {
        let summary = self.summary(setup, byte_at(exchange, 2));
        let terms = self.terms(exchange, summary.is_some());
        let parts = ExchangeParts {
            heartbeat: self.heartbeat(setup),
            rsp_id: free.id,
            summary: summary_bytes(&summary),
            context: free.context,
            opaque: free.exchange_opaque,
        };
        RspSession::start(
            self.negotiating.vca(),
            setup.psk,
            exchange,
            terms,
            &parts,
            out,
        )
    }
}

impl ClearPart {
    /// The session that begins with a clear message; its whole PSK_EXCHANGE_RSP, of at most 4,096 bytes, overwrites
    /// `out`. The context is at least as long as the hash.
    pub fn start(
        &self,
        begun: ExchangeOrigin,
        setup: &Setup<'_>,
        message: &[u8],
        free: &FreeValues<'_>,
        out: &mut Frame,
    ) -> RspSession
        requires context { chosen_len self.now.requests.standing ≤ length free.now.context.now }
        ensures { (r : RspSetup) (h : History) (tag : ℕ) (f : Free) → IsSetUp setup.now r
            → IsFree free.now f → IsAllowed h (clear_place h) f
            → IsBeginning r h tag message.now f begun self.now
            → IsStartedAt r h message.now f begun self.now.requests result out.new }
    {
        let exchange = self.exchange(begun, message);
        self.standing().start(setup, exchange, free, out)
    }
}
