ghost use Rattle.std.specs.Prelude.{◌≡◌};
ghost use Rattle.capture_records.specs.Heard.{began_with};
ghost use Rattle.spdm_grammar.specs.Message.{offer_message, reply_message};
ghost use Rattle.spdm_machine.specs.Terms.{choice_from, offer_in, reply_in, request_value, response_value};
ghost use Rattle.std.specs.Option.{option_map};

use crate::opening::number_at;
use crate::session::set;
use crate::{KeyedSession, Opening};
use key_schedule::Direction;
use negotiate::agrees;
use session_keys::byte_at;
use spdm_basis::{AeadAlg, Bytes, HashAlg, OutOfMemory, Psk, RecordFrame, SessionId};
use spdm_codec::{read_request, read_response};
use spdm_grammar::names::{request_code, response_code};
use spdm_grammar::{AlgOffer, AlgReply, Choice, Request, Response};
use std::alloc::Global;
use std::marker::Model;

/// How many sessions of a requester are kept: the newest.
pub const MAX_SESSIONS: usize = 256;

// How long a hash is taken to be where messages of a negotiation are read, on which none depends.
const ANY_HASH: usize = 32;

// The choice that stands where none was settled.
const NO_CHOICE: Choice = Choice {
    hash: HashAlg::Sha256,
    aead: AeadAlg::Aes128Gcm,
    measure: false,
};

/// What is told of a record: the session that it names, and whether it opens there; or that no session of its id was shown.
#[derive(Clone, Copy, Debug, PartialEq, Eq)]
pub enum RecordTold {
    NoSession,
    InSession(SessionId, Opening),
}

/// What the messages between a requester and the responder show: the last negotiation, the last PSK_EXCHANGE, and the
/// newest 256 sessions, the newest first. In contracts, their lists.
#[derive(Drop)]
pub struct Dialogue {
    psk: Psk,
    get_version: Bytes,
    version: Bytes,
    get_capabilities: Bytes,
    capabilities: Bytes,
    negotiate_algorithms: Bytes,
    algorithms: Bytes,
    exchange: Bytes,
    sessions: Vec<KeyedSession>,
}

impl Model for Dialogue {
    ghost use Rattle.capture_records.specs.Heard.{Heard};

    ghost Value = { Heard };

    ghost view = { λ s. record {
      psk = s.psk;
      get_version = s.get_version;
      version = s.version;
      get_capabilities = s.get_capabilities;
      capabilities = s.capabilities;
      negotiate_algorithms = s.negotiate_algorithms;
      algorithms = s.algorithms;
      exchange = s.exchange;
      sessions = s.sessions.items;
    } };
}

// The offer of NEGOTIATE_ALGORITHMS, if the message is one.
fn offer_of(message: &[u8]) -> Option<AlgOffer<'_>>
    ensures { option_map offer_message result ≡ offer_in (request_value message.now) }
{
    match read_request(message, ANY_HASH) {
        Ok(Request::NegotiateAlgorithms(offer)) => Some(offer),
        _ => None,
    }
}

// The reply of ALGORITHMS, if the message is one.
fn reply_of(message: &[u8]) -> Option<AlgReply<'_>>
    ensures { option_map reply_message result ≡ reply_in (response_value message.now) }
{
    match read_response(message, ANY_HASH, false) {
        Ok(Response::Algorithms(reply)) => Some(reply),
        _ => None,
    }
}

// The algorithms that a responder chose.
fn choice_of(negotiate_algorithms: &[u8], algorithms: &[u8]) -> Choice
    ensures { result ≡ choice_from (offer_in (request_value negotiate_algorithms.now))
        (reply_in (response_value algorithms.now)) }
{
    let Some(offer) = offer_of(negotiate_algorithms) else {
        return NO_CHOICE;
    };
    let Some(reply) = reply_of(algorithms) else {
        return NO_CHOICE;
    };
    match agrees(&offer, &reply) {
        Ok(choice) => choice,
        Err(_) => NO_CHOICE,
    }
}

// Whether a session began with this answer.
fn began_with(session: &KeyedSession, answer: &[u8]) -> bool
    ensures { result ≡ began_with answer.now session.now }
{
    session.answer() == answer
}

impl Dialogue {
    ghost use Rattle.std.specs.Prelude.{◌≡◌, ◌<◌, ℕ, Some, length, IfOk, IfSome, OnOk};
    ghost use Rattle.capture_records.specs.Heard.{IsTold, IsToldIn, after_answer, after_exchange, after_request, begun_by, is_repeat, negotiation_in, nothing_heard, place_in};
    ghost use Rattle.spdm_machine.specs.Terms.{terms_of};
    ghost use Rattle.transcript.specs.Transcripts.{vca_of};

    /// Under this key, where no message came yet.
    pub fn new(alloc: Global, psk: Psk) -> Dialogue
        ensures { result ≡ nothing_heard psk }
    {
        Dialogue {
            psk,
            get_version: Bytes::new(alloc),
            version: Bytes::new(alloc),
            get_capabilities: Bytes::new(alloc),
            capabilities: Bytes::new(alloc),
            negotiate_algorithms: Bytes::new(alloc),
            algorithms: Bytes::new(alloc),
            exchange: Bytes::new(alloc),
            sessions: Vec::new(alloc),
        }
    }

    /// A request in the clear, whole.
    pub fn hear_request(&mut self, message: &[u8]) -> Result<(), OutOfMemory>
        ensures { OnOk result (self.new ≡ after_request self.old message.now) }
    {
        match byte_at(message, 1) {
            request_code::GET_VERSION => set(&mut self.get_version, message),
            request_code::GET_CAPABILITIES => set(&mut self.get_capabilities, message),
            request_code::NEGOTIATE_ALGORITHMS => set(&mut self.negotiate_algorithms, message),
            request_code::PSK_EXCHANGE => set(&mut self.exchange, message),
            _ => Ok(()),
        }
    }

    /// An answer in the clear, whole. PSK_EXCHANGE_RSP begins a session.
    pub fn hear_answer(&mut self, alloc: Global, message: &[u8]) -> Result<(), OutOfMemory>
        ensures { OnOk result (self.new ≡ after_answer self.old message.now) }
    {
        match byte_at(message, 1) {
            response_code::VERSION => set(&mut self.version, message),
            response_code::CAPABILITIES => set(&mut self.capabilities, message),
            response_code::ALGORITHMS => set(&mut self.algorithms, message),
            response_code::PSK_EXCHANGE_RSP => self.begin(alloc, message),
            _ => Ok(()),
        }
    }

    // The algorithms that the last negotiation settled.
    #[tactic(auto, unfolding(spdm_machine::specs::Terms::terms_of))]
    fn choice(&self) -> Choice
        ensures { result ≡ (terms_of (negotiation_in self.now)).choice }
    {
        choice_of(
            self.negotiate_algorithms.as_slice(),
            self.algorithms.as_slice(),
        )
    }

    // The six messages of the negotiation, one behind the other.
    fn vca(&self, alloc: Global) -> Result<Bytes, OutOfMemory>
        ensures { IfOk result (λ vca. vca ≡ vca_of (negotiation_in self.now)) }
    {
        let mut vca = Bytes::new(alloc);
        vca.extend(self.get_version.as_slice())?;
        vca.extend(self.version.as_slice())?;
        vca.extend(self.get_capabilities.as_slice())?;
        vca.extend(self.capabilities.as_slice())?;
        vca.extend(self.negotiate_algorithms.as_slice())?;
        vca.extend(self.algorithms.as_slice())?;
        Ok(vca)
    }

    // The session that PSK_EXCHANGE_RSP begins.
    fn begun(&self, alloc: Global, answer: &[u8]) -> Result<KeyedSession, OutOfMemory>
        ensures { IfOk result (λ s. s ≡ begun_by self.now answer.now) }
    {
        let id = SessionId {
            req: number_at(self.exchange.as_slice(), 4),
            rsp: number_at(answer, 4),
        };
        let vca = self.vca(alloc)?;
        let exchange = self.exchange.as_slice();
        KeyedSession::new(alloc, self.choice(), id, vca.as_slice(), exchange, answer)
    }

    // Whether PSK_EXCHANGE_RSP came before.
    fn is_repeat(&self, answer: &[u8]) -> bool
        ensures { result ≡ is_repeat self.now answer.now }
    {
        self.sessions
            .iter()
            .any(|session| began_with(session, answer))
    }

    // PSK_EXCHANGE_RSP begins a session, unless it came before.
    fn begin(&mut self, alloc: Global, answer: &[u8]) -> Result<(), OutOfMemory>
        ensures { OnOk result (self.new ≡ after_exchange self.old answer.now) }
    {
        if self.is_repeat(answer) {
            return Ok(());
        }
        let session = self.begun(alloc, answer)?;
        match self.sessions.insert(0, session) {
            Ok(()) => {
                self.sessions.truncate(MAX_SESSIONS);
                Ok(())
            }
            Err(_) => Err(OutOfMemory),
        }
    }

    // The place of the newest session with the id that a record names.
    fn place_of(&self, sealed: &[u8]) -> Option<usize>
        ensures place { result ≡ place_in self.now sealed.now }
        ensures inside { IfSome result (λ place. place < length self.now.sessions) }
    {
        let req = number_at(sealed, 0);
        let rsp = number_at(sealed, 2);
        self.sessions.iter().position(|session| session.id().req == req && session.id().rsp == rsp)
    }

    // A record of a direction, whose session stands at this place.
    fn open_at(
        &mut self,
        place: usize,
        direction: Direction,
        sealed: &[u8],
        inner: &mut RecordFrame,
    ) -> Result<RecordTold, OutOfMemory>
        requires { place < length self.old.sessions }
        ensures { IfOk result
            (λ told. IsToldIn self.old direction sealed.now place told inner.new self.new) }
    {
        let session = &mut self.sessions[place];
        let told = session.take(&self.psk, direction, sealed, inner)?;
        Ok(RecordTold::InSession(session.id(), told))
    }

    /// A record of a direction: opens it in the newest session with its id, overwrites `inner` with its inner message, and
    /// keeps what it shows of the session's transcript and keys.
    pub fn open(
        &mut self,
        direction: Direction,
        sealed: &[u8],
        inner: &mut RecordFrame,
    ) -> Result<RecordTold, OutOfMemory>
        ensures { IfOk result (λ told. IsTold self.old direction sealed.now
            (place_in self.old sealed.now) told inner.new self.new) }
    {
        match self.place_of(sealed) {
            Some(place) => self.open_at(place, direction, sealed, inner),
            None => Ok(RecordTold::NoSession),
        }
    }
}
