ghost use Rattle.std.specs.Prelude.{◌≡◌, ◌≤◌, length};
ghost use Rattle.spdm_basis.specs.Sizes.{hash_size};
ghost use Rattle.spdm_basis.specs.declared.values.hash_alg.HashAlg.TheVariants.{Sha256};

use crate::bench_error::BenchError;
use measurements::Inventory;
use negotiate::{Common, Sizes};
use psk_session::{FinishTook, Opening, ReqSession, ResponseOutcome, SessionRequest, SessionTerms};
use responder_session::{ExchangeParts, ResponseValues, RspAct, RspSession, RspTold, Work};
use secured_record::RecordKey;
use session_keys::{APP_DATA, Handshake};
use spdm_basis::{AeadAlg, Frame, HashAlg, HashBytes, Psk, RecordFrame, SessionId};
use spdm_grammar::Choice;
use std::alloc::Global;
use transcript::{Lane, Vca};

const HASH: HashAlg = HashAlg::Sha256;

const AEAD: AeadAlg = AeadAlg::Aes128Gcm;

const ID: SessionId = SessionId { req: 1, rsp: 1 };

const SIZES: Sizes = Sizes {
    transfer: 4096,
    max: 4096,
};

const TERMS: SessionTerms = SessionTerms {
    choice: Choice {
        hash: HASH,
        aead: AEAD,
        measure: false,
    },
    common: Common {
        measure: false,
        heartbeat: false,
        key_update: false,
        chunk: false,
        to_requester: SIZES,
        to_responder: SIZES,
    },
    summary: false,
    req_id: 1,
};

/// Both ends of an open session under a pre-shared key of zeros.
#[derive(Drop)]
pub struct Talk {
    requester: ReqSession,
    responder: RspSession,
    inventory: Inventory,
    work: Work,
}

/// The keys of such a session, with the inner message that was opened last and the record that was sealed last.
#[derive(Drop)]
pub struct Records {
    request: RecordKey,
    response: RecordKey,
    inner: RecordFrame,
    sealed: RecordFrame,
}

// A pre-shared key of zeros.
fn psk() -> Result<Psk, BenchError> {
    Psk::new(&[0; 16]).ok_or(BenchError::NoSession)
}

// The responder after a PSK_EXCHANGE of no bytes, with its answer.
fn begin(psk: &Psk, answer: &mut Frame) -> RspSession {
    let parts = ExchangeParts {
        heartbeat: 0,
        rsp_id: 1,
        summary: &[],
        context: &[0; 32],
        opaque: &[],
    };
    RspSession::start(&Vca::new(), psk, &[], TERMS, &parts, answer)
}

// What is free of the answer to application data: the data that are sent back.
fn sent_back(text: &[u8]) -> ResponseValues<'_>
    ensures reply { result.reply.now ≡ text.now }
    ensures nonce { length result.nonce.now ≡ 32 }
    ensures opaque { length result.opaque.now ≤ 1024 }
    ensures pad { length result.pad.now ≤ 16 }
{
    ResponseValues {
        nonce: &[0; 32],
        opaque: &[],
        handle: 0,
        reply: text,
        pad: &[],
    }
}

impl Talk {
    /// Both ends after their handshake.
    pub fn begin(alloc: Global) -> Result<Talk, BenchError> {
        let psk = psk()?;
        let mut answer = Frame::new();
        let mut responder = begin(&psk, &mut answer);
        let opening = Opening::start(&Vca::new(), &psk, &[], TERMS);
        let Ok(finishing) = opening.take_response(answer.as_slice()) else {
            return Err(BenchError::NoSession);
        };
        let inventory = Inventory::new(alloc, &[]).map_err(|_| BenchError::OutOfMemory)?;
        let mut work = Work::new();
        responder.take_with(
            finishing.again(),
            Some(&inventory),
            &sent_back(&[]),
            &mut work,
        );
        let reply = responder.reply().ok_or(BenchError::NoSession)?;
        let FinishTook::Open(open) = finishing.take(reply) else {
            return Err(BenchError::NoSession);
        };
        Ok(Talk {
            requester: open.into_session(),
            responder,
            inventory,
            work,
        })
    }

    // One round trip: the requester sends a text of at most 1,024 bytes, and the responder sends it back.
    fn turn(&mut self, text: &[u8]) -> Result<(), BenchError>
        requires { length text.now ≤ 1024 }
    {
        let requester = &mut self.requester;
        if !requester.is_open() || requester.response_epoch() == u64::MAX {
            return Err(BenchError::NoSession);
        }
        requester
            .ask(SessionRequest::Data(text), &[])
            .map_err(|_| BenchError::Refused)?;
        let free = sent_back(text);
        let told = self.responder.take_with(
            requester.again(),
            Some(&self.inventory),
            &free,
            &mut self.work,
        );
        if told != RspTold::Moved(RspAct::Data) {
            return Err(BenchError::Refused);
        }
        let reply = self.responder.reply().ok_or(BenchError::NoSession)?;
        if !requester.is_awaiting() || requester.request_epoch() == u64::MAX {
            return Err(BenchError::NoSession);
        }
        match requester.take(reply) {
            ResponseOutcome::Answer(_) => Ok(()),
            _ => Err(BenchError::Refused),
        }
    }
}

// The hash of T1 after a PSK_EXCHANGE of no bytes: the answer without its verify data.
fn hash_of_t1(answer: &Frame) -> HashBytes
    ensures { length result ≡ hash_size Sha256 }
{
    let end = answer.as_slice().len().saturating_sub(HASH.size());
    let mut lane = Lane::new(HASH);
    lane.push(answer.as_slice().get(..end).unwrap_or(&[]));
    lane.finish()
}

impl Records {
    /// The keys after the handshake.
    pub fn begin(alloc: Global) -> Result<Records, BenchError> {
        let th2 = Talk::begin(alloc)?.requester.view().hash;
        if th2.as_slice().len() != HASH.size() {
            return Err(BenchError::NoSession);
        }
        let psk = psk()?;
        let mut answer = Frame::new();
        let _ = begin(&psk, &mut answer);
        let keys = Handshake::new(HASH, AEAD, &psk, hash_of_t1(&answer)).app_keys(&th2);
        Ok(Records {
            request: RecordKey::new(keys.request),
            response: RecordKey::new(keys.response),
            inner: RecordFrame::new(),
            sealed: RecordFrame::new(),
        })
    }

    // The cryptography of a round trip, of an inner message: both records, each sealed and opened.
    fn turn(&mut self, number: u16, inner: &[u8]) -> Result<(), BenchError> {
        let (heard, sealed) = (&mut self.inner, &mut self.sealed);
        let _ = self.request.seal(ID, number, inner, &[], sealed);
        self.request
            .open(ID, number, sealed.as_slice(), heard)
            .map_err(|_| BenchError::Refused)?;
        let _ = self
            .response
            .seal(ID, number, heard.as_slice(), &[], sealed);
        self.response
            .open(ID, number, sealed.as_slice(), heard)
            .map_err(|_| BenchError::Refused)
    }
}

/// Has a requester send `count` application messages of `size` zeros, each of which its responder sends back, and gives
/// the last record of the responder in hexadecimal. A session refuses more than 65,535 of them, and more than 1,024
/// bytes.
pub fn last_of_session(alloc: Global, size: usize, count: u16) -> Result<String, BenchError> {
    if size > 1024 {
        return Err(BenchError::Refused);
    }
    let text = vec![in alloc; 0u8; size]?;
    let mut talk = Talk::begin(alloc)?;
    for _ in 0..count {
        talk.turn(text.as_slice())?;
    }
    let last = talk.responder.reply().ok_or(BenchError::NoSession)?;
    Ok(hex::encode(alloc, last)?)
}

/// Seals and opens the same records under the same keys, without a session.
pub fn last_of_records(alloc: Global, size: usize, count: u16) -> Result<String, BenchError> {
    let mut inner = Vec::new(alloc);
    inner.push(APP_DATA).map_err(|_| BenchError::OutOfMemory)?;
    for _ in 0..size {
        inner.push(0).map_err(|_| BenchError::OutOfMemory)?;
    }
    let mut records = Records::begin(alloc)?;
    for number in 0..count {
        records.turn(number, inner.as_slice())?;
    }
    Ok(hex::encode(alloc, records.sealed.as_slice())?)
}
