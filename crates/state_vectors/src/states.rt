use hmac_hkdf::Drawn;
use measurements::Inventory;
use negotiate::{Common, Sizes};
use psk_session::{
    FinishTook, Finishing, Opening, ReqOpen, SessionRequest, SessionTerms, Took, Waiting,
};
use responder_session::{AppQueue, ExchangeParts, RspAct, RspHandshake, RspState, RspTook};
use spdm_basis::{AeadAlg, Frame, HashAlg, Psk, RecordFrame};
use spdm_grammar::Choice;
use std::test::Fail;
use transcript::Vca;

const SIZES: Sizes = Sizes {
    transfer: 4096,
    max: 4096,
};

// Key updates, and no measurements.
const TERMS: SessionTerms = SessionTerms {
    choice: Choice {
        hash: HashAlg::Sha256,
        aead: AeadAlg::Aes128Gcm,
        measure: false,
    },
    common: Common {
        measure: false,
        heartbeat: true,
        key_update: true,
        chunk: false,
        to_requester: SIZES,
        to_responder: SIZES,
    },
    summary: false,
    req_id: 1,
};

// The head of a PSK_EXCHANGE without hint, context and opaque data, with ReqSessionID 1.
const EXCHANGE: [u8; 12] = [0x12, 0xe6, 0, 0, 1, 0, 0, 0, 0, 0, 0, 0];

const PARTS: ExchangeParts<'_> = ExchangeParts {
    heartbeat: 30,
    rsp_id: 1,
    summary: &[],
    context: &[0; 32],
    opaque: &[],
};

const DRAW: Drawn = Drawn {
    number: 0,
    bytes: [0; 32],
};

// Both ends with PSK_FINISH sent.
pub fn in_handshake() -> Result<(Finishing, RspHandshake), Fail> {
    let psk = Psk::new(&[0; 16]).ok_or("no key")?;
    let vca = Vca::new();
    let mut answer = Frame::new();
    let responder = RspHandshake::start(&vca, &psk, &EXCHANGE, TERMS, &PARTS, &mut answer);
    let requester = Opening::start(&vca, &psk, &EXCHANGE, TERMS)
        .take_response(answer.as_slice())
        .ok();
    Ok((requester.ok_or("not accepted")?, responder))
}

// The requester's open session.
pub fn opened(took: FinishTook) -> Option<ReqOpen> {
    match took {
        FinishTook::Open(open) => Some(open),
        _ => None,
    }
}

// Something is asked of an open session, without padding.
pub fn ask(open: ReqOpen, what: SessionRequest<'_>) -> Option<Waiting> {
    if open.view().response_epoch == u64::MAX {
        return None;
    }
    open.ask(what, &[]).ok()
}

// The answer to it.
pub fn take(waiting: Waiting, sealed: &[u8]) -> Option<Took> {
    if waiting.view().request_epoch == u64::MAX {
        return None;
    }
    Some(waiting.take(sealed))
}

// A record for the responder in any state.
pub fn give(
    state: RspState,
    sealed: &[u8],
    inventory: &Inventory,
    app: &mut AppQueue,
) -> Option<RspTook> {
    match state {
        RspState::Handshake(handshake) => Some(handshake.take(sealed)),
        RspState::Open(open) => {
            let view = open.view();
            if view.request_epoch == u64::MAX || view.response_epoch == u64::MAX {
                return None;
            }
            Some(open.take(sealed, &DRAW, inventory, app))
        }
        RspState::Verifying(verifying) => Some(verifying.take(sealed)),
        RspState::Ended(ended) => Some(ended.take(sealed)),
    }
}

// The state that took a record, and what was told of it.
pub fn moved(took: RspTook) -> Option<(RspState, RspAct)> {
    match took {
        RspTook::Moved(state, act) => Some((state, act)),
        _ => None,
    }
}

// The reply to the last record.
pub fn reply_of(state: &RspState) -> Result<RecordFrame, Fail> {
    let mut reply = RecordFrame::new();
    let kept = state.reply().ok_or("no reply")?;
    reply.extend(kept).ok().ok_or("too long")?;
    Ok(reply)
}

// Both ends of an open session, with what the responder uses.
#[derive(Drop)]
pub struct Ends {
    pub requester: ReqOpen,
    pub responder: RspState,
    pub inventory: Inventory,
    pub app: AppQueue,
}

impl Ends {
    pub fn open(rt: &impl AllocGlobal) -> Result<Ends, Fail> {
        let (finishing, handshake) = in_handshake()?;
        let inventory = Inventory::new(rt.alloc(), &[])?;
        let (responder, _) = moved(handshake.take(finishing.again())).ok_or("not taken")?;
        let reply = reply_of(&responder)?;
        let requester = opened(finishing.take(reply.as_slice())).ok_or("not opened")?;
        Ok(Ends {
            requester,
            responder,
            inventory,
            app: AppQueue::new(),
        })
    }
}
