ghost use Rattle.std.specs.Prelude.{◌≡◌, replicate};

use crate::kept::Kept;
use crate::{Finishing, ReqSession, SessionTerms, SessionTold};
use negotiate::{Common, Sizes};
use secured_record::RecordKey;
use session_keys::{wipe_buffer, wipe_key, zero_hash};
use spdm_basis::{AeadAlg, HashAlg, Psk, SessionId};
use spdm_grammar::Choice;

// The sizes where nothing was settled.
const NO_SIZES: Sizes = Sizes {
    transfer: 0,
    max: 0,
};

// The terms where there is no session.
const NO_TERMS: SessionTerms = SessionTerms {
    choice: Choice {
        hash: HashAlg::Sha256,
        aead: AeadAlg::Aes128Gcm,
        measure: false,
    },
    common: Common {
        measure: false,
        heartbeat: false,
        key_update: false,
        chunk: false,
        to_requester: NO_SIZES,
        to_responder: NO_SIZES,
    },
    summary: false,
    req_id: 0,
};

// What is kept where there is no session.
fn kept_of_none() -> Kept {
    let choice = NO_TERMS.choice;
    Kept {
        request: RecordKey::of_zeros(choice.hash, choice.aead),
        response: RecordKey::of_zeros(choice.hash, choice.aead),
        request_next: 0,
        response_next: 0,
        taken: 0,
        th2: zero_hash(choice.hash),
        id: SessionId { req: 0, rsp: 0 },
        terms: NO_TERMS,
        told: SessionTold::none(),
    }
}

/// Overwrites a pre-shared key by the longest key of zeros, to its whole capacity.
pub fn wipe_psk(psk: &mut Psk)
    ensures { psk.new ≡ replicate 64 0 }
{
    match Psk::new(&[0u8; 64]) {
        Some(zeros) => *psk = zeros,
        None => unreachable!(),
    }
}

impl Finishing {
    ghost use Rattle.psk_session.specs.Wiped.{IsWipedFinishing};

    /// Overwrites the secrets of the handshake and the key of the responder's records, where the session ends.
    pub fn wipe(&mut self)
        ensures { IsWipedFinishing self.new }
    {
        self.handshake.wipe();
        wipe_key(&mut self.response);
    }
}

impl ReqSession {
    ghost use Rattle.psk_session.specs.Wiped.{IsWiped};

    /// What may stand where a session was: one that was overwritten. Not to be gone on with.
    pub fn wiped() -> ReqSession
        ensures { IsWiped result }
    {
        let mut session = ReqSession::new(kept_of_none());
        session.wipe();
        session
    }

    /// Overwrites the session in place, where it ends: the keys by those of zeros, and each buffer that held a plaintext
    /// by zeros, to its whole capacity. Not to be gone on with.
    pub fn wipe(&mut self)
        ensures { IsWiped self.new }
    {
        wipe_key(&mut self.kept.request);
        wipe_key(&mut self.kept.response);
        wipe_buffer(&mut self.sent);
        wipe_buffer(&mut self.brought);
        self.gathered.wipe();
    }
}
