ghost use Rattle.std.specs.Prelude.{◌≡◌};

use crate::exchange::Exchange;
use crate::kept::Kept;
use crate::last::LastRecord;
use crate::number::NextNumber;
use crate::{RspSession, Work};
use negotiate::{Common, Sizes};
use responder_rules::LargeAnswer;
use secured_record::RecordKey;
use session_keys::{Handshake, SessionTerms, wipe_buffer, wipe_key, zero_hash};
use spdm_basis::{AeadAlg, Buffer, HashAlg, SessionId};
use spdm_grammar::Choice;
use transcript::Lane;

// The sizes where nothing was settled.
const NO_SIZES: Sizes = Sizes {
    transfer: 0,
    max: 0,
};

// The terms where there is no session.
const NO_TERMS: SessionTerms = SessionTerms {
    choice: Choice {
        hash: HashAlg::Sha256,
        aead: AeadAlg::Aes128Gcm,
        measure: false,
    },
    common: Common {
        measure: false,
        heartbeat: false,
        key_update: false,
        chunk: false,
        to_requester: NO_SIZES,
        to_responder: NO_SIZES,
    },
    summary: false,
    req_id: 0,
};

impl LastRecord {
    ghost use Rattle.responder_session.specs.Wiped.{IsWipedLast};

    // Overwrites the record and its reply by zeros; none is kept.
    fn wipe(&mut self)
        ensures { IsWipedLast self.new }
    {
        self.is_taken = false;
        wipe_buffer(&mut self.sealed);
        wipe_buffer(&mut self.reply);
    }
}

impl Kept {
    ghost use Rattle.responder_session.specs.Wiped.{IsWipedKept};

    // What is kept where there is no session, not overwritten yet.
    fn none() -> Kept {
        let choice = NO_TERMS.choice;
        Kept {
            request: RecordKey::of_zeros(choice.hash, choice.aead),
            response: RecordKey::of_zeros(choice.hash, choice.aead),
            request_next: NextNumber::first(),
            response_next: NextNumber::first(),
            taken: 0,
            hash: zero_hash(choice.hash),
            id: SessionId { req: 0, rsp: 0 },
            terms: NO_TERMS,
            last: LastRecord::none(),
        }
    }

    // Overwrites the keys by those of zeros, and the last record with its reply by zeros.
    fn wipe(&mut self)
        ensures { IsWipedKept self.new }
    {
        wipe_key(&mut self.request);
        wipe_key(&mut self.response);
        self.last.wipe();
    }
}

// What PSK_EXCHANGE and its answer fix, where there is no session.
fn no_exchange() -> Exchange {
    let choice = NO_TERMS.choice;
    Exchange {
        lane: Lane::new(choice.hash),
        handshake: Handshake::of_zeros(choice.hash, choice.aead),
    }
}

impl RspSession {
    ghost use Rattle.responder_session.specs.Wiped.{IsWiped};

    /// What stands where there is no session: one that was overwritten.
    pub fn wiped() -> RspSession
        ensures { IsWiped result }
    {
        let mut session = RspSession {
            stage: None,
            kept: Kept::none(),
            exchange: no_exchange(),
            large: LargeAnswer::new(),
            bytes: Buffer::new(),
        };
        session.wipe();
        session
    }

    /// Overwrites the session in place, where it ends: the keys and the secrets of the handshake by those of zeros, and
    /// each buffer by zeros, to its whole capacity.
    pub fn wipe(&mut self)
        ensures { IsWiped self.new }
    {
        self.stage = None;
        self.kept.wipe();
        self.exchange.handshake.wipe();
        self.large.wipe();
        wipe_buffer(&mut self.bytes);
    }
}

impl Work {
    ghost use Rattle.responder_session.specs.Wiped.{IsWipedWork};

    /// Overwrites the buffers by zeros, to their whole capacity.
    pub fn wipe(&mut self)
        ensures { IsWipedWork self.new }
    {
        wipe_buffer(&mut self.inner);
        wipe_buffer(&mut self.answer);
        wipe_buffer(&mut self.sent);
    }
}
