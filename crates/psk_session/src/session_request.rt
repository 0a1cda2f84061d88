use spdm_grammar::Stage;
use spdm_grammar::names::MAX_APP_DATA_LEN;

/// A request to send in an open session.
#[derive(Clone, Copy)]
pub enum SessionRequest<'a> {
    /// Application data, of at most 1,024 bytes.
    Data(&'a [u8]),
    /// HEARTBEAT.
    Beat,
    /// KEY_UPDATE with UpdateKey.
    UpdateKey,
    /// KEY_UPDATE with UpdateAllKeys.
    UpdateAll,
    /// GET_MEASUREMENTS with an operation.
    Measure { op: u8 },
    /// END_SESSION.
    End,
}

// What is awaited.
#[derive(Clone, Copy)]
pub enum Awaited {
    Data,
    Beat,
    // The answer to an update, of the request key or of all keys.
    Update { all: bool },
    // The answer to VerifyNewKey.
    Verify,
    Measure { op: u8 },
    // The chunk of this number of the large response to an operation.
    Chunk { op: u8, handle: u8, number: u16 },
    End,
}

impl Awaited {
    ghost use Rattle.std.specs.Prelude.{◌≡◌, List};
    ghost use Rattle.requester_machine.specs.Order.{stage_for};
    ghost use Rattle.requester_machine.specs.Records.{asks_all};
    ghost use Rattle.spdm_grammar.specs.Message.{ChunkMessage};
    ghost use Rattle.psk_session.specs.Waiting.{awaited_by};

    // The stage in which it is awaited.
    pub fn stage(self) -> Stage
        ensures { (before : List ChunkMessage) → result ≡ stage_for (awaited_by self before) }
    {
        match self {
            Awaited::Verify => Stage::Verifying,
            _ => Stage::Open,
        }
    }

    // Whether it is the answer to an update of all keys.
    pub fn is_of_all(self) -> bool
        ensures { (before : List ChunkMessage) → result ≡ asks_all (awaited_by self before) }
    {
        match self {
            Awaited::Update { all } => all,
            _ => false,
        }
    }
}

impl SessionRequest<'_> {
    ghost use Rattle.std.specs.Prelude.{◌≡◌, ◌≤◌, [], ℕ, length, nat_lt};
    ghost use Rattle.psk_session.specs.SessionRequest.{asked_of, is_long};
    ghost use Rattle.chunking.specs.Keeping as keeping;
    ghost use Rattle.psk_session.specs.Waiting.{IsBehind, IsGathered, awaited_by};

    // What is awaited once it was asked.
    pub(crate) fn awaited(&self) -> Awaited
        ensures is { awaited_by result [] ≡ asked_of self.now }
        ensures behind { (max : ℕ) → IsBehind max result [] }
        ensures gathered { (max : ℕ) (collector : keeping.Kept)
            → IsGathered max result collector [] }
    {
        match self {
            SessionRequest::Data(_) => Awaited::Data,
            SessionRequest::Beat => Awaited::Beat,
            SessionRequest::UpdateKey => Awaited::Update { all: false },
            SessionRequest::UpdateAll => Awaited::Update { all: true },
            SessionRequest::Measure { op } => Awaited::Measure { op: *op },
            SessionRequest::End => Awaited::End,
        }
    }

    // Whether it is application data of more than 1,024 bytes.
    pub(crate) fn is_long(&self) -> bool
        ensures { result ≡ is_long self.now }
    {
        matches!(self, SessionRequest::Data(bytes) if bytes.len() > MAX_APP_DATA_LEN)
    }
}
