/// A request in the clear whose answer is awaited.
#[derive(Clone, Copy, Debug, PartialEq, Eq)]
pub enum PendingRequest {
    Version,
    Capabilities,
    Algorithms,
    Measurements { op: u8 },
    /// PSK_EXCHANGE with this ReqSessionID and kind of summary.
    Exchange { id: u16, summary: u8 },
}

/// How a request in the clear and its answer go.
#[derive(Clone, Copy, Debug, PartialEq, Eq)]
pub enum TransferMode {
    /// The request was sent whole.
    Whole,
    /// CHUNK_SEND was sent with the chunk of this number of it, from 0 on.
    ByChunks { handle: u8, number: u16 },
    /// CHUNK_GET was sent for the chunk of this number of its large response, from 0 on.
    ForChunk { handle: u8, number: u16 },
}

/// What a requester awaits.
#[derive(Clone, Copy, Debug, PartialEq, Eq)]
pub enum Outstanding {
    /// Nothing is outstanding.
    Nothing,
    /// A request in the clear is outstanding, in a message with this tag.
    InClear {
        tag: u8,
        asked: PendingRequest,
        mode: TransferMode,
    },
    /// A record of the session with this ReqSessionID is outstanding, in a message with this tag.
    InSession {
        tag: u8,
        id: u16,
    },
}

impl PendingRequest {
    ghost use Rattle.std.specs.Prelude.{◌≡◌};
    ghost use Rattle.requester_machine.specs.Answers.{may_be_large};
    ghost use Rattle.requester_machine.specs.ClearAnswers.{has_summary};
    ghost use Rattle.requester_machine.specs.History.{negotiates};
    ghost use Rattle.spdm_grammar.specs.Message.{RequestMessage};
    ghost use Rattle.requester_core.specs.Outstanding.{IsClearRequest, kind_of};

    /// Whether a summary is in the answer.
    pub fn has_summary(self) -> bool
        ensures { (asked : RequestMessage) → IsClearRequest asked → kind_of asked ≡ self
            → result ≡ has_summary asked }
    {
        match self {
            PendingRequest::Exchange { summary, .. } => summary != 0,
            _ => false,
        }
    }

    /// Whether it is a request of the negotiation.
    pub fn negotiates(self) -> bool
        ensures { (asked : RequestMessage) → IsClearRequest asked → kind_of asked ≡ self
            → result ≡ negotiates asked }
    {
        matches!(
            self,
            PendingRequest::Version | PendingRequest::Capabilities | PendingRequest::Algorithms
        )
    }

    /// Whether its answer may be large.
    pub fn may_be_large(self) -> bool
        ensures { (asked : RequestMessage) → IsClearRequest asked → kind_of asked ≡ self
            → result ≡ may_be_large asked }
    {
        !matches!(self, PendingRequest::Version | PendingRequest::Capabilities)
    }
}

impl TransferMode {
    ghost use Rattle.std.specs.Prelude.{◌≡◌};
    ghost use Rattle.requester_core.specs.Outstanding.{is_first_mode};

    // Whether it is the first chunk of a large request that was sent.
    fn is_first(self) -> bool
        ensures { result ≡ is_first_mode self }
    {
        matches!(self, TransferMode::ByChunks { number: 0, .. })
    }
}

impl Outstanding {
    ghost use Rattle.std.specs.Prelude.{◌≡◌};
    ghost use Rattle.requester_core.specs.Outstanding.{is_first};

    /// Whether the first chunk of a large request is outstanding.
    pub fn is_first(self) -> bool
        ensures { result ≡ is_first self }
    {
        match self {
            Outstanding::InClear { mode, .. } => mode.is_first(),
            _ => false,
        }
    }
}
