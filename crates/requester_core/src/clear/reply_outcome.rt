use spdm_grammar::{Event, ReqIgnored};

/// The outcome of a message in the clear.
#[derive(Clone, Copy, Debug, PartialEq, Eq)]
pub enum ReplyOutcome {
    /// It is ignored, and nothing changed.
    Ignored(ReqIgnored),
    /// This is reported, and nothing is outstanding any more.
    Rests(Event),
    /// A further message was sent, with this tag.
    Sends { tag: u8 },
    /// CHUNK_GET for the first chunk of a large response was sent, with this tag.
    Large { tag: u8 },
    /// CHUNK_GET for the next chunk of a large response was sent, with this tag.
    More { tag: u8 },
    /// It brings the PSK_EXCHANGE_RSP that is awaited, whose verify data its session compares. That is written, and
    /// nothing changed.
    Exchange,
}

impl ReplyOutcome {
    ghost use Rattle.std.specs.Prelude.{◌≡◌};
    ghost use Rattle.requester_core.specs.ReplyOutcome.{changes_nothing, is_large};

    // Whether nothing changed.
    pub(crate) fn changes_nothing(&self) -> bool
        ensures { result ≡ changes_nothing self.now }
    {
        matches!(self, ReplyOutcome::Ignored(_) | ReplyOutcome::Exchange)
    }

    // Whether it calls for the first chunk of a large response.
    pub(crate) fn is_large(&self) -> bool
        ensures { result ≡ is_large self.now }
    {
        matches!(self, ReplyOutcome::Large { .. })
    }
}
