use crate::Piece;
use crate::sending_large::pieces::Pieces;

/// A large request that is sent in chunks, from its first chunk to its last one: its chunks so far, and whether the
/// next one is owed. Never allocates (read, not proved).
#[derive(Drop)]
pub struct LargeRequest {
    pub(crate) pieces: Pieces,
    pub(crate) due: bool,
}

impl LargeRequest {
    ghost use Rattle.std.specs.Prelude.{◌≡◌, ℕ, List, Some, true};
    ghost use Rattle.check_laws.specs.Keeping.{Kept};
    ghost use Rattle.requester_machine.specs.History.{next_handle};
    ghost use Rattle.requester_machine.specs.Setup.{ReqSetup};
    ghost use Rattle.responder_machine.specs.History as responder_history;
    ghost use Rattle.capture_machine.specs.Capture.{may_begin};
    ghost use Rattle.capture_machine.specs.LargeRequests.{common_of};
    ghost use Rattle.capture_machine.specs.Rounds.{Round, following_tag};
    ghost use Rattle.world_machine.specs.Setup.{Configuration};
    ghost use Rattle.check_laws.specs.Large.LargeRequests.{IsBegunBy, IsToldNext, StandsFor};
    ghost use Rattle.check_laws.specs.Large.Sending.{IsSendingOf, Sending, number_of};
    ghost use Rattle.check_laws.specs.Large.SendingLaws.{with_ack_due};

    /// A body came where a large request may be begun: that which it begins, if it is the first chunk of one, under
    /// this handle, cut for a responder with this transfer size and this max size.
    pub fn begin(transfer: usize, max: usize, handle: u8, body: &[u8]) -> Option<LargeRequest>
        ensures { (k : Kept) → (common_of k.requester).chunk ≡ true
            → (common_of k.requester).to_responder.transfer ≡ transfer
            → (common_of k.requester).to_responder.max ≡ max → next_handle k.requester ≡ handle
            → IsBegunBy k body.now result }
    {
        let pieces = Pieces::first(transfer, max, handle, body)?;
        Some(LargeRequest { pieces, due: false })
    }

    /// An answer came, which the requester takes for the acknowledgement of the last chunk, unless the next one is owed
    /// already.
    pub fn acknowledge(&mut self)
        ensures { (s : Sending) (tag : ℕ) (answer : List ℕ) (h : responder_history.History)
            (round : Round) → StandsFor self.old s → StandsFor self.new (record s {
              due = with_ack_due s.due tag answer;
              responder = h;
              round = round;
            }) }
    {
        self.due = true;
    }

    /// A body came, by which a round may begin, under the next tag: whether it is the chunk that is owed, and whether
    /// that is the last one. Then all bytes are there. Where it is another body, nothing changes.
    pub fn next(&mut self, body: &[u8]) -> Piece
        ensures { (w : Configuration) (q : ReqSetup) (older : List (List ℕ)) (s : Sending) (tag : ℕ)
            → IsSendingOf w q older s → StandsFor self.old s
            → may_begin (Some s.round) body.now ≡ true → tag ≡ following_tag (Some s.round)
            → IsToldNext s tag body.now result self.old self.new }
    {
        if !self.due {
            return Piece::Other;
        }
        match self.pieces.next(body) {
            Piece::Between => {
                self.due = false;
                Piece::Between
            }
            Piece::Last => Piece::Last,
            Piece::Other => Piece::Other,
        }
    }

    /// The number of the chunk that was sent last, which is how many were acknowledged before it.
    pub fn number(&self) -> u16
        ensures { (s : Sending) → StandsFor self.now s → result ≡ number_of s }
    {
        self.pieces.number()
    }

    /// The bytes so far; all of them, once the last chunk came.
    pub fn bytes(&self) -> &[u8]
        ensures { result.now ≡ self.now.pieces.bytes }
    {
        self.pieces.bytes()
    }
}
