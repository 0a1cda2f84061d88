ghost use Rattle.std.specs.Prelude.{◌≡◌, ◌+◌, nat_lt, ℕ, List, length};
ghost use Rattle.responder_machine.specs.Handling.{goes_large};
ghost use Rattle.responder_machine.specs.Place as places;
ghost use Rattle.responder_machine.specs.Refusal.{bytes_round, is_answer_too_long, sizes_are_known};
ghost use Rattle.responder_rules.specs.Place.{IsPlace, where_of};

use crate::Place;
use spdm_grammar::Phase;

// Whether the sizes of the requester are known: from phase Capable on.
fn are_known(phase: Phase) -> bool
    ensures { result ≡ sizes_are_known phase }
{
    matches!(phase, Phase::Capable | Phase::Negotiated)
}

impl Place {
    /// Whether an answer of this length is refused: it passes the requester's max size; or its transfer size, with the
    /// bytes of CHUNK_SEND_ACK round it for a request that arrived in chunks, where it cannot be sent in chunks.
    pub fn is_too_long(&self, len: usize) -> bool
        ensures { (p : places.Place) (answer : List ℕ) → IsPlace self.now p → len ≡ length answer
            → result ≡ is_answer_too_long p answer }
    {
        let sizes = self.common.to_requester;
        are_known(self.phase)
            && (len > sizes.max as usize || (!self.common.chunk && self.passes_transfer(len)))
    }

    /// Whether an answer of this length goes by LargeResponse and CHUNK_GET.
    pub fn goes_large(&self, len: usize) -> bool
        ensures { (p : places.Place) (answer : List ℕ) → IsPlace self.now p → len ≡ length answer
            → result ≡ goes_large p answer }
    {
        are_known(self.phase) && self.passes_transfer(len)
    }

    // Whether an answer of this length passes the requester's transfer size with what stands round it.
    fn passes_transfer(&self, len: usize) -> bool
        ensures { result ≡ nat_lt self.now.common.to_requester.transfer
            (bytes_round (where_of self.now.at) + len) }
    {
        let transfer = self.common.to_requester.transfer as usize;
        match transfer.checked_sub(self.at.bytes_round()) {
            Some(room) => room < len,
            None => true,
        }
    }
}
