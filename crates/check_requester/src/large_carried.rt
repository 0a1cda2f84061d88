ghost use Rattle.std.specs.Prelude.{◌≡◌, ◌+◌, ℕ, drop, length, take};
ghost use Rattle.std.specs.Bool.{Decides};
ghost use Rattle.chunking.specs.Cutting.{chunk_count};
ghost use Rattle.requester_machine.specs.History.{History};
ghost use Rattle.requester_machine.specs.Setup.{ReqSetup};
ghost use Rattle.spdm_grammar.specs.Message.{RequestMessage};
ghost use Rattle.spdm_grammar.specs.Requests.{canonical_request};
ghost use Rattle.check_requester.specs.LargeAsked.{IsCarried, IsFirstOut, IsHeldTo};
ghost use Rattle.check_laws.specs.Large.Pieces.{size_in};
ghost use Rattle.capture_machine.specs.LargeRequests.{common_of};

use check_laws::{byte_at, bytes_from};
use requester_core::{Body, RequesterCore};

// Where the bytes of a chunk stand in the body of CHUNK_SEND: after the length in the first one.
const FIRST_BYTES: usize = 17;

const NEXT_BYTES: usize = 13;

// The length announced by a first chunk, of at most 65,535 bytes.
fn told_size(body: &[u8]) -> usize
    ensures { result ≡ size_in body.now }
{
    byte_at(body, 13) as usize + byte_at(body, 14) as usize * 256
}

// Whether these bytes stand in others from a place on.
fn stand_at(whole: &[u8], at: usize, bytes: &[u8]) -> bool
    ensures { Decides result (take (length bytes.now) (drop at whole.now) ≡ bytes.now) }
{
    bytes_from(whole, at).starts_with(bytes)
}

// Goes on to so many further chunks of the large request whose first chunk is outstanding: whether their bytes are
// those of `whole` from a place on.
fn carries_rest(
    asking: &mut RequesterCore,
    room: &mut Body,
    whole: &[u8],
    first: usize,
    count: u32,
) -> bool
    ensures { (q : ReqSetup) (h : History) (asked : RequestMessage) (handle : ℕ)
        → IsFirstOut asking.old room.old q h asked handle
        → length whole.now ≡ length (canonical_request asked)
        → count + 1 ≡ chunk_count (common_of h).to_responder.transfer whole.now
        → IsHeldTo h (canonical_request asked) whole.now 0 first
        → IsCarried q h asked handle whole.now count result asking.new }
{
    let mut at = first;
    for number in 0..count {
        if asking.acknowledged(room).is_none() {
            return false;
        }
        let bytes = bytes_from(room.as_slice(), NEXT_BYTES);
        if !stand_at(whole, at, bytes) {
            return false;
        }
        at = at.saturating_add(bytes.len());
    }
    true
}

/// Goes on to each chunk, so many after the first one, of the large request whose first chunk is outstanding, and in
/// `room`: whether the request has these bytes.
pub(crate) fn carries(asking: &mut RequesterCore, room: &mut Body, whole: &[u8], count: u32) -> bool
    ensures { (q : ReqSetup) (h : History) (asked : RequestMessage) (handle : ℕ)
        → IsFirstOut asking.old room.old q h asked handle
        → count + 1 ≡ chunk_count (common_of h).to_responder.transfer whole.now
        → IsCarried q h asked handle whole.now count result asking.new }
{
    if told_size(room.as_slice()) != whole.len() {
        return false;
    }
    let bytes = bytes_from(room.as_slice(), FIRST_BYTES);
    if !stand_at(whole, 0, bytes) {
        return false;
    }
    let first = bytes.len();
    carries_rest(asking, room, whole, first, count)
}
