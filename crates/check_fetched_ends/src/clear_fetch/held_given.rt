ghost use Rattle.std.specs.Prelude.{◌≡◌, ◌<◌, ◌+◌, ℕ, List, ◌∷◌, None, true, false};
ghost use Rattle.responder_core.specs.Connected.{StandsFor};
ghost use Rattle.responder_core.specs.Setup.{IsSetUp};
ghost use Rattle.check_fetched_laws.specs.ClearChunks.{IsNextGet, get_entry, get_response};
ghost use Rattle.check_fetched_ends.specs.LastHeld.{AreAsked, CanBeGiven, count_at};
ghost use Rattle.responder_machine.specs.History.{History};
ghost use Rattle.responder_machine.specs.Setup.{RspSetup};
ghost use Rattle.capture_machine.specs.LargeAnswers.{with_large};

use crate::clear_fetch::held_version::least_values;
use crate::session_fetch::in_session::bytes_in;
use responder_core::{Connection, Setup};
use session_keys::byte_at;
use spdm_basis::Frame;
use spdm_codec::write_request;
use spdm_grammar::Request;

// CHUNK_GET came with a tag: the chunk that answers it overwrites `out`.
fn ask_chunk(
    connection: &mut Connection,
    setup: &Setup<'_>,
    tag: u8,
    handle: u8,
    number: u16,
    out: &mut Frame,
)
    ensures stands { (r : RspSetup) (h : History) (whole : List ℕ) → IsSetUp setup.now r
        → StandsFor connection.old r (with_large None whole h)
        → IsNextGet r h whole tag handle number
        → StandsFor connection.new r
        (get_entry tag handle number (get_response h whole handle number) ∷ with_large None whole h) }
    ensures gives { (r : RspSetup) (h : History) (whole : List ℕ) → IsSetUp setup.now r
        → StandsFor connection.old r (with_large None whole h)
        → IsNextGet r h whole tag handle number → out.new ≡ get_response h whole handle number }
{
    let mut message = Frame::new();
    let _ = write_request(&Request::ChunkGet { handle, number }, 0, &mut message);
    let values = least_values(connection);
    let _ = connection.on_clear(setup, tag, message.as_slice(), &values, out);
}

// The next chunk of a large response is asked for, with this number, and its bytes are put after these; whether it is
// the last one.
fn give_next(
    connection: &mut Connection,
    setup: &Setup<'_>,
    tag: u8,
    handle: u8,
    number: u16,
    bytes: &mut Frame,
) -> bool
    ensures asked { (r : RspSetup) (h : History) (whole : List ℕ) → IsSetUp setup.now r
        → CanBeGiven r h whole tag handle → number < count_at h whole
        → AreAsked connection.old bytes.old r h whole tag handle number
        → AreAsked connection.new bytes.new r h whole tag handle (number + 1) }
    ensures all { (r : RspSetup) (h : History) (whole : List ℕ) → IsSetUp setup.now r
        → CanBeGiven r h whole tag handle → number < count_at h whole
        → AreAsked connection.old bytes.old r h whole tag handle number → result ≡ true
        → AreAsked connection.new bytes.new r h whole tag handle (count_at h whole) }
    ensures more { (r : RspSetup) (h : History) (whole : List ℕ) → IsSetUp setup.now r
        → CanBeGiven r h whole tag handle → number < count_at h whole
        → AreAsked connection.old bytes.old r h whole tag handle number → result ≡ false
        → number + 1 < count_at h whole }
{
    let mut out = Frame::new();
    ask_chunk(connection, setup, tag, handle, number, &mut out);
    let _ = bytes.extend(bytes_in(number, out.as_slice()));
    byte_at(out.as_slice(), 2) == 1
}

/// The chunks of a large response that is pending in the clear are asked for, from the first one to the one with this
/// number at most, and their bytes are put after what `bytes` holds; whether there are no more.
pub(crate) fn give_all(
    connection: &mut Connection,
    setup: &Setup<'_>,
    tag: u8,
    handle: u8,
    last: u16,
    bytes: &mut Frame,
) -> bool
    ensures all { (r : RspSetup) (h : History) (whole : List ℕ) → IsSetUp setup.now r
        → CanBeGiven r h whole tag handle → AreAsked connection.old bytes.old r h whole tag handle 0
        → result ≡ true → AreAsked connection.new bytes.new r h whole tag handle (count_at h whole) }
    ensures more { (r : RspSetup) (h : History) (whole : List ℕ) → IsSetUp setup.now r
        → CanBeGiven r h whole tag handle → AreAsked connection.old bytes.old r h whole tag handle 0
        → result ≡ false → last + 1 < count_at h whole }
{
    for number in 0..u32::from(last) + 1 {
        if give_next(connection, setup, tag, handle, number as u16, bytes) {
            return true;
        }
    }
    false
}
