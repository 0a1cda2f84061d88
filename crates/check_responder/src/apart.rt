//! Two answers that differ in their verify data alone: then the verdict is `bad-verify` (`judged_by` in `judged_responder.rt`).
ghost use Rattle.std.specs.Prelude.{◌≡◌, ◌-◌, length, take};
ghost use Rattle.spdm_machine.specs.Bodies.{clear_body};
ghost use Rattle.capture_machine.specs.Difference.{carries_exchange, is_apart};

use session_keys::{byte_at, same_bytes};
use spdm_grammar::names::response_code::{CHUNK_SEND_ACK, PSK_EXCHANGE_RSP};

/// Whether a message is PSK_EXCHANGE_RSP, plain or in an acknowledgement.
pub(crate) fn carries_exchange(message: &[u8]) -> bool
    ensures { result ≡ carries_exchange (clear_body message.now) }
{
    let code = byte_at(message, 1);
    code == PSK_EXCHANGE_RSP || (code == CHUNK_SEND_ACK && byte_at(message, 7) == PSK_EXCHANGE_RSP)
}

// A message without so many bytes at its end.
fn front(message: &[u8], size: usize) -> &[u8]
    ensures { result.now ≡ take (length message.now - size) message.now }
{
    let len = message.len().saturating_sub(size);
    &message[..len]
}

/// Whether two messages of one length differ in so many last bytes alone.
pub(crate) fn is_apart(size: usize, one: &[u8], other: &[u8]) -> bool
    ensures { result ≡ is_apart size (clear_body one.now) (clear_body other.now) }
{
    if one.len() != other.len() {
        return false;
    }
    if same_bytes(one, other) {
        return false;
    }
    same_bytes(front(one, size), front(other, size))
}
