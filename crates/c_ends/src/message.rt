// What C is told of an application message before its packet is taken. The numbers are those of `specs/Peeking.antt`.
ghost use Rattle.std.specs.Prelude.{◌≡◌, Some};
ghost use Rattle.c_ends.specs.Peeking.{IsPeeked, message_told};

use crate::codes;
use crate::packet_outcome::session_number;
use crate::writing::write_over;
use responder::Peeked;
use spdm_basis::{Eid, SessionId};

/// Who sends an application message, and in which session.
#[repr(C)]
#[derive(Clone, Copy, Debug, PartialEq, Eq)]
pub struct Message {
    /// The endpoint ID of the requester.
    pub eid: u32,
    /// ReqSessionID in the low half, and RspSessionID in the high one.
    pub session: u32,
}

fn message_told(eid: Eid, id: SessionId) -> Message
    ensures { result ≡ message_told eid.number id }
{
    Message {
        eid: u32::from(eid.number()),
        session: session_number(id),
    }
}

/// Tells a message, and writes its data into a caller's room, and their length. Where they do not fit the length alone is
/// written.
pub(crate) fn put_message(
    peeked: &Peeked<'_>,
    message: &mut Message,
    room: &mut [u8],
    len: &mut usize,
) -> u32
    ensures { IsPeeked peeked.now.eid.number (Some (peeked.now.id, peeked.now.data.now)) result
        room.old room.new len.old len.new message.old message.new }
{
    *len = peeked.data.len();
    if room.len() < peeked.data.len() {
        return codes::ROOM;
    }
    write_over(peeked.data, room);
    *message = message_told(peeked.eid, peeked.id);
    codes::OK
}
