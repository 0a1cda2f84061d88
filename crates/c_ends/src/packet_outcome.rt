// What C is told of a packet. The numbers are those of `specs/Telling.antt`.
ghost use Rattle.std.specs.Prelude.{◌≡◌};
ghost use Rattle.c_ends.specs.Telling.{caps_code, caused, chunk_code, detailed, drop_code, event_told, finished_told, heard_told, ignored_told, lost_told, numbered, of_session, packet_code, record_code, session_number, stopped_told, unheard_told};

use requester::{Event, Finished, ReqIgnored, Stop};
use responder::{Heard, RspIgnored};
use spdm_basis::{DropCause, PacketFault, RecordFault, SessionId};
use spdm_grammar::{BadReply, CapsFault, ChunkFault};

/// What a packet led to. What a case does not carry is 0.
#[repr(C)]
#[derive(Clone, Copy, Debug, PartialEq, Eq)]
pub struct PacketOutcome {
    pub kind: u32,
    /// Which one of the kind: what is done, or why nothing changed.
    pub cause: u32,
    /// Which one of the cause.
    pub detail: u32,
    /// ReqSessionID in the low half, and RspSessionID in the high one.
    pub session: u32,
    /// The code of a request or of an ERROR, a count of measurements, or the place of a malformed byte.
    pub number: u64,
}

// Without a detail, a session and a number.
fn caused(kind: u32, cause: u32) -> PacketOutcome
    ensures { result ≡ caused kind cause }
{
    PacketOutcome {
        kind,
        cause,
        detail: 0,
        session: 0,
        number: 0,
    }
}

fn detailed(kind: u32, cause: u32, detail: u32) -> PacketOutcome
    ensures { result ≡ detailed kind cause detail }
{
    PacketOutcome {
        detail,
        ..caused(kind, cause)
    }
}

// What the high half of a session ID is counted in.
const HALF: u32 = 0x1_0000;

/// A session ID as one number.
pub fn session_number(id: SessionId) -> u32
    ensures { result ≡ session_number id }
{
    u32::from(id.req) + HALF * u32::from(id.rsp)
}

fn of_session(kind: u32, cause: u32, id: SessionId) -> PacketOutcome
    ensures { result ≡ of_session kind cause id }
{
    PacketOutcome {
        session: session_number(id),
        ..caused(kind, cause)
    }
}

fn numbered(kind: u32, cause: u32, number: u64) -> PacketOutcome
    ensures { result ≡ numbered kind cause number }
{
    PacketOutcome {
        number,
        ..caused(kind, cause)
    }
}

fn packet_code(why: PacketFault) -> u32
    ensures { result ≡ packet_code why }
{
    match why {
        PacketFault::Short => 1,
        PacketFault::WrongVersion => 2,
    }
}

fn drop_code(why: DropCause) -> u32
    ensures { result ≡ drop_code why }
{
    match why {
        DropCause::NotOurs => 1,
        DropCause::NoStart => 2,
        DropCause::WrongSequence => 3,
        DropCause::WrongSize => 4,
        DropCause::TooLong => 5,
        DropCause::IntegritySet => 6,
    }
}

fn record_code(why: RecordFault) -> u32
    ensures { result ≡ record_code why }
{
    match why {
        RecordFault::Short => 1,
        RecordFault::WrongId => 2,
        RecordFault::WrongNumber => 3,
        RecordFault::WrongLength => 4,
        RecordFault::BadTag => 5,
        RecordFault::BadInnerLength => 6,
        RecordFault::KeySpent => 7,
    }
}

fn chunk_code(why: ChunkFault) -> u32
    ensures { result ≡ chunk_code why }
{
    match why {
        ChunkFault::WrongHandle => 1,
        ChunkFault::WrongNumber => 2,
        ChunkFault::WrongSize => 3,
        ChunkFault::TooLarge => 4,
        ChunkFault::EarlyLast => 5,
        ChunkFault::MissingLast => 6,
    }
}

fn caps_code(why: CapsFault) -> u32
    ensures { result ≡ caps_code why }
{
    match why {
        CapsFault::SizeTooSmall => 1,
        CapsFault::SizesCrossed => 2,
        CapsFault::NoPsk => 3,
        CapsFault::NoProtection => 4,
    }
}

fn unheard_told(why: RspIgnored) -> PacketOutcome
    ensures { result ≡ unheard_told why }
{
    match why {
        RspIgnored::Worn => caused(7, 1),
        RspIgnored::Packet(why) => detailed(7, 2, packet_code(why)),
        RspIgnored::Dropped(why) => detailed(7, 3, drop_code(why)),
        RspIgnored::UnknownPeer => caused(7, 4),
        RspIgnored::NotRequest => caused(7, 5),
        RspIgnored::OtherType => caused(7, 6),
    }
}

/// What a packet led to at a responder.
pub fn heard_told(heard: Heard) -> PacketOutcome
    ensures { result ≡ heard_told heard }
{
    match heard {
        Heard::Answered(code) => numbered(1, 0, u64::from(code)),
        Heard::Taken(id) => of_session(2, 0, id),
        Heard::Refused(code) => numbered(3, 0, u64::from(code)),
        Heard::Unopened => caused(4, 0),
        Heard::Same => caused(5, 0),
        Heard::More => caused(6, 0),
        Heard::Ignored(why) => unheard_told(why),
    }
}

fn finished_told(finished: Finished) -> PacketOutcome
    ensures { result ≡ finished_told finished }
{
    match finished {
        Finished::Connected => caused(18, 1),
        Finished::Opened(id) => of_session(18, 2, id),
        Finished::Answered(id) => of_session(18, 3, id),
        Finished::Alive(id) => of_session(18, 4, id),
        Finished::Updated(id) => of_session(18, 5, id),
        Finished::Measured(count) => numbered(18, 6, u64::from(count)),
        Finished::Ended(id) => of_session(18, 7, id),
    }
}

fn stopped_told(why: Stop) -> PacketOutcome
    ensures { result ≡ stopped_told why }
{
    match why {
        Stop::NoVersion => caused(21, 1),
        Stop::Caps(why) => detailed(21, 2, caps_code(why)),
        Stop::NoChoice => caused(21, 3),
        Stop::TooLong => caused(21, 4),
    }
}

fn lost_told(why: BadReply) -> PacketOutcome
    ensures { result ≡ lost_told why }
{
    match why {
        BadReply::TooLong => caused(22, 1),
        BadReply::Malformed(place) => numbered(22, 2, place as u64),
        BadReply::WrongKind => caused(22, 3),
        BadReply::Refused(code) => numbered(22, 4, u64::from(code)),
        BadReply::Chunk(why) => detailed(22, 5, chunk_code(why)),
    }
}

fn ignored_told(why: ReqIgnored) -> PacketOutcome
    ensures { result ≡ ignored_told why }
{
    match why {
        ReqIgnored::Worn => caused(23, 1),
        ReqIgnored::Packet(why) => detailed(23, 2, packet_code(why)),
        ReqIgnored::Dropped(why) => detailed(23, 3, drop_code(why)),
        ReqIgnored::NotResponse => caused(23, 4),
        ReqIgnored::NothingOutstanding => caused(23, 5),
        ReqIgnored::WrongTag => caused(23, 6),
        ReqIgnored::OtherType => caused(23, 7),
        ReqIgnored::WrongPlace => caused(23, 8),
        ReqIgnored::TooLong => caused(23, 9),
        ReqIgnored::Malformed(place) => numbered(23, 10, place as u64),
        ReqIgnored::Chunk(why) => detailed(23, 11, chunk_code(why)),
        ReqIgnored::BadVerify => caused(23, 12),
        ReqIgnored::Record(why) => detailed(23, 13, record_code(why)),
    }
}

/// What a packet led to at a requester.
pub fn event_told(event: Event) -> PacketOutcome
    ensures { result ≡ event_told event }
{
    match event {
        Event::Progress => caused(16, 0),
        Event::More => caused(17, 0),
        Event::Done(finished) => finished_told(finished),
        Event::Refused(code) => numbered(19, 0, u64::from(code)),
        Event::Warned(code) => numbered(20, 0, u64::from(code)),
        Event::Stopped(why) => stopped_told(why),
        Event::Lost(id, why) => PacketOutcome {
            session: session_number(id),
            ..lost_told(why)
        },
        Event::Ignored(why) => ignored_told(why),
    }
}
