//! The words of a trace for phases and stages, and for causes: of faults, of what is ignored, and of negotiations that
//! stop. Those of outcomes and events, as `answered` and `lost`, are in `trace_lines.rt`.
ghost use Rattle.std.specs.Prelude.{◌≡◌, ◌≤◌, length};
ghost use Rattle.trace_text.specs.TraceWords.{phase_word, stage_word, command_fault_word, reply_fault_word, responder_ignored_word, requester_ignored_word, stop_word};

use spdm_grammar::{CommandFault, Phase, ReplyFault, ReqIgnored, RspIgnored, Stage, Stop};

/// The word of a phase.
pub fn phase_word(phase: Phase) -> &'static [u8]
    ensures word { result.now ≡ phase_word phase }
    ensures short { length result.now ≤ 20 }
{
    match phase {
        Phase::Fresh => b"fresh",
        Phase::Versioned => b"versioned",
        Phase::Capable => b"capable",
        Phase::Negotiated => b"negotiated",
    }
}

/// The word of a stage.
pub fn stage_word(stage: Stage) -> &'static [u8]
    ensures word { result.now ≡ stage_word stage }
    ensures short { length result.now ≤ 20 }
{
    match stage {
        Stage::Handshake => b"handshake",
        Stage::Open => b"open",
        Stage::Verifying => b"verifying",
    }
}

/// The word of a fault of a command.
pub fn command_fault_word(fault: CommandFault) -> &'static [u8]
    ensures word { result.now ≡ command_fault_word fault }
    ensures short { length result.now ≤ 20 }
{
    match fault {
        CommandFault::Worn => b"worn",
        CommandFault::NothingToRetry => b"nothing-to-retry",
        CommandFault::Busy => b"busy",
        CommandFault::NotConnected => b"not-connected",
        CommandFault::NoSuchSession => b"no-session",
        CommandFault::SessionLimit => b"session-limit",
        CommandFault::NotNegotiated => b"not-negotiated",
        CommandFault::BadSummary => b"bad-summary",
        CommandFault::KeySpent => b"key-spent",
        CommandFault::TooLong => b"too-long",
    }
}

/// The word of a fault of a reply.
pub fn reply_fault_word(fault: ReplyFault) -> &'static [u8]
    ensures word { result.now ≡ reply_fault_word fault }
    ensures short { length result.now ≤ 20 }
{
    match fault {
        ReplyFault::UnknownPeer => b"unknown-peer",
        ReplyFault::TooLong => b"too-long",
        ReplyFault::Full => b"full",
    }
}

/// The word for why the responder ignores a packet.
pub fn responder_ignored_word(why: RspIgnored) -> &'static [u8]
    ensures word { result.now ≡ responder_ignored_word why }
    ensures short { length result.now ≤ 20 }
{
    match why {
        RspIgnored::Worn => b"worn",
        RspIgnored::Packet(_) => b"packet",
        RspIgnored::Dropped(_) => b"dropped",
        RspIgnored::UnknownPeer => b"unknown-peer",
        RspIgnored::NotRequest => b"not-request",
        RspIgnored::OtherType => b"other-type",
    }
}

/// The word for why a requester ignores a packet.
pub fn requester_ignored_word(why: ReqIgnored) -> &'static [u8]
    ensures word { result.now ≡ requester_ignored_word why }
    ensures short { length result.now ≤ 20 }
{
    match why {
        ReqIgnored::Worn => b"worn",
        ReqIgnored::Packet(_) => b"packet",
        ReqIgnored::Dropped(_) => b"dropped",
        ReqIgnored::NotResponse => b"not-response",
        ReqIgnored::NothingOutstanding => b"nothing-outstanding",
        ReqIgnored::WrongTag => b"wrong-tag",
        ReqIgnored::OtherType => b"other-type",
        ReqIgnored::WrongPlace => b"wrong-place",
        ReqIgnored::TooLong => b"too-long",
        ReqIgnored::Malformed(_) => b"malformed",
        ReqIgnored::Chunk(_) => b"chunk",
        ReqIgnored::BadVerify => b"bad-verify",
        ReqIgnored::Record(_) => b"record",
    }
}

/// The word for why a negotiation stops.
pub fn stop_word(stop: Stop) -> &'static [u8]
    ensures word { result.now ≡ stop_word stop }
    ensures short { length result.now ≤ 20 }
{
    match stop {
        Stop::NoVersion => b"no-version",
        Stop::Caps(_) => b"caps",
        Stop::NoChoice => b"no-choice",
        Stop::TooLong => b"too-long",
    }
}
