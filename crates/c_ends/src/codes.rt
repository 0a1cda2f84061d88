//! What calls answer. Each group of causes begins at a multiple of 16.
ghost use Rattle.std.specs.Prelude.{◌≡◌};
ghost use Rattle.c_ends.specs.Codes.{argument_code, command_code, reply_code, requester_code, reset_code, responder_code};

use crate::argument::ArgumentFault;
use measurements::InventoryFault;
use requester::{CommandFault, ReqConfigFault};
use responder::{ReplyFault, ResetFault, RspConfigFault};

/// It is done.
pub const OK: u32 = 0;

/// The end is not open.
pub const CLOSED: u32 = 1;

/// The end is open already.
pub const OPEN: u32 = 2;

/// There is not enough memory.
pub const MEMORY: u32 = 3;

/// The bytes do not fit into the room.
pub const ROOM: u32 = 4;

/// Nothing has this index.
pub const NONE: u32 = 5;

/// No requester has this endpoint ID.
pub const UNKNOWN_PEER: u32 = 6;

/// The header of the caller is not that of this build.
pub const HEADER: u32 = 7;

/// All boot numbers were used.
pub const BOOTS_SPENT: u32 = 8;

/// An endpoint ID is below 8, or is 255.
pub const BAD_EID: u32 = 16;

/// A pre-shared key is empty, or has more than 64 bytes.
pub const BAD_PSK: u32 = 17;

/// The algorithms are none of 1, 2 and 3.
pub const BAD_ALGORITHMS: u32 = 18;

/// The boot number is above 2^24 - 2.
pub const BAD_BOOT: u32 = 19;

/// No command has this number.
pub const BAD_COMMAND: u32 = 20;

/// The text of a policy has a bad line, or more than 4 MiB.
pub const BAD_POLICY: u32 = 21;

/// The end has taken 2^40 packets and commands.
pub const WORN: u32 = 48;

/// The code of an argument.
pub(crate) fn of_argument(fault: ArgumentFault) -> u32
    ensures { result ≡ argument_code fault }
{
    match fault {
        ArgumentFault::Eid => BAD_EID,
        ArgumentFault::Psk => BAD_PSK,
        ArgumentFault::Algorithms => BAD_ALGORITHMS,
        ArgumentFault::Boot => BAD_BOOT,
    }
}

/// The code of a responder's configuration.
pub(crate) fn of_responder(fault: RspConfigFault) -> u32
    ensures { result ≡ responder_code fault }
{
    match fault {
        RspConfigFault::TooManyRequesters => 32,
        RspConfigFault::SameEid => 33,
        RspConfigFault::SamePsk => 34,
        RspConfigFault::SizeRange => 35,
        RspConfigFault::Inventory(InventoryFault::IndexOutOfRange) => 36,
        RspConfigFault::Inventory(InventoryFault::IndexTaken) => 37,
        RspConfigFault::Inventory(InventoryFault::TooLong) => 38,
        RspConfigFault::Inventory(InventoryFault::OutOfMemory) | RspConfigFault::OutOfMemory => {
            MEMORY
        }
    }
}

/// The code of a requester's configuration.
pub(crate) fn of_requester(fault: ReqConfigFault) -> u32
    ensures { result ≡ requester_code fault }
{
    match fault {
        ReqConfigFault::SameEid => 33,
        ReqConfigFault::SizeRange => 35,
        ReqConfigFault::OutOfMemory => MEMORY,
    }
}

/// The code of a command.
pub(crate) fn of_command(fault: CommandFault) -> u32
    ensures { result ≡ command_code fault }
{
    match fault {
        CommandFault::Worn => WORN,
        CommandFault::NothingToRetry => 49,
        CommandFault::Busy => 50,
        CommandFault::NotConnected => 51,
        CommandFault::NoSuchSession => 52,
        CommandFault::SessionLimit => 53,
        CommandFault::NotNegotiated => 54,
        CommandFault::BadSummary => 55,
        CommandFault::KeySpent => 56,
        CommandFault::TooLong => 57,
    }
}

/// The code of a reply.
pub(crate) fn of_reply(fault: ReplyFault) -> u32
    ensures { result ≡ reply_code fault }
{
    match fault {
        ReplyFault::UnknownPeer => UNKNOWN_PEER,
        ReplyFault::TooLong => 64,
        ReplyFault::Full => 65,
    }
}

/// The code of a reset.
pub(crate) fn of_reset(fault: ResetFault) -> u32
    ensures { result ≡ reset_code fault }
{
    match fault {
        ResetFault::Worn => WORN,
        ResetFault::UnknownPeer => UNKNOWN_PEER,
    }
}
