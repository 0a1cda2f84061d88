use crate::open_requester::OpenRequester;
use crate::open_responder::OpenResponder;
use mctp_framing::Assembler;
use requester_core::core_blocks;
use responder::{Known, responder_blocks};
use responder_core::{Connection, connection_blocks};
use spdm_grammar::BlockSpec;
use spdm_grammar::names::MAX_BODY_SIZE;

// The packets that an end sends next, as `PacketList` takes memory for them: their bytes, and the places of 72.
const PACKETS: usize = 8_192 + 72 * 16;

// The first blocks of an inventory, which grows by doubling.
const FIRST_BLOCKS: usize = 4;

// The size of what a responder keeps of a requester.
fn requester_share() -> usize {
    connection_blocks()
        .saturating_add(size_of::<(Known, Connection, Assembler)>())
        .saturating_add(MAX_BODY_SIZE)
}

/// The most memory that opening a responder has taken at any time, in bytes, with so many requesters and blocks, whose
/// hints and values have so many bytes together with the opaque data. Tested, and not proved.
pub fn responder_size(requesters: usize, blocks: usize, bytes: usize) -> usize {
    let each = requester_share().saturating_add(size_of::<Known>());
    let listed = FIRST_BLOCKS.saturating_add(blocks.saturating_mul(4));
    size_of::<OpenResponder>()
        .saturating_add(responder_blocks())
        .saturating_add(PACKETS)
        .saturating_add(requesters.saturating_mul(each))
        .saturating_add(listed.saturating_mul(size_of::<BlockSpec>()))
        .saturating_add(bytes.saturating_mul(2))
}

/// The memory that a requester takes, in bytes, whose hint and opaque data have so many bytes together. Tested, and not
/// proved.
pub fn requester_size(bytes: usize) -> usize {
    size_of::<OpenRequester>()
        .saturating_add(core_blocks())
        .saturating_add(PACKETS)
        .saturating_add(MAX_BODY_SIZE)
        .saturating_add(bytes)
}
