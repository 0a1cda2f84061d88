//! The messages of SPDM 1.2 sessions under pre-shared keys (DSP0274, section 10): their values, the bytes that encode
//! them, and where bytes that encode none are at fault.
//!
//! Read first: `request_message` in `specs/Message.antt`, the bytes that encode a request. The law to read first is
//! `canonical_request_is_read`.
#![tactic(auto)]

mod laws;
mod messages;
pub mod names;
mod told;

pub use laws::{
    canonical_request_is_read, canonical_response_is_read, no_request_prefix, no_response_prefix,
    one_request, one_response, request_fault_stays, request_in_is_spelled, response_fault_stays,
    response_in_is_spelled, spelled_request_is_sound, spelled_response_is_sound,
};
pub use messages::algorithms::{AlgOffer, AlgReply};
pub use messages::capabilities::Caps;
pub use messages::choice::{Choice, FlagSet, Pick, Suites};
pub use messages::chunk::ChunkView;
pub use messages::error_code::ErrorCode;
pub use messages::exchange::{Exchange, ExchangeRsp};
pub use messages::malformed::{Malformed, Part};
pub use messages::measurements::Measured;
pub use messages::part_faults::{CapsFault, ChunkFault};
pub use messages::request::Request;
pub use messages::response::Response;
pub use spdm_basis::{AeadAlg, HashAlg};
pub use told::block_spec::BlockSpec;
pub use told::command_fault::CommandFault;
pub use told::event::{BadReply, Event, Finished, ReqIgnored, Stop};
pub use told::heard::{Heard, ReplyFault, RspIgnored};
pub use told::phase::{Phase, Stage};
pub use told::session_list::SessionList;
pub use told::session_view::SessionView;
pub use told::why::Why;
