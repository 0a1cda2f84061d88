//! The base of every layer: bytes, endpoint IDs and keys as types, input and output traits, and faults that several
//! layers share.
//!
//! Read first: `Takes` in `specs/Stream.antt`, what a sink holds after a write. The call to begin with is `read_all`.
#![tactic(auto)]

mod causes;
mod streams;
mod values;

pub use causes::drop_cause::DropCause;
pub use causes::faults::PacketFault;
pub use causes::record_fault::RecordFault;
pub use streams::file_seeds::FileSeeds;
pub use streams::memory::{MemSeeds, MemSink, MemSource, NullSink};
pub use streams::outside::{Failed, Seeds, Sink, Source};
pub use streams::standard::{StdinSource, StdoutSink};
pub use streams::transfer::{InFault, OutFault, read_all, write_all};
pub use values::aead_alg::AeadAlg;
pub use values::buffer::{Buffer, Frame, Full, Line, RecordFrame};
pub use values::bytes::{Bytes, OutOfMemory};
pub use values::eid::Eid;
pub use values::hash_alg::HashAlg;
pub use values::hash_bytes::HashBytes;
pub use values::psk::Psk;
pub use values::session_id::SessionId;
