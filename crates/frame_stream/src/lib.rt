//! Streams of frames that follow a text: shared by the commands that read packets from a stream.
//!
//! Read first: `IsFrame` in `specs/Frames.antt`, the bytes of a frame. The call is `FrameReader::next`.
#![tactic(auto)]

mod ahead;
mod filling;
mod frame_bytes;
mod kinds;
mod laws;
mod line;
mod packets;
mod reader;
mod text;
mod writing;

pub use kinds::{FrameFault, FrameKind, Kinds};
pub use laws::stream_is_determined;
pub use line::LastLine;
pub use packets::write_packet_frames;
pub use reader::FrameReader;
pub use text::{Text, read_text, read_text_to};
pub use writing::{write_line_frame, write_packet_frame};
