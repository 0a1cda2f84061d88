//! What a capture shows of a large request, one that is sent in chunks.

pub mod bodies;
pub mod large_request;
pub mod laws;
pub mod pieces;
