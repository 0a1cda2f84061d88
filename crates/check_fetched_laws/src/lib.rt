//! Captures, while a large response is fetched: which answers the responder may give meanwhile, though no byte of it is
//! known but those of the chunks that came. The laws of it over walks, and the bytes that stand for the answer in a
//! connection that judges.
//!
//! Read first: `AnswersAreAlike` in `specs/AlikeAnswers.antt`. The calls: `read_answer`, `message_in`, `put_bytes`.
#![tactic(auto)]

mod answer_texts;
mod few_blocks;
mod laws;
mod pending_bytes;

pub use answer_texts::{message_in, read_answer};
pub use few_blocks::blocks_are_few;
pub use laws::{chunk_is_shown, whole_is_shown};
pub use pending_bytes::{forget_bytes, put_bytes};
