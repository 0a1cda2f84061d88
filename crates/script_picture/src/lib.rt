//! The picture of a text: of a capture, or of what happens when a script runs.
//!
//! Read first: `drawn_text` in `specs/Drawn.antt`, what is written of a text, and `rows_in` in `specs/Rows.antt`, the
//! rows of a script. The call is `draw_text`.
#![tactic(auto)]

mod drawing;
mod events;
mod fault;
mod lines;
mod notes;
mod text_lines;
mod text_sink;

pub use drawing::draw_text;
pub use fault::DrawFault;
