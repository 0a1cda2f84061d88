//! Pictures of what passes between a responder and its requesters: a lifeline for each end, and from top to bottom an
//! arrow for each packet and a note for what an end does. As an SVG, or as the text of a Mermaid sequence diagram.
//!
//! Read first: `picture_text` in `specs/Picture.antt`, what is written of rows. The call is `write_picture`.
#![tactic(auto)]

mod diagram;
mod drawing;
mod form;
mod rows;
mod writing;

pub use form::Form;
pub use rows::{Arrow, Colour, Fate, Note, Row, Rows, Style};
pub use writing::{PictureError, write_picture};
