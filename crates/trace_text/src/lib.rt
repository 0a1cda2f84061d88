//! Every line that the program prints, and the words and digits that texts are printed with.
//!
//! Read first: `line_text` in `specs/TraceLines.antt`, the text of each line of a trace. The call to begin with is
//! `line_event`.
#![tactic(auto)]

mod other_lines;
mod pairs;
mod print;
mod text_words;
mod trace_lines;
mod trace_words;

pub use other_lines::{
    line_conforms, line_cycle, line_differs, line_malformed, line_request, line_response,
    line_seen, line_summary,
};
pub use pairs::{read_pairs, write_pairs};
pub use text_words::{
    add_hex, add_number, add_requester, add_word, begin_with_requester, end_text_line,
};
pub use trace_lines::{
    line_at, line_command, line_data, line_event, line_heard, line_no_packet, line_nobody,
    line_packet, line_record, line_reply, line_session, line_state,
};
