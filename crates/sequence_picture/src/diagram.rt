ghost use Rattle.std.specs.Prelude.{◌≡◌, ◌<◌, OnOk};
ghost use Rattle.sequence_picture.specs.Diagram.{arrow_sign, is_dotted, with_arrow, with_head, with_name, with_names, with_note};

use crate::drawing::add_end_name;
use crate::rows::{Arrow, Fate, Note, Style};
use spdm_basis::{Bytes, OutOfMemory};
use trace_text::{add_number, add_word, end_text_line};

fn is_dotted(style: Style) -> bool
    ensures { result ≡ is_dotted style }
{
    matches!(style, Style::Record(_))
}

fn arrow_sign(dotted: bool, fate: Fate) -> &'static [u8]
    ensures { result.now ≡ arrow_sign dotted fate }
{
    match (dotted, fate) {
        (false, Fate::Arrives) => b"->>",
        (false, Fate::Lost) => b"-x",
        (false, Fate::Ignored) => b"-)",
        (true, Fate::Arrives) => b"-->>",
        (true, Fate::Lost) => b"--x",
        (true, Fate::Ignored) => b"--)",
    }
}

/// Appends a packet.
pub(crate) fn add_arrow(requesters: u8, arrow: &Arrow, text: &mut Bytes) -> Result<(), OutOfMemory>
    ensures { OnOk result (text.new ≡ with_arrow text.old requesters arrow.now) }
{
    text.extend(b"    ")?;
    add_end_name(requesters, arrow.from, text)?;
    text.extend(arrow_sign(is_dotted(arrow.style), arrow.fate))?;
    add_end_name(requesters, arrow.to, text)?;
    text.extend(b":")?;
    add_number(arrow.number as u64, text)?;
    add_word(arrow.label.as_slice(), text)?;
    end_text_line(text)
}

/// Appends a note.
pub(crate) fn add_note(requesters: u8, note: &Note, text: &mut Bytes) -> Result<(), OutOfMemory>
    ensures { OnOk result (text.new ≡ with_note text.old requesters note.now) }
{
    text.extend(b"    Note over ")?;
    add_end_name(requesters, note.end, text)?;
    text.extend(b":")?;
    add_word(note.text.as_slice(), text)?;
    end_text_line(text)
}

// Appends the name of an end on a line of its own.
fn add_name(requesters: u8, end: u8, text: &mut Bytes) -> Result<(), OutOfMemory>
    ensures { OnOk result (text.new ≡ with_name text.old requesters end) }
{
    text.extend(b"    participant ")?;
    add_end_name(requesters, end, text)?;
    end_text_line(text)
}

// Appends the names of the first so many ends.
#[tactic(auto, unfolding(crate::specs::Diagram::with_names))]
fn add_names(requesters: u8, count: u8, text: &mut Bytes) -> Result<(), OutOfMemory>
    ensures { OnOk result (text.new ≡ with_names text.old requesters count) }
{
    for end in 0..count {
        add_name(requesters, end, text)?;
    }
    Ok(())
}

/// Appends what stands before the rows of a diagram.
pub(crate) fn add_head(requesters: u8, text: &mut Bytes) -> Result<(), OutOfMemory>
    requires { requesters < 255 }
    ensures { OnOk result (text.new ≡ with_head text.old requesters) }
{
    text.extend(b"sequenceDiagram\n")?;
    add_names(requesters, requesters + 1, text)
}
