ghost use Rattle.std.specs.Prelude.{◌≡◌, ◌≤◌, ◌<◌, ◌++◌, OnOk};
ghost use Rattle.sequence_picture.specs.Drawing.{colour_class, end_name, fate_class, height_of, style_class, width_of, with_arrow, with_band, with_fates, with_frame, with_group, with_heads, with_label, with_life, with_line, with_lives, with_look, with_note, with_path, with_place, with_point, with_size, x_of, y_of};

use crate::rows::{Arrow, Colour, Fate, Note, Style};
use spdm_basis::{Bytes, OutOfMemory};
use trace_text::{add_number, add_word, begin_with_requester};

// The most rows of a picture.
pub(crate) const MOST_ROWS: usize = 1_000_000;

// The place of an end, from the left.
fn x_of(end: u8) -> u64
    ensures { result ≡ x_of end }
{
    130 + 240 * u64::from(end)
}

// The place of a row, from the top.
fn y_of(row: usize) -> u64
    requires { row ≤ MOST_ROWS }
    ensures { result ≡ y_of row }
{
    72 + 26 * row as u64
}

fn width_of(requesters: u8) -> u64
    ensures { result ≡ width_of requesters }
{
    x_of(requesters) + 290
}

fn height_of(rows: usize) -> u64
    requires { rows ≤ MOST_ROWS }
    ensures { result ≡ height_of rows }
{
    y_of(rows) + 10
}

fn add_point(x: u64, y: u64, text: &mut Bytes) -> Result<(), OutOfMemory>
    ensures { OnOk result (text.new ≡ with_point text.old x y) }
{
    add_number(x, text)?;
    add_number(y, text)
}

// A straight line from a point to another.
fn add_path(
    class: &[u8],
    x: u64,
    y: u64,
    to_x: u64,
    to_y: u64,
    text: &mut Bytes,
) -> Result<(), OutOfMemory>
    ensures { OnOk result (text.new ≡ with_path text.old class.now x y to_x to_y) }
{
    text.extend(b"<path class='")?;
    text.extend(class)?;
    text.extend(b"' d='M")?;
    add_point(x, y, text)?;
    text.extend(b" L")?;
    add_point(to_x, to_y, text)?;
    text.extend(b"'/>\n")
}

// The beginning of a text at a point.
fn add_place(x: u64, y: u64, text: &mut Bytes) -> Result<(), OutOfMemory>
    ensures { OnOk result (text.new ≡ with_place text.old x y) }
{
    text.extend(b"<text transform='translate(")?;
    add_point(x, y, text)?;
    text.extend(b")'>")
}

fn colour_class(colour: Colour) -> &'static [u8]
    ensures { result.now ≡ colour_class colour }
{
    match colour {
        Colour::Blue => b"record blue",
        Colour::Green => b"record green",
        Colour::Orange => b"record orange",
        Colour::Purple => b"record purple",
    }
}

fn style_class(style: Style) -> &'static [u8]
    ensures { result.now ≡ style_class style }
{
    match style {
        Style::Message => b"message",
        Style::Record(colour) => colour_class(colour),
        Style::Part => b"part",
        Style::Unread => b"unread",
    }
}

fn fate_class(fate: Fate) -> &'static [u8]
    ensures { result.now ≡ fate_class fate }
{
    match fate {
        Fate::Arrives => b"arrives",
        Fate::Lost => b"lost",
        Fate::Ignored => b"ignored",
    }
}

// The beginning of a group.
fn add_group(style: Style, fate: Fate, text: &mut Bytes) -> Result<(), OutOfMemory>
    ensures { OnOk result (text.new ≡ with_group text.old style fate) }
{
    text.extend(b"<g class='")?;
    text.extend(style_class(style))?;
    add_word(fate_class(fate), text)?;
    text.extend(b"'>\n")
}

// A piece of the band of an end.
fn add_band(end: u8, row: usize, text: &mut Bytes) -> Result<(), OutOfMemory>
    requires { row ≤ MOST_ROWS }
    ensures { OnOk result (text.new ≡ with_band text.old end row) }
{
    let x = x_of(end);
    let y = y_of(row);
    add_path(b"band", x, y - 20, x, y + 6, text)
}

// The line of an arrow.
fn add_line(from: u8, to: u8, row: usize, text: &mut Bytes) -> Result<(), OutOfMemory>
    requires { row ≤ MOST_ROWS }
    ensures { OnOk result (text.new ≡ with_line text.old from to row) }
{
    let y = y_of(row);
    add_path(b"arrow", x_of(from), y, x_of(to), y, text)
}

// The number and the label of a packet, and the end of its group.
fn add_label(row: usize, arrow: &Arrow, text: &mut Bytes) -> Result<(), OutOfMemory>
    requires { row ≤ MOST_ROWS }
    ensures { OnOk result (text.new ≡ with_label text.old row arrow.now) }
{
    let middle = (x_of(arrow.from) + x_of(arrow.to)) / 2;
    add_place(middle, y_of(row) - 5, text)?;
    add_number(arrow.number as u64, text)?;
    add_word(arrow.label.as_slice(), text)?;
    text.extend(b"</text></g>\n")
}

/// Appends a packet in this row.
pub(crate) fn add_arrow(row: usize, arrow: &Arrow, text: &mut Bytes) -> Result<(), OutOfMemory>
    requires { row ≤ MOST_ROWS }
    ensures { OnOk result (text.new ≡ with_arrow text.old row arrow.now) }
{
    add_group(arrow.style, arrow.fate, text)?;
    add_band(arrow.from, row, text)?;
    add_band(arrow.to, row, text)?;
    add_line(arrow.from, arrow.to, row, text)?;
    add_label(row, arrow, text)
}

/// Appends a note in this row.
pub(crate) fn add_note(row: usize, note: &Note, text: &mut Bytes) -> Result<(), OutOfMemory>
    requires { row ≤ MOST_ROWS }
    ensures { OnOk result (text.new ≡ with_note text.old row note.now) }
{
    text.extend(b"<g class='note")?;
    add_word(fate_class(note.fate), text)?;
    text.extend(b"'>")?;
    add_place(x_of(note.end) + 10, y_of(row), text)?;
    text.extend(note.text.as_slice())?;
    text.extend(b"</text></g>\n")
}

/// Appends the name of an end.
pub(crate) fn add_end_name(requesters: u8, end: u8, text: &mut Bytes) -> Result<(), OutOfMemory>
    ensures { OnOk result (text.new ≡ text.old ++ end_name requesters end) }
{
    if end < requesters {
        begin_with_requester(end + 1, text)
    } else if end == requesters {
        text.extend(b"r")
    } else {
        text.extend(b"other")
    }
}

// The lifeline of an end.
fn add_life(requesters: u8, rows: usize, end: u8, text: &mut Bytes) -> Result<(), OutOfMemory>
    requires { rows ≤ MOST_ROWS }
    ensures { OnOk result (text.new ≡ with_life text.old requesters rows end) }
{
    let x = x_of(end);
    add_path(b"life", x, 40, x, height_of(rows), text)?;
    add_place(x, 28, text)?;
    add_end_name(requesters, end, text)?;
    text.extend(b"</text>\n")
}

// The lifelines of the first so many ends.
#[tactic(auto, unfolding(crate::specs::Drawing::with_lives))]
fn add_lives(requesters: u8, rows: usize, count: u8, text: &mut Bytes) -> Result<(), OutOfMemory>
    requires { rows ≤ MOST_ROWS }
    ensures { OnOk result (text.new ≡ with_lives text.old requesters rows count) }
{
    for end in 0..count {
        add_life(requesters, rows, end, text)?;
    }
    Ok(())
}

// The size of a picture.
fn add_size(requesters: u8, rows: usize, text: &mut Bytes) -> Result<(), OutOfMemory>
    requires { rows ≤ MOST_ROWS }
    ensures { OnOk result (text.new ≡ with_size text.old requesters rows) }
{
    let width = width_of(requesters);
    text.extend(b"<svg xmlns='http://www.w3.org/2000/svg' style='background:#fff;width:")?;
    add_number(width, text)?;
    text.extend(b"px' viewBox='0 0")?;
    add_number(width, text)?;
    add_number(height_of(rows), text)?;
    text.extend(b"'>\n")
}

// How the classes of texts and of styles look.
fn add_look(text: &mut Bytes) -> Result<(), OutOfMemory>
    ensures { OnOk result (text.new ≡ with_look text.old) }
{
    text.extend(b"<style>\n")?;
    text.extend(
        b"text{font:11px monospace;text-anchor:middle;paint-order:stroke;stroke:#fff;stroke-width:3px}\n",
    )?;
    text.extend(b".note text{text-anchor:start;font-style:italic;fill:#555}\n")?;
    text.extend(
        b"path{fill:none;stroke:#222}.life{stroke:#999}.band{stroke-width:8;stroke:#b0bec5}\n",
    )?;
    text.extend(
        b".arrow{stroke-width:1.3;marker-end:url(#head)}.record .arrow{stroke-width:2.6}\n",
    )?;
    text.extend(
        b".blue path{stroke:#1565c0}.green path{stroke:#2e7d32}.orange path{stroke:#e65100}.purple path{stroke:#6a1b9a}\n",
    )
}

// How the styles and the fates of packets look.
fn add_fates(text: &mut Bytes) -> Result<(), OutOfMemory>
    ensures { OnOk result (text.new ≡ with_fates text.old) }
{
    text.extend(
        b".part .arrow{stroke:#546e7a}.unread .arrow{stroke:#c62828}.unread .band{stroke:none}\n",
    )?;
    text.extend(
        b".lost .arrow{stroke:#c62828;stroke-dasharray:7 5;marker-end:url(#cross)}.lost text{fill:#c62828}\n",
    )?;
    text.extend(b".ignored .arrow{stroke-dasharray:2 4}.ignored text{fill:#c62828}\n")?;
    text.extend(b"</style>\n<defs>\n")
}

// The heads of arrows.
fn add_heads(text: &mut Bytes) -> Result<(), OutOfMemory>
    ensures { OnOk result (text.new ≡ with_heads text.old) }
{
    text.extend(
        b"<marker id='head' markerUnits='userSpaceOnUse' markerWidth='11' markerHeight='9' refX='10' refY='4.5' orient='auto'><path d='M0 0 L10 4.5 L0 9 z' style='fill:context-stroke;stroke:none'/></marker>\n",
    )?;
    text.extend(
        b"<marker id='cross' markerUnits='userSpaceOnUse' markerWidth='22' markerHeight='11' refX='20' refY='5.5' orient='auto'><path d='M0 1 L9 10 M0 10 L9 1' style='stroke:#c62828;stroke-width:2'/></marker>\n",
    )?;
    text.extend(b"</defs>\n")
}

/// Appends what stands before the rows of a picture.
pub(crate) fn add_frame(requesters: u8, rows: usize, text: &mut Bytes) -> Result<(), OutOfMemory>
    requires few { requesters < 255 }
    requires rows { rows ≤ MOST_ROWS }
    ensures { OnOk result (text.new ≡ with_frame text.old requesters rows) }
{
    add_size(requesters, rows, text)?;
    add_look(text)?;
    add_fates(text)?;
    add_heads(text)?;
    add_lives(requesters, rows, requesters + 1, text)
}
