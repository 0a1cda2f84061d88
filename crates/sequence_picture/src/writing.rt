ghost use Rattle.std.specs.Prelude.{◌≡◌, ◌≤◌, ◌<◌, ◌++◌, length, IsErrOf, OnErr, OnOk};
ghost use Rattle.sequence_picture.specs.Picture.{head_text, picture_text, row_text, rows_from, tail_text};
ghost use Rattle.spdm_basis.specs.Stream.{HasFault, Takes, TakesPrefix};

use crate::diagram;
use crate::drawing::{MOST_ROWS, add_arrow, add_frame, add_note};
use crate::form::Form;
use crate::rows::{Row, Rows};
use spdm_basis::{Bytes, OutOfMemory, Sink, write_all};
use std::alloc::Global;
use thiserror::Error;

/// Why not all of a picture was written.
#[derive(Clone, Copy, Debug, PartialEq, Eq, Error)]
pub enum PictureError {
    #[error("writing failed")]
    WriteFault,
    #[error("out of memory")]
    OutOfMemory,
}

// Overwrites a text with a row.
#[tactic(auto, unfolding(crate::specs::Picture::row_text))]
fn set_row(
    form: Form,
    requesters: u8,
    number: usize,
    row: &Row,
    text: &mut Bytes,
) -> Result<(), OutOfMemory>
    requires { number ≤ MOST_ROWS }
    ensures { OnOk result (text.new ≡ row_text form requesters number row.now) }
{
    text.clear();
    match (form, row) {
        (Form::Svg, Row::Packet(arrow)) => add_arrow(number, arrow, text),
        (Form::Svg, Row::Aside(note)) => add_note(number, note, text),
        (Form::Mermaid, Row::Packet(arrow)) => diagram::add_arrow(requesters, arrow, text),
        (Form::Mermaid, Row::Aside(note)) => diagram::add_note(requesters, note, text),
    }
}

// Overwrites a text with what stands before the rows.
#[tactic(auto, unfolding(crate::specs::Picture::head_text))]
fn set_head(form: Form, requesters: u8, rows: usize, text: &mut Bytes) -> Result<(), OutOfMemory>
    requires few { requesters < 255 }
    requires rows { rows ≤ MOST_ROWS }
    ensures { OnOk result (text.new ≡ head_text form requesters rows) }
{
    text.clear();
    match form {
        Form::Svg => add_frame(requesters, rows, text),
        Form::Mermaid => diagram::add_head(requesters, text),
    }
}

// Writes a text.
fn write_text<K: Sink>(text: &[u8], sink: &mut K) -> Result<(), PictureError>
    ensures whole { OnOk result (Takes (K.contents sink.old) text.now (K.contents sink.new)) }
    ensures prefix { OnErr result (TakesPrefix (K.contents sink.old) text.now
        (K.contents sink.new)) }
    ensures fault { IsErrOf result PictureError.WriteFault
        → HasFault (K.faults sink.old) (K.faults sink.new) }
    ensures later { K.faults sink.old ≤ K.faults sink.new }
{
    match write_all(sink, text) {
        Ok(()) => Ok(()),
        Err(_) => Err(PictureError::WriteFault),
    }
}

// Writes a row.
fn write_row<K: Sink>(
    form: Form,
    requesters: u8,
    number: usize,
    row: &Row,
    text: &mut Bytes,
    sink: &mut K,
) -> Result<(), PictureError>
    requires { number ≤ MOST_ROWS }
    ensures whole { OnOk result (Takes (K.contents sink.old)
        (row_text form requesters number row.now) (K.contents sink.new)) }
    ensures prefix { OnErr result (TakesPrefix (K.contents sink.old)
        (row_text form requesters number row.now) (K.contents sink.new)) }
    ensures fault { IsErrOf result PictureError.WriteFault
        → HasFault (K.faults sink.old) (K.faults sink.new) }
    ensures later { K.faults sink.old ≤ K.faults sink.new }
{
    let Ok(()) = set_row(form, requesters, number, row, text) else {
        return Err(PictureError::OutOfMemory);
    };
    match write_text(text.as_slice(), sink) {
        Ok(()) => Ok(()),
        Err(fault) => Err(fault),
    }
}

// Writes what stands before the rows.
fn write_head<K: Sink>(
    form: Form,
    requesters: u8,
    rows: usize,
    text: &mut Bytes,
    sink: &mut K,
) -> Result<(), PictureError>
    requires few { requesters < 255 }
    requires rows { rows ≤ MOST_ROWS }
    ensures whole { OnOk result (Takes (K.contents sink.old) (head_text form requesters rows)
        (K.contents sink.new)) }
    ensures prefix { OnErr result (TakesPrefix (K.contents sink.old)
        (head_text form requesters rows) (K.contents sink.new)) }
    ensures fault { IsErrOf result PictureError.WriteFault
        → HasFault (K.faults sink.old) (K.faults sink.new) }
    ensures later { K.faults sink.old ≤ K.faults sink.new }
{
    let Ok(()) = set_head(form, requesters, rows, text) else {
        return Err(PictureError::OutOfMemory);
    };
    match write_text(text.as_slice(), sink) {
        Ok(()) => Ok(()),
        Err(fault) => Err(fault),
    }
}

// Writes rows, of which the first has the number 0.
fn write_rows<K: Sink>(
    form: Form,
    requesters: u8,
    rows: &[Row],
    text: &mut Bytes,
    sink: &mut K,
) -> Result<(), PictureError>
    requires { length rows.now ≤ MOST_ROWS }
    ensures whole { OnOk result (Takes (K.contents sink.old) (rows_from form requesters 0 rows.now)
        (K.contents sink.new)) }
    ensures prefix { OnErr result (TakesPrefix (K.contents sink.old)
        (rows_from form requesters 0 rows.now) (K.contents sink.new)) }
    ensures fault { IsErrOf result PictureError.WriteFault
        → HasFault (K.faults sink.old) (K.faults sink.new) }
    ensures later { K.faults sink.old ≤ K.faults sink.new }
{
    for (index, row) in rows.iter().enumerate() {
        match write_row(form, requesters, index, row, text, sink) {
            Ok(()) => {}
            Err(fault) => return Err(fault),
        }
    }
    Ok(())
}

// What stands after the rows.
fn tail_of(form: Form) -> &'static [u8]
    ensures { result.now ≡ tail_text form }
{
    match form {
        Form::Svg => b"</svg>\n",
        Form::Mermaid => b"",
    }
}

// Writes rows and what stands after them.
fn write_body<K: Sink>(
    form: Form,
    requesters: u8,
    rows: &[Row],
    text: &mut Bytes,
    sink: &mut K,
) -> Result<(), PictureError>
    requires { length rows.now ≤ MOST_ROWS }
    ensures whole { OnOk result (Takes (K.contents sink.old)
        (rows_from form requesters 0 rows.now ++ tail_text form) (K.contents sink.new)) }
    ensures prefix { OnErr result (TakesPrefix (K.contents sink.old)
        (rows_from form requesters 0 rows.now ++ tail_text form) (K.contents sink.new)) }
    ensures fault { IsErrOf result PictureError.WriteFault
        → HasFault (K.faults sink.old) (K.faults sink.new) }
    ensures later { K.faults sink.old ≤ K.faults sink.new }
{
    match write_rows(form, requesters, rows, text, sink) {
        Ok(()) => {}
        Err(fault) => return Err(fault),
    }
    match write_text(tail_of(form), sink) {
        Ok(()) => Ok(()),
        Err(fault) => Err(fault),
    }
}

/// Writes the picture of rows between so many requesters and the responder. At most 1,000,000 rows.
pub fn write_picture<K: Sink>(
    alloc: Global,
    form: Form,
    requesters: u8,
    rows: &Rows,
    sink: &mut K,
) -> Result<(), PictureError>
    requires few { requesters < 255 }
    requires rows { length rows.now ≤ MOST_ROWS }
    ensures whole { OnOk result (Takes (K.contents sink.old)
        (picture_text form requesters rows.now) (K.contents sink.new)) }
    ensures prefix { OnErr result (TakesPrefix (K.contents sink.old)
        (picture_text form requesters rows.now) (K.contents sink.new)) }
    ensures fault { IsErrOf result PictureError.WriteFault
        → HasFault (K.faults sink.old) (K.faults sink.new) }
    ensures later { K.faults sink.old ≤ K.faults sink.new }
{
    let mut text = Bytes::new(alloc);
    match write_head(form, requesters, rows.len(), &mut text, sink) {
        Ok(()) => {}
        Err(fault) => return Err(fault),
    }
    match write_body(form, requesters, rows.as_slice(), &mut text, sink) {
        Ok(()) => Ok(()),
        Err(fault) => Err(fault),
    }
}
