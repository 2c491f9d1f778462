//! The lines of a trace with where their calls stand.
ghost use Rattle.std.specs.Prelude.{◌≡◌, ◌++◌, IfOk, OnOk};
ghost use Rattle.fmp_base.specs.Systems.{tables_of};
ghost use Rattle.fmp_frames.specs.PositionedLines as spec;

use crate::call_positions::CallPosition;
use fmp_base::{Line, System};
use fmp_named::{append_lines, append_records};
use itoa::Buffer;
use std::alloc::{AllocError, Global};

/// What a line of a trace is.
#[derive(Clone, Copy)]
pub enum LineForm {
    /// A text: where its call stands comes last, as in ` at 10:5`.
    Text,
    /// An object of JSON: where its call stands are its last members, `line` and `column`.
    Record,
}

/// What an event told.
#[derive(Clone, Copy)]
pub struct EventLines<'a> {
    /// The number of the event; 0 of setup.
    pub number: u32,
    /// Where its call stands, if that is known.
    pub position: Option<CallPosition>,
    pub lines: &'a [Line],
}

/// Appends lines of an event.
fn append_told(
    alloc: Global,
    form: LineForm,
    sys: &System,
    told: EventLines<'_>,
    out: &mut Vec<u8>,
) -> Result<(), AllocError>
    ensures { OnOk result (out.new.items
        ≡ out.old.items ++ spec.told form (tables_of sys.now) told.entry.number told.entry.lines.now) }
{
    match form {
        LineForm::Text => append_lines(sys, told.number, told.lines, out),
        LineForm::Record => append_records(alloc, sys, told.number, told.lines, out),
    }
}

/// Where the call of a line stands, if the line tells a call.
fn position_in(line: Line, position: Option<CallPosition>) -> Option<CallPosition>
    ensures { result ≡ spec.position_in line position }
{
    match line {
        Line::Call { .. } => position,
        _ => None,
    }
}

/// How many bytes end a line.
fn end_length(form: LineForm) -> usize
    ensures { result ≡ spec.end_length form }
{
    match form {
        LineForm::Text => 1,
        LineForm::Record => 2,
    }
}

/// What stands before the number of a line.
fn before_line(form: LineForm) -> &'static [u8]
    ensures { result.now ≡ spec.before_line form }
{
    match form {
        LineForm::Text => b" at ",
        LineForm::Record => b",\"line\":",
    }
}

/// What stands before the number of a column.
fn before_column(form: LineForm) -> &'static [u8]
    ensures { result.now ≡ spec.before_column form }
{
    match form {
        LineForm::Text => b":",
        LineForm::Record => b",\"column\":",
    }
}

/// What stands after the number of a column.
fn after_column(form: LineForm) -> &'static [u8]
    ensures { result.now ≡ spec.after_column form }
{
    match form {
        LineForm::Text => b"\n",
        LineForm::Record => b"}\n",
    }
}

/// Appends where a call stands, and the end of its line.
fn append_position(
    form: LineForm,
    position: CallPosition,
    out: &mut Vec<u8>,
) -> Result<(), AllocError>
    ensures { OnOk result (out.new.items ≡ out.old.items ++ spec.position_text form position) }
{
    out.extend_from_slice(before_line(form))?;
    out.extend_from_slice(Buffer::new().format(position.line).as_bytes())?;
    out.extend_from_slice(before_column(form))?;
    out.extend_from_slice(Buffer::new().format(position.column as u64).as_bytes())?;
    out.extend_from_slice(after_column(form))
}

/// A printed line, with where its call stands if that is known.
fn with_position(
    form: LineForm,
    position: Option<CallPosition>,
    text: Vec<u8>,
) -> Result<Vec<u8>, AllocError>
    ensures { IfOk result (λ out. out.items ≡ spec.with_position form position text.items) }
{
    let mut text = text;
    if let Some(position) = position {
        text.truncate(text.len().saturating_sub(end_length(form)));
        append_position(form, position, &mut text)?;
    }
    Ok(text)
}

/// Appends lines of an event, the last of them with where its call stands if that is known.
fn append_called(
    alloc: Global,
    form: LineForm,
    sys: &System,
    told: EventLines<'_>,
    out: &mut Vec<u8>,
) -> Result<(), AllocError>
    ensures { OnOk result (out.new.items ≡ out.old.items ++ spec.with_position form told.entry.position
        (spec.told form (tables_of sys.now) told.entry.number told.entry.lines.now)) }
{
    let mut text = Vec::new(alloc);
    append_told(alloc, form, sys, told, &mut text)?;
    let text = with_position(form, told.position, text)?;
    out.extend_from_slice(&text)
}

/// Appends the lines of an event, with the names of objects, and where its call stands if that is known. `AllocError`
/// if memory runs out.
pub fn append_positioned(
    alloc: Global,
    form: LineForm,
    sys: &System,
    told: EventLines<'_>,
    out: &mut Vec<u8>,
) -> Result<(), AllocError>
    ensures { OnOk result (out.new.items ≡ out.old.items ++ spec.positioned form (tables_of sys.now)
        told.entry.number told.entry.position told.entry.lines.now) }
{
    match told.lines {
        [] => Ok(()),
        [first, rest @ ..] => {
            let call = EventLines {
                position: position_in(*first, told.position),
                lines: &[*first],
                ..told
            };
            append_called(alloc, form, sys, call, out)?;
            append_told(
                alloc,
                form,
                sys,
                EventLines {
                    lines: rest,
                    ..told
                },
                out,
            )
        }
    }
}
