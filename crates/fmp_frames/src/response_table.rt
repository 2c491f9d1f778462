//! The table of the responses of a run as text: one row for each handler that woke a task.
use crate::responses::Responses;
use crate::summaries::ResponseSummary;
use crate::table::{RowName, append_cell, append_head, append_name};
use fmp_base::{Handler, System};
use fmp_json::append;
use itoa::Buffer;
use std::alloc::{AllocError, Global};

/// The head of the names.
const REQUEST: &str = "request";

/// The heads of the columns.
const HEADS: [&str; 3] = ["responses", "median us", "worst us"];

/// The width of the longest name of a handler, or of the head above the names.
fn name_width(sys: &System) -> usize {
    let mut width = REQUEST.len();
    for config in sys.cyclics.as_slice() {
        width = config.name.as_bytes().len().max(width);
    }
    width
}

/// The row of the heads.
fn append_heads(width: usize, out: &mut Vec<u8>) -> Result<(), AllocError> {
    let name = REQUEST.as_bytes();
    append_name(RowName { name, width }, out)?;
    for head in &HEADS {
        append_head(head, out)?;
    }
    append(b"\n", out)
}

/// The row of a handler.
fn append_summary(
    row: RowName<'_>,
    summary: ResponseSummary,
    out: &mut Vec<u8>,
) -> Result<(), AllocError> {
    append_name(row, out)?;
    append_cell(HEADS[0], Buffer::new().format(summary.count), out)?;
    append_cell(HEADS[1], Buffer::new().format(summary.median), out)?;
    append_cell(HEADS[2], Buffer::new().format(summary.worst), out)?;
    append(b"\n", out)
}

/// The row of a handler, if it woke a task that ran.
fn append_handler(
    alloc: Global,
    responses: &Responses,
    handler: Handler,
    row: RowName<'_>,
    out: &mut Vec<u8>,
) -> Result<(), AllocError> {
    match responses.summary(alloc, handler)? {
        Some(summary) => append_summary(row, summary, out),
        None => Ok(()),
    }
}

/// The rows of the interrupts, in order of number.
fn append_interrupts(
    alloc: Global,
    responses: &Responses,
    width: usize,
    out: &mut Vec<u8>,
) -> Result<(), AllocError> {
    for place in 0..32u8 {
        let text = format!(in alloc; "#{}", place + 1)?;
        let name = text.as_bytes();
        let handler = Handler::Interrupt(place);
        append_handler(alloc, responses, handler, RowName { name, width }, out)?;
    }
    Ok(())
}

/// The rows of the cyclic handlers, in order of number.
fn append_cyclics(
    alloc: Global,
    sys: &System,
    responses: &Responses,
    width: usize,
    out: &mut Vec<u8>,
) -> Result<(), AllocError> {
    for (place, config) in sys.cyclics.iter().enumerate() {
        if let Ok(place) = u8::try_from(place) {
            let (handler, name) = (Handler::Cyclic(place), config.name.as_bytes());
            append_handler(alloc, responses, handler, RowName { name, width }, out)?;
        }
    }
    Ok(())
}

/// Appends the table of responses: for each handler that woke a task that ran, how many responses there are, and how
/// long they took at the median and at worst, in microseconds. `AllocError` if memory runs out.
pub fn append_responses(
    alloc: Global,
    sys: &System,
    responses: &Responses,
    out: &mut Vec<u8>,
) -> Result<(), AllocError> {
    let width = name_width(sys);
    append_heads(width, out)?;
    append_interrupts(alloc, responses, width, out)?;
    append_cyclics(alloc, sys, responses, width, out)
}
