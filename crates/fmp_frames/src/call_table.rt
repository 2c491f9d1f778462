//! The table as text: one row for each service that a caller calls.
use crate::call_counts::{CallerService, answers, is_same_caller, times, waits};
use crate::told::{CallTold, ToldCalls};
use fmp_base::{Er, System};
use fmp_json::{append, append_number};
use fmp_named::append_caller;
use itoa::Buffer;
use std::alloc::{AllocError, Global};

/// The codes that a call may be answered, in the order of a row.
const CODES: [Er; 9] = [
    Er::Ok,
    Er::Par,
    Er::Id,
    Er::Ctx,
    Er::Iluse,
    Er::Obj,
    Er::Qovr,
    Er::Rlwai,
    Er::Tmout,
];

/// The narrowest that a column of numbers is, with the spaces before it.
const COLUMN: usize = 8;

/// The width of the column of services: that of the longest name, and two spaces.
const SERVICES: usize = 11;

/// A row: its caller's name, and what is counted of it.
#[derive(Drop)]
struct CallRow {
    site: CallerService,
    name: Vec<u8>,
}

/// This many spaces.
fn append_spaces(count: usize, out: &mut Vec<u8>) -> Result<(), AllocError> {
    for _space in 0..count {
        out.push(b' ')?;
    }
    Ok(())
}

/// A word at the left end of a column of this width.
fn append_left(word: &[u8], width: usize, out: &mut Vec<u8>) -> Result<(), AllocError> {
    append(word, out)?;
    append_spaces(width.saturating_sub(word.len()), out)
}

/// A word at the right end of a column of numbers.
fn append_right(word: &[u8], out: &mut Vec<u8>) -> Result<(), AllocError> {
    append_spaces(COLUMN.saturating_sub(word.len()), out)?;
    append(word, out)
}

/// Whether a caller has this row already.
fn is_among(rows: &[CallRow], site: CallerService) -> bool {
    rows.iter().any(|row| {
        is_same_caller(row.site.caller, site.caller) && row.site.service == site.service
    })
}

/// The row of what a line tells.
fn row_of(alloc: Global, sys: &System, site: CallerService) -> Result<CallRow, AllocError> {
    let mut name = Vec::new(alloc);
    append_caller(sys, site.caller, &mut name)?;
    Ok(CallRow { site, name })
}

/// A row for each caller and service, in order of the first call.
fn rows_of(alloc: Global, sys: &System, told: &[CallTold]) -> Result<Vec<CallRow>, AllocError> {
    let mut rows = Vec::new(alloc);
    for call in told {
        let site = CallerService {
            caller: call.caller,
            service: call.service,
        };
        if !is_among(&rows, site) {
            rows.push(row_of(alloc, sys, site)?)?;
        }
    }
    Ok(rows)
}

/// The width of the longest name of a caller, or of the head above the names.
fn name_width(rows: &[CallRow]) -> usize {
    let mut width = 4;
    for row in rows {
        width = row.name.len().max(width);
    }
    width
}

/// The row of the heads.
fn append_heads(width: usize, out: &mut Vec<u8>) -> Result<(), AllocError> {
    append_left(b"task", width.saturating_add(2), out)?;
    append_left(b"call", SERVICES, out)?;
    append_right(b"times", out)?;
    append_right(b"waits", out)?;
    append(b"  answers\n", out)
}

/// How often the calls of a row were answered this code, if they ever were.
fn append_answer(
    told: &[CallTold],
    site: CallerService,
    code: Er,
    between: &[u8],
    out: &mut Vec<u8>,
) -> Result<bool, AllocError> {
    let count = answers(told, site, code);
    if count == 0 {
        return Ok(false);
    }
    append(between, out)?;
    append(code.name().as_bytes(), out)?;
    append(b" ", out)?;
    append_number(count as u64, out)?;
    Ok(true)
}

/// The answers of a row, with the number of each.
fn append_answers(
    told: &[CallTold],
    site: CallerService,
    out: &mut Vec<u8>,
) -> Result<(), AllocError> {
    let mut between: &[u8] = b"  ";
    for code in CODES {
        if append_answer(told, site, code, between, out)? {
            between = b", ";
        }
    }
    append(b"\n", out)
}

/// A row of the table.
fn append_row(
    told: &[CallTold],
    row: &CallRow,
    width: usize,
    out: &mut Vec<u8>,
) -> Result<(), AllocError> {
    append_left(&row.name, width.saturating_add(2), out)?;
    append_left(row.site.service.name().as_bytes(), SERVICES, out)?;
    append_right(Buffer::new().format(times(told, row.site)).as_bytes(), out)?;
    append_right(Buffer::new().format(waits(told, row.site)).as_bytes(), out)?;
    append_answers(told, row.site, out)
}

/// The rows of the caller of this one.
fn append_rows_of(
    told: &[CallTold],
    rows: &[CallRow],
    site: CallerService,
    width: usize,
    out: &mut Vec<u8>,
) -> Result<(), AllocError> {
    for row in rows {
        if is_same_caller(row.site.caller, site.caller) {
            append_row(told, row, width, out)?;
        }
    }
    Ok(())
}

/// Whether no row before this one is of its caller.
fn is_first(before: &[CallRow], site: CallerService) -> bool {
    !before
        .iter()
        .any(|row| is_same_caller(row.site.caller, site.caller))
}

/// All rows, caller by caller.
fn append_rows(told: &[CallTold], rows: &[CallRow], out: &mut Vec<u8>) -> Result<(), AllocError> {
    let width = name_width(rows);
    append_heads(width, out)?;
    for (place, row) in rows.iter().enumerate() {
        if is_first(&rows[..place], row.site) {
            append_rows_of(told, rows, row.site, width, out)?;
        }
    }
    Ok(())
}

/// Appends the table: a row for each caller and each service that it called, the callers in the order of their first
/// calls, and so the services of each. A call counts as answered where its code comes: at once, or at the end of the
/// wait. `AllocError` if memory runs out.
pub fn append_calls(
    alloc: Global,
    sys: &System,
    calls: &ToldCalls,
    out: &mut Vec<u8>,
) -> Result<(), AllocError> {
    let rows = rows_of(alloc, sys, &calls.told)?;
    append_rows(&calls.told, &rows, out)
}
