//! How often the calls in each line of a text were made in a run.
ghost use Rattle.std.specs.Prelude.{◌≡◌, IfOk, OnOk, count_by, length, map};
ghost use Rattle.std.specs.List.{list_any};
ghost use Rattle.fmp_looking.specs.Coverage as spec;
ghost use Rattle.fmp_looking.specs.Coverage.{AreLinesOf};

use fmp_frames::{CallPosition, is_service_at, line_at};
use fmp_lex::{TextFault, Tokens, tokens};
use std::alloc::{AllocError, Global};

/// How often the calls in a line of a text were made.
#[derive(Clone, Copy)]
pub struct LineCount {
    /// The line, from 1.
    pub line: u32,
    /// How many calls.
    pub count: usize,
}

/// Whether this is the line.
fn is_line(line: u32, other: &u32) -> bool
    ensures { result ≡ spec.is_line line other.now }
{
    *other == line
}

/// Whether a line is one of these.
fn has_line(lines: &[u32], line: u32) -> bool
    ensures { result ≡ list_any (spec.is_line line) lines.now }
{
    lines.iter().any(|other| is_line(line, other))
}

/// Adds a line, unless it is there.
fn add_line(lines: &mut Vec<u32>, line: u32) -> Result<(), AllocError>
    ensures { OnOk result (lines.new.items ≡ spec.with_line lines.old.items line) }
{
    if has_line(lines, line) {
        return Ok(());
    }
    lines.push(line)?;
    Ok(())
}

/// Adds the line of the token at a place, if it names a service call.
fn add_token(lines: &mut Vec<u32>, tokens: &Tokens<'_>, at: usize) -> Result<(), AllocError>
    ensures { OnOk result (lines.new.items ≡ spec.with_token lines.old.items tokens.now at) }
{
    if !is_service_at(tokens, at) {
        return Ok(());
    }
    add_line(lines, line_at(tokens, at))
}

/// The lines in which tokens name service calls, each once.
#[tactic(auto, using(crate::proofs::CoveredLines::lines_next))]
fn call_lines(alloc: Global, tokens: &Tokens<'_>) -> Result<Vec<u32>, AllocError>
    ensures { IfOk result (λ lines. lines.items ≡ spec.lines_in tokens.now (length tokens.now)) }
{
    let mut lines = Vec::new(alloc);
    for at in 0..tokens.len() {
        add_token(&mut lines, tokens, at)?;
    }
    Ok(lines)
}

/// The lines of a text that have calls, in its order; none of a text that is too long.
pub fn text_lines(alloc: Global, src: &[u8]) -> Result<Vec<u32>, AllocError>
    ensures { IfOk result (λ lines. AreLinesOf src.now lines.items) }
{
    match tokens(alloc, src) {
        Ok(list) => call_lines(alloc, &list.tokens),
        Err(TextFault::TooLong) => Ok(Vec::new(alloc)),
        Err(TextFault::Memory) => Err(AllocError),
    }
}

/// Whether a call stands in a line.
fn stands_in(line: u32, position: &Option<CallPosition>) -> bool
    ensures { result ≡ spec.stands_in line position.now }
{
    match position {
        Some(position) => position.line == line,
        None => false,
    }
}

/// How many of these calls stand in a line.
fn count_of(made: &[Option<CallPosition>], line: u32) -> LineCount
    ensures { result ≡ spec.count_of made.now line }
{
    LineCount {
        line,
        count: made
            .iter()
            .filter(|position| stands_in(line, *position))
            .count(),
    }
}

/// How many of these calls stand in each of these lines.
pub fn counts_in(
    alloc: Global,
    lines: &[u32],
    made: &[Option<CallPosition>],
) -> Result<Vec<LineCount>, AllocError>
    ensures { IfOk result (λ counts. counts.items ≡ map (spec.count_of made.now) lines.now) }
{
    let mut counts = Vec::new(alloc);
    for line in lines {
        counts.push(count_of(made, *line))?;
    }
    Ok(counts)
}
