//! The construct that is left out where it has a fault, so that the faults after it are told too: a static API or a
//! class, a statement, a declaration or a body.
ghost use Rattle.std.specs.Prelude.{◌≤◌, IfSome, length};

use crate::before::{Before, before_position, begins_unit};
use crate::construct_end::construct_end;
use crate::pieces::{byte_at, is_word, line_end, next_body, word_at};
use crate::verdicts::TextsFault;
use fmp_lex::TextFile;

/// A construct that is left out of a text, from a byte up to another one.
#[derive(Clone, Copy)]
pub struct Construct {
    pub from: usize,
    pub to: usize,
}

/// A construct, if it has an end.
fn from_to(from: usize, to: Option<usize>) -> Option<Construct> {
    Some(Construct { from, to: to? })
}

/// Whether a file is included at a position, as by `INCLUDE("target.cfg");` for other kernels.
fn is_inclusion(text: &[u8], at: usize) -> bool {
    let after = at.saturating_add(word_at(text, at).len());
    after > at && text.get(after..).unwrap_or(&[]).starts_with(b"(\"")
}

/// What is left out of the head of a configuration: a line of a preprocessor, or the inclusion of a file; else nothing,
/// since the classes depend on the head.
fn construct_in_head(text: &[u8], from: usize) -> Option<Construct> {
    if byte_at(text, from) == b'#' {
        return from_to(from, Some(line_end(text, from)));
    }
    if is_inclusion(text, from) {
        return from_to(from, construct_end(text, from, TextFile::Configuration));
    }
    None
}

/// What is left out of a configuration: the static API or the class with the fault at this position, or a class before
/// it that is not closed.
fn construct_in_configuration(text: &[u8], at: usize, before: &Before) -> Option<Construct> {
    let from = before.construct.unwrap_or(at);
    if !before.ended {
        return construct_in_head(text, from);
    }
    if byte_at(text, from) == b'#' {
        return from_to(from, Some(line_end(text, from)));
    }
    if before.blocks > 0 && from == at && begins_unit(word_at(text, at), TextFile::Configuration) {
        return from_to(before.unit?, Some(at));
    }
    from_to(from, construct_end(text, from, TextFile::Configuration))
}

/// What is left out of the declaration that begins at a position, with the fault at another: a first value, or further
/// names, up to its semicolon; the variable is declared all the same.
fn part_of_declaration(text: &[u8], from: usize, at: usize) -> Option<Construct> {
    let is_more = byte_at(text, at) == b'=' || byte_at(text, at) == b',';
    if !is_more || !is_word(word_at(text, from), b"var") {
        return None;
    }
    let last = construct_end(text, from, TextFile::Source)?.saturating_sub(1);
    if byte_at(text, last) == b';' {
        from_to(at, Some(last))
    } else {
        None
    }
}

/// What is left out of a task text: the statement or the declaration with the fault at this position or a part of that,
/// a body whose heading has it or that is not closed, or what stands between bodies.
fn construct_in_source(text: &[u8], at: usize, before: &Before) -> Option<Construct> {
    let from = before.construct.unwrap_or(at);
    if before.blocks == 0 {
        return from_to(from, next_body(text, at.saturating_add(1)));
    }
    if from == at && begins_unit(word_at(text, at), TextFile::Source) {
        return from_to(before.unit?, Some(at));
    }
    match part_of_declaration(text, from, at) {
        Some(part) => Some(part),
        None => from_to(from, construct_end(text, from, TextFile::Source)),
    }
}

/// What is left out of a text with a fault: the construct in which it stands. Nothing if the rest depends on it, or if
/// it goes on to the end of the text.
pub fn construct_of(text: &[u8], fault: TextsFault) -> Option<Construct>
    ensures begin { IfSome result (λ s. s.from ≤ fault.position.start) }
    ensures order { IfSome result (λ s. s.from ≤ s.to) }
    ensures within { IfSome result (λ s. s.to ≤ length text.now) }
{
    let at = fault.position.start as usize;
    if at >= text.len() {
        return None;
    }
    let before = before_position(text, at, fault.file);
    let found = match fault.file {
        TextFile::Configuration => construct_in_configuration(text, at, &before)?,
        TextFile::Source => construct_in_source(text, at, &before)?,
    };
    if found.from <= at && found.from < found.to && found.to <= text.len() {
        return Some(found);
    }
    None
}
