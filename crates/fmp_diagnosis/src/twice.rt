//! Sentences on a name that is used twice.
ghost use Rattle.std.specs.Prelude.{OnOk};
ghost use Rattle.fmp_diagnosis.specs.Words.{IsSaid, IsSaidFirst, quoted};
ghost use Rattle.fmp_base.specs.Names.{name_text};

use crate::apis::object_name;
use crate::around::{Around, is_same, last_body, line_of, list_of, name_at};
use crate::words::{Word, say_of, say_text};
use fmp_base::Name;
use fmp_lex::{Keyword, TextFile, TokenKind, Tokens};
use std::alloc::{AllocError, Global};

/// The sentence if no such name is found.
const TWICE: &str = "a name is used twice";

/// Where the first object of this name is made.
pub fn place_of_object(tokens: &Tokens<'_>, name: &Name) -> Option<usize> {
    for at in 0..tokens.len() {
        if let Some(one) = object_name(tokens, at) {
            if is_same(&one, name) {
                return Some(at);
            }
        }
    }
    None
}

/// The line in which the first object of this name is made.
fn line_of_object(tokens: &Tokens<'_>, name: &Name) -> Option<u32> {
    line_of(tokens, place_of_object(tokens, name)?)
}

/// Whether this name stands at a place.
fn has_name(tokens: &Tokens<'_>, at: usize, name: &Name) -> bool {
    match name_at(tokens, at) {
        Some(one) => is_same(&one, name),
        None => false,
    }
}

/// The line in which this name stands after a keyword for the first time from a place on.
pub fn line_after(
    tokens: &Tokens<'_>,
    from: usize,
    name: &Name,
    keywords: &[Keyword],
) -> Option<u32> {
    for at in from..tokens.len() {
        if let Some(TokenKind::Keyword(keyword)) = tokens.kind(at) {
            if keywords.contains(&keyword) && has_name(tokens, at.saturating_add(1), name) {
                return line_of(tokens, at);
            }
        }
    }
    None
}

/// Says that a name is used before, as what, and at which line if one is known.
fn say_used(
    name: Name,
    what: &'static str,
    line: Option<u32>,
    out: &mut Vec<u8>,
) -> Result<(), AllocError>
    ensures said { OnOk result (IsSaid out.old.items out.new.items) }
    ensures names { OnOk result (IsSaidFirst (quoted (name_text name)) out.old.items out.new.items) }
{
    let is = Word::Text(" is the name of ");
    let what = Word::Text(what);
    match line {
        Some(line) => {
            let line = Word::Number(i64::from(line));
            say_of(&name, &[is, what, Word::Text(", at line "), line], out)
        }
        None => say_of(&name, &[is, what], out),
    }
}

/// Where a configuration makes the first object of this name, by its line.
fn line_in(alloc: Global, cfg: &[u8], name: &Name) -> Result<Option<u32>, AllocError> {
    let list = list_of(alloc, cfg)?;
    Ok(line_of_object(&list.tokens, name))
}

/// The sentence on a name of a task text that is used twice.
fn say_twice_in_source(
    alloc: Global,
    cfg: &[u8],
    around: &Around<'_>,
    name: Name,
    out: &mut Vec<u8>,
) -> Result<(), AllocError>
    ensures said { OnOk result (IsSaid out.old.items out.new.items) }
    ensures names { OnOk result (IsSaidFirst (quoted (name_text name)) out.old.items out.new.items) }
{
    let before = &around.before.tokens;
    if around.back(1) != Some(TokenKind::Keyword(Keyword::Var)) {
        let line = line_after(before, 0, &name, &[Keyword::Task, Keyword::Handler]);
        return say_used(name, "a body already", line, out);
    }
    if name.as_bytes() == b"exinf".as_slice() {
        return say_used(name, "the first variable of each body", None, out);
    }
    let declared = line_after(before, last_body(before), &name, &[Keyword::Var]);
    if declared.is_some() {
        return say_used(name, "a variable of this body already", declared, out);
    }
    let line = line_in(alloc, cfg, &name)?;
    say_used(name, "an object of the configuration", line, out)
}

/// Says where the name at the position is used before.
pub fn say_twice(
    alloc: Global,
    cfg: &[u8],
    around: &Around<'_>,
    out: &mut Vec<u8>,
) -> Result<(), AllocError>
    ensures { OnOk result (IsSaid out.old.items out.new.items) }
{
    if around.file == TextFile::Configuration {
        return match object_name(&around.rest.tokens, 0) {
            Some(name) => {
                let line = line_of_object(&around.before.tokens, &name);
                say_used(name, "an object already", line, out)
            }
            None => say_text(TWICE, out),
        };
    }
    match name_at(&around.rest.tokens, 0) {
        Some(name) => say_twice_in_source(alloc, cfg, around, name, out),
        None => say_text(TWICE, out),
    }
}
