//! What a text makes: the objects of a configuration, the bodies of a task text.
ghost use Rattle.std.specs.Prelude.{◌≡◌, ◌++◌, List, IfOk, OnOk};
ghost use Rattle.json.specs.Token as json;
ghost use Rattle.fmp_server.specs.Messages.{Adds, HasSymbols, symbol_list};

use crate::documents::OpenTexts;
use crate::messages::{RequestId, begin_answer, finish};
use crate::positions::{TextRange, range_of};
use crate::writing::range_member;
use fmp_base::Name;
use fmp_diagnosis::apis::{api_at, is_symbol, object_name};
use fmp_diagnosis::around::{begins_body_at, list_of, name_at};
use fmp_diagnosis::fields::object_of;
use fmp_json::{number_member, text_member};
use fmp_lex::{Keyword, Symbol, TokenKind, TokenPosition, Tokens};
use json::Writer;
use std::alloc::{AllocError, Global};
use std::str;

/// The kind of a symbol that is an object, as the protocol has it.
const OBJECT: u64 = 19;

/// That of a body: a function.
const FUNCTION: u64 = 12;

/// Something that a text makes.
#[derive(Clone, Copy)]
struct OutlineEntry {
    name: Name,
    /// What it is, with its article.
    what: &'static str,
    /// Its kind as a symbol.
    kind: u64,
    /// The place of its first token.
    first: usize,
    /// The place of its name among the tokens.
    at: usize,
    /// The place of its last token.
    last: usize,
}

/// The letters of a name.
pub fn letters(name: &Name) -> &str {
    str::from_utf8(name.as_bytes()).unwrap_or("")
}

/// The place of the semicolon after a place, or of the last token.
fn end_of_api(tokens: &Tokens<'_>, at: usize) -> usize {
    for end in at..tokens.len() {
        if is_symbol(tokens, end, Symbol::Semicolon) {
            return end;
        }
    }
    tokens.len().saturating_sub(1)
}

/// The place of the last token before the body after the one that begins at a place.
fn end_of_body(tokens: &Tokens<'_>, at: usize) -> usize {
    for next in at.saturating_add(1)..tokens.len() {
        if begins_body_at(tokens, next) {
            return next.saturating_sub(1);
        }
    }
    tokens.len().saturating_sub(1)
}

/// What the static API at a place makes.
fn object_entry(tokens: &Tokens<'_>, at: usize) -> Option<OutlineEntry> {
    let api = api_at(tokens, at)?;
    Some(OutlineEntry {
        name: object_name(tokens, at)?,
        what: object_of(api),
        kind: OBJECT,
        first: at,
        at: at.saturating_add(2),
        last: end_of_api(tokens, at),
    })
}

/// The body that begins at a place.
fn body_entry(tokens: &Tokens<'_>, at: usize) -> Option<OutlineEntry> {
    let what = match tokens.kind(at)? {
        TokenKind::Keyword(Keyword::Task) => "a task body",
        TokenKind::Keyword(Keyword::Handler) => "a handler body",
        _ => return None,
    };
    Some(OutlineEntry {
        name: name_at(tokens, at.saturating_add(1))?,
        what,
        kind: FUNCTION,
        first: at,
        at: at.saturating_add(1),
        last: end_of_body(tokens, at),
    })
}

/// What begins at a place.
fn entry_at(tokens: &Tokens<'_>, at: usize) -> Option<OutlineEntry> {
    match object_entry(tokens, at) {
        Some(entry) => Some(entry),
        None => body_entry(tokens, at),
    }
}

/// What stands from one token up to another.
fn range_between(text: &[u8], first: TokenPosition, last: TokenPosition) -> TextRange {
    TextRange {
        start: range_of(text, first).start,
        end: range_of(text, last).end,
    }
}

/// Writes an entry as a symbol.
#[tactic(auto, using(crate::proofs::Adding::adding))]
fn write_symbol(
    writer: &mut Writer,
    entry: &OutlineEntry,
    whole: TextRange,
    name: TextRange,
) -> Result<(), AllocError>
    ensures before { writer.new.before ≡ writer.old.before }
    ensures tokens { OnOk result (Adds writer.old.tokens writer.new.tokens) }
{
    writer.begin_object()?;
    text_member(writer, "name", letters(&entry.name))?;
    text_member(writer, "detail", entry.what)?;
    number_member(writer, "kind", entry.kind)?;
    range_member(writer, "range", whole)?;
    range_member(writer, "selectionRange", name)?;
    writer.end_object()
}

/// Writes an entry of a text.
#[tactic(auto, using(crate::proofs::Adding::adding))]
fn write_entry(
    writer: &mut Writer,
    text: &[u8],
    tokens: &Tokens<'_>,
    entry: &OutlineEntry,
) -> Result<(), AllocError>
    ensures before { writer.new.before ≡ writer.old.before }
    ensures tokens { OnOk result (Adds writer.old.tokens writer.new.tokens) }
{
    let first = tokens.position(entry.first);
    let last = tokens.position(entry.last);
    match (first, last, tokens.position(entry.at)) {
        (Some(first), Some(last), Some(name)) => {
            let whole = range_between(text, first, last);
            write_symbol(writer, entry, whole, range_of(text, name))
        }
        _ => Ok(()),
    }
}

/// Writes what a text makes, each as a symbol.
#[tactic(auto, using(crate::proofs::Adding::adding))]
fn write_entries(writer: &mut Writer, text: &[u8], tokens: &Tokens<'_>) -> Result<(), AllocError>
    ensures before { writer.new.before ≡ writer.old.before }
    ensures tokens { OnOk result (Adds writer.old.tokens writer.new.tokens) }
{
    for at in 0..tokens.len() {
        if let Some(entry) = entry_at(tokens, at) {
            write_entry(writer, text, tokens, &entry)?;
        }
    }
    Ok(())
}

/// Writes what a text makes, as a list.
fn write_symbols(writer: &mut Writer, text: &[u8], tokens: &Tokens<'_>) -> Result<(), AllocError>
    ensures before { writer.new.before ≡ writer.old.before }
    ensures tokens { OnOk result ((symbols : List json.Token)
        × (writer.new.tokens ≡ writer.old.tokens ++ symbol_list symbols)) }
{
    writer.begin_array()?;
    write_entries(writer, text, tokens)?;
    writer.end_array()
}

/// The answer with what the text that is meant makes, in order. `AllocError` if memory runs out.
pub fn outline(alloc: Global, open: OpenTexts<'_>, id: RequestId<'_>) -> Result<Vec<u8>, AllocError>
    ensures { IfOk result (λ bytes. HasSymbols id.entry bytes.items) }
{
    let text = open.bytes_of(open.file);
    let list = list_of(alloc, text)?;
    let mut writer = begin_answer(alloc, id)?;
    write_symbols(&mut writer, text, &list.tokens)?;
    finish(writer)
}
