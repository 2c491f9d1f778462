//! What is said of the word at a position.
ghost use Rattle.std.specs.Prelude.{◌≡◌, ◌++◌, ◌<◌, IfOk, OnOk, length, slice_get};
ghost use Rattle.std.specs.Str.Lossy.{utf8_lossy};
ghost use Rattle.fmp_lex.specs.Reading.{kinds_of};
ghost use Rattle.fmp_server.specs.Hovers.{IsHover, IsHoverAt, Says};
ghost use Rattle.fmp_server.specs.Messages as message;

use crate::documents::OpenTexts;
use crate::messages::{RequestId, begin_answer, finish, null_answer};
use crate::objects::{say_body, say_exinf, say_object, say_variable};
use crate::positions::{Position, TextRange, offset_at, range_of};
use crate::roles::{Named, Role, is_exinf, named_at, word_at};
use crate::sayings::{say_api, say_call, say_class, say_constant};
use crate::writing::{begin_member, range_member};
use fmp_base::Name;
use fmp_diagnosis::around::list_of;
use fmp_json::text_member;
use fmp_lex::{TextFile, TokenKind, Tokens};
use json::Writer;
use std::alloc::{AllocError, Global};

/// Says what an object is.
fn say_object_of(
    alloc: Global,
    open: OpenTexts<'_>,
    name: Name,
    out: &mut Vec<u8>,
) -> Result<(), AllocError> {
    let text = open.bytes_of(TextFile::Configuration);
    let list = list_of(alloc, text)?;
    say_object(text, &list.tokens, name, out)
}

/// Says what a body is.
fn say_body_of(
    alloc: Global,
    open: OpenTexts<'_>,
    name: Name,
    out: &mut Vec<u8>,
) -> Result<(), AllocError> {
    let cfg = list_of(alloc, open.bytes_of(TextFile::Configuration))?;
    let src = list_of(alloc, open.bytes_of(TextFile::Source))?;
    say_body(&cfg.tokens, &src.tokens, name, out)
}

/// Says what a name stands for.
fn say_name(
    alloc: Global,
    open: OpenTexts<'_>,
    tokens: &Tokens<'_>,
    named: Named,
    out: &mut Vec<u8>,
) -> Result<(), AllocError> {
    match named.role {
        Role::Object => say_object_of(alloc, open, named.name, out),
        Role::Body => say_body_of(alloc, open, named.name, out),
        Role::Class => say_class(named.name, out),
        Role::Variable(_) if is_exinf(named.name) => say_exinf(out),
        Role::Variable(body) => say_variable(tokens, body, named.name, out),
    }
}

/// Says what the word at a place of the tokens is; nothing if there is nothing to say.
fn say_word(
    alloc: Global,
    open: OpenTexts<'_>,
    tokens: &Tokens<'_>,
    at: usize,
    out: &mut Vec<u8>,
) -> Result<(), AllocError>
    ensures { OnOk result (Says (slice_get (kinds_of tokens.now) at) out.old.items out.new.items) }
{
    match tokens.kind(at) {
        Some(TokenKind::Service(service)) => say_call(service, out),
        Some(TokenKind::Api(api)) => say_api(api, out),
        Some(TokenKind::Constant(constant)) => say_constant(constant, out),
        Some(TokenKind::Name(_)) => match named_at(tokens, open.file, at) {
            Some(named) => say_name(alloc, open, tokens, named, out),
            None => Ok(()),
        },
        _ => Ok(()),
    }
}

/// Writes what is said.
fn write_contents(writer: &mut Writer, said: &str) -> Result<(), AllocError>
    ensures before { writer.new.before ≡ writer.old.before }
    ensures tokens { OnOk result (writer.new.tokens ≡ writer.old.tokens ++ message.contents said.now) }
{
    begin_member(writer, "contents")?;
    text_member(writer, "kind", "markdown")?;
    text_member(writer, "value", said)?;
    writer.end_object()
}

/// Writes that this is said of a range.
fn write_hover(writer: &mut Writer, range: TextRange, said: &str) -> Result<(), AllocError>
    ensures before { writer.new.before ≡ writer.old.before }
    ensures tokens { OnOk result (writer.new.tokens ≡ writer.old.tokens ++ message.hover range said.now) }
{
    writer.begin_object()?;
    write_contents(writer, said)?;
    range_member(writer, "range", range)?;
    writer.end_object()
}

/// The answer that says this of a range.
fn answer(
    alloc: Global,
    id: RequestId<'_>,
    range: TextRange,
    said: &[u8],
) -> Result<Vec<u8>, AllocError>
    ensures { IfOk result (λ bytes. bytes.items ≡ message.answer id.entry (message.hover range (utf8_lossy said.now))) }
{
    let said = String::from_utf8_lossy(alloc, said)?;
    let mut writer = begin_answer(alloc, id)?;
    write_hover(&mut writer, range, said.as_str())?;
    finish(writer)
}

/// The answer on the word at a place of the tokens.
fn answer_at(
    alloc: Global,
    open: OpenTexts<'_>,
    id: RequestId<'_>,
    tokens: &Tokens<'_>,
    at: usize,
) -> Result<Vec<u8>, AllocError>
    requires { at < length tokens.now }
    ensures { IfOk result (λ bytes. IsHoverAt «open».entry id.entry tokens.now at bytes.items) }
{
    let mut said = Vec::new(alloc);
    say_word(alloc, open, tokens, at, &mut said)?;
    if said.is_empty() {
        return null_answer(alloc, id);
    }
    match tokens.position(at) {
        Some(position) => {
            let text = open.bytes_of(open.file);
            answer(alloc, id, range_of(text, position), &said)
        }
        None => null_answer(alloc, id),
    }
}

/// The answer on the word at a position: what a call does and answers, which number a constant is, what an object is, a
/// body, or a variable. `AllocError` if memory runs out.
pub fn hover(
    alloc: Global,
    open: OpenTexts<'_>,
    id: RequestId<'_>,
    position: Position,
) -> Result<Vec<u8>, AllocError>
    ensures { IfOk result (λ bytes. IsHover «open».entry id.entry position bytes.items) }
{
    let text = open.bytes_of(open.file);
    let list = list_of(alloc, text)?;
    match word_at(&list.tokens, offset_at(text, position)) {
        Some(at) => answer_at(alloc, open, id, &list.tokens, at),
        None => null_answer(alloc, id),
    }
}
