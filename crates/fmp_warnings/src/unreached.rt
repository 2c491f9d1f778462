//! Warnings of statements that nothing reaches.
ghost use Rattle.std.specs.Prelude.{◌≡◌, ◌↔◌, ◌+◌, ◌++◌, ◌<◌, ◌≤◌, ◌^◌, ℕ, MatchOption, IfSome, IsTrue, OnOk};
ghost use Rattle.fmp_diagnosis.specs.Reports.{text_of};
ghost use Rattle.fmp_diagnosis.specs.Tokens.{kind_at};
ghost use Rattle.fmp_lex.specs.declared.fault.TextFile.TheVariants as file;
ghost use Rattle.fmp_warnings.specs.Unreached as spec;
ghost use Rattle.fmp_warnings.specs.Unreached.{GoesOn, IsUnreached, WarnsOfUnreached};
ghost use Rattle.fmp_warnings.specs.Warned.{Adds, AddsOne, IsSaidAt};

use crate::found::FoundWarnings;
use crate::landmarks::{Landmarks, Mark};
use fmp_base::Service;
use fmp_diagnosis::apis::is_symbol;
use fmp_diagnosis::words::{Word, say};
use fmp_lex::{Keyword, Symbol, TextFile, TokenKind, Tokens};
use std::alloc::{AllocError, Global};

/// How many tokens the jump has before its semicolon that begins with this token. In a handler `ext_tsk` is refused.
fn jump_size(in_task: bool, kind: TokenKind) -> Option<usize>
    ensures value { result ≡ spec.jump_size in_task kind }
    ensures few { IfSome result (λ size. size ≤ 3) }
{
    match kind {
        TokenKind::Keyword(Keyword::Return | Keyword::Break | Keyword::Continue) => Some(1),
        TokenKind::Service(Service::ExtTsk) if in_task => Some(3),
        _ => None,
    }
}

/// Whether a task begins at a place.
fn is_task(tokens: &Tokens<'_>, at: usize) -> bool
    ensures { result ≡ spec.is_task (kind_at tokens.now at) }
{
    matches!(tokens.kind(at), Some(TokenKind::Keyword(Keyword::Task)))
}

/// The same for a token of a task text.
fn jump_at(tokens: &Tokens<'_>, mark: Mark) -> Option<usize>
    ensures value { result ≡ spec.jump_at tokens.now mark }
    ensures few { IfSome result (λ size. mark.at + size < 2 ^ 63) }
{
    let kind = tokens.kind(mark.at)?;
    jump_size(is_task(tokens, mark.body), kind)
}

/// Whether a statement stands in the same block after the semicolon at a place.
fn goes_on(tokens: &Tokens<'_>, at: usize) -> bool
    requires { at < 2 ^ 63 }
    ensures { IsTrue result ↔ GoesOn tokens.now at }
{
    let next = at + 1;
    next < tokens.len()
        && is_symbol(tokens, at, Symbol::Semicolon)
        && !is_symbol(tokens, next, Symbol::RightBrace)
}

/// The place of the statement after the jump at a token.
fn unreached_at(tokens: &Tokens<'_>, mark: Mark) -> Option<usize>
    ensures { MatchOption result ((place : ℕ) → IsUnreached tokens.now mark place → ⊥) (IsUnreached tokens.now mark) }
{
    let size = jump_at(tokens, mark)?;
    let end = mark.at + size;
    if goes_on(tokens, end) {
        Some(end + 1)
    } else {
        None
    }
}

/// The word at a place, as the text writes it; empty if none stands there.
fn word_at(tokens: &Tokens<'_>, at: usize) -> &'static str
    ensures { result.now ≡ spec.written (kind_at tokens.now at) }
{
    match tokens.kind(at) {
        Some(TokenKind::Keyword(keyword)) => keyword.name(),
        Some(TokenKind::Service(service)) => service.name(),
        _ => "",
    }
}

/// Says that a jump stands before a statement.
fn say_unreached(jump: &'static str, out: &mut Vec<u8>) -> Result<(), AllocError>
    ensures { OnOk result (out.new.items ≡ out.old.items ++ spec.sentence jump.now) }
{
    say(
        &[
            Word::Text("nothing reaches this statement: "),
            Word::Quoted(jump),
            Word::Text(" stands before it"),
        ],
        out,
    )
}

/// Warns of the statement at a place, after the jump at a token.
fn warn_unreached(
    src: &Tokens<'_>,
    mark: Mark,
    place: usize,
    found: &mut FoundWarnings<'_>,
) -> Result<(), AllocError>
    ensures { OnOk result (AddsOne (IsSaidAt file.Source (text_of found.old.texts file.Source) src.now place
        (spec.sentence (spec.written (kind_at src.now mark.at)))) found.old found.new) }
{
    let mut sentence = Vec::new(found.alloc);
    say_unreached(word_at(src, mark.at), &mut sentence)?;
    found.warn(TextFile::Source, src, place, sentence)
}

/// Warns of the statements of a task text after a jump in the same block. That is certain: no jump leads there.
pub fn warn_of_unreached(
    src: &Tokens<'_>,
    landmarks: &Landmarks,
    found: &mut FoundWarnings<'_>,
) -> Result<(), AllocError>
    ensures { OnOk result (Adds (WarnsOfUnreached (text_of found.old.texts file.Source) src.now)
        landmarks.now.structure.items found.old found.new) }
{
    for mark in &landmarks.structure {
        if let Some(place) = unreached_at(src, *mark) {
            warn_unreached(src, *mark, place, found)?;
        }
    }
    Ok(())
}
