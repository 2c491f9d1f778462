//! Bodies and whole programs of the task language.
ghost use Rattle.std.specs.Prelude.{◌≡◌, ◌^◌, ◌+◌, ◌≤◌, ◌<◌, Some, length, slice_get, option_and_then};
ghost use Rattle.fmp_lex.specs.Reading.{kinds_of, Answers, Finds};
ghost use Rattle.fmp_tasklang.specs.Grammar.{body_kind_of};
ghost use Rattle.fmp_tasklang.specs.Reading.{itself, declarations_view, bodies_view, RightLength, RightVariable};
ghost use Rattle.fmp_tasklang.specs.Reading.{RightVariables, RightBody, RightBodies, IsVerdict};
ghost use Rattle.fmp_tasklang.specs.Views.{body_view};

use crate::statements::statements;
use crate::trees::{Body, BodyKind, Declaration, Length, Program};
use crate::words::{body_kind_at, expect_count, expect_word};
use fmp_lex::reading::{expect_keyword, expect_symbol, is_keyword_at, is_symbol_at};
use fmp_lex::{FirstFault, GrammarFault, Keyword, ReadError, Symbol, Tokens};
use std::alloc::Global;

/// The number of places between brackets, if it stands at a place.
fn length(tokens: &Tokens<'_>, at: usize) -> Result<(Option<Length>, usize), FirstFault>
    requires { at ≤ length tokens.now }
    ensures { Finds itself result (RightLength (kinds_of tokens.now) at) }
{
    if !is_symbol_at(tokens, at, Symbol::LeftBracket) {
        return Ok((None, at));
    }
    let (number, next) = expect_count(tokens, at + 1)?;
    let next = expect_symbol(tokens, next, Symbol::RightBracket)?;
    Ok((Some(number), next))
}

fn variable(tokens: &Tokens<'_>, at: usize) -> Result<(Declaration, usize), FirstFault>
    requires { at ≤ length tokens.now }
    ensures { Finds itself result (RightVariable (kinds_of tokens.now) at) }
{
    let next = expect_keyword(tokens, at, Keyword::Var)?;
    let (name, next) = expect_word(tokens, next)?;
    let (length, next) = length(tokens, next)?;
    let next = expect_symbol(tokens, next, Symbol::Semicolon)?;
    Ok((Declaration { name, length }, next))
}

/// The variables from a place on, and the place after them.
pub fn variables(
    alloc: Global,
    tokens: &Tokens<'_>,
    at: usize,
) -> Result<(Vec<Declaration>, usize), ReadError>
    requires { at ≤ length tokens.now }
    ensures { Answers declarations_view result (RightVariables (kinds_of tokens.now) at) }
{
    let mut found = Vec::new(alloc);
    let mut i = at;
    'variables: while is_keyword_at(tokens, i, Keyword::Var) {
        let (one, next) = variable(tokens, i)?;
        found.push(one)?;
        i = next;
    }
    Ok((found, i))
}

/// The body at a place, of the kind that its first token tells, and the place after it.
pub fn body(
    alloc: Global,
    tokens: &Tokens<'_>,
    kind: BodyKind,
    at: usize,
) -> Result<(Body, usize), ReadError>
    requires at { at < length tokens.now }
    requires few { at < 2 ^ 32 }
    requires first { option_and_then body_kind_of (slice_get (kinds_of tokens.now) at) ≡ Some kind }
    ensures { Answers body_view result (RightBody (kinds_of tokens.now) at) }
{
    let (name, next) = expect_word(tokens, at + 1)?;
    let next = expect_symbol(tokens, next, Symbol::LeftBrace)?;
    let (variables, next) = variables(alloc, tokens, next)?;
    let (statements, next) = statements(alloc, tokens, 0, false, next)?;
    let next = expect_symbol(tokens, next, Symbol::RightBrace)?;
    Ok((
        Body {
            kind,
            at: at as u32,
            name,
            variables,
            statements,
        },
        next,
    ))
}

fn bodies(alloc: Global, tokens: &Tokens<'_>, at: usize) -> Result<(Vec<Body>, usize), ReadError>
    requires { at ≤ length tokens.now }
    ensures { Answers bodies_view result (RightBodies (kinds_of tokens.now) at) }
{
    let mut found = Vec::new(alloc);
    let mut i = at;
    'bodies: while let Some(kind) = body_kind_at(tokens, i) {
        let (one, next) = body(alloc, tokens, kind, i)?;
        found.push(one)?;
        i = next;
    }
    Ok((found, i))
}

/// The program that these tokens spell, or the place of their first fault.
pub fn read_program(alloc: Global, tokens: &Tokens<'_>) -> Result<Program, ReadError>
    ensures { IsVerdict (kinds_of tokens.now) result }
{
    let (bodies, next) = bodies(alloc, tokens, 0)?;
    if next < tokens.len() {
        return Err(ReadError::Fault(FirstFault {
            at: next,
            why: GrammarFault::Syntax,
        }));
    }
    Ok(Program { bodies })
}
