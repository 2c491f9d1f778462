//! Bodies that are read through a window on the tokens of their text, so that few tokens are held at once. A body that
//! is not of the grammar is not read: its fault is found by whoever reads all tokens.
ghost use Rattle.std.specs.Prelude.{◌≡◌, ◌+◌, ◌≤◌, ◌^◌, ◌<◌, ◌⊎◌, List, Some, false, length, slice_get};
ghost use Rattle.std.specs.Prelude.{option_and_then, IfOk, IfSome, IfNone, OnOk};
ghost use Rattle.fmp_lex.specs.Faults.{text_max};
ghost use Rattle.fmp_lex.specs.Reading.{Star, kinds_of, Answers};
ghost use Rattle.fmp_lex.specs.Windows.{IsWindow, Passed, Streams};
ghost use Rattle.fmp_lex.specs.declared.token.Token.{Token};
ghost use Rattle.fmp_tasklang.specs.Grammar.{OneBody, body_kind_of};
ghost use Rattle.fmp_tasklang.specs.Reading.{EndsStatements, OneStatement, statements_view};
ghost use Rattle.fmp_tasklang.specs.Streaming.{IsStuck, LacksHeading, LacksStatements, RightHeading, heading_view};
ghost use Rattle.fmp_tasklang.specs.Views.{body_view};

use crate::bodies::variables;
use crate::statements::add_statements;
use crate::trees::{Body, BodyKind, Declaration, Statement, Word};
use crate::words::expect_word;
use fmp_lex::reading::expect_symbol;
use fmp_lex::{ReadError, Symbol, Tokens, Window};
use std::alloc::{AllocError, Global};

/// A window that holds fewer tokens from a body on moves to that body before it is read: most headings take fewer.
const HEADING: usize = 512;

/// What stands in a body before its statements.
#[derive(Drop)]
pub struct Heading {
    pub name: Word,
    pub variables: Vec<Declaration>,
}

/// The statements of a body from a place up to its `}`, and the place of that; none if a fault stands before it, at a
/// token of the window or where the window is as far as it gets.
fn stream_statements(
    alloc: Global,
    window: &mut Window<'_>,
    at: usize,
) -> Result<Option<(Vec<Statement>, usize)>, AllocError>
    requires window { IsWindow window.now }
    requires at { at ≤ length window.now.tokens }
    ensures text { OnOk result (window.new.text.now ≡ window.old.text.now) }
    ensures window { OnOk result (IsWindow window.new) }
    ensures within { IfOk result (λ o. IfSome o (λ x. x.1 ≤ length window.new.tokens)) }
    ensures statements { IfOk result (λ o. IfSome o (λ x.
        Streams (Star (OneStatement 0 false)) window.old window.new at (statements_view x.0) x.1)) }
    ensures end { IfOk result (λ o. IfSome o (λ x. EndsStatements (kinds_of window.new.tokens) x.1)) }
    ensures none { IfOk result (λ o. IfNone o ((before : List Token) → Passed window.old before at
        → IsStuck window.new ⊎ LacksStatements (kinds_of window.new.tokens))) }
{
    let mut found = Vec::with_capacity(alloc, 1)?;
    let mut i = at;
    'parts: loop {
        match add_statements(alloc, &window.tokens, 0, false, &mut found, &mut i) {
            Ok(()) => return Ok(Some((found, i))),
            Err(ReadError::Memory) => return Err(AllocError),
            Err(ReadError::Fault(fault)) if fault.at < window.tokens.len() => return Ok(None),
            Err(ReadError::Fault(_)) => (),
        }
        if !window.hold(alloc, i)? {
            return Ok(None);
        }
    }
}

/// Moves the window to a body, if it holds few tokens from that place on and the text has more. The error is out of
/// memory.
pub fn hold_heading(alloc: Global, window: &mut Window<'_>, at: usize) -> Result<(), AllocError>
    requires window { IsWindow window.now }
    ensures text { OnOk result (window.new.text.now ≡ window.old.text.now) }
    ensures window { OnOk result (IsWindow window.new) }
    ensures passed { OnOk result ((before : List Token) → Passed window.old before at → Passed window.new before at) }
    ensures moves { OnOk result (length window.old.tokens < at + 512 → at ≤ text_max
        → (window.old.next < window.new.next) ⊎ IsStuck window.new) }
{
    if window.tokens.len().saturating_sub(at) < HEADING && !window.is_last() {
        window.hold(alloc, at)?;
    }
    Ok(())
}

/// The heading of a body from its name on, and the place after it.
fn read_heading(
    alloc: Global,
    tokens: &Tokens<'_>,
    at: usize,
) -> Result<(Heading, usize), ReadError>
    requires { at ≤ length tokens.now }
    ensures { Answers heading_view result (RightHeading (kinds_of tokens.now) at) }
{
    let (name, next) = expect_word(tokens, at)?;
    let next = expect_symbol(tokens, next, Symbol::LeftBrace)?;
    let (variables, next) = variables(alloc, tokens, next)?;
    Ok((Heading { name, variables }, next))
}

/// The body at a place, of the kind that its first token tells, and the place after it; none if it has a fault, or if
/// its heading does not lie in the window. The error is out of memory.
pub fn stream_body(
    alloc: Global,
    window: &mut Window<'_>,
    kind: BodyKind,
    at: usize,
) -> Result<Option<(Body, usize)>, AllocError>
    requires window { IsWindow window.now }
    requires at { at < length window.now.tokens }
    requires few { at < 2 ^ 32 }
    requires first { option_and_then body_kind_of (slice_get (kinds_of window.now.tokens) at) ≡ Some kind }
    ensures text { OnOk result (window.new.text.now ≡ window.old.text.now) }
    ensures window { OnOk result (IsWindow window.new) }
    ensures body { IfOk result (λ o. IfSome o (λ x.
        Streams OneBody window.old window.new at (body_view x.0) x.1)) }
    ensures none { IfOk result (λ o. IfNone o ((before : List Token) → Passed window.old before at
        → LacksHeading (kinds_of window.old.tokens) (at + 1)
        ⊎ (IsStuck window.new ⊎ LacksStatements (kinds_of window.new.tokens)))) }
{
    let (heading, next) = match read_heading(alloc, &window.tokens, at + 1) {
        Ok(found) => found,
        Err(ReadError::Memory) => return Err(AllocError),
        Err(ReadError::Fault(_)) => return Ok(None),
    };
    let Some((statements, next)) = stream_statements(alloc, window, next)? else {
        return Ok(None);
    };
    let Ok(next) = expect_symbol(&window.tokens, next, Symbol::RightBrace) else {
        return Ok(None);
    };
    let body = Body {
        kind,
        at: at as u32,
        name: heading.name,
        variables: heading.variables,
        statements,
    };
    Ok(Some((body, next)))
}
