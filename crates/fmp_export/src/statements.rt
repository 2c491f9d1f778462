//! Statements of a text in C, each without what its first line begins with. Each other line begins with its margin, and
//! each line ends with the comments of its tokens.
ghost use Rattle.std.specs.Prelude.{◌≡◌, ◌++◌, IfOk, OnOk};
ghost use Rattle.fmp_tasklang.specs.Views.{expression_view, statement_view, block_view};
ghost use Rattle.fmp_export.specs.declared.source.Landmark.TheVariants as landmark;
ghost use Rattle.fmp_export.specs.Pieces.{piece_view};
ghost use Rattle.fmp_export.specs.Sources.{place_after, source_view};
ghost use Rattle.fmp_export.specs.Statements as spec;
ghost use Rattle.fmp_export.specs.Statements.{block_end, c_block, c_chained, c_choice, c_closed, c_statement, c_store};
ghost use Rattle.fmp_export.specs.Statements.{choice_end, statement_end};
ghost use Rattle.fmp_export.specs.Words.{c_name, tab};

use crate::calls::append_call;
use crate::expressions::expression;
use crate::pieces::{Piece, matters};
use crate::remarks::{append_directive, finish};
use crate::source::{Landmark, LexedText, place_after, stands_at};
use crate::text::{append, inner_margin};
use crate::words::append_name;
use fmp_base::Name;
use fmp_tasklang::{Expression, Statement, Word};
use std::alloc::AllocError;

/// Appends what stands before the name of the array that gets a value.
fn append_set_front(ordered: bool, out: &mut Vec<u8>) -> Result<(), AllocError>
    ensures { OnOk result (out.new.items ≡ out.old.items ++ spec.set_front ordered) }
{
    if ordered {
        append(b"fmp_set_ordered(", out)
    } else {
        append(b"fmp_set(", out)
    }
}

/// Appends an assignment to an element.
#[tactic(auto, unfolding(crate::specs::Statements::c_store))]
fn append_store(
    array: &Name,
    index: &Piece,
    value: &Piece,
    out: &mut Vec<u8>,
) -> Result<(), AllocError>
    ensures { OnOk result (out.new.items ≡ out.old.items
        ++ c_store (c_name array.now) (piece_view index.now) (piece_view value.now)) }
{
    append_set_front(matters(index.risk, value.risk), out)?;
    append_name(array, out)?;
    append(b", ", out)?;
    append(&index.text, out)?;
    append(b", ", out)?;
    append(&value.text, out)?;
    append(b");", out)
}

/// Appends an assignment to a variable, without what ends its line.
#[tactic(auto, unfolding(crate::specs::Statements::c_assign))]
fn append_assign(
    source: &LexedText<'_>,
    at: usize,
    target: &Word,
    value: &Expression,
    out: &mut Vec<u8>,
) -> Result<(), AllocError>
    ensures { OnOk result (out.new.items ≡ out.old.items
        ++ spec.c_assign (source_view source.now) at target.now (expression_view value.now)) }
{
    let piece = expression(source, at, value)?;
    append_name(&target.name, out)?;
    append(b" = ", out)?;
    append(&piece.text, out)?;
    append(b";", out)
}

/// Appends an assignment to an element, without what ends its line.
#[tactic(auto, unfolding(crate::specs::Statements::c_assign_element))]
fn append_assign_element(
    source: &LexedText<'_>,
    at: usize,
    array: &Word,
    index: &Expression,
    value: &Expression,
    out: &mut Vec<u8>,
) -> Result<(), AllocError>
    ensures { OnOk result (out.new.items ≡ out.old.items ++ spec.c_assign_element (source_view source.now) at array.now
        (expression_view index.now) (expression_view value.now)) }
{
    let index = expression(source, at, index)?;
    let value = expression(source, index.next, value)?;
    append_store(&array.name, &index, &value, out)
}

/// Appends a word, which ends with `(`, a condition and `) {`. Gives the place after the `{`.
#[tactic(auto, unfolding(crate::specs::Statements::c_head))]
fn append_head(
    source: &LexedText<'_>,
    margin: &[u8],
    word: &[u8],
    at: usize,
    condition: &Expression,
    out: &mut Vec<u8>,
) -> Result<usize, AllocError>
    ensures text { OnOk result (out.new.items ≡ out.old.items
        ++ spec.c_head (source_view source.now) margin.now word.now at (expression_view condition.now)) }
    ensures next { IfOk result (λ next. next ≡ place_after landmark.LeftBrace (source_view source.now) at) }
{
    let inner = inner_margin(source.alloc, margin)?;
    let piece = expression(source, at, condition)?;
    append(word, out)?;
    append(&piece.text, out)?;
    append(b") {", out)?;
    finish(&inner, Landmark::LeftBrace, source, at, out)
}

/// Appends the `}` at a place, and gives the place after it.
#[tactic(auto, unfolding(crate::specs::Statements::c_close))]
fn append_close(
    source: &LexedText<'_>,
    margin: &[u8],
    at: usize,
    out: &mut Vec<u8>,
) -> Result<usize, AllocError>
    ensures text { OnOk result (out.new.items ≡ out.old.items ++ spec.c_close (source_view source.now) margin.now at) }
    ensures next { IfOk result (λ next. next ≡ place_after landmark.RightBrace (source_view source.now) at) }
{
    append(margin, out)?;
    append(b"}", out)?;
    finish(margin, Landmark::RightBrace, source, at, out)
}

/// Appends a word alone, and gives the place after its `;`.
#[tactic(auto, unfolding(crate::specs::Statements::c_jump))]
fn append_jump(
    source: &LexedText<'_>,
    margin: &[u8],
    word: &[u8],
    at: usize,
    out: &mut Vec<u8>,
) -> Result<usize, AllocError>
    ensures text { OnOk result (out.new.items ≡ out.old.items
        ++ spec.c_jump (source_view source.now) margin.now word.now at) }
    ensures next { IfOk result (λ next. next ≡ place_after landmark.Semicolon (source_view source.now) at) }
{
    append(word, out)?;
    finish(margin, Landmark::Semicolon, source, at, out)
}

/// Appends the `{` after the `else` that stands after the `}` at a place, and gives the place after it.
#[tactic(auto, unfolding(crate::specs::Statements::c_else_head))]
fn append_else_head(
    source: &LexedText<'_>,
    margin: &[u8],
    at: usize,
    out: &mut Vec<u8>,
) -> Result<usize, AllocError>
    ensures text { OnOk result (out.new.items ≡ out.old.items
        ++ spec.c_else_head (source_view source.now) margin.now at) }
    ensures next { IfOk result (λ next. next ≡ place_after landmark.LeftBrace (source_view source.now) at) }
{
    let inner = inner_margin(source.alloc, margin)?;
    append(margin, out)?;
    append(b"} else {", out)?;
    finish(&inner, Landmark::LeftBrace, source, at, out)
}

/// Whether this is an `if`, with or without `else`.
fn is_if(s: &Statement) -> bool
    ensures { result ≡ spec.is_if (statement_view s.now) }
{
    matches!(s, Statement::If { .. } | Statement::IfElse { .. })
}

/// Whether this is an `if` alone.
fn is_chain(statements: &[Statement]) -> bool
    ensures { result ≡ spec.is_chain (block_view statements.now) }
{
    match statements {
        [s] => is_if(s),
        _ => false,
    }
}

/// Whether this is an `if` alone that stands in no braces after its `else`, which stands after the `}` at a place.
fn goes_on(source: &LexedText<'_>, at: usize, otherwise: &[Statement]) -> bool
    ensures { result ≡ spec.goes_on (source_view source.now) at (block_view otherwise.now) }
{
    is_chain(otherwise)
        && !stands_at(
            Landmark::LeftBrace,
            source,
            place_after(Landmark::Else, source, at),
        )
}

/// Appends a statement at a place, without what its first line begins with; each other line begins with the margin.
/// Gives the place after it.
#[cycle(statements_in_c)]
fn append_statement(
    source: &LexedText<'_>,
    margin: &[u8],
    at: usize,
    s: &Statement,
    out: &mut Vec<u8>,
) -> Result<usize, AllocError>
    ensures text { OnOk result (out.new.items ≡ out.old.items
        ++ c_statement (source_view source.now) margin.now at (statement_view s.now)) }
    ensures next { IfOk result (λ next. next ≡ statement_end (source_view source.now) at (statement_view s.now)) }
{
    match s {
        Statement::Assign { target, value } => {
            append_assign(source, at, target, value, out)?;
            finish(margin, Landmark::Semicolon, source, at, out)
        }
        Statement::AssignElement {
            array,
            index,
            value,
        } => {
            append_assign_element(source, at, array, index, value, out)?;
            finish(margin, Landmark::Semicolon, source, at, out)
        }
        Statement::Call(call) => {
            append_call(source, margin, at, call, out)?;
            finish(margin, Landmark::Semicolon, source, at, out)
        }
        Statement::If { condition, then } => {
            let next = append_head(source, margin, b"if (", at, condition, out)?;
            append_closed(source, margin, next, then, out)
        }
        Statement::IfElse {
            condition,
            then,
            otherwise,
        } => {
            let next = append_head(source, margin, b"if (", at, condition, out)?;
            let next = append_inner(source, margin, next, then, out)?;
            append_choice(source, margin, next, otherwise, out)
        }
        Statement::While { condition, body } => {
            let word = b"fmp_while (";
            let next = append_head(source, margin, word, at, condition, out)?;
            append_closed(source, margin, next, body, out)
        }
        Statement::Break => append_jump(source, margin, b"break;", at, out),
        Statement::Continue => append_jump(source, margin, b"continue;", at, out),
        Statement::Return => append_jump(source, margin, b"return;", at, out),
    }
}

/// Appends what stands after the `if` of a choice, whose `}` stands at a place.
#[cycle(statements_in_c)]
fn append_choice(
    source: &LexedText<'_>,
    margin: &[u8],
    at: usize,
    otherwise: &[Statement],
    out: &mut Vec<u8>,
) -> Result<usize, AllocError>
    ensures text { OnOk result (out.new.items ≡ out.old.items
        ++ c_choice (source_view source.now) margin.now at (block_view otherwise.now)) }
    ensures next { IfOk result (λ next. next ≡ choice_end (source_view source.now) at (block_view otherwise.now)) }
{
    if goes_on(source, at, otherwise) {
        return append_chained(source, margin, at, otherwise, out);
    }
    let next = append_else_head(source, margin, at, out)?;
    append_closed(source, margin, next, otherwise, out)
}

/// Appends an `if` after the `else` before it.
#[cycle(statements_in_c)]
fn append_chained(
    source: &LexedText<'_>,
    margin: &[u8],
    at: usize,
    statements: &[Statement],
    out: &mut Vec<u8>,
) -> Result<usize, AllocError>
    ensures text { OnOk result (out.new.items ≡ out.old.items
        ++ c_chained (source_view source.now) margin.now at (block_view statements.now)) }
    ensures next { IfOk result (λ next. next ≡ block_end (source_view source.now) at (block_view statements.now)) }
{
    let mut next = at;
    for s in statements {
        append(margin, out)?;
        append(b"} else ", out)?;
        next = append_statement(source, margin, next, s, out)?;
    }
    Ok(next)
}

/// Appends the statements of a block within a statement of this margin, and the `}` after them.
#[cycle(statements_in_c)]
fn append_closed(
    source: &LexedText<'_>,
    margin: &[u8],
    at: usize,
    statements: &[Statement],
    out: &mut Vec<u8>,
) -> Result<usize, AllocError>
    ensures text { OnOk result (out.new.items ≡ out.old.items ++ c_closed (source_view source.now) margin.now
        (c_block (source_view source.now) (margin.now ++ tab) at (block_view statements.now))
        (block_end (source_view source.now) at (block_view statements.now))) }
    ensures next { IfOk result (λ next. next ≡ place_after landmark.RightBrace (source_view source.now)
        (block_end (source_view source.now) at (block_view statements.now))) }
{
    let end = append_inner(source, margin, at, statements, out)?;
    append_close(source, margin, end, out)
}

/// Appends the statements of a block within a statement of this margin.
#[cycle(statements_in_c)]
fn append_inner(
    source: &LexedText<'_>,
    margin: &[u8],
    at: usize,
    statements: &[Statement],
    out: &mut Vec<u8>,
) -> Result<usize, AllocError>
    ensures text { OnOk result (out.new.items ≡ out.old.items
        ++ c_block (source_view source.now) (margin.now ++ tab) at (block_view statements.now)) }
    ensures next { IfOk result (λ next. next ≡ block_end (source_view source.now) at (block_view statements.now)) }
{
    let inner = inner_margin(source.alloc, margin)?;
    append_block(source, &inner, at, statements, out)
}

/// Appends statements, of which the first begins at a place. Gives the place after them.
#[cycle(statements_in_c)]
pub fn append_block(
    source: &LexedText<'_>,
    margin: &[u8],
    at: usize,
    statements: &[Statement],
    out: &mut Vec<u8>,
) -> Result<usize, AllocError>
    ensures text { OnOk result (out.new.items ≡ out.old.items
        ++ c_block (source_view source.now) margin.now at (block_view statements.now)) }
    ensures next { IfOk result (λ next. next ≡ block_end (source_view source.now) at (block_view statements.now)) }
{
    let mut next = at;
    for s in statements {
        append_directive(source, next, out)?;
        append(margin, out)?;
        next = append_statement(source, margin, next, s, out)?;
    }
    Ok(next)
}
