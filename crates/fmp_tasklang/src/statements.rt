//! Statements of the task language.
ghost use Rattle.std.specs.Prelude.{◌≡◌, ◌^◌, ◌≤◌, ◌<◌, ◌+◌, Some, true, length, slice_get, option_and_then, IfOk};
ghost use Rattle.std.specs.Prelude.{IfErr};
ghost use Rattle.fmp_lex.specs.Reading.{kinds_of, max_depth, Answers};
ghost use Rattle.fmp_base.specs.declared.words.Keyword.TheVariants as keyword;
ghost use Rattle.fmp_lex.specs.declared.token.Symbol.TheVariants as symbol;
ghost use Rattle.fmp_tasklang.specs.Blocks.{choice};
ghost use Rattle.fmp_tasklang.specs.Calls.{service_of};
ghost use Rattle.fmp_tasklang.specs.Reading.{statements_view, block_view, else_view, source_view, element_view};
ghost use Rattle.fmp_tasklang.specs.Reading.{change_view, assigned, changed, RightCondition, RightSource};
ghost use Rattle.fmp_tasklang.specs.Reading.{RightVariableChange, RightElementChange, RightChange, RightAssignment};
ghost use Rattle.fmp_tasklang.specs.Reading.{RightPlainCall, RightJump, RightStatement, RightIf, RightElse, RightOther};
ghost use Rattle.fmp_tasklang.specs.Reading.{RightBlock, RightStatements};
ghost use Rattle.fmp_tasklang.specs.Statements.{jump_of};
ghost use Rattle.fmp_tasklang.specs.Streaming.{Adds};
ghost use Rattle.fmp_tasklang.specs.Views.{expression_view, statement_view};

use crate::calls::call;
use crate::expressions::{bracketed, expression};
use crate::trees::{Expression, ServiceCall, Statement, Word};
use crate::words::{LOOSEST, deeper, expect_word, jump_at, service_at};
use fmp_base::Service;
use fmp_lex::reading::{expect_symbol, is_keyword_at, is_symbol_at};
use fmp_lex::{FirstFault, GrammarFault, Keyword, ReadError, Symbol, TokenKind, Tokens};
use std::alloc::Global;

/// What stands after `name =`.
#[derive(Drop)]
pub enum GivenValue {
    Value(Expression),
    Call(ServiceCall),
}

/// What stands after the name with which an assignment begins.
#[derive(Drop)]
pub enum Change {
    /// `= given ;`
    Variable(GivenValue),
    /// `[index] = value ;`
    Element(ElementChange),
}

/// `[index] = value ;`
#[derive(Drop)]
pub struct ElementChange {
    pub index: Expression,
    pub value: Expression,
}

fn condition(
    alloc: Global,
    tokens: &Tokens<'_>,
    depth: usize,
    at: usize,
) -> Result<(Expression, usize), ReadError>
    requires depth { depth ≤ max_depth }
    requires at { at ≤ length tokens.now }
    ensures { Answers expression_view result (RightCondition (kinds_of tokens.now) depth at) }
{
    let next = expect_symbol(tokens, at, Symbol::LeftParen)?;
    let (condition, next) = expression(alloc, tokens, depth, LOOSEST, next)?;
    let next = expect_symbol(tokens, next, Symbol::RightParen)?;
    Ok((condition, next))
}

fn source(
    alloc: Global,
    tokens: &Tokens<'_>,
    depth: usize,
    at: usize,
) -> Result<(GivenValue, usize), ReadError>
    requires depth { depth ≤ max_depth }
    requires at { at ≤ length tokens.now }
    ensures { Answers source_view result (RightSource (kinds_of tokens.now) depth at) }
{
    if let Some(service) = service_at(tokens, at) {
        let (call, next) = call(alloc, tokens, depth, service, at)?;
        return Ok((GivenValue::Call(call), next));
    }
    let (value, next) = expression(alloc, tokens, depth, LOOSEST, at)?;
    Ok((GivenValue::Value(value), next))
}

fn assign(alloc: Global, target: Word, source: GivenValue) -> Result<Statement, ReadError>
    ensures tree { IfOk result (λ s. statement_view s ≡ assigned target (source_view source)) }
    ensures memory { IfErr result (λ e. e ≡ ReadError.Memory) }
{
    match source {
        GivenValue::Value(value) => Ok(Statement::Assign { target, value }),
        GivenValue::Call(call) => {
            let mut call = call;
            call.receivers.set_result(alloc, target)?;
            Ok(Statement::Call(call))
        }
    }
}

fn make(alloc: Global, target: Word, change: Change) -> Result<Statement, ReadError>
    ensures tree { IfOk result (λ s. statement_view s ≡ changed target (change_view change)) }
    ensures memory { IfErr result (λ e. e ≡ ReadError.Memory) }
{
    match change {
        Change::Variable(source) => assign(alloc, target, source),
        Change::Element(element) => {
            let index = Box::new(alloc, element.index)?;
            let value = Box::new(alloc, element.value)?;
            Ok(Statement::AssignElement {
                array: target,
                index,
                value,
            })
        }
    }
}

fn variable_change(
    alloc: Global,
    tokens: &Tokens<'_>,
    depth: usize,
    at: usize,
) -> Result<(GivenValue, usize), ReadError>
    requires depth { depth ≤ max_depth }
    requires at { at ≤ length tokens.now }
    ensures { Answers source_view result (RightVariableChange (kinds_of tokens.now) depth at) }
{
    let next = expect_symbol(tokens, at, Symbol::Assign)?;
    let (source, next) = source(alloc, tokens, depth, next)?;
    let next = expect_symbol(tokens, next, Symbol::Semicolon)?;
    Ok((source, next))
}

fn element_change(
    alloc: Global,
    tokens: &Tokens<'_>,
    depth: usize,
    at: usize,
) -> Result<(ElementChange, usize), ReadError>
    requires depth { depth ≤ max_depth }
    requires at { at < length tokens.now }
    requires room { at + 1 < 2 ^ 64 }
    requires first { slice_get (kinds_of tokens.now) at ≡ Some (TokenKind.Symbol symbol.LeftBracket) }
    ensures { Answers element_view result (RightElementChange (kinds_of tokens.now) depth at) }
{
    let (index, next) = bracketed(alloc, tokens, depth, at)?;
    let next = expect_symbol(tokens, next, Symbol::Assign)?;
    let (value, next) = expression(alloc, tokens, depth, LOOSEST, next)?;
    let next = expect_symbol(tokens, next, Symbol::Semicolon)?;
    Ok((ElementChange { index, value }, next))
}

/// What an assignment changes, and how: the rest of the statement after its first name.
fn one_change(
    alloc: Global,
    tokens: &Tokens<'_>,
    depth: usize,
    at: usize,
) -> Result<(Change, usize), ReadError>
    requires depth { depth ≤ max_depth }
    requires at { at ≤ length tokens.now }
    ensures { Answers change_view result (RightChange (kinds_of tokens.now) depth at) }
{
    if is_symbol_at(tokens, at, Symbol::LeftBracket) {
        let (element, next) = element_change(alloc, tokens, depth, at)?;
        return Ok((Change::Element(element), next));
    }
    let (source, next) = variable_change(alloc, tokens, depth, at)?;
    Ok((Change::Variable(source), next))
}

fn assignment(
    alloc: Global,
    tokens: &Tokens<'_>,
    depth: usize,
    at: usize,
) -> Result<(Statement, usize), ReadError>
    requires depth { depth ≤ max_depth }
    requires at { at ≤ length tokens.now }
    ensures { Answers statement_view result (RightAssignment (kinds_of tokens.now) depth at) }
{
    let (target, next) = expect_word(tokens, at)?;
    let (change, next) = one_change(alloc, tokens, depth, next)?;
    let statement = make(alloc, target, change)?;
    Ok((statement, next))
}

fn plain_call(
    alloc: Global,
    tokens: &Tokens<'_>,
    depth: usize,
    service: Service,
    at: usize,
) -> Result<(Statement, usize), ReadError>
    requires depth { depth ≤ max_depth }
    requires at { at < length tokens.now }
    requires room { at + 1 < 2 ^ 64 }
    requires first { option_and_then service_of (slice_get (kinds_of tokens.now) at) ≡ Some service }
    ensures { Answers statement_view result (RightPlainCall (kinds_of tokens.now) depth at) }
{
    let (call, next) = call(alloc, tokens, depth, service, at)?;
    let next = expect_symbol(tokens, next, Symbol::Semicolon)?;
    Ok((Statement::Call(call), next))
}

fn jump(
    tokens: &Tokens<'_>,
    looped: bool,
    statement: Statement,
    at: usize,
) -> Result<(Statement, usize), ReadError>
    requires at { at < length tokens.now }
    requires room { at + 1 < 2 ^ 64 }
    requires first { option_and_then (jump_of looped) (slice_get (kinds_of tokens.now) at)
        ≡ Some (statement_view statement) }
    ensures { Answers statement_view result (RightJump (kinds_of tokens.now) looped at) }
{
    let next = expect_symbol(tokens, at + 1, Symbol::Semicolon)?;
    Ok((statement, next))
}

#[cycle(statements)]
fn statement(
    alloc: Global,
    tokens: &Tokens<'_>,
    depth: usize,
    looped: bool,
    at: usize,
) -> Result<(Statement, usize), ReadError>
    requires depth { depth ≤ max_depth }
    requires at { at ≤ length tokens.now }
    ensures { Answers statement_view result
        (RightStatement (kinds_of tokens.now) depth looped at) }
{
    if let Some(service) = service_at(tokens, at) {
        return plain_call(alloc, tokens, depth, service, at);
    }
    if let Some(statement) = jump_at(tokens, looped, at) {
        return jump(tokens, looped, statement, at);
    }
    if is_keyword_at(tokens, at, Keyword::If) {
        return if_statement(alloc, tokens, depth, looped, at);
    }
    if is_keyword_at(tokens, at, Keyword::While) {
        return while_statement(alloc, tokens, depth, looped, at);
    }
    assignment(alloc, tokens, depth, at)
}

#[cycle(statements)]
fn while_statement(
    alloc: Global,
    tokens: &Tokens<'_>,
    depth: usize,
    looped: bool,
    at: usize,
) -> Result<(Statement, usize), ReadError>
    requires depth { depth ≤ max_depth }
    requires at { at < length tokens.now }
    requires room { at + 1 < 2 ^ 64 }
    requires first { slice_get (kinds_of tokens.now) at ≡ Some (TokenKind.Keyword keyword.While) }
    ensures { Answers statement_view result
        (RightStatement (kinds_of tokens.now) depth looped at) }
{
    let (condition, next) = condition(alloc, tokens, depth, at + 1)?;
    let (body, next) = block(alloc, tokens, depth, true, next)?;
    Ok((Statement::While { condition, body }, next))
}

#[cycle(statements)]
fn if_statement(
    alloc: Global,
    tokens: &Tokens<'_>,
    depth: usize,
    looped: bool,
    at: usize,
) -> Result<(Statement, usize), ReadError>
    requires depth { depth ≤ max_depth }
    requires at { at < length tokens.now }
    requires room { at + 1 < 2 ^ 64 }
    requires first { slice_get (kinds_of tokens.now) at ≡ Some (TokenKind.Keyword keyword.If) }
    ensures { Answers statement_view result (RightIf (kinds_of tokens.now) depth looped at) }
{
    let (condition, next) = condition(alloc, tokens, depth, at + 1)?;
    let (then, next) = block(alloc, tokens, depth, looped, next)?;
    let (otherwise, next) = else_part(alloc, tokens, depth, looped, next)?;
    let chosen = choose(alloc, condition, then, otherwise)?;
    Ok((chosen, next))
}

fn choose(
    alloc: Global,
    condition: Expression,
    then: Vec<Statement>,
    otherwise: Option<Vec<Statement>>,
) -> Result<Statement, ReadError>
    ensures tree { IfOk result (λ s. statement_view s
        ≡ choice (expression_view condition) (block_view then) (else_view otherwise)) }
    ensures memory { IfErr result (λ e. e ≡ ReadError.Memory) }
{
    match otherwise {
        Some(otherwise) => {
            let condition = Box::new(alloc, condition)?;
            Ok(Statement::IfElse {
                condition,
                then,
                otherwise,
            })
        }
        None => Ok(Statement::If { condition, then }),
    }
}

/// `else` and what belongs to it, if it stands at a place.
#[cycle(statements)]
fn else_part(
    alloc: Global,
    tokens: &Tokens<'_>,
    depth: usize,
    looped: bool,
    at: usize,
) -> Result<(Option<Vec<Statement>>, usize), ReadError>
    requires depth { depth ≤ max_depth }
    requires at { at ≤ length tokens.now }
    ensures { Answers else_view result (RightElse (kinds_of tokens.now) depth looped at) }
{
    if !is_keyword_at(tokens, at, Keyword::Else) {
        return Ok((None, at));
    }
    let (body, next) = other(alloc, tokens, depth, looped, at + 1)?;
    Ok((Some(body), next))
}

/// A block, or an `if` a level deeper.
#[cycle(statements)]
fn other(
    alloc: Global,
    tokens: &Tokens<'_>,
    depth: usize,
    looped: bool,
    at: usize,
) -> Result<(Vec<Statement>, usize), ReadError>
    requires depth { depth ≤ max_depth }
    requires at { at ≤ length tokens.now }
    ensures { Answers block_view result (RightOther (kinds_of tokens.now) depth looped at) }
{
    if !is_keyword_at(tokens, at, Keyword::If) {
        return block(alloc, tokens, depth, looped, at);
    }
    let inside = deeper(depth, at)?;
    let (inner, next) = if_statement(alloc, tokens, inside, looped, at)?;
    let mut body = Vec::with_capacity(alloc, 1)?;
    body.push(inner)?;
    Ok((body, next))
}

#[cycle(statements)]
fn block(
    alloc: Global,
    tokens: &Tokens<'_>,
    depth: usize,
    looped: bool,
    at: usize,
) -> Result<(Vec<Statement>, usize), ReadError>
    requires depth { depth ≤ max_depth }
    requires at { at ≤ length tokens.now }
    ensures { Answers block_view result (RightBlock (kinds_of tokens.now) depth looped at) }
{
    if !is_symbol_at(tokens, at, Symbol::LeftBrace) {
        return Err(ReadError::Fault(FirstFault {
            at,
            why: GrammarFault::Syntax,
        }));
    }
    let inside = deeper(depth, at)?;
    let (body, next) = statements(alloc, tokens, inside, looped, at + 1)?;
    let next = expect_symbol(tokens, next, Symbol::RightBrace)?;
    Ok((body, next))
}

/// The statements from a place up to a `}`, and the place of that.
#[cycle(statements)]
pub fn statements(
    alloc: Global,
    tokens: &Tokens<'_>,
    depth: usize,
    looped: bool,
    at: usize,
) -> Result<(Vec<Statement>, usize), ReadError>
    requires depth { depth ≤ max_depth }
    requires at { at ≤ length tokens.now }
    ensures { Answers statements_view result
        (RightStatements (kinds_of tokens.now) depth looped at) }
{
    let mut found = Vec::with_capacity(alloc, 1)?;
    let mut i = at;
    add_statements(alloc, tokens, depth, looped, &mut found, &mut i)?;
    Ok((found, i))
}

/// Adds the statements from a place up to a `}`, and moves the place past each of them.
#[cycle(statements)]
#[inline(never)]
pub fn add_statements(
    alloc: Global,
    tokens: &Tokens<'_>,
    depth: usize,
    looped: bool,
    found: &mut Vec<Statement>,
    at: &mut usize,
) -> Result<(), ReadError>
    requires depth { depth ≤ max_depth }
    requires at { at.now ≤ length tokens.now }
    ensures { Adds (kinds_of tokens.now) depth looped at.old at.new
        (statements_view found.old) (statements_view found.new) result }
{
    'statements: while !is_symbol_at(tokens, *at, Symbol::RightBrace) {
        let (one, next) = statement(alloc, tokens, depth, looped, *at)?;
        found.push(one)?;
        *at = next;
    }
    Ok(())
}
