//! What tokens mean in the task language: numbers, names, operators and their levels.
ghost use Rattle.std.specs.Prelude.{◌≡◌, ◌^◌, ◌+◌, ◌≤◌, ◌<◌, ℕ, None, Some, length, slice_get, option_and_then};
ghost use Rattle.std.specs.Prelude.{option_map, IfErr, IfOk, IfSome, MatchOption};
ghost use Rattle.fmp_lex.specs.Reading.{kinds_of, max_depth, Finds};
ghost use Rattle.fmp_tasklang.specs.Calls as calls;
ghost use Rattle.fmp_tasklang.specs.Expressions as expressions;
ghost use Rattle.fmp_tasklang.specs.Grammar as grammar;
ghost use Rattle.fmp_tasklang.specs.Reading.{itself, RightWord, RightCount};
ghost use Rattle.fmp_tasklang.specs.Starts.{Starts};
ghost use Rattle.fmp_tasklang.specs.Statements as statements;
ghost use Rattle.fmp_tasklang.specs.Views.{statement_view};

use crate::trees::{BodyKind, Length, Operator, Statement, Word};
use fmp_base::{BinaryOperator, Name, Service, UnaryOperator};
use fmp_lex::reading::kind_at;
use fmp_lex::{FirstFault, GrammarFault, Keyword, Symbol, TokenKind, Tokens};

/// Above the levels of all operators.
pub const LOOSEST: usize = 9;

/// How many levels of nesting may be open at once.
const MAX_DEPTH: usize = 64;

/// How many levels are open inside one more level, which begins at a place. `GrammarFault::Depth` at this place if
/// `MAX_DEPTH` levels are open already.
#[inline(always)]
pub fn deeper(depth: usize, at: usize) -> Result<usize, FirstFault>
    requires { depth ≤ max_depth }
    ensures room { IfOk result (λ inside. (inside ≡ depth + 1) × (depth < max_depth)) }
    ensures deep { IfErr result
        (λ fault. (fault ≡ record { at = at; why = GrammarFault.Depth }) × (depth ≡ max_depth)) }
{
    if depth == MAX_DEPTH {
        return Err(FirstFault {
            at,
            why: GrammarFault::Depth,
        });
    }
    Ok(depth + 1)
}

/// How an operand begins.
#[derive(Clone, Copy)]
pub enum OperandStart {
    Number(i32),
    Name(Name),
    Unary(UnaryOperator),
    /// `(`
    Group,
}

/// How the operand begins whose first token this is, if one begins so.
#[inline(always)]
fn start_of(kind: TokenKind) -> Option<OperandStart>
    ensures { Starts (Some kind) result }
{
    match kind {
        TokenKind::Number(number) => Some(OperandStart::Number(number)),
        TokenKind::Constant(constant) => Some(OperandStart::Number(constant.value())),
        TokenKind::Name(name) => Some(OperandStart::Name(name)),
        TokenKind::Symbol(Symbol::Minus) => Some(OperandStart::Unary(UnaryOperator::Negate)),
        TokenKind::Symbol(Symbol::Not) => Some(OperandStart::Unary(UnaryOperator::Not)),
        TokenKind::Symbol(Symbol::Tilde) => Some(OperandStart::Unary(UnaryOperator::Complement)),
        TokenKind::Symbol(Symbol::LeftParen) => Some(OperandStart::Group),
        _ => None,
    }
}

fn number_of(kind: TokenKind) -> Option<i32>
    ensures { result ≡ grammar.number_of kind }
{
    match kind {
        TokenKind::Number(number) => Some(number),
        _ => None,
    }
}

fn name_of(kind: TokenKind) -> Option<Name>
    ensures { result ≡ expressions.name_of kind }
{
    match kind {
        TokenKind::Name(name) => Some(name),
        _ => None,
    }
}

fn operator_of(kind: TokenKind) -> Option<(u8, Operator)>
    ensures { result ≡ expressions.operator_of kind }
{
    match kind {
        TokenKind::Symbol(Symbol::Star) => Some((0, Operator::Binary(BinaryOperator::Multiply))),
        TokenKind::Symbol(Symbol::Slash) => Some((0, Operator::Binary(BinaryOperator::Divide))),
        TokenKind::Symbol(Symbol::Percent) => {
            Some((0, Operator::Binary(BinaryOperator::Remainder)))
        }
        TokenKind::Symbol(Symbol::Plus) => Some((1, Operator::Binary(BinaryOperator::Add))),
        TokenKind::Symbol(Symbol::Minus) => Some((1, Operator::Binary(BinaryOperator::Subtract))),
        TokenKind::Symbol(Symbol::Less) => Some((2, Operator::Binary(BinaryOperator::Less))),
        TokenKind::Symbol(Symbol::LessEqual) => {
            Some((2, Operator::Binary(BinaryOperator::LessOrEqual)))
        }
        TokenKind::Symbol(Symbol::Greater) => Some((2, Operator::Binary(BinaryOperator::Greater))),
        TokenKind::Symbol(Symbol::GreaterEqual) => {
            Some((2, Operator::Binary(BinaryOperator::GreaterOrEqual)))
        }
        TokenKind::Symbol(Symbol::Equal) => Some((3, Operator::Binary(BinaryOperator::Equal))),
        TokenKind::Symbol(Symbol::NotEqual) => {
            Some((3, Operator::Binary(BinaryOperator::NotEqual)))
        }
        TokenKind::Symbol(Symbol::And) => Some((4, Operator::Binary(BinaryOperator::And))),
        TokenKind::Symbol(Symbol::Xor) => Some((5, Operator::Binary(BinaryOperator::ExclusiveOr))),
        TokenKind::Symbol(Symbol::Or) => Some((6, Operator::Binary(BinaryOperator::Or))),
        TokenKind::Symbol(Symbol::AndAnd) => Some((7, Operator::Both)),
        TokenKind::Symbol(Symbol::OrOr) => Some((8, Operator::Either)),
        _ => None,
    }
}

fn service_of(kind: TokenKind) -> Option<Service>
    ensures { result ≡ calls.service_of kind }
{
    match kind {
        TokenKind::Service(service) => Some(service),
        _ => None,
    }
}

fn jump_of(kind: TokenKind, looped: bool) -> Option<Statement>
    ensures { option_map statement_view result ≡ statements.jump_of looped kind }
{
    match (looped, kind) {
        (true, TokenKind::Keyword(Keyword::Break)) => Some(Statement::Break),
        (true, TokenKind::Keyword(Keyword::Continue)) => Some(Statement::Continue),
        (_, TokenKind::Keyword(Keyword::Return)) => Some(Statement::Return),
        _ => None,
    }
}

fn body_kind_of(kind: TokenKind) -> Option<BodyKind>
    ensures { result ≡ grammar.body_kind_of kind }
{
    match kind {
        TokenKind::Keyword(Keyword::Task) => Some(BodyKind::Task),
        TokenKind::Keyword(Keyword::Handler) => Some(BodyKind::Handler),
        _ => None,
    }
}

/// How the operand at a place begins, if one does.
#[inline(always)]
pub fn start_at(tokens: &Tokens<'_>, at: usize) -> Option<OperandStart>
    ensures value { Starts (slice_get (kinds_of tokens.now) at) result }
    ensures within { IfSome result (λ _. at < length tokens.now) }
    ensures room { IfSome result (λ _. at + 1 < 2 ^ 64) }
    ensures few { IfSome result (λ _. at < 2 ^ 32) }
{
    start_of(kind_at(tokens, at)?)
}

/// The number at a place; a constant is none.
pub fn plain_number_at(tokens: &Tokens<'_>, at: usize) -> Option<i32>
    ensures value { result ≡ option_and_then grammar.number_of (slice_get (kinds_of tokens.now) at) }
    ensures within { IfSome result (λ _. at < length tokens.now) }
    ensures room { IfSome result (λ _. at + 1 < 2 ^ 64) }
    ensures few { IfSome result (λ _. at < 2 ^ 32) }
{
    number_of(kind_at(tokens, at)?)
}

/// The name at a place.
#[inline(always)]
pub fn name_at(tokens: &Tokens<'_>, at: usize) -> Option<Name>
    ensures value { result ≡ option_and_then expressions.name_of (slice_get (kinds_of tokens.now) at) }
    ensures within { IfSome result (λ _. at < length tokens.now) }
    ensures room { IfSome result (λ _. at + 1 < 2 ^ 64) }
    ensures few { IfSome result (λ _. at < 2 ^ 32) }
{
    name_of(kind_at(tokens, at)?)
}

/// The operator at a place, if it is one of this level.
pub fn operator_at(tokens: &Tokens<'_>, level: usize, at: usize) -> Option<Operator>
    ensures value { MatchOption result
        ((op : Operator)
        → option_and_then expressions.operator_of (slice_get (kinds_of tokens.now) at) ≡ Some (level, op)
        → ⊥)
        (λ op. (option_and_then expressions.operator_of (slice_get (kinds_of tokens.now) at) ≡ Some (level, op))
        × (at < length tokens.now)) }
    ensures room { IfSome result (λ _. at + 1 < 2 ^ 64) }
{
    match operator_of(kind_at(tokens, at)?) {
        Some((found, operator)) if usize::from(found) == level => Some(operator),
        _ => None,
    }
}

/// The level of the operator at a place, if it is `least` or more and below `end`.
pub fn level_at(tokens: &Tokens<'_>, least: usize, end: usize, at: usize) -> Option<usize>
    ensures { MatchOption result
        ((level : ℕ) → least ≤ level → level < end → (op : Operator)
        → option_and_then expressions.operator_of (slice_get (kinds_of tokens.now) at) ≡ Some (level, op)
        → ⊥)
        (λ level. (least ≤ level) × (level < end) × ((op : Operator)
        × (option_and_then expressions.operator_of (slice_get (kinds_of tokens.now) at) ≡ Some (level, op)))) }
{
    match operator_of(kind_at(tokens, at)?) {
        Some((found, _)) if least <= usize::from(found) && usize::from(found) < end => {
            Some(usize::from(found))
        }
        _ => None,
    }
}

/// The service whose call begins at a place.
pub fn service_at(tokens: &Tokens<'_>, at: usize) -> Option<Service>
    ensures value { result ≡ option_and_then calls.service_of (slice_get (kinds_of tokens.now) at) }
    ensures within { IfSome result (λ _. at < length tokens.now) }
    ensures room { IfSome result (λ _. at + 1 < 2 ^ 64) }
{
    service_of(kind_at(tokens, at)?)
}

/// The jump at a place, in a loop or outside.
pub fn jump_at(tokens: &Tokens<'_>, looped: bool, at: usize) -> Option<Statement>
    ensures value { option_map statement_view result
        ≡ option_and_then (statements.jump_of looped) (slice_get (kinds_of tokens.now) at) }
    ensures within { IfSome result (λ _. at < length tokens.now) }
    ensures room { IfSome result (λ _. at + 1 < 2 ^ 64) }
{
    jump_of(kind_at(tokens, at)?, looped)
}

/// The kind of the body that begins at a place.
pub fn body_kind_at(tokens: &Tokens<'_>, at: usize) -> Option<BodyKind>
    ensures value { result ≡ option_and_then grammar.body_kind_of (slice_get (kinds_of tokens.now) at) }
    ensures within { IfSome result (λ _. at < length tokens.now) }
    ensures room { IfSome result (λ _. at + 1 < 2 ^ 64) }
    ensures few { IfSome result (λ _. at < 2 ^ 32) }
{
    body_kind_of(kind_at(tokens, at)?)
}

/// The name that has to stand at a place, and the place after it.
#[inline(always)]
pub fn expect_word(tokens: &Tokens<'_>, at: usize) -> Result<(Word, usize), FirstFault>
    requires { at ≤ length tokens.now }
    ensures { Finds itself result (RightWord (kinds_of tokens.now) at) }
{
    match name_at(tokens, at) {
        Some(name) => Ok((
            Word {
                name,
                at: at as u32,
            },
            at + 1,
        )),
        None => Err(FirstFault {
            at,
            why: GrammarFault::Syntax,
        }),
    }
}

/// The number that has to stand between the brackets of a declaration, and the place after it.
pub fn expect_count(tokens: &Tokens<'_>, at: usize) -> Result<(Length, usize), FirstFault>
    requires { at ≤ length tokens.now }
    ensures { Finds itself result (RightCount (kinds_of tokens.now) at) }
{
    match plain_number_at(tokens, at) {
        Some(places) => Ok((
            Length {
                places,
                at: at as u32,
            },
            at + 1,
        )),
        None => Err(FirstFault {
            at,
            why: GrammarFault::Syntax,
        }),
    }
}
