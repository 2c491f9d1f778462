//! What a task text may go on with after tokens that begin one.
ghost use Rattle.std.specs.Prelude.{◌<◌, length, OnOk};
ghost use Rattle.fmp_diagnosis.specs.Words.{IsSaid};

use crate::around::name_at;
use crate::calls::{argument_count, is_in_brackets, is_out_place, nesting_from};
use crate::words::{Word, counted, say, say_text};
use fmp_base::{Name, Service};
use fmp_lex::{Keyword, Symbol, TokenKind, Tokens};
use std::alloc::AllocError;

/// What is said where an operand is expected.
const OPERAND: &str = "an operand: a number, a constant, a name or `(`";

/// The place after the last token that ends a statement or begins a block.
fn statement_begin(tokens: &Tokens<'_>) -> usize {
    let mut begin = 0;
    for at in 0..tokens.len() {
        if let Some(
            TokenKind::Symbol(Symbol::Semicolon | Symbol::LeftBrace | Symbol::RightBrace),
        ) = tokens.kind(at)
        {
            begin = at.saturating_add(1);
        }
    }
    begin
}

/// The name with which a statement begins that has nothing else yet.
pub fn head_name(tokens: &Tokens<'_>) -> Option<Name> {
    let begin = statement_begin(tokens);
    if begin.saturating_add(1) == tokens.len() {
        name_at(tokens, begin)
    } else {
        None
    }
}

/// Whether all bodies are closed.
pub fn is_outside(tokens: &Tokens<'_>) -> bool {
    let mut open = 0usize;
    for at in 0..tokens.len() {
        match tokens.kind(at) {
            Some(TokenKind::Symbol(Symbol::LeftBrace)) => open = open.saturating_add(1),
            Some(TokenKind::Symbol(Symbol::RightBrace)) => open = open.saturating_sub(1),
            _ => {}
        }
    }
    open == 0
}

/// Whether an operand ends with this token.
fn ends_operand(kind: TokenKind) -> bool {
    matches!(
        kind,
        TokenKind::Number(_)
            | TokenKind::Name(_)
            | TokenKind::Constant(_)
            | TokenKind::Symbol(Symbol::RightParen | Symbol::RightBracket)
    )
}

/// What is expected within parentheses or brackets that are open from a place on.
fn within_open(tokens: &Tokens<'_>, from: usize, last: TokenKind) -> &'static str
    ensures { 0 < length result.now }
{
    if is_in_brackets(tokens, from) {
        in_expression(last, "an operator or `]`")
    } else {
        in_expression(last, "an operator or `)`")
    }
}

/// What is expected after the tokens of an expression, where this closes it.
fn in_expression(last: TokenKind, closing: &'static str) -> &'static str
    requires { 0 < length closing.now }
    ensures { 0 < length result.now }
{
    if ends_operand(last) { closing } else { OPERAND }
}

/// What is expected where an argument of a call begins.
fn say_argument(service: Service, place: usize, out: &mut Vec<u8>) -> Result<(), AllocError>
    ensures { OnOk result (IsSaid out.old.items out.new.items) }
{
    if argument_count(service) == 0 {
        return say(
            &[
                Word::Text("`)`, since "),
                Word::Quoted(service.name()),
                Word::Text(" has no argument"),
            ],
            out,
        );
    }
    if is_out_place(service, place) {
        return say(
            &[
                Word::Text("`&` and a variable, the out place of "),
                Word::Quoted(service.name()),
            ],
            out,
        );
    }
    say(
        &[
            Word::Text("an expression, argument "),
            counted(place.saturating_add(1)),
            Word::Text(" of "),
            Word::Quoted(service.name()),
        ],
        out,
    )
}

/// What is expected after an argument of a call.
fn say_after_argument(service: Service, place: usize, out: &mut Vec<u8>) -> Result<(), AllocError>
    ensures { OnOk result (IsSaid out.old.items out.new.items) }
{
    let count = argument_count(service);
    let mark = if place.saturating_add(1) < count {
        "`,`"
    } else {
        "`)`"
    };
    let noun = if count == 1 {
        " argument"
    } else {
        " arguments"
    };
    say(
        &[
            Word::Text(mark),
            Word::Text(", since "),
            Word::Quoted(service.name()),
            Word::Text(" has "),
            counted(count),
            Word::Text(noun),
        ],
        out,
    )
}

/// What is expected within a call whose name stands at a place.
fn say_in_call(
    tokens: &Tokens<'_>,
    at: usize,
    service: Service,
    last: TokenKind,
    out: &mut Vec<u8>,
) -> Result<(), AllocError>
    ensures { OnOk result (IsSaid out.old.items out.new.items) }
{
    let nesting = nesting_from(tokens, at.saturating_add(1));
    let is_out = is_out_place(service, nesting.commas);
    match last {
        TokenKind::Service(_) => say_text("`(`", out),
        _ if nesting.open == 0 => say_text("`;`", out),
        TokenKind::Symbol(Symbol::And) if is_out => say_text("the name of a variable", out),
        TokenKind::Symbol(Symbol::LeftParen | Symbol::Comma) if nesting.open == 1 => {
            say_argument(service, nesting.commas, out)
        }
        _ if !ends_operand(last) => say_text(OPERAND, out),
        _ if nesting.open == 1 => say_after_argument(service, nesting.commas, out),
        _ if is_in_brackets(tokens, at) => say_text("an operator or `]`", out),
        _ => say_text("`)`", out),
    }
}

/// What is expected after `if` or `while` at a place.
fn in_condition(tokens: &Tokens<'_>, at: usize, last: TokenKind) -> &'static str
    ensures { 0 < length result.now }
{
    let nesting = nesting_from(tokens, at);
    if nesting.open > 0 {
        within_open(tokens, at, last)
    } else if tokens.len() > at.saturating_add(1) {
        "`{`"
    } else {
        "`(`"
    }
}

/// Whether `=` stands in the statement that begins at a place.
fn has_assign(tokens: &Tokens<'_>, begin: usize) -> bool {
    for at in begin..tokens.len() {
        if tokens.kind(at) == Some(TokenKind::Symbol(Symbol::Assign)) {
            return true;
        }
    }
    false
}

/// What is expected after a name at the head of a statement, where no call is assigned to it.
fn after_name(tokens: &Tokens<'_>, begin: usize, last: TokenKind) -> &'static str
    ensures { 0 < length result.now }
{
    match tokens.len().saturating_sub(begin) {
        1 => "`=` or `[`",
        2 if last == TokenKind::Symbol(Symbol::Assign) => "an expression or a service call",
        _ if nesting_from(tokens, begin).open > 0 => within_open(tokens, begin, last),
        _ if !has_assign(tokens, begin) => "`=`",
        _ => in_expression(last, "an operator or `;`"),
    }
}

/// What is expected after a name at the head of a statement.
fn say_assignment(
    tokens: &Tokens<'_>,
    begin: usize,
    last: TokenKind,
    out: &mut Vec<u8>,
) -> Result<(), AllocError>
    ensures { OnOk result (IsSaid out.old.items out.new.items) }
{
    let source = begin.saturating_add(2);
    if let Some(TokenKind::Service(service)) = tokens.kind(source) {
        return say_in_call(tokens, source, service, last, out);
    }
    say_text(after_name(tokens, begin, last), out)
}

/// What must follow a keyword at the head of a statement that has this many tokens so far.
fn after_keyword(keyword: Keyword, count: usize) -> &'static str
    ensures { 0 < length result.now }
{
    match (keyword, count) {
        (Keyword::Var, 1) => "the name of a variable",
        (Keyword::Var, 2) => "`;` or `[`",
        (Keyword::Var, 3) => "a number, 1 to 63",
        (Keyword::Var, 4) => "`]`",
        (Keyword::Task | Keyword::Handler, 1) => "the name of a body",
        (Keyword::Task | Keyword::Handler, _) => "`{`",
        (Keyword::Else, _) => "`{` or `if`",
        _ => "`;`",
    }
}

/// What is expected after a statement that begins with a keyword.
fn within_keyword(
    tokens: &Tokens<'_>,
    begin: usize,
    keyword: Keyword,
    last: TokenKind,
) -> &'static str
    ensures { 0 < length result.now }
{
    let second = begin.saturating_add(1);
    match (keyword, tokens.kind(second)) {
        (Keyword::If | Keyword::While, _) => in_condition(tokens, begin, last),
        (Keyword::Else, Some(_)) => in_condition(tokens, second, last),
        _ => after_keyword(keyword, tokens.len().saturating_sub(begin)),
    }
}

/// What is expected where a statement begins.
fn at_begin(tokens: &Tokens<'_>) -> &'static str
    ensures { 0 < length result.now }
{
    if is_outside(tokens) {
        "`task`, `handler` or the end of the text"
    } else {
        "a statement or `}`"
    }
}

/// Says what a task text may go on with after these tokens, which begin one.
pub fn say_expected(tokens: &Tokens<'_>, out: &mut Vec<u8>) -> Result<(), AllocError>
    ensures { OnOk result (IsSaid out.old.items out.new.items) }
{
    let begin = statement_begin(tokens);
    let Some(last) = tokens.kind(tokens.len().saturating_sub(1)) else {
        return say_text("`task` or `handler`", out);
    };
    match tokens.kind(begin) {
        Some(TokenKind::Keyword(keyword)) => {
            say_text(within_keyword(tokens, begin, keyword, last), out)
        }
        Some(TokenKind::Service(service)) => say_in_call(tokens, begin, service, last, out),
        Some(TokenKind::Name(_)) => say_assignment(tokens, begin, last, out),
        _ => say_text(at_begin(tokens), out),
    }
}
