//! The first name of a tree that is unknown or used with the wrong shape, in order of text.

ghost use Rattle.std.specs.Prelude.{◌≡◌, ◌++◌, ◌∷◌, map, min, take, drop};
ghost use Rattle.std.specs.Option.{option_copied};
ghost use Rattle.fmp_base.specs.Services.{out_place};
ghost use Rattle.fmp_base.specs.Systems.{found};
ghost use Rattle.fmp_tasklang.specs.Views.{expression_view, link_view, call_view, statement_view, block_view};
ghost use Rattle.fmp_scopes.specs.Chains.{links_uses};
ghost use Rattle.fmp_scopes.specs.Naming.{WritesElement, first_offence, uses_offence, expression_uses, arguments_uses};
ghost use Rattle.fmp_scopes.specs.Naming.{word_uses, call_uses, statement_uses, block_uses};
ghost use Rattle.fmp_scopes.specs.Scopes.{IsHeld, scope_view};

use crate::names::{
    Names, read_element_offence, read_offence, write_element_offence, write_offence,
};
use crate::offences::Offence;
use fmp_base::Service;
use fmp_tasklang::{Expression, Link, ServiceCall, Statement, Word};

#[cycle(expression_offences)]
fn expression_offence(names: &Names<'_>, e: &Expression) -> Option<Offence>
    requires { IsHeld names.now }
    ensures { result ≡ uses_offence (scope_view names.now) (expression_uses (expression_view e.now)) }
{
    match e {
        Expression::Number(_) => None,
        Expression::Name(word) => read_offence(names, word),
        Expression::Element { array, index } => {
            let inner = expression_offence(names, index);
            earlier(read_element_offence(names, array), inner)
        }
        Expression::Unary { operand, .. } => expression_offence(names, operand),
        Expression::Chain { first, rest } => {
            if let Some(offence) = expression_offence(names, first) {
                return Some(offence);
            }
            links_offence(names, rest)
        }
    }
}

#[cycle(expression_offences)]
fn links_offence(names: &Names<'_>, links: &[Link]) -> Option<Offence>
    requires { IsHeld names.now }
    ensures { result ≡ uses_offence (scope_view names.now) (links_uses (map link_view links.now)) }
{
    for link in links {
        if let Some(offence) = expression_offence(names, &link.operand) {
            return Some(offence);
        }
    }
    None
}

fn arguments_offence(names: &Names<'_>, arguments: &[Expression]) -> Option<Offence>
    requires { IsHeld names.now }
    ensures { result ≡ uses_offence (scope_view names.now) (arguments_uses (map expression_view arguments.now)) }
{
    for e in arguments {
        if let Some(offence) = expression_offence(names, e) {
            return Some(offence);
        }
    }
    None
}

/// The fault of a variable that is written, if there is one.
fn word_offence(names: &Names<'_>, word: Option<&Word>) -> Option<Offence>
    requires { IsHeld names.now }
    ensures { result ≡ uses_offence (scope_view names.now) (word_uses (option_copied word.entry)) }
{
    match word {
        Some(word) => write_offence(names, word),
        None => None,
    }
}

/// How many arguments stand before the out place of a service; 0 if it has none.
fn before_out(service: Service) -> usize
    ensures { result ≡ found 0 (out_place service) }
{
    match service.out_place() {
        Some(place) => usize::from(place),
        None => 0,
    }
}

fn least(a: usize, b: usize) -> usize
    ensures { result ≡ min a b }
{
    if a < b { a } else { b }
}

/// The first of two faults.
fn earlier(first: Option<Offence>, second: Option<Offence>) -> Option<Offence>
    ensures { result ≡ first_offence first second }
{
    match first {
        None => second,
        Some(offence) => Some(offence),
    }
}

/// The arguments before the out place, the variable there and the arguments after it.
fn call_offence(names: &Names<'_>, call: &ServiceCall) -> Option<Offence>
    requires { IsHeld names.now }
    ensures { result ≡ uses_offence (scope_view names.now) (call_uses (call_view call.now)) }
{
    let arguments = call.arguments.as_slice();
    let before = least(before_out(call.service), arguments.len());
    let last = arguments_offence(names, &arguments[before..]);
    let from_out = earlier(word_offence(names, call.receivers.out()), last);
    let first = arguments_offence(names, &arguments[..before]);
    earlier(
        word_offence(names, call.receivers.result()),
        earlier(first, from_out),
    )
}

/// The array that is written at an index, then the index and the value.
fn element_offence(
    names: &Names<'_>,
    array: &Word,
    index: &Expression,
    value: &Expression,
) -> Option<Offence>
    requires { IsHeld names.now }
    ensures { result ≡ uses_offence (scope_view names.now) (WritesElement array.now ∷
        (expression_uses (expression_view index.now) ++ expression_uses (expression_view value.now))) }
{
    let first = expression_offence(names, index);
    let second = expression_offence(names, value);
    let rest = earlier(first, second);
    earlier(write_element_offence(names, array), rest)
}

#[cycle(statement_offences)]
fn statement_offence(names: &Names<'_>, s: &Statement) -> Option<Offence>
    requires { IsHeld names.now }
    ensures { result ≡ uses_offence (scope_view names.now) (statement_uses (statement_view s.now)) }
{
    match s {
        Statement::Assign { target, value } => {
            if let Some(offence) = write_offence(names, target) {
                return Some(offence);
            }
            expression_offence(names, value)
        }
        Statement::AssignElement {
            array,
            index,
            value,
        } => element_offence(names, array, index, value),
        Statement::Call(call) => call_offence(names, call),
        Statement::If { condition, then } => earlier(
            expression_offence(names, condition),
            block_offence(names, then),
        ),
        Statement::IfElse {
            condition,
            then,
            otherwise,
        } => earlier(
            expression_offence(names, condition),
            earlier(block_offence(names, then), block_offence(names, otherwise)),
        ),
        Statement::While { condition, body } => earlier(
            expression_offence(names, condition),
            block_offence(names, body),
        ),
        Statement::Break => None,
        Statement::Continue => None,
        Statement::Return => None,
    }
}

/// The first fault of the names in the statements of a block.
#[cycle(statement_offences)]
pub fn block_offence(names: &Names<'_>, statements: &[Statement]) -> Option<Offence>
    requires { IsHeld names.now }
    ensures { result ≡ uses_offence (scope_view names.now) (block_uses (block_view statements.now)) }
{
    for s in statements {
        if let Some(offence) = statement_offence(names, s) {
            return Some(offence);
        }
    }
    None
}
