//! Service calls of the task language.
ghost use Rattle.std.specs.Prelude.{◌≡◌, ◌^◌, ◌+◌, ◌≤◌, ◌<◌, ◌++◌, None, Some, [], length, map, slice_get};
ghost use Rattle.std.specs.Prelude.{option_and_then, IfOk, IfErr};
ghost use Rattle.fmp_lex.specs.Reading.{kinds_of, max_depth, Answers};
ghost use Rattle.fmp_lex.specs.Forms as forms;
ghost use Rattle.fmp_tasklang.specs.Calls.{service_of, values_of, out_from};
ghost use Rattle.fmp_tasklang.specs.Reading.{argument_view, called_view, RightPart, RightArguments, RightCall};
ghost use Rattle.fmp_tasklang.specs.Views.{expression_view};

use crate::argument_list::ArgumentList;
use crate::expressions::expression;
use crate::forms::{CallPart, parts_of};
use crate::receivers::Receivers;
use crate::trees::{Expression, ServiceCall, Word};
use crate::words::{LOOSEST, expect_word};
use fmp_base::Service;
use fmp_lex::reading::expect_symbol;
use fmp_lex::{ReadError, Symbol, Tokens, expect_mark};
use std::alloc::Global;

/// What a call is passed at one place.
#[derive(Drop)]
pub enum Argument {
    Value(Expression),
    /// The variable at the out place.
    Out(Word),
}

fn part(
    alloc: Global,
    tokens: &Tokens<'_>,
    depth: usize,
    part: CallPart,
    at: usize,
) -> Result<(Option<Argument>, usize), ReadError>
    requires depth { depth ≤ max_depth }
    requires at { at ≤ length tokens.now }
    ensures { Answers argument_view result (RightPart (kinds_of tokens.now) depth part at) }
{
    match part {
        CallPart::Mark(mark) => {
            let next = expect_mark(tokens, at, mark)?;
            Ok((None, next))
        }
        CallPart::Value(mark) => {
            let (value, next) = expression(alloc, tokens, depth, LOOSEST, at)?;
            let next = expect_mark(tokens, next, mark)?;
            Ok((Some(Argument::Value(value)), next))
        }
        CallPart::Out(mark) => {
            let next = expect_symbol(tokens, at, Symbol::And)?;
            let (word, next) = expect_word(tokens, next)?;
            let next = expect_mark(tokens, next, mark)?;
            Ok((Some(Argument::Out(word)), next))
        }
    }
}

fn put(alloc: Global, call: &mut ServiceCall, argument: Option<Argument>) -> Result<(), ReadError>
    ensures arguments { IfOk result (λ _. map expression_view call.new.arguments.items
        ≡ map expression_view call.old.arguments.items ++ values_of (forms.put (argument_view argument) [])) }
    ensures out { IfOk result (λ _. call.new.receivers.out
        ≡ out_from call.old.receivers.out (forms.put (argument_view argument) [])) }
    ensures result { IfOk result (λ _. call.new.receivers.result ≡ call.old.receivers.result) }
    ensures service { IfOk result (λ _. call.new.service ≡ call.old.service) }
    ensures memory { IfErr result (λ e. e ≡ ReadError.Memory) }
{
    match argument {
        Some(Argument::Value(value)) => call.arguments.push(alloc, value)?,
        Some(Argument::Out(word)) => call.receivers.set_out(alloc, word)?,
        None => (),
    }
    Ok(())
}

fn arguments(
    alloc: Global,
    tokens: &Tokens<'_>,
    depth: usize,
    service: Service,
    parts: &[CallPart],
    at: usize,
) -> Result<(ServiceCall, usize), ReadError>
    requires depth { depth ≤ max_depth }
    requires at { at ≤ length tokens.now }
    ensures reads { Answers called_view result
        (RightArguments (kinds_of tokens.now) depth service parts.now at) }
    ensures result { IfOk result (λ read. read.0.receivers.result ≡ None) }
{
    let mut call = ServiceCall {
        service,
        arguments: ArgumentList::with_capacity(alloc, usize::from(service.arity()))?,
        receivers: Receivers::none(),
    };
    let mut i = at;
    for one in parts {
        let (argument, next) = part(alloc, tokens, depth, *one, i)?;
        put(alloc, &mut call, argument)?;
        i = next;
    }
    Ok((call, i))
}

/// The call of a service at a place, and the place after it. The variable before `=` is left to the caller.
pub fn call(
    alloc: Global,
    tokens: &Tokens<'_>,
    depth: usize,
    service: Service,
    at: usize,
) -> Result<(ServiceCall, usize), ReadError>
    requires depth { depth ≤ max_depth }
    requires at { at < length tokens.now }
    requires room { at + 1 < 2 ^ 64 }
    requires first { option_and_then service_of (slice_get (kinds_of tokens.now) at) ≡ Some service }
    ensures reads { Answers called_view result (RightCall (kinds_of tokens.now) depth at) }
    ensures result { IfOk result (λ read. read.0.receivers.result ≡ None) }
{
    arguments(alloc, tokens, depth, service, parts_of(service), at + 1)
}
