//! Sentences on a static API that refuses its values, or whose entry does not fit.
ghost use Rattle.std.specs.Prelude.{◌≡◌, true, IfSome, OnOk};
ghost use Rattle.fmp_diagnosis.specs.Excesses as spec;
ghost use Rattle.fmp_diagnosis.specs.Words.{IsSaid};

use crate::apis::{api_at, entry_of, value_of};
use crate::around::{Around, line_of};
use crate::fields::{Field, attributes_of, fields_of, object_of};
use crate::needs::operands_of;
use crate::sentence::Texts;
use crate::words::{Word, say, say_text};
use fmp_base::{Er, Name};
use fmp_lex::{Api, Tokens};
use std::alloc::{AllocError, Global};

/// A field, its value, and the least and the greatest value that it may have.
#[derive(Clone, Copy)]
struct Excess {
    field: Field,
    value: i32,
    low: i32,
    high: i32,
}

fn is_within(value: i32, low: i32, high: i32) -> bool
    ensures { result ≡ spec.is_within value low high }
{
    low <= value && value <= high
}

/// A field whose value is out of this range.
fn excess_over(field: Field, value: i32, low: i32, high: i32) -> Option<Excess>
    ensures { IfSome result (λ e. spec.is_outside e ≡ true) }
{
    if is_within(value, low, high) {
        return None;
    }
    Some(Excess {
        field,
        value,
        low,
        high,
    })
}

/// The excess of a field of the API that begins these tokens, if its value is out of its range.
fn excess_of(tokens: &Tokens<'_>, api: Api, field: Field) -> Option<Excess>
    ensures { IfSome result (λ e. spec.is_outside e ≡ true) }
{
    let value = value_of(tokens, 0, api, field);
    if field == Field::InitialCount {
        let most = value_of(tokens, 0, api, Field::GreatestCount);
        if excess_over(Field::GreatestCount, most, 1, 65_535).is_some() {
            return None;
        }
        return excess_over(field, value, 0, most);
    }
    let (low, high) = field.range()?;
    excess_over(field, value, low, high)
}

/// The first field of the API that begins these tokens whose value is out of its range.
fn first_excess(tokens: &Tokens<'_>, api: Api) -> Option<Excess>
    ensures { IfSome result (λ e. spec.is_outside e ≡ true) }
{
    for field in fields_of(api) {
        let found = excess_of(tokens, api, *field);
        if found.is_some() {
            return found;
        }
    }
    None
}

/// The field of the API that begins these tokens whose value it refuses with a code.
pub fn field_refused(tokens: &Tokens<'_>, api: Api, code: Er) -> Option<Field> {
    match code {
        Er::Rsatr => Some(Field::Attribute),
        Er::Obj => Some(Field::InterruptNumber),
        _ => Some(first_excess(tokens, api)?.field),
    }
}

/// Says which attribute the API has, and which it may have.
fn say_attribute(tokens: &Tokens<'_>, api: Api, out: &mut Vec<u8>) -> Result<(), AllocError>
    ensures { OnOk result (IsSaid out.old.items out.new.items) }
{
    let value = value_of(tokens, 0, api, Field::Attribute);
    say(
        &[
            Word::Text("the attribute of "),
            Word::Quoted(api.name()),
            Word::Text(" is "),
            Word::Number(i64::from(value)),
            Word::Text("; it must be "),
            Word::Text(attributes_of(api)),
        ],
        out,
    )
}

/// Says which value of the API is out of its range.
fn say_excess(api: Api, excess: Excess, out: &mut Vec<u8>) -> Result<(), AllocError>
    requires { spec.is_outside excess ≡ true }
    ensures { OnOk result (IsSaid out.old.items out.new.items) }
{
    say(
        &[
            Word::Text("the "),
            Word::Text(excess.field.called()),
            Word::Text(" of "),
            Word::Quoted(api.name()),
            Word::Text(" is "),
            Word::Number(i64::from(excess.value)),
            Word::Text("; it must be "),
            Word::Number(i64::from(excess.low)),
            Word::Text(" to "),
            Word::Number(i64::from(excess.high)),
        ],
        out,
    )
}

/// Where the handler of this interrupt is defined first, by its line.
fn line_of_handler(tokens: &Tokens<'_>, number: i32) -> Option<u32> {
    for at in 0..tokens.len() {
        if let Some(Api::DefInh) = api_at(tokens, at) {
            if value_of(tokens, at, Api::DefInh, Field::InterruptNumber) == number {
                return line_of(tokens, at);
            }
        }
    }
    None
}

/// Says that the interrupt has a handler already.
fn say_taken(around: &Around<'_>, out: &mut Vec<u8>) -> Result<(), AllocError>
    ensures { OnOk result (IsSaid out.old.items out.new.items) }
{
    let number = value_of(&around.rest.tokens, 0, Api::DefInh, Field::InterruptNumber);
    let line = line_of_handler(&around.before.tokens, number).unwrap_or(1);
    say(
        &[
            Word::Text("interrupt "),
            Word::Number(i64::from(number)),
            Word::Text(" has a handler already, defined at line "),
            Word::Number(i64::from(line)),
        ],
        out,
    )
}

/// Says which value the API at the position refuses with a code.
pub fn say_refusal(around: &Around<'_>, code: Er, out: &mut Vec<u8>) -> Result<(), AllocError>
    ensures { OnOk result (IsSaid out.old.items out.new.items) }
{
    let tokens = &around.rest.tokens;
    let Some(api) = api_at(tokens, 0) else {
        return say_text("a value is out of its range", out);
    };
    match (code, first_excess(tokens, api)) {
        (Er::Rsatr, _) => say_attribute(tokens, api, out),
        (Er::Obj, _) => say_taken(around, out),
        (_, Some(excess)) => say_excess(api, excess, out),
        (_, None) => say(
            &[
                Word::Text("a value of "),
                Word::Quoted(api.name()),
                Word::Text(" is out of its range"),
            ],
            out,
        ),
    }
}

/// Says that the entry of the API at the position is a body of the other kind.
pub fn say_wrong_kind(around: &Around<'_>, out: &mut Vec<u8>) -> Result<(), AllocError>
    ensures { OnOk result (IsSaid out.old.items out.new.items) }
{
    let tokens = &around.rest.tokens;
    let api = api_at(tokens, 0).unwrap_or(Api::CreTsk);
    let Some(name) = entry_of(tokens, 0, api) else {
        return say_text("the entry is a body of the other kind", out);
    };
    let (is, wanted) = if api == Api::CreTsk {
        ("handler", "task")
    } else {
        ("task", "handler")
    };
    say(
        &[
            Word::Name(name),
            Word::Text(" is declared by `"),
            Word::Text(is),
            Word::Text("`; the entry of "),
            Word::Text(object_of(api)),
            Word::Text(" is declared by `"),
            Word::Text(wanted),
            Word::Text("`"),
        ],
        out,
    )
}

/// Says how many bytes of stack a body needs.
fn say_need(
    alloc: Global,
    texts: Texts<'_>,
    name: Name,
    out: &mut Vec<u8>,
) -> Result<(), AllocError>
    ensures { OnOk result (IsSaid out.old.items out.new.items) }
{
    let mark = Word::Text("; ");
    let body = Word::Name(name);
    let needs = Word::Text(" needs ");
    let rate = Word::Text("4 for each operand that stands at once");
    match operands_of(alloc, texts, &name)? {
        Some(operands) => {
            let bytes = Word::Number(i64::from(operands).saturating_mul(4));
            say(&[mark, body, needs, bytes, Word::Text(", "), rate], out)
        }
        None => say(&[mark, body, needs, rate], out),
    }
}

/// Says how many bytes the stack of the task at the position has.
fn say_stack(tokens: &Tokens<'_>, out: &mut Vec<u8>) -> Result<(), AllocError>
    ensures { OnOk result (IsSaid out.old.items out.new.items) }
{
    let size = value_of(tokens, 0, Api::CreTsk, Field::StackSize);
    say(
        &[
            Word::Text("the stack has "),
            Word::Number(i64::from(size)),
            Word::Text(if size == 1 { " byte" } else { " bytes" }),
        ],
        out,
    )
}

/// Says that the stack of the task at the position is too small for its body.
pub fn say_small_stack(
    alloc: Global,
    texts: Texts<'_>,
    around: &Around<'_>,
    out: &mut Vec<u8>,
) -> Result<(), AllocError>
    ensures { OnOk result (IsSaid out.old.items out.new.items) }
{
    let tokens = &around.rest.tokens;
    say_stack(tokens, out)?;
    match entry_of(tokens, 0, Api::CreTsk) {
        Some(name) => say_need(alloc, texts, name, out),
        None => Ok(()),
    }
}
