//! The static API that begins at a token: where its fields stand, and their values.
ghost use Rattle.std.specs.Prelude.{◌≡◌, ◌↔◌, ◌<◌, ◌^◌, IsTrue, Some, IfSome};
ghost use Rattle.fmp_diagnosis.specs.Tokens as spec;

use crate::around::name_at;
use crate::fields::{Field, fields_of};
use fmp_base::Name;
use fmp_lex::{Api, Symbol, TokenKind, Tokens};

/// Whether this symbol stands at a place.
pub fn is_symbol(tokens: &Tokens<'_>, at: usize, symbol: Symbol) -> bool
    ensures is { IsTrue result ↔ spec.kind_at tokens.now at ≡ Some (TokenKind.Symbol symbol) }
    ensures few { IsTrue result → at < 2 ^ 32 }
{
    match tokens.kind(at) {
        Some(TokenKind::Symbol(found)) => found == symbol,
        _ => false,
    }
}

/// The static API whose word stands at a place.
pub fn api_at(tokens: &Tokens<'_>, at: usize) -> Option<Api>
    ensures value { result ≡ spec.api_at tokens.now at }
    ensures few { IfSome result (λ _. at < 2 ^ 32) }
{
    match tokens.kind(at) {
        Some(TokenKind::Api(api)) => Some(api),
        _ => None,
    }
}

/// Where a field of the API at a place begins: after its `(` or its `{`, or after a comma.
fn field_begin(tokens: &Tokens<'_>, api_at: usize, field: usize) -> usize {
    let mut commas = 0usize;
    let mut found = api_at.saturating_add(2);
    for at in found..tokens.len() {
        if commas == field || is_symbol(tokens, at, Symbol::Semicolon) {
            break;
        }
        if is_symbol(tokens, at, Symbol::Comma) {
            commas = commas.saturating_add(1);
            found = at.saturating_add(1);
        }
    }
    if field == 1 {
        found.saturating_add(1)
    } else {
        found
    }
}

/// The place of a field among those of its API.
fn place_of(api: Api, field: Field) -> usize {
    fields_of(api)
        .iter()
        .position(|one| *one == field)
        .unwrap_or(0)
}

/// Where a field of the API at a place begins.
pub fn begin_of(tokens: &Tokens<'_>, at: usize, api: Api, field: Field) -> usize {
    field_begin(tokens, at, place_of(api, field))
}

/// The number of the item at a place, or after a minus sign there. 0 for another token.
fn item_value(tokens: &Tokens<'_>, at: usize) -> i32 {
    match tokens.kind(at) {
        Some(TokenKind::Number(number)) => number,
        Some(TokenKind::Constant(constant)) => constant.value(),
        Some(TokenKind::Symbol(Symbol::Minus)) => match tokens.kind(at.saturating_add(1)) {
            Some(TokenKind::Number(number)) => number.wrapping_neg(),
            _ => 0,
        },
        _ => 0,
    }
}

/// Whether a value goes on with the token at a place.
fn is_in_value(tokens: &Tokens<'_>, at: usize) -> bool {
    match tokens.kind(at) {
        Some(TokenKind::Number(_) | TokenKind::Constant(_) | TokenKind::Name(_)) => true,
        Some(TokenKind::Symbol(symbol)) => symbol == Symbol::Or || symbol == Symbol::Minus,
        _ => false,
    }
}

/// The value that begins at a place: its items, joined by or.
pub fn value_at(tokens: &Tokens<'_>, begin: usize) -> i32 {
    let mut value = 0;
    let mut is_item = true;
    for at in begin..tokens.len() {
        if !is_in_value(tokens, at) {
            break;
        }
        if is_item {
            value |= item_value(tokens, at);
        }
        is_item = is_symbol(tokens, at, Symbol::Or);
    }
    value
}

/// The place of the last token of the value that begins at a place.
pub fn value_last(tokens: &Tokens<'_>, begin: usize) -> usize {
    let mut last = begin;
    for at in begin..tokens.len() {
        if !is_in_value(tokens, at) {
            break;
        }
        last = at;
    }
    last
}

/// The value of a field of the API at a place.
pub fn value_of(tokens: &Tokens<'_>, at: usize, api: Api, field: Field) -> i32 {
    value_at(tokens, begin_of(tokens, at, api, field))
}

/// The place of the first name in the value that begins at a place: an unknown constant.
fn name_in_value(tokens: &Tokens<'_>, begin: usize) -> Option<usize> {
    for at in begin..tokens.len() {
        if !is_in_value(tokens, at) {
            return None;
        }
        if name_at(tokens, at).is_some() {
            return Some(at);
        }
    }
    None
}

/// The first field of the API at a place in which an unknown constant stands, and its place.
fn unknown_in(tokens: &Tokens<'_>, at: usize, api: Api) -> Option<(Field, usize)> {
    for field in fields_of(api) {
        if field.is_value() {
            if let Some(found) = name_in_value(tokens, begin_of(tokens, at, api, *field)) {
                return Some((*field, found));
            }
        }
    }
    None
}

/// The first unknown constant of the API at a place, and the field in which it stands.
pub fn unknown_constant(tokens: &Tokens<'_>, at: usize, api: Api) -> Option<(Field, Name)> {
    let (field, found) = unknown_in(tokens, at, api)?;
    Some((field, name_at(tokens, found)?))
}

/// The place of that constant.
pub fn unknown_constant_place(tokens: &Tokens<'_>, at: usize, api: Api) -> Option<usize> {
    let (_, found) = unknown_in(tokens, at, api)?;
    Some(found)
}

/// The name of the body that the API at a place has as its entry, if it has one.
pub fn entry_of(tokens: &Tokens<'_>, at: usize, api: Api) -> Option<Name> {
    if !fields_of(api).contains(&Field::Entry) {
        return None;
    }
    name_at(tokens, begin_of(tokens, at, api, Field::Entry))
}

/// The name that the API at a place gives to its object, if it gives one.
pub fn object_name(tokens: &Tokens<'_>, at: usize) -> Option<Name>
    ensures { result ≡ spec.object_name tokens.now at }
{
    api_at(tokens, at)?;
    name_at(tokens, at.saturating_add(2))
}
