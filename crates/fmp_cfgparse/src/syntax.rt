//! From the tokens of a configuration to its tree.
ghost use Rattle.std.specs.Prelude.{◌≡◌, ◌+◌, ◌^◌, ◌≤◌, ◌<◌, ◌++◌, Some, length, slice_get, option_and_then, IfSome};
ghost use Rattle.std.specs.Prelude.{IfOk, IfErr, []};
ghost use Rattle.fmp_lex.specs.Forms as forms;
ghost use Rattle.fmp_lex.specs.Reading.{kinds_of, Answers, Finds};
ghost use Rattle.fmp_cfgparse.specs.Grammar as grammar;
ghost use Rattle.fmp_cfgparse.specs.Reading.{itself, RightItem, RightNumber, RightName, RightValue, RightPart};
ghost use Rattle.fmp_cfgparse.specs.Reading.{RightParts, RightApi, RightApis, RightClass, RightClasses, RightConfig};
ghost use Rattle.fmp_cfgparse.specs.Reading.{IsVerdict};
ghost use Rattle.fmp_cfgparse.specs.Trees.{items_view, part_view, fields_view, api_view, apis_view, class_view};
ghost use Rattle.fmp_cfgparse.specs.Trees.{classes_view, configuration_view};

use crate::forms::{ApiPart, parts_of};
use crate::tree::{ApiField, Class, Configuration, Item, StaticApi, Value};
use fmp_base::Name;
use fmp_lex::reading::{expect_keyword, expect_symbol, is_keyword_at, is_symbol_at, kind_at};
use fmp_lex::{
    Api, FirstFault, GrammarFault, Keyword, ReadError, Symbol, TokenKind, Tokens, expect_mark,
};
use std::alloc::Global;

fn token_number(kind: TokenKind) -> Option<i32>
    ensures { result ≡ grammar.token_number kind }
{
    match kind {
        TokenKind::Number(number) => Some(number),
        _ => None,
    }
}

fn name_of(kind: TokenKind) -> Option<Name>
    ensures { result ≡ grammar.name_of kind }
{
    match kind {
        TokenKind::Name(name) => Some(name),
        _ => None,
    }
}

fn plain_item_of(kind: TokenKind) -> Option<Item>
    ensures { result ≡ grammar.plain_item_of kind }
{
    match kind {
        TokenKind::Number(number) => Some(Item::Number(number)),
        TokenKind::Constant(constant) => Some(Item::Constant(constant)),
        TokenKind::Name(name) => Some(Item::Name(name)),
        _ => None,
    }
}

fn api_of(kind: TokenKind) -> Option<Api>
    ensures { result ≡ grammar.api_of kind }
{
    match kind {
        TokenKind::Api(api) => Some(api),
        _ => None,
    }
}

fn number_at(tokens: &Tokens<'_>, at: usize) -> Option<i32>
    ensures value { result ≡ option_and_then grammar.token_number (slice_get (kinds_of tokens.now) at) }
    ensures within { IfSome result (λ _. at < length tokens.now) }
    ensures room { IfSome result (λ _. at + 1 < 2 ^ 64) }
{
    token_number(kind_at(tokens, at)?)
}

fn name_at(tokens: &Tokens<'_>, at: usize) -> Option<Name>
    ensures value { result ≡ option_and_then grammar.name_of (slice_get (kinds_of tokens.now) at) }
    ensures within { IfSome result (λ _. at < length tokens.now) }
    ensures room { IfSome result (λ _. at + 1 < 2 ^ 64) }
{
    name_of(kind_at(tokens, at)?)
}

fn plain_item_at(tokens: &Tokens<'_>, at: usize) -> Option<Item>
    ensures value { result ≡ option_and_then grammar.plain_item_of (slice_get (kinds_of tokens.now) at) }
    ensures within { IfSome result (λ _. at < length tokens.now) }
    ensures room { IfSome result (λ _. at + 1 < 2 ^ 64) }
{
    plain_item_of(kind_at(tokens, at)?)
}

fn api_at(tokens: &Tokens<'_>, at: usize) -> Option<Api>
    ensures value { result ≡ option_and_then grammar.api_of (slice_get (kinds_of tokens.now) at) }
    ensures within { IfSome result (λ _. at < length tokens.now) }
    ensures room { IfSome result (λ _. at + 1 < 2 ^ 64) }
{
    api_of(kind_at(tokens, at)?)
}

fn expect_number(tokens: &Tokens<'_>, at: usize) -> Result<(i32, usize), FirstFault>
    requires { at ≤ length tokens.now }
    ensures { Finds itself result (RightNumber (kinds_of tokens.now) at) }
{
    match number_at(tokens, at) {
        Some(number) => Ok((number, at + 1)),
        None => Err(FirstFault {
            at,
            why: GrammarFault::Syntax,
        }),
    }
}

fn expect_name(tokens: &Tokens<'_>, at: usize) -> Result<(Name, usize), FirstFault>
    requires { at ≤ length tokens.now }
    ensures { Finds itself result (RightName (kinds_of tokens.now) at) }
{
    match name_at(tokens, at) {
        Some(name) => Ok((name, at + 1)),
        None => Err(FirstFault {
            at,
            why: GrammarFault::Syntax,
        }),
    }
}

fn item(tokens: &Tokens<'_>, at: usize) -> Result<(Item, usize), FirstFault>
    requires { at ≤ length tokens.now }
    ensures { Finds itself result (RightItem (kinds_of tokens.now) at) }
{
    if is_symbol_at(tokens, at, Symbol::Minus) {
        let (number, next) = expect_number(tokens, at + 1)?;
        return Ok((Item::Minus(number), next));
    }
    match plain_item_at(tokens, at) {
        Some(item) => Ok((item, at + 1)),
        None => Err(FirstFault {
            at,
            why: GrammarFault::Syntax,
        }),
    }
}

fn value(alloc: Global, tokens: &Tokens<'_>, at: usize) -> Result<(Value, usize), ReadError>
    requires { at ≤ length tokens.now }
    ensures { Answers items_view result (RightValue (kinds_of tokens.now) at) }
{
    let (first, next) = item(tokens, at)?;
    if !is_symbol_at(tokens, next, Symbol::Or) {
        return Ok((Value::One(first), next));
    }
    let mut items = Vec::new(alloc);
    items.push(first)?;
    let mut i = next;
    'items: while is_symbol_at(tokens, i, Symbol::Or) {
        let (one, next) = item(tokens, i + 1)?;
        items.push(one)?;
        i = next;
    }
    Ok((Value::Joined(items), i))
}

fn part(
    alloc: Global,
    tokens: &Tokens<'_>,
    part: ApiPart,
    at: usize,
) -> Result<(Option<ApiField>, usize), ReadError>
    requires { at ≤ length tokens.now }
    ensures { Answers part_view result (RightPart part (kinds_of tokens.now) at) }
{
    match part {
        ApiPart::Mark(mark) => {
            let next = expect_mark(tokens, at, mark)?;
            Ok((None, next))
        }
        ApiPart::Name => {
            let (name, next) = expect_name(tokens, at)?;
            Ok((Some(ApiField::Name(name)), next))
        }
        ApiPart::Value => {
            let (items, next) = value(alloc, tokens, at)?;
            Ok((Some(ApiField::Value(items)), next))
        }
    }
}

fn put(fields: &mut Vec<ApiField>, field: Option<ApiField>) -> Result<(), ReadError>
    ensures fields { IfOk result
        (λ _. fields_view fields.new ≡ fields_view fields.old ++ forms.put (part_view field) []) }
    ensures memory { IfErr result (λ e. e ≡ ReadError.Memory) }
{
    if let Some(field) = field {
        fields.push(field)?;
    }
    Ok(())
}

/// About how many fields a form has: a mark stands after each, and four more around them.
fn fields_in(parts: &[ApiPart]) -> usize {
    parts.len().saturating_sub(4) / 2
}

fn parts(
    alloc: Global,
    tokens: &Tokens<'_>,
    parts: &[ApiPart],
    at: usize,
) -> Result<(Vec<ApiField>, usize), ReadError>
    requires { at ≤ length tokens.now }
    ensures { Answers fields_view result (RightParts parts.now (kinds_of tokens.now) at) }
{
    let mut fields = Vec::with_capacity(alloc, fields_in(parts))?;
    let mut i = at;
    for one in parts {
        let (field, next) = part(alloc, tokens, *one, i)?;
        put(&mut fields, field)?;
        i = next;
    }
    Ok((fields, i))
}

fn api(
    alloc: Global,
    tokens: &Tokens<'_>,
    kind: Api,
    at: usize,
) -> Result<(StaticApi, usize), ReadError>
    requires at { at < length tokens.now }
    requires room { at + 1 < 2 ^ 64 }
    requires first { option_and_then grammar.api_of (slice_get (kinds_of tokens.now) at) ≡ Some kind }
    ensures { Answers api_view result (RightApi (kinds_of tokens.now) at) }
{
    let (fields, next) = parts(alloc, tokens, parts_of(kind), at + 1)?;
    Ok((StaticApi { kind, at, fields }, next))
}

fn apis(alloc: Global, tokens: &Tokens<'_>, at: usize) -> Result<(Vec<StaticApi>, usize), ReadError>
    requires { at ≤ length tokens.now }
    ensures { Answers apis_view result (RightApis (kinds_of tokens.now) at) }
{
    let mut found = Vec::new(alloc);
    let mut i = at;
    'apis: while let Some(kind) = api_at(tokens, i) {
        let (one, next) = api(alloc, tokens, kind, i)?;
        found.push(one)?;
        i = next;
    }
    Ok((found, i))
}

fn class(alloc: Global, tokens: &Tokens<'_>, at: usize) -> Result<(Class, usize), ReadError>
    requires { at ≤ length tokens.now }
    ensures { Answers class_view result (RightClass (kinds_of tokens.now) at) }
{
    let next = expect_keyword(tokens, at, Keyword::Class)?;
    let place = expect_symbol(tokens, next, Symbol::LeftParen)?;
    let (name, next) = expect_name(tokens, place)?;
    let next = expect_symbol(tokens, next, Symbol::RightParen)?;
    let next = expect_symbol(tokens, next, Symbol::LeftBrace)?;
    let (apis, next) = apis(alloc, tokens, next)?;
    let next = expect_symbol(tokens, next, Symbol::RightBrace)?;
    Ok((
        Class {
            name,
            at: place,
            apis,
        },
        next,
    ))
}

fn classes(alloc: Global, tokens: &Tokens<'_>, at: usize) -> Result<(Vec<Class>, usize), ReadError>
    requires { at ≤ length tokens.now }
    ensures { Answers classes_view result (RightClasses (kinds_of tokens.now) at) }
{
    let mut found = Vec::new(alloc);
    let mut i = at;
    'classes: while is_keyword_at(tokens, i, Keyword::Class) {
        let (one, next) = class(alloc, tokens, i)?;
        found.push(one)?;
        i = next;
    }
    Ok((found, i))
}

fn configuration(alloc: Global, tokens: &Tokens<'_>) -> Result<(Configuration, usize), ReadError>
    ensures { Answers configuration_view result (RightConfig (kinds_of tokens.now) 0) }
{
    let next = expect_keyword(tokens, 0, Keyword::NumPrc)?;
    let at = expect_symbol(tokens, next, Symbol::LeftParen)?;
    let (processors, next) = expect_number(tokens, at)?;
    let next = expect_symbol(tokens, next, Symbol::RightParen)?;
    let next = expect_symbol(tokens, next, Symbol::Semicolon)?;
    let (classes, next) = classes(alloc, tokens, next)?;
    Ok((
        Configuration {
            processors,
            at,
            classes,
        },
        next,
    ))
}

/// The configuration that these tokens spell, or the place of their first fault.
pub(crate) fn read_tree(alloc: Global, tokens: &Tokens<'_>) -> Result<Configuration, ReadError>
    ensures { IsVerdict (kinds_of tokens.now) result }
{
    let (tree, next) = configuration(alloc, tokens)?;
    if next < tokens.len() {
        return Err(ReadError::Fault(FirstFault {
            at: next,
            why: GrammarFault::Syntax,
        }));
    }
    Ok(tree)
}
