//! What a hover says of an object, a body or a variable, by the tokens of the texts.
use crate::sayings::{append_all, append_code};
use fmp_base::Name;
use fmp_diagnosis::apis::{api_at, begin_of, entry_of, is_symbol, object_name, value_last};
use fmp_diagnosis::around::{begins_body_at, is_same, name_at};
use fmp_diagnosis::fields::{Field, fields_of, object_of};
use fmp_json::{append, append_signed};
use fmp_lex::{Api, Keyword, Symbol, TokenKind, Tokens};
use std::alloc::AllocError;

/// The static API that makes the object of a name, and its place among the tokens of a configuration.
fn maker_of(tokens: &Tokens<'_>, name: Name) -> Option<(Api, usize)> {
    for at in 0..tokens.len() {
        if let Some(one) = object_name(tokens, at) {
            if is_same(&one, &name) {
                return Some((api_at(tokens, at)?, at));
            }
        }
    }
    None
}

/// The number of the object that the static API at a place makes: those of its kind are numbered from 1.
fn number_of(tokens: &Tokens<'_>, api: Api, at: usize) -> i64 {
    let mut number = 1i64;
    for before in 0..at {
        if api_at(tokens, before) == Some(api) {
            number = number.saturating_add(1);
        }
    }
    number
}

/// The class in which a place of a configuration stands.
fn class_at(tokens: &Tokens<'_>, at: usize) -> Option<Name> {
    let mut class = None;
    for before in 0..at {
        if tokens.kind(before) == Some(TokenKind::Keyword(Keyword::Class)) {
            class = name_at(tokens, before.saturating_add(2));
        }
    }
    class
}

/// The bytes of a text from one token up to another.
fn source_of<'a>(text: &'a [u8], tokens: &Tokens<'_>, first: usize, last: usize) -> &'a [u8] {
    let (Some(first), Some(last)) = (tokens.position(first), tokens.position(last)) else {
        return &[];
    };
    let end = (last.end as usize).min(text.len());
    let start = (first.start as usize).min(end);
    &text[start..end]
}

/// Says what stands in a field of the static API at a place.
fn say_field(
    text: &[u8],
    tokens: &Tokens<'_>,
    (api, at): (Api, usize),
    field: Field,
    out: &mut Vec<u8>,
) -> Result<(), AllocError> {
    let first = begin_of(tokens, at, api, field);
    let last = value_last(tokens, first);
    append_all(&["\n- ", field.called(), ": "], out)?;
    append_code(source_of(text, tokens, first, last), out)
}

/// Says in which class the static API at a place stands.
fn say_class_of(tokens: &Tokens<'_>, at: usize, out: &mut Vec<u8>) -> Result<(), AllocError> {
    match class_at(tokens, at) {
        Some(class) => {
            append(b", in class ", out)?;
            append_code(class.as_bytes(), out)
        }
        None => Ok(()),
    }
}

/// Says what stands in the fields of the static API at a place.
fn say_fields(
    text: &[u8],
    tokens: &Tokens<'_>,
    (api, at): (Api, usize),
    out: &mut Vec<u8>,
) -> Result<(), AllocError> {
    append(b"\n", out)?;
    for field in fields_of(api) {
        if *field != Field::Name && *field != Field::Null {
            say_field(text, tokens, (api, at), *field, out)?;
        }
    }
    Ok(())
}

/// Says what the static API at a place makes, and with which values.
fn say_made(
    text: &[u8],
    tokens: &Tokens<'_>,
    name: Name,
    (api, at): (Api, usize),
    out: &mut Vec<u8>,
) -> Result<(), AllocError> {
    append_code(name.as_bytes(), out)?;
    append_all(&[": ", object_of(api), ", number "], out)?;
    append_signed(number_of(tokens, api, at), out)?;
    say_class_of(tokens, at, out)?;
    say_fields(text, tokens, (api, at), out)
}

/// Says what an object of a configuration is; nothing if it has none of this name.
pub fn say_object(
    text: &[u8],
    tokens: &Tokens<'_>,
    name: Name,
    out: &mut Vec<u8>,
) -> Result<(), AllocError> {
    match maker_of(tokens, name) {
        Some(maker) => say_made(text, tokens, name, maker, out),
        None => Ok(()),
    }
}

/// The word with which the body of a name begins, and its place among the tokens of a task text.
fn heading_of(tokens: &Tokens<'_>, name: Name) -> Option<Keyword> {
    for at in 0..tokens.len() {
        if begins_body_at(tokens, at) {
            let one = name_at(tokens, at.saturating_add(1));
            if one == Some(name) {
                let TokenKind::Keyword(keyword) = tokens.kind(at)? else {
                    return None;
                };
                return Some(keyword);
            }
        }
    }
    None
}

/// Says whose entry a body is, by the static API at a place.
fn say_entry(
    tokens: &Tokens<'_>,
    at: usize,
    body: Name,
    out: &mut Vec<u8>,
) -> Result<(), AllocError> {
    let Some(api) = api_at(tokens, at) else {
        return Ok(());
    };
    if entry_of(tokens, at, api) != Some(body) {
        return Ok(());
    }
    append(b"\n- the entry of ", out)?;
    match object_name(tokens, at) {
        Some(name) => append_code(name.as_bytes(), out),
        None => append(object_of(api).as_bytes(), out),
    }
}

/// Says what a body is, and whose entry.
pub fn say_body(
    cfg: &Tokens<'_>,
    src: &Tokens<'_>,
    name: Name,
    out: &mut Vec<u8>,
) -> Result<(), AllocError> {
    append_code(name.as_bytes(), out)?;
    append(b": ", out)?;
    if let Some(keyword) = heading_of(src, name) {
        append_all(&["a ", keyword.name(), " "], out)?;
    }
    append(b"body\n", out)?;
    for at in 0..cfg.len() {
        say_entry(cfg, at, name, out)?;
    }
    Ok(())
}

/// How many places a variable takes whose name stands before a place: those between brackets, else one.
fn places_at(tokens: &Tokens<'_>, at: usize) -> i64 {
    if !is_symbol(tokens, at, Symbol::LeftBracket) {
        return 1;
    }
    match tokens.kind(at.saturating_add(1)) {
        Some(TokenKind::Number(count)) => i64::from(count),
        _ => 1,
    }
}

/// Whether a variable is declared at a place.
fn is_declaration(tokens: &Tokens<'_>, at: usize) -> bool {
    tokens.kind(at) == Some(TokenKind::Keyword(Keyword::Var))
}

/// The first place that a variable of the body of this number takes, and how many it takes. The place of `exinf` is 0.
fn places_of(tokens: &Tokens<'_>, body: u32, name: Name) -> Option<(i64, i64)> {
    let mut bodies = 0u32;
    let mut next = 1i64;
    for at in 0..tokens.len() {
        if begins_body_at(tokens, at) {
            bodies = bodies.saturating_add(1);
            next = 1;
        }
        if bodies == body && is_declaration(tokens, at) {
            let count = places_at(tokens, at.saturating_add(2));
            if name_at(tokens, at.saturating_add(1)) == Some(name) {
                return Some((next, count));
            }
            next = next.saturating_add(count);
        }
    }
    None
}

/// Says which places a variable of the body of this number takes; nothing if it is not declared.
pub fn say_variable(
    tokens: &Tokens<'_>,
    body: u32,
    name: Name,
    out: &mut Vec<u8>,
) -> Result<(), AllocError> {
    let Some((first, count)) = places_of(tokens, body, name) else {
        return Ok(());
    };
    append_code(name.as_bytes(), out)?;
    append(b": a variable, place ", out)?;
    append_signed(first, out)?;
    if count > 1 {
        append(b" to ", out)?;
        append_signed(first.saturating_add(count).saturating_sub(1), out)?;
    }
    append(b" of 0 to 63", out)
}

/// Says what `exinf` is.
pub fn say_exinf(out: &mut Vec<u8>) -> Result<(), AllocError> {
    append(
        b"`exinf`: the extended information of the static API, place 0 of 0 to 63",
        out,
    )
}
