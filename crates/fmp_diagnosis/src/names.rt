//! Sentences on a name that nothing has, and on one of the wrong shape.
ghost use Rattle.std.specs.Prelude.{◌<◌, length, OnOk};
ghost use Rattle.fmp_diagnosis.specs.Words.{IsSaid, IsSaidFirst, MaySay, quoted};
ghost use Rattle.fmp_base.specs.Names.{name_text};

use crate::apis::{api_at, entry_of, is_symbol, unknown_constant};
use crate::around::{Around, list_of, name_at};
use crate::fields::{Field, attributes_of, object_of};
use crate::known::{
    attributes, bodies, constants, name_meant, objects, say_nearest, say_unknown_of, variables,
};
use crate::sentence::Texts;
use crate::twice::{line_after, place_of_object};
use crate::words::{Word, ask_whether, say, say_of, say_text};
use fmp_base::Name;
use fmp_lex::{Api, Keyword, Symbol, TextFile, TokenKind, Tokens};
use std::alloc::{AllocError, Global};

/// The sentence if no name is found that nothing has.
const UNKNOWN: &str = "nothing has this name";

/// How many processors the configuration has, by its first number.
pub fn processors(tokens: &Tokens<'_>) -> i32 {
    match tokens.kind(2) {
        Some(TokenKind::Number(number)) => number,
        _ => 1,
    }
}

/// What is said of the name of a class of FMP3; nothing of any other.
fn said_of_class(name: &Name) -> &'static str {
    if name.as_bytes().starts_with(b"CLS_") {
        "; `fmp_view import` reads configurations of FMP3"
    } else {
        ""
    }
}

/// Says that there is no class of this name.
fn say_class(around: &Around<'_>, name: Name, out: &mut Vec<u8>) -> Result<(), AllocError>
    ensures { OnOk result (IsSaid out.old.items out.new.items) }
{
    let count = processors(&around.before.tokens);
    let import = Word::Text(said_of_class(&name));
    let none = Word::Text("there is no class ");
    let name = Word::Name(name);
    if count == 1 {
        let classes = Word::Text(": with 1 processor they are `TCL_1` and `TCL_1_ONLY`");
        return say(&[none, name, classes, import], out);
    }
    let count = Word::Number(i64::from(count));
    say(
        &[
            none,
            name,
            Word::Text(": with "),
            count,
            Word::Text(" processors they are `TCL_n` and `TCL_n_ONLY` for n from 1 to "),
            count,
            import,
        ],
        out,
    )
}

/// Says that a name in the attribute of an API is no constant, and which attributes there are.
fn say_unknown_attribute(
    alloc: Global,
    api: Api,
    name: Name,
    out: &mut Vec<u8>,
) -> Result<(), AllocError>
    ensures said { OnOk result (IsSaid out.old.items out.new.items) }
    ensures names { OnOk result (IsSaidFirst (quoted (name_text name)) out.old.items out.new.items) }
{
    let words = [
        Word::Text(" is not a constant; the attribute of "),
        Word::Quoted(api.name()),
        Word::Text(" must be "),
        Word::Text(attributes_of(api)),
    ];
    let known = attributes(alloc, api)?;
    say_unknown_of(alloc, &name, &words, &known, out)
}

/// Says that a name in a value of an API is no constant.
fn say_unknown_constant(
    alloc: Global,
    api: Api,
    field: Field,
    name: Name,
    out: &mut Vec<u8>,
) -> Result<(), AllocError>
    ensures said { OnOk result (IsSaid out.old.items out.new.items) }
    ensures names { OnOk result (IsSaidFirst (quoted (name_text name)) out.old.items out.new.items) }
{
    if field == Field::Attribute {
        return say_unknown_attribute(alloc, api, name, out);
    }
    let words = [
        Word::Text(" is not a constant, and none can be defined: "),
        Word::The(field.called()),
        Word::Text(" of "),
        Word::Quoted(api.name()),
        Word::Text(" is a number"),
    ];
    let known = constants(alloc)?;
    say_unknown_of(alloc, &name, &words, &known, out)
}

/// The names of the bodies of a task text.
fn bodies_of(alloc: Global, src: &[u8]) -> Result<Vec<Name>, AllocError> {
    let list = list_of(alloc, src)?;
    bodies(alloc, &list.tokens)
}

/// Says that no body has the name of an entry.
fn say_unknown_entry(
    alloc: Global,
    src: &[u8],
    name: Name,
    out: &mut Vec<u8>,
) -> Result<(), AllocError>
    ensures { OnOk result (IsSaid out.old.items out.new.items) }
{
    let words = [
        Word::Text("no body of the task text has the name "),
        Word::Name(name),
    ];
    say(&words, out)?;
    let known = bodies_of(alloc, src)?;
    say_nearest(alloc, &name, &known, out)
}

/// Says which name of the API at the position nothing has.
fn say_unknown_in_api(
    alloc: Global,
    src: &[u8],
    tokens: &Tokens<'_>,
    api: Api,
    out: &mut Vec<u8>,
) -> Result<(), AllocError>
    ensures { OnOk result (IsSaid out.old.items out.new.items) }
{
    if let Some((field, name)) = unknown_constant(tokens, 0, api) {
        return say_unknown_constant(alloc, api, field, name, out);
    }
    match entry_of(tokens, 0, api) {
        Some(name) => say_unknown_entry(alloc, src, name, out),
        None => say_text(UNKNOWN, out),
    }
}

/// Whether an assignment to an element begins at the position.
fn begins_element(around: &Around<'_>) -> bool {
    let begins = matches!(
        around.back(1),
        Some(TokenKind::Symbol(Symbol::Semicolon | Symbol::LeftBrace | Symbol::RightBrace))
    );
    begins && is_symbol(&around.rest.tokens, 1, Symbol::LeftBracket)
}

/// Whether the name at the position is to be written: before `=`, with or without an index, or after the `&` of an out
/// place.
fn is_written(around: &Around<'_>) -> bool {
    if is_symbol(&around.rest.tokens, 1, Symbol::Assign) || begins_element(around) {
        return true;
    }
    let is_out = matches!(
        around.back(2),
        Some(TokenKind::Symbol(Symbol::LeftParen | Symbol::Comma))
    );
    is_out && around.back(1) == Some(TokenKind::Symbol(Symbol::And))
}

/// The static API that makes the first object of this name.
fn maker_of(tokens: &Tokens<'_>, name: &Name) -> Option<Api> {
    api_at(tokens, place_of_object(tokens, name)?)
}

/// Says that a name which is written is an object that this static API makes.
fn say_object_written(name: &Name, api: Api, out: &mut Vec<u8>) -> Result<(), AllocError>
    ensures said { OnOk result (IsSaid out.old.items out.new.items) }
    ensures names { OnOk result (IsSaidFirst (quoted (name_text name.now)) out.old.items out.new.items) }
{
    let instead = if matches!(api, Api::CreShr) {
        "; `st_shr` writes it"
    } else {
        "; only a variable is written"
    };
    let words = [
        Word::Text(" is "),
        Word::Text(object_of(api)),
        Word::Text(instead),
    ];
    say_of(name, &words, out)
}

/// Says that a name which is written is no variable.
fn say_written(
    alloc: Global,
    cfg: &Tokens<'_>,
    around: &Around<'_>,
    name: Name,
    out: &mut Vec<u8>,
) -> Result<(), AllocError>
    ensures said { OnOk result (IsSaid out.old.items out.new.items) }
    ensures names { OnOk result (IsSaidFirst (quoted (name_text name)) out.old.items out.new.items) }
{
    if let Some(api) = maker_of(cfg, &name) {
        return say_object_written(&name, api, out);
    }
    let known = variables(alloc, &around.before.tokens)?;
    say_of(&name, &[Word::Text(" is not a variable of this body")], out)?;
    if name_meant(alloc, &name, &known)?.is_some() {
        return say_nearest(alloc, &name, &known, out);
    }
    let declares = Word::Text("; `var` at the head of the body declares one");
    say(&[declares], out)
}

/// Whether a body has this name.
fn is_body(around: &Around<'_>, name: &Name) -> bool {
    let keywords = [Keyword::Task, Keyword::Handler];
    line_after(&around.before.tokens, 0, name, &keywords).is_some()
        || line_after(&around.rest.tokens, 0, name, &keywords).is_some()
}

/// The names that can be read at the position: variables, objects and constants.
fn readable(alloc: Global, cfg: &Tokens<'_>, around: &Around<'_>) -> Result<Vec<Name>, AllocError> {
    let mut known = variables(alloc, &around.before.tokens)?;
    let objects = objects(alloc, cfg)?;
    known.extend_from_slice(&objects)?;
    let constants = constants(alloc)?;
    known.extend_from_slice(&constants)?;
    Ok(known)
}

/// Whether a name is the last part of a known one, as `SELF` is of `TSK_SELF`.
fn is_last_part(known: &Name, name: &Name) -> bool {
    match known.as_bytes().strip_suffix(name.as_bytes()) {
        Some(front) => front.ends_with(b"_"),
        None => false,
    }
}

/// The first known name of which a name is the last part.
fn whole_of(known: &[Name], name: &Name) -> Option<Name> {
    for one in known {
        if is_last_part(one, name) {
            return Some(*one);
        }
    }
    None
}

/// The constant that other kernels write so.
fn constant_written(name: &Name) -> Option<Name> {
    match name.as_bytes() {
        b"TMO_FOREVER" => Name::new(b"TMO_FEVR"),
        _ => None,
    }
}

/// Whether a name is that of a truth value of another language.
fn is_truth(name: &Name) -> bool {
    ["true", "false", "TRUE", "FALSE"]
        .iter()
        .any(|text| text.as_bytes() == name.as_bytes())
}

/// Asks which known name was meant: one that resembles a name, or that other kernels write so, or else the first one of
/// which it is the last part.
fn ask_for(alloc: Global, name: &Name, known: &[Name], out: &mut Vec<u8>) -> Result<(), AllocError>
    ensures { OnOk result (MaySay out.old.items out.new.items) }
{
    if name_meant(alloc, name, known)?.is_some() {
        return say_nearest(alloc, name, known, out);
    }
    match constant_written(name).or(whole_of(known, name)) {
        Some(whole) => ask_whether(&whole, out),
        None => Ok(()),
    }
}

/// Says that a name which is read is neither a variable, an object nor a constant.
fn say_read(
    alloc: Global,
    cfg: &Tokens<'_>,
    around: &Around<'_>,
    name: Name,
    out: &mut Vec<u8>,
) -> Result<(), AllocError>
    ensures said { OnOk result (IsSaid out.old.items out.new.items) }
    ensures names { OnOk result (IsSaidFirst (quoted (name_text name)) out.old.items out.new.items) }
{
    if is_body(around, &name) {
        let words = [Word::Text(
            " is a body; what stands here is a variable of this body, an object or a constant",
        )];
        return say_of(&name, &words, out);
    }
    let known = readable(alloc, cfg, around)?;
    let words = [Word::Text(" is neither a variable of this body, an object nor a constant")];
    say_of(&name, &words, out)?;
    if is_truth(&name) {
        return say(&[Word::Text("; 1 is true, and 0 is false")], out);
    }
    ask_for(alloc, &name, &known, out)
}

/// Says which name of a body nothing has.
fn say_unknown_in_source(
    alloc: Global,
    cfg: &[u8],
    around: &Around<'_>,
    name: Name,
    out: &mut Vec<u8>,
) -> Result<(), AllocError>
    ensures said { OnOk result (IsSaid out.old.items out.new.items) }
    ensures names { OnOk result (IsSaidFirst (quoted (name_text name)) out.old.items out.new.items) }
{
    let list = list_of(alloc, cfg)?;
    if is_written(around) {
        say_written(alloc, &list.tokens, around, name, out)
    } else {
        say_read(alloc, &list.tokens, around, name, out)
    }
}

/// Whether the name at the position is to get the answer of a call.
fn gets_answer(around: &Around<'_>) -> bool {
    let tokens = &around.rest.tokens;
    is_symbol(tokens, 1, Symbol::Assign) && matches!(tokens.kind(2), Some(TokenKind::Service(_)))
}

/// What is said of a name of a wrong shape: an array where a plain variable must stand, an array without an index, or
/// something else with one.
fn shape(around: &Around<'_>) -> &'static str
    ensures { 0 < length result.now }
{
    if is_symbol(&around.rest.tokens, 1, Symbol::LeftBracket) {
        " is not an array; only an array has an index"
    } else if around.back(1) == Some(TokenKind::Symbol(Symbol::And)) && is_written(around) {
        " is an array; the out place of a call is a plain variable"
    } else if gets_answer(around) {
        " is an array; the answer of a call goes to a plain variable"
    } else {
        " is an array; an index in brackets must stand after it"
    }
}

/// Says what is wrong with the shape of the name at the position.
pub fn say_shape(around: &Around<'_>, out: &mut Vec<u8>) -> Result<(), AllocError>
    ensures { OnOk result (IsSaid out.old.items out.new.items) }
{
    match name_at(&around.rest.tokens, 0) {
        Some(name) => say_of(&name, &[Word::Text(shape(around))], out),
        None => say_text(
            "an array stands without an index, or something else with one",
            out,
        ),
    }
}

/// Says which name at the position nothing has.
pub fn say_unknown(
    alloc: Global,
    texts: Texts<'_>,
    around: &Around<'_>,
    out: &mut Vec<u8>,
) -> Result<(), AllocError>
    ensures { OnOk result (IsSaid out.old.items out.new.items) }
{
    let tokens = &around.rest.tokens;
    if let Some(api) = api_at(tokens, 0) {
        return say_unknown_in_api(alloc, texts.src, tokens, api, out);
    }
    match (name_at(tokens, 0), around.file) {
        (Some(name), TextFile::Configuration) => say_class(around, name, out),
        (Some(name), TextFile::Source) => {
            say_unknown_in_source(alloc, texts.cfg, around, name, out)
        }
        (None, _) => say_text(UNKNOWN, out),
    }
}
