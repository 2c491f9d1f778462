//! Sentences on a text that goes on as no well-formed text does.
ghost use Rattle.std.specs.Prelude.{◌<◌, length, IfSome, OnOk};
ghost use Rattle.fmp_diagnosis.specs.Words.{IsSaid, IsSaidFirst, MaySay, quoted};
ghost use Rattle.fmp_base.specs.Names.{name_text};

use crate::around::{Around, name_at};
use crate::foreign::say_foreign;
use crate::habits::{said_of_declaration, say_habit};
use crate::known::{apis, keywords, say_nearest, say_unknown_of, services};
use crate::left_out::{say_left_out, why_left_out};
use crate::words::{
    BYTE_ORDER_MARK, Word, counted, say, say_quoted, say_text, say_token, word_length,
};
use crate::{expected_api, expected_statement};
use fmp_base::Name;
use fmp_lex::{Keyword, LexFault, Symbol, TextFile, TokenKind};
use std::alloc::{AllocError, Global};

/// A number of more bytes is not quoted.
const SHOWN_MAX: usize = 40;

/// What is said after a number that is too great.
const TOO_GREAT: &str =
    " is too great: a number is at most 2147483647, with at most 8 hexadecimal digits";

/// The first of these bytes, a space if there is none.
fn first_of(bytes: &[u8]) -> u8 {
    bytes.first().copied().unwrap_or(b' ')
}

/// Why these bytes of a word that begins with a digit are no number.
fn why_no_number(number: &[u8]) -> &'static str {
    if number.starts_with(b"0x") || number.starts_with(b"0X") {
        "; a hexadecimal number is `0x` and its digits"
    } else if number.starts_with(b"0b") || number.starts_with(b"0B") {
        "; there are no binary numbers; a hexadecimal one is `0x` and its digits"
    } else if number.starts_with(b"0") {
        "; a decimal number does not begin with 0, and there are no octal numbers"
    } else {
        "; a number has no suffix and no unit: times are in ticks"
    }
}

/// What stands in a text in the place of a token of another language with which these bytes begin.
fn in_place_of(file: TextFile, bytes: &[u8]) -> &'static str {
    match first_of(bytes) {
        b'#' => "; there is no preprocessor",
        b'"' if file == TextFile::Configuration => "; a name stands without quotes",
        b'"' => "; there are no strings, and `put` prints a number",
        b'\'' => "; a character is written as its number",
        b'?' => "; the only choice is `if`, with or without `else`",
        b':' if bytes.starts_with(b":=") => "; `=` gives a variable a value",
        b':' => "; there are no labels, and a variable has no type",
        b'.' => "; numbers are whole, and there are no structures",
        _ => "",
    }
}

/// Says why a word that begins with a digit is no number, or no name where a name is expected.
fn say_digits(word: &[u8], expected: &[u8], out: &mut Vec<u8>) -> Result<(), AllocError>
    ensures { OnOk result (IsSaid out.old.items out.new.items) }
{
    if expected.starts_with(b"a name for ") || expected.starts_with(b"the name of ") {
        let why = Word::Text(" is not a name; a name begins with a letter or `_`");
        return say_quoted(word, &[why], out);
    }
    let words = [
        Word::Text(" is not a number"),
        Word::Text(why_no_number(word)),
    ];
    say_quoted(word, &words, out)
}

/// Whether a text in UTF-16 begins with these bytes.
fn is_utf16(bytes: &[u8]) -> bool {
    bytes.starts_with(&[0xFF, 0xFE]) || bytes.starts_with(&[0xFE, 0xFF])
}

/// What is said of a text in another encoding, which begins with these bytes.
fn said_of_encoding(bytes: &[u8]) -> Option<&'static str>
    ensures { IfSome result (λ text. 0 < length text.now) }
{
    if bytes.starts_with(&BYTE_ORDER_MARK) {
        Some("a byte order mark stands here; save the text without it")
    } else if is_utf16(bytes) {
        Some("this is a text in UTF-16; save it as UTF-8")
    } else {
        None
    }
}

/// Says why no token begins at the position.
fn say_no_token(alloc: Global, around: &Around<'_>, out: &mut Vec<u8>) -> Result<(), AllocError>
    ensures { OnOk result (IsSaid out.old.items out.new.items) }
{
    let bytes = around.bytes;
    let first = first_of(bytes);
    if first.is_ascii_digit() {
        let word = &bytes[..word_length(bytes).min(bytes.len())];
        let expected = expected_at(alloc, around)?;
        return say_digits(word, &expected, out);
    }
    if first == b'/' {
        return say_text("the comment that begins here is not closed", out);
    }
    if let Some(said) = said_of_encoding(bytes) {
        return say_text(said, out);
    }
    if first.is_ascii_graphic() {
        say_text("no token begins with ", out)?;
        return say_quoted(
            &[first],
            &[Word::Text(in_place_of(around.file, bytes))],
            out,
        );
    }
    if !first.is_ascii() {
        return say_foreign(around, first, out);
    }
    say(
        &[
            Word::Text("no token begins with a byte of value "),
            Word::Number(i64::from(first)),
        ],
        out,
    )
}

/// Says that the number of this many bytes at the head of these is too great.
fn say_great_number(bytes: &[u8], length: usize, out: &mut Vec<u8>) -> Result<(), AllocError>
    ensures { OnOk result (IsSaid out.old.items out.new.items) }
{
    if length > SHOWN_MAX {
        let words = [
            Word::Text("a number of "),
            counted(length),
            Word::Text(" characters"),
            Word::Text(TOO_GREAT),
        ];
        return say(&words, out);
    }
    let number = &bytes[..length.min(bytes.len())];
    say_quoted(number, &[Word::Text(TOO_GREAT)], out)
}

/// Says which limit the word or the number passes that these bytes begin with.
pub fn say_too_great(bytes: &[u8], out: &mut Vec<u8>) -> Result<(), AllocError>
    ensures { OnOk result (IsSaid out.old.items out.new.items) }
{
    let length = word_length(bytes);
    if first_of(bytes).is_ascii_digit() {
        return say_great_number(bytes, length, out);
    }
    say(
        &[
            Word::Text("the name has "),
            counted(length),
            Word::Text(" bytes; a name has at most 31"),
        ],
        out,
    )
}

/// Says what stands at the position.
fn say_found(around: &Around<'_>, out: &mut Vec<u8>) -> Result<(), AllocError>
    ensures { OnOk result (IsSaid out.old.items out.new.items) }
{
    match around.here() {
        Some(kind) => {
            say_text(", found ", out)?;
            say_token(kind, out)
        }
        None => say_text(", but the text ends here", out),
    }
}

/// The name in front of the `(` at the position, where a service call may be meant: it is not declared there.
fn misspelt_call(around: &Around<'_>) -> Option<Name> {
    let name = match (around.here()?, around.back(1)?) {
        (TokenKind::Symbol(Symbol::LeftParen), TokenKind::Name(name)) => name,
        _ => return None,
    };
    match around.back(2) {
        Some(TokenKind::Keyword(Keyword::Task | Keyword::Handler | Keyword::Var)) => None,
        _ => Some(name),
    }
}

/// The name that stands where a static API may begin, in front of `(`.
fn misspelt_api(around: &Around<'_>) -> Option<Name> {
    if !expected_api::may_be_api(&around.before.tokens) {
        return None;
    }
    let name = name_at(&around.rest.tokens, 0)?;
    match around.rest.tokens.kind(1)? {
        TokenKind::Symbol(Symbol::LeftParen) => Some(name),
        _ => None,
    }
}

/// Whether what stands before the position can't end an operand of an expression, and is part of one.
fn wants_operand(around: &Around<'_>) -> bool {
    match around.back(1) {
        Some(TokenKind::Symbol(symbol)) => !matches!(
            symbol,
            Symbol::RightParen
                | Symbol::RightBracket
                | Symbol::LeftBrace
                | Symbol::RightBrace
                | Symbol::Semicolon
        ),
        _ => false,
    }
}

/// What is said of a token of a task text that stands where no text has it, whatever else is expected there.
fn remark(around: &Around<'_>) -> Option<&'static str>
    ensures { IfSome result (λ text. 0 < length text.now) }
{
    match (around.here()?, around.back(1)) {
        (TokenKind::Keyword(Keyword::Break), _) => Some("`break` stands in no loop"),
        (TokenKind::Keyword(Keyword::Continue), _) => Some("`continue` stands in no loop"),
        (TokenKind::Keyword(Keyword::Var), Some(TokenKind::Symbol(_))) => {
            Some("variables are declared at the head of a body, before its statements")
        }
        (TokenKind::Service(_), _) if wants_operand(around) => {
            Some("a service call is a statement, and no part of an expression")
        }
        (TokenKind::Symbol(Symbol::Less), Some(TokenKind::Symbol(Symbol::Less)))
        | (TokenKind::Symbol(Symbol::Greater), Some(TokenKind::Symbol(Symbol::Greater))) => {
            Some(
                "there are no shifts; `x * 2` stands for `x << 1`, and `x / 2` for `x >> 1` if `x` is not negative",
            )
        }
        _ => None,
    }
}

/// Says what is remarked of a token, and how the answer of a service call is kept.
fn say_remark(
    text: &'static str,
    here: Option<TokenKind>,
    out: &mut Vec<u8>,
) -> Result<(), AllocError>
    requires { 0 < length text.now }
    ensures { OnOk result (IsSaid out.old.items out.new.items) }
{
    say_text(text, out)?;
    match here {
        Some(TokenKind::Service(service)) => {
            let keeps = Word::Text("(..);` keeps its answer");
            say(
                &[Word::Text("; `x = "), Word::Text(service.name()), keeps],
                out,
            )
        }
        _ => Ok(()),
    }
}

fn say_misspelt_api(alloc: Global, name: &Name, out: &mut Vec<u8>) -> Result<(), AllocError>
    ensures said { OnOk result (IsSaid out.old.items out.new.items) }
    ensures names { OnOk result (IsSaidFirst (quoted (name_text name.now)) out.old.items out.new.items) }
{
    let known = apis(alloc)?;
    say_unknown_of(
        alloc,
        name,
        &[Word::Text(" is not a static API")],
        &known,
        out,
    )
}

fn say_misspelt_call(alloc: Global, name: &Name, out: &mut Vec<u8>) -> Result<(), AllocError>
    ensures said { OnOk result (IsSaid out.old.items out.new.items) }
    ensures names { OnOk result (IsSaidFirst (quoted (name_text name.now)) out.old.items out.new.items) }
{
    let mut known = services(alloc)?;
    let words = keywords(alloc, TextFile::Source)?;
    known.extend_from_slice(&words)?;
    say_unknown_of(
        alloc,
        name,
        &[Word::Text(" is not a service call")],
        &known,
        out,
    )
}

/// The name that may stand for a keyword: the one at the position, or the one before it with which a statement begins.
fn misspelt_keyword(around: &Around<'_>) -> Option<Name> {
    match (name_at(&around.rest.tokens, 0), around.file) {
        (Some(name), _) => Some(name),
        (None, TextFile::Configuration) => None,
        (None, TextFile::Source) => expected_statement::head_name(&around.before.tokens),
    }
}

/// Asks whether a keyword was meant at the position, where a name is near to one.
fn say_keyword(alloc: Global, around: &Around<'_>, out: &mut Vec<u8>) -> Result<(), AllocError>
    ensures { OnOk result (MaySay out.old.items out.new.items) }
{
    match misspelt_keyword(around) {
        Some(name) => {
            let known = keywords(alloc, around.file)?;
            say_nearest(alloc, &name, &known, out)
        }
        None => Ok(()),
    }
}

/// The name before the position with which a statement begins that may not go on as it does.
fn word_before(around: &Around<'_>) -> Option<Name> {
    if around.file == TextFile::Configuration {
        return None;
    }
    match misspelt_call(around) {
        Some(name) => Some(name),
        None => expected_statement::head_name(&around.before.tokens),
    }
}

/// The name to which a fault at the position is due, if it is left out on purpose: the one there, or the one before.
fn left_out(around: &Around<'_>) -> Option<Name> {
    let name = match name_at(&around.rest.tokens, 0) {
        Some(name) if why_left_out(&name).is_some() => name,
        _ => word_before(around)?,
    };
    why_left_out(&name)?;
    Some(name)
}

/// Whether a fault at the position is due to the word before: one that is no service call, or is left out on purpose.
pub fn is_due_to_word_before(around: &Around<'_>) -> bool {
    let Some(name) = word_before(around) else {
        return false;
    };
    match around.here() {
        Some(TokenKind::Bad(_)) => false,
        Some(TokenKind::Name(here)) if why_left_out(&here).is_some() => false,
        _ => misspelt_call(around).is_some() || why_left_out(&name).is_some(),
    }
}

/// Whether what stands at the position is wrong whatever is expected there.
fn is_strange(around: &Around<'_>) -> bool {
    match (around.here(), around.file) {
        (Some(TokenKind::Bad(_)), _) => true,
        _ if left_out(around).is_some() => true,
        (_, TextFile::Configuration) => misspelt_api(around).is_some(),
        (_, TextFile::Source) => remark(around).is_some(),
    }
}

/// Whether a semicolon is among what may stand at the position.
pub fn wants_semicolon(alloc: Global, around: &Around<'_>) -> Result<bool, AllocError> {
    if is_strange(around) {
        return Ok(false);
    }
    let expected = expected_at(alloc, around)?;
    Ok(expected.windows(3).any(|word| word == b"`;`".as_slice()))
}

/// What may stand at the position.
fn expected_at(alloc: Global, around: &Around<'_>) -> Result<Vec<u8>, AllocError> {
    let tokens = &around.before.tokens;
    let mut expected = Vec::new(alloc);
    match around.file {
        TextFile::Configuration => expected_api::say_expected(tokens, &mut expected)?,
        TextFile::Source => expected_statement::say_expected(tokens, &mut expected)?,
    }
    Ok(expected)
}

/// Says what may stand at the position.
fn say_expected(expected: &[u8], out: &mut Vec<u8>) -> Result<(), AllocError>
    ensures { OnOk result (IsSaid out.old.items out.new.items) }
{
    say_text("expected ", out)?;
    out.extend_from_slice(expected)
}

/// Says what may stand at the position, and what does.
fn say_unexpected(alloc: Global, around: &Around<'_>, out: &mut Vec<u8>) -> Result<(), AllocError>
    ensures { OnOk result (IsSaid out.old.items out.new.items) }
{
    let expected = expected_at(alloc, around)?;
    say_expected(&expected, out)?;
    say_found(around, out)?;
    say_keyword(alloc, around, out)?;
    say_habit(around, &expected, out)
}

/// What a configuration has at the position, and what it may have there.
fn say_in_configuration(
    alloc: Global,
    around: &Around<'_>,
    out: &mut Vec<u8>,
) -> Result<(), AllocError>
    ensures { OnOk result (IsSaid out.old.items out.new.items) }
{
    match misspelt_api(around) {
        Some(name) => say_misspelt_api(alloc, &name, out),
        None => say_unexpected(alloc, around, out),
    }
}

/// What a task text has at the position, and what it may have there.
fn say_in_source(alloc: Global, around: &Around<'_>, out: &mut Vec<u8>) -> Result<(), AllocError>
    ensures { OnOk result (IsSaid out.old.items out.new.items) }
{
    if let Some(name) = misspelt_call(around) {
        return say_misspelt_call(alloc, &name, out);
    }
    match remark(around) {
        Some(text) => say_remark(text, around.here(), out),
        None => say_unexpected(alloc, around, out),
    }
}

/// Says that a name is left out on purpose.
fn say_word_left_out(name: &Name, out: &mut Vec<u8>) -> Result<(), AllocError>
    ensures said { OnOk result (IsSaid out.old.items out.new.items) }
    ensures names { OnOk result (IsSaidFirst (quoted (name_text name.now)) out.old.items out.new.items) }
{
    match why_left_out(name) {
        Some(why) => say_left_out(name, why, out),
        None => say_left_out(name, "there is no such word", out),
    }
}

/// What a text has at the position, and what it may have there.
fn say_in_text(alloc: Global, around: &Around<'_>, out: &mut Vec<u8>) -> Result<(), AllocError>
    ensures { OnOk result (IsSaid out.old.items out.new.items) }
{
    if let Some(said) = said_of_declaration(around) {
        return say_text(said, out);
    }
    if let Some(name) = left_out(around) {
        return say_word_left_out(&name, out);
    }
    match around.file {
        TextFile::Configuration => say_in_configuration(alloc, around, out),
        TextFile::Source => say_in_source(alloc, around, out),
    }
}

/// Says what stands at the position of a fault of syntax, and what may stand there.
pub fn say_syntax(alloc: Global, around: &Around<'_>, out: &mut Vec<u8>) -> Result<(), AllocError>
    ensures { OnOk result (IsSaid out.old.items out.new.items) }
{
    match (around.here(), around.file) {
        (Some(TokenKind::Bad(LexFault::Syntax)), _) => say_no_token(alloc, around, out),
        (Some(TokenKind::Bad(LexFault::Limit)), _) => say_too_great(around.bytes, out),
        _ => say_in_text(alloc, around, out),
    }
}
