//! The words that may stand at a position.
ghost use Rattle.std.specs.Prelude.{◌≡◌, ◌++◌, List, IfOk, OnOk};
ghost use Rattle.json.specs.Token as json;
ghost use Rattle.fmp_server.specs.Messages.{Adds, HasWords, word_list};
ghost use Rattle.fmp_server.specs.Roles.{AreInOrder};

use crate::documents::OpenTexts;
use crate::messages::{RequestId, begin_answer, finish};
use crate::outline::letters;
use crate::positions::{Position, offset_at};
use crate::roles::begun_at;
use crate::sayings::{append_all, append_call};
use fmp_base::{Name, SERVICES};
use fmp_diagnosis::apis::{api_at, object_name};
use fmp_diagnosis::around::{begins_body_at, list_of, name_at};
use fmp_diagnosis::fields::{Field, fields_of, object_of};
use fmp_json::{append, append_signed, begin_list, number_member, text_member};
use fmp_lex::words::{APIS, CONSTANTS, KEYWORDS};
use fmp_lex::{Api, Keyword, TextFile, TokenKind, Tokens};
use json::Writer;
use std::alloc::{AllocError, Global};

/// The kinds of words, as the protocol has them.
const FUNCTION: u64 = 3;

const VARIABLE: u64 = 6;

const VALUE: u64 = 12;

const KEYWORD: u64 = 14;

const CONSTANT: u64 = 21;

/// Writes a word, of this kind, and what is said of it.
#[tactic(auto, using(crate::proofs::Adding::adding))]
fn write_item(writer: &mut Writer, word: &str, kind: u64, detail: &str) -> Result<(), AllocError>
    ensures before { writer.new.before ≡ writer.old.before }
    ensures tokens { OnOk result (Adds writer.old.tokens writer.new.tokens) }
{
    writer.begin_object()?;
    text_member(writer, "label", word)?;
    number_member(writer, "kind", kind)?;
    text_member(writer, "detail", detail)?;
    writer.end_object()
}

/// Writes the service calls with their arguments.
#[tactic(auto, using(crate::proofs::Adding::adding))]
fn write_calls(alloc: Global, writer: &mut Writer) -> Result<(), AllocError>
    ensures before { writer.new.before ≡ writer.old.before }
    ensures tokens { OnOk result (Adds writer.old.tokens writer.new.tokens) }
{
    for service in &SERVICES {
        let mut call = Vec::new(alloc);
        append_call(*service, &mut call)?;
        let call = String::from_utf8_lossy(alloc, &call)?;
        write_item(writer, service.name(), FUNCTION, call.as_str())?;
    }
    Ok(())
}

/// What stands before the field at a place of a static API: the second begins the packet.
fn before_field(place: usize) -> &'static str {
    match place {
        0 => "",
        1 => ", { ",
        _ => ", ",
    }
}

/// How a field is called.
fn word_of_field(field: Field) -> &'static str {
    match field {
        Field::Null => "NULL",
        _ => field.called(),
    }
}

/// Appends a static API and its fields: the first, and those of the packet.
fn append_fields(api: Api, out: &mut Vec<u8>) -> Result<(), AllocError> {
    append_all(&[api.name(), "("], out)?;
    for (place, field) in fields_of(api).iter().enumerate() {
        append_all(&[before_field(place), word_of_field(*field)], out)?;
    }
    append(b" })", out)
}

/// Writes the static APIs with their fields.
#[tactic(auto, using(crate::proofs::Adding::adding))]
fn write_apis(alloc: Global, writer: &mut Writer) -> Result<(), AllocError>
    ensures before { writer.new.before ≡ writer.old.before }
    ensures tokens { OnOk result (Adds writer.old.tokens writer.new.tokens) }
{
    for api in &APIS {
        let mut fields = Vec::new(alloc);
        append_fields(*api, &mut fields)?;
        let fields = String::from_utf8_lossy(alloc, &fields)?;
        write_item(writer, api.name(), FUNCTION, fields.as_str())?;
    }
    Ok(())
}

/// Writes the constants with their numbers.
#[tactic(auto, using(crate::proofs::Adding::adding))]
fn write_constants(alloc: Global, writer: &mut Writer) -> Result<(), AllocError>
    ensures before { writer.new.before ≡ writer.old.before }
    ensures tokens { OnOk result (Adds writer.old.tokens writer.new.tokens) }
{
    for constant in &CONSTANTS {
        let mut number = Vec::new(alloc);
        append_signed(i64::from(constant.value()), &mut number)?;
        let number = String::from_utf8_lossy(alloc, &number)?;
        write_item(writer, constant.name(), CONSTANT, number.as_str())?;
    }
    Ok(())
}

/// The text in which a keyword stands.
fn text_of(keyword: Keyword) -> TextFile {
    match keyword {
        Keyword::NumPrc | Keyword::Class | Keyword::Null => TextFile::Configuration,
        _ => TextFile::Source,
    }
}

/// Writes the keywords of a text.
#[tactic(auto, using(crate::proofs::Adding::adding))]
fn write_keywords(writer: &mut Writer, file: TextFile) -> Result<(), AllocError>
    ensures before { writer.new.before ≡ writer.old.before }
    ensures tokens { OnOk result (Adds writer.old.tokens writer.new.tokens) }
{
    for keyword in &KEYWORDS {
        if text_of(*keyword) == file {
            write_item(writer, keyword.name(), KEYWORD, "")?;
        }
    }
    Ok(())
}

/// Writes the objects of a configuration.
#[tactic(auto, using(crate::proofs::Adding::adding))]
fn write_objects(writer: &mut Writer, tokens: &Tokens<'_>) -> Result<(), AllocError>
    ensures before { writer.new.before ≡ writer.old.before }
    ensures tokens { OnOk result (Adds writer.old.tokens writer.new.tokens) }
{
    for at in 0..tokens.len() {
        if let (Some(api), Some(name)) = (api_at(tokens, at), object_name(tokens, at)) {
            write_item(writer, letters(&name), VALUE, object_of(api))?;
        }
    }
    Ok(())
}

/// Writes the bodies of a task text.
#[tactic(auto, using(crate::proofs::Adding::adding))]
fn write_bodies(writer: &mut Writer, tokens: &Tokens<'_>) -> Result<(), AllocError>
    ensures before { writer.new.before ≡ writer.old.before }
    ensures tokens { OnOk result (Adds writer.old.tokens writer.new.tokens) }
{
    for at in 0..tokens.len() {
        if begins_body_at(tokens, at) {
            if let Some(name) = name_at(tokens, at.saturating_add(1)) {
                write_item(writer, letters(&name), FUNCTION, "a body")?;
            }
        }
    }
    Ok(())
}

/// The variables that the last body before a place of the tokens declares before it.
fn variables_before(
    alloc: Global,
    tokens: &Tokens<'_>,
    end: usize,
) -> Result<Vec<Name>, AllocError> {
    let mut variables = Vec::new(alloc);
    for at in 0..end {
        if begins_body_at(tokens, at) {
            variables.clear();
        }
        if tokens.kind(at) == Some(TokenKind::Keyword(Keyword::Var)) {
            if let Some(name) = name_at(tokens, at.saturating_add(1)) {
                variables.push(name)?;
            }
        }
    }
    Ok(variables)
}

/// Writes the variables that are known at a byte of a task text.
#[tactic(auto, using(crate::proofs::Adding::adding))]
fn write_variables(
    alloc: Global,
    writer: &mut Writer,
    tokens: &Tokens<'_>,
    offset: usize,
) -> Result<(), AllocError>
    requires { AreInOrder tokens.now }
    ensures before { writer.new.before ≡ writer.old.before }
    ensures tokens { OnOk result (Adds writer.old.tokens writer.new.tokens) }
{
    write_item(writer, "exinf", VARIABLE, "the extended information")?;
    let variables = variables_before(alloc, tokens, begun_at(tokens, offset))?;
    for name in &variables {
        write_item(writer, letters(name), VARIABLE, "a variable")?;
    }
    Ok(())
}

/// Writes the words of a configuration.
#[tactic(auto, using(crate::proofs::Adding::adding))]
fn write_of_configuration(
    alloc: Global,
    writer: &mut Writer,
    open: OpenTexts<'_>,
) -> Result<(), AllocError>
    ensures before { writer.new.before ≡ writer.old.before }
    ensures tokens { OnOk result (Adds writer.old.tokens writer.new.tokens) }
{
    write_apis(alloc, writer)?;
    write_constants(alloc, writer)?;
    write_keywords(writer, TextFile::Configuration)?;
    let src = list_of(alloc, open.bytes_of(TextFile::Source))?;
    write_bodies(writer, &src.tokens)
}

/// Writes the words of a task text at a position.
#[tactic(auto, using(crate::proofs::Adding::adding))]
fn write_of_source(
    alloc: Global,
    writer: &mut Writer,
    open: OpenTexts<'_>,
    position: Position,
) -> Result<(), AllocError>
    ensures before { writer.new.before ≡ writer.old.before }
    ensures tokens { OnOk result (Adds writer.old.tokens writer.new.tokens) }
{
    write_calls(alloc, writer)?;
    write_constants(alloc, writer)?;
    write_keywords(writer, TextFile::Source)?;
    let cfg = list_of(alloc, open.bytes_of(TextFile::Configuration))?;
    write_objects(writer, &cfg.tokens)?;
    let text = open.bytes_of(TextFile::Source);
    let src = list_of(alloc, text)?;
    write_variables(alloc, writer, &src.tokens, offset_at(text, position))
}

/// Writes the words that the text that is meant may have at a position.
#[tactic(auto, using(crate::proofs::Adding::adding))]
fn write_words(
    alloc: Global,
    writer: &mut Writer,
    open: OpenTexts<'_>,
    position: Position,
) -> Result<(), AllocError>
    ensures before { writer.new.before ≡ writer.old.before }
    ensures tokens { OnOk result (Adds writer.old.tokens writer.new.tokens) }
{
    match open.file {
        TextFile::Configuration => write_of_configuration(alloc, writer, open),
        TextFile::Source => write_of_source(alloc, writer, open, position),
    }
}

/// Writes these words as a list that is whole.
fn write_list(
    alloc: Global,
    writer: &mut Writer,
    open: OpenTexts<'_>,
    position: Position,
) -> Result<(), AllocError>
    ensures before { writer.new.before ≡ writer.old.before }
    ensures tokens { OnOk result ((words : List json.Token)
        × (writer.new.tokens ≡ writer.old.tokens ++ word_list words)) }
{
    writer.begin_object()?;
    writer.key("isIncomplete")?;
    writer.boolean(false)?;
    begin_list(writer, "items")?;
    write_words(alloc, writer, open, position)?;
    writer.end_array()?;
    writer.end_object()
}

/// The answer with the words that the text that is meant may have at a position: those of the language, calls and
/// static APIs with their arguments, and the names of the texts. `AllocError` if memory runs out.
pub fn completion(
    alloc: Global,
    open: OpenTexts<'_>,
    id: RequestId<'_>,
    position: Position,
) -> Result<Vec<u8>, AllocError>
    ensures { IfOk result (λ bytes. HasWords id.entry bytes.items) }
{
    let mut writer = begin_answer(alloc, id)?;
    write_list(alloc, &mut writer, open, position)?;
    finish(writer)
}
