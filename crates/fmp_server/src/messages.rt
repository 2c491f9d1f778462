//! Messages of JSON-RPC: requests and notifications that come, answers and notifications that go.
ghost use Rattle.std.specs.Bool.{Decides};
ghost use Rattle.std.specs.Prelude.{◌≡◌, [], ◌∷◌, ◌++◌, codes, IfOk, MatchOption, OnOk, option_and_then};
ghost use Rattle.std.specs.Prelude.{◌⊎◌, option_map};
ghost use Rattle.json.specs.Find.{get};
ghost use Rattle.json.specs.Token.{key, null};
ghost use Rattle.json.specs.Value.{value_view};
ghost use Rattle.fmp_server.specs.Messages as spec;
ghost use Rattle.fmp_server.specs.Messages.{HasId, HasNoId, HasWrongId, IsMessage, IsPositionOf, SpellsNumber};
ghost use Rattle.fmp_server.specs.Messages.{answer_head, notification_head};

use crate::positions::Position;
use crate::writing::begin_member;
use fmp_json::text_member;
use json::{Value, Writer};
use std::alloc::{AllocError, Global};

/// By what an answer names its request.
#[derive(Clone, Copy)]
pub enum RequestId<'a> {
    Number(i64),
    Text(&'a str),
}

/// What a message is.
#[derive(Clone, Copy)]
pub enum Message<'a> {
    /// A request of this method.
    Request(RequestId<'a>, &'a str),
    /// A notification of this method.
    Notification(&'a str),
    /// An answer of the editor.
    Answer,
    /// None of them.
    Invalid,
}

/// Why a request is refused: the codes of the protocol.
#[derive(Clone, Copy)]
pub enum Refusal {
    /// The text is no JSON.
    NoJson,
    /// It is no message, or comes where it may not.
    NoRequest,
    UnknownMethod,
    WrongParameters,
    /// `initialize` has not come yet.
    NotInitialized,
    /// It cannot be done here.
    Failed,
}

impl Refusal {
    /// The code of the protocol.
    fn code(self) -> i64
        ensures { result ≡ spec.code self }
    {
        match self {
            Refusal::NoJson => -32_700,
            Refusal::NoRequest => -32_600,
            Refusal::UnknownMethod => -32_601,
            Refusal::WrongParameters => -32_602,
            Refusal::NotInitialized => -32_002,
            Refusal::Failed => -32_803,
        }
    }
}

/// The id of a message, if it is one of those that the protocol allows.
#[tactic(auto, using(crate::proofs::Ids::number_id, crate::proofs::Ids::no_id))]
fn id_of<'a>(message: &Value<'a>) -> Option<RequestId<'a>>
    ensures { MatchOption result (HasNoId (value_view message.now) ⊎ HasWrongId (value_view message.now))
        (HasId (value_view message.now)) }
{
    let id = message.get("id")?;
    match id.as_str() {
        Some(text) => Some(RequestId::Text(text)),
        None => match id.as_i64() {
            Some(number) => Some(RequestId::Number(number)),
            None => None,
        },
    }
}

/// The method of a message.
fn method_of<'a>(message: &Value<'a>) -> Option<&'a str>
    ensures { option_map (λ s. s.now) result ≡ spec.method_in (value_view message.now) }
{
    message.get("method")?.as_str()
}

/// Whether a message has an id, of whatever kind.
fn has_id(message: &Value<'_>) -> bool
    ensures { Decides result (spec.HasNoId (value_view message.now) → ⊥) }
{
    message.get("id").is_some()
}

/// Whether a message has a result or an error, as an answer has.
fn is_answer(message: &Value<'_>) -> bool
    ensures { Decides result (spec.IsAnswer (value_view message.now)) }
{
    message.get("result").is_some() || message.get("error").is_some()
}

/// What a value is as a message.
pub fn message_of<'a>(value: &Value<'a>) -> Message<'a>
    ensures { IsMessage (value_view value.now) result }
{
    match (id_of(value), method_of(value)) {
        (Some(id), Some(method)) => Message::Request(id, method),
        (None, Some(method)) if !has_id(value) => Message::Notification(method),
        _ if is_answer(value) => Message::Answer,
        _ => Message::Invalid,
    }
}

/// The URI of the document that a message is about.
pub fn uri_of<'a>(message: &Value<'a>) -> Option<&'a str>
    ensures { option_map (λ s. s.now) result ≡ spec.uri_in (value_view message.now) }
{
    message
        .get("params")?
        .get("textDocument")?
        .get("uri")?
        .as_str()
}

/// The number of a member of a value, if there is one.
fn number_in(value: Option<&Value<'_>>, name: &str) -> Option<u64>
    ensures { SpellsNumber (option_and_then (get name.now) (option_map (λ v. value_view v.now) value.entry)) result }
{
    match value {
        Some(value) => match value.get(name) {
            Some(number) => number.as_u64(),
            None => None,
        },
        None => None,
    }
}

/// What the parameters of a message have as their position.
fn position_value<'v, 'a>(message: &'v Value<'a>) -> Option<&'v Value<'a>>
    ensures { option_map (λ v. value_view v.now) result
        ≡ spec.in_params (codes "position") (value_view message.now) }
{
    message.get("params")?.get("position")
}

/// The position that a message is about.
pub fn position_of(message: &Value<'_>) -> Option<Position>
    ensures { IsPositionOf (value_view message.now) result }
{
    let position = position_value(message);
    match (
        number_in(position, "line"),
        number_in(position, "character"),
    ) {
        (Some(line), Some(character)) => Some(Position { line, character }),
        _ => None,
    }
}

/// Writes the id of a request; null if there is none.
fn write_id(writer: &mut Writer, id: Option<RequestId<'_>>) -> Result<(), AllocError>
    ensures before { writer.new.before ≡ writer.old.before }
    ensures tokens { OnOk result (writer.new.tokens
        ≡ writer.old.tokens ++ key (codes "id") ∷ spec.id_token id.entry ∷ []) }
{
    writer.key("id")?;
    match id {
        Some(RequestId::Number(number)) => writer.i64(number),
        Some(RequestId::Text(text)) => writer.string(text),
        None => writer.null(),
    }
}

/// Writes how each message begins.
fn write_head(writer: &mut Writer) -> Result<(), AllocError>
    ensures before { writer.new.before ≡ writer.old.before }
    ensures tokens { OnOk result (writer.new.tokens ≡ writer.old.tokens ++ spec.head) }
{
    writer.begin_object()?;
    text_member(writer, "jsonrpc", "2.0")
}

/// Writes how an answer to a request begins, whose result is to be written after it.
fn write_answer_head(writer: &mut Writer, id: RequestId<'_>) -> Result<(), AllocError>
    ensures before { writer.new.before ≡ writer.old.before }
    ensures tokens { OnOk result (writer.new.tokens ≡ writer.old.tokens ++ answer_head id.entry) }
{
    write_head(writer)?;
    write_id(writer, Some(id))?;
    writer.key("result")
}

/// Writes how a notification of this method begins, whose parameters are to be written after it.
fn write_notification_head(writer: &mut Writer, method: &str) -> Result<(), AllocError>
    ensures before { writer.new.before ≡ writer.old.before }
    ensures tokens { OnOk result (writer.new.tokens ≡ writer.old.tokens ++ notification_head method.now) }
{
    write_head(writer)?;
    text_member(writer, "method", method)?;
    writer.key("params")
}

/// Begins the answer to a request, whose result is to be written after it. `AllocError` if memory runs out, as of each
/// function below.
pub fn begin_answer(alloc: Global, id: RequestId<'_>) -> Result<Writer, AllocError>
    ensures before { IfOk result (λ writer. writer.before ≡ []) }
    ensures tokens { IfOk result (λ writer. writer.tokens ≡ answer_head id.entry) }
{
    let mut writer = Writer::new(Vec::new(alloc));
    write_answer_head(&mut writer, id)?;
    Ok(writer)
}

/// Begins a notification of this method, whose parameters are to be written after it.
pub fn begin_notification(alloc: Global, method: &str) -> Result<Writer, AllocError>
    ensures before { IfOk result (λ writer. writer.before ≡ []) }
    ensures tokens { IfOk result (λ writer. writer.tokens ≡ notification_head method.now) }
{
    let mut writer = Writer::new(Vec::new(alloc));
    write_notification_head(&mut writer, method)?;
    Ok(writer)
}

/// Ends a message.
pub fn finish(mut writer: Writer) -> Result<Vec<u8>, AllocError>
    ensures { IfOk result (λ bytes. bytes.items ≡ writer.before ++ spec.ended writer.tokens) }
{
    writer.end_object()?;
    Ok(writer.into_inner())
}

/// The answer with nothing as its result.
pub fn null_answer(alloc: Global, id: RequestId<'_>) -> Result<Vec<u8>, AllocError>
    ensures { IfOk result (λ bytes. bytes.items ≡ spec.answer id.entry (null ∷ [])) }
{
    let mut writer = begin_answer(alloc, id)?;
    writer.null()?;
    finish(writer)
}

/// Writes why a request is refused.
fn write_refusal(
    writer: &mut Writer,
    id: Option<RequestId<'_>>,
    refusal: Refusal,
    sentence: &str,
) -> Result<(), AllocError>
    ensures before { writer.new.before ≡ writer.old.before }
    ensures tokens { OnOk result (writer.new.tokens ≡ writer.old.tokens ++ spec.head
        ++ key (codes "id") ∷ spec.id_token id.entry ∷ [] ++ spec.error refusal sentence.now) }
{
    write_head(writer)?;
    write_id(writer, id)?;
    begin_member(writer, "error")?;
    writer.key("code")?;
    writer.i64(refusal.code())?;
    text_member(writer, "message", sentence)?;
    writer.end_object()
}

/// The answer that refuses a request, with a sentence.
pub fn refused(
    alloc: Global,
    id: Option<RequestId<'_>>,
    refusal: Refusal,
    sentence: &str,
) -> Result<Vec<u8>, AllocError>
    ensures { IfOk result (λ bytes. bytes.items ≡ spec.refused id.entry refusal sentence.now) }
{
    let mut writer = Writer::new(Vec::new(alloc));
    write_refusal(&mut writer, id, refusal, sentence)?;
    finish(writer)
}
