//! What the parameters of a message have.
ghost use Rattle.std.specs.Prelude.{◌≡◌, codes, option_and_then, option_map};
ghost use Rattle.json.specs.Find.{as_array, get};
ghost use Rattle.json.specs.Value.{items_view, value_view};
ghost use Rattle.fmp_server.specs.Messages.{in_params};
ghost use Rattle.fmp_server.specs.Requests as spec;

use crate::navigation::WantedPositions;
use json::Value;

/// The text of the document that a message opens.
fn opened_text<'a>(message: &Value<'a>) -> Option<&'a str>
    ensures { option_map (λ s. s.now) result ≡ spec.opened_text (value_view message.now) }
{
    message
        .get("params")?
        .get("textDocument")?
        .get("text")?
        .as_str()
}

/// The last of these items.
fn last_of<'v, 'a>(items: &'v [Value<'a>]) -> Option<&'v Value<'a>>
    ensures { option_map (λ v. value_view v.now) result ≡ spec.last_item (items_view items.now) }
{
    items.last()
}

/// The last item of an array.
fn last_item<'v, 'a>(value: &'v Value<'a>) -> Option<&'v Value<'a>>
    ensures { option_map (λ v. value_view v.now) result
        ≡ option_and_then spec.last_item (as_array (value_view value.now)) }
{
    let Value::Array(items) = value else {
        return None;
    };
    last_of(items)
}

/// The text of a change, if it is whole: it has no range.
fn whole_text<'a>(change: &Value<'a>) -> Option<&'a str>
    ensures { option_map (λ s. s.now) result ≡ spec.text_unless (get (codes "range") (value_view change.now))
        (value_view change.now) }
{
    match change.get("range") {
        Some(_) => None,
        None => change.get("text")?.as_str(),
    }
}

/// The text that a message changes a document to: that of its last change, if it is whole.
fn changed_text<'a>(message: &Value<'a>) -> Option<&'a str>
    ensures { option_map (λ s. s.now) result ≡ spec.changed_text (value_view message.now) }
{
    whole_text(last_item(message.get("params")?.get("contentChanges")?)?)
}

/// The text that a notification of this method gives a document.
pub fn text_by<'a>(method: &str, message: &Value<'a>) -> Option<&'a str>
    ensures { option_map (λ s. s.now) result ≡ spec.text_by method.now (value_view message.now) }
{
    match method {
        "textDocument/didOpen" => opened_text(message),
        "textDocument/didChange" => changed_text(message),
        _ => None,
    }
}

/// The new name that a message asks for.
pub fn new_name_of<'a>(message: &Value<'a>) -> Option<&'a str>
    ensures { option_map (λ s. s.now) result ≡ spec.new_name_in (value_view message.now) }
{
    message.get("params")?.get("newName")?.as_str()
}

/// What a message says of whether it asks for declarations.
fn declarations_in<'v, 'a>(message: &'v Value<'a>) -> Option<&'v Value<'a>>
    ensures { option_map (λ v. value_view v.now) result
        ≡ option_and_then (get (codes "includeDeclaration")) (in_params (codes "context") (value_view message.now)) }
{
    message
        .get("params")?
        .get("context")?
        .get("includeDeclaration")
}

/// Whether a value is there, and is `true`.
fn is_true(value: Option<&Value<'_>>) -> bool
    ensures { result ≡ spec.is_true (option_map (λ v. value_view v.now) value.entry) }
{
    match value {
        Some(Value::Bool(value)) => *value,
        _ => false,
    }
}

/// Which positions a message asks for: those of declarations too, if it says so.
pub fn wanted_by(message: &Value<'_>) -> WantedPositions
    ensures { result ≡ spec.wanted_in (value_view message.now) }
{
    if is_true(declarations_in(message)) {
        WantedPositions::All
    } else {
        WantedPositions::Uses
    }
}
