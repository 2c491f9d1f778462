//! The answers to requests about the texts of a system.
ghost use Rattle.std.specs.Prelude.{◌≡◌, IfOk, Option};
ghost use Rattle.json.specs.Value.{value_view};
ghost use Rattle.fmp_server.specs.declared.messages.Refusal.TheVariants as reason;
ghost use Rattle.fmp_server.specs.declared.positions.Position.{Position};
ghost use Rattle.fmp_server.specs.declared.requests.Query.TheVariants as query;
ghost use Rattle.fmp_server.specs.Documents.{text_in};
ghost use Rattle.fmp_server.specs.Messages.{IsPositionOf};
ghost use Rattle.fmp_server.specs.Requests as spec;
ghost use Rattle.fmp_server.specs.Requests.{IsAnswerAt, IsAnswerFor, IsAnswerOn, IsRefused, IsAnswerWithoutPosition};

use crate::completion::completion;
use crate::documents::OpenTexts;
use crate::hover::hover;
use crate::messages::{Refusal, RequestId, null_answer, position_of, refused};
use crate::navigation::{WantedPositions, positions};
use crate::outline::outline;
use crate::parameters::{new_name_of, wanted_by};
use crate::positions::Position;
use crate::renaming::rename;
use json::Value;
use std::alloc::{AllocError, Global};

/// What is asked about a text.
#[derive(Clone, Copy)]
pub enum Query {
    Outline,
    Hover,
    Completion,
    Definition,
    References,
    Rename,
}

/// What a method asks about a text.
pub fn query_of(method: &str) -> Option<Query>
    ensures { result ≡ spec.query_of method.now }
{
    match method {
        "textDocument/documentSymbol" => Some(Query::Outline),
        "textDocument/hover" => Some(Query::Hover),
        "textDocument/completion" => Some(Query::Completion),
        "textDocument/definition" => Some(Query::Definition),
        "textDocument/references" => Some(Query::References),
        "textDocument/rename" => Some(Query::Rename),
        _ => None,
    }
}

/// The answer to a request for another name.
fn renamed(
    alloc: Global,
    open: OpenTexts<'_>,
    id: RequestId<'_>,
    message: &Value<'_>,
    position: Position,
) -> Result<Vec<u8>, AllocError>
    ensures { IfOk result (λ bytes.
        IsAnswerAt query.Rename «open».entry id.entry (value_view message.now) position bytes.items) }
{
    match new_name_of(message) {
        Some(name) => rename(alloc, open, id, position, name),
        None => refused_parameters(alloc, id),
    }
}

/// The answer to a request about a position.
fn answer_at(
    alloc: Global,
    open: OpenTexts<'_>,
    id: RequestId<'_>,
    query: Query,
    message: &Value<'_>,
    position: Position,
) -> Result<Vec<u8>, AllocError>
    ensures { IfOk result (λ bytes.
        IsAnswerAt query «open».entry id.entry (value_view message.now) position bytes.items) }
{
    match query {
        Query::Outline => outline(alloc, open, id),
        Query::Hover => hover(alloc, open, id, position),
        Query::Completion => completion(alloc, open, id, position),
        Query::Definition => positions(alloc, open, id, position, WantedPositions::Declarations),
        Query::References => positions(alloc, open, id, position, wanted_by(message)),
        Query::Rename => renamed(alloc, open, id, message, position),
    }
}

/// The answer to a request whose parameters are not those of its method.
pub fn refused_parameters(alloc: Global, id: RequestId<'_>) -> Result<Vec<u8>, AllocError>
    ensures { IfOk result (λ bytes. IsRefused id.entry reason.WrongParameters bytes.items) }
{
    refused(
        alloc,
        Some(id),
        Refusal::WrongParameters,
        "the parameters are not those of the method",
    )
}

/// The answer to a request that is about no position.
fn answer_without_position(
    alloc: Global,
    open: OpenTexts<'_>,
    id: RequestId<'_>,
    query: Query,
) -> Result<Vec<u8>, AllocError>
    ensures { IfOk result (λ bytes. IsAnswerWithoutPosition query id.entry bytes.items) }
{
    match query {
        Query::Outline => outline(alloc, open, id),
        _ => refused_parameters(alloc, id),
    }
}

/// The answer to a request about the texts of a system, of which the one that is meant is open.
fn answer_for(
    alloc: Global,
    open: OpenTexts<'_>,
    id: RequestId<'_>,
    query: Query,
    message: &Value<'_>,
) -> Result<Vec<u8>, AllocError>
    ensures { IfOk result (λ bytes. (p : Option Position) × IsPositionOf (value_view message.now) p
        × IsAnswerFor query «open».entry id.entry (value_view message.now) p bytes.items) }
{
    match position_of(message) {
        Some(position) => answer_at(alloc, open, id, query, message, position),
        None => answer_without_position(alloc, open, id, query),
    }
}

/// The answer to a request about the texts of a system. `AllocError` if memory runs out.
pub fn answer_on(
    alloc: Global,
    open: OpenTexts<'_>,
    id: RequestId<'_>,
    query: Query,
    message: &Value<'_>,
) -> Result<Vec<u8>, AllocError>
    ensures { IfOk result (λ bytes. IsAnswerOn query «open».entry id.entry (value_view message.now)
        (text_in «open».entry «open».entry.file)
        bytes.items) }
{
    match open.of(open.file) {
        Some(_) => answer_for(alloc, open, id, query, message),
        None => null_answer(alloc, id),
    }
}
