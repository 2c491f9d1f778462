//! What the server knows, and what it answers to messages.
ghost use Rattle.std.specs.Prelude.{◌≡◌, ◌≢◌, [], ◌∷◌, ◌++◌, List, ℕ, None, false, IfOk, OnOk, bytes_eq, codes};
ghost use Rattle.std.specs.Prelude.{map, option_map};
ghost use Rattle.json.specs.declared.error.Error.TheVariants as json_error;
ghost use Rattle.json.specs.Value.{value_view};
ghost use Rattle.fmp_server.specs.declared.messages.Message.{Message};
ghost use Rattle.fmp_server.specs.declared.messages.Refusal.TheVariants as reason;
ghost use Rattle.fmp_server.specs.declared.workspace.Stage.TheVariants as stage;
ghost use Rattle.fmp_server.specs.Documents.{IsOpened, file_of, without};
ghost use Rattle.fmp_server.specs.Messages as message;
ghost use Rattle.fmp_server.specs.Messages.{IsMessage, uri_in};
ghost use Rattle.fmp_server.specs.Requests.{IsRefused, query_of};
ghost use Rattle.fmp_server.specs.Workspaces as spec;
ghost use Rattle.fmp_server.specs.Workspaces.{AreTaken, IsAnswerAbout, IsDocumentTaken, IsEdited, IsFirstReply};
ghost use Rattle.fmp_server.specs.Workspaces.{IsNoticeTaken, IsNotified, IsQueryAnswer, IsRead, IsReply};
ghost use Rattle.fmp_server.specs.Workspaces.{IsRunningReply, IsStep, IsTaken, Notifies};

use crate::capabilities::initialized;
use crate::diagnostics::{Found, cleared, findings_of, published};
use crate::documents::{Documents, OpenTexts};
use crate::messages::{Message, Refusal, RequestId, message_of, null_answer, refused, uri_of};
use crate::parameters::text_by;
use crate::requests::{Query, answer_on, query_of, refused_parameters};
use fmp_lex::TextFile;
use json::{Error, Scratch, Value};
use std::alloc::{AllocError, Global};

/// How far the server has come.
#[derive(Clone, Copy)]
enum Stage {
    /// `initialize` has not come.
    Fresh,
    Running,
    /// `shutdown` has come.
    ShutDown,
    /// `exit` has come: the status of the program.
    Ended(u8),
}

/// What the server knows: the texts that are open, and how far it has come.
#[derive(Drop)]
pub struct Workspace {
    documents: Documents,
    stage: Stage,
}

/// The answer to a request before `initialize` has come.
fn first_reply(alloc: Global, id: RequestId<'_>, method: &str) -> Result<Vec<u8>, AllocError>
    ensures { IfOk result (λ bytes. IsFirstReply (bytes_eq method.now (codes "initialize")) id.entry bytes.items) }
{
    if method == "initialize" {
        initialized(alloc, id)
    } else {
        refused(
            alloc,
            Some(id),
            Refusal::NotInitialized,
            "`initialize` has not come",
        )
    }
}

/// The answer to a request after `shutdown`, or to a second `initialize`.
fn too_late(alloc: Global, id: RequestId<'_>) -> Result<Vec<u8>, AllocError>
    ensures { IfOk result (λ bytes. IsRefused id.entry reason.NoRequest bytes.items) }
{
    refused(
        alloc,
        Some(id),
        Refusal::NoRequest,
        "the request comes too late",
    )
}

/// Adds the refusal of what has no id to be answered by.
fn add_refusal(
    alloc: Global,
    refusal: Refusal,
    sentence: &str,
    out: &mut Vec<Vec<u8>>,
) -> Result<(), AllocError>
    ensures { OnOk result (map (λ b. b.items) out.new.items
        ≡ map (λ b. b.items) out.old.items ++ message.refused None refusal sentence.now ∷ []) }
{
    out.push(refused(alloc, None, refusal, sentence)?)?;
    Ok(())
}

/// Adds the refusal of bytes that are no JSON. `AllocError` if memory ran out while they were read, or runs out now.
fn refuse_text(alloc: Global, error: Error, out: &mut Vec<Vec<u8>>) -> Result<(), AllocError>
    ensures refusal { OnOk result (map (λ b. b.items) out.new.items
        ≡ map (λ b. b.items) out.old.items ++ message.refused None reason.NoJson (codes "no JSON") ∷ []) }
    ensures memory { OnOk result (error ≢ json_error.OutOfMemory) }
{
    match error {
        Error::OutOfMemory => Err(AllocError),
        _ => add_refusal(alloc, Refusal::NoJson, "no JSON", out),
    }
}

/// How far the server has come after a request.
fn stage_after(stage: Stage, method: &str) -> Stage
    ensures { result ≡ spec.stage_after stage method.now }
{
    match stage {
        Stage::Fresh if method == "initialize" => Stage::Running,
        Stage::Running if method == "shutdown" => Stage::ShutDown,
        _ => stage,
    }
}

/// The status of the program if `exit` comes now: 0 if `shutdown` has come, else 1.
fn exit_status(stage: Stage) -> u8
    ensures { result ≡ spec.exit_status stage }
{
    match stage {
        Stage::ShutDown => 0,
        _ => 1,
    }
}

/// Adds the notification of what is found in one text of a system, if it is open.
fn publish_one(
    alloc: Global,
    open: OpenTexts<'_>,
    file: TextFile,
    found: &Found,
    out: &mut Vec<Vec<u8>>,
) -> Result<(), AllocError>
    ensures { OnOk result (Notifies (map (λ b. b.items) out.old.items) (map (λ b. b.items) out.new.items)) }
{
    match open.of(file) {
        Some(document) => {
            out.push(published(alloc, document, file, found)?)?;
            Ok(())
        }
        None => Ok(()),
    }
}

impl Workspace {
    /// Nothing is open, and nothing has come.
    pub fn new(alloc: Global) -> Workspace
        ensures documents { result.documents.list.items ≡ [] }
        ensures stage { result.stage ≡ stage.Fresh }
    {
        Workspace {
            documents: Documents::new(alloc),
            stage: Stage::Fresh,
        }
    }

    /// The status of the program, once `exit` has come: 0 if `shutdown` came before it, else 1.
    pub fn status(&self) -> Option<u8>
        ensures { result ≡ spec.status_of self.now.stage }
    {
        match self.stage {
            Stage::Ended(status) => Some(status),
            _ => None,
        }
    }

    /// Adds the notifications of what is found in the texts of the system of a URI.
    fn publish(&self, alloc: Global, uri: &str, out: &mut Vec<Vec<u8>>) -> Result<(), AllocError>
        ensures { OnOk result (Notifies (map (λ b. b.items) out.old.items)
            (map (λ b. b.items) out.new.items)) }
    {
        let Some(open) = self.documents.texts_of(uri) else {
            return Ok(());
        };
        let found = findings_of(alloc, open)?;
        publish_one(alloc, open, TextFile::Configuration, &found, out)?;
        publish_one(alloc, open, TextFile::Source, &found, out)
    }

    /// Opens the document of a URI, or changes its text.
    fn open(
        &mut self,
        alloc: Global,
        uri: &str,
        text: &str,
        out: &mut Vec<Vec<u8>>,
    ) -> Result<(), AllocError>
        ensures answers { OnOk result (Notifies (map (λ b. b.items) out.old.items)
            (map (λ b. b.items) out.new.items)) }
        ensures documents { OnOk result
            (IsOpened uri.now text.now self.old.documents.list.items self.new.documents.list.items) }
        ensures stage { self.new.stage ≡ self.old.stage }
    {
        self.documents.open(alloc, uri, text)?;
        self.publish(alloc, uri, out)
    }

    /// Closes the document of a URI.
    fn close(&mut self, alloc: Global, uri: &str, out: &mut Vec<Vec<u8>>) -> Result<(), AllocError>
        ensures answers { OnOk result (Notifies (map (λ b. b.items) out.old.items)
            (map (λ b. b.items) out.new.items)) }
        ensures documents { OnOk result
            (self.new.documents.list.items ≡ without uri.now self.old.documents.list.items) }
        ensures stage { self.new.stage ≡ self.old.stage }
    {
        self.documents.close(uri);
        out.push(cleared(alloc, uri)?)?;
        self.publish(alloc, uri, out)
    }

    /// Gives a document the text that a notification of this method has.
    fn edit(
        &mut self,
        alloc: Global,
        text: Option<&str>,
        uri: &str,
        out: &mut Vec<Vec<u8>>,
    ) -> Result<(), AllocError>
        ensures answers { OnOk result (Notifies (map (λ b. b.items) out.old.items)
            (map (λ b. b.items) out.new.items)) }
        ensures documents { OnOk result (IsEdited false (option_map (λ s. s.now) text.entry) uri.now
            self.old.documents.list.items self.new.documents.list.items) }
        ensures stage { self.new.stage ≡ self.old.stage }
    {
        match text {
            Some(text) => self.open(alloc, uri, text, out),
            None => Ok(()),
        }
    }

    /// Takes a notification about a document.
    fn take_document(
        &mut self,
        alloc: Global,
        method: &str,
        message: &Value<'_>,
        out: &mut Vec<Vec<u8>>,
    ) -> Result<(), AllocError>
        ensures answers { OnOk result (Notifies (map (λ b. b.items) out.old.items)
            (map (λ b. b.items) out.new.items)) }
        ensures documents { OnOk result (IsDocumentTaken method.now (value_view message.now)
            (uri_in (value_view message.now)) self.old.documents.list.items self.new.documents.list.items) }
        ensures stage { self.new.stage ≡ self.old.stage }
    {
        let Some(uri) = uri_of(message) else {
            return Ok(());
        };
        if method == "textDocument/didClose" {
            self.close(alloc, uri, out)
        } else {
            self.edit(alloc, text_by(method, message), uri, out)
        }
    }

    /// Takes a notification other than `exit`.
    fn take_notice(
        &mut self,
        alloc: Global,
        method: &str,
        message: &Value<'_>,
        out: &mut Vec<Vec<u8>>,
    ) -> Result<(), AllocError>
        ensures answers { OnOk result (Notifies (map (λ b. b.items) out.old.items)
            (map (λ b. b.items) out.new.items)) }
        ensures documents { OnOk result (IsNoticeTaken self.old.stage method.now (value_view message.now)
            self.old.documents.list.items self.new.documents.list.items) }
        ensures stage { self.new.stage ≡ self.old.stage }
    {
        match self.stage {
            Stage::Running => self.take_document(alloc, method, message, out),
            _ => Ok(()),
        }
    }

    /// Takes a notification.
    fn take_notification(
        &mut self,
        alloc: Global,
        method: &str,
        message: &Value<'_>,
        out: &mut Vec<Vec<u8>>,
    ) -> Result<(), AllocError>
        ensures answers { OnOk result (Notifies (map (λ b. b.items) out.old.items)
            (map (λ b. b.items) out.new.items)) }
        ensures notified { OnOk result (IsNotified (bytes_eq method.now (codes "exit")) self.old.stage method.now
            (value_view message.now) self.old.documents.list.items self.new.documents.list.items self.new.stage) }
    {
        if method == "exit" {
            self.stage = Stage::Ended(exit_status(self.stage));
            Ok(())
        } else {
            self.take_notice(alloc, method, message, out)
        }
    }

    /// The answer to what is asked about the document of a URI.
    fn answer_about(
        &self,
        alloc: Global,
        id: RequestId<'_>,
        query: Query,
        uri: &str,
        message: &Value<'_>,
    ) -> Result<Vec<u8>, AllocError>
        ensures { IfOk result (λ bytes. IsAnswerAbout query self.now.documents.list.items id.entry
            (value_view message.now) uri.now (file_of uri.now) bytes.items) }
    {
        match self.documents.texts_of(uri) {
            Some(open) => answer_on(alloc, open, id, query, message),
            None => null_answer(alloc, id),
        }
    }

    /// The answer to a request about a document.
    fn answer(
        &self,
        alloc: Global,
        id: RequestId<'_>,
        method: &str,
        message: &Value<'_>,
    ) -> Result<Vec<u8>, AllocError>
        ensures { IfOk result (λ bytes. IsQueryAnswer self.now.documents.list.items id.entry (query_of method.now)
            (value_view message.now) (uri_in (value_view message.now)) bytes.items) }
    {
        match (query_of(method), uri_of(message)) {
            (None, _) => refused(alloc, Some(id), Refusal::UnknownMethod, "no such method"),
            (Some(_), None) => refused_parameters(alloc, id),
            (Some(query), Some(uri)) => self.answer_about(alloc, id, query, uri, message),
        }
    }

    /// The answer to a request between `initialize` and `shutdown`.
    fn running_reply(
        &self,
        alloc: Global,
        id: RequestId<'_>,
        method: &str,
        message: &Value<'_>,
    ) -> Result<Vec<u8>, AllocError>
        ensures { IfOk result (λ bytes. IsRunningReply (bytes_eq method.now (codes "shutdown"))
            (bytes_eq method.now (codes "initialize")) self.now.documents.list.items id.entry method.now
            (value_view message.now) bytes.items) }
    {
        if method == "shutdown" {
            null_answer(alloc, id)
        } else if method == "initialize" {
            too_late(alloc, id)
        } else {
            self.answer(alloc, id, method, message)
        }
    }

    /// The answer to a request.
    fn reply(
        &self,
        alloc: Global,
        id: RequestId<'_>,
        method: &str,
        message: &Value<'_>,
    ) -> Result<Vec<u8>, AllocError>
        ensures { IfOk result (λ bytes. IsReply self.now.stage self.now.documents.list.items id.entry method.now
            (value_view message.now) bytes.items) }
    {
        match self.stage {
            Stage::Fresh => first_reply(alloc, id, method),
            Stage::Running => self.running_reply(alloc, id, method, message),
            Stage::ShutDown | Stage::Ended(_) => too_late(alloc, id),
        }
    }

    /// Takes a request, and gives its answer.
    fn take_request(
        &mut self,
        alloc: Global,
        id: RequestId<'_>,
        method: &str,
        message: &Value<'_>,
    ) -> Result<Vec<u8>, AllocError>
        ensures reply { IfOk result (λ bytes. IsReply self.old.stage self.old.documents.list.items id.entry method.now
            (value_view message.now) bytes.items) }
        ensures stage { OnOk result (self.new.stage ≡ spec.stage_after self.old.stage method.now) }
        ensures documents { self.new.documents ≡ self.old.documents }
    {
        let reply = self.reply(alloc, id, method, message)?;
        self.stage = stage_after(self.stage, method);
        Ok(reply)
    }

    /// Takes a value as a message.
    fn take_value(
        &mut self,
        alloc: Global,
        value: &Value<'_>,
        out: &mut Vec<Vec<u8>>,
    ) -> Result<(), AllocError>
        ensures { OnOk result ((message : Message) × (answers : List (List ℕ))
            × IsMessage (value_view value.now) message
            × IsTaken message (value_view value.now) self.old self.new answers
            × (map (λ b. b.items) out.new.items ≡ map (λ b. b.items) out.old.items ++ answers)) }
    {
        match message_of(value) {
            Message::Request(id, method) => {
                let reply = self.take_request(alloc, id, method, value)?;
                out.push(reply)?;
                Ok(())
            }
            Message::Notification(method) => self.take_notification(alloc, method, value, out),
            Message::Answer => Ok(()),
            Message::Invalid => add_refusal(alloc, Refusal::NoRequest, "no message", out),
        }
    }

    /// Takes a message, and adds what answers it.
    fn read(
        &mut self,
        alloc: Global,
        message: &[u8],
        out: &mut Vec<Vec<u8>>,
    ) -> Result<(), AllocError>
        ensures { OnOk result ((answers : List (List ℕ)) × IsRead message.now self.old self.new answers
            × (map (λ b. b.items) out.new.items ≡ map (λ b. b.items) out.old.items ++ answers)) }
    {
        let mut scratch = Scratch::new(alloc);
        match Value::from_slice(alloc, message, &mut scratch) {
            Ok(value) => self.take_value(alloc, &value, out),
            Err(error) => refuse_text(alloc, error, out),
        }
    }

    /// Takes a message, and adds what answers it. After `exit` nothing does.
    fn take_message(
        &mut self,
        alloc: Global,
        message: &[u8],
        out: &mut Vec<Vec<u8>>,
    ) -> Result<(), AllocError>
        ensures { OnOk result ((answers : List (List ℕ))
            × IsStep message.now self.old.stage self.old self.new answers
            × (map (λ b. b.items) out.new.items ≡ map (λ b. b.items) out.old.items ++ answers)) }
    {
        match self.stage {
            Stage::Ended(_) => Ok(()),
            _ => self.read(alloc, message, out),
        }
    }

    /// Takes messages, and gives those that answer them, in order. `AllocError` if memory runs out.
    pub fn take(&mut self, alloc: Global, messages: &[Vec<u8>]) -> Result<Vec<Vec<u8>>, AllocError>
        ensures { IfOk result (λ out. AreTaken (map (λ m. m.items) messages.now) self.old self.new
            (map (λ b. b.items) out.items)) }
    {
        let mut out = Vec::new(alloc);
        for message in messages {
            self.take_message(alloc, message, &mut out)?;
        }
        Ok(out)
    }
}
