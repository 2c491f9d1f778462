//! What the server says that it can do.
ghost use Rattle.std.specs.Prelude.{◌≡◌, IfOk, OnOk};
ghost use Rattle.fmp_server.specs.Messages.{Adds, IsAnswered};

use crate::messages::{RequestId, begin_answer, finish};
use crate::writing::begin_member;
use fmp_json::{number_member, text_member};
use json::Writer;
use std::alloc::{AllocError, Global};

/// What the server provides, beside completion.
static PROVIDERS: [&str; 5] = [
    "hoverProvider",
    "definitionProvider",
    "referencesProvider",
    "renameProvider",
    "documentSymbolProvider",
];

/// Writes how texts come: whole, when they are opened and at each change.
#[tactic(auto, using(crate::proofs::Adding::adding))]
fn write_synchronization(writer: &mut Writer) -> Result<(), AllocError>
    ensures before { writer.new.before ≡ writer.old.before }
    ensures tokens { OnOk result (Adds writer.old.tokens writer.new.tokens) }
{
    begin_member(writer, "textDocumentSync")?;
    writer.key("openClose")?;
    writer.boolean(true)?;
    number_member(writer, "change", 1)?;
    writer.end_object()
}

/// Writes what the server provides.
#[tactic(auto, using(crate::proofs::Adding::adding))]
fn write_providers(writer: &mut Writer) -> Result<(), AllocError>
    ensures before { writer.new.before ≡ writer.old.before }
    ensures tokens { OnOk result (Adds writer.old.tokens writer.new.tokens) }
{
    begin_member(writer, "completionProvider")?;
    writer.end_object()?;
    for name in &PROVIDERS {
        writer.key(*name)?;
        writer.boolean(true)?;
    }
    Ok(())
}

/// Writes what the server can do.
#[tactic(auto, using(crate::proofs::Adding::adding))]
fn write_capabilities(writer: &mut Writer) -> Result<(), AllocError>
    ensures before { writer.new.before ≡ writer.old.before }
    ensures tokens { OnOk result (Adds writer.old.tokens writer.new.tokens) }
{
    begin_member(writer, "capabilities")?;
    write_synchronization(writer)?;
    write_providers(writer)?;
    writer.end_object()
}

/// Writes what the server can do, and what it is called.
#[tactic(auto, using(crate::proofs::Adding::adding))]
fn write_server(writer: &mut Writer) -> Result<(), AllocError>
    ensures before { writer.new.before ≡ writer.old.before }
    ensures tokens { OnOk result (Adds writer.old.tokens writer.new.tokens) }
{
    writer.begin_object()?;
    write_capabilities(writer)?;
    begin_member(writer, "serverInfo")?;
    text_member(writer, "name", "fmp_view lsp")?;
    writer.end_object()?;
    writer.end_object()
}

/// The answer to `initialize`. `AllocError` if memory runs out.
pub fn initialized(alloc: Global, id: RequestId<'_>) -> Result<Vec<u8>, AllocError>
    ensures { IfOk result (λ bytes. IsAnswered id.entry bytes.items) }
{
    let mut writer = begin_answer(alloc, id)?;
    write_server(&mut writer)?;
    finish(writer)
}
