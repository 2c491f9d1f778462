//! From a configuration of C to one of this project.
ghost use Rattle.std.specs.Prelude.{◌≡◌, ◌≢◌, map, true, false, IfErr, IfOk, OnOk};
ghost use Rattle.fmp_import.specs.Imports.{IsConfiguration, IsImported};
ghost use Rattle.fmp_import.specs.Imports as spec;
ghost use Rattle.fmp_import.specs.Written.{block_view, plan_text};

use crate::constants::Constants;
use crate::defining::{LexedSource, take_constants};
use crate::directives::{enabled_lexemes, included_name};
use crate::lexemes::{LexemeKind, lexemes};
use crate::plan::{Block, TextSpan};
use crate::text::bytes_of;
use crate::walking::ConfigurationWalk;
use crate::writing::append_plan;
use fmp_cfgparse::read_cfg;
use fmp_lex::BuildFault;
use std::alloc::{AllocError, Global};
use thiserror::Error;

/// A file that a configuration includes.
#[derive(Drop)]
pub struct Header {
    /// Its name, as it stands in the configuration.
    pub name: Vec<u8>,
    /// What it has.
    pub text: Vec<u8>,
}

/// A configuration that became one of this project.
#[derive(Drop)]
pub struct Imported {
    /// The configuration of this project: a static API a line, in classes.
    pub configuration: Vec<u8>,
    /// What was left out or changed, and why: a line for each, in order of the source.
    pub notes: Vec<u8>,
}

/// Why a configuration was not imported.
#[derive(Drop, Debug, PartialEq, Eq, Error)]
pub enum ImportFault {
    /// What would be written is no configuration of this project. Of the fault the line is that of what would be
    /// written.
    #[error("what would be written has a fault: {0}")]
    Refused(BuildFault),
    /// The text is an image.
    #[error("this is an image")]
    Image,
    /// Memory ran out.
    #[error("memory")]
    Memory,
}

impl From<AllocError> for ImportFault {
    ghost use Rattle.std.specs.Prelude.{◌≡◌};
    ghost use Rattle.fmp_import.specs.declared.importing.ImportFault.TheVariants.{Memory};

    ghost from_gives = { λ _ e. e ≡ Memory };

    fn from(_error: AllocError) -> Self {
        ImportFault::Memory
    }
}

/// The bytes with which an image begins.
const MAGIC: TextSpan = TextSpan { start: 0, end: 4 };

/// Whether a text is an image.
fn is_image(text: &[u8]) -> bool
    ensures { result ≡ spec.is_image text.now }
{
    bytes_of(text, MAGIC) == b"FMPI".as_slice()
}

/// The names of the files that a configuration includes, in quotes, in order.
pub fn included(alloc: Global, text: &[u8]) -> Result<Vec<String>, AllocError> {
    let mut names = Vec::new(alloc);
    for lexeme in &lexemes(alloc, text)? {
        if lexeme.kind == LexemeKind::Directive
            && let Some(name) = included_name(bytes_of(text, lexeme.span))
        {
            names.push(String::from_utf8_lossy(alloc, name)?)?;
        }
    }
    Ok(names)
}

/// How many processors the classes of some objects have, at least 1.
fn processors_of(blocks: &[Block]) -> u8 {
    let mut most = 1;
    for block in blocks {
        most = most.max(block.class.processor);
    }
    most
}

/// The text of some objects.
fn planned(
    alloc: Global,
    source: &[u8],
    processors: usize,
    blocks: &[Block],
) -> Result<Vec<u8>, AllocError>
    ensures { IfOk result (λ out. out.items
        ≡ plan_text source.now processors (map block_view blocks.now)) }
{
    let mut out = Vec::new(alloc);
    append_plan(source, processors, blocks, &mut out)?;
    Ok(out)
}

/// Tests that a text is a configuration of this project.
fn is_read(alloc: Global, text: &[u8]) -> Result<(), ImportFault>
    ensures read { OnOk result (IsConfiguration text.now) }
    ensures fault { IfErr result (λ fault. fault ≢ ImportFault.Image) }
{
    match read_cfg(alloc, text) {
        Ok(_) => Ok(()),
        Err(BuildFault::Memory) => Err(ImportFault::Memory),
        Err(fault) => Err(ImportFault::Refused(fault)),
    }
}

/// The objects of a text, and what was left out or changed.
#[derive(Drop)]
struct Draft {
    blocks: Vec<Block>,
    notes: Vec<u8>,
}

/// Goes over a text.
fn drafted(
    alloc: Global,
    text: &[u8],
    headers: &[Header],
    mut constants: Constants,
) -> Result<Draft, AllocError> {
    let found = enabled_lexemes(alloc, text)?;
    let source = LexedSource {
        text,
        lexemes: &found,
        headers,
    };
    let given = constants.count();
    take_constants(alloc, source, &[], &mut constants)?;
    let mut walk = ConfigurationWalk::new(alloc, source, constants, given);
    walk.go()?;
    if walk.has_taken()? {
        walk.go_again()?;
    }
    Ok(Draft {
        blocks: walk.placed.blocks,
        notes: walk.notes,
    })
}

/// Writes the configuration of this project that a text of TOPPERS or uITRON becomes. `headers` are the files that it
/// includes, as far as they are there, and `constants` those that are known beforehand; they count before those of the
/// text.
///
/// What is written is a configuration of this project, with the names of the source. Static APIs that this project has
/// not are left out, and so are objects with a value out of its range, a constant that is unknown, a class that is
/// unknown, or a name that is used before. An image is not read.
pub fn import(
    alloc: Global,
    text: &[u8],
    headers: &[Header],
    constants: Constants,
) -> Result<Imported, ImportFault>
    ensures imported { IsImported text.now result }
    ensures text { IfOk result (λ _. spec.is_image text.now ≡ false) }
    ensures image { IfErr result (λ fault. fault ≡ ImportFault.Image → spec.is_image text.now ≡ true) }
{
    if is_image(text) {
        return Err(ImportFault::Image);
    }
    let Draft { blocks, notes } = drafted(alloc, text, headers, constants)?;
    let processors = usize::from(processors_of(&blocks));
    let configuration = planned(alloc, text, processors, &blocks)?;
    is_read(alloc, &configuration)?;
    Ok(Imported {
        configuration,
        notes,
    })
}
