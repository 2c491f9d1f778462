//! The bodies that the static APIs name as entries.

ghost use Rattle.std.specs.Prelude.{◌≡◌, ℕ, List, min};
ghost use Rattle.fmp_tasklang.specs.Trees.{BodyTree};
ghost use Rattle.fmp_tasklang.specs.Views.{program_view};
ghost use Rattle.fmp_scopes.specs.Entries as spec;
ghost use Rattle.fmp_scopes.specs.Entries.{IsChecked};
ghost use Rattle.fmp_scopes.specs.Headings.{AreHeadings};

use crate::headings::{Heading, heading_of};
use crate::lists::append;
use crate::names::place_in;
use fmp_base::Name;
use fmp_lex::{BuildFault, FaultKind, TextFile, Tokens, offence_at};
use fmp_tasklang::{BodyKind, Program};
use std::alloc::Global;

/// The entry of a static API: CRE_TSK, CRE_CYC or DEF_INH.
#[derive(Clone, Copy)]
pub struct EntryUse {
    /// The place of the word of the API in the list of tokens of the configuration.
    pub at: usize,
    /// The body that it names.
    pub name: Name,
    /// The kind of body that it requires.
    pub kind: BodyKind,
    /// The size of the stack in bytes, where it is that of a task.
    pub stack: Option<u32>,
}

fn is_kind(kind: BodyKind, wanted: BodyKind) -> bool
    ensures { result ≡ spec.is_kind kind wanted }
{
    match (kind, wanted) {
        (BodyKind::Task, BodyKind::Task) => true,
        (BodyKind::Handler, BodyKind::Handler) => true,
        _ => false,
    }
}

/// Whether a stack has four bytes for each operand; the operands are counted up to 2^30.
#[tactic(auto, using(crate::proofs::Entering::holds_some))]
fn holds(stack: Option<u32>, depth: u32) -> bool
    ensures { (needed : ℕ) → depth ≡ min needed 1073741824 → result ≡ spec.holds stack needed }
{
    match stack {
        None => true,
        Some(bytes) => 4 * u64::from(depth) <= u64::from(bytes),
    }
}

/// The fault of an entry, if it has one.
fn entry_fault(headings: &[Heading], entry: &EntryUse) -> Option<FaultKind>
    ensures { (bodies : List BodyTree) → AreHeadings headings.now bodies →
        result ≡ spec.entry_fault bodies entry.now (spec.body_place bodies entry.now.name) }
{
    match place_in(headings, &entry.name) {
        None => Some(FaultKind::UnknownName),
        Some(place) => {
            if !is_kind(headings[place].kind, entry.kind) {
                return Some(FaultKind::WrongEntryKind);
            }
            if !holds(entry.stack, headings[place].depth) {
                return Some(FaultKind::StackTooSmall);
            }
            None
        }
    }
}

/// Whether the bodies of these headings fit the static APIs that name them, or the first fault, as in `check_entries`.
pub fn check_headings(
    tokens: &Tokens<'_>,
    headings: &[Heading],
    entries: &[EntryUse],
) -> Result<(), BuildFault>
    ensures { (bodies : List BodyTree) → AreHeadings headings.now bodies →
        IsChecked tokens.now bodies entries.now result }
{
    for entry in entries {
        if let Some(why) = entry_fault(headings, entry) {
            return Err(offence_at(tokens, TextFile::Configuration, entry.at, why));
        }
    }
    Ok(())
}

/// Whether the bodies that the static APIs name fit, or the first fault in order of the APIs in the text, at the word
/// of its API among these tokens of the configuration: `UnknownName` for an entry that names no body, `WrongEntryKind`
/// for a body of the other kind, `StackTooSmall` for a task whose stack has fewer than four bytes for each operand of
/// its body.
pub fn check_entries(
    alloc: Global,
    tokens: &Tokens<'_>,
    program: &Program,
    entries: &[EntryUse],
) -> Result<(), BuildFault>
    ensures { IsChecked tokens.now (program_view program.now) entries.now result }
{
    let mut headings = Vec::new(alloc);
    for body in &program.bodies {
        append(&mut headings, heading_of(body))?;
    }
    check_headings(tokens, &headings, entries)
}
