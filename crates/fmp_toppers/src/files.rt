//! The files of a system and its bodies for TOPPERS/FMP.
ghost use Rattle.std.specs.Prelude.{◌≡◌, map, IfOk};
ghost use Rattle.fmp_base.specs.Systems.{tables_of};
ghost use Rattle.fmp_tasklang.specs.Views.{program_view};
ghost use Rattle.fmp_toppers.specs.Files as spec;

use crate::configuration::append_configuration;
use crate::declarations::{append_bodies_file, append_header};
use crate::names::{append_known_names, known_object};
use crate::target::Target;
use fmp_base::{MailboxConfig, Name, System};
use fmp_lex::BuildFault;
use fmp_tasklang::{Program, read_tasks};
use std::alloc::{AllocError, Global};

/// The files that TOPPERS' configurator and compiler read.
#[derive(Drop)]
pub struct ToppersFiles {
    /// `system.cfg`: a static API for each object.
    pub configuration: Vec<u8>,
    /// `bodies.h`: the numbers of interrupts, which the user fills in, and the prototypes.
    pub header: Vec<u8>,
    /// `bodies.c`: shared words, messages, and a function for each body.
    pub bodies: Vec<u8>,
}

/// Why there are no files.
#[derive(Drop)]
pub enum ToppersRefusal {
    /// TOPPERS' headers have the name of this object: it needs another.
    Name(Name),
    /// The kernel has no mailboxes: this is the name of the first.
    Mailbox(Name),
    /// The first fault of the text's syntax, B1 or B5, or out of memory.
    Fault(BuildFault),
}

/// The objects of a system that have no place in the files.
#[derive(Drop)]
pub struct RefusedObjects {
    /// TOPPERS' headers have the names of these: they need others.
    pub names: Vec<Name>,
    /// The mailboxes, where the kernel has none.
    pub mailboxes: Vec<Name>,
}

/// The names of mailboxes.
fn mailbox_names(alloc: Global, mailboxes: &[MailboxConfig]) -> Result<Vec<Name>, AllocError>
    ensures { IfOk result (λ names. names.items ≡ map (λ m. m.name) mailboxes.now) }
{
    let mut names = Vec::new(alloc);
    for place in 0..mailboxes.len() {
        names.push(mailboxes[place].name)?;
    }
    Ok(names)
}

/// The mailboxes that the kernel has no equal for.
fn mailboxes_without(
    alloc: Global,
    target: Target,
    mailboxes: &[MailboxConfig],
) -> Result<Vec<Name>, AllocError>
    ensures { IfOk result (λ names. names.items ≡ spec.mailboxes_without target mailboxes.now) }
{
    match target {
        Target::Fmp1 => Ok(Vec::new(alloc)),
        Target::Fmp3 => mailbox_names(alloc, mailboxes),
    }
}

/// All objects of a system for which `export_toppers` gives no files; it tells of the first one. `AllocError` if memory
/// runs out.
pub fn refused_objects(
    alloc: Global,
    target: Target,
    system: &System,
) -> Result<RefusedObjects, AllocError>
    ensures { IfOk result (spec.AreRefused target (tables_of system.now)) }
{
    let mut names = Vec::new(alloc);
    append_known_names(system, &mut names)?;
    let mailboxes = mailboxes_without(alloc, target, &system.mailboxes)?;
    Ok(RefusedObjects { names, mailboxes })
}

/// The first object that the kernel has no equal for.
fn without_equal(target: Target, mailboxes: &[MailboxConfig]) -> Option<ToppersRefusal>
    ensures { result ≡ spec.without_equal target mailboxes.now }
{
    match target {
        Target::Fmp1 => None,
        Target::Fmp3 if mailboxes.is_empty() => None,
        Target::Fmp3 => Some(ToppersRefusal::Mailbox(mailboxes[0].name)),
    }
}

/// Why there are no files for this configuration.
fn refusal_for(target: Target, system: &System) -> Option<ToppersRefusal>
    ensures { result ≡ spec.refusal_for target (tables_of system.now) }
{
    match known_object(system) {
        Some(name) => Some(ToppersRefusal::Name(name)),
        None => without_equal(target, &system.mailboxes),
    }
}

/// The three files.
fn files(
    alloc: Global,
    target: Target,
    system: &System,
    program: &Program,
) -> Result<ToppersFiles, AllocError>
    ensures { IfOk result (λ e. spec.AreFiles target (tables_of system.now) (program_view program.now) e) }
{
    let mut configuration = Vec::new(alloc);
    append_configuration(target, system, &program.bodies, &mut configuration)?;
    let mut header = Vec::new(alloc);
    append_header(alloc, target, system, program, &mut header)?;
    let mut bodies = Vec::new(alloc);
    append_bodies_file(alloc, target, system, program, &mut bodies)?;
    Ok(ToppersFiles {
        configuration,
        header,
        bodies,
    })
}

/// The files, or the fault of the text.
fn written(
    alloc: Global,
    target: Target,
    text: &[u8],
    system: &System,
) -> Result<ToppersFiles, BuildFault>
    ensures { spec.IsWritten target (tables_of system.now) text.now result }
{
    let program = read_tasks(alloc, text)?;
    match files(alloc, target, system, &program) {
        Ok(exported) => Ok(exported),
        Err(AllocError) => Err(BuildFault::Memory),
    }
}

/// The files of a task text and the system of its configuration, for a TOPPERS/FMP kernel. `Name` if the headers have
/// the name of an object, else `Mailbox` if there is a mailbox and the kernel has none, else `Fault` for the first
/// fault of the text's syntax or if an allocation is refused. That the text is one of the configuration is left to
/// those who call it.
pub fn export_toppers(
    alloc: Global,
    target: Target,
    text: &[u8],
    system: &System,
) -> Result<ToppersFiles, ToppersRefusal>
    ensures { spec.IsExported target (tables_of system.now) text.now result }
{
    if let Some(refusal) = refusal_for(target, system) {
        return Err(refusal);
    }
    match written(alloc, target, text, system) {
        Ok(exported) => Ok(exported),
        Err(fault) => Err(ToppersRefusal::Fault(fault)),
    }
}
