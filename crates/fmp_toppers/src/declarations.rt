//! The header, and the bodies in C.
ghost use Rattle.std.specs.Prelude.{◌≡◌, ◌++◌, length, OnOk};
ghost use Rattle.fmp_base.specs.Systems.{tables_of};
ghost use Rattle.fmp_export.specs.Files.{c_enumeration};
ghost use Rattle.fmp_tasklang.specs.Views.{program_view};
ghost use Rattle.fmp_toppers.specs.Declarations as spec;

use crate::heads::{BODIES_HEAD, HEADER_HEAD};
use crate::lines::append_numbered;
use crate::tables::{
    append_interrupt_functions, append_interrupt_prototypes, append_interrupt_table,
    append_message_table, append_word_table,
};
use crate::target::Target;
use fmp_base::System;
use fmp_export::{append, append_bodies, append_kind, append_prototypes};
use fmp_tasklang::Program;
use std::alloc::{AllocError, Global};

/// The number of the generation of a kernel.
fn generation(target: Target) -> usize
    ensures { result ≡ spec.generation target }
{
    match target {
        Target::Fmp1 => 1,
        Target::Fmp3 => 3,
    }
}

/// How many rows a table has.
fn count_of<T>(rows: &[T]) -> usize
    ensures { result ≡ length rows.now }
{
    rows.len()
}

/// Appends what `fmp_toppers.h` has to know, and its name.
#[tactic(auto, unfolding(crate::specs::Declarations::definitions))]
fn append_definitions(target: Target, system: &System, out: &mut Vec<u8>) -> Result<(), AllocError>
    ensures { OnOk result (out.new.items ≡ out.old.items ++ spec.definitions target (tables_of system.now)) }
{
    append_numbered(b"#define FMP_GENERATION ", generation(target), out)?;
    append_numbered(
        b"\n#define FMP_PROCESSORS ",
        usize::from(system.processors),
        out,
    )?;
    append_numbered(b"\n#define FMP_WORDS ", count_of(&system.shared_words), out)?;
    append_numbered(b"\n#define FMP_MESSAGES ", count_of(&system.messages), out)?;
    append(b"\n#include \"fmp_toppers.h\"\n\n", out)
}

/// Appends the objects that have no static API in TOPPERS.
#[tactic(auto, unfolding(crate::specs::Declarations::own_objects))]
fn append_own_objects(system: &System, out: &mut Vec<u8>) -> Result<(), AllocError>
    ensures { OnOk result (out.new.items ≡ out.old.items ++ spec.own_objects (tables_of system.now)) }
{
    append_kind(b"Messages.", &system.messages, out)?;
    append_kind(b"Shared words.", &system.shared_words, out)
}

/// Appends an enumeration of these objects, if there are any.
fn append_enumeration(alloc: Global, system: &System, out: &mut Vec<u8>) -> Result<(), AllocError>
    ensures { OnOk result (out.new.items ≡ out.old.items
        ++ c_enumeration (spec.own_objects (tables_of system.now))) }
{
    let mut objects = Vec::new(alloc);
    append_own_objects(system, &mut objects)?;
    if objects.is_empty() {
        return Ok(());
    }
    append(b"enum {\n", out)?;
    append(&objects, out)?;
    append(b"};\n\n", out)
}

/// Appends the prototypes, up to the end of the header.
#[tactic(auto, unfolding(crate::specs::Declarations::prototypes))]
fn append_all_prototypes(
    alloc: Global,
    system: &System,
    program: &Program,
    out: &mut Vec<u8>,
) -> Result<(), AllocError>
    ensures { OnOk result (out.new.items ≡ out.old.items
        ++ spec.prototypes (tables_of system.now) (program_view program.now)) }
{
    append_enumeration(alloc, system, out)?;
    append_prototypes(&program.bodies, out)?;
    append_interrupt_prototypes(&system.interrupts, out)?;
    append(b"\n#endif\n\n#endif\n", out)
}

/// Appends the header.
#[tactic(auto, unfolding(crate::specs::Declarations::header_file))]
pub fn append_header(
    alloc: Global,
    target: Target,
    system: &System,
    program: &Program,
    out: &mut Vec<u8>,
) -> Result<(), AllocError>
    ensures { OnOk result (out.new.items ≡ out.old.items
        ++ spec.header_file target (tables_of system.now) (program_view program.now)) }
{
    append(HEADER_HEAD, out)?;
    append_definitions(target, system, out)?;
    append_interrupt_table(&system.interrupts, out)?;
    append(b"#ifndef TOPPERS_MACRO_ONLY\n\n", out)?;
    append_all_prototypes(alloc, system, program, out)
}

/// Appends the bodies in C.
#[tactic(auto, unfolding(crate::specs::Declarations::bodies_file))]
pub fn append_bodies_file(
    alloc: Global,
    target: Target,
    system: &System,
    program: &Program,
    out: &mut Vec<u8>,
) -> Result<(), AllocError>
    ensures { OnOk result (out.new.items ≡ out.old.items
        ++ spec.bodies_file target (tables_of system.now) (program_view program.now)) }
{
    append(BODIES_HEAD, out)?;
    append_word_table(&system.shared_words, out)?;
    append_message_table(target, &system.messages, out)?;
    append_bodies(alloc, &program.bodies, out)?;
    append_interrupt_functions(&program.bodies, &system.interrupts, out)
}
