//! The C of a text and its configuration.
ghost use Rattle.std.specs.Prelude.{◌≡◌, ◌++◌, IfOk, OnOk};
ghost use Rattle.fmp_base.specs.Systems.{tables_of};
ghost use Rattle.fmp_tasklang.specs.Views.{program_view};
ghost use Rattle.fmp_export.specs.Files.{AreFiles, IsExported, IsExportedWith, c_file, c_header, c_main};
ghost use Rattle.fmp_export.specs.Sources.{source_view};

use crate::bodies::{append_commented_bodies, append_prototypes, append_rows};
use crate::objects::append_enumeration;
use crate::source::{LexedText, head};
use crate::text::append;
use fmp_base::System;
use fmp_lex::{BuildFault, tokens};
use fmp_tasklang::{Program, read_tasks};
use std::alloc::{AllocError, Global};

/// The C of a task text.
#[derive(Drop)]
pub struct ExportedText {
    /// The header `bodies.h`: the numbers of the objects, and the prototype of each body's function.
    pub header: Vec<u8>,
    /// A function for each body.
    pub bodies: Vec<u8>,
    /// The program that runs the bodies, in virtual or in real time.
    pub main: Vec<u8>,
}

/// What stands before the numbers of the objects.
pub const HEADER_START: &[u8] = b"#ifndef BODIES_H
#define BODIES_H

#include <stdint.h>

";

/// What stands before the rows of the table of bodies.
pub const MAIN_START: &[u8] = b"#include \"bodies.h\"
#include \"live.h\"
#include \"virtual.h\"

#include <string.h>

static const struct fmp_body fmp_bodies[] = {
";

/// What stands after them.
pub const MAIN_END: &[u8] = b"    {NULL, NULL},
};

#ifdef FMP_SHADOW
static const uint8_t fmp_image[] = {
#include \"image.h\"
};
#endif

int main(int argc, char **argv)
{
    const struct fmp_program program = {
        .bodies = fmp_bodies,
        .count = sizeof fmp_bodies / sizeof *fmp_bodies - 1,
#ifdef FMP_SHADOW
        .image = fmp_image,
        .image_length = sizeof fmp_image,
#endif
    };
    if (argc > 1 && strcmp(argv[1], \"live\") == 0) {
        return fmp_perform(argc - 1, argv + 1, &program);
    }
    return fmp_simulate(argc, argv, &program);
}
";

/// Appends the header of a program and its configuration: the numbers of the objects, and a prototype for each body.
/// The error is out of memory.
#[tactic(auto, unfolding(crate::specs::Files::c_header))]
pub fn append_header(
    alloc: Global,
    system: &System,
    program: &Program,
    out: &mut Vec<u8>,
) -> Result<(), AllocError>
    ensures { OnOk result (out.new.items ≡ out.old.items
        ++ c_header (tables_of system.now) (program_view program.now)) }
{
    append(HEADER_START, out)?;
    append_enumeration(alloc, system, out)?;
    append_prototypes(&program.bodies, out)?;
    append(b"\n#endif\n", out)
}

/// Appends the C of a program that a text spells: a function for each body, and all comments. The error is out of
/// memory.
#[tactic(auto, unfolding(crate::specs::Files::c_file))]
fn append_file(
    source: &LexedText<'_>,
    program: &Program,
    out: &mut Vec<u8>,
) -> Result<(), AllocError>
    ensures { OnOk result (out.new.items
        ≡ out.old.items ++ c_file (source_view source.now) (program_view program.now)) }
{
    append(b"#include \"bodies.h\"\n#include \"task.h\"\n", out)?;
    append_commented_bodies(source, head(source), &program.bodies, out)
}

/// Appends the C program that runs these bodies in virtual or in real time. The error is out of memory.
#[tactic(auto, unfolding(crate::specs::Files::c_main))]
pub fn append_main(program: &Program, out: &mut Vec<u8>) -> Result<(), AllocError>
    ensures { OnOk result (out.new.items ≡ out.old.items ++ c_main (program_view program.now)) }
{
    append(MAIN_START, out)?;
    append_rows(&program.bodies, out)?;
    append(MAIN_END, out)
}

/// All files of a program that a text spells.
fn files(
    source: &LexedText<'_>,
    system: &System,
    program: &Program,
) -> Result<ExportedText, AllocError>
    ensures { IfOk result (AreFiles (tables_of system.now) (source_view source.now) (program_view program.now)) }
{
    let alloc = source.alloc;
    let mut header = Vec::new(alloc);
    append_header(alloc, system, program, &mut header)?;
    let mut bodies = Vec::new(alloc);
    append_file(source, program, &mut bodies)?;
    let mut main = Vec::new(alloc);
    append_main(program, &mut main)?;
    Ok(ExportedText {
        header,
        bodies,
        main,
    })
}

/// The C of a task text for the system of its configuration, or the first fault of the text's syntax: B1 or B5.
/// `Memory` if an allocation is refused. That the text is one of the configuration is left to who checks it. With
/// `lines`, a debugger shows the lines of the text, which it finds in the file `system.src`.
#[tactic(auto, using(crate::proofs::Exports::is_exported))]
pub fn export_c_with_lines(
    alloc: Global,
    text: &[u8],
    lines: bool,
    system: &System,
) -> Result<ExportedText, BuildFault>
    ensures { IsExportedWith lines (tables_of system.now) text.now result }
{
    let program = read_tasks(alloc, text)?;
    let Ok(list) = tokens(alloc, text) else {
        return Err(BuildFault::Memory);
    };
    let source = LexedText::new(alloc, text, &list.tokens, lines)?;
    Ok(files(&source, system, &program)?)
}

/// As `export_c_with_lines`, without the lines of the text for a debugger.
pub fn export_c(alloc: Global, text: &[u8], system: &System) -> Result<ExportedText, BuildFault>
    ensures { IsExported (tables_of system.now) text.now result }
{
    export_c_with_lines(alloc, text, false, system)
}
