//! Writes the coverage of runs to the files that are asked for.
ghost use Rattle.std.specs.Prelude.{◌++◌, OnOk, option_map};
ghost use Rattle.fmp_files.specs.Deeds.{Does};
ghost use Rattle.fmp_looking.specs.FilesWritten.{file_written};

use crate::wanted::CoverageFiles;
use fmp_files::{Failure, Outside, write_file};
use std::alloc::Global;

/// Writes a text to its file, if one is named.
#[tactic(auto, using(fmp_files::specs::PrintsLaws::does_nothing))]
fn write_named<O: Outside>(
    alloc: Global,
    outside: &mut O,
    name: Option<&str>,
    text: &[u8],
) -> Result<(), Failure>
    ensures { OnOk result (Does (O.done outside.old) (file_written (option_map (λ n. n.now) name.entry) text.now)
        (O.done outside.new)) }
{
    match name {
        Some(name) => write_file(alloc, outside, name, text),
        None => Ok(()),
    }
}

/// Writes a tracefile of lcov and a table of coverage to these files, where that is asked for.
pub fn write_coverage_files<O: Outside>(
    alloc: Global,
    outside: &mut O,
    files: CoverageFiles<'_>,
    tracefile: &[u8],
    table: &[u8],
) -> Result<(), Failure>
    ensures { OnOk result (Does (O.done outside.old)
        (file_written (option_map (λ n. n.now) files.entry.lcov) tracefile.now
        ++ file_written (option_map (λ n. n.now) files.entry.coverage) table.now)
        (O.done outside.new)) }
{
    write_named(alloc, outside, files.lcov, tracefile)?;
    write_named(alloc, outside, files.coverage, table)
}
