//! The command `export`: the bodies of a text as C, in a folder with what builds and runs them.
ghost use Rattle.std.specs.Prelude.{◌≡◌, ◌≢◌, ◌<◌, ◌∷◌, [], Bool, IfOk, IfSome, OnErr, OnOk, false, length, map};
ghost use Rattle.std.specs.Prelude.{slice_get, true};
ghost use Rattle.std.specs.List.{AllByRecursion};
ghost use Rattle.std.specs.String.{string_bytes};
ghost use Rattle.fmp_files.specs.Deeds.{Begins, Does, wrote};
ghost use Rattle.fmp_view.specs.Apart.{IsApartFromTexts};
ghost use Rattle.fmp_view.specs.Begun.{BeginsDeeds};
ghost use Rattle.fmp_view.specs.Exports.{HasExported, HasExportedFiles, HasExportedTexts, IsExportOf, KeepsMain};
ghost use Rattle.fmp_view.specs.Exports.{Stops, StopsExport, StopsFiles, StopsTexts, files_of, in_folder, main_file};

use crate::inputs::is_text;
use crate::word_mistakes::files_over_input;
use fmp_diagnosis::Texts;
use fmp_export::project::MAKEFILE;
use fmp_export::{ExportedText, export_c_with_lines};
use fmp_files::{Failure, Outside, ReadFault, end, failed, refuse_mistake, write_file};
use fmp_image::build;
use fmp_lex::BuildFault;
use fmp_searching::{print_fault, read_both};
use fmp_warnings::{FileNames, Form};
use std::alloc::{AllocError, Global};
use std::fs;
use std::io::ErrorKind;
use std::rt::Files;

/// What is exported: the names of the files of two texts, and of a folder, and whether a debugger is to show the lines
/// of the text.
#[derive(Clone, Copy)]
pub struct Exporting<'a> {
    pub names: FileNames<'a>,
    pub folder: &'a str,
    pub lines: bool,
}

/// What a folder gets: two texts, and the C of the bodies of one.
#[derive(Clone, Copy)]
pub struct Project<'a> {
    pub folder: &'a str,
    pub texts: Texts<'a>,
    pub exported: &'a ExportedText,
}

/// The files of the folder.
const FILES: &[&str] = &[
    "bodies.h",
    "bodies.c",
    "system.cfg",
    "system.src",
    "Makefile",
    "main.c",
];

/// The name of a file of a folder.
fn name_in(alloc: Global, folder: &str, file: &str) -> Result<String, AllocError>
    ensures { IfOk result (λ name. string_bytes name ≡ in_folder folder.now file.now) }
{
    format!(in alloc; "{folder}/{file}")
}

/// Whether the file of a folder at a place among these is one of the two that are read.
fn is_input_at<O: Outside>(
    alloc: Global,
    outside: &O,
    names: FileNames<'_>,
    folder: &str,
    files: &[&str],
    place: usize,
) -> Result<bool, AllocError>
    requires { place < length files.now }
    ensures { IfOk result (λ input. input ≡ false → IfSome (slice_get files.now place) (λ file.
        IsApartFromTexts (O.files outside.now) names.entry (in_folder folder.now file.now))) }
{
    let name = name_in(alloc, folder, files[place])?;
    Ok(is_text(outside, name.as_str(), names))
}

/// Whether one of these files of a folder is one of the two that are read.
pub fn overwrites_input<O: Outside>(
    alloc: Global,
    outside: &O,
    names: FileNames<'_>,
    folder: &str,
    files: &[&str],
) -> Result<bool, AllocError>
    ensures { IfOk result (λ over. over ≡ false → AllByRecursion (IsApartFromTexts (O.files outside.now) names.entry)
        (map (λ file. in_folder folder.now file.now) files.now)) }
{
    for i in 0..files.len() {
        if is_input_at(alloc, outside, names, folder, files, i)? {
            return Ok(true);
        }
    }
    Ok(false)
}

/// The C of the bodies of a text, for the system that it builds with a configuration; or the first fault of the two.
fn exported(alloc: Global, lines: bool, cfg: &[u8], src: &[u8]) -> Result<ExportedText, BuildFault>
    ensures { IfOk result (IsExportOf lines cfg.now src.now) }
{
    match build(alloc, cfg, src) {
        Ok(image) => {
            let exported = export_c_with_lines(alloc, src, lines, image.system());
            drop(image);
            exported
        }
        Err(fault) => Err(fault),
    }
}

/// Makes a folder, unless it is there.
pub fn make_folder<R: Files>(alloc: Global, rt: &R, folder: &str) -> Result<(), Failure> {
    match fs::create_dir(rt, folder) {
        Ok(()) => Ok(()),
        Err(error) if error.kind() == ErrorKind::AlreadyExists => Ok(()),
        Err(_) => Err(failed(alloc, folder)),
    }
}

/// Whether a file can be read.
fn is_readable<O: Outside>(alloc: Global, outside: &O, name: &str) -> Result<bool, AllocError>
    ensures { IfOk result (λ read. (O.files outside.now).can_fail name.now ≡ false → read ≡ true) }
{
    match outside.read(alloc, name, Some(0)) {
        Ok(_) => Ok(true),
        Err(ReadFault::Device) => Ok(false),
        Err(ReadFault::Memory) => Err(AllocError),
    }
}

/// Whether there is a main program in a folder, which is kept then: always if it can be read.
fn has_main<O: Outside, R: Files>(
    alloc: Global,
    outside: &O,
    rt: &R,
    folder: &str,
) -> Result<bool, AllocError>
    ensures { IfOk result (KeepsMain (O.files outside.now) folder.now) }
{
    let name = name_in(alloc, folder, "main.c")?;
    if matches!(fs::exists(rt, name.as_str()), Ok(true)) {
        return Ok(true);
    }
    is_readable(alloc, outside, name.as_str())
}

/// Writes a file of a folder.
pub fn write_in<O: Outside>(
    alloc: Global,
    outside: &mut O,
    folder: &str,
    file: &str,
    bytes: &[u8],
) -> Result<(), Failure>
    ensures ok { OnOk result (Does (O.done outside.old) (wrote (in_folder folder.now file.now) bytes.now ∷ [])
        (O.done outside.new)) }
    ensures begun { OnErr result (Begins (wrote (in_folder folder.now file.now)) bytes.now (O.done outside.old)
        (O.done outside.new)) }
{
    let name = name_in(alloc, folder, file)?;
    write_file(alloc, outside, name.as_str(), bytes)
}

/// Writes the main program of a folder, unless it is kept.
#[tactic(auto, using(fmp_files::specs::PrintsLaws::does_nothing))]
fn write_main<O: Outside>(
    alloc: Global,
    outside: &mut O,
    folder: &str,
    main: &[u8],
    keeps_main: bool,
) -> Result<(), Failure>
    ensures ok { OnOk result (Does (O.done outside.old) (main_file folder.now main.now keeps_main)
        (O.done outside.new)) }
    ensures begun { OnErr result (BeginsDeeds (main_file folder.now main.now keeps_main) (O.done outside.old)
        (O.done outside.new)) }
{
    if keeps_main {
        return Ok(());
    }
    write_in(alloc, outside, folder, "main.c", main)
}

/// Writes the files of a folder, but for a main program that is kept.
fn write_project<O: Outside>(
    alloc: Global,
    outside: &mut O,
    project: Project<'_>,
    keeps_main: bool,
) -> Result<(), Failure>
    ensures ok { OnOk result (Does (O.done outside.old) (files_of project.entry keeps_main) (O.done outside.new)) }
    ensures begun { OnErr result (BeginsDeeds (files_of project.entry keeps_main) (O.done outside.old)
        (O.done outside.new)) }
{
    let Project {
        folder,
        texts,
        exported,
    } = project;
    write_in(alloc, outside, folder, "bodies.h", &exported.header)?;
    write_in(alloc, outside, folder, "bodies.c", &exported.bodies)?;
    write_in(alloc, outside, folder, "system.cfg", texts.cfg)?;
    write_in(alloc, outside, folder, "system.src", texts.src)?;
    write_in(alloc, outside, folder, "Makefile", MAKEFILE)?;
    write_main(alloc, outside, folder, &exported.main, keeps_main)
}

/// Makes a folder and writes its files.
fn make_project<O: Outside, R: Files>(
    alloc: Global,
    outside: &mut O,
    rt: &R,
    project: Project<'_>,
) -> Result<(), Failure>
    ensures ok { OnOk result ((keeps_main : Bool)
        × KeepsMain (O.files outside.old) project.entry.folder.now keeps_main
        × Does (O.done outside.old) (files_of project.entry keeps_main) (O.done outside.new)) }
    ensures begun { OnErr result ((keeps_main : Bool)
        × KeepsMain (O.files outside.old) project.entry.folder.now keeps_main
        × BeginsDeeds (files_of project.entry keeps_main) (O.done outside.old) (O.done outside.new)) }
{
    make_folder(alloc, rt, project.folder)?;
    let keeps_main = has_main(alloc, outside, rt, project.folder)?;
    write_project(alloc, outside, project, keeps_main)
}

/// Makes a folder with its files, and gives the status.
fn give<O: Outside, R: Files>(alloc: Global, outside: &mut O, rt: &R, project: Project<'_>) -> u8
    ensures given { result ≡ 0 → (keeps_main : Bool)
        × KeepsMain (O.files outside.old) project.entry.folder.now keeps_main
        × Does (O.done outside.old) (files_of project.entry keeps_main) (O.done outside.new) }
    ensures stopped { result ≢ 0 → Stops (O.files outside.old) project.entry (O.done outside.old)
        (O.done outside.new) }
{
    match make_project(alloc, outside, rt, project) {
        Ok(()) => 0,
        Err(failure) => end(outside, &failure),
    }
}

/// Exports two texts, or prints their first fault, with status 1.
#[tactic(auto, using(crate::proofs::BegunDeeds::saying_tells))]
fn export_texts<O: Outside, R: Files>(
    alloc: Global,
    outside: &mut O,
    rt: &R,
    texts: Texts<'_>,
    exporting: Exporting<'_>,
) -> u8
    ensures exported { result ≡ 0 → HasExportedTexts (O.files outside.old) exporting.entry.lines texts.entry
        exporting.entry.folder.now (O.done outside.old) (O.done outside.new) }
    ensures stopped { result ≢ 0 → StopsTexts (O.files outside.old) exporting.entry.lines texts.entry
        exporting.entry.folder.now (O.done outside.old) (O.done outside.new) }
{
    match exported(alloc, exporting.lines, texts.cfg, texts.src) {
        Ok(exported) => {
            let project = Project {
                folder: exporting.folder,
                texts,
                exported: &exported,
            };
            give(alloc, outside, rt, project)
        }
        Err(BuildFault::Memory) => end(outside, &Failure::Memory(AllocError)),
        Err(BuildFault::At(..)) => print_fault(alloc, outside, exporting.names, Form::Text).max(1),
    }
}

/// Exports the texts of two files, or prints their first fault, with status 1.
#[tactic(auto, using(crate::proofs::BegunDeeds::saying_tells, crate::proofs::Projects::stops_files))]
fn export_files<O: Outside, R: Files>(
    alloc: Global,
    outside: &mut O,
    rt: &R,
    exporting: Exporting<'_>,
) -> u8
    ensures exported { result ≡ 0 → HasExportedFiles (O.files outside.old) exporting.entry
        (O.done outside.old) (O.done outside.new) }
    ensures stopped { result ≢ 0 → StopsFiles (O.files outside.old) exporting.entry
        (O.done outside.old) (O.done outside.new) }
{
    match read_both(alloc, outside, exporting.names.cfg, exporting.names.src) {
        Ok((cfg, src)) => {
            let texts = Texts {
                cfg: &cfg,
                src: &src,
            };
            export_texts(alloc, outside, rt, texts, exporting)
        }
        Err(failure) => end(outside, &failure),
    }
}

/// Exports the texts of two files to a folder that this runtime reaches, or prints their first fault, with status 1.
#[tactic(auto, using(crate::proofs::BegunDeeds::saying_tells))]
pub fn run_export<O: Outside, R: Files>(
    alloc: Global,
    outside: &mut O,
    rt: &R,
    exporting: Exporting<'_>,
) -> u8
    ensures exported { result ≡ 0 → HasExported (O.files outside.old) exporting.entry
        (O.done outside.old) (O.done outside.new) }
    ensures stopped { result ≢ 0 → StopsExport (O.files outside.old) exporting.entry
        (O.done outside.old) (O.done outside.new) }
{
    match overwrites_input(alloc, outside, exporting.names, exporting.folder, FILES) {
        Ok(false) => export_files(alloc, outside, rt, exporting),
        Ok(true) => refuse_mistake(outside, files_over_input(alloc)),
        Err(error) => end(outside, &Failure::Memory(error)),
    }
}
