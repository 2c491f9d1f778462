//! The command `export --toppers`: the files of a system for TOPPERS/FMP, in a folder.
ghost use Rattle.std.specs.Prelude.{◌≡◌, ◌≢◌, ◌∷◌, [], IfOk, OnErr, OnOk};
ghost use Rattle.fmp_files.specs.Deeds.{Does};
ghost use Rattle.fmp_searching.specs.Deeds.{TellsOnly};
ghost use Rattle.fmp_view.specs.Begun.{BeginsDeeds};
ghost use Rattle.fmp_view.specs.Targets.{HasTargeted, HasTargetedFiles, HasTargetedTexts, IsTargetOf, Stops};
ghost use Rattle.fmp_view.specs.Targets.{StopsFiles, StopsTarget, StopsTexts, target_files};

use crate::exporting::{make_folder, overwrites_input, write_in};
use crate::word_mistakes::files_over_input;
use fmp_base::Name;
use fmp_diagnosis::Texts;
use fmp_files::{Failure, Outside, end, refuse_mistake};
use fmp_image::build;
use fmp_lex::BuildFault;
use fmp_searching::{print_fault, read_both};
use fmp_toppers::{
    RefusedObjects, Target, ToppersFiles, ToppersRefusal, export_toppers, refused_objects,
};
use fmp_warnings::{FileNames, Form};
use std::alloc::{AllocError, Global};
use std::rt::Files;
use std::str;

/// What is exported for a target: the names of the files of two texts, and of a folder.
#[derive(Clone, Copy)]
pub struct Targeting<'a> {
    pub names: FileNames<'a>,
    pub folder: &'a str,
    pub target: Target,
}

/// The files of the folder.
const FILES: &[&str] = &["system.cfg", "bodies.h", "bodies.c"];

/// The files for the system that a text builds with a configuration; or why there are none.
fn targeted(
    alloc: Global,
    target: Target,
    cfg: &[u8],
    src: &[u8],
) -> Result<ToppersFiles, ToppersRefusal>
    ensures { IfOk result (IsTargetOf target cfg.now src.now) }
{
    match build(alloc, cfg, src) {
        Ok(image) => {
            let exported = export_toppers(alloc, target, src, image.system());
            drop(image);
            exported
        }
        Err(fault) => Err(ToppersRefusal::Fault(fault)),
    }
}

/// Writes the files of a folder.
fn write_target<O: Outside>(
    alloc: Global,
    outside: &mut O,
    folder: &str,
    exported: &ToppersFiles,
) -> Result<(), Failure>
    ensures ok { OnOk result (Does (O.done outside.old) (target_files folder.now exported.now) (O.done outside.new)) }
    ensures begun { OnErr result (BeginsDeeds (target_files folder.now exported.now) (O.done outside.old)
        (O.done outside.new)) }
{
    write_in(
        alloc,
        outside,
        folder,
        "system.cfg",
        &exported.configuration,
    )?;
    write_in(alloc, outside, folder, "bodies.h", &exported.header)?;
    write_in(alloc, outside, folder, "bodies.c", &exported.bodies)
}

/// Makes a folder and writes its files.
fn make_target<O: Outside, R: Files>(
    alloc: Global,
    outside: &mut O,
    rt: &R,
    folder: &str,
    exported: &ToppersFiles,
) -> Result<(), Failure>
    ensures ok { OnOk result (Does (O.done outside.old) (target_files folder.now exported.now) (O.done outside.new)) }
    ensures begun { OnErr result (BeginsDeeds (target_files folder.now exported.now) (O.done outside.old)
        (O.done outside.new)) }
{
    make_folder(alloc, rt, folder)?;
    write_target(alloc, outside, folder, exported)
}

/// Makes a folder with its files, and gives the status.
fn give<O: Outside, R: Files>(
    alloc: Global,
    outside: &mut O,
    rt: &R,
    folder: &str,
    exported: &ToppersFiles,
) -> u8
    ensures given { result ≡ 0 → Does (O.done outside.old) (target_files folder.now exported.now)
        (O.done outside.new) }
    ensures stopped { result ≢ 0 → Stops (target_files folder.now exported.now) (O.done outside.old)
        (O.done outside.new) }
{
    match make_target(alloc, outside, rt, folder, exported) {
        Ok(()) => 0,
        Err(failure) => end(outside, &failure),
    }
}

/// The objects of two texts that have no place in a target.
fn refused_of(
    alloc: Global,
    target: Target,
    texts: Texts<'_>,
) -> Result<RefusedObjects, BuildFault> {
    match build(alloc, texts.cfg, texts.src) {
        Ok(image) => {
            let refused = refused_objects(alloc, target, image.system());
            drop(image);
            refused.map_err(|_error| BuildFault::Memory)
        }
        Err(fault) => Err(fault),
    }
}

/// Says of each of these objects why it has no place in a target.
#[tactic(auto, using(fmp_searching::proofs::Doing::only_none))]
fn say_objects<O: Outside>(outside: &mut O, names: &[Name], why: &str)
    ensures { TellsOnly (O.done outside.old) (O.done outside.new) }
{
    for name in names {
        let name = str::from_utf8(name.as_bytes()).unwrap_or("");
        outside.say(format_args!("{name}: {why}\n"));
    }
}

/// Says which objects have no place in a target, with status 1.
#[tactic(auto, using(crate::proofs::BegunDeeds::saying_tells, fmp_searching::proofs::Doing::only_then))]
fn refuse_objects<O: Outside>(
    alloc: Global,
    outside: &mut O,
    target: Target,
    texts: Texts<'_>,
) -> u8
    ensures { TellsOnly (O.done outside.old) (O.done outside.new) }
{
    match refused_of(alloc, target, texts) {
        Ok(refused) => {
            say_objects(
                outside,
                &refused.names,
                "the headers of TOPPERS have this name",
            );
            say_objects(outside, &refused.mailboxes, "FMP3 has no mailboxes");
            1
        }
        Err(_) => end(outside, &Failure::Memory(AllocError)),
    }
}

/// Says or prints why there are no files, and gives the status.
#[tactic(auto, using(crate::proofs::BegunDeeds::saying_tells))]
fn refuse_target<O: Outside>(
    alloc: Global,
    outside: &mut O,
    texts: Texts<'_>,
    targeting: Targeting<'_>,
    refusal: ToppersRefusal,
) -> u8
    ensures { TellsOnly (O.done outside.old) (O.done outside.new) }
{
    match refusal {
        ToppersRefusal::Name(_) | ToppersRefusal::Mailbox(_) => {
            refuse_objects(alloc, outside, targeting.target, texts)
        }
        ToppersRefusal::Fault(BuildFault::Memory) => end(outside, &Failure::Memory(AllocError)),
        ToppersRefusal::Fault(BuildFault::At(..)) => {
            print_fault(alloc, outside, targeting.names, Form::Text).max(1)
        }
    }
}

/// Exports two texts for a target, or says why not, with status 1.
#[tactic(auto, using(crate::proofs::BegunDeeds::saying_tells))]
fn target_texts<O: Outside, R: Files>(
    alloc: Global,
    outside: &mut O,
    rt: &R,
    texts: Texts<'_>,
    targeting: Targeting<'_>,
) -> u8
    ensures exported { result ≡ 0 → HasTargetedTexts targeting.entry.target texts.entry targeting.entry.folder.now
        (O.done outside.old) (O.done outside.new) }
    ensures stopped { result ≢ 0 → StopsTexts targeting.entry.target texts.entry targeting.entry.folder.now
        (O.done outside.old) (O.done outside.new) }
{
    match targeted(alloc, targeting.target, texts.cfg, texts.src) {
        Ok(exported) => give(alloc, outside, rt, targeting.folder, &exported),
        Err(refusal) => refuse_target(alloc, outside, texts, targeting, refusal).max(1),
    }
}

/// Exports the texts of two files for a target, or says why not, with status 1.
#[tactic(auto, using(crate::proofs::BegunDeeds::saying_tells, crate::proofs::TargetLemmas::stops_files))]
fn target_files_of<O: Outside, R: Files>(
    alloc: Global,
    outside: &mut O,
    rt: &R,
    targeting: Targeting<'_>,
) -> u8
    ensures exported { result ≡ 0 → HasTargetedFiles (O.files outside.old) targeting.entry
        (O.done outside.old) (O.done outside.new) }
    ensures stopped { result ≢ 0 → StopsFiles (O.files outside.old) targeting.entry
        (O.done outside.old) (O.done outside.new) }
{
    match read_both(alloc, outside, targeting.names.cfg, targeting.names.src) {
        Ok((cfg, src)) => {
            let texts = Texts {
                cfg: &cfg,
                src: &src,
            };
            target_texts(alloc, outside, rt, texts, targeting)
        }
        Err(failure) => end(outside, &failure),
    }
}

/// Exports the texts of two files for a target to a folder that this runtime reaches, or says why not, with status 1.
#[tactic(auto, using(crate::proofs::BegunDeeds::saying_tells))]
pub fn run_target<O: Outside, R: Files>(
    alloc: Global,
    outside: &mut O,
    rt: &R,
    targeting: Targeting<'_>,
) -> u8
    ensures exported { result ≡ 0 → HasTargeted (O.files outside.old) targeting.entry
        (O.done outside.old) (O.done outside.new) }
    ensures stopped { result ≢ 0 → StopsTarget (O.files outside.old) targeting.entry
        (O.done outside.old) (O.done outside.new) }
{
    match overwrites_input(alloc, outside, targeting.names, targeting.folder, FILES) {
        Ok(false) => target_files_of(alloc, outside, rt, targeting),
        Ok(true) => refuse_mistake(outside, files_over_input(alloc)),
        Err(error) => end(outside, &Failure::Memory(error)),
    }
}
