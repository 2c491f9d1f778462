//! What an exploration writes and prints when its search is over.
ghost use Rattle.std.specs.Prelude.{◌≡◌, ◌⊎◌, [], List, ℕ, false, if◌then◌else◌, length, map, nat_eq, option_map};
ghost use Rattle.std.specs.Prelude.{string_bytes};
ghost use Rattle.std.specs.List.{AllByRecursion};
ghost use Rattle.fmp_files.specs.Deeds.{Does};
ghost use Rattle.fmp_files.specs.Prints.{Prints};
ghost use Rattle.fmp_searching.specs.Claimed.{Gives, PrintsAll, PrintsNothing, PrintsOnly};
ghost use Rattle.fmp_searching.specs.Deeds.{DoesOnly, MayDo, WritesResult};
ghost use Rattle.fmp_searching.specs.Files.{IsApart, IsReportApart, files_written, is_refusal, report_written};
ghost use Rattle.fmp_searching.specs.Files as spec;

use crate::exploration::steps_over_input;
use crate::exploring::Explored;
use crate::sources::Exploring;
use crate::steps_files::{is_over_input, steps_names, write_steps};
use fmp_files::{Failure, Outside, end, print, refuse_mistake, write_file};
use std::alloc::Global;

/// Writes the steps texts of an exploration to the files of these names, and gives its status, or that of what went
/// wrong. None is written if one of the files is read.
fn give_steps<O: Outside>(
    alloc: Global,
    outside: &mut O,
    names: &[String],
    exploring: &Exploring<'_>,
    explored: &Explored,
) -> u8
    ensures status { result ≡ 0 → explored.now.status ≡ 0 }
    ensures quiet { PrintsNothing (O.done outside.old) (O.done outside.new) }
    ensures keeps { (out : List ℕ) (count : ℕ) → map string_bytes names.now ≡ spec.steps_names out count →
        DoesOnly (MayDo exploring.now out) (O.done outside.old) (O.done outside.new) }
    ensures writes { (out : List ℕ) → map string_bytes names.now
        ≡ spec.steps_names out (length explored.now.steps.items) →
        DoesOnly (WritesResult exploring.now out explored.now) (O.done outside.old) (O.done outside.new) }
    ensures written { is_refusal result ≡ false → (result ≡ explored.now.status)
        × AllByRecursion (IsApart exploring.now) (map string_bytes names.now)
        × Does (O.done outside.old) (files_written (map string_bytes names.now)
        (map (λ text. text.items) explored.now.steps.items)) (O.done outside.new) }
{
    if is_over_input(outside, names, exploring) {
        return refuse_mistake(outside, steps_over_input(alloc));
    }
    match write_steps(alloc, outside, names, &explored.steps) {
        Ok(()) => explored.status,
        Err(failure) => end(outside, &failure),
    }
}

/// Writes the report of tests of an exploration to its file, if there are both, and gives the status.
pub fn write_report<O: Outside>(
    alloc: Global,
    outside: &mut O,
    exploring: &Exploring<'_>,
    explored: &Explored,
) -> u8
    ensures status { (result ≡ 0) ⊎ (result ≡ 3) }
    ensures quiet { PrintsNothing (O.done outside.old) (O.done outside.new) }
    ensures keeps { (out : List ℕ) → IsReportApart exploring.now →
        DoesOnly (MayDo exploring.now out) (O.done outside.old) (O.done outside.new) }
    ensures writes { (out : List ℕ) →
        DoesOnly (WritesResult exploring.now out explored.now) (O.done outside.old) (O.done outside.new) }
    ensures written { result ≡ 0 → Does (O.done outside.old)
        (report_written (option_map (λ name. name.now) exploring.now.junit)
        (option_map (λ out. out.items) explored.now.report)) (O.done outside.new) }
{
    let Some(name) = exploring.junit else {
        return 0;
    };
    let Some(report) = &explored.report else {
        return 0;
    };
    match write_file(alloc, outside, name, report) {
        Ok(()) => 0,
        Err(failure) => end(outside, &failure),
    }
}

/// The status of what was done after a file was written with another status.
pub fn status_after(written: u8, status: u8) -> u8
    ensures value { result ≡ (if nat_eq written 0 then status else written) }
    ensures zero { result ≡ 0 → status ≡ 0 }
{
    if written == 0 { status } else { written }
}

/// Prints what an exploration came to, and then writes its steps texts. The status is that of the exploration, or of
/// what went wrong first.
pub fn give<O: Outside>(
    alloc: Global,
    outside: &mut O,
    out: &str,
    exploring: &Exploring<'_>,
    explored: &Explored,
) -> u8
    ensures status { result ≡ 0 → explored.now.status ≡ 0 }
    ensures text { PrintsOnly explored.now.text.items (O.done outside.old) (O.done outside.new) }
    ensures keeps { DoesOnly (MayDo exploring.now out.now) (O.done outside.old) (O.done outside.new) }
    ensures writes { DoesOnly (WritesResult exploring.now out.now explored.now)
        (O.done outside.old) (O.done outside.new) }
    ensures printed { result ≡ 0 → explored.now.steps.items ≡ [] →
        Prints (O.done outside.old) explored.now.text.items (O.done outside.new) }
    ensures mistaken { result ≡ 2 →
        PrintsAll explored.now.text.items (O.done outside.old) (O.done outside.new) }
    ensures given { is_refusal result ≡ false → (result ≡ explored.now.status)
        × Gives exploring.now out.now explored.now (O.done outside.old) (O.done outside.new) }
{
    match print(alloc, outside, &explored.text) {
        0 => {}
        status => return status,
    }
    if explored.steps.is_empty() {
        return explored.status;
    }
    match steps_names(alloc, out, explored.steps.len()) {
        Ok(names) => give_steps(alloc, outside, &names, exploring, explored),
        Err(error) => end(outside, &Failure::Memory(error)),
    }
}
