//! The files of steps of what a search finds, and those of an earlier one.
ghost use Rattle.std.specs.Prelude.{◌≡◌, ◌++◌, ◌<◌, ◌^◌, [], ◌∷◌, ℕ, List, IfOk, IfSome, IsTrue, MatchOption, OnOk};
ghost use Rattle.std.specs.Prelude.{codes, decimal, false, length, map, option_map, slice_get, string_bytes};
ghost use Rattle.std.specs.Char.{is_ascii_digit};
ghost use Rattle.std.specs.List.{AllByRecursion, list_all};
ghost use Rattle.fmp_files.specs.Deeds.{Does, wrote};
ghost use Rattle.fmp_searching.specs.Claimed.{PrintsNothing};
ghost use Rattle.fmp_searching.specs.Deeds.{DoesOnly, IsWriteOf, WritesFront};
ghost use Rattle.fmp_searching.specs.Files as spec;
ghost use Rattle.fmp_searching.specs.Files.{HasNo};
ghost use Rattle.fmp_searching.specs.Sources.{steps_name};

use crate::sources::Exploring;
use fmp_files::{Failure, Outside, write_file};
use fmp_trace::read_steps;
use itoa::Buffer;
use std::alloc::{AllocError, Global};

/// The files of steps of a search.
#[derive(Clone, Copy)]
pub struct StepsFiles<'a> {
    pub exploring: &'a Exploring<'a>,
    /// Their name, without the dot and the number.
    pub out: &'a str,
    /// How many there are: their numbers are from 1 to this one.
    pub count: usize,
}

/// The name of the files of steps: the one that was asked for, or that of the configuration.
pub fn out_name(alloc: Global, exploring: &Exploring<'_>) -> Result<String, AllocError>
    ensures { IfOk result (λ name. string_bytes name ≡ spec.out_name exploring.now.cfg.now
        (option_map (λ n. n.now) exploring.now.out)) }
{
    match exploring.out {
        Some(name) => String::from_str(alloc, name),
        None => found_name(alloc, exploring.cfg),
    }
}

/// The name of the files of steps of a configuration, where none is asked for.
#[tactic(auto, unfolding(crate::specs::Words::before))]
fn found_name(alloc: Global, cfg: &str) -> Result<String, AllocError>
    ensures { IfOk result (λ name. string_bytes name ≡ spec.stem cfg.now ++ codes ".found") }
{
    let stem = cfg.strip_suffix(".cfg").unwrap_or(cfg);
    let mut name = String::from_str(alloc, stem)?;
    name.push_str(".found")?;
    Ok(name)
}

/// Adds the name of the file of steps of this number.
fn add_steps_name(
    alloc: Global,
    names: &mut Vec<String>,
    out: &str,
    number: usize,
) -> Result<(), AllocError>
    ensures { OnOk result (map string_bytes names.new.items
        ≡ map string_bytes names.old.items ++ steps_name out.now number ∷ []) }
{
    names.push(steps_name_of(alloc, out, number)?)?;
    Ok(())
}

/// The names of this many files of steps.
pub fn steps_names(alloc: Global, out: &str, count: usize) -> Result<Vec<String>, AllocError>
    ensures { IfOk result (λ names. map string_bytes names.items ≡ spec.steps_names out.now count) }
{
    let mut names = Vec::new(alloc);
    for i in 0..count {
        add_steps_name(alloc, &mut names, out, i + 1)?;
    }
    Ok(names)
}

/// A name, a dot and a number.
fn numbered_name(alloc: Global, out: &str, number: &str) -> Result<String, AllocError>
    ensures { IfOk result (λ name. string_bytes name ≡ out.now ++ (codes "." ++ number.now)) }
{
    let mut name = String::from_str(alloc, out)?;
    name.push_str(".")?;
    name.push_str(number)?;
    Ok(name)
}

/// The name of the file of steps of this number.
#[tactic(auto, unfolding(crate::specs::Sources::steps_name))]
pub fn steps_name_of(alloc: Global, out: &str, number: usize) -> Result<String, AllocError>
    ensures { IfOk result (λ name. string_bytes name ≡ steps_name out.now number) }
{
    numbered_name(alloc, out, Buffer::new().format(number as u64))
}

/// Whether each of these bytes is a decimal digit.
fn are_digits(bytes: &[u8]) -> bool
    ensures { result ≡ list_all is_ascii_digit bytes.now }
{
    bytes.iter().all(|byte| byte.is_ascii_digit())
}

/// Whether a text is a number from 1 on, without zeros in front.
fn is_count(text: &str) -> bool
    ensures { (n : ℕ) → 0 < n → n < 2 ^ 64 → text.now ≡ decimal n → IsTrue result }
{
    if text.is_empty() {
        return false;
    }
    if text.starts_with('0') {
        return false;
    }
    are_digits(text.as_bytes())
}

/// What stands after the last dot of a name, if it has one.
fn after_last_dot(name: &str) -> Option<&str>
    ensures { (front back : List ℕ) → name.now ≡ front ++ (46 ∷ back) → HasNo 46 back
        → MatchOption result ⊥ (λ number. number.now ≡ back) }
{
    match name.rsplit_once('.') {
        Some((_, number)) => Some(number),
        None => None,
    }
}

/// A text, if it is a number from 1 on, without zeros in front.
fn counted(text: &str) -> Option<&str>
    ensures { (n : ℕ) → 0 < n → n < 2 ^ 64 → text.now ≡ decimal n
        → MatchOption result ⊥ (λ number. number.now ≡ decimal n) }
{
    if is_count(text) { Some(text) } else { None }
}

/// The number after the last dot of a name, if it has one.
fn number_of(name: &str) -> Option<&str>
    ensures { (out : List ℕ) (n : ℕ) → 0 < n → n < 2 ^ 64 → name.now ≡ steps_name out n
        → MatchOption result ⊥ (λ number. number.now ≡ decimal n) }
{
    match after_last_dot(name) {
        Some(number) => counted(number),
        None => None,
    }
}

/// Whether the file of a report, if one is asked for, may be one of those of steps. `AllocError` if memory runs out.
pub fn is_report_of_steps<O: Outside>(
    alloc: Global,
    outside: &O,
    exploring: &Exploring<'_>,
) -> Result<bool, AllocError>
    ensures { IfOk result (λ may. may ≡ false → spec.IsReportNoSteps exploring.now) }
{
    let Some(report) = exploring.junit else {
        return Ok(false);
    };
    let Some(number) = number_of(report) else {
        return Ok(false);
    };
    let out = out_name(alloc, exploring)?;
    let steps = numbered_name(alloc, out.as_str(), number)?;
    Ok(outside.is_one_file(report, steps.as_str()))
}

/// Whether a file is one of those that are read.
pub fn is_read<O: Outside>(outside: &O, name: &str, exploring: &Exploring<'_>) -> bool
    ensures cfg { name.now ≡ exploring.now.cfg.now → IsTrue result }
    ensures src { name.now ≡ exploring.now.src.now → IsTrue result }
    ensures expect { IfSome exploring.now.expect (λ read. name.now ≡ read.now → IsTrue result) }
    ensures apart { result ≡ false → spec.IsApart exploring.now name.now }
{
    if let Some(expect) = exploring.expect
        && outside.is_one_file(name, expect)
    {
        return true;
    }
    outside.is_one_file(name, exploring.cfg) || outside.is_one_file(name, exploring.src)
}

/// Whether the file at a place among these is one of those that are read.
fn is_read_at<O: Outside>(
    outside: &O,
    names: &[String],
    place: usize,
    exploring: &Exploring<'_>,
) -> bool
    requires { place < length names.now }
    ensures { result ≡ false →
        IfSome (slice_get names.now place) (λ name. spec.IsApart exploring.now (string_bytes name)) }
{
    is_read(outside, names[place].as_str(), exploring)
}

/// Whether one of these files is one of those that are read.
pub fn is_over_input<O: Outside>(outside: &O, names: &[String], exploring: &Exploring<'_>) -> bool
    ensures { result ≡ false → AllByRecursion (spec.IsApart exploring.now) (map string_bytes names.now) }
{
    for i in 0..names.len() {
        if is_read_at(outside, names, i, exploring) {
            return true;
        }
    }
    false
}

/// Writes the steps text at a place to the file of the name at this place.
fn write_at<O: Outside>(
    alloc: Global,
    outside: &mut O,
    names: &[String],
    texts: &[Vec<u8>],
    place: usize,
) -> Result<(), Failure>
    requires names { place < length names.now }
    requires texts { place < length texts.now }
    ensures quiet { PrintsNothing (O.done outside.old) (O.done outside.new) }
    ensures only { DoesOnly (IsWriteOf (map string_bytes names.now)) (O.done outside.old) (O.done outside.new) }
    ensures fronts { DoesOnly (WritesFront (map string_bytes names.now) (map (λ text. text.items) texts.now))
        (O.done outside.old) (O.done outside.new) }
    ensures written { OnOk result (IfSome (slice_get names.now place) (λ name. IfSome (slice_get texts.now place)
        (λ text. Does (O.done outside.old) (wrote (string_bytes name) text.items ∷ []) (O.done outside.new)))) }
{
    write_file(alloc, outside, names[place].as_str(), &texts[place])
}

/// Writes steps texts to the files of these names, up to the first that cannot be written.
pub fn write_steps<O: Outside>(
    alloc: Global,
    outside: &mut O,
    names: &[String],
    texts: &[Vec<u8>],
) -> Result<(), Failure>
    ensures quiet { PrintsNothing (O.done outside.old) (O.done outside.new) }
    ensures only { DoesOnly (IsWriteOf (map string_bytes names.now)) (O.done outside.old) (O.done outside.new) }
    ensures fronts { DoesOnly (WritesFront (map string_bytes names.now) (map (λ text. text.items) texts.now))
        (O.done outside.old) (O.done outside.new) }
    ensures written { OnOk result (Does (O.done outside.old)
        (spec.files_written (map string_bytes names.now) (map (λ text. text.items) texts.now)) (O.done outside.new)) }
{
    let count = names.len().min(texts.len());
    for i in 0..count {
        write_at(alloc, outside, names, texts, i)?;
    }
    Ok(())
}

/// Whether a file has a steps text, and is none of those that are read.
fn is_steps<O: Outside>(
    alloc: Global,
    outside: &O,
    name: &str,
    exploring: &Exploring<'_>,
    processors: u8,
) -> bool
    ensures { IsTrue result → spec.IsApart exploring.now name.now }
{
    if is_read(outside, name, exploring) {
        return false;
    }
    match outside.read(alloc, name, None) {
        Ok(text) => read_steps(alloc, &text, processors).is_ok(),
        Err(_) => false,
    }
}

/// Removes the file of steps of this number, of an earlier search with more, or says that it cannot be removed.
fn remove<O: Outside>(outside: &mut O, files: StepsFiles<'_>, number: usize, name: &str)
    requires later { files.count < number }
    requires name { name.now ≡ steps_name files.out.now number }
    requires apart { spec.IsApart files.exploring.now name.now }
    ensures { spec.RemovesSteps files.entry.exploring.now files.entry.out.now files.entry.count
        (O.done outside.old) (O.done outside.new) }
{
    match outside.remove(name) {
        Ok(_) => {}
        Err(_) => {
            outside.say(format_args!("{name} is of an earlier search, and cannot be removed\n"));
        }
    }
}

/// Removes the files of steps of an earlier search whose numbers go on after those of this one, up to the first number
/// for which there is none. A steps text is one for this many processors. `AllocError` if memory runs out.
pub fn remove_earlier<O: Outside>(
    alloc: Global,
    outside: &mut O,
    files: StepsFiles<'_>,
    processors: u8,
) -> Result<(), AllocError>
    ensures { spec.RemovesSteps files.entry.exploring.now files.entry.out.now files.entry.count
        (O.done outside.old) (O.done outside.new) }
{
    for i in files.count..usize::MAX {
        let name = steps_name_of(alloc, files.out, i + 1)?;
        if !is_steps(alloc, outside, name.as_str(), files.exploring, processors) {
            return Ok(());
        }
        remove(outside, files, i + 1, name.as_str());
    }
    Ok(())
}
