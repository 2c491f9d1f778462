//! The reader of recordings.
ghost use Rattle.std.specs.Prelude.{◌≡◌, ◌≤◌, ◌++◌, ◌∷◌, [], IfErr, IfOk, MatchOption, None, Ok, OnOk, Some, suc, take};
ghost use Rattle.std.specs.Prelude.{ℕ};
ghost use Rattle.std.specs.Str.{bytes_eq};
ghost use Rattle.fmp_base.specs.Words.{service_named};
ghost use Rattle.fmp_recording.specs.Recordings.{IsFaultOf, act_in as spec_act, arguments_in, call_in as spec_call};
ghost use Rattle.fmp_recording.specs.Recordings.{came, end_in as spec_end, fault_in as spec_fault};
ghost use Rattle.fmp_recording.specs.Recordings.{given_in as spec_given, in_front_of, int_in as spec_int};
ghost use Rattle.fmp_recording.specs.Recordings.{is_restart as spec_restart, line_meaning, line_times};
ghost use Rattle.fmp_recording.specs.Recordings.{recorded_at as spec_at, recorded_in as spec_recorded, recorded_of};
ghost use Rattle.fmp_recording.specs.Recordings.{recording_of, run_in as spec_run, tick_in as spec_tick, times_of};

use crate::cutting::{first_line, first_word};
use crate::faults::{RecordingFault, RecordingFlaw};
use crate::numbers::{number_in, ranged_in};
use crate::recorded::RecordedLine;
use crate::timing::{time_of, time_or_none, without_time};
use fmp_base::words::find_service;
use fmp_base::{Call, Fault};
use fmp_outside::{Act, Given};
use std::alloc::{AllocError, Global};

/// The greatest number of lines: a kernel takes as many events.
pub const MOST_LINES: u32 = 1 << 31;

/// The greatest number of an interrupt.
const INTERRUPTS: u8 = 32;

/// The first argument of those that are left, after its blank, and what is left after it.
#[tactic(auto, using(crate::proofs::LineByLine::no_argument, crate::proofs::LineByLine::bad_argument))]
fn next_argument(rest: &[u8]) -> Option<(i32, &[u8])>
    ensures { MatchOption result ((n : ℕ) → arguments_in (suc n) rest.now ≡ None)
        (λ next. (n : ℕ) → arguments_in (suc n) rest.now ≡ in_front_of (Some next.0) (arguments_in n next.1.now)) }
{
    let [_, text @ ..] = rest else {
        return None;
    };
    let (word, after) = first_word(text);
    Some((number_in(word)?, after))
}

/// This number of arguments, each after a blank, with nothing after them. Zeros stand after them in the array.
#[tactic(auto, using(crate::proofs::LineByLine::no_number, crate::proofs::LineByLine::next_number, crate::proofs::LineByLine::all_numbers, crate::proofs::LineByLine::more_numbers))]
fn read_arguments(count: u8, text: &[u8]) -> Option<[i32; 4]>
    requires { count ≤ 4 }
    ensures { MatchOption result (arguments_in count text.now ≡ None)
        (λ numbers. arguments_in count text.now ≡ Some (take count numbers)) }
{
    let mut numbers = [0; 4];
    let mut rest = text;
    for place in 0..count {
        let (number, after) = next_argument(rest)?;
        numbers[place as usize] = number;
        rest = after;
    }
    if rest.is_empty() { Some(numbers) } else { None }
}

/// The call of this name with the arguments that stand after it.
#[tactic(auto, using(crate::proofs::Padding::padded_array))]
fn call_in(word: &[u8], rest: &[u8]) -> Option<Act>
    ensures { result ≡ spec_call (service_named word.now) rest.now }
{
    let service = find_service(word)?;
    let arguments = read_arguments(service.arity(), rest)?;
    Some(Act::Call(Call::request(service, arguments)))
}

/// The fault whose name stands after a blank.
fn fault_in(rest: &[u8]) -> Option<Act>
    ensures { result ≡ spec_fault rest.now }
{
    let [_, word @ ..] = rest else {
        return None;
    };
    Some(Act::Fault(Fault::named(word)?))
}

/// An end, if nothing stands after it.
fn end_in(rest: &[u8]) -> Option<Act>
    ensures { result ≡ spec_end rest.now }
{
    if rest.is_empty() {
        Some(Act::End)
    } else {
        None
    }
}

/// Whether two words are the same.
fn is_same_word(word: &[u8], name: &[u8]) -> bool
    ensures { result ≡ bytes_eq word.now name.now }
{
    word == name
}

/// What a body does, as it stands after a blank.
#[tactic(auto, using(crate::proofs::LineByLine::a_call))]
fn act_in(rest: &[u8]) -> Option<Act>
    ensures { result ≡ spec_act rest.now }
{
    let [_, text @ ..] = rest else {
        return None;
    };
    let (word, rest) = first_word(text);
    if is_same_word(word, b"end") {
        end_in(rest)
    } else if is_same_word(word, b"fault") {
        fault_in(rest)
    } else {
        call_in(word, rest)
    }
}

/// What stands after `run`.
fn run_in(processors: u8, rest: &[u8]) -> Result<Given, RecordingFlaw>
    ensures { result ≡ spec_run processors rest.now }
{
    let [_, text @ ..] = rest else {
        return Err(RecordingFlaw::Form);
    };
    let (word, rest) = first_word(text);
    let p = ranged_in(word, processors)?;
    match act_in(rest) {
        Some(act) => Ok(Given::Act(p, act)),
        None => Err(RecordingFlaw::Form),
    }
}

/// What stands after `int`.
fn int_in(rest: &[u8]) -> Result<Given, RecordingFlaw>
    ensures { result ≡ spec_int rest.now }
{
    let [_, word @ ..] = rest else {
        return Err(RecordingFlaw::Form);
    };
    Ok(Given::Int(ranged_in(word, INTERRUPTS)?))
}

/// A tick, if nothing stands after it.
fn tick_in(rest: &[u8]) -> Result<Given, RecordingFlaw>
    ensures { result ≡ spec_tick rest.now }
{
    if rest.is_empty() {
        Ok(Given::Tick)
    } else {
        Err(RecordingFlaw::Form)
    }
}

/// What a text says that comes.
fn given_in(text: &[u8], processors: u8) -> Result<Given, RecordingFlaw>
    ensures { result ≡ spec_given processors text.now }
{
    let (word, rest) = first_word(text);
    match word {
        b"run" => run_in(processors, rest),
        b"int" => int_in(rest),
        b"tick" => tick_in(rest),
        _ => Err(RecordingFlaw::Form),
    }
}

/// What a line says: what comes, and maybe when it came.
fn said_in(line: &[u8], processors: u8) -> Result<Given, RecordingFlaw>
    ensures { result ≡ line_meaning processors line.now }
{
    let given = given_in(without_time(line), processors)?;
    match time_of(line) {
        Ok(_) => Ok(given),
        Err(flaw) => Err(flaw),
    }
}

/// Whether a line says that the counts began again.
fn is_restart(line: &[u8]) -> bool
    ensures { result ≡ spec_restart line.now }
{
    is_same_word(line, b"restart")
}

/// What a line of a recording says.
fn recorded_in(line: &[u8], processors: u8) -> Result<RecordedLine, RecordingFlaw>
    ensures { result ≡ spec_recorded processors line.now }
{
    if is_restart(line) {
        return Ok(RecordedLine::Restart);
    }
    match said_in(line, processors) {
        Ok(given) => Ok(RecordedLine::Came(given)),
        Err(flaw) => Err(flaw),
    }
}

/// What the line of this number says.
fn recorded_at(line: &[u8], number: u32, processors: u8) -> Result<RecordedLine, RecordingFault>
    ensures { result ≡ spec_at processors number line.now }
{
    if number > MOST_LINES {
        return Err(RecordingFault::TooMany { line: number });
    }
    match recorded_in(line, processors) {
        Ok(recorded) => Ok(recorded),
        Err(RecordingFlaw::Form) => Err(RecordingFault::Line { line: number }),
        Err(RecordingFlaw::Range) => Err(RecordingFault::Range { line: number }),
    }
}

/// Reads the lines of a recording, each ended by a line feed, which the last may lack. A line says what comes and maybe
/// when, or is `restart`: the counts began again there. The fault is that of the first faulty line, unless memory runs
/// out first.
pub fn read_lines(
    alloc: Global,
    text: &[u8],
    processors: u8,
) -> Result<Vec<RecordedLine>, RecordingFault>
    ensures ok { IfOk result (λ lines. recorded_of processors text.now ≡ Ok lines.items) }
    ensures fault { IfErr result (λ fault. IsFaultOf fault (recorded_of processors text.now)) }
{
    let mut lines = Vec::new(alloc);
    let mut rest = text;
    let mut number = 1;
    while !rest.is_empty() {
        let (line, after) = first_line(rest);
        let recorded = recorded_at(line, number, processors)?;
        lines.push(recorded).map_err(|_| RecordingFault::Memory)?;
        rest = after;
        number += 1;
    }
    Ok(lines)
}

/// Appends what a line says that came, if it says so.
fn append_came(line: RecordedLine, recording: &mut Vec<Given>) -> Result<(), AllocError>
    ensures { OnOk result (recording.new.items ≡ recording.old.items ++ came (line ∷ [])) }
{
    if let RecordedLine::Came(given) = line {
        recording.push(given)?;
    }
    Ok(())
}

/// Reads what a recording says that came, as `read_lines` reads its lines: a line `restart` says of nothing that came.
/// The fault is that of the first faulty line, unless memory runs out first. `read_times` reads the times.
pub fn read_recording(
    alloc: Global,
    text: &[u8],
    processors: u8,
) -> Result<Vec<Given>, RecordingFault>
    ensures ok { IfOk result (λ recording. recording_of processors text.now ≡ Ok recording.items) }
    ensures fault { IfErr result (λ fault. IsFaultOf fault (recording_of processors text.now)) }
{
    let mut recording = Vec::new(alloc);
    let mut rest = text;
    let mut number = 1;
    while !rest.is_empty() {
        let (line, after) = first_line(rest);
        let recorded = recorded_at(line, number, processors)?;
        append_came(recorded, &mut recording).map_err(|_| RecordingFault::Memory)?;
        rest = after;
        number += 1;
    }
    Ok(recording)
}

/// Appends the time of a line that says what came.
fn append_time(line: &[u8], times: &mut Vec<Option<u64>>) -> Result<(), AllocError>
    ensures { OnOk result (times.new.items ≡ times.old.items ++ line_times (line.now ∷ [])) }
{
    if is_restart(line) {
        return Ok(());
    }
    times.push(time_or_none(line))?;
    Ok(())
}

/// The times of what a recording says that came, in microseconds since the start; none of a line that does not say its
/// time. `AllocError` if memory runs out.
pub fn read_times(alloc: Global, text: &[u8]) -> Result<Vec<Option<u64>>, AllocError>
    ensures { IfOk result (λ times. times.items ≡ times_of text.now) }
{
    let mut times = Vec::new(alloc);
    let mut rest = text;
    while !rest.is_empty() {
        let (line, after) = first_line(rest);
        append_time(line, &mut times)?;
        rest = after;
    }
    Ok(times)
}
