//! Carrying out a command over files: what it reads is judged, and then its file is written.
ghost use Rattle.std.specs.Prelude.{◌≡◌, ◌≢◌, ◌∷◌, [], None, IfErr, IfOk, IsTrue, OnErr, OnOk, length, map};
ghost use Rattle.fmp_engine.specs.Counts.{CountsSteps};
ghost use Rattle.fmp.specs.CommandRanges.{KeepsRanges};
ghost use Rattle.fmp_files.specs.Deeds.{Does};
ghost use Rattle.fmp_files.specs.Endings.{IsFailureAt, IsFailureOf};
ghost use Rattle.fmp.specs.Commands.{input_count, inputs_of, output_of};
ghost use Rattle.fmp.specs.Performed.{CarriesOut, IsWhyNot};
ghost use Rattle.fmp.specs.Runs.{AreFronts, AreInputs, BeginsFile, CarriedOut, Fails, tells, writes_to};

use crate::asking::Cmd;
use crate::perform::{Exit, Made, perform};
use fmp_engine::EventCounts;
use fmp_files::{Failure, Outside, read_file, write_file};
use fmp_hostrun::Pace;
use std::alloc::{AllocError, Global};
use std::sync::Wait;
use std::thread::Threads;

/// The limit of a text, in bytes. At most one byte more is read of it.
const TEXT_MAX: usize = 1_048_576;

/// The front of one file, as the only text.
fn read_one<O: Outside>(
    alloc: Global,
    outside: &O,
    name: &str,
    limit: Option<usize>,
) -> Result<Vec<Vec<u8>>, Failure>
    ensures texts { IfOk result (λ texts.
        AreFronts (O.files outside.now) limit (name.now ∷ []) (map (λ t. t.items) texts.items)) }
    ensures failure { IfErr result (IsFailureOf (O.files outside.now) (name.now ∷ [])) }
{
    let texts = [read_file(alloc, outside, name, limit)?];
    Vec::from_array(alloc, texts).map_err(|_| Failure::Memory(AllocError))
}

/// The fronts of two files.
fn read_two<O: Outside>(
    alloc: Global,
    outside: &O,
    first: &str,
    second: &str,
    limit: Option<usize>,
) -> Result<Vec<Vec<u8>>, Failure>
    ensures texts { IfOk result (λ texts.
        AreFronts (O.files outside.now) limit (first.now ∷ second.now ∷ []) (map (λ t. t.items) texts.items)) }
    ensures failure { IfErr result (IsFailureOf (O.files outside.now) (first.now ∷ second.now ∷ [])) }
{
    let texts = [
        read_file(alloc, outside, first, limit)?,
        read_file(alloc, outside, second, limit)?,
    ];
    Vec::from_array(alloc, texts).map_err(|_| Failure::Memory(AllocError))
}

/// Reads the files that a command names, in order of its words: of a text up to one byte past its limit, of an image or
/// steps all. An error names one of the files, on which a call failed, or is out of memory.
pub fn read_inputs<O: Outside>(
    alloc: Global,
    outside: &O,
    cmd: &Cmd,
) -> Result<Vec<Vec<u8>>, Failure>
    ensures texts { IfOk result (λ texts. AreInputs (O.files outside.now) cmd.now (map (λ t. t.items) texts.items)) }
    ensures failure { IfErr result (IsFailureOf (O.files outside.now) (inputs_of cmd.now)) }
{
    match cmd {
        Cmd::Check { config, tasks } | Cmd::Build { config, tasks, .. } => {
            read_two(alloc, outside, config, tasks, Some(TEXT_MAX))
        }
        Cmd::Sim { image, steps, .. } => read_two(alloc, outside, image, steps, None),
        Cmd::Host { image, .. } => read_one(alloc, outside, image, None),
        Cmd::Stored => Ok(Vec::new(alloc)),
    }
}

/// Texts, borrowed from those that own them.
pub fn borrowed<'a>(alloc: Global, texts: &'a [Vec<u8>]) -> Result<Vec<&'a [u8]>, AllocError>
    ensures { IfOk result (λ inputs. map (λ s. s.now) inputs.items ≡ map (λ t. t.items) texts.now) }
{
    let mut inputs = Vec::new(alloc);
    for text in texts {
        inputs.push(text.as_slice())?;
    }
    Ok(inputs)
}

/// What a command writes to its file, and what it prints, given what was read.
fn performed<P: Pace, R: Threads + Wait + Sync>(
    rt: &R,
    alloc: Global,
    cmd: &Cmd,
    texts: &[Vec<u8>],
    pace: &P,
) -> Result<Made, Exit>
    requires writes { output_of cmd.now ≢ None }
    requires inputs { length texts.now ≡ input_count cmd.now }
    requires ranges { KeepsRanges cmd.now }
    ensures ok { IfOk result (λ made.
        CarriesOut cmd.now (map (λ t. t.items) texts.now) made.file.items made.out.items) }
    ensures counts { IfOk result (λ made. IsTrue (tells cmd.now) → CountsSteps made.file.items made.counts) }
    ensures err { IfErr result (IsWhyNot cmd.now (map (λ t. t.items) texts.now)) }
{
    match borrowed(alloc, texts) {
        Ok(inputs) => perform(rt, alloc, cmd, &inputs, pace),
        Err(error) => Err(Exit::Failed(Failure::Memory(error))),
    }
}

/// Writes the file that a command names for it. After an error, which names that file or is out of memory, the file may
/// have a beginning of the bytes.
pub fn write_output<O: Outside>(
    alloc: Global,
    outside: &mut O,
    cmd: &Cmd,
    bytes: &[u8],
) -> Result<(), Failure>
    requires writes { output_of cmd.now ≢ None }
    ensures ok { OnOk result
        (Does (O.done outside.old) (writes_to (output_of cmd.now) bytes.now) (O.done outside.new)) }
    ensures begun { OnErr result (BeginsFile (output_of cmd.now) bytes.now (O.done outside.old) (O.done outside.new)) }
    ensures failure { IfErr result (IsFailureAt (O.files outside.old) (output_of cmd.now)) }
    ensures output { O.output_can_fail outside.new ≡ O.output_can_fail outside.old }
{
    let (Cmd::Build { image: name, .. } | Cmd::Host { journal: name, .. }) = cmd else {
        unreachable!()
    };
    write_file(alloc, outside, name, bytes)
}

/// Reads the files of a command that writes one, carries it out, writes its file, and gives what is to be printed, and
/// how many events of each kind the journal of a host has. An error is why what was read is refused, a file on which a
/// call failed, or out of memory. A host goes at this pace.
pub fn carry_out<O: Outside, P: Pace, R: Threads + Wait + Sync>(
    rt: &R,
    alloc: Global,
    outside: &mut O,
    cmd: &Cmd,
    pace: &P,
) -> Result<(Vec<u8>, EventCounts), Exit>
    requires writes { output_of cmd.now ≢ None }
    requires ranges { KeepsRanges cmd.now }
    ensures ok { IfOk result (λ made.
        CarriedOut (O.files outside.old) cmd.now (O.done outside.old) (O.done outside.new) made.0.items made.1) }
    ensures err { IfErr result (Fails (O.files outside.old) cmd.now (O.done outside.old) (O.done outside.new)) }
    ensures output { O.output_can_fail outside.new ≡ O.output_can_fail outside.old }
{
    let texts = read_inputs(alloc, outside, cmd)?;
    let Made { file, out, counts } = performed(rt, alloc, cmd, &texts, pace)?;
    write_output(alloc, outside, cmd, &file)?;
    Ok((out, counts))
}
