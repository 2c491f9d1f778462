//! A run of the program, from the words of its command line to its status.
ghost use Rattle.std.specs.Prelude.{◌≡◌, ◌≢◌, ◌⊎◌, IsTrue, IsFalse, IfOk, None, length, map, string_bytes};
ghost use Rattle.fmp.specs.CommandRanges.{KeepsRanges};
ghost use Rattle.fmp_files.specs.Deeds.{Says};
ghost use Rattle.fmp_files.specs.Endings.{SaysMemory};
ghost use Rattle.fmp.specs.Commands.{input_count, output_of};
ghost use Rattle.fmp.specs.Runs.{AreInputs, CanBeOver, Ends, EndsCommand, KeepsInputs, SaysWhatCame, tells};

use crate::asking::{Cmd, command, image_over_text, journal_over_image};
use crate::carrying::{borrowed, carry_out, read_inputs};
use crate::pacing::Pacer;
use crate::perform::CommandCut;
use crate::printing::print_performed;
use crate::progress::Arrivals;
use crate::refusing::refuse_form;
use fmp_engine::EventCounts;
use fmp_files::{Failure, Outside, end, failed, print, refuse_mistake};
use std::alloc::{AllocError, Global};
use std::io::Input;
use std::sync::Wait;
use std::thread::Threads;
use std::time::Clock;

/// Whether the file that a command writes is one that it reads.
#[tactic(auto, using(crate::proofs::Over::one_file, crate::proofs::Over::two_files))]
fn is_over_input<O: Outside>(outside: &O, cmd: &Cmd) -> bool
    ensures kept { IsFalse result → KeepsInputs (O.files outside.now) cmd.now }
    ensures over { IsTrue result → CanBeOver (O.files outside.now) cmd.now }
{
    match cmd {
        Cmd::Build {
            config,
            tasks,
            image,
        } => outside.is_one_file(image, config) || outside.is_one_file(image, tasks),
        Cmd::Host { image, journal, .. } => outside.is_one_file(journal, image),
        _ => false,
    }
}

/// Says that the file that a command writes would replace one that it reads.
fn refuse_over_input<O: Outside>(alloc: Global, outside: &mut O, cmd: &Cmd) -> u8
    ensures { (Says (O.done outside.old) (O.done outside.new) × (result ≡ 2))
        ⊎ (SaysMemory (O.done outside.old) (O.done outside.new) × (result ≡ 3)) }
{
    let mistake = match cmd {
        Cmd::Host { .. } => journal_over_image(alloc),
        _ => image_over_text(alloc),
    };
    refuse_mistake(outside, mistake)
}

/// Carries out a command that writes no file, prints what it prints while it goes on, and gives the status.
fn show<O: Outside>(alloc: Global, outside: &mut O, cmd: &Cmd, texts: &[Vec<u8>]) -> u8
    requires fileless { output_of cmd.now ≡ None }
    requires inputs { length texts.now ≡ input_count cmd.now }
    requires ranges { KeepsRanges cmd.now }
    requires read { AreInputs (O.files outside.old) cmd.now (map (λ t. t.items) texts.now) }
    ensures { EndsCommand (O.files outside.old) (O.output_can_fail outside.old) cmd.now
        (O.done outside.old) (O.done outside.new) result }
{
    let inputs = match borrowed(alloc, texts) {
        Ok(inputs) => inputs,
        Err(error) => return end(outside, &Failure::Memory(error)),
    };
    match print_performed(alloc, outside, cmd, &inputs) {
        Ok(()) => 0,
        Err(CommandCut::Refused(exit)) => end(outside, &exit),
        Err(CommandCut::Stopped) => end(outside, &failed(alloc, "-")),
    }
}

/// Reads the files of a command that writes none, carries it out and prints, and gives the status.
fn read_and_show<O: Outside>(alloc: Global, outside: &mut O, cmd: &Cmd) -> u8
    requires fileless { output_of cmd.now ≡ None }
    requires ranges { KeepsRanges cmd.now }
    ensures { EndsCommand (O.files outside.old) (O.output_can_fail outside.old) cmd.now
        (O.done outside.old) (O.done outside.new) result }
{
    match read_inputs(alloc, outside, cmd) {
        Ok(texts) => show(alloc, outside, cmd, &texts),
        Err(failure) => end(outside, &failure),
    }
}

/// Whether it is said what came of a command.
fn tells(cmd: &Cmd) -> bool
    ensures { result ≡ tells cmd.now }
{
    match cmd {
        Cmd::Host {
            tick_us,
            interrupt,
            ..
        } => tick_us.is_some() || interrupt.is_some(),
        _ => false,
    }
}

/// Says what came of a command, if that is to be said: the events of its journal, and the lines that its pacer took.
fn say_arrivals<O: Outside, R: Wait>(
    outside: &mut O,
    cmd: &Cmd,
    events: EventCounts,
    pacer: &Pacer<'_, R>,
)
    ensures { SaysWhatCame cmd.now events (O.done outside.old) (O.done outside.new) }
{
    if tells(cmd) {
        let lines = pacer.lines();
        outside.say(Arrivals { events, lines });
    }
}

/// Carries out a command that writes a file, writes it and then prints, and gives the status.
fn write_and_print<O: Outside, R: Threads + Wait + Clock + Input + Copy + Send + Sync + 'static>(
    rt: &R,
    alloc: Global,
    outside: &mut O,
    cmd: &Cmd,
) -> u8
where
    R::Reader: Send + 'static,
    requires ranges { KeepsRanges cmd.now }
    requires writes { output_of cmd.now ≢ None }
    requires kept { KeepsInputs (O.files outside.old) cmd.now }
    ensures { EndsCommand (O.files outside.old) (O.output_can_fail outside.old) cmd.now
        (O.done outside.old) (O.done outside.new) result }
{
    let pacer = match Pacer::new(rt, alloc, cmd) {
        Ok(pacer) => pacer,
        Err(error) => return end(outside, &Failure::Memory(error)),
    };
    pacer.start_reading();
    match carry_out(rt, alloc, outside, cmd, &pacer) {
        Ok((out, counts)) => {
            let status = print(alloc, outside, &out);
            say_arrivals(outside, cmd, counts, &pacer);
            status
        }
        Err(exit) => end(outside, &exit),
    }
}

/// Does what a command asks for, and gives the status. Where it writes a file, it prints once that is written, and else
/// while it goes on.
fn run_command<O: Outside, R: Threads + Wait + Clock + Input + Copy + Send + Sync + 'static>(
    rt: &R,
    alloc: Global,
    outside: &mut O,
    cmd: &Cmd,
) -> u8
where
    R::Reader: Send + 'static,
    requires { KeepsRanges cmd.now }
    ensures { EndsCommand (O.files outside.old) (O.output_can_fail outside.old) cmd.now
        (O.done outside.old) (O.done outside.new) result }
{
    if is_over_input(outside, cmd) {
        return refuse_over_input(alloc, outside, cmd);
    }
    match cmd {
        Cmd::Build { .. } | Cmd::Host { .. } => write_and_print(rt, alloc, outside, cmd),
        Cmd::Check { .. } | Cmd::Sim { .. } | Cmd::Stored => read_and_show(alloc, outside, cmd),
    }
}

/// The same words, borrowed.
fn borrowed_words<'a>(alloc: Global, words: &'a [String]) -> Result<Vec<&'a str>, AllocError>
    ensures { IfOk result (λ texts. map (λ text. text.now) texts.items ≡ map string_bytes words.now) }
{
    let mut texts = Vec::new(alloc);
    for word in words {
        texts.push(word.as_str())?;
    }
    Ok(texts)
}

/// Does what the words of a command line ask for, of which the first is the program's name, and gives the status: 0 if
/// it is done, 1 for a fault of what was read or if there is no host for what was asked, 2 for a mistake in the words,
/// 3 for a file on which a call failed, or if memory runs out.
pub fn run<O: Outside, R: Threads + Wait + Clock + Input + Copy + Send + Sync + 'static>(
    rt: &R,
    alloc: Global,
    outside: &mut O,
    words: &[String],
) -> u8
where
    R::Reader: Send + 'static,
    ensures { Ends (O.files outside.old) (O.output_can_fail outside.old) (map string_bytes words.now)
        (O.done outside.old) (O.done outside.new) result }
{
    let texts = match borrowed_words(alloc, words) {
        Ok(texts) => texts,
        Err(error) => return end(outside, &Failure::Memory(error)),
    };
    match command(alloc, &texts) {
        Ok(cmd) => run_command(rt, alloc, outside, &cmd),
        Err(error) => refuse_form(alloc, outside, &texts, &error),
    }
}
