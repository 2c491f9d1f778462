//! What the commands do: `carry_out` reads the command from parsed words, `run_command` runs it, and `run_look` runs
//! each but `explore`.
ghost use Rattle.std.specs.Prelude.{◌≡◌, IsSome, List, Some, codes};
ghost use Rattle.clap.specs.Words.{Row, subcommand_rows_of};
ghost use Rattle.fmp_searching.specs.Claimed.{HoldsOfWords};
ghost use Rattle.fmp_searching.specs.Shown.{ExploresWords};
ghost use Rattle.fmp_looking.specs.TestDeeds.{IsDone};
ghost use Rattle.fmp_view.specs.Asked.{AsksToDiff, AsksToExpect, AsksToExplore, AsksToTest, AsksToWhy};
ghost use Rattle.fmp_view.specs.Commands.{DiffOfWords, EndsLook, ExpectOfWords, TestOfWords, WhyOfWords};
ghost use Rattle.fmp_view.specs.Verdicts.{EndsWhy};

use crate::asking::{Asked, Cmd, Picturing, RunFiles, command};
use crate::differing::print_diff;
use crate::expecting::run_expect;
use crate::exporting::run_export;
use crate::importing::run_import;
use crate::runs::{is_read, is_this_file, made_of_run, write};
use crate::targeting::run_target;
use crate::telling::{print_made, print_run};
use crate::testing::run_test;
use crate::texts::{run_step, run_texts};
use crate::word_mistakes::{dump_over_input, no_code, picture_of_nothing, picture_over_input};
use clap::ArgMatches;
use fmp_files::{Device, Failure, Outside, end, print, read_file, refuse_mistake};
use fmp_frames::CallPosition;
use fmp_looking::{
    DrivenText, Driving, Format, NamedText, Picture, PictureCut, RunOutput, Stats, StepsRun,
    Titled, ViewExit, Why, code, exit_over, positions_of_run, refused_in_run, steps,
};
use fmp_searching::{print_fault, read_both, run_explore};
use fmp_server::serve;
use fmp_warnings::Form;
use std::alloc::{AllocError, Global};
use std::io::{Input, IsTerminal};
use std::rt::Files;
use std::thread::Threads;
use std::time::Clock;

/// What a drive of the image of a file prints, and how it ended.
fn driven_steps<O: Outside>(
    alloc: Global,
    outside: &O,
    image: &str,
    driving: Driving,
) -> Result<DrivenText, ViewExit> {
    let image = read_file(alloc, outside, image, None)?;
    match steps(alloc, &image, driving) {
        Ok(driven) => Ok(driven),
        Err(fault) => Err(exit_over(alloc, fault, &image)),
    }
}

/// Prints steps that run the image of a file, and says how their drive ended.
fn run_drive<O: Outside>(alloc: Global, outside: &mut O, image: &str, driving: Driving) -> u8 {
    match driven_steps(alloc, outside, image, driving) {
        Ok(driven) => {
            let ending = Some(driven.ending);
            print_run(alloc, outside, &driven.steps, ending, &driven.why)
        }
        Err(exit) => end(outside, &exit),
    }
}

/// A run in a format for viewers.
fn waves_of<O: Outside>(
    alloc: Global,
    outside: &O,
    run: RunFiles<'_>,
    format: Format,
) -> Result<Vec<u8>, ViewExit> {
    match format {
        Format::Dump => made_of_run(alloc, outside, run, &RunOutput::Dump),
        Format::Trace(format) => made_of_run(alloc, outside, run, &format),
    }
}

/// Writes a run for viewers to its file.
fn write_waves<O: Outside>(
    alloc: Global,
    outside: &mut O,
    run: RunFiles<'_>,
    out: &str,
    format: Format,
) -> u8 {
    if is_read(outside, out, run) {
        return refuse_mistake(outside, dump_over_input(alloc));
    }
    match waves_of(alloc, outside, run, format) {
        Ok(waves) => write(alloc, outside, out, &waves),
        Err(exit) => end(outside, &exit),
    }
}

/// The title of a picture: the name of its image, without folders and without what follows the last dot.
fn title_of(image: &str) -> &str {
    let file = match image.rsplit_once('/') {
        Some((_, file)) => file,
        None => image,
    };
    match file.rsplit_once('.') {
        Some((stem, _)) if !stem.is_empty() => stem,
        _ => file,
    }
}

/// Prints what each task of a run waits or spins for after an event.
fn print_why<O: Outside>(
    alloc: Global,
    outside: &mut O,
    run: RunFiles<'_>,
    at: Option<u32>,
    form: Form,
) -> u8
    ensures { IsDone result → EndsWhy (O.files outside.old) run.entry (record { at = at; form = form })
        (O.done outside.old) (O.done outside.new) result }
{
    let made = made_of_run(alloc, outside, run, &Why { at, form });
    print_made(alloc, outside, made)
}

/// The lines of the calls that are refused in a run, by where they stand in the text of a file.
fn refused_by_text<O: Outside>(
    alloc: Global,
    outside: &O,
    run: StepsRun<'_>,
    name: &str,
    form: Form,
) -> Result<Vec<u8>, ViewExit> {
    let text = read_file(alloc, outside, name, None)?;
    let source = NamedText { name, text: &text };
    refused_in_run(alloc, form, run, Some(source))
}

/// The lines of the calls that are refused in a run; none of a recording, whose bodies are not known.
fn refused_lines<O: Outside>(
    alloc: Global,
    outside: &O,
    run: RunFiles<'_>,
    src: Option<&str>,
    form: Form,
) -> Result<Vec<u8>, ViewExit> {
    let RunFiles::Steps {
        image,
        steps,
        bound,
    } = run
    else {
        return Ok(Vec::new(alloc));
    };
    let (image, steps) = read_both(alloc, outside, image, steps)?;
    let run = StepsRun {
        image: &image,
        steps: &steps,
        bound,
    };
    match src {
        Some(name) => refused_by_text(alloc, outside, run, name, form),
        None => refused_in_run(alloc, form, run, None),
    }
}

/// The table of a run, and the calls that are refused: after an empty line, or as further objects.
fn stats_of<O: Outside>(
    alloc: Global,
    outside: &O,
    run: RunFiles<'_>,
    src: Option<&str>,
    form: Form,
) -> Result<Vec<u8>, ViewExit> {
    let mut text = made_of_run(alloc, outside, run, &Stats(form))?;
    let refused = refused_lines(alloc, outside, run, src, form)?;
    match joined(form, &mut text, &refused) {
        Ok(()) => Ok(text),
        Err(error) => Err(ViewExit::Failed(Failure::Memory(error))),
    }
}

/// Appends the lines of calls that are refused to a table, if there are some.
fn joined(form: Form, table: &mut Vec<u8>, refused: &[u8]) -> Result<(), AllocError> {
    if matches!(form, Form::Text) && !refused.is_empty() {
        table.push(b'\n')?;
    }
    table.extend_from_slice(refused)
}

/// Prints the table of a run, and the calls that are refused.
fn print_stats<O: Outside>(
    alloc: Global,
    outside: &mut O,
    run: RunFiles<'_>,
    src: Option<&str>,
    form: Form,
) -> u8 {
    let made = stats_of(alloc, outside, run, src, form);
    print_made(alloc, outside, made)
}

/// What is printed of a recorded run.
fn print_recorded<O: Outside>(alloc: Global, outside: &mut O, run: RunFiles<'_>, form: Form) -> u8 {
    match made_of_run(alloc, outside, run, &form) {
        Ok(traced) => print_run(alloc, outside, &traced.text, None, &traced.why),
        Err(exit) => end(outside, &exit),
    }
}

/// Prints the table of the calls of a run.
fn print_calls<O: Outside>(alloc: Global, outside: &mut O, run: RunFiles<'_>) -> u8 {
    let made = made_of_run(alloc, outside, run, &RunOutput::Calls);
    print_made(alloc, outside, made)
}

/// Where the calls of a run stand in the text of a file; nothing where none is given, and of a recording.
fn positions_in<O: Outside>(
    alloc: Global,
    outside: &O,
    run: RunFiles<'_>,
    src: Option<&str>,
) -> Result<Vec<Option<CallPosition>>, ViewExit> {
    match (run, src) {
        (
            RunFiles::Steps {
                image,
                steps,
                bound,
            },
            Some(src),
        ) => {
            let src = read_file(alloc, outside, src, None)?;
            let (image, steps) = read_both(alloc, outside, image, steps)?;
            let run = StepsRun {
                image: &image,
                steps: &steps,
                bound,
            };
            positions_of_run(alloc, run, &src)
        }
        _ => Ok(Vec::new(alloc)),
    }
}

/// The picture of a run, with where its calls stand in the text of a file, if there is one.
fn run_timeline<O: Outside>(
    alloc: Global,
    outside: &O,
    picturing: Picturing<'_>,
) -> Result<Picture, ViewExit> {
    let (system, _) = picturing.run.files();
    let positions = positions_in(alloc, outside, picturing.run, picturing.src)?;
    let titled = Titled {
        title: title_of(system).as_bytes(),
        drawing: picturing.drawing,
        positions: &positions,
    };
    made_of_run(alloc, outside, picturing.run, &titled)
}

/// Says which events a picture has, where it has not all that were asked for.
fn say_cut<O: Outside>(outside: &mut O, cut: Option<PictureCut>) {
    if let Some(cut) = cut {
        outside.say(format_args!(
            "events {} to {} of {} to {} are drawn; --from {} draws those after them\n",
            cut.first,
            cut.last,
            cut.first,
            cut.end,
            cut.last.saturating_add(1)
        ));
    }
}

/// Writes a picture to its file.
fn write_timeline<O: Outside>(alloc: Global, outside: &mut O, picturing: Picturing<'_>) -> u8 {
    let out = picturing.out;
    if is_read(outside, out, picturing.run) || is_this_file(outside, out, picturing.src) {
        return refuse_mistake(outside, picture_over_input(alloc));
    }
    if picturing.drawing.choice.first > picturing.drawing.choice.last {
        return refuse_mistake(outside, picture_of_nothing(alloc));
    }
    match run_timeline(alloc, outside, picturing) {
        Ok(picture) => {
            say_cut(outside, picture.cut);
            write(alloc, outside, out, &picture.bytes)
        }
        Err(exit) => end(outside, &exit),
    }
}

/// Prints what the code that a word asks for means, and gives the status.
fn say_code<O: Outside>(alloc: Global, outside: &mut O, word: &str) -> u8 {
    match code(alloc, word) {
        Ok(Some(text)) => print(alloc, outside, &text),
        Ok(None) => refuse_mistake(outside, no_code(alloc, word)),
        Err(_) => end(outside, &Failure::Memory(AllocError)),
    }
}

/// Serves an editor over standard input and standard output, and gives the status.
fn run_server<O: Outside, R: Input>(alloc: Global, outside: &mut O, rt: &R) -> u8 {
    let mut source = Device::new(rt.reader());
    serve(alloc, outside, &mut source)
}

/// Runs a command other than `explore`, and gives the status.
fn run_look<O: Outside, R: Input + Files + Threads + Sync>(
    alloc: Global,
    outside: &mut O,
    rt: &R,
    asked: Asked<'_>,
) -> u8
where
    R::Reader: IsTerminal,
    ensures { IsDone result → EndsLook (O.files outside.old) asked.entry (O.done outside.old) (O.done outside.new)
        result }
{
    match asked {
        Asked::Export(exporting) => run_export(alloc, outside, rt, exporting),
        Asked::Target(targeting) => run_target(alloc, outside, rt, targeting),
        Asked::Import(importing) => run_import(alloc, outside, importing),
        Asked::Step(words) => run_step(alloc, outside, rt, words),
        Asked::Serve => run_server(alloc, outside, rt),
        Asked::Code(word) => say_code(alloc, outside, word),
        Asked::Fault(names, form) => print_fault(alloc, outside, names, form),
        Asked::Run(names, run, files) => run_texts(alloc, outside, names, run, files),
        Asked::Recorded(run, form) => print_recorded(alloc, outside, run, form),
        Asked::Calls(run) => print_calls(alloc, outside, run),
        Asked::Drive(image, driving) => run_drive(alloc, outside, image, driving),
        Asked::Why(run, at, form) => print_why(alloc, outside, run, at, form),
        Asked::Expect(run, expecting) => run_expect(alloc, outside, run, expecting),
        Asked::Test(testing) => run_test(alloc, outside, rt, &testing),
        Asked::Diff(runs) => print_diff(alloc, outside, runs),
        Asked::Stats(run, src, form) => print_stats(alloc, outside, run, src, form),
        Asked::Waves(run, out, format) => write_waves(alloc, outside, run, out, format),
        Asked::Timeline(picturing) => write_timeline(alloc, outside, picturing),
    }
}

/// Runs a command, and gives the status.
fn run_command<O: Outside, R: Input + Files + Clock + Threads + Sync>(
    alloc: Global,
    outside: &mut O,
    rt: &R,
    cmd: Cmd<'_>,
) -> u8
where
    R::Reader: IsTerminal,
    ensures explore { (rows : List Row) → AsksToExplore rows cmd.entry → result ≡ 0 →
        HoldsOfWords (O.files outside.old) rows (O.done outside.new) }
    ensures diff { (rows : List Row) → AsksToDiff rows cmd.entry → IsDone result →
        DiffOfWords (O.files outside.old) rows (O.done outside.old) (O.done outside.new) result }
    ensures why { (rows : List Row) → AsksToWhy rows cmd.entry → IsDone result →
        WhyOfWords (O.files outside.old) rows (O.done outside.old) (O.done outside.new) result }
    ensures expect { (rows : List Row) → AsksToExpect rows cmd.entry → IsDone result →
        ExpectOfWords (O.files outside.old) rows (O.done outside.old) (O.done outside.new) result }
    ensures tests { (rows : List Row) → AsksToTest rows cmd.entry → IsDone result →
        TestOfWords (O.files outside.old) rows (O.done outside.old) (O.done outside.new) result }
    ensures explores { (rows : List Row) → AsksToExplore rows cmd.entry →
        ExploresWords (O.files outside.old) rows (O.done outside.old) (O.done outside.new) }
{
    match cmd {
        Cmd::Explore(exploring) => run_explore(alloc, outside, rt, &exploring),
        Cmd::Look(asked) => run_look(alloc, outside, rt, asked),
    }
}

/// Does what the words of a command line ask for, and gives the status.
pub fn carry_out<O: Outside, R: Input + Files + Clock + Threads + Sync>(
    alloc: Global,
    outside: &mut O,
    rt: &R,
    words: &ArgMatches<'_>,
) -> u8
where
    R::Reader: IsTerminal,
    ensures explore { (rows : List Row) → subcommand_rows_of words.now ≡ Some (codes "explore", rows) → result ≡ 0 →
        HoldsOfWords (O.files outside.old) rows (O.done outside.new) }
    ensures diff { (rows : List Row) → subcommand_rows_of words.now ≡ Some (codes "diff", rows) → IsDone result →
        DiffOfWords (O.files outside.old) rows (O.done outside.old) (O.done outside.new) result }
    ensures why { (rows : List Row) → subcommand_rows_of words.now ≡ Some (codes "why", rows) → IsDone result →
        WhyOfWords (O.files outside.old) rows (O.done outside.old) (O.done outside.new) result }
    ensures expect { (rows : List Row) → subcommand_rows_of words.now ≡ Some (codes "expect", rows) → IsDone result →
        ExpectOfWords (O.files outside.old) rows (O.done outside.old) (O.done outside.new) result }
    ensures tests { (rows : List Row) → subcommand_rows_of words.now ≡ Some (codes "test", rows) → IsDone result →
        TestOfWords (O.files outside.old) rows (O.done outside.old) (O.done outside.new) result }
    ensures explores { (rows : List Row) → subcommand_rows_of words.now ≡ Some (codes "explore", rows) →
        ExploresWords (O.files outside.old) rows (O.done outside.old) (O.done outside.new) }
    ensures entered { IsDone result → IsSome (subcommand_rows_of words.now) }
{
    match command(words) {
        Some(cmd) => run_command(alloc, outside, rt, cmd),
        None => refuse_mistake(outside, no_code(alloc, "")),
    }
}
