//! The commands over the two texts of a system: a run of it, and a session.
use crate::answering::Stepping;
use crate::asking::StepWords;
use crate::stepping::step_image;
use crate::telling::print_run;
use crate::word_mistakes::{coverage_over_input, coverage_twice, lcov_over_input};
use fmp_base::{Entry, System};
use fmp_cfgparse::read_cfg;
use fmp_diagnosis::Texts;
use fmp_files::{Failure, Outside, end, read_file, refuse_mistake};
use fmp_frames::CallPositions;
use fmp_image::build;
use fmp_lex::BuildFault;
use fmp_looking::{
    CoverageFiles, NamedText, NoTrace, OpenImage, Running, Traced, is_coverage_one_file,
    traced_texts, write_coverage_files,
};
use fmp_searching::{print_fault, read_both};
use fmp_session::NamedInterrupt;
use fmp_warnings::FileNames;
use std::alloc::{AllocError, Global};
use std::io::{Input, IsTerminal};

/// What is printed of a run of two texts over the steps of a file, if there are steps, or why there is nothing.
fn traced_over<O: Outside>(
    alloc: Global,
    outside: &O,
    names: FileNames<'_>,
    texts: Texts<'_>,
    run: Running,
) -> Result<Result<Traced, NoTrace>, Failure> {
    let source = NamedText {
        name: names.src,
        text: texts.src,
    };
    if names.steps.is_empty() {
        return Ok(traced_texts(alloc, texts.cfg, source, None, run));
    }
    let steps = read_file(alloc, outside, names.steps, None)?;
    Ok(traced_texts(alloc, texts.cfg, source, Some(&steps), run))
}

/// What is printed of a run of the texts of these files, or why there is nothing.
fn traced_run<O: Outside>(
    alloc: Global,
    outside: &O,
    names: FileNames<'_>,
    run: Running,
) -> Result<Result<Traced, NoTrace>, Failure> {
    let (cfg, src) = read_both(alloc, outside, names.cfg, names.src)?;
    let texts = Texts {
        cfg: &cfg,
        src: &src,
    };
    traced_over(alloc, outside, names, texts, run)
}

/// Whether a file, if one is named, is one of those of these texts, or of the steps.
fn is_read<O: Outside>(outside: &O, out: Option<&str>, names: FileNames<'_>) -> bool {
    let Some(out) = out else {
        return false;
    };
    outside.is_one_file(out, names.cfg)
        || outside.is_one_file(out, names.src)
        || (!names.steps.is_empty() && outside.is_one_file(out, names.steps))
}

/// Prints a run, after its coverage is written where that is asked for.
fn tell_run<O: Outside>(
    alloc: Global,
    outside: &mut O,
    traced: &Traced,
    files: CoverageFiles<'_>,
) -> u8 {
    match write_coverage_files(alloc, outside, files, &traced.tracefile, &traced.coverage) {
        Ok(()) => print_run(alloc, outside, &traced.text, traced.ending, &traced.why),
        Err(failure) => end(outside, &failure),
    }
}

/// Prints the trace of a run of the texts of these files, or their fault, with status 1.
fn trace_texts<O: Outside>(
    alloc: Global,
    outside: &mut O,
    names: FileNames<'_>,
    run: Running,
    files: CoverageFiles<'_>,
) -> u8 {
    match traced_run(alloc, outside, names, run) {
        Ok(Ok(traced)) => tell_run(alloc, outside, &traced, files),
        Ok(Err(NoTrace::Faulty)) => print_fault(alloc, outside, names, run.form),
        Ok(Err(NoTrace::Memory)) => end(outside, &Failure::Memory(AllocError)),
        Err(failure) => end(outside, &failure),
    }
}

/// Prints the trace of a run of the texts of these files, or their fault, with status 1. Its coverage is written to
/// these files.
pub fn run_texts<O: Outside>(
    alloc: Global,
    outside: &mut O,
    names: FileNames<'_>,
    run: Running,
    files: CoverageFiles<'_>,
) -> u8 {
    if is_read(outside, files.lcov, names) {
        return refuse_mistake(outside, lcov_over_input(alloc));
    }
    if is_read(outside, files.coverage, names) {
        return refuse_mistake(outside, coverage_over_input(alloc));
    }
    if is_coverage_one_file(outside, files) {
        return refuse_mistake(outside, coverage_twice(alloc));
    }
    trace_texts(alloc, outside, names, run, files)
}

/// The interrupts of a configuration that have handlers, with the names of the bodies of these.
fn interrupts_of(alloc: Global, sys: &System) -> Result<Vec<NamedInterrupt>, AllocError> {
    let mut named = Vec::new(alloc);
    for interrupt in &sys.interrupts {
        if let Entry::Named(body) = interrupt.entry {
            let number = interrupt.number;
            named.push(NamedInterrupt { number, body })?;
        }
    }
    Ok(named)
}

/// The interrupts of the text of a configuration that have handlers; none where the text has a fault. `AllocError` if
/// memory runs out.
fn interrupts_in(alloc: Global, cfg: &[u8]) -> Result<Vec<NamedInterrupt>, AllocError> {
    match read_cfg(alloc, cfg) {
        Ok(sys) => {
            let named = interrupts_of(alloc, &sys);
            drop(sys);
            named
        }
        Err(BuildFault::Memory) => Err(AllocError),
        Err(_) => Ok(Vec::new(alloc)),
    }
}

/// What a session knows of two texts beside the system that they build.
#[derive(Drop)]
struct TextsKnown {
    /// The interrupts that have handlers.
    interrupts: Vec<NamedInterrupt>,
    /// Where the calls of the bodies stand.
    positions: CallPositions,
}

/// What a session knows of two texts. `AllocError` if memory runs out.
fn known_of(alloc: Global, texts: Texts<'_>) -> Result<TextsKnown, AllocError> {
    Ok(TextsKnown {
        interrupts: interrupts_in(alloc, texts.cfg)?,
        positions: CallPositions::new(alloc, texts.src)?,
    })
}

/// Takes commands of standard input on the system of two texts, or prints their first fault, with status 1.
fn step_texts<O: Outside, R: Input>(
    alloc: Global,
    outside: &mut O,
    rt: &R,
    texts: Texts<'_>,
    words: StepWords<'_>,
) -> u8
where
    R::Reader: IsTerminal,
{
    let Ok(known) = known_of(alloc, texts) else {
        return end(outside, &Failure::Memory(AllocError));
    };
    let stepping = Stepping {
        names: words.names,
        form: words.form,
        interrupts: &known.interrupts,
        positions: &known.positions,
        terminal: rt.reader().is_terminal(),
    };
    match build(alloc, texts.cfg, texts.src) {
        Ok(image) => {
            let opened = OpenImage::new(&image, words.bound);
            let status = step_image(alloc, outside, rt, &opened, stepping);
            drop(image);
            match status {
                Ok(status) => status,
                Err(error) => end(outside, &Failure::Memory(error)),
            }
        }
        Err(_) => print_fault(alloc, outside, words.names, words.form),
    }
}

/// Takes commands of standard input on the system of the texts of two files, or prints their first fault, with status
/// 1.
pub fn run_step<O: Outside, R: Input>(
    alloc: Global,
    outside: &mut O,
    rt: &R,
    words: StepWords<'_>,
) -> u8
where
    R::Reader: IsTerminal,
{
    match read_both(alloc, outside, words.names.cfg, words.names.src) {
        Ok((cfg, src)) => {
            let texts = Texts {
                cfg: &cfg,
                src: &src,
            };
            step_texts(alloc, outside, rt, texts, words)
        }
        Err(failure) => end(outside, &failure),
    }
}
