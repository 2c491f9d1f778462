//! The calls of a run that are refused.
ghost use Rattle.std.specs.Prelude.{◌≡◌, ◌+◌, ◌≤◌, ◌^◌, [], IfOk, length, map};
ghost use Rattle.fmp_instructions.specs.Instructions.{code_tables};
ghost use Rattle.fmp_instructions.specs.Machine.{code_meaning};
ghost use Rattle.fmp_looking.specs.Looks.{OfImage, OfSteps};
ghost use Rattle.fmp_looking.specs.Refused as spec;
ghost use Rattle.fmp_looking.specs.Refused.{AreRunRefusals, refused_in, refused_lines};
ghost use Rattle.fmp_looking.specs.Traces.{line_form as spec_form};
ghost use Rattle.fmp_frames.specs.Answers.{answers_in as answers_by};
ghost use Rattle.fmp_frames.specs.CallPositions.{AreCallsOf};
ghost use Rattle.fmp_frames.specs.Refusals.{refused_calls as refused_by, refused_of};
ghost use Rattle.fmp_replay.specs.Replays.{kernel_after};

use crate::exit::{ViewExit, memory};
use crate::kinds::exit_over;
use crate::open_image::OpenImage;
use crate::opening::{StepsRun, events_for, image_of};
use crate::run_positions::{PositionedRun, positions_for};
use crate::tracing::line_form;
use fmp_base::Event;
use fmp_code::Vm;
use fmp_frames::{
    CallPositions, CodePositions, LineForm, RefusedCall, SiteAnswer, answers_in, append_refused,
    refused_calls,
};
use fmp_image_bytes::Image;
use fmp_kernel::Kernel;
use fmp_replay::kernel_of;
use fmp_warnings::Form;
use std::alloc::{AllocError, Global};

/// A task text, and the name of its file.
#[derive(Clone, Copy)]
pub struct NamedText<'a> {
    pub name: &'a str,
    pub text: &'a [u8],
}

/// How many tasks the system of an image has.
fn task_count(image: &Image) -> usize
    ensures { result ≡ length image.now.system.tasks }
{
    image.system().tasks.len()
}

/// What the calls of a run are answered on a kernel of an image.
#[tactic(none)]
fn answers_on<'a>(
    alloc: Global,
    kernel: &mut Kernel<Vm<'a>>,
    image: &'a Image,
    events: &[Event],
) -> Result<Vec<SiteAnswer>, AllocError>
    requires few { kernel.old.taken + length events.now ≤ 2 ^ 31 }
    ensures { IfOk result (λ answers. answers.items
        ≡ answers_by code_meaning kernel.old events.now (length image.now.system.tasks)) }
{
    answers_in(alloc, kernel, events, task_count(image))
}

/// What the calls of a run of an image are answered.
#[tactic(none)]
pub fn answers_over(
    alloc: Global,
    image: &Image,
    n: u64,
    events: &[Event],
) -> Result<Vec<SiteAnswer>, AllocError>
    requires few { length events.now ≤ 2 ^ 20 }
    ensures { IfOk result (λ answers. answers.items
        ≡ answers_by code_meaning (kernel_after image.now n []) events.now (length image.now.system.tasks)) }
{
    let mut kernel = kernel_of(alloc, image, n)?;
    let answers = answers_on(alloc, &mut kernel, image, events);
    drop(kernel);
    answers
}

/// The calls of the code of an image that are refused, where calls got these answers. `AllocError` if memory runs out.
#[tactic(none)]
pub fn refused_among(
    alloc: Global,
    image: &Image,
    answers: &[SiteAnswer],
) -> Result<Vec<RefusedCall>, AllocError>
    ensures { IfOk result (λ refused. map refused_of refused.items ≡ refused_by image.now.code answers.now) }
{
    image.keeps_rules();
    refused_calls(alloc, image.code(), answers)
}

/// The calls of a run of an image that are refused. `AllocError` if memory runs out.
#[tactic(none)]
fn refused_on(
    alloc: Global,
    image: &Image,
    n: u64,
    events: &[Event],
) -> Result<Vec<RefusedCall>, AllocError>
    requires few { length events.now ≤ 2 ^ 20 }
    ensures { IfOk result (λ refused. map refused_of refused.items ≡ refused_in image.now n events.now) }
{
    let answers = answers_over(alloc, image, n, events)?;
    refused_among(alloc, image, &answers)
}

/// Where the calls of the code of an image stand in a task text; nowhere if none is given.
fn positions_in(
    alloc: Global,
    image: &Image,
    source: Option<NamedText<'_>>,
) -> Result<CallPositions, ViewExit>
    ensures { IfOk result (λ positions. AreCallsOf (spec.text_of source.entry) positions) }
{
    match source {
        Some(source) => positions_for(alloc, image, source.text),
        None => CallPositions::new(alloc, b"").map_err(|error| memory(error)),
    }
}

/// The name of the file of a task text; empty if none is given.
fn file_of<'a>(source: Option<NamedText<'a>>) -> &'a [u8]
    ensures { result.now ≡ spec.file_of source.entry }
{
    match source {
        Some(source) => source.name.as_bytes(),
        None => b"",
    }
}

/// A line of this form for each call that is refused, where the calls of bodies stand at these positions of a file.
pub fn lines_of(
    alloc: Global,
    form: LineForm,
    file: &[u8],
    text: CodePositions<'_>,
    refused: &[RefusedCall],
) -> Result<Vec<u8>, AllocError>
    ensures { IfOk result (λ out. out.items ≡ refused_lines form file.now (code_tables text.entry.code.now)
        text.entry.positions.now (map refused_of refused.now)) }
{
    let mut out = Vec::new(alloc);
    for call in refused {
        let position = text
            .positions
            .position(text.code, call.site.body, call.site.pc);
        append_refused(alloc, form, file, position, call, &mut out)?;
    }
    Ok(out)
}

/// The lines of the calls that are refused in a run, where calls of bodies stand at its positions of a file.
fn lines_on(
    alloc: Global,
    form: LineForm,
    file: &[u8],
    run: PositionedRun<'_>,
) -> Result<Vec<u8>, AllocError>
    requires few { length run.events.now ≤ 2 ^ 20 }
    ensures { IfOk result (λ out. out.items ≡ refused_lines form file.now run.entry.image.now.code
        run.entry.positions.now (refused_in run.entry.image.now run.entry.bound run.entry.events.now)) }
{
    let refused = refused_on(alloc, run.image, run.bound, run.events)?;
    let text = CodePositions {
        code: run.image.code(),
        positions: run.positions,
    };
    lines_of(alloc, form, file, text, &refused)
}

/// The lines of the calls that are refused in a run of an image over a steps text.
fn lines_over(
    alloc: Global,
    form: Form,
    opened: &OpenImage<'_>,
    steps: &[u8],
    source: Option<NamedText<'_>>,
) -> Result<Vec<u8>, ViewExit>
    ensures { IfOk result (λ out. OfSteps opened.now.image.now steps.now (λ es. AreRunRefusals (spec_form form)
        source.entry opened.now.image.now opened.now.bound es out.items)) }
{
    let image = opened.image;
    let events = events_for(alloc, image, steps)?;
    let positions = positions_in(alloc, image, source)?;
    let run = PositionedRun {
        image,
        bound: opened.bound,
        positions: &positions,
        events: &events,
    };
    match lines_on(alloc, line_form(form), file_of(source), run) {
        Ok(lines) => Ok(lines),
        Err(error) => Err(memory(error)),
    }
}

/// A line for each call that is refused in a run. Calls are told by where they stand in the task text of the image if
/// it is given, which must have as many bodies as the image, each with as many calls; else by body and position.
pub fn refused_in_run(
    alloc: Global,
    form: Form,
    run: StepsRun<'_>,
    source: Option<NamedText<'_>>,
) -> Result<Vec<u8>, ViewExit>
    ensures { IfOk result (λ out. OfImage run.entry.image.now (λ i. OfSteps i run.entry.steps.now
        (λ es. AreRunRefusals (spec_form form) source.entry i run.entry.bound es out.items))) }
{
    match image_of(alloc, run.image) {
        Ok(image) => {
            let opened = OpenImage::new(&image, run.bound);
            let lines = lines_over(alloc, form, &opened, run.steps, source);
            drop(image);
            lines
        }
        Err(fault) => Err(exit_over(alloc, fault, run.image)),
    }
}
