//! Driving a kernel: events that each are done or keep a place, until no processor goes on.
ghost use Rattle.std.specs.Prelude.{◌≡◌, ◌+◌, ◌<◌, ◌≤◌, ◌^◌, ◌⊎◌, None, length, false, true, IfNone, IfOk, IfSome};
ghost use Rattle.std.specs.Prelude.{MatchOption};
ghost use Rattle.fmp_trace.specs.StepsLaws.{IsStep};
ghost use Rattle.fmp_drive.specs.Driving.{AreIdle, HasTaken, IsDriven, IsFirstInTurn, IsNext, IsStirred, course_of};
ghost use Rattle.fmp_drive.specs.Plans.{is_due};

use crate::plan::{Plan, Wish};
use crate::trying::{raise, run_one, tick};
use fmp_base::Event;
use fmp_kernel::{Body, Kernel};
use std::alloc::{AllocError, Global};

/// Why a drive has stopped.
#[derive(Clone, Copy)]
pub enum DriveStop {
    /// No processor can do anything, and no wait ends by the clock.
    Quiet,
    /// As many events are taken as were asked for.
    Enough,
}

/// What a drive has done.
#[derive(Drop)]
pub struct Driven {
    /// The events, each of which was done or kept a place.
    pub steps: Vec<Event>,
    pub stop: DriveStop,
}

/// What comes from outside of the tasks, where it is wished: a tick, or an interrupt that does something.
fn stir<B: Body>(kernel: &mut Kernel<B>, wish: Wish, processors: u8) -> Option<Event>
    requires { kernel.old.taken < 2 ^ 20 }
    ensures stirred { IsStirred B.meaning kernel.old kernel.new wish result }
    ensures step { IfSome result (IsStep processors) }
{
    match wish {
        Wish::Run(_) => None,
        Wish::Tick => Some(tick(kernel, processors)),
        Wish::Interrupt(first) => raise(kernel, first.max(1), processors),
    }
}

/// The clock advances by one, if that can change something.
fn tick_if_due<B: Body>(
    kernel: &mut Kernel<B>,
    plan: &Plan,
    processors: u8,
    tasks: u8,
) -> Option<Event>
    requires few { kernel.old.taken < 2 ^ 20 }
    requires tasks { tasks ≤ length kernel.old.system.tasks }
    ensures taken { MatchOption result (kernel.new ≡ kernel.old)
        (λ e. HasTaken B.meaning kernel.old kernel.new e × IsStep processors e) }
    ensures tick { IfSome result (λ e. (e ≡ Event.Tick) × (is_due plan.now kernel.old.world.state tasks ≡ true)) }
    ensures none { IfNone result (is_due plan.now kernel.old.world.state tasks ≡ false) }
{
    if plan.is_due(kernel, tasks) {
        Some(tick(kernel, processors))
    } else {
        None
    }
}

/// A processor does something, from the first of these on; else the clock, if that can change something.
fn run_or_tick<B: Body>(
    kernel: &mut Kernel<B>,
    plan: &Plan,
    first: u8,
    processors: u8,
    tasks: u8,
) -> Option<Event>
    requires few { kernel.old.taken < 2 ^ 20 }
    requires processors { processors ≤ 8 }
    requires first { 1 ≤ first }
    requires tasks { tasks ≤ length kernel.old.system.tasks }
    ensures taken { MatchOption result
        (AreIdle B.meaning kernel.old processors × (kernel.new ≡ kernel.old))
        (λ e. HasTaken B.meaning kernel.old kernel.new e × IsStep processors e) }
    ensures turn { IfSome result (λ e. IsFirstInTurn B.meaning kernel.old first processors e
        ⊎ ((e ≡ Event.Tick) × AreIdle B.meaning kernel.old processors
        × (is_due plan.now kernel.old.world.state tasks ≡ true))) }
    ensures none { IfNone result (is_due plan.now kernel.old.world.state tasks ≡ false) }
{
    match run_one(kernel, first, processors) {
        Some(e) => Some(e),
        None => tick_if_due(kernel, plan, processors, tasks),
    }
}

/// The next event, which is taken; none if no processor can do anything and the clock changes nothing.
fn next<B: Body>(
    kernel: &mut Kernel<B>,
    plan: &mut Plan,
    processors: u8,
    tasks: u8,
) -> Option<Event>
    requires few { kernel.old.taken < 2 ^ 20 }
    requires processors { processors ≤ 8 }
    requires tasks { tasks ≤ length kernel.old.system.tasks }
    ensures taken { MatchOption result
        (AreIdle B.meaning kernel.old processors × (kernel.new ≡ kernel.old))
        (λ e. HasTaken B.meaning kernel.old kernel.new e × IsStep processors e) }
    ensures next { plan.old.random ≡ None → plan.old.stirred ≡ false
        → IfSome result (IsNext B.meaning processors tasks (course_of kernel.old plan.old)) }
    ensures none { IfNone result (is_due plan.old kernel.old.world.state tasks ≡ false) }
    ensures turn { plan.new.turn ≡ plan.old.turn }
    ensures random { plan.old.random ≡ None → plan.new.random ≡ None }
    ensures stirred { plan.new.stirred ≡ plan.old.stirred }
    ensures ending { plan.new.ending.items ≡ plan.old.ending.items }
{
    let wish = plan.wish();
    match stir(kernel, wish, processors) {
        Some(e) => Some(e),
        None => run_or_tick(kernel, plan, wish.first(), processors, tasks),
    }
}

/// Drives a kernel of this many processors and tasks: its processors in turn, or as the plan has it, and a tick when
/// none of them can do anything; until nothing can happen any more, or `most` events are taken. A task whose stretch
/// reaches the bound goes on when its turn comes again. `AllocError` if memory runs out.
pub fn drive<B: Body>(
    alloc: Global,
    kernel: &mut Kernel<B>,
    plan: &mut Plan,
    processors: u8,
    tasks: u8,
    most: u32,
) -> Result<Driven, AllocError>
    requires few { kernel.old.taken + most ≤ 2 ^ 20 }
    requires one { 1 ≤ processors }
    requires eight { processors ≤ 8 }
    requires tasks { tasks ≤ length kernel.old.system.tasks }
    ensures { IfOk result (λ d.
        IsDriven B.meaning kernel.old kernel.new plan.old processors tasks most d.steps.items d.stop) }
{
    let mut steps = Vec::new(alloc);
    for _turn in 0..most {
        let e = match next(kernel, plan, processors, tasks) {
            Some(e) => e,
            None => {
                return Ok(Driven {
                    steps,
                    stop: DriveStop::Quiet,
                });
            }
        };
        steps.push(e)?;
        plan.done(e, kernel.lines(), processors);
    }
    Ok(Driven {
        steps,
        stop: DriveStop::Enough,
    })
}
