//! Random runs, which are judged as they go.
ghost use Rattle.std.specs.Prelude.{◌≡◌, ◌+◌, ◌-◌, ◌<◌, ◌≤◌, ◌^◌, [], List, None, IfNone, IfOk, IfSome, is_some};
ghost use Rattle.std.specs.Prelude.{false, length, true};
ghost use Rattle.std.specs.List.{find, range_with_len};
ghost use Rattle.fmp_base.specs.declared.events.Event.TheVariants as event;
ghost use Rattle.fmp_expect.specs.declared.expectation.Expected.{Expected};
ghost use Rattle.fmp_expect.specs.Meaning.{Told, first_broken};
ghost use Rattle.fmp_expect.specs.Runs.{last_told, told_after};
ghost use Rattle.fmp_expect.specs.Watches.{AreTold};
ghost use Rattle.fmp_kernel.specs.Comings.{reaction_of};
ghost use Rattle.fmp_trials.specs.Drawn.{IsDrawn};
ghost use Rattle.fmp_trials.specs.Choices.{event_after, in_turn, interrupt_of, next_of, run_of, turned};
ghost use Rattle.fmp_trials.specs.Taking.{Takes, takes_in};
ghost use Rattle.fmp_trials.specs.Verdicts.{IsBeside};

use crate::choices::Choices;
use fmp_base::{Effect, Event};
use fmp_expect::Checker;
use fmp_kernel::{Body, Kernel};
use std::alloc::{AllocError, Global};

/// A random run.
#[derive(Drop)]
pub struct RandomRun {
    /// Its events.
    pub steps: Vec<Event>,
    /// Whether the last of them, or setup, breaks a sentence.
    pub is_broken: bool,
}

/// The most events of a run.
const EVENTS_MOST: u32 = 1 << 20;

/// A kernel takes an event: whether that does something.
#[tactic(auto, using(crate::proofs::Taken::taken_done, crate::proofs::Taken::taken_kept))]
fn takes<B: Body>(kernel: &mut Kernel<B>, e: Event) -> bool
    requires { kernel.old.taken < 2 ^ 31 }
    ensures takes { result ≡ takes_in B.meaning kernel.old e }
    ensures come { result ≡ true → Takes B.meaning kernel.old kernel.new e }
    ensures stands { result ≡ false → kernel.new ≡ kernel.old }
{
    match kernel.step_long(e) {
        Effect::Done => true,
        Effect::Kept => true,
        Effect::Nothing => false,
    }
}

/// The clock advances.
fn tick<B: Body>(kernel: &mut Kernel<B>) -> Event
    requires { kernel.old.taken < 2 ^ 31 }
    ensures tick { result ≡ Event.Tick }
    ensures come { Takes B.meaning kernel.old kernel.new result }
{
    kernel.step_long(Event::Tick);
    Event::Tick
}

/// The first interrupt whose turn it is by chance, and that does something.
fn interrupt<B: Body>(kernel: &mut Kernel<B>, choices: &mut Choices<'_>) -> Option<Event>
    requires { kernel.old.taken < 2 ^ 31 }
    ensures next { (result, choices.new)
        ≡ interrupt_of (takes_in B.meaning kernel.old) choices.old.plan.interrupts.now choices.old }
    ensures come { IfSome result (Takes B.meaning kernel.old kernel.new) }
    ensures stands { IfNone result (kernel.new ≡ kernel.old) }
{
    let rates = choices.plan.interrupts;
    for rate in rates {
        if !choices.comes(rate.every) {
            continue;
        }
        let e = Event::Int(rate.interrupt);
        if takes(kernel, e) {
            return Some(e);
        }
    }
    None
}

/// The first processor that can do something, from the first up to the end, which is left out, does it.
fn run_from<B: Body>(kernel: &mut Kernel<B>, first: u8, end: u8) -> Option<u8>
    requires { kernel.old.taken < 2 ^ 31 }
    ensures first { result
        ≡ find (λ p. takes_in B.meaning kernel.old (event.Run p)) (range_with_len first (end - first)) }
    ensures come { IfSome result (λ p. Takes B.meaning kernel.old kernel.new (event.Run p)) }
    ensures stands { IfNone result (kernel.new ≡ kernel.old) }
{
    for processor in first..end {
        if takes(kernel, Event::Run(processor)) {
            return Some(processor);
        }
    }
    None
}

/// The first processor that can do something, from the first up to the last and then from 1 on, does it.
fn run_one<B: Body>(kernel: &mut Kernel<B>, first: u8, last: u8) -> Option<u8>
    requires taken { kernel.old.taken < 2 ^ 31 }
    requires last { last ≤ 8 }
    ensures first { result ≡ find (λ p. takes_in B.meaning kernel.old (event.Run p)) (in_turn first last) }
    ensures come { IfSome result (λ p. Takes B.meaning kernel.old kernel.new (event.Run p)) }
    ensures stands { IfNone result (kernel.new ≡ kernel.old) }
{
    match run_from(kernel, first, last + 1) {
        Some(processor) => Some(processor),
        None => run_from(kernel, 1, first),
    }
}

/// How many processors a kernel has.
fn processor_count<B: Body>(kernel: &Kernel<B>) -> u8
    ensures count { result ≡ kernel.now.system.processors }
    ensures few { result ≤ 8 }
{
    kernel.tables().processor_count() as u8
}

/// A processor goes on, or the clock if none can do anything.
fn run_or_tick<B: Body>(kernel: &mut Kernel<B>, choices: &mut Choices<'_>) -> Event
    requires { kernel.old.taken < 2 ^ 31 }
    ensures next { (result, choices.new) ≡ run_of (takes_in B.meaning kernel.old) kernel.old.system.processors
        (turned kernel.old.system.processors choices.old) }
    ensures come { Takes B.meaning kernel.old kernel.new result }
{
    let processors = processor_count(kernel);
    match run_one(kernel, choices.processor(processors), processors) {
        Some(processor) => {
            choices.went_on(processor);
            Event::Run(processor)
        }
        None => tick(kernel),
    }
}

/// The clock, if its turn has come, or else a processor.
fn tick_or_run<B: Body>(kernel: &mut Kernel<B>, choices: &mut Choices<'_>) -> Event
    requires { kernel.old.taken < 2 ^ 31 }
    ensures next { (result, choices.new) ≡ event_after (takes_in B.meaning kernel.old) kernel.old.system.processors
        (None, choices.old) }
    ensures come { Takes B.meaning kernel.old kernel.new result }
{
    if choices.comes(choices.plan.tick) {
        return tick(kernel);
    }
    run_or_tick(kernel, choices)
}

/// The next event, which is taken.
fn next<B: Body>(kernel: &mut Kernel<B>, choices: &mut Choices<'_>) -> Event
    requires { kernel.old.taken < 2 ^ 31 }
    ensures next { (result, choices.new) ≡ next_of B.meaning kernel.old choices.old }
    ensures come { Takes B.meaning kernel.old kernel.new result }
{
    match interrupt(kernel, choices) {
        Some(e) => e,
        None => tick_or_run(kernel, choices),
    }
}

/// Tells the lines of a kernel's last event that was done, or of setup, and the state after it: whether a sentence is
/// broken by now.
fn is_broken<B: Body>(kernel: &Kernel<B>, checker: &mut Checker) -> bool
    ensures told { (xs : List Expected) → (told : List Told) → AreTold xs told checker.old
        → AreTold xs (last_told kernel.now told) checker.new }
    ensures broken { (xs : List Expected) → (told : List Told) → AreTold xs told checker.old
        → result ≡ is_some (first_broken xs (last_told kernel.now told) [] kernel.now.done) }
{
    checker.tell(kernel.done(), kernel.lines());
    checker.tell_state(kernel.done(), kernel.tables());
    checker.verdict(&[], kernel.done()).is_some()
}

/// The next event, which is taken, and whether a sentence is broken after it.
fn judged_next<B: Body>(
    kernel: &mut Kernel<B>,
    choices: &mut Choices<'_>,
    checker: &mut Checker,
) -> (Event, bool)
    requires { kernel.old.taken < 2 ^ 31 }
    ensures next { (result.0, choices.new) ≡ next_of B.meaning kernel.old choices.old }
    ensures come { Takes B.meaning kernel.old kernel.new result.0 }
    ensures told { (xs : List Expected) → (told : List Told) → AreTold xs told checker.old
        → AreTold xs (told_after kernel.old (reaction_of B.meaning kernel.old result.0) told) checker.new }
    ensures broken { (xs : List Expected) → (told : List Told) → AreTold xs told checker.old
        → first_broken xs told [] kernel.old.done ≡ None
        → result.1 ≡ is_some (first_broken xs
        (told_after kernel.old (reaction_of B.meaning kernel.old result.0) told) [] kernel.new.done) }
{
    let done = kernel.done();
    let e = next(kernel, choices);
    if kernel.done() == done {
        return (e, false);
    }
    (e, is_broken(kernel, checker))
}

/// A random run of a kernel up to the first event that breaks a sentence, or the last. `AllocError` if memory runs out.
pub fn random_run<B: Body>(
    alloc: Global,
    kernel: &mut Kernel<B>,
    checker: &mut Checker,
    choices: &mut Choices<'_>,
) -> Result<RandomRun, AllocError>
    requires { kernel.old.taken ≡ 0 }
    ensures few { IfOk result (λ run. length run.steps.items ≤ 2 ^ 20) }
    ensures drawn { (xs : List Expected) → AreTold xs [] checker.old
        → IfOk result (IsDrawn B.meaning kernel.old xs choices.old) }
    ensures beside { IsBeside kernel.old kernel.new }
{
    let mut steps = Vec::new(alloc);
    if is_broken(kernel, checker) {
        return Ok(RandomRun {
            steps,
            is_broken: true,
        });
    }
    for _turn in 0..choices.plan.events.min(EVENTS_MOST) {
        let (e, broken) = judged_next(kernel, choices, checker);
        steps.push(e)?;
        if broken {
            return Ok(RandomRun {
                steps,
                is_broken: true,
            });
        }
    }
    Ok(RandomRun {
        steps,
        is_broken: false,
    })
}
