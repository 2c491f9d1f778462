//! Events that are tried in order until one does something.
ghost use Rattle.std.specs.Prelude.{◌≡◌, ◌+◌, ◌<◌, ◌≤◌, ◌^◌, IfSome, MatchOption};
ghost use Rattle.fmp_drive.specs.declared.trying.EventSource.TheVariants as source;
ghost use Rattle.fmp_trace.specs.StepsLaws.{IsStep};
ghost use Rattle.fmp_drive.specs.Driving.{AllStand, TakesFirst, HasTaken, IsFirstInTurn, event_of};

use fmp_base::{Effect, Event};
use fmp_kernel::{Body, Kernel};

/// The end of the interrupts' numbers.
const INTERRUPTS_END: u8 = 33;

/// Whose events are tried.
#[derive(Clone, Copy)]
pub enum EventSource {
    /// A processor runs its actor.
    Processor,
    /// An interrupt is requested.
    Interrupt,
}

/// The event that a processor or an interrupt of this number makes.
fn event_of(source: EventSource, number: u8) -> Event
    ensures { result ≡ event_of source number }
{
    match source {
        EventSource::Processor => Event::Run(number),
        EventSource::Interrupt => Event::Int(number),
    }
}

/// Tries the events of a source by number, from the first up to the end, which is left out. Gives the first that does
/// something, which is then taken; none if none does, and nothing has changed then.
pub fn first_taken<B: Body>(
    kernel: &mut Kernel<B>,
    source: EventSource,
    first: u8,
    end: u8,
) -> Option<Event>
    requires { kernel.old.taken < 2 ^ 20 }
    ensures { TakesFirst B.meaning kernel.old kernel.new source first end result }
{
    for number in first..end {
        let e = event_of(source, number);
        match kernel.step(e) {
            Effect::Done => return Some(e),
            Effect::Kept => return Some(e),
            Effect::Nothing => {}
        }
    }
    None
}

/// The first processor that can do something, from this one on, does it.
fn run_from<B: Body>(kernel: &mut Kernel<B>, first: u8, processors: u8) -> Option<Event>
    requires few { kernel.old.taken < 2 ^ 20 }
    requires processors { processors ≤ 8 }
    requires first { 1 ≤ first }
    ensures first { TakesFirst B.meaning kernel.old kernel.new source.Processor first (processors + 1) result }
    ensures step { IfSome result (IsStep processors) }
{
    first_taken(kernel, EventSource::Processor, first, processors + 1)
}

/// The first processor that can do something does it.
fn run_any<B: Body>(kernel: &mut Kernel<B>, processors: u8) -> Option<Event>
    requires few { kernel.old.taken < 2 ^ 20 }
    requires processors { processors ≤ 8 }
    ensures first { TakesFirst B.meaning kernel.old kernel.new source.Processor 1 (processors + 1) result }
    ensures step { IfSome result (IsStep processors) }
{
    run_from(kernel, 1, processors)
}

/// The first processor that can do something, from the first of these on and then from 1 on, does it.
pub fn run_one<B: Body>(kernel: &mut Kernel<B>, first: u8, processors: u8) -> Option<Event>
    requires few { kernel.old.taken < 2 ^ 20 }
    requires processors { processors ≤ 8 }
    requires first { 1 ≤ first }
    ensures taken { MatchOption result
        (AllStand B.meaning kernel.old source.Processor 1 (processors + 1) × (kernel.new ≡ kernel.old))
        (λ e. HasTaken B.meaning kernel.old kernel.new e × IsStep processors e) }
    ensures turn { IfSome result (IsFirstInTurn B.meaning kernel.old first processors) }
{
    match run_from(kernel, first, processors) {
        Some(e) => Some(e),
        None => run_any(kernel, processors),
    }
}

/// The first interrupt that does something, from this number on, is requested.
pub fn raise<B: Body>(kernel: &mut Kernel<B>, first: u8, processors: u8) -> Option<Event>
    requires few { kernel.old.taken < 2 ^ 20 }
    requires first { 1 ≤ first }
    ensures first { TakesFirst B.meaning kernel.old kernel.new source.Interrupt first 33 result }
    ensures step { IfSome result (IsStep processors) }
{
    first_taken(kernel, EventSource::Interrupt, first, INTERRUPTS_END)
}

/// The clock advances by one.
pub fn tick<B: Body>(kernel: &mut Kernel<B>, processors: u8) -> Event
    requires { kernel.old.taken < 2 ^ 20 }
    ensures tick { result ≡ Event.Tick }
    ensures taken { HasTaken B.meaning kernel.old kernel.new result }
    ensures step { IsStep processors result }
{
    kernel.step(Event::Tick);
    Event::Tick
}
