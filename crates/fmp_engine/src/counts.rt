//! How many events of each kind a journal has.
ghost use Rattle.std.specs.Prelude.{◌≡◌, count_by};
ghost use Rattle.fmp_hostrun.specs.Counts.{is_interrupt, is_tick};
ghost use Rattle.fmp_engine.specs.Counts.{counts_of, is_any_run};

use fmp_base::Event;

/// How many events of each kind a journal has.
#[derive(Clone, Copy, PartialEq, Eq)]
pub struct EventCounts {
    /// The runs of all processors.
    pub runs: usize,
    /// The ticks.
    pub ticks: usize,
    /// The interrupts.
    pub interrupts: usize,
}

impl EventCounts {
    /// There are no events.
    pub const NONE: EventCounts = EventCounts {
        runs: 0,
        ticks: 0,
        interrupts: 0,
    };
}

fn is_run(event: &Event) -> bool
    ensures { result ≡ is_any_run event.now }
{
    match event {
        Event::Run(_) => true,
        Event::Tick | Event::Int(_) => false,
    }
}

fn is_tick(event: &Event) -> bool
    ensures { result ≡ is_tick event.now }
{
    match event {
        Event::Tick => true,
        Event::Run(_) | Event::Int(_) => false,
    }
}

fn is_interrupt(event: &Event) -> bool
    ensures { result ≡ is_interrupt event.now }
{
    match event {
        Event::Int(_) => true,
        Event::Run(_) | Event::Tick => false,
    }
}

fn run_count(events: &[Event]) -> usize
    ensures { result ≡ count_by is_any_run events.now }
{
    events.iter().filter(|event| is_run(*event)).count()
}

fn tick_count(events: &[Event]) -> usize
    ensures { result ≡ count_by is_tick events.now }
{
    events.iter().filter(|event| is_tick(*event)).count()
}

fn interrupt_count(events: &[Event]) -> usize
    ensures { result ≡ count_by is_interrupt events.now }
{
    events.iter().filter(|event| is_interrupt(*event)).count()
}

/// How many events of each kind these are.
pub fn counts_of(events: &[Event]) -> EventCounts
    ensures { result ≡ counts_of events.now }
{
    EventCounts {
        runs: run_count(events),
        ticks: tick_count(events),
        interrupts: interrupt_count(events),
    }
}
