//! Limits of interrupts: how often one may come, and how many ticks come between two.
ghost use Rattle.std.specs.Prelude.{◌≡◌, nat_eq, ◌+◌};
ghost use Rattle.fmp_monitors.specs.Happenings as told;
ghost use Rattle.fmp_schedules.specs.Limits as spec;

use fmp_base::Line;
use fmp_monitors::Standing;

/// How often an interrupt may do something, or how soon again. Interrupts go by their places, from 0.
#[derive(Clone, Copy)]
pub enum InterruptLimit {
    /// At most this many times.
    AtMost { interrupt: u8, count: u32 },
    /// With at least this many ticks between two times.
    Apart { interrupt: u8, ticks: u32 },
}

/// Whether a line tells that an interrupt did something.
fn is_interrupt(interrupt: u8, line: &Line) -> bool
    ensures { result ≡ told.is_interrupt interrupt line.now }
{
    match line {
        Line::Int(other) => *other == interrupt,
        _ => false,
    }
}

/// Whether a line tells that the clock advanced.
fn is_tick(line: &Line) -> bool
    ensures { result ≡ told.is_tick line.now }
{
    matches!(line, Line::Tick(_))
}

/// How many times are left, or how many ticks.
fn left(standing: Standing) -> u32
    ensures { result ≡ spec.left standing }
{
    match standing {
        Standing::Waiting(left) => left,
        Standing::Open | Standing::Held | Standing::Inside(_) => 0,
    }
}

/// One time less, or one tick less.
fn less(standing: Standing) -> Standing
    ensures { result ≡ spec.less standing }
{
    Standing::Waiting(left(standing).saturating_sub(1))
}

/// After one more line, where the interrupt may come so often.
fn counted(interrupt: u8, standing: Standing, line: &Line) -> Standing
    ensures { result ≡ spec.counted interrupt standing line.now }
{
    if is_interrupt(interrupt, line) {
        less(standing)
    } else {
        standing
    }
}

/// After one more line, where this many ticks come between two of the interrupt.
fn spaced(interrupt: u8, ticks: u32, standing: Standing, line: &Line) -> Standing
    ensures { result ≡ spec.spaced interrupt ticks standing line.now }
{
    if is_interrupt(interrupt, line) {
        Standing::Waiting(ticks)
    } else if is_tick(line) {
        less(standing)
    } else {
        standing
    }
}

impl InterruptLimit {
    /// The interrupt's place, from 0.
    pub fn interrupt(self) -> u8
        ensures { result ≡ spec.interrupt_of self }
    {
        match self {
            InterruptLimit::AtMost { interrupt, .. } | InterruptLimit::Apart { interrupt, .. } =>
                interrupt,
        }
    }

    /// What is kept of it before the first line.
    pub fn at_first(self) -> Standing
        ensures { result ≡ spec.at_first self }
    {
        match self {
            InterruptLimit::AtMost { count, .. } => Standing::Waiting(count),
            InterruptLimit::Apart { .. } => Standing::Waiting(0),
        }
    }

    /// What is kept of it after one more line.
    pub fn next(self, standing: Standing, line: &Line) -> Standing
        ensures { result ≡ spec.next self standing line.now }
    {
        match self {
            InterruptLimit::AtMost { interrupt, .. } => counted(interrupt, standing, line),
            InterruptLimit::Apart { interrupt, ticks } => spaced(interrupt, ticks, standing, line),
        }
    }

    /// Whether its interrupt may come where this is kept.
    fn has_room(self, standing: Standing) -> bool
        ensures { result ≡ spec.has_room self standing }
    {
        match self {
            InterruptLimit::AtMost { .. } => left(standing) != 0,
            InterruptLimit::Apart { .. } => left(standing) == 0,
        }
    }

    /// Whether it is a limit of the interrupt of this number, from 1.
    fn is_of(self, number: u8) -> bool
        ensures { result ≡ nat_eq (spec.interrupt_of self + 1) number }
    {
        u16::from(self.interrupt()) + 1 == u16::from(number)
    }

    /// Whether it lets the interrupt of this number, from 1, come where this is kept.
    pub fn lets(self, standing: Standing, number: u8) -> bool
        ensures { result ≡ spec.lets self standing number }
    {
        !self.is_of(number) || self.has_room(standing)
    }
}
