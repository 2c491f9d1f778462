//! When the events of a run came.
ghost use Rattle.std.specs.Prelude.{◌≡◌, ◌∷◌, IfOk, []};
ghost use Rattle.fmp_slices.specs.Clocks.{later as spec_later, time_at, times_from};

use std::alloc::{AllocError, Global};

/// When the events of a run came, in microseconds. The times never go back.
#[derive(Drop)]
pub struct Clock {
    /// The times of setup and of the events; those that are missing are the numbers of the events.
    pub times: Vec<u64>,
}

/// A time, or that before it where there is none or it goes back.
fn later(before: u64, time: Option<u64>) -> u64
    ensures { result ≡ spec_later before time }
{
    match time {
        Some(time) => before.max(time),
        None => before,
    }
}

impl Clock {
    /// An event takes a microsecond: event `n` comes at `n`.
    pub fn by_number(alloc: Global) -> Clock
        ensures { result.times.items ≡ [] }
    {
        Clock {
            times: Vec::new(alloc),
        }
    }

    /// The times of a recording: setup comes at 0, and an event without a time, or with an earlier one, when the event
    /// before it does. `AllocError` if memory runs out.
    pub fn recorded(alloc: Global, times: &[Option<u64>]) -> Result<Clock, AllocError>
        ensures { IfOk result (λ clock. clock.times.items ≡ 0 ∷ times_from 0 times.now) }
    {
        let mut clock = Clock {
            times: Vec::new(alloc),
        };
        let mut now = 0;
        clock.times.push(now)?;
        for time in times {
            now = later(now, *time);
            clock.times.push(now)?;
        }
        Ok(clock)
    }

    /// When this event came.
    pub fn at(&self, event: u32) -> u64
        ensures { result ≡ time_at self.now.times.items event }
    {
        match self.times.get(event as usize) {
            Some(time) => *time,
            None => u64::from(event),
        }
    }
}
