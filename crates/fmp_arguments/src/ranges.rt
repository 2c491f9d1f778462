//! The ranges of the numbers that the command line gives.
ghost use Rattle.std.specs.Prelude.{◌≡◌, ◌≤◌, ◌^◌, min};

use crate::arguments::EVENTS_MAX;

/// A number of events in its range.
pub fn kept_events(events: u32) -> u32
    ensures few { result ≤ 2 ^ 20 }
    ensures kept { result ≡ min events (2 ^ 20) }
{
    events.min(EVENTS_MAX)
}
