//! The times that are left until deadlines and due times, with which the clock begins again at 0.
ghost use Rattle.std.specs.Prelude.{◌≡◌, ◌≤◌, length, map};
ghost use Rattle.fmp_tasks.specs.Restarts.{with_time_left, time_left as time_left_from};

use crate::queues::{set_deadline, set_due_time};
use fmp_base::TaskBlock;
use fmp_ticks::{Cyclics, TickQueue};

/// The time that is left until another one, if there is one.
fn time_left(time: Option<u32>, now: u32) -> Option<u32>
    ensures { result ≡ time_left_from now time }
{
    match time {
        Some(when) => Some(when.saturating_sub(now)),
        None => None,
    }
}

/// Each task's deadline becomes the time that is left until it.
pub fn restart_blocks(blocks: &mut [TaskBlock], now: u32)
    ensures { blocks.new ≡ map (with_time_left now) blocks.old }
{
    for t in 0..blocks.len() {
        blocks[t].deadline = time_left(blocks[t].deadline, now);
    }
}

/// The deadlines become those of the tasks.
pub fn restart_deadlines(deadlines: &mut TickQueue, blocks: &[TaskBlock])
    requires long { length deadlines.old ≡ length blocks.now }
    requires few { length blocks.now ≤ 255 }
    ensures { deadlines.new ≡ map (λ x. x.deadline) blocks.now }
{
    for t in 0..blocks.len() {
        set_deadline(deadlines, t as u8, blocks[t].deadline);
    }
}

/// Each due time becomes the time that is left until it; the number of cyclic handlers is given.
pub fn restart_due_times(cyclics: &mut Cyclics, count: u8, now: u32)
    requires { count ≡ length cyclics.old }
    ensures { cyclics.new ≡ map (time_left_from now) cyclics.old }
{
    for c in 0..count {
        set_due_time(cyclics, c, time_left(cyclics.due_time(c), now));
    }
}
