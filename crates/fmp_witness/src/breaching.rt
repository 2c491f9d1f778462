//! A monitor along a list of events that a kernel takes.
ghost use Rattle.std.specs.Prelude.{◌≡◌, ◌<◌, ◌^◌, [], IfSome, IsTrue};
ghost use Rattle.fmp_replay.specs.Replays.{kernel_after};
ghost use Rattle.fmp_witness.specs.Findings.{HasMonitor, IsMonitorOn};
ghost use Rattle.fmp_witness.specs.Followed.{IsFollowed};
ghost use Rattle.fmp_witness.specs.Followed.{HasDone};

use crate::replaying::TAKEN_MOST;
use fmp_base::{Effect, Event};
use fmp_code::Vm;
use fmp_image_bytes::Image;
use fmp_kernel::Kernel;
use fmp_schedules::Monitor;

/// Takes an event: the monitor after it, if it does something.
fn monitor_on(kernel: &mut Kernel<Vm<'_>>, monitor: Monitor, e: Event) -> Option<Monitor>
    requires { kernel.old.taken < 2 ^ 20 }
    ensures { IfSome result (IsMonitorOn kernel.old kernel.new monitor e) }
{
    match kernel.step(e) {
        Effect::Nothing => None,
        Effect::Kept => Some(monitor),
        Effect::Done => Some(monitor.after(kernel.lines())),
    }
}

/// Takes events one after the other on the kernel of an image that was just set up, at this bound: the monitor after
/// them, if each of them does something.
pub fn follow_monitor(
    kernel: &mut Kernel<Vm<'_>>,
    image: &Image,
    n: u64,
    monitor: Monitor,
    steps: &[Event],
) -> Option<Monitor>
    requires { kernel.old ≡ kernel_after image.now n [] }
    ensures { IfSome result (HasMonitor image.now n monitor steps.now kernel.new) }
{
    let mut after = monitor.after(kernel.lines());
    for e in steps {
        if kernel.taken() >= TAKEN_MOST {
            return None;
        }
        after = monitor_on(kernel, after, *e)?;
    }
    Some(after)
}

/// Takes an event on the kernel of an image, which has taken the events before it: whether it is done.
pub fn is_done(
    kernel: &mut Kernel<Vm<'_>>,
    image: &Image,
    n: u64,
    before: &[Event],
    last: Event,
) -> bool
    requires few { kernel.old.taken < 2 ^ 20 }
    requires followed { IsFollowed image.now n before.now kernel.old }
    ensures { IsTrue result → HasDone image.now n before.now last kernel.new }
{
    match kernel.step(last) {
        Effect::Done => true,
        Effect::Kept | Effect::Nothing => false,
    }
}
