//! The run of a kernel, as a checker is told of it.
ghost use Rattle.std.specs.Prelude.{◌≡◌, ◌+◌, ◌<◌, ◌≤◌, ◌^◌, [], List, length};
ghost use Rattle.fmp_kernel.specs.Comings.{view_after_each};
ghost use Rattle.fmp_expect.specs.declared.expectation.Expected.{Expected};
ghost use Rattle.fmp_expect.specs.Meaning.{Told};
ghost use Rattle.fmp_expect.specs.Runs.{last_told, run_told, told_after};
ghost use Rattle.fmp_expect.specs.Watches.{AreTold};
ghost use Rattle.fmp_kernel.specs.KernelViews.{view_after};

use crate::checker::Checker;
use fmp_base::Effect;
use fmp_kernel::{Body, Coming, Kernel};

/// Tells the lines of a kernel's last event that was done, or of setup, and the state after it.
#[tactic(none)]
fn tell_last<B: Body>(kernel: &Kernel<B>, checker: &mut Checker)
    ensures { (xs : List Expected) → (told : List Told) → AreTold xs told checker.old
        → AreTold xs (last_told kernel.now told) checker.new }
{
    checker.tell(kernel.done(), kernel.lines());
    checker.tell_state(kernel.done(), kernel.tables());
}

/// Takes what comes to a kernel, and tells what it shows.
#[tactic(none)]
fn tell_one<B: Body, T: Coming<B>>(kernel: &mut Kernel<B>, e: T, checker: &mut Checker)
    requires { kernel.old.taken < 2 ^ 31 }
    ensures state { kernel.new ≡ view_after kernel.old (T.reaction kernel.old e) }
    ensures told { (xs : List Expected) → (told : List Told) → AreTold xs told checker.old
        → AreTold xs (told_after kernel.old (T.reaction kernel.old e) told) checker.new }
{
    match e.take(kernel) {
        Effect::Done => tell_last(kernel, checker),
        Effect::Kept => {}
        Effect::Nothing => {}
    }
}

/// Takes what comes to a kernel, and tells the lines and the states: first those of its last event, or of setup, and
/// then those of each event that is done.
pub fn tell_run<B: Body, T: Coming<B>>(kernel: &mut Kernel<B>, events: &[T], checker: &mut Checker)
    requires { kernel.old.taken + length events.now ≤ 2 ^ 31 }
    ensures state { kernel.new ≡ view_after_each T.reaction kernel.old events.now }
    ensures told { (xs : List Expected) → AreTold xs [] checker.old
        → AreTold xs (run_told T.reaction kernel.old events.now) checker.new }
{
    tell_last(kernel, checker);
    for e in events {
        tell_one(kernel, *e, checker);
    }
}
