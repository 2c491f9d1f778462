//! Sentences that look at where a line stands, which lines and states alone do not tell.
ghost use Rattle.std.specs.Prelude.{◌≡◌, ◌+◌, ◌<◌, ◌≤◌, ◌^◌, ℕ, None, Option, length, true};
ghost use Rattle.fmp_base.specs.declared.events.Line.{Line as LineTold};
ghost use Rattle.fmp_expect.specs.Judges as spec;
ghost use Rattle.fmp_expect.specs.Parts.{or_else};
ghost use Rattle.fmp_kernel.specs.Comings.{view_after_each};
ghost use Rattle.fmp_kernel.specs.KernelViews.{KernelView, view_after};

use crate::checker::BrokenExpectation;
use fmp_base::{Effect, Line};
use fmp_kernel::{Body, Coming, Kernel};

/// Sentences that look at where a line stands on a kernel over these bodies.
pub trait LineJudge<B: Body> {
    /// The line in their text of the first sentence that a line breaks, which was just told on a kernel.
    ghost breaks: { Self → KernelView B B.Ctx → LineTold → Option ℕ };

    /// The line in their text, from 1, of the first sentence that a line breaks, which was just told on a kernel; none
    /// if it breaks none.
    fn broken_by(&self, kernel: &Kernel<B>, line: &Line) -> Option<usize>
        ensures { result ≡ breaks self.now kernel.now line.now };

    /// Whether it is known that no line breaks a sentence, as where there are none.
    fn is_idle(&self) -> bool
        ensures { result ≡ true → (k : KernelView B B.Ctx) → (l : LineTold) → breaks self.now k l ≡ None };
}

/// The first sentence that these lines break, which were just told on a kernel.
fn first_by<B: Body, J: LineJudge<B>>(
    kernel: &Kernel<B>,
    lines: &[Line],
    judge: &J,
) -> Option<usize>
    ensures { result ≡ spec.first_by (J.breaks judge.now kernel.now) lines.now }
{
    for line in lines {
        if let Some(number) = judge.broken_by(kernel, line) {
            return Some(number);
        }
    }
    None
}

/// What the last event of a kernel breaks.
fn broken_here<B: Body, J: LineJudge<B>>(kernel: &Kernel<B>, judge: &J) -> Option<BrokenExpectation>
    ensures { result ≡ spec.broken_here (J.breaks judge.now) kernel.now }
{
    match first_by(kernel, kernel.lines(), judge) {
        Some(line) => Some(BrokenExpectation {
            line,
            event: kernel.done(),
        }),
        None => None,
    }
}

/// Takes what comes to a kernel: what that breaks.
#[tactic(none)]
fn judge_one<B: Body, T: Coming<B>, J: LineJudge<B>>(
    kernel: &mut Kernel<B>,
    e: T,
    judge: &J,
) -> Option<BrokenExpectation>
    requires { kernel.old.taken < 2 ^ 31 }
    ensures state { kernel.new ≡ view_after kernel.old (T.reaction kernel.old e) }
    ensures broken { result ≡ spec.broken_after (J.breaks judge.now) kernel.old (T.reaction kernel.old e) }
{
    match e.take(kernel) {
        Effect::Done => broken_here(kernel, judge),
        Effect::Kept => None,
        Effect::Nothing => None,
    }
}

/// The first of two, or the second.
fn first_of(
    first: Option<BrokenExpectation>,
    second: Option<BrokenExpectation>,
) -> Option<BrokenExpectation>
    ensures { result ≡ or_else first second }
{
    match first {
        Some(broken) => Some(broken),
        None => second,
    }
}

/// Takes what comes to a kernel: the first sentence that the first event breaks which breaks one.
pub fn judge_run<B: Body, T: Coming<B>, J: LineJudge<B>>(
    kernel: &mut Kernel<B>,
    events: &[T],
    judge: &J,
) -> Option<BrokenExpectation>
    requires { kernel.old.taken + length events.now ≤ 2 ^ 31 }
    ensures state { kernel.new ≡ view_after_each T.reaction kernel.old events.now }
    ensures broken { result ≡ spec.broken_along (J.breaks judge.now) T.reaction kernel.old events.now }
{
    let mut broken = None;
    for e in events {
        let now = judge_one(kernel, *e, judge);
        broken = first_of(broken, now);
    }
    broken
}
