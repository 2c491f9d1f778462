//! How a kernel comes into a state that is examined: it is restored from the state's row, or takes the events that lead
//! there. Either way it counts as being in the state only if its own row is that of the state.
ghost use Rattle.std.specs.Prelude.{◌≡◌, ◌<◌, [], IfOk, length, slice_get, true, unwrap_or};
ghost use Rattle.fmp_replay.specs.Replays.{kernel_after};
ghost use Rattle.fmp_explore.specs.Searching.{CanStep, HasLive, HasTold, IsKernelOf, IsStateFor, IsTold};
ghost use Rattle.fmp_explore.specs.Searching.{StandsAt, Stays};
ghost use Rattle.fmp_witness.specs.Asked.{asked_of};

use crate::searches::Search;
use crate::trying::ExaminedState;
use fmp_base::Event;
use fmp_code::Vm;
use fmp_kernel::Kernel;
use fmp_replay::kernel_of;
use fmp_witness::{SearchSubject, TAKEN_MOST, follow};
use std::alloc::{AllocError, Global};

/// Whether two rows are the same.
pub fn is_same(a: &[u8], b: &[u8]) -> bool
    ensures { result ≡ true → a.now ≡ b.now }
{
    a == b
}

/// Puts a kernel into the state to which these events lead, where another one was just set up: whether each of them
/// does something, and one more can be taken.
fn follow_on<'a>(
    subject: &SearchSubject<'a>,
    fresh: &mut Kernel<Vm<'a>>,
    kernel: &mut Kernel<Vm<'a>>,
    steps: &[Event],
) -> bool
    requires fresh { fresh.old ≡ kernel_after subject.now.image.now subject.now.n [] }
    requires kernel { IsKernelOf (asked_of subject.now) kernel.old }
    ensures over { IsKernelOf (asked_of subject.now) kernel.new }
    ensures ready { result ≡ true → CanStep (asked_of subject.now) kernel.new }
{
    subject.image.keeps_rules();
    if !follow(fresh, subject.image, subject.n, steps) {
        return false;
    }
    if fresh.taken() >= TAKEN_MOST {
        return false;
    }
    kernel.put_back(fresh);
    true
}

/// Puts a kernel into the state to which these events lead: whether each of them does something, and one more can be
/// taken. `AllocError` if memory runs out.
fn follow_to<'a>(
    alloc: Global,
    subject: &SearchSubject<'a>,
    kernel: &mut Kernel<Vm<'a>>,
    steps: &[Event],
) -> Result<bool, AllocError>
    requires { IsKernelOf (asked_of subject.now) kernel.old }
    ensures over { IsKernelOf (asked_of subject.now) kernel.new }
    ensures ready { IfOk result (λ done. done ≡ true → CanStep (asked_of subject.now) kernel.new) }
{
    let mut fresh = kernel_of(alloc, subject.image, subject.n)?;
    let done = follow_on(subject, &mut fresh, kernel, steps);
    drop(fresh);
    Ok(done)
}

impl Search {
    /// What is watched in the state at a place, as its row tells. `AllocError` if memory runs out.
    pub fn examined(
        &mut self,
        subject: &SearchSubject<'_>,
        state: u32,
    ) -> Result<ExaminedState, AllocError>
        ensures stays { Stays self.old self.new }
        ensures state { IfOk result (λ at. at.state ≡ state) }
        ensures told { IfOk result (IsStateFor (asked_of subject.now)) }
        ensures row { IfOk result
            (λ _. HasTold self.new.rows (unwrap_or (slice_get self.new.seen.rows state) [])) }
    {
        let depth = self.depth_of(state);
        self.rows
            .examined(self.alloc, subject, self.seen.row(state), state, depth)
    }

    /// Whether the row of a kernel that can take an event is that of the state that is examined, whose numbers were
    /// taken last. `AllocError` if memory runs out.
    fn has_row(
        &mut self,
        subject: &SearchSubject<'_>,
        kernel: &Kernel<Vm<'_>>,
        at: &ExaminedState,
    ) -> Result<bool, AllocError>
        requires live { HasLive (asked_of subject.now) self.old.rows }
        requires there { at.now.state < length self.old.seen.rows }
        requires told { IsTold self.old at.now }
        requires state { IsStateFor (asked_of subject.now) at.now }
        requires ready { CanStep (asked_of subject.now) kernel.now }
        ensures stays { Stays self.old self.new }
        ensures told { IsTold self.new at.now }
        ensures stands { IfOk result (λ yes. yes ≡ true → StandsAt (asked_of subject.now) self.new at.now kernel.now) }
    {
        self.rows.has_told(kernel, at.came, &at.monitors)
    }

    /// Puts a kernel into the state that is examined by the events that lead there: whether it is there. `AllocError`
    /// if memory runs out.
    fn replay_to<'a>(
        &mut self,
        subject: &SearchSubject<'a>,
        kernel: &mut Kernel<Vm<'a>>,
        at: &ExaminedState,
    ) -> Result<bool, AllocError>
        requires live { HasLive (asked_of subject.now) self.old.rows }
        requires there { at.now.state < length self.old.seen.rows }
        requires told { IsTold self.old at.now }
        requires state { IsStateFor (asked_of subject.now) at.now }
        requires over { IsKernelOf (asked_of subject.now) kernel.old }
        ensures stays { Stays self.old self.new }
        ensures over { IsKernelOf (asked_of subject.now) kernel.new }
        ensures stands { IfOk result (λ yes. yes ≡ true → StandsAt (asked_of subject.now) self.new at.now kernel.new) }
    {
        let steps = self.steps_to(subject.question, at.state)?;
        if !follow_to(self.alloc, subject, kernel, &steps)? {
            return Ok(false);
        }
        self.has_row(subject, kernel, at)
    }

    /// Puts a kernel into the state that is examined by its row: whether it is there. `AllocError` if memory runs out.
    fn restore_to<'a>(
        &mut self,
        subject: &SearchSubject<'a>,
        other: &Kernel<Vm<'a>>,
        kernel: &mut Kernel<Vm<'a>>,
        at: &ExaminedState,
    ) -> Result<bool, AllocError>
        requires live { HasLive (asked_of subject.now) self.old.rows }
        requires there { at.now.state < length self.old.seen.rows }
        requires told { IsTold self.old at.now }
        requires state { IsStateFor (asked_of subject.now) at.now }
        requires other { IsKernelOf (asked_of subject.now) other.now }
        requires over { IsKernelOf (asked_of subject.now) kernel.old }
        ensures stays { Stays self.old self.new }
        ensures over { IsKernelOf (asked_of subject.now) kernel.new }
        ensures told { IsTold self.new at.now }
        ensures stands { IfOk result (λ yes. yes ≡ true → StandsAt (asked_of subject.now) self.new at.now kernel.new) }
    {
        if !self.rows.restore(subject, other, kernel)? {
            return Ok(false);
        }
        self.has_row(subject, kernel, at)
    }

    /// Puts a kernel into the state that is examined, whose row was looked at last: whether it is there. Another kernel
    /// of the image is only looked at. `AllocError` if memory runs out.
    pub fn stand_at<'a>(
        &mut self,
        subject: &SearchSubject<'a>,
        other: &Kernel<Vm<'a>>,
        kernel: &mut Kernel<Vm<'a>>,
        at: &ExaminedState,
    ) -> Result<bool, AllocError>
        requires live { HasLive (asked_of subject.now) self.old.rows }
        requires there { at.now.state < length self.old.seen.rows }
        requires told { IsTold self.old at.now }
        requires state { IsStateFor (asked_of subject.now) at.now }
        requires other { IsKernelOf (asked_of subject.now) other.now }
        requires over { IsKernelOf (asked_of subject.now) kernel.old }
        ensures stays { Stays self.old self.new }
        ensures over { IsKernelOf (asked_of subject.now) kernel.new }
        ensures stands { IfOk result (λ yes. yes ≡ true → StandsAt (asked_of subject.now) self.new at.now kernel.new) }
    {
        if self.restore_to(subject, other, kernel, at)? {
            return Ok(true);
        }
        self.replay_to(subject, kernel, at)
    }
}
