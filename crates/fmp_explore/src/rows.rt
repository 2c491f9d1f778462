//! Rows of the states of a system.
ghost use Rattle.std.specs.Prelude.{◌≡◌, ◌+◌, ◌*◌, ◌<◌, ◌^◌, ℕ, List, IfOk, OnOk, is_some, length, true};
ghost use Rattle.fmp_fields.specs.Fields.{AreAllFields};
ghost use Rattle.fmp_live.specs.LiveLocals.{AreLiveTables, live_tables};
ghost use Rattle.fmp_explore.specs.States.{IsRowOf, numbers_in};
ghost use Rattle.fmp_explore.specs.Searching.{CanStep, HasLive, HasTold, IsKernelOf, IsStateFor};
ghost use Rattle.fmp_visited.specs.Rows.{row_of};
ghost use Rattle.fmp_witness.specs.Asked.{asked_of};

use crate::standings::{monitors_told, push_standings};
use crate::trying::ExaminedState;
use fmp_code::{MachineContext, Vm};
use fmp_fields::{FieldPlan, SavedRow, fields_of, read};
use fmp_image_bytes::Image;
use fmp_kernel::{ContextTest, Kernel};
use fmp_live::{LiveLocals, live_locals};
use fmp_reachable::soundness::is_sound;
use fmp_schedules::Monitor;
use fmp_visited::{pack, unpack_checked};
use fmp_witness::SearchSubject;
use std::alloc::{AllocError, Global};

/// The live locals of the bodies of an image, where the local at the out place of a call counts as written by every
/// reply, or by E_OK alone. Where there is no memory to trace them, all locals count as live.
fn live_in(alloc: Global, outs: bool, image: &Image) -> LiveLocals
    ensures { AreLiveTables outs image.now.code (live_tables result) }
{
    live_locals(alloc, outs, image.code())
}

/// Tells the contexts of bodies of code from other values.
#[derive(Clone, Copy)]
struct CodeTest;

impl<'a> ContextTest<Vm<'a>> for CodeTest {
    fn accepts(&self, body: &Vm<'a>, entry: u8, context: &MachineContext) -> bool {
        body.is_context(entry, context)
    }
}

/// The fields of the states, and room for the numbers and the row of one.
#[derive(Drop)]
pub struct Rows {
    pub fields: FieldPlan,
    /// Whether the local at the out place of a call counts as written by every reply, not by E_OK alone.
    pub outs: bool,
    /// The live locals of the bodies.
    pub live: LiveLocals,
    /// The numbers in the first state, and in that of the kernel that was looked at last.
    pub first: Vec<u32>,
    numbers: Vec<u32>,
    /// The numbers that were taken from the row of a state.
    told: Vec<u32>,
    /// Whether that row is the one that is written for these numbers.
    exact: bool,
    pub row: Vec<u8>,
    /// The state that was restored last.
    saved: SavedRow,
}

/// Writes the row of these numbers into the place of another one. `AllocError` if memory runs out.
fn write_row(numbers: &[u32], first: &[u32], row: &mut Vec<u8>) -> Result<(), AllocError>
    ensures { OnOk result (IsRowOf first.now numbers.now row.new.items) }
{
    pack(numbers, first, row)
}

/// Whether two lists of numbers are the same.
fn are_same(a: &[u32], b: &[u32]) -> bool
    ensures { result ≡ true → a.now ≡ b.now }
{
    a == b
}

/// Whether these numbers are the ones that were taken from a row, and the row is exact: the one that is written for
/// them.
fn tells(exact: bool, told: &[u32], numbers: &[u32]) -> bool
    ensures { result ≡ true → (first row : List ℕ) → (exact ≡ true → row ≡ row_of first told.now) →
        IsRowOf first numbers.now row }
{
    if !exact {
        return false;
    }
    are_same(told, numbers)
}

/// How many interrupts came, where their number is limited: that is the first of these numbers.
fn came_in(numbers: &[u32], limited: bool) -> usize
    ensures { limited ≡ true → result < 256 }
{
    match numbers.first() {
        Some(came) if limited => (*came % 256) as usize,
        _ => 0,
    }
}

/// The numbers after those of the fields.
fn after_fields(numbers: &[u32], fields: usize) -> &[u32] {
    &numbers[fields.min(numbers.len())..]
}

impl Rows {
    /// Rows of the states of a system, of which none was looked at. `AllocError` if memory runs out.
    pub fn new(alloc: Global, outs: bool, subject: &SearchSubject<'_>) -> Result<Rows, AllocError>
        ensures live { IfOk result (HasLive (asked_of subject.now)) }
        ensures fields { IfOk result (λ rows. AreAllFields subject.now.image.now.system subject.now.image.now.code
            (is_some subject.now.question.now.interrupts) rows.fields.items) }
    {
        let sys = subject.image.system();
        let code = subject.image.code();
        let list = fields_of(alloc, sys, code, subject.question.interrupts.is_some())?;
        let fields = FieldPlan::new(alloc, list)?;
        Ok(Rows {
            fields,
            outs,
            live: live_in(alloc, outs, subject.image),
            first: Vec::new(alloc),
            numbers: Vec::new(alloc),
            told: Vec::new(alloc),
            exact: false,
            row: Vec::new(alloc),
            saved: SavedRow::new(alloc),
        })
    }

    /// Rows of the same fields, live locals and first numbers. `AllocError` if memory runs out.
    pub fn again(&self, alloc: Global, subject: &SearchSubject<'_>) -> Result<Rows, AllocError>
        ensures live { IfOk result (HasLive (asked_of subject.now)) }
        ensures outs { IfOk result (λ rows. rows.outs ≡ self.now.outs) }
        ensures fields { IfOk result (λ rows. rows.fields.items ≡ self.now.fields.items) }
        ensures first { IfOk result (λ rows. rows.first.items ≡ self.now.first.items) }
    {
        let list = Vec::from_slice(alloc, self.fields.list())?;
        let fields = FieldPlan::new(alloc, list)?;
        let first = Vec::from_slice(alloc, &self.first)?;
        Ok(Rows {
            fields,
            outs: self.outs,
            live: live_in(alloc, self.outs, subject.image),
            first,
            numbers: Vec::new(alloc),
            told: Vec::new(alloc),
            exact: false,
            row: Vec::new(alloc),
            saved: SavedRow::new(alloc),
        })
    }

    /// Takes the numbers of a kernel's state, with those of its monitors, as those of the first one. `AllocError` if
    /// memory runs out.
    pub fn begin(&mut self, kernel: &Kernel<Vm<'_>>, monitors: &[Monitor]) -> Result<(), AllocError>
        ensures fields { self.new.fields.items ≡ self.old.fields.items }
        ensures outs { self.new.outs ≡ self.old.outs }
        ensures live { self.new.live ≡ self.old.live }
        ensures first { OnOk result
            (length self.new.first.items ≡ length self.new.fields.items + 2 * length monitors.now) }
    {
        read(kernel, &self.live, 0, &self.fields, &mut self.first)?;
        push_standings(&mut self.first, monitors)
    }

    /// Writes the numbers of a kernel's state, where this many interrupts came, with 0 for each dead local, and of its
    /// monitors.
    #[inline(always)]
    fn write_numbers(
        &mut self,
        kernel: &Kernel<Vm<'_>>,
        came: usize,
        monitors: &[Monitor],
    ) -> Result<(), AllocError>
        ensures fields { self.new.fields.items ≡ self.old.fields.items }
        ensures outs { self.new.outs ≡ self.old.outs }
        ensures live { self.new.live ≡ self.old.live }
        ensures first { self.new.first.items ≡ self.old.first.items }
        ensures told { self.new.told.items ≡ self.old.told.items }
        ensures exact { self.new.exact ≡ self.old.exact }
        ensures numbers { OnOk result (self.new.numbers.items ≡ numbers_in kernel.now.system (live_tables self.old.live)
            self.old.fields.items kernel.now.world came monitors.now) }
    {
        read(kernel, &self.live, came, &self.fields, &mut self.numbers)?;
        push_standings(&mut self.numbers, monitors)
    }

    /// Writes the row of a kernel's state, where this many interrupts came, with 0 for each dead local and with its
    /// monitors. `AllocError` if memory runs out.
    pub fn write(
        &mut self,
        kernel: &Kernel<Vm<'_>>,
        came: usize,
        monitors: &[Monitor],
    ) -> Result<(), AllocError>
        ensures fields { self.new.fields.items ≡ self.old.fields.items }
        ensures outs { self.new.outs ≡ self.old.outs }
        ensures live { self.new.live ≡ self.old.live }
        ensures first { self.new.first.items ≡ self.old.first.items }
        ensures row { OnOk result (IsRowOf self.old.first.items
            (numbers_in kernel.now.system (live_tables self.old.live) self.old.fields.items kernel.now.world came
            monitors.now) self.new.row.items) }
    {
        self.write_numbers(kernel, came, monitors)?;
        write_row(&self.numbers, &self.first, &mut self.row)
    }

    /// Whether a kernel's state, where this many interrupts came, with 0 for each dead local and with its monitors, has
    /// the row from which numbers were taken last: false too where that row is not the one that is written for them.
    /// `AllocError` if memory runs out.
    pub fn has_told(
        &mut self,
        kernel: &Kernel<Vm<'_>>,
        came: usize,
        monitors: &[Monitor],
    ) -> Result<bool, AllocError>
        ensures fields { self.new.fields.items ≡ self.old.fields.items }
        ensures outs { self.new.outs ≡ self.old.outs }
        ensures live { self.new.live ≡ self.old.live }
        ensures first { self.new.first.items ≡ self.old.first.items }
        ensures told { self.new.told.items ≡ self.old.told.items }
        ensures exact { self.new.exact ≡ self.old.exact }
        ensures row { IfOk result (λ yes. yes ≡ true → (row : List ℕ) → HasTold self.old row →
            IsRowOf self.old.first.items (numbers_in kernel.now.system (live_tables self.old.live)
            self.old.fields.items kernel.now.world came monitors.now) row) }
    {
        self.write_numbers(kernel, came, monitors)?;
        Ok(tells(self.exact, &self.told, &self.numbers))
    }

    /// Takes the numbers of a row, which is that of the state at this place and depth: what is watched there, as they
    /// tell. `AllocError` if memory runs out.
    pub fn examined(
        &mut self,
        alloc: Global,
        subject: &SearchSubject<'_>,
        row: &[u8],
        state: u32,
        depth: u32,
    ) -> Result<ExaminedState, AllocError>
        ensures fields { self.new.fields.items ≡ self.old.fields.items }
        ensures outs { self.new.outs ≡ self.old.outs }
        ensures live { self.new.live ≡ self.old.live }
        ensures first { self.new.first.items ≡ self.old.first.items }
        ensures state { IfOk result (λ at. at.state ≡ state) }
        ensures told { IfOk result (IsStateFor (asked_of subject.now)) }
        ensures row { IfOk result (λ _. HasTold self.new row.now) }
    {
        self.exact = unpack_checked(row, &self.first, &mut self.told)?;
        let question = subject.question;
        let came = came_in(&self.told, question.interrupts.is_some());
        let kept = after_fields(&self.told, self.fields.list().len());
        let monitors = monitors_told(alloc, &question.monitors, kept)?;
        Ok(ExaminedState {
            state,
            depth,
            came,
            monitors,
        })
    }

    /// Puts a kernel into the state of which the numbers were taken last, if it can be restored: whether it was, and
    /// can take an event. Else the kernel is left in some state. `AllocError` if memory runs out.
    pub fn restore<'a>(
        &mut self,
        subject: &SearchSubject<'a>,
        fallback: &Kernel<Vm<'a>>,
        kernel: &mut Kernel<Vm<'a>>,
    ) -> Result<bool, AllocError>
        requires fallback { IsKernelOf (asked_of subject.now) fallback.now }
        requires kernel { IsKernelOf (asked_of subject.now) kernel.old }
        ensures fields { self.new.fields.items ≡ self.old.fields.items }
        ensures outs { self.new.outs ≡ self.old.outs }
        ensures live { self.new.live ≡ self.old.live }
        ensures first { self.new.first.items ≡ self.old.first.items }
        ensures told { self.new.told.items ≡ self.old.told.items }
        ensures exact { self.new.exact ≡ self.old.exact }
        ensures over { IsKernelOf (asked_of subject.now) kernel.new }
        ensures restored { IfOk result (λ restored. restored ≡ true → CanStep (asked_of subject.now) kernel.new) }
    {
        self.saved.fill(&self.fields, &self.told)?;
        if !kernel.restore(fallback, self.saved.saved(), &CodeTest) {
            return Ok(false);
        }
        Ok(is_sound(kernel))
    }
}
