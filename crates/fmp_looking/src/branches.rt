//! Which way bodies go at their branches in a run.
ghost use Rattle.std.specs.Prelude.{◌≡◌, ◌+◌, ◌<◌, ◌≤◌, ◌^◌, IfOk, IfSome, OnOk, Some, get_or, if◌then◌else◌, length};
ghost use Rattle.std.specs.Prelude.{true};
ghost use Rattle.fmp_base.specs.Operators.{is_zero as is_zero_value};
ghost use Rattle.fmp_instructions.specs.Instructions.{body_tables, code_tables};
ghost use Rattle.fmp_looking.specs.Branches as spec;
ghost use Rattle.fmp_looking.specs.BranchNumbers.{AreNumbers, AreOfCode};
ghost use Rattle.fmp_looking.specs.Laps.{walk};
ghost use Rattle.fmp_looking.specs.Ways.{IsWithSteps};

use crate::branch_numbers::{BranchNumbers, is_branch};
use crate::ways::{BranchWays, WayCounts};
use fmp_base::{Effect, Event, StretchStop};
use fmp_instructions::{Code, Instruction, MachineContext};
use fmp_kernel::{Actor, Body, Coming, Kernel};
use std::alloc::{AllocError, Global};

/// A body came to a branch, and went one way.
#[derive(Clone, Copy)]
pub struct BranchStep {
    pub body: u8,
    /// Which of the branches of its code it is, from 0.
    pub number: usize,
    /// Whether what it goes by was not 0.
    pub is_true: bool,
}

/// A body with its number.
#[derive(Clone, Copy)]
struct NumberedBody<'a> {
    /// From 0.
    number: u8,
    instructions: &'a [Instruction],
    /// For each instruction how many branches stand before it.
    branches_before: &'a [usize],
}

/// A code, and which of the branches of its body each branch is.
#[derive(Clone, Copy)]
struct NumberedCode<'a> {
    code: &'a Code,
    numbers: &'a BranchNumbers,
}

/// A body goes on from a context by at most n instructions, this many times.
#[derive(Clone, Copy)]
struct Laps {
    from: MachineContext,
    n: u64,
    times: u64,
}

/// A body goes on from a context by at most n instructions.
#[derive(Clone, Copy)]
struct Stretch {
    from: MachineContext,
    n: u64,
}

/// The same of a body that comes back to the context after this many instructions, and again after each time.
#[derive(Clone, Copy)]
struct Cycle {
    from: MachineContext,
    n: u64,
    length: u64,
}

/// What an event did, and the actor that it ran, if it ran one.
#[derive(Clone, Copy)]
struct EventRun {
    actor: Option<Actor<MachineContext>>,
    effect: Effect,
}

/// A context of a stretch to which it may come back.
#[derive(Clone, Copy)]
struct Lap {
    from: MachineContext,
    /// How many instructions of the stretch were made before.
    before: u64,
    /// After how many more a later context is taken.
    length: u64,
}

/// Whether a number is 0.
fn is_zero(value: i32) -> bool
    ensures { result ≡ is_zero_value value }
{
    value == 0
}

/// The topmost operand; 0 if there is no room for it.
fn top_of(context: &MachineContext) -> i32
    ensures { result ≡ spec.top_of context.now }
{
    let top = usize::from(context.count.saturating_sub(1));
    match context.operands.get(top) {
        Some(value) => *value,
        None => 0,
    }
}

/// Whether a branch stands at a position of these instructions.
fn is_branch_at(instructions: &[Instruction], pc: u16) -> bool
    ensures { result ≡ spec.is_branch_at instructions.now pc }
{
    match instructions.get(usize::from(pc)) {
        Some(instruction) => is_branch(instruction),
        None => false,
    }
}

/// The number at a position; 0 if there is none.
fn number_at(numbers: &[usize], pc: u16) -> usize
    ensures { result ≡ get_or numbers.now pc 0 }
{
    match numbers.get(usize::from(pc)) {
        Some(number) => *number,
        None => 0,
    }
}

/// Which way a body goes at a branch.
fn step_of(code: NumberedBody<'_>, context: &MachineContext) -> BranchStep
    requires numbers { AreNumbers code.instructions.now code.branches_before.now }
    requires branch { spec.is_branch_at code.instructions.now context.now.pc ≡ true }
    ensures { result ≡ spec.step_of code.entry.instructions.now code.entry.number context.now }
{
    BranchStep {
        body: code.number,
        number: number_at(code.branches_before, context.pc),
        is_true: !is_zero(top_of(context)),
    }
}

/// Adds which way a body goes, this many times, if it stands at a branch.
fn add_step(
    alloc: Global,
    code: NumberedBody<'_>,
    context: &MachineContext,
    times: u64,
    ways: &mut BranchWays,
) -> Result<(), AllocError>
    requires { AreNumbers code.instructions.now code.branches_before.now }
    ensures { OnOk result (IsWithSteps times ways.old
        (spec.step_here code.entry.instructions.now code.entry.number context.now) ways.new) }
{
    if !is_branch_at(code.instructions, context.pc) {
        return Ok(());
    }
    let step = step_of(code, context);
    ways.add(
        alloc,
        usize::from(step.body),
        step.number,
        WayCounts::one_way(step.is_true, times),
    )
}

/// Goes on by one instruction: whether the body stands after it, and does not call, end or fault.
fn goes_on<B: Body<Ctx = MachineContext>>(body: &B, entry: u8, context: &mut MachineContext) -> bool
    requires entry { B.has_entry body.now entry }
    requires context { B.is_context body.now entry context.old }
    ensures next { spec.left_by ((B.meaning body.now).stretch entry 1 context.old)
        ≡ spec.left_if result context.new }
    ensures context { result ≡ true → B.is_context body.now entry context.new }
{
    match body.stretch_in_place(entry, 1, context) {
        StretchStop::Over => true,
        StretchStop::Call(_) | StretchStop::End | StretchStop::Fault(_) => false,
    }
}

/// Adds the branches of laps.
fn add_laps<B: Body<Ctx = MachineContext>>(
    alloc: Global,
    body: &B,
    code: NumberedBody<'_>,
    laps: Laps,
    ways: &mut BranchWays,
) -> Result<(), AllocError>
    requires entry { B.has_entry body.now code.number }
    requires context { B.is_context body.now code.number laps.from }
    requires numbers { AreNumbers code.instructions.now code.branches_before.now }
    ensures { OnOk result (IsWithSteps laps.times ways.old
        (spec.stretch_steps (B.meaning body.now) code.entry.instructions.now code.entry.number laps.n laps.from)
        ways.new) }
{
    let mut here = laps.from;
    for _turn in 0..laps.n {
        add_step(alloc, code, &here, laps.times, ways)?;
        if !goes_on(body, code.number, &mut here) {
            return Ok(());
        }
    }
    Ok(())
}

/// Adds the branches of a cycle.
fn add_cycle<B: Body<Ctx = MachineContext>>(
    alloc: Global,
    body: &B,
    code: NumberedBody<'_>,
    cycle: Cycle,
    ways: &mut BranchWays,
) -> Result<(), AllocError>
    requires entry { B.has_entry body.now code.number }
    requires context { B.is_context body.now code.number cycle.from }
    requires numbers { AreNumbers code.instructions.now code.branches_before.now }
    requires some { 0 < cycle.length }
    requires cycle { walk (B.meaning body.now) code.number cycle.length cycle.from ≡ Some cycle.from }
    ensures { OnOk result (IsWithSteps 1 ways.old
        (spec.stretch_steps (B.meaning body.now) code.entry.instructions.now code.entry.number cycle.n cycle.from)
        ways.new) }
{
    let whole = Laps {
        from: cycle.from,
        n: cycle.length,
        times: cycle.n / cycle.length,
    };
    let rest = Laps {
        from: cycle.from,
        n: cycle.n % cycle.length,
        times: 1,
    };
    add_laps(alloc, body, code, whole, ways)?;
    add_laps(alloc, body, code, rest, ways)
}

/// Whether these numbers are the same.
#[tactic(auto, using(crate::proofs::LapLemmas::same_numbers))]
fn are_same(a: &[i32; 64], b: &[i32; 64]) -> bool
    ensures { result ≡ true → a.now ≡ b.now }
{
    *a == *b
}

/// Whether two contexts are one.
#[tactic(auto, using(crate::proofs::LapLemmas::same_fields))]
fn is_same(a: &MachineContext, b: &MachineContext) -> bool
    ensures { result ≡ true → a.now ≡ b.now }
{
    if a.pc != b.pc || a.count != b.count {
        return false;
    }
    are_same(&a.locals, &b.locals) && are_same(&a.operands, &b.operands)
}

impl Lap {
    ghost use Rattle.std.specs.Prelude.{ℕ, ◌≤◌};
    ghost use Rattle.fmp_base.specs.Meanings.{Meaning};
    ghost use Rattle.fmp_instructions.specs.declared.instructions.MachineContext.{MachineContext as Context};
    ghost use Rattle.fmp_looking.specs.Laps.{IsLap};

    /// After more instructions, this many in all: the same, or one that begins here, if it is long.
    fn at(self, here: &MachineContext, made: u64) -> Lap
        requires { self.before ≤ made }
        ensures { (M : Meaning Context) (body : ℕ) → IsLap M body self made here.now
            → IsLap M body result made here.now }
    {
        if made - self.before < self.length {
            return self;
        }
        Lap {
            from: *here,
            before: made,
            length: self.length.saturating_mul(2),
        }
    }
}

/// Adds the branches of a stretch. One that goes round in a cycle is not gone through to its end.
fn add_stretch<B: Body<Ctx = MachineContext>>(
    alloc: Global,
    body: &B,
    code: NumberedBody<'_>,
    stretch: Stretch,
    ways: &mut BranchWays,
) -> Result<(), AllocError>
    requires entry { B.has_entry body.now code.number }
    requires context { B.is_context body.now code.number stretch.from }
    requires numbers { AreNumbers code.instructions.now code.branches_before.now }
    ensures { OnOk result (IsWithSteps 1 ways.old
        (spec.stretch_steps (B.meaning body.now) code.entry.instructions.now code.entry.number stretch.n stretch.from)
        ways.new) }
{
    let mut here = stretch.from;
    let mut lap = Lap {
        from: stretch.from,
        before: 0,
        length: 1,
    };
    for turn in 0..stretch.n {
        add_step(alloc, code, &here, 1, ways)?;
        if !goes_on(body, code.number, &mut here) {
            return Ok(());
        }
        let made = turn + 1;
        if is_same(&here, &lap.from) {
            let cycle = Cycle {
                from: here,
                n: stretch.n - made,
                length: made - lap.before,
            };
            return add_cycle(alloc, body, code, cycle, ways);
        }
        lap = lap.at(&here, made);
    }
    Ok(())
}

/// The instructions of a body; none if there is no such body.
fn instructions_of(code: &Code, entry: u8) -> &[Instruction]
    ensures { result.now ≡ spec.instructions_of (code_tables code.now) entry }
{
    match code.bodies.get(usize::from(entry)) {
        Some(body) => &body.instructions,
        None => &[],
    }
}

/// Adds the branches of an actor of a kernel up to its next call within the bound.
fn add_actor<B: Body<Ctx = MachineContext>>(
    alloc: Global,
    kernel: &Kernel<B>,
    code: NumberedCode<'_>,
    actor: &Actor<MachineContext>,
    ways: &mut BranchWays,
) -> Result<(), AllocError>
    requires entry { B.has_entry kernel.now.body actor.now.entry }
    requires context { B.is_context kernel.now.body actor.now.entry actor.now.context }
    requires numbers { AreOfCode (code_tables code.code.now) code.numbers.now }
    ensures { OnOk result (IsWithSteps 1 ways.old
        (spec.actor_steps (B.meaning kernel.now.body) (code_tables code.entry.code.now) kernel.now.bound
        (Some actor.now)) ways.new) }
{
    let numbered = NumberedBody {
        number: actor.entry,
        instructions: instructions_of(code.code, actor.entry),
        branches_before: code.numbers.body(actor.entry),
    };
    let stretch = Stretch {
        from: actor.context,
        n: kernel.bound(),
    };
    add_stretch(alloc, kernel.body(), numbered, stretch, ways)
}

/// The actor that an event runs on a kernel, if it runs one.
fn event_actor<B: Body<Ctx = MachineContext>>(
    kernel: &Kernel<B>,
    e: Event,
) -> Option<Actor<MachineContext>>
    ensures value { result ≡ spec.event_actor kernel.now e }
    ensures entry { IfSome result (λ a. B.has_entry kernel.now.body a.entry) }
    ensures context { IfSome result (λ a. B.is_context kernel.now.body a.entry a.context) }
{
    match e {
        Event::Run(p) => kernel.actor(p),
        Event::Tick | Event::Int(_) => None,
    }
}

/// Adds the branches through which an event went.
fn add_event<B: Body<Ctx = MachineContext>>(
    alloc: Global,
    kernel: &Kernel<B>,
    code: NumberedCode<'_>,
    run: EventRun,
    ways: &mut BranchWays,
) -> Result<(), AllocError>
    requires entry { IfSome run.actor (λ a. B.has_entry kernel.now.body a.entry) }
    requires context { IfSome run.actor (λ a. B.is_context kernel.now.body a.entry a.context) }
    requires numbers { AreOfCode (code_tables code.code.now) code.numbers.now }
    ensures { OnOk result (IsWithSteps 1 ways.old
        (spec.if_taken (spec.actor_steps (B.meaning kernel.now.body) (code_tables code.entry.code.now)
        kernel.now.bound run.actor) run.effect) ways.new) }
{
    match (run.actor, run.effect) {
        (None, _) | (_, Effect::Nothing) => Ok(()),
        (Some(actor), Effect::Done | Effect::Kept) => add_actor(alloc, kernel, code, &actor, ways),
    }
}

/// Takes events, and adds the branches to which bodies of this code come, with the ways that they go there.
fn add_events<B: Body<Ctx = MachineContext>>(
    alloc: Global,
    kernel: &mut Kernel<B>,
    code: NumberedCode<'_>,
    events: &[Event],
    ways: &mut BranchWays,
) -> Result<(), AllocError>
    requires few { kernel.old.taken + length events.now ≤ 2 ^ 31 }
    requires numbers { AreOfCode (code_tables code.code.now) code.numbers.now }
    ensures { OnOk result (IsWithSteps 1 ways.old
        (spec.branch_steps B.meaning (code_tables code.entry.code.now) kernel.old events.now) ways.new) }
{
    for e in events {
        let actor = event_actor(kernel, *e);
        let effect = e.take(kernel);
        add_event(alloc, kernel, code, EventRun { actor, effect }, ways)?;
    }
    Ok(())
}

/// Takes events, and adds the branches to which bodies of this code come, with the ways that they go there.
/// `AllocError` if memory runs out.
pub fn add_branch_steps<B: Body<Ctx = MachineContext>>(
    alloc: Global,
    kernel: &mut Kernel<B>,
    code: &Code,
    events: &[Event],
    ways: &mut BranchWays,
) -> Result<(), AllocError>
    requires few { kernel.old.taken + length events.now ≤ 2 ^ 31 }
    ensures { OnOk result (IsWithSteps 1 ways.old
        (spec.branch_steps B.meaning (code_tables code.now) kernel.old events.now) ways.new) }
{
    let numbers = BranchNumbers::new(alloc, code)?;
    let code = NumberedCode {
        code,
        numbers: &numbers,
    };
    add_events(alloc, kernel, code, events, ways)
}
