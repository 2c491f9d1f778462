//! What is seen of a task that can never go on, after the events that lead there.
ghost use Rattle.std.specs.Prelude.{◌≡◌, ◌≤◌, ◌<◌, ◌^◌, [], IfOk, IfSome, length};
ghost use Rattle.fmp_base.specs.States.{task_at};
ghost use Rattle.fmp_base.specs.Steps.{step};
ghost use Rattle.fmp_instructions.specs.Machine.{code_meaning};
ghost use Rattle.fmp_kernel.specs.KernelViews.{view_after};
ghost use Rattle.fmp_searching.specs.Fresh.{HasSeen};
ghost use Rattle.fmp_searching.specs.Stuck.{IsHeldUp};

use crate::fresh::fresh_kernel;
use fmp_base::arguments::numbered;
use fmp_base::{Call, Effect, Event, Handler, Stretch, TaskBlock};
use fmp_code::{MachineContext, Vm};
use fmp_explore::CallSite;
use fmp_image_bytes::Image;
use fmp_kernel::{Actor, Body, Kernel};
use std::alloc::{AllocError, Global};

/// The most events that a kernel takes.
const TAKEN_MOST: u32 = 1 << 20;

/// How many instructions a call is looked for.
const FAR: u64 = 1 << 20;

/// A spin lock for which a task spins, by its place, and the call by which it does.
#[derive(Clone, Copy)]
pub struct Spun {
    pub lock: u8,
    pub site: CallSite,
}

/// A task that does not go on.
#[derive(Clone, Copy)]
pub struct HeldUp {
    pub block: TaskBlock,
    /// What it spins for, if it spins.
    pub spun: Option<Spun>,
}

/// The call to which an actor over these bodies comes next, and its position; none if it comes to none, or is far
/// from it.
fn next_call<B: Body<Ctx = MachineContext>>(
    body: &B,
    actor: &Actor<MachineContext>,
) -> Option<(Call, CallSite)>
    requires entry { B.has_entry body.now actor.now.entry }
    requires context { B.is_context body.now actor.now.entry actor.now.context }
{
    match body.stretch(actor.entry, FAR, actor.context) {
        Stretch::Call(context, call) => {
            let site = CallSite {
                body: actor.entry,
                pc: context.pc.saturating_sub(1),
            };
            Some((call, site))
        }
        Stretch::End(_) | Stretch::Fault(..) | Stretch::Over(_) => None,
    }
}

/// Whether a processor runs this task and no handler.
fn runs(run: Option<u8>, handler: Option<Handler>, task: u8) -> bool {
    match (run, handler) {
        (Some(other), None) => other == task,
        _ => false,
    }
}

/// The number, from 1, of the processor that runs a task and no handler, if one does.
fn processor_of<B: Body>(kernel: &Kernel<B>, task: u8) -> Option<u8> {
    let tables = kernel.tables();
    for p in 0..tables.processor_count() as u8 {
        let cpu = tables.processor(p);
        if runs(cpu.run, cpu.handler, task) {
            return Some(p + 1);
        }
    }
    None
}

/// The spin lock that a task of a kernel over these bodies asks for next, if it runs and comes to a call that asks for
/// one.
fn asked_by<B: Body<Ctx = MachineContext>>(kernel: &Kernel<B>, body: &B, task: u8) -> Option<Spun>
    requires { body.now ≡ kernel.now.body }
{
    let actor = kernel.actor(processor_of(kernel, task)?)?;
    let (call, site) = next_call(body, &actor)?;
    let Call::LocSpn { lock } = call else {
        return None;
    };
    let lock = numbered(kernel.tables().spin_lock_count(), lock)?;
    Some(Spun { lock, site })
}

/// How a task stands that can never go on, on a kernel over these bodies. Where it runs and asks for a spin lock, it
/// spins.
fn held_up_in<B: Body<Ctx = MachineContext>>(
    kernel: &Kernel<B>,
    body: &B,
    task: u8,
) -> Option<HeldUp>
    requires { body.now ≡ kernel.now.body }
    ensures { IfSome result (λ held. held.block ≡ task_at kernel.now.world.state.tasks task) }
{
    let tables = kernel.tables();
    if usize::from(task) >= tables.task_count() {
        return None;
    }
    let block = tables.task(task);
    let spun = asked_by(kernel, body, task);
    Some(HeldUp { block, spun })
}

/// Takes an event, unless as many are taken as a kernel takes.
fn advance(kernel: &mut Kernel<Vm<'_>>, e: Event) -> Effect
    ensures body { kernel.new.body ≡ kernel.old.body }
    ensures taken { kernel.old.taken < 2 ^ 20 → kernel.new ≡ view_after kernel.old (step kernel.old.system
        (code_meaning kernel.old.body) kernel.old.bound kernel.old.world e) }
{
    if kernel.taken() >= TAKEN_MOST {
        return Effect::Nothing;
    }
    kernel.step(e)
}

/// Takes these events, as many as a kernel takes.
fn advance_all(kernel: &mut Kernel<Vm<'_>>, image: &Image, n: u64, events: &[Event])
    requires { HasSeen image.now n [] kernel.old }
    ensures body { kernel.new.body ≡ image.now.code }
    ensures seen { length events.now ≤ 2 ^ 20 → HasSeen image.now n events.now kernel.new }
{
    for e in events {
        let _effect = advance(kernel, *e);
    }
}

/// How a task stands that can never go on after events with this bound on the kernel of an image.
fn held_up_on<'a>(
    kernel: &mut Kernel<Vm<'a>>,
    image: &'a Image,
    n: u64,
    events: &[Event],
    task: u8,
) -> Option<HeldUp>
    requires { HasSeen image.now n [] kernel.old }
    ensures { IfSome result (IsHeldUp image.now n events.now task) }
{
    advance_all(kernel, image, n, events);
    held_up_in(kernel, &image.vm(), task)
}

/// How the task at a place of an image stands that can never go on after events with this bound; none if there is no
/// such task. `AllocError` if memory runs out.
pub fn held_up(
    alloc: Global,
    image: &Image,
    n: u64,
    events: &[Event],
    task: u8,
) -> Result<Option<HeldUp>, AllocError>
    ensures { IfOk result (λ held. IfSome held (IsHeldUp image.now n events.now task)) }
{
    let mut kernel = fresh_kernel(alloc, image, n)?;
    let held = held_up_on(&mut kernel, image, n, events, task);
    drop(kernel);
    Ok(held)
}
