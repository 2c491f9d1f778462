//! Where the calls stand that a run makes.
ghost use Rattle.std.specs.Prelude.{◌≡◌, ◌+◌, ◌≤◌, ◌^◌, IfOk, Some, length};
ghost use Rattle.fmp_base.specs.Stretches.{ending};
ghost use Rattle.fmp_instructions.specs.Instructions.{code_tables};
ghost use Rattle.fmp_frames.specs.Made as spec;

use crate::call_positions::{CallPosition, CallPositions};
use crate::sites::CallSite;
use fmp_base::{Effect, Event, Stretch};
use fmp_instructions::{Code, MachineContext};
use fmp_kernel::{Actor, Body, Coming, Kernel};
use std::alloc::{AllocError, Global};

/// The code of bodies, and where its calls stand in their text.
#[derive(Clone, Copy)]
pub struct CodePositions<'a> {
    pub code: &'a Code,
    pub positions: &'a CallPositions,
}

/// The call that ends a stretch of a body, if a call ends it: its context is after the call then.
fn stretch_site(body: u8, stretch: Stretch<MachineContext>) -> Option<CallSite>
    ensures { result ≡ spec.ending_site body (ending stretch) }
{
    match stretch {
        Stretch::Call(context, _) => Some(CallSite {
            body,
            pc: context.pc.saturating_sub(1),
        }),
        Stretch::End(_) | Stretch::Fault(..) | Stretch::Over(_) => None,
    }
}

/// The call to which an actor over these bodies comes next within a bound; none if it comes to none.
fn actor_site<B: Body<Ctx = MachineContext>>(
    body: &B,
    n: u64,
    actor: &Actor<MachineContext>,
) -> Option<CallSite>
    requires entry { B.has_entry body.now actor.now.entry }
    requires context { B.is_context body.now actor.now.entry actor.now.context }
    ensures { result ≡ spec.actor_site (B.meaning body.now) n (Some actor.now) }
{
    stretch_site(actor.entry, body.stretch(actor.entry, n, actor.context))
}

/// The call that an event makes on a kernel, where it makes one.
pub fn event_site<B: Body<Ctx = MachineContext>>(kernel: &Kernel<B>, e: Event) -> Option<CallSite>
    ensures { result ≡ spec.event_site B.meaning kernel.now e }
{
    match e {
        Event::Run(p) => match kernel.actor(p) {
            Some(actor) => actor_site(kernel.body(), kernel.bound(), &actor),
            None => None,
        },
        Event::Tick | Event::Int(_) => None,
    }
}

/// Where a call stands, if it is known.
fn site_position(text: CodePositions<'_>, site: Option<CallSite>) -> Option<CallPosition>
    ensures { result ≡ spec.site_position (code_tables text.entry.code.now) text.entry.positions.now site }
{
    match site {
        Some(site) => text.positions.position(text.code, site.body, site.pc),
        None => None,
    }
}

/// Where the call stands that an event makes on a kernel, where it makes one.
pub fn event_position<B: Body<Ctx = MachineContext>>(
    kernel: &Kernel<B>,
    text: CodePositions<'_>,
    e: Event,
) -> Option<CallPosition>
    ensures { result ≡ spec.event_position B.meaning (code_tables text.entry.code.now) text.entry.positions.now
        kernel.now e }
{
    site_position(text, event_site(kernel, e))
}

/// Takes events, and gives for each that is done where the call stands that it makes, if it makes one. `AllocError` if
/// memory runs out.
pub fn positions_made<B: Body<Ctx = MachineContext>>(
    alloc: Global,
    kernel: &mut Kernel<B>,
    text: CodePositions<'_>,
    events: &[Event],
) -> Result<Vec<Option<CallPosition>>, AllocError>
    requires few { kernel.old.taken + length events.now ≤ 2 ^ 31 }
    ensures { IfOk result (λ made. made.items ≡ spec.positions_made B.meaning (code_tables text.entry.code.now)
        text.entry.positions.now kernel.old events.now) }
{
    let mut made = Vec::new(alloc);
    for e in events {
        let position = event_position(kernel, text, *e);
        match e.take(kernel) {
            Effect::Done => made.push(position)?,
            Effect::Kept => {}
            Effect::Nothing => {}
        }
    }
    Ok(made)
}
