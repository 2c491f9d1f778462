//! Where bodies stand: the call that the next stretch of a processor makes, who makes it, and the calls in which tasks
//! wait.
ghost use Rattle.std.specs.Prelude.{◌≡◌, slice_get};
ghost use Rattle.std.specs.Option.{option_map};
ghost use Rattle.fmp_base.specs.Meanings.{context_at};
ghost use Rattle.fmp_explore.specs.Stretching.{body_in, call_in, last_site};

use fmp_base::{Event, Stretch, System};
use fmp_code::MachineContext;
use fmp_kernel::{Actor, Body, Kernel};
use fmp_question::{CallSite, Outlook, body_of, last_call};

/// How the stretch of an event ends.
#[derive(Clone, Copy)]
pub enum NextStretch {
    /// The event has no stretch.
    None,
    /// With the call at this place.
    Calls(CallSite),
    /// The body ends, or stops with a fault, which is at this place or after it.
    Ends(CallSite),
    /// It reaches the bound, from this place on.
    Keeps(CallSite),
}

impl NextStretch {
    /// The call that the stretch makes, if it makes one.
    pub fn call(self) -> Option<CallSite>
        ensures { result ≡ call_in self }
    {
        match self {
            NextStretch::Calls(site) => Some(site),
            _ => None,
        }
    }

    /// The head of the body that makes the stretch, if there is one.
    pub fn body(self) -> Option<CallSite>
        ensures { result ≡ body_in self }
    {
        match self {
            NextStretch::Calls(site) | NextStretch::Ends(site) | NextStretch::Keeps(site) => {
                Some(CallSite {
                    body: site.body,
                    pc: 0,
                })
            }
            NextStretch::None => None,
        }
    }
}

/// What is known of the stretch of an event before the event is taken.
#[derive(Clone, Copy)]
pub struct Ahead {
    /// The call that it makes, if it makes one.
    pub made: Option<CallSite>,
    /// What becomes of the actor whose place it keeps, where that was looked at.
    pub outlook: Option<Outlook>,
}

/// The task that acts on the processor of this number, from 1, if one does.
pub fn task_on<B: Body>(kernel: &Kernel<B>, p: u8) -> Option<u8> {
    let tables = kernel.tables();
    if p == 0 || usize::from(p) > tables.processor_count() {
        return None;
    }
    let cpu = tables.processor(p - 1);
    match cpu.handler {
        Some(_) => None,
        None => cpu.run,
    }
}

/// How the stretch of an actor ends.
fn next_of<B: Body<Ctx = MachineContext>>(
    body: &B,
    n: u64,
    actor: &Actor<MachineContext>,
) -> NextStretch
    requires entry { B.has_entry body.now actor.now.entry }
    requires context { B.is_context body.now actor.now.entry actor.now.context }
{
    let site = CallSite {
        body: actor.entry,
        pc: actor.context.pc,
    };
    match body.stretch(actor.entry, n, actor.context) {
        Stretch::Call(context, _) => NextStretch::Calls(CallSite {
            body: actor.entry,
            pc: context.pc.saturating_sub(1),
        }),
        Stretch::End(_) | Stretch::Fault(..) => NextStretch::Ends(site),
        Stretch::Over(_) => NextStretch::Keeps(site),
    }
}

/// How the stretch of an event would end on a kernel over these bodies with this bound.
pub fn next_stretch<B: Body<Ctx = MachineContext>>(
    kernel: &Kernel<B>,
    body: &B,
    n: u64,
    e: Event,
) -> NextStretch
    requires { body.now ≡ kernel.now.body }
{
    let Event::Run(p) = e else {
        return NextStretch::None;
    };
    match kernel.actor(p) {
        Some(actor) => next_of(body, n, &actor),
        None => NextStretch::None,
    }
}

/// The last call of the body of the task at a place, if there is one. Where the task waits, or has just got the reply
/// for which it waited, that is the call in which it waits or waited.
pub fn task_site<B: Body<Ctx = MachineContext>>(
    kernel: &Kernel<B>,
    sys: &System,
    t: u8,
) -> Option<CallSite>
    ensures { result ≡ option_map (λ config. last_site config (context_at kernel.now.world.contexts.tasks t))
        (slice_get sys.now.tasks.items t) }
{
    let config = sys.tasks.get(usize::from(t))?;
    Some(CallSite {
        body: body_of(config.entry),
        pc: last_call(kernel.held(t)),
    })
}
