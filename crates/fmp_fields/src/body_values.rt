//! The values of the fields of bodies. A context is read where it stands: no dead local is written.
ghost use Rattle.std.specs.Prelude.{◌≡◌, ◌<◌, IsSome, IsTrue, get_or, length, not, pos, true};
ghost use Rattle.std.specs.Option.{option_copied};
ghost use Rattle.fmp_base.specs.Meanings.{kept_context};
ghost use Rattle.fmp_base.specs.States.{task_at};
ghost use Rattle.fmp_base.specs.TaskCalls.{is_dormant};
ghost use Rattle.fmp_contexts.specs.Contexts.{is_going};
ghost use Rattle.fmp_fields.specs.FieldNumbers.{body_number, owned_by};
ghost use Rattle.fmp_fields.specs.Reading.{IsOwned, body_by, kept_by, with_zeros};
ghost use Rattle.fmp_live.specs.LiveLocals.{live_tables};
ghost use Rattle.fmp_live.specs.Zeroed.{zeroed, zeroed_by};
ghost use Rattle.fmp_reachable.specs.Numbers as numbers;

use crate::field::What;
use crate::owner::Owner;
use crate::room::body_of;
use fmp_base::{Body, Caller, Handler, Phase};
use fmp_instructions::MachineContext;
use fmp_kernel::Kernel;
use fmp_live::LiveLocals;
use fmp_reachable::numbers::unsigned;
use fmp_tasks::KernelState;

/// The handler that a processor runs, whichever it is: what is kept of it goes by its processor.
const ITS_HANDLER: Caller = Caller::Handler(Handler::Cyclic(0));

/// Whether there is such a task, and it is started.
fn is_started(tables: &KernelState, t: u8) -> bool
    ensures started { result ≡ not (is_dormant (task_at tables.now.state.tasks t).phase) }
    ensures there { IsTrue result → t < length tables.now.system.tasks }
{
    usize::from(t) < tables.task_count() && !matches!(tables.task(t).phase, Phase::Dormant)
}

/// The context that is kept of an owner, if there is one.
fn kept_of<B: Body<Ctx = MachineContext>>(
    kernel: &Kernel<B>,
    owner: Owner,
) -> Option<&MachineContext>
    ensures { option_copied result ≡ kept_context (kept_by kernel.now.world.contexts owner) }
{
    match owner {
        Owner::Task(t) => kernel.context(0, Caller::Task(t)),
        Owner::Handler(p) => kernel.context(p, ITS_HANDLER),
    }
}

/// Whether an owner goes on from its context.
fn goes<B: Body<Ctx = MachineContext>>(kernel: &Kernel<B>, owner: Owner) -> bool
    ensures { result ≡ is_going (kept_by kernel.now.world.contexts owner) }
{
    match owner {
        Owner::Task(t) => kernel.goes(0, Caller::Task(t)),
        Owner::Handler(p) => kernel.goes(p, ITS_HANDLER),
    }
}

/// The number of an owner's body.
fn body_number_of<B: Body<Ctx = MachineContext>>(kernel: &Kernel<B>, owner: Owner) -> u8
    requires { IsOwned kernel.now.system owner }
    ensures { result ≡ body_by kernel.now.system kernel.now.world.contexts owner }
{
    match owner {
        Owner::Task(t) => body_of(kernel.tables().task_config(t).entry),
        Owner::Handler(p) => kernel.handler_body(p),
    }
}

/// The context of an owner's body, if there is one: of a task that is started, or of a handler that runs.
pub fn context_of<B: Body<Ctx = MachineContext>>(
    kernel: &Kernel<B>,
    owner: Owner,
) -> Option<&MachineContext>
    ensures value { option_copied result ≡ owned_by kernel.now.world owner }
    ensures there { IsSome result → IsOwned kernel.now.system owner }
{
    if let Owner::Task(t) = owner
        && !is_started(kernel.tables(), t)
    {
        return None;
    }
    kept_of(kernel, owner)
}

/// Which locals of an owner's body are live, where its context is this one.
#[tactic(auto, using(crate::proofs::ZeroedBodies::owned_zeroed, crate::proofs::ZeroedBodies::none_zeroed))]
pub fn row_of<'a, B: Body<Ctx = MachineContext>>(
    kernel: &Kernel<B>,
    live: &'a LiveLocals,
    owner: Owner,
    context: Option<&MachineContext>,
) -> &'a [bool]
    requires value { option_copied context ≡ owned_by kernel.now.world owner }
    requires there { IsSome context → IsOwned kernel.now.system owner }
    ensures { with_zeros result.now (option_copied context.entry)
        ≡ owned_by (zeroed kernel.now.system (live_tables live.now) kernel.now.world) owner }
{
    match context {
        Some(context) => live.row(
            body_number_of(kernel, owner),
            context.pc,
            goes(kernel, owner),
        ),
        None => &[],
    }
}

/// A number of those that a body keeps; 0 if there is no such one.
pub fn number_at(values: &[i32; 64], i: u8) -> u32
    ensures { result ≡ numbers.unsigned (get_or values.now i (pos 0)) }
{
    match values.get(usize::from(i)) {
        Some(number) => unsigned(*number),
        None => 0,
    }
}

/// Whether a local is live by a row. One after its end is.
fn is_live(row: &[bool], l: u8) -> bool
    ensures { result ≡ get_or row.now l true }
{
    match row.get(usize::from(l)) {
        Some(live) => *live,
        None => true,
    }
}

/// A local; 0 if a row calls it dead, or there is no such one.
#[tactic(auto, using(crate::proofs::ZeroedBodies::local_dead, crate::proofs::ZeroedBodies::local_live))]
pub fn local_at(row: &[bool], locals: &[i32; 64], l: u8) -> u32
    ensures { result ≡ numbers.unsigned (get_or (zeroed_by row.now locals.now) l (pos 0)) }
{
    if is_live(row, l) {
        number_at(locals, l)
    } else {
        0
    }
}

/// A field of a body with this context and this row of live locals; 0 of any other field, and where there is none.
pub fn body_value(context: Option<&MachineContext>, row: &[bool], what: What) -> u32
    ensures { result ≡ body_number (with_zeros row.now (option_copied context.entry)) what }
{
    let Some(context) = context else {
        return 0;
    };
    match what {
        What::Pc(_) | What::HandlerPc(_) => u32::from(context.pc),
        What::Local(_, l) | What::HandlerLocal(_, l) => local_at(row, &context.locals, l),
        What::Operands(_) | What::HandlerOperands(_) => u32::from(context.count),
        What::Operand(_, i) | What::HandlerOperand(_, i) => number_at(&context.operands, i),
        _ => 0,
    }
}
