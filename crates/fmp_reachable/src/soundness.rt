//! Whether the world of a kernel is sound. What the kernel does not know of itself is tested, task by task and
//! processor by processor.
ghost use Rattle.std.specs.Prelude.{◌≡◌, ◌<◌, ◌≤◌, ℕ, None, Some, false, get_or, length, pos, true, IfSome};
ghost use Rattle.fmp_base.specs.DataQueueCalls.{words_at};
ghost use Rattle.fmp_base.specs.MailboxCalls.{messages_at};
ghost use Rattle.fmp_base.specs.declared.states.Handler.TheVariants.{Cyclic, Interrupt};
ghost use Rattle.fmp_base.specs.Meanings.{body_in, context_at, context_in, context_of};
ghost use Rattle.fmp_base.specs.Meanings.{handler_start, kept_context, task_body};
ghost use Rattle.fmp_base.specs.States.{processor_at, task_at};
ghost use Rattle.fmp_base.specs.Systems.{body_of, data_queue_config, interrupt_config};
ghost use Rattle.fmp_base.specs.Ticks.{is_pending};
ghost use Rattle.fmp_contexts.specs.Contexts.{is_going};
ghost use Rattle.fmp_reachable.specs.Rooms.{is_handler_of, locals_at};
ghost use Rattle.fmp_reachable.specs.Sound.{IsSound, sizes, sizes_of};
ghost use Rattle.fmp_reachable.specs.Tested.{HasClearLocals, IsAtRest, IsKept, KeepsOwnLocals, StartsIn};
ghost use Rattle.fmp_reachable.specs.Tested.{IsSoundHandler, IsSoundOn, IsSoundTask};
ghost use Rattle.fmp_ring.specs.Orders.{IsOrder};
ghost use Rattle.fmp_tasks.specs.Homes.{is_waiting};

use fmp_base::{Caller, Entry, Handler, Phase, TaskBlock};
use fmp_code::Vm;
use fmp_instructions::MachineContext;
use fmp_kernel::Kernel;
use fmp_tasks::KernelState;

/// The handler that a processor runs, whichever it is: what is kept of it goes by its processor.
const ITS_HANDLER: Caller = Caller::Handler(Handler::Cyclic(0));

/// How many interrupts there are.
const INTERRUPTS: u8 = 32;

/// The number of the body of an entry.
fn body_number(entry: Entry) -> u8
    ensures { result ≡ body_of entry }
{
    match entry {
        Entry::Body(body) => body,
        Entry::Named(_) => 0,
    }
}

/// Whether a task is at rest if it is dormant: it has no deadline, and is not suspended.
#[tactic(auto, using(crate::proofs::TestedLaws::rest_dormant, crate::proofs::TestedLaws::rest_other))]
fn is_at_rest(x: &TaskBlock) -> bool
    ensures { result ≡ true → IsAtRest x.now }
{
    match x.phase {
        Phase::Dormant => {
            if x.suspended {
                false
            } else {
                x.deadline.is_none()
            }
        }
        Phase::Ready => true,
        Phase::Waiting(_) => true,
    }
}

/// Whether the locals hold 0 from this one on.
fn is_clear_from(locals: &[i32; 64], first: u8) -> bool
    ensures long { length locals.now ≡ 64 }
    ensures clear { result ≡ true → (k : ℕ) → first ≤ k → k < 64 → get_or locals.now k (pos 0) ≡ pos 0 }
{
    // Counted in a loop of known length, and not left at the first one: so several are looked at at once.
    let mut zeros: u32 = 0;
    for k in 0..64 {
        if locals[k] == 0 {
            zeros += 1;
        }
    }
    for k in 0..usize::from(first).min(64) {
        if locals[k] != 0 {
            zeros += 1;
        }
    }
    zeros == 64
}

/// Whether this is a context with 0 in its locals after those of a body.
fn has_clear_locals(context: &MachineContext, own: u8) -> bool
    ensures { result ≡ true → HasClearLocals own context.now }
{
    is_clear_from(&context.locals, own)
}

/// How many locals the body of an entry has.
fn local_count(kernel: &Kernel<Vm<'_>>, entry: u8) -> u8
    ensures { result ≡ locals_at kernel.now.body entry }
{
    kernel.body().local_count(entry)
}

/// Whether a context is kept of the caller on processor p, with 0 in its locals after those of the body of this
/// entry.
#[tactic(auto, using(crate::proofs::TestedLaws::own_locals))]
fn keeps_own_locals(kernel: &Kernel<Vm<'_>>, p: u8, who: Caller, entry: u8) -> bool
    ensures { result ≡ true
        → KeepsOwnLocals kernel.now.body entry (kept_context (context_of kernel.now.world.contexts p who)) }
{
    match kernel.context(p, who) {
        Some(context) => has_clear_locals(context, local_count(kernel, entry)),
        None => false,
    }
}

/// Whether task t awaits a reply if it is in a phase in which it waits.
fn awaits_if_waiting(kernel: &Kernel<Vm<'_>>, t: u8, phase: Phase) -> bool
    ensures { result ≡ true → is_waiting phase ≡ true
        → is_going (context_at kernel.now.world.contexts.tasks t) ≡ false }
{
    match phase {
        Phase::Waiting(_) => !kernel.goes(0, Caller::Task(t)),
        Phase::Dormant => true,
        Phase::Ready => true,
    }
}

/// The block of task t.
fn block_of(kernel: &Kernel<Vm<'_>>, t: u8) -> TaskBlock
    requires { t < length kernel.now.system.tasks }
    ensures { result ≡ task_at kernel.now.world.state.tasks t }
{
    kernel.tables().task(t)
}

/// The number of the body of task t.
fn body_of_task(kernel: &Kernel<Vm<'_>>, t: u8) -> u8
    requires { t < length kernel.now.system.tasks }
    ensures { result ≡ task_body kernel.now.system t }
{
    body_number(kernel.tables().task_config(t).entry)
}

/// Whether task t is at rest if it is dormant, awaits a reply if it waits, and keeps a context of its body.
fn is_sound_task(kernel: &Kernel<Vm<'_>>, t: u8) -> bool
    requires { t < length kernel.now.system.tasks }
    ensures { result ≡ true → IsSoundTask kernel.now.system kernel.now.body kernel.now.world t }
{
    let x = block_of(kernel, t);
    if !is_at_rest(&x) {
        return false;
    }
    if !awaits_if_waiting(kernel, t, x.phase) {
        return false;
    }
    keeps_own_locals(kernel, 0, Caller::Task(t), body_of_task(kernel, t))
}

/// Whether each task is sound.
fn are_sound_tasks(kernel: &Kernel<Vm<'_>>) -> bool
    ensures { result ≡ true → (t : ℕ) → t < length kernel.now.system.tasks →
        IsSoundTask kernel.now.system kernel.now.body kernel.now.world t }
{
    let count = kernel.tables().task_count() as u8;
    for t in 0..count {
        if !is_sound_task(kernel, t) {
            return false;
        }
    }
    true
}

/// The body of the handler of the interrupt at a place, if that is one of processor p.
#[tactic(auto, using(crate::proofs::TestedLaws::on_interrupt, crate::proofs::TestedLaws::starts_interrupt))]
fn body_of_interrupt(tables: &KernelState, p: u8, i: u8) -> Option<u8>
    ensures own { IfSome result (λ body. is_handler_of tables.now.system p (Interrupt i) ≡ true) }
    ensures starts { IfSome result (λ body. StartsIn body (handler_start tables.now.system (Interrupt i))) }
{
    if i >= INTERRUPTS {
        return None;
    }
    let config = tables.interrupt_config(i)?;
    if config.processor == p {
        Some(body_number(config.entry))
    } else {
        None
    }
}

/// The body of the cyclic handler at a place, if that is one of processor p.
#[tactic(auto, using(crate::proofs::TestedLaws::on_cyclic, crate::proofs::TestedLaws::starts_cyclic))]
fn body_of_cyclic(tables: &KernelState, p: u8, c: u8) -> Option<u8>
    ensures own { IfSome result (λ body. is_handler_of tables.now.system p (Cyclic c) ≡ true) }
    ensures starts { IfSome result (λ body. StartsIn body (handler_start tables.now.system (Cyclic c))) }
{
    if c as usize >= tables.cyclic_count() {
        return None;
    }
    let config = tables.cyclic_config(c);
    if config.processor == p {
        Some(body_number(config.entry))
    } else {
        None
    }
}

/// The body of a handler of processor p. None of a handler that is none of p's.
fn body_on(tables: &KernelState, p: u8, h: Handler) -> Option<u8>
    ensures own { IfSome result (λ body. is_handler_of tables.now.system p h ≡ true) }
    ensures starts { IfSome result (λ body. StartsIn body (handler_start tables.now.system h)) }
{
    match h {
        Handler::Interrupt(i) => body_of_interrupt(tables, p, i),
        Handler::Cyclic(c) => body_of_cyclic(tables, p, c),
    }
}

/// Whether what is kept of the handler of processor p is a context of this body, and goes on.
fn keeps_context(kernel: &Kernel<Vm<'_>>, p: u8, body: u8) -> bool
    ensures same { result ≡ true → body_in (context_at kernel.now.world.contexts.handlers p) ≡ body }
    ensures goes { result ≡ true → is_going (context_in (context_at kernel.now.world.contexts.handlers p)) ≡ true }
    ensures locals { result ≡ true → KeepsOwnLocals kernel.now.body body
        (kept_context (context_in (context_at kernel.now.world.contexts.handlers p))) }
{
    if kernel.handler_body(p) != body {
        return false;
    }
    if !kernel.goes(p, ITS_HANDLER) {
        return false;
    }
    keeps_own_locals(kernel, p, ITS_HANDLER, body)
}

/// Whether handler h, which runs on processor p, is one of p, and what is kept is a context of its body that goes on.
fn keeps_handler(kernel: &Kernel<Vm<'_>>, p: u8, h: Handler) -> bool
    ensures { result ≡ true → IsSoundHandler kernel.now.system kernel.now.body p (Some h)
        (context_at kernel.now.world.contexts.handlers p) }
{
    match body_on(kernel.tables(), p, h) {
        Some(body) => keeps_context(kernel, p, body),
        None => false,
    }
}

/// Whether nothing is kept of a handler of processor p.
fn keeps_nothing(kernel: &Kernel<Vm<'_>>, p: u8) -> bool
    ensures { result ≡ true
        → kept_context (context_in (context_at kernel.now.world.contexts.handlers p)) ≡ None }
{
    match kernel.context(p, ITS_HANDLER) {
        Some(_) => false,
        None => true,
    }
}

/// The handler that runs on processor p, if one does.
fn handler_on(kernel: &Kernel<Vm<'_>>, p: u8) -> Option<Handler>
    requires { p < kernel.now.system.processors }
    ensures { result ≡ (processor_at kernel.now.world.state p).handler }
{
    kernel.tables().processor(p).handler
}

/// Whether a context is kept of the handler of processor p just where one runs, and is one of its body.
#[tactic(auto, using(crate::proofs::TestedLaws::sound_on))]
fn is_sound_on(kernel: &Kernel<Vm<'_>>, p: u8) -> bool
    requires { p < kernel.now.system.processors }
    ensures { result ≡ true → IsSoundOn kernel.now.system kernel.now.body kernel.now.world p }
{
    match handler_on(kernel, p) {
        Some(h) => keeps_handler(kernel, p, h),
        None => keeps_nothing(kernel, p),
    }
}

/// Whether each processor is sound.
fn are_sound_processors(kernel: &Kernel<Vm<'_>>) -> bool
    ensures { result ≡ true → (p : ℕ) → p < kernel.now.system.processors →
        IsSoundOn kernel.now.system kernel.now.body kernel.now.world p }
{
    let count = kernel.tables().processor_count() as u8;
    for p in 0..count {
        if !is_sound_on(kernel, p) {
            return false;
        }
    }
    true
}

/// Whether no interrupt is pending that has no handler.
fn is_quiet(tables: &KernelState) -> bool
    ensures { result ≡ true → (i : ℕ) → i < 32 → interrupt_config tables.now.system i ≡ None →
        is_pending tables.now.state.pending_interrupts i ≡ false }
{
    // Mostly none is pending. They are counted, so several are looked at at once.
    let mut pending: u32 = 0;
    for number in 0..INTERRUPTS {
        if tables.is_interrupt_pending(number) {
            pending += 1;
        }
    }
    if pending == 0 {
        return true;
    }
    for i in 0..INTERRUPTS {
        if tables.is_interrupt_pending(i) && tables.interrupt_config(i).is_none() {
            return false;
        }
    }
    true
}

/// Whether no data queue holds more words than its capacity.
fn are_within_capacity(tables: &KernelState) -> bool
    ensures { result ≡ true → (d : ℕ) → d < length tables.now.state.data_queues →
        length (words_at tables.now.state d) ≤ (data_queue_config tables.now.system d).capacity }
{
    let count = tables.data_queue_count() as u8;
    for d in 0..count {
        if tables.data_queue_length(d) > tables.data_queue_config(d).capacity {
            return false;
        }
    }
    true
}

/// No message is in a mailbox twice.
fn mailboxes_have_each_once(tables: &KernelState)
    ensures { (x : ℕ) → x < length tables.now.system.mailboxes →
        IsOrder (length tables.now.system.messages) (messages_at tables.now.state x) }
{
    let count = tables.mailbox_count() as u8;
    for x in 0..count {
        tables.mailbox_has_each_once(x);
    }
}

/// There are as many of each as in the system.
fn sizes_are_those_of_the_system(tables: &KernelState)
    ensures { sizes tables.now.state ≡ sizes_of tables.now.system }
{
    let _ = tables.task_count();
    let _ = tables.processor_count();
    let _ = tables.cyclic_count();
    let _ = tables.semaphore_count();
    let _ = tables.flag_count();
    let _ = tables.data_queue_count();
    let _ = tables.mailbox_count();
    let _ = tables.shared_word_count();
    tables.interrupts_are_all_there();
}

/// What a kernel knows of its state without a test.
fn state_is_kept(tables: &KernelState)
    ensures { IsKept tables.now.system tables.now.state }
{
    tables.order_is_standing();
    tables.times_lie_ahead();
    tables.mailboxes_are_disjoint();
    let _ = tables.mailbox_count();
    mailboxes_have_each_once(tables);
    tables.interrupts_are_all_there();
    sizes_are_those_of_the_system(tables);
}

/// Whether the world of a kernel is sound, as all those are that setup and events reach. False says nothing.
pub fn is_sound(kernel: &Kernel<Vm<'_>>) -> bool
    ensures { result ≡ true → IsSound kernel.now.system kernel.now.body kernel.now.world }
{
    let tables = kernel.tables();
    state_is_kept(tables);
    kernel.world_is_settled();
    kernel.contexts_fit();
    if !are_sound_tasks(kernel) {
        return false;
    }
    if !are_sound_processors(kernel) {
        return false;
    }
    if !is_quiet(tables) {
        return false;
    }
    are_within_capacity(tables)
}
