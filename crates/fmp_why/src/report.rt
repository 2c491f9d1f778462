//! What is said of the tasks that wait and spin.
ghost use Rattle.std.specs.Prelude.{◌≡◌, ◌++◌, IfOk, OnOk, decimal};
ghost use Rattle.fmp_base.specs.Systems.{tables_of};
ghost use Rattle.fmp_why.specs.declared.verdicts.SystemVerdict.TheVariants.{Deadlock};
ghost use Rattle.fmp_why.specs.Reports as spec;
ghost use Rattle.fmp_why.specs.Reports.{report, sight_of};
ghost use Rattle.fmp_why.specs.Waits.{object_of as for_object};

use crate::cycles::cycle_tasks;
use crate::history::{History, ObjectDeed};
use crate::obstacles::{SpinWait, blocker_of, spin_of};
use crate::quiet::{deadlock_text, is_quiet, left_text};
use crate::verdicts::{SystemVerdict, verdict_of};
use crate::waits::{deed_for, deed_words, object_of};
use fmp_base::{Lock, ObjectKind, Phase, Processor, System, TaskBlock, WaitCause};
use fmp_json::{append, append_number};
use fmp_named::{append_caller, append_object, append_task, append_wait};
use std::alloc::{AllocError, Global};

/// A state, and what was told before it.
#[derive(Clone, Copy)]
pub struct Scene<'a> {
    pub sys: &'a System,
    pub history: &'a History,
    /// The tasks.
    pub blocks: &'a [TaskBlock],
    /// The processors.
    pub processors: &'a [Processor],
    /// What the actor of each processor spins for.
    pub spins: &'a [Option<SpinWait>],
    /// Whether the next stretch on each processor reaches the bound, and so comes to no call.
    pub over: &'a [bool],
}

fn append_event(words: &[u8], event: u32, out: &mut Vec<u8>) -> Result<(), AllocError>
    ensures { OnOk result (out.new.items ≡ out.old.items ++ (words.now ++ decimal event)) }
{
    append(words, out)?;
    append_number(u64::from(event), out)
}

/// Appends what was done to an object last, between words.
fn append_deed(
    sys: &System,
    front: &[u8],
    back: &[u8],
    deed: Option<ObjectDeed>,
    out: &mut Vec<u8>,
) -> Result<(), AllocError>
    ensures { OnOk result (out.new.items
        ≡ out.old.items ++ spec.deed_text (tables_of sys.now) front.now back.now deed) }
{
    match deed {
        Some(deed) => {
            append(front, out)?;
            append_caller(sys, deed.actor, out)?;
            append_event(b" at event ", deed.event, out)?;
            append(back, out)
        }
        None => Ok(()),
    }
}

/// Who took the object of a kind at a place last, and at which event.
fn taken_of(scene: &Scene<'_>, object: (ObjectKind, u8)) -> Option<ObjectDeed>
    ensures { result ≡ spec.taken_of (sight_of scene.now) object.0 object.1 }
{
    let (kind, place) = object;
    scene.history.trail(kind, place).taken
}

/// Appends who took an object last, between words.
#[tactic(auto, unfolding(crate::specs::Reports::taken_text))]
fn append_taken(
    scene: &Scene<'_>,
    front: &[u8],
    back: &[u8],
    object: (ObjectKind, u8),
    out: &mut Vec<u8>,
) -> Result<(), AllocError>
    ensures { OnOk result (out.new.items
        ≡ out.old.items ++ spec.taken_text (sight_of scene.now) front.now back.now object.0 object.1) }
{
    append_deed(scene.sys, front, back, taken_of(scene, object), out)
}

/// Appends who acted last on what a task waits for.
fn append_acted(scene: &Scene<'_>, cause: WaitCause, out: &mut Vec<u8>) -> Result<(), AllocError>
    ensures { OnOk result (out.new.items
        ≡ out.old.items ++ spec.acted_text (sight_of scene.now) cause (for_object cause)) }
{
    match object_of(cause) {
        Some((kind, place)) => {
            let deed = deed_for(cause, scene.history.trail(kind, place));
            append_deed(scene.sys, deed_words(cause).as_bytes(), b"", deed, out)
        }
        None => Ok(()),
    }
}

/// Appends since which event a task stands where it does.
fn append_since(scene: &Scene<'_>, task: usize, out: &mut Vec<u8>) -> Result<(), AllocError>
    ensures { OnOk result (out.new.items ≡ out.old.items ++ spec.since_text (sight_of scene.now) task) }
{
    append_event(b", since event ", scene.history.since(task), out)
}

/// Appends for what a task waits, until when, since which event, and who acted last on what it waits for.
fn append_waiting(
    scene: &Scene<'_>,
    task: usize,
    block: &TaskBlock,
    cause: WaitCause,
    out: &mut Vec<u8>,
) -> Result<(), AllocError>
    ensures { OnOk result (out.new.items
        ≡ out.old.items ++ spec.waiting_line (sight_of scene.now) task block.now cause) }
{
    append_task(scene.sys, task, out)?;
    append(b" waits ", out)?;
    append_wait(scene.sys, block, out)?;
    append_since(scene, task, out)?;
    append_acted(scene, cause, out)?;
    append(b"\n", out)
}

/// Appends what a task does, and for which object.
#[tactic(auto, unfolding(crate::specs::Reports::doing_text))]
fn append_doing(
    scene: &Scene<'_>,
    task: usize,
    does: &[u8],
    object: (ObjectKind, u8),
    out: &mut Vec<u8>,
) -> Result<(), AllocError>
    ensures { OnOk result (out.new.items
        ≡ out.old.items ++ spec.doing_text (sight_of scene.now) task does.now object.0 object.1) }
{
    let (kind, place) = object;
    append_task(scene.sys, task, out)?;
    append(does, out)?;
    append_object(scene.sys, kind, place, out)
}

/// Appends for what a task spins, since which event, and who took it.
fn append_spin(
    scene: &Scene<'_>,
    task: usize,
    spin: SpinWait,
    out: &mut Vec<u8>,
) -> Result<(), AllocError>
    ensures { OnOk result (out.new.items ≡ out.old.items ++ spec.spin_line (sight_of scene.now) task spin) }
{
    let lock = (ObjectKind::SpinLock, spin.lock);
    append_doing(scene, task, b" spins for ", lock, out)?;
    append_since(scene, task, out)?;
    append_taken(scene, b"; taken by ", b"", lock, out)?;
    append(b"\n", out)
}

/// Appends for what a task spins, if it does.
fn append_spinning(
    scene: &Scene<'_>,
    task: usize,
    spin: Option<SpinWait>,
    out: &mut Vec<u8>,
) -> Result<(), AllocError>
    ensures { OnOk result (out.new.items
        ≡ out.old.items ++ spec.spinning_line (sight_of scene.now) task spin) }
{
    match spin {
        Some(spin) => append_spin(scene, task, spin, out),
        None => Ok(()),
    }
}

/// Appends that a task is suspended.
fn append_suspended(scene: &Scene<'_>, task: usize, out: &mut Vec<u8>) -> Result<(), AllocError>
    ensures { OnOk result (out.new.items ≡ out.old.items ++ spec.suspended_line (sight_of scene.now) task) }
{
    append_task(scene.sys, task, out)?;
    append(b" is suspended\n", out)
}

/// Appends what holds up a task that does not wait, if anything does.
fn append_ready(
    scene: &Scene<'_>,
    task: usize,
    block: &TaskBlock,
    out: &mut Vec<u8>,
) -> Result<(), AllocError>
    ensures { OnOk result (out.new.items ≡ out.old.items ++ spec.ready_line (sight_of scene.now) task block.now) }
{
    if block.suspended {
        append_suspended(scene, task, out)
    } else {
        let spin = spin_of(scene.processors, scene.spins, task);
        append_spinning(scene, task, spin, out)
    }
}

/// Appends what holds up a task, if anything does.
fn append_held_up(
    scene: &Scene<'_>,
    task: usize,
    block: &TaskBlock,
    out: &mut Vec<u8>,
) -> Result<(), AllocError>
    ensures { OnOk result (out.new.items
        ≡ out.old.items ++ spec.held_up_line (sight_of scene.now) task block.now block.now.phase) }
{
    match block.phase {
        Phase::Waiting(cause) => append_waiting(scene, task, block, cause, out),
        Phase::Dormant | Phase::Ready => append_ready(scene, task, block, out),
    }
}

/// Appends what holds up each task that is held up, a line each.
fn append_all(scene: &Scene<'_>, out: &mut Vec<u8>) -> Result<(), AllocError>
    ensures { OnOk result (out.new.items
        ≡ out.old.items ++ spec.held_up_lines (sight_of scene.now) 0 scene.now.blocks.now) }
{
    for (task, block) in scene.blocks.iter().enumerate() {
        append_held_up(scene, task, block, out)?;
    }
    Ok(())
}

/// Whether an actor spins for what the processor at a place holds.
fn is_held_by(place: usize, spin: Option<SpinWait>) -> bool
    ensures { result ≡ spec.is_held_by place spin }
{
    match spin {
        Some(spin) => spin.holder == place,
        None => false,
    }
}

/// Whether some actor spins for what the processor at a place holds.
fn is_spun_for(scene: &Scene<'_>, place: usize) -> bool
    ensures { result ≡ spec.is_spun_for (sight_of scene.now) place }
{
    scene.spins.iter().any(|spin| is_held_by(place, *spin))
}

/// Appends the task that a processor runs, and the spin lock that it holds.
fn append_holder(scene: &Scene<'_>, cpu: &Processor, out: &mut Vec<u8>) -> Result<(), AllocError>
    ensures { OnOk result (out.new.items
        ≡ out.old.items ++ spec.holder_line (sight_of scene.now) cpu.now.run cpu.now.lock) }
{
    match (cpu.run, cpu.lock) {
        (Some(task), Lock::Spin(lock)) => {
            append_task(scene.sys, usize::from(task), out)?;
            append(b" holds ", out)?;
            append_object(scene.sys, ObjectKind::SpinLock, lock, out)?;
            append(b", and comes to no call within the bound\n", out)
        }
        _ => Ok(()),
    }
}

/// Appends the task on the processor at a place, if it holds a spin lock for which others spin, and comes to no call.
fn append_holder_at(
    scene: &Scene<'_>,
    place: usize,
    cpu: &Processor,
    over: bool,
    out: &mut Vec<u8>,
) -> Result<(), AllocError>
    ensures { OnOk result (out.new.items
        ≡ out.old.items ++ spec.holder_at (sight_of scene.now) place cpu.now over) }
{
    if over && is_spun_for(scene, place) {
        append_holder(scene, cpu, out)
    } else {
        Ok(())
    }
}

/// Appends each task that holds a spin lock for which others spin, and comes to no call.
fn append_holders(scene: &Scene<'_>, out: &mut Vec<u8>) -> Result<(), AllocError>
    ensures { OnOk result (out.new.items ≡ out.old.items
        ++ spec.holder_lines (sight_of scene.now) 0 scene.now.processors.now scene.now.over.now) }
{
    let mut rest = scene.over;
    for (place, cpu) in scene.processors.iter().enumerate() {
        let [over, more @ ..] = rest else {
            return Ok(());
        };
        append_holder_at(scene, place, cpu, *over, out)?;
        rest = more;
    }
    Ok(())
}

/// The task that each task waits for, by the holders of the semaphores.
fn blockers_by(
    alloc: Global,
    scene: &Scene<'_>,
    holders: &[Option<u8>],
) -> Result<Vec<Option<u8>>, AllocError>
    ensures { IfOk result (λ blockers. blockers.items
        ≡ spec.blockers_from (sight_of scene.now) holders.now 0 scene.now.blocks.now) }
{
    let mut blockers = Vec::new(alloc);
    for (task, block) in scene.blocks.iter().enumerate() {
        let spin = spin_of(scene.processors, scene.spins, task);
        blockers.push(blocker_of(holders, scene.processors, block, spin))?;
    }
    Ok(blockers)
}

/// The task that each task waits for.
fn blockers(alloc: Global, scene: &Scene<'_>) -> Result<Vec<Option<u8>>, AllocError>
    ensures { IfOk result (λ blockers. blockers.items ≡ spec.blockers (sight_of scene.now)) }
{
    let holders = scene.history.holders(alloc, scene.sys)?;
    blockers_by(alloc, scene, &holders)
}

/// Appends what a task does, for which object, and who took that when.
fn append_does(
    scene: &Scene<'_>,
    task: usize,
    does: &[u8],
    object: (ObjectKind, u8),
    out: &mut Vec<u8>,
) -> Result<(), AllocError>
    ensures { OnOk result (out.new.items
        ≡ out.old.items ++ spec.link (sight_of scene.now) task does.now object.0 object.1) }
{
    append_doing(scene, task, does, object, out)?;
    append_taken(scene, b" (taken by ", b")", object, out)
}

/// The object that a task in this phase waits for, if it waits for one.
fn waited_for(phase: Phase) -> Option<(ObjectKind, u8)>
    ensures { result ≡ spec.waited_for phase }
{
    match phase {
        Phase::Waiting(cause) => object_of(cause),
        Phase::Dormant | Phase::Ready => None,
    }
}

/// Appends what a task waits for, or else what it spins for.
fn append_link_by(
    scene: &Scene<'_>,
    task: usize,
    waited: Option<(ObjectKind, u8)>,
    spun: Option<SpinWait>,
    out: &mut Vec<u8>,
) -> Result<(), AllocError>
    ensures { OnOk result (out.new.items
        ≡ out.old.items ++ spec.link_by (sight_of scene.now) task waited spun) }
{
    match (waited, spun) {
        (Some(object), _) => append_does(scene, task, b" waits for ", object, out),
        (None, Some(spin)) => {
            let lock = (ObjectKind::SpinLock, spin.lock);
            append_does(scene, task, b" spins for ", lock, out)
        }
        (None, None) => Ok(()),
    }
}

/// Appends a task on a cycle: what it waits or spins for, and who took that when.
fn append_link(scene: &Scene<'_>, task: usize, out: &mut Vec<u8>) -> Result<(), AllocError>
    ensures { OnOk result (out.new.items ≡ out.old.items ++ spec.link_text (sight_of scene.now) task) }
{
    match scene.blocks.get(task) {
        Some(block) => {
            let spun = spin_of(scene.processors, scene.spins, task);
            append_link_by(scene, task, waited_for(block.phase), spun, out)
        }
        None => Ok(()),
    }
}

/// Appends further tasks of a cycle, each after a comma.
fn append_more_links(scene: &Scene<'_>, tasks: &[u8], out: &mut Vec<u8>) -> Result<(), AllocError>
    ensures { OnOk result (out.new.items ≡ out.old.items ++ spec.more_links (sight_of scene.now) tasks.now) }
{
    for task in tasks {
        append(b", ", out)?;
        append_link(scene, usize::from(*task), out)?;
    }
    Ok(())
}

/// Appends the tasks of a cycle, with commas between.
fn append_links(scene: &Scene<'_>, tasks: &[u8], out: &mut Vec<u8>) -> Result<(), AllocError>
    ensures { OnOk result (out.new.items ≡ out.old.items ++ spec.links (sight_of scene.now) tasks.now) }
{
    match tasks {
        [first, more @ ..] => {
            append_link(scene, usize::from(*first), out)?;
            append_more_links(scene, more, out)
        }
        [] => Ok(()),
    }
}

/// Appends the cycle that a task is on, in one line, and what it is.
fn append_deadlock(
    alloc: Global,
    scene: &Scene<'_>,
    blockers: &[Option<u8>],
    first: u8,
    out: &mut Vec<u8>,
) -> Result<(), AllocError>
    ensures { OnOk result (out.new.items ≡ out.old.items
        ++ spec.verdict_text (sight_of scene.now) blockers.now (Deadlock first)) }
{
    let tasks = cycle_tasks(alloc, blockers, first)?;
    append_links(scene, &tasks, out)?;
    append(deadlock_text(scene).as_bytes(), out)
}

/// Appends how the tasks stand, in a line.
fn append_verdict(
    alloc: Global,
    scene: &Scene<'_>,
    blockers: &[Option<u8>],
    verdict: SystemVerdict,
    out: &mut Vec<u8>,
) -> Result<(), AllocError>
    ensures { OnOk result (out.new.items
        ≡ out.old.items ++ spec.verdict_text (sight_of scene.now) blockers.now verdict) }
{
    match verdict {
        SystemVerdict::Ended => append(b"every task has ended\n", out),
        SystemVerdict::Deadlock(task) => append_deadlock(alloc, scene, blockers, task, out),
        SystemVerdict::HeldUp if is_quiet(scene) => append(left_text(scene.sys).as_bytes(), out),
        SystemVerdict::HeldUp => Ok(()),
        SystemVerdict::Free => append(b"no task waits or spins\n", out),
    }
}

/// Appends what each task waits or spins for, since when, until when, and who took it last; and how the tasks stand:
/// all have ended, they are in a deadlock, or nothing is left that ends their waits. What is waited and spun for is so
/// in the state; since when, and who took it, are read from the trace. `AllocError` if memory runs out.
pub fn append_report(alloc: Global, scene: &Scene<'_>, out: &mut Vec<u8>) -> Result<(), AllocError>
    ensures { OnOk result (out.new.items ≡ out.old.items ++ report (sight_of scene.now)) }
{
    append_all(scene, out)?;
    append_holders(scene, out)?;
    let blockers = blockers(alloc, scene)?;
    let verdict = verdict_of(scene.blocks, scene.spins, &blockers);
    append_verdict(alloc, scene, &blockers, verdict, out)
}
