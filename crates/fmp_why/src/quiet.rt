//! Whether anything may still be done, and what is said then of waits that have no end.
ghost use Rattle.std.specs.Prelude.{◌≡◌, length, zip};
ghost use Rattle.std.specs.List.{list_all};
ghost use Rattle.fmp_base.specs.Systems.{tables_of};
ghost use Rattle.fmp_why.specs.Reports as spec;
ghost use Rattle.fmp_why.specs.Reports.{sight_of};

use crate::obstacles::SpinWait;
use crate::report::Scene;
use crate::verdicts::is_spin;
use fmp_base::{Processor, System, TaskBlock};

/// Whether a processor does nothing: it runs nothing, or its actor spins.
fn stands(cpu: &Processor, spin: Option<SpinWait>) -> bool
    ensures { result ≡ spec.stands (cpu.now, spin) }
{
    is_spin(spin) || (cpu.run.is_none() && cpu.handler.is_none())
}

/// Whether every processor does nothing.
fn all_stand(processors: &[Processor], spins: &[Option<SpinWait>]) -> bool
    ensures { result ≡ list_all spec.stands (zip processors.now spins.now) }
{
    let mut rest = spins;
    for cpu in processors {
        let [spin, more @ ..] = rest else {
            return true;
        };
        if !stands(cpu, *spin) {
            return false;
        }
        rest = more;
    }
    true
}

/// Whether no wait has a limit.
fn has_no_limit(blocks: &[TaskBlock]) -> bool
    ensures { result ≡ list_all spec.has_no_limit blocks.now }
{
    blocks.iter().all(|block| block.deadline.is_none())
}

/// Whether no processor goes on, no wait has a limit, and no cyclic handler is there.
pub fn is_quiet(scene: &Scene<'_>) -> bool
    ensures { result ≡ spec.is_quiet (sight_of scene.now) }
{
    all_stand(scene.processors, scene.spins)
        && has_no_limit(scene.blocks)
        && scene.sys.cyclics.is_empty()
}

/// What is left that may end the waits of tasks, where all is quiet.
pub fn left_text(sys: &System) -> &'static str
    ensures { result.now ≡ spec.left_text (length (tables_of sys.now).interrupts) }
{
    if sys.interrupts.is_empty() {
        "nothing is left that ends these waits\n"
    } else {
        "nothing but an interrupt is left that may end these waits\n"
    }
}

/// What tasks that wait for one another are in: where anything may still be done, somebody else may signal.
pub fn deadlock_text(scene: &Scene<'_>) -> &'static str
    ensures { result.now
        ≡ spec.deadlock_text (spec.is_quiet (sight_of scene.now)) (length (sight_of scene.now).sys.interrupts) }
{
    if is_quiet(scene) && scene.sys.interrupts.is_empty() {
        ": deadlock\n"
    } else {
        ": deadlock, unless another task or a handler signals\n"
    }
}
