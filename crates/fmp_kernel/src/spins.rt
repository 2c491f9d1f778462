//! Where an actor may find a spin lock held.
ghost use Rattle.std.specs.Prelude.{◌≡◌, ◌<◌, false};
ghost use Rattle.fmp_base.specs.ProcessorCalls.{is_free as is_free_lock};
ghost use Rattle.fmp_kernel.specs.Spins.{is_spin as is_spin_lock};
ghost use Rattle.fmp_worlds.specs.Spins.{IsLockHeld, MaySpin};

use fmp_base::{Caller, Lock};
use fmp_tasks::KernelState;

/// Whether this is a spin lock.
fn is_spin(lock: Lock) -> bool
    ensures { result ≡ is_spin_lock lock }
{
    match lock {
        Lock::Spin(_) => true,
        Lock::Cpu => false,
        Lock::Free => false,
    }
}

/// Whether no lock is held.
fn is_free(lock: Lock) -> bool
    ensures { result ≡ is_free_lock lock }
{
    match lock {
        Lock::Free => true,
        Lock::Cpu => false,
        Lock::Spin(_) => false,
    }
}

/// Whether some processor holds a spin lock.
#[tactic(auto, using(crate::proofs::SpinLemmas::none_held))]
#[inline(never)]
fn is_lock_held(tables: &KernelState) -> bool
    ensures { result ≡ false → IsLockHeld tables.now.system tables.now.state → ⊥ }
{
    let count = tables.processor_count() as u8;
    for p in 0..count {
        if is_spin(tables.processor(p).lock) {
            return true;
        }
    }
    false
}

/// Whether the actor of processor p may find its spin lock held: it is a task, its processor is not locked, and some
/// processor holds a spin lock. Otherwise no call of it spins.
#[tactic(auto, using(crate::proofs::SpinLemmas::no_handler, crate::proofs::SpinLemmas::no_locks, crate::proofs::SpinLemmas::none_locked))]
#[inline(always)]
pub fn may_spin(tables: &KernelState, p: u8, who: Caller) -> bool
    requires { p < tables.now.system.processors }
    ensures { result ≡ false → MaySpin tables.now.system tables.now.state p who → ⊥ }
{
    match who {
        Caller::Task(_) => {
            tables.spin_lock_count() > 0
                && is_free(tables.processor(p).lock)
                && is_lock_held(tables)
        }
        Caller::Handler(_) => false,
    }
}
