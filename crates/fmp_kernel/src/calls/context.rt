//! The test of where a service is called from (uITRON 4.0, section 3.5; FMP kernel, spin locks).
ghost use Rattle.std.specs.Prelude.{◌≡◌, ◌||◌, not};
ghost use Rattle.fmp_base.specs.declared.permissions.Permission.TheVariants as permissions;
ghost use Rattle.fmp_base.specs.Permissions.{permission, is_barred as barred, is_caller as names_caller};
ghost use Rattle.fmp_base.specs.Permissions.{is_on_caller as names_itself};
ghost use Rattle.fmp_base.specs.ProcessorCalls.{is_cpu_locked as is_locked_processor};
ghost use Rattle.fmp_base.specs.Services.{service_of};

use fmp_base::{Call, Caller, Lock, Permission, Processor};

/// CPU lock, by `loc_cpu` or by a spin lock.
pub fn is_cpu_locked(x: &Processor) -> bool
    ensures { result ≡ is_locked_processor x.now }
{
    !matches!(&x.lock, Lock::Free)
}

/// Whether a number names task me: 0 (TSK_SELF), or its own.
fn is_caller(me: u8, task: i32) -> bool
    ensures { result ≡ names_caller me task }
{
    task == 0 || task == me as i32 + 1
}

/// Whether a call that may take a task off its processor is made by task me on itself.
fn is_on_caller(me: u8, made: &Call) -> bool
    requires { permission (service_of made.now) ≡ permissions.TasksOnOthers }
    ensures { result ≡ names_itself me made.now }
{
    match *made {
        Call::MigTsk { task, .. } => is_caller(me, task),
        Call::SusTsk { task } => is_caller(me, task),
        _ => unreachable!(),
    }
}

/// E_CTX for a caller on this processor.
pub fn is_barred(cpu: &Processor, who: Caller, made: &Call) -> bool
    ensures { result ≡ barred (permission (service_of made.now)) cpu.now who made.now }
{
    match (made.service().permission(), who) {
        (Permission::Anywhere, _) => false,
        (Permission::LockedTasks, Caller::Task(_)) => false,
        (Permission::Tasks, Caller::Task(_)) => is_cpu_locked(cpu),
        (Permission::TasksOnOthers, Caller::Task(me)) => {
            is_cpu_locked(cpu) || cpu.dispatch_disabled && is_on_caller(me, made)
        }
        (Permission::WaitingTasks, Caller::Task(_)) => is_cpu_locked(cpu) || cpu.dispatch_disabled,
        (Permission::Handlers, Caller::Task(_)) => true,
        (Permission::Handlers, Caller::Handler(_)) => is_cpu_locked(cpu),
        (_, Caller::Handler(_)) => true,
    }
}

/// Whether a processor is open: its CPU is free, and its dispatching is enabled.
#[inline(always)]
pub fn is_open(cpu: &Processor) -> bool
    ensures { result ≡ not (is_locked_processor cpu.now || cpu.now.dispatch_disabled) }
{
    !is_cpu_locked(cpu) && !cpu.dispatch_disabled
}
