//! The names of tasks and handlers.
ghost use Rattle.std.specs.Prelude.{◌≡◌, ◌≤◌, ◌+◌, ◌++◌, length, take};
ghost use Rattle.fmp_base.specs.Names.{name_text};
ghost use Rattle.fmp_base.specs.Systems.{tables_of, cyclic_config};
ghost use Rattle.fmp_base.specs.Texts.{task_name, handler_name, caller_name, run_text};

use crate::texts::{append_array, append_name, append_number};
use fmp_base::{Caller, Handler, System};

/// The name of the task at this place, or nothing if there is none.
#[inline(always)]
pub fn append_name_at(sys: &System, task: usize, line: &mut [u8], end: usize) -> usize
    requires { end + 31 ≤ length line.old }
    ensures text { take result line.new ≡ take end line.old ++ task_name (tables_of sys.now) task }
    ensures short { result ≤ end + 31 }
{
    match sys.tasks.get(task) {
        Some(config) => append_name(&config.name, line, end),
        None => end,
    }
}

/// Puts the name of a task after the end of a line: where the line ends then.
#[inline(always)]
pub fn append_task_name(sys: &System, task: u8, line: &mut [u8], end: usize) -> usize
    requires { end + 31 ≤ length line.old }
    ensures text { take result line.new ≡ take end line.old ++ task_name (tables_of sys.now) task }
    ensures short { result ≤ end + 31 }
{
    append_name_at(sys, usize::from(task), line, end)
}

/// The name of the cyclic handler at this place, or nothing if there is none.
pub fn append_cyclic_name(sys: &System, cyclic: u8, line: &mut [u8], end: usize) -> usize
    requires { end + 31 ≤ length line.old }
    ensures text { take result line.new ≡
        take end line.old ++ name_text (cyclic_config (tables_of sys.now) cyclic).name }
    ensures short { result ≤ end + 31 }
{
    match sys.cyclics.get(usize::from(cyclic)) {
        Some(config) => append_name(&config.name, line, end),
        None => end,
    }
}

/// The name of the task that runs, or `-`.
#[inline(always)]
pub fn append_run(sys: &System, task: Option<u8>, line: &mut [u8], end: usize) -> usize
    requires { end + 31 ≤ length line.old }
    ensures text { take result line.new ≡ take end line.old ++ run_text (tables_of sys.now) task }
    ensures short { result ≤ end + 31 }
{
    match task {
        Some(task) => append_task_name(sys, task, line, end),
        None => append_array(*b"-", line, end),
    }
}

/// A cyclic handler's name, or `#i` for the handler of interrupt i.
pub fn append_handler(sys: &System, handler: Handler, line: &mut [u8], end: usize) -> usize
    requires { end + 31 ≤ length line.old }
    ensures text { take result line.new ≡ take end line.old ++ handler_name (tables_of sys.now) handler }
    ensures short { result ≤ end + 31 }
{
    match handler {
        Handler::Interrupt(place) => {
            let end = append_array(*b"#", line, end);
            append_number(u32::from(place) + 1, line, end)
        }
        Handler::Cyclic(place) => append_cyclic_name(sys, place, line, end),
    }
}

/// Puts the name of a task or handler that acts after the end of a line: where the line ends then.
#[inline(always)]
pub fn append_caller(sys: &System, caller: &Caller, line: &mut [u8], end: usize) -> usize
    requires { end + 31 ≤ length line.old }
    ensures text { take result line.new ≡ take end line.old ++ caller_name (tables_of sys.now) caller.now }
    ensures short { result ≤ end + 31 }
{
    match caller {
        Caller::Task(place) => append_task_name(sys, *place, line, end),
        Caller::Handler(handler) => append_handler(sys, *handler, line, end),
    }
}
