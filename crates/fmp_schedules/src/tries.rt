//! The events that a search tries in each state of a system.
ghost use Rattle.std.specs.Prelude.{◌≡◌, ◌++◌, IfOk, OnOk, is_some};
ghost use Rattle.fmp_base.specs.Systems.{defined_for, tables_of};
ghost use Rattle.fmp_schedules.specs.Tries.{all_tries, requests as requests_of, runs as runs_of};

use fmp_base::{Event, System};
use std::alloc::{AllocError, Global};

/// How many interrupts there are.
const INTERRUPTS: u8 = 32;

/// Whether the handler of an interrupt is there.
fn has_handler(sys: &System, number: u8) -> bool
    ensures { result ≡ is_some (defined_for number sys.now.interrupts.items) }
{
    for config in &sys.interrupts {
        if config.number == number {
            return true;
        }
    }
    false
}

/// The runs of this many processors. `AllocError` if memory runs out.
fn runs(alloc: Global, processors: u8) -> Result<Vec<Event>, AllocError>
    ensures { IfOk result (λ v. v.items ≡ runs_of processors) }
{
    let mut runs = Vec::new(alloc);
    for p in 0..processors {
        runs.push(Event::Run(p + 1))?;
    }
    Ok(runs)
}

/// Adds the requests of the interrupts that have handlers. `AllocError` if memory runs out.
fn push_requests(tries: &mut Vec<Event>, sys: &System) -> Result<(), AllocError>
    ensures { OnOk result (tries.new.items ≡ tries.old.items ++ requests_of (tables_of sys.now) 32) }
{
    for i in 0..INTERRUPTS {
        if has_handler(sys, i + 1) {
            tries.push(Event::Int(i + 1))?;
        }
    }
    Ok(())
}

/// The events that are tried in each state, in order: the processors, the clock, the interrupts that have handlers.
/// `AllocError` if memory runs out.
pub fn tries_of(alloc: Global, sys: &System) -> Result<Vec<Event>, AllocError>
    ensures { IfOk result (λ tries. tries.items ≡ all_tries (tables_of sys.now)) }
{
    let mut tries = runs(alloc, sys.processors)?;
    tries.push(Event::Tick)?;
    push_requests(&mut tries, sys)?;
    Ok(tries)
}
