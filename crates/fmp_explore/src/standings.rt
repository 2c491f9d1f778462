//! What is kept of sentences and limits in the states of a search, as numbers of a row.
ghost use Rattle.std.specs.Prelude.{◌≡◌, ◌+◌, ◌*◌, ◌++◌, IfOk, OnOk, length};
ghost use Rattle.std.specs.List.{flat_map};
ghost use Rattle.fmp_schedules.specs.Schedules as spec;
ghost use Rattle.fmp_explore.specs.States.{AreMonitorsOf, kind_number, monitor_numbers, value_number};

use crate::values::number_at;
use fmp_base::Line;
use fmp_fields::low_byte;
use fmp_monitors::Standing;
use fmp_schedules::Monitor;
use std::alloc::{AllocError, Global};

/// The monitors after these lines. `AllocError` if memory runs out.
pub fn monitors_after(
    alloc: Global,
    monitors: &[Monitor],
    lines: &[Line],
) -> Result<Vec<Monitor>, AllocError>
    ensures { IfOk result (λ after. after.items ≡ spec.monitors_after monitors.now lines.now) }
{
    let mut after = Vec::new(alloc);
    for monitor in monitors {
        after.push(monitor.after(lines))?;
    }
    Ok(after)
}

/// The number of the kind of what is kept.
fn kind_of(standing: Standing) -> u32
    ensures { result ≡ kind_number standing }
{
    match standing {
        Standing::Open => 0,
        Standing::Held => 1,
        Standing::Inside(_) => 2,
        Standing::Waiting(_) => 3,
    }
}

/// The task that is inside, or how many ticks or interrupts may or must still come.
fn value_of(standing: Standing) -> u32
    ensures { result ≡ value_number standing }
{
    match standing {
        Standing::Open | Standing::Held => 0,
        Standing::Inside(task) => u32::from(task),
        Standing::Waiting(left) => left,
    }
}

/// Adds the numbers of what a monitor keeps. `AllocError` if memory runs out.
fn push_standing(values: &mut Vec<u32>, monitor: &Monitor) -> Result<(), AllocError>
    ensures items { OnOk result (values.new.items ≡ values.old.items ++ monitor_numbers monitor.now) }
    ensures length { OnOk result (length values.new.items ≡ length values.old.items + 2) }
{
    values.push(kind_of(monitor.standing))?;
    values.push(value_of(monitor.standing))?;
    Ok(())
}

/// Adds the numbers of what these monitors keep, two of each. `AllocError` if memory runs out.
pub fn push_standings(values: &mut Vec<u32>, monitors: &[Monitor]) -> Result<(), AllocError>
    ensures items { OnOk result (values.new.items
        ≡ values.old.items ++ flat_map (λ m. monitor_numbers m) monitors.now) }
    ensures length { OnOk result (length values.new.items ≡ length values.old.items + 2 * length monitors.now) }
{
    for monitor in monitors {
        push_standing(values, monitor)?;
    }
    Ok(())
}

/// What is kept by these two numbers.
fn standing_of(kind: u32, value: u32) -> Standing {
    match kind {
        0 => Standing::Open,
        1 => Standing::Held,
        2 => Standing::Inside(low_byte(value as usize)),
        _ => Standing::Waiting(value),
    }
}

/// A monitor that keeps this.
fn monitor_told(monitor: &Monitor, standing: Standing) -> Monitor
    ensures { result ≡ record monitor.now { standing = result.standing } }
{
    Monitor {
        subject: monitor.subject,
        standing,
    }
}

/// These monitors, each with what these numbers say that it keeps. `AllocError` if memory runs out.
pub fn monitors_told(
    alloc: Global,
    monitors: &[Monitor],
    numbers: &[u32],
) -> Result<Vec<Monitor>, AllocError>
    ensures { IfOk result (λ told. AreMonitorsOf monitors.now told.items) }
{
    let mut told = Vec::new(alloc);
    for monitor in monitors {
        let place = told.len().saturating_mul(2);
        let kind = number_at(numbers, place);
        let value = number_at(numbers, place.saturating_add(1));
        told.push(monitor_told(monitor, standing_of(kind, value)))?;
    }
    Ok(told)
}
