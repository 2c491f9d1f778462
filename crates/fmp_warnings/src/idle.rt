//! Warnings of steps that do nothing, whatever happens before them: interrupts that have no handler.
ghost use Rattle.std.specs.Prelude.{ℕ, IfOk};
ghost use Rattle.std.specs.List.{All};
ghost use Rattle.fmp_warnings.specs.Verdicts.{IsIdleStep};

use fmp_base::Event;
use fmp_diagnosis::apis::{api_at, value_of};
use fmp_diagnosis::around::list_of;
use fmp_diagnosis::fields::Field;
use fmp_diagnosis::{FaultReport, step_warning};
use fmp_lex::{Api, Tokens};
use fmp_trace::read_steps;
use std::alloc::{AllocError, Global};

/// One more than the greatest number of an interrupt.
const INTERRUPTS: usize = 33;

/// Of each interrupt, whether nothing is to be said of it: a handler is defined for it.
fn handled(cfg: &Tokens<'_>) -> [bool; INTERRUPTS] {
    let mut known = [false; INTERRUPTS];
    for at in 0..cfg.len() {
        if let Some(Api::DefInh) = api_at(cfg, at) {
            let number = value_of(cfg, at, Api::DefInh, Field::InterruptNumber);
            if let Some(one) = known.get_mut(usize::try_from(number).unwrap_or(0)) {
                *one = true;
            }
        }
    }
    known
}

/// The interrupt that an event raises, if it is the first one of which something is to be said.
fn idle_interrupt(event: Event, known: &mut [bool; INTERRUPTS]) -> Option<u8> {
    let Event::Int(number) = event else {
        return None;
    };
    let one = known.get_mut(usize::from(number))?;
    if *one {
        return None;
    }
    *one = true;
    Some(number)
}

/// The warnings of the events of a steps text, each of which stands in a line.
fn idle_among(
    alloc: Global,
    steps: &[u8],
    events: &[Event],
    known: [bool; INTERRUPTS],
) -> Result<Vec<FaultReport>, AllocError>
    ensures { IfOk result (λ found. All (IsIdleStep steps.now) found.items) }
{
    let mut known = known;
    let mut found = Vec::new(alloc);
    let mut line: u32 = 0;
    for event in events {
        line = line.saturating_add(1);
        if let Some(interrupt) = idle_interrupt(*event, &mut known) {
            found.push(step_warning(alloc, steps, line, interrupt)?)?;
        }
    }
    Ok(found)
}

/// The warnings of a steps text without a fault, for this many processors: the first line of each interrupt for which
/// this configuration defines no handler. `AllocError` if memory runs out.
pub fn idle_steps(
    alloc: Global,
    cfg: &[u8],
    steps: &[u8],
    processors: u8,
) -> Result<Vec<FaultReport>, AllocError>
    ensures { IfOk result (λ found. All (IsIdleStep steps.now) found.items) }
{
    let list = list_of(alloc, cfg)?;
    match read_steps(alloc, steps, processors) {
        Ok(events) => idle_among(alloc, steps, &events, handled(&list.tokens)),
        Err(_) => Ok(Vec::new(alloc)),
    }
}
