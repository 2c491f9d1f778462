//! Which locals are live, traced backward through the code.
ghost use Rattle.std.specs.Prelude.{◌≡◌, ◌+◌, ◌<◌, ◌^◌, [], IfOk};
ghost use Rattle.fmp_instructions.specs.Instructions.{body_tables, code_tables};
ghost use Rattle.fmp_live.specs.LiveLocals.{AreLiveTables, IsLiveTable, live_table, live_tables};

use crate::judging::{is_awaited, is_live_table, is_needed};
use crate::live_rows::{LiveLocals, LiveRows, is_live};
use fmp_instructions::{Code, Instruction};
use std::alloc::{AllocError, Global};

/// How often the code of a body is gone through. Nested loops take as many rounds as they are deep, and two more.
const ROUNDS: usize = 64;

/// Rows of dead locals. `AllocError` if memory runs out.
fn dead_rows(alloc: Global, places: usize) -> Result<Vec<[bool; 64]>, AllocError> {
    let mut rows = Vec::new(alloc);
    for _ in 0..places {
        rows.push([false; 64])?;
    }
    Ok(rows)
}

/// Makes a local live at a place.
fn revive(rows: &mut [[bool; 64]], place: usize, local: usize) {
    if place < rows.len() && local < 64 {
        rows[place][local] = true;
    }
}

/// Makes live what must be before an instruction, and where a reply is awaited before it. Whether it was dead.
fn trace_place(
    outs: bool,
    rows: &mut LiveRows,
    code: &[Instruction],
    place: usize,
    instruction: Instruction,
) -> bool
    requires { place + 1 < 2 ^ 64 }
{
    let mut grown = false;
    for local in 0..64 {
        if !is_live(&rows.goes, place, local) && is_needed(rows, place, instruction, local) {
            revive(&mut rows.goes, place, local);
            grown = true;
        }
        if !is_live(&rows.awaits, place, local) && is_awaited(outs, rows, code, place, local) {
            revive(&mut rows.awaits, place, local);
            grown = true;
        }
    }
    grown
}

/// Goes through the code once, from its end to its start. Whether anything became live.
fn trace_round(outs: bool, rows: &mut LiveRows, code: &[Instruction]) -> bool {
    let mut grown = false;
    for (place, instruction) in code.iter().enumerate().rev() {
        if trace_place(outs, rows, code, place, *instruction) {
            grown = true;
        }
    }
    grown
}

/// A table of live locals. `AllocError` if memory runs out.
fn traced(alloc: Global, outs: bool, code: &[Instruction]) -> Result<LiveRows, AllocError> {
    let mut rows = LiveRows {
        goes: dead_rows(alloc, code.len())?,
        awaits: dead_rows(alloc, code.len())?,
    };
    for _ in 0..ROUNDS {
        if !trace_round(outs, &mut rows, code) {
            break;
        }
    }
    Ok(rows)
}

/// A table in which all locals are live.
fn all_live(alloc: Global) -> LiveRows
    ensures goes { result.goes.items ≡ [] }
    ensures awaits { result.awaits.items ≡ [] }
{
    LiveRows {
        goes: Vec::new(alloc),
        awaits: Vec::new(alloc),
    }
}

/// A table, or one in which all locals are live where it does not keep to the code.
fn judged(alloc: Global, outs: bool, rows: LiveRows, code: &[Instruction]) -> LiveRows
    ensures { IsLiveTable outs code.now (live_table result) }
{
    if is_live_table(outs, &rows, code) {
        rows
    } else {
        all_live(alloc)
    }
}

/// The table of the live locals of a body. `AllocError` if memory runs out.
fn live_rows(alloc: Global, outs: bool, code: &[Instruction]) -> Result<LiveRows, AllocError>
    ensures { IfOk result (λ rows. IsLiveTable outs code.now (live_table rows)) }
{
    let rows = traced(alloc, outs, code)?;
    Ok(judged(alloc, outs, rows, code))
}

/// The tables of all bodies. `AllocError` if memory runs out.
fn tables(alloc: Global, outs: bool, code: &Code) -> Result<LiveLocals, AllocError>
    ensures { IfOk result (λ live. AreLiveTables outs (code_tables code.now) (live_tables live)) }
{
    let mut bodies = Vec::new(alloc);
    for body in &code.bodies {
        let rows = live_rows(alloc, outs, &body.instructions)?;
        bodies.push(rows)?;
    }
    Ok(LiveLocals { bodies })
}

/// The live locals of all bodies of the code, where the local at the out place of a call counts as written by every
/// reply, or by E_OK alone. Where memory runs out, all are live.
pub fn live_locals(alloc: Global, outs: bool, code: &Code) -> LiveLocals
    ensures { AreLiveTables outs (code_tables code.now) (live_tables result) }
{
    match tables(alloc, outs, code) {
        Ok(live) => live,
        Err(_) => LiveLocals {
            bodies: Vec::new(alloc),
        },
    }
}
