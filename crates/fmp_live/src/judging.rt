//! Whether a table of live locals keeps to the code.
ghost use Rattle.std.specs.Prelude.{◌≡◌, ◌+◌, ◌<◌, ◌^◌, ℕ, IsTrue, Some, false, length, slice_get};
ghost use Rattle.fmp_instructions.specs.Machine.{call_before as instruction_before};
ghost use Rattle.fmp_live.specs.LiveLocals.{IsLiveTable, KeepsAwaits, KeepsGoes, is_awaited as awaited};
ghost use Rattle.fmp_live.specs.LiveLocals.{is_named as named, is_needed as needed, is_replied as replied};
ghost use Rattle.fmp_live.specs.LiveLocals.{is_within as within, live_table};

use crate::live_rows::{LiveRows, is_live, row_at};
use fmp_instructions::Instruction;

/// Whether a local is one of an array.
fn is_within(base: u8, places: u8, local: usize) -> bool
    ensures { result ≡ within base places local }
{
    let first = base as usize;
    first <= local && local < first + places as usize
}

/// Whether a local must be live before an instruction at a place: it is read, or it is live afterwards and not
/// written.
pub fn is_needed(rows: &LiveRows, place: usize, instruction: Instruction, local: usize) -> bool
    requires { place + 1 < 2 ^ 64 }
    ensures { result ≡ needed (live_table rows.now) place instruction local }
{
    let next = place + 1;
    match instruction {
        Instruction::Load(w) => local == w as usize || is_live(&rows.goes, next, local),
        Instruction::Store(w) => local != w as usize && is_live(&rows.goes, next, local),
        Instruction::LoadIndexed { base, places } => {
            is_within(base, places, local) || is_live(&rows.goes, next, local)
        }
        Instruction::Jump(target) => is_live(&rows.goes, target as usize, local),
        Instruction::JumpIfZero(target) => {
            is_live(&rows.goes, target as usize, local) || is_live(&rows.goes, next, local)
        }
        Instruction::Call { .. } => is_live(&rows.awaits, next, local),
        Instruction::End => false,
        _ => is_live(&rows.goes, next, local),
    }
}

/// The instruction before a place.
pub fn call_before(code: &[Instruction], place: usize) -> Option<Instruction>
    ensures { result ≡ instruction_before code.now place }
{
    match place.checked_sub(1) {
        None => None,
        Some(before) => code.get(before).copied(),
    }
}

/// Whether a place of a call names a local.
fn is_named(place: Option<u8>, local: usize) -> bool
    ensures { result ≡ named place local }
{
    match place {
        Some(place) => local == place as usize,
        None => false,
    }
}

/// Whether every reply to this call writes a local, where out places count as written by every reply or not.
fn is_replied(outs: bool, call: Option<Instruction>, local: usize) -> bool
    ensures { result ≡ replied outs call local }
{
    match call {
        Some(Instruction::Call { out, result, .. }) => {
            is_named(result, local) || outs && is_named(out, local)
        }
        _ => false,
    }
}

/// Whether a local must be live where a body awaits a reply at a place, where out places count as written by every
/// reply or not.
pub fn is_awaited(
    outs: bool,
    rows: &LiveRows,
    code: &[Instruction],
    place: usize,
    local: usize,
) -> bool
    ensures { result ≡ awaited outs (live_table rows.now) code.now place local }
{
    is_live(&rows.goes, place, local) && !is_replied(outs, call_before(code, place), local)
}

/// Whether no local that is dead at a place must be live before its instruction.
fn keeps_goes(rows: &LiveRows, code: &[Instruction], place: usize) -> bool
    requires { place < length code.now }
    ensures { IsTrue result → KeepsGoes code.now (live_table rows.now) place }
{
    let instruction = code[place];
    for (local, live) in row_at(&rows.goes, place).iter().enumerate() {
        if !*live && is_needed(rows, place, instruction, local) {
            return false;
        }
    }
    true
}

/// Whether no local that is dead where a reply is awaited must be live then.
fn keeps_awaits(outs: bool, rows: &LiveRows, code: &[Instruction], place: usize) -> bool
    ensures { IsTrue result → KeepsAwaits outs code.now (live_table rows.now) place }
{
    for (local, live) in row_at(&rows.awaits, place).iter().enumerate() {
        if !*live && is_awaited(outs, rows, code, place, local) {
            return false;
        }
    }
    true
}

/// Whether no local is dead that must be live before an instruction.
fn all_keep_goes(rows: &LiveRows, code: &[Instruction]) -> bool
    ensures { IsTrue result → (place : ℕ) → KeepsGoes code.now (live_table rows.now) place }
{
    for place in 0..code.len() {
        if !keeps_goes(rows, code, place) {
            return false;
        }
    }
    true
}

/// Whether no local is dead that must be live where a reply is awaited.
fn all_keep_awaits(outs: bool, rows: &LiveRows, code: &[Instruction]) -> bool
    ensures { IsTrue result → (place : ℕ) → KeepsAwaits outs code.now (live_table rows.now) place }
{
    for place in 0..rows.awaits.len() {
        if !keeps_awaits(outs, rows, code, place) {
            return false;
        }
    }
    true
}

/// Whether no local that the table of a body calls dead has to be live, where out places count as written by every
/// reply or not.
pub fn is_live_table(outs: bool, rows: &LiveRows, code: &[Instruction]) -> bool
    ensures { IsTrue result → IsLiveTable outs code.now (live_table rows.now) }
{
    all_keep_goes(rows, code) && all_keep_awaits(outs, rows, code)
}
