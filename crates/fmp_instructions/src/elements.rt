//! The instructions that load and store an element of an array, each of which tests its index.
ghost use Rattle.std.specs.Prelude.{◌≡◌, ◌+◌, ◌-◌, ◌<◌, ◌≤◌, ◌^◌, List, ℕ, Some, IfSome, IfNone};
ghost use Rattle.fmp_base.specs.Contexts.{stopped};
ghost use Rattle.fmp_instructions.specs.Machine.{Next, act, at, tops};
ghost use Rattle.fmp_instructions.specs.declared.instructions.Instruction.TheVariants.{LoadIndexed, StoreIndexed};
ghost use Rattle.fmp_instructions.specs.declared.instructions.MachineContext.{MachineContext};
ghost use Rattle.fmp_instructions.specs.Verify.{CleanAfter};

use crate::operands::{pop, push};
use crate::operators::place_of;
use fmp_base::StretchStop;

/// Takes an index and pushes the value at that place of an array, or stops with its fault.
#[inline(always)]
pub fn load_indexed(
    pc: &mut u16,
    count: &mut usize,
    values: &mut [i32; 64],
    places: &[i32; 64],
    base: u8,
    size: u8,
) -> Option<StretchStop>
    requires some { 0 < count.old }
    requires room { count.old ≤ 64 }
    requires within { base + size ≤ 64 }
    requires next { pc.old + 1 < 2 ^ 16 }
    ensures goes { IfNone result ((next : Next)
        → act (Some (LoadIndexed base size)) next pc.old (tops values.old count.old) places.now
        ≡ next pc.new (tops values.new count.new) places.now) }
    ensures place { IfNone result (pc.new ≡ pc.old + 1) }
    ensures count { IfNone result (count.new ≡ count.old) }
    ensures clean { IfSome result (λ o. (depths : List ℕ) (context : MachineContext)
        → CleanAfter depths (stopped o context)) }
    ensures stops { IfSome result (λ o. (next : Next)
        → act (Some (LoadIndexed base size)) next pc.old (tops values.old count.old) places.now
        ≡ stopped o (at pc.new places.now)) }
{
    match place_of(size, pop(values, count)) {
        Ok(place) => {
            push(values, count, places[(base + place) as usize]);
            *pc += 1;
            None
        }
        Err(fault) => Some(StretchStop::Fault(fault)),
    }
}

/// Takes a value and an index, and puts the value at that place of an array, or stops with the index's fault.
#[inline(always)]
pub fn store_indexed(
    pc: &mut u16,
    count: &mut usize,
    values: &[i32; 64],
    places: &mut [i32; 64],
    base: u8,
    size: u8,
) -> Option<StretchStop>
    requires some { 2 ≤ count.old }
    requires room { count.old ≤ 64 }
    requires within { base + size ≤ 64 }
    requires next { pc.old + 1 < 2 ^ 16 }
    ensures goes { IfNone result ((next : Next)
        → act (Some (StoreIndexed base size)) next pc.old (tops values.now count.old) places.old
        ≡ next pc.new (tops values.now count.new) places.new) }
    ensures place { IfNone result (pc.new ≡ pc.old + 1) }
    ensures count { IfNone result (count.new ≡ count.old - 2) }
    ensures clean { IfSome result (λ o. (depths : List ℕ) (context : MachineContext)
        → CleanAfter depths (stopped o context)) }
    ensures stops { IfSome result (λ o. (next : Next)
        → act (Some (StoreIndexed base size)) next pc.old (tops values.now count.old) places.old
        ≡ stopped o (at pc.new places.new)) }
{
    let value = pop(values, count);
    let index = pop(values, count);
    match place_of(size, index) {
        Ok(place) => {
            places[(base + place) as usize] = value;
            *pc += 1;
            None
        }
        Err(fault) => Some(StretchStop::Fault(fault)),
    }
}
