//! The events that C hands in. None takes memory. The answer is 0 if nothing has happened, 1 if the event is done, 3
//! after 2^31 events, 4 if the handle is blank, and 5 to 9 if a number is out of range. In a checked system it is 10 if
//! the text of the actor does another thing next, and 11 if that text is still within a stretch, in which it has gone
//! on by one turn. Unless it is 1, nothing that C reads has changed.
ghost use Rattle.std.specs.Prelude.{◌≡◌, ◌∷◌, [], IfSome, None, Ok, pos};
ghost use Rattle.fmp_outside.specs.declared.given.Act.TheVariants as act;
ghost use Rattle.fmp_outside.specs.declared.given.Given.TheVariants as given;
ghost use Rattle.fmp_foreign.specs.Hosting.{called_by, made_by};
ghost use Rattle.fmp_c.specs.Exports.{IsTaken, fault_of};
ghost use Rattle.fmp_c.specs.Services as spec;

use crate::handle::FmpSystem;
use crate::machine::{POL_SEM, SIG_SEM, SLP_TSK, WAI_SEM, WUP_TSK};
use crate::names::item;
use crate::records::FmpOutcome;
use fmp_base::Fault;
use fmp_foreign::call_of;
use fmp_outside::{Act, Given};
use std::alloc::Global;
use std::mem;

/// What is answered where the handle holds no system.
const BLANK: u32 = 4;

/// What is answered where there is no such fault.
const NO_FAULT: u32 = 9;

/// The actor of the processor of this number makes the call of the service of this function code, whichever it is.
#[inline(never)]
fn call_any(
    alloc: Global,
    h: &mut FmpSystem,
    p: u8,
    service: u8,
    a: i32,
    b: i32,
    c: i32,
    d: i32,
    out: &mut FmpOutcome,
) -> u32
    ensures taken { IfSome h.old.machine (λ m.
        IsTaken m (made_by p (called_by service (a ∷ b ∷ c ∷ d ∷ []))) p h.new.machine out.new result) }
    ensures blank { h.old.machine ≡ None → (h.new.machine ≡ None) × (result ≡ 4) × (out.new ≡ out.old) }
{
    match mem::replace(h, FmpSystem::blank()).into_box(alloc) {
        Some(held) => {
            let mut machine = held;
            let number = match call_of(service, &[a, b, c, d]) {
                Ok(call) => machine.take_inline(&Given::Act(p, Act::Call(call)), p, out),
                Err(why) => machine.tell(p, Err(why), out),
            };
            *h = FmpSystem::of(machine);
            number
        }
        None => BLANK,
    }
}

/// The actor of a processor makes the call of a service with this first argument, and 0 for any other: mostly one of
/// the most frequent calls.
#[inline(never)]
fn call_often(
    alloc: Global,
    h: &mut FmpSystem,
    p: u8,
    service: u8,
    a: i32,
    out: &mut FmpOutcome,
) -> u32
    ensures taken { IfSome h.old.machine (λ m.
        IsTaken m (made_by p (called_by service (a ∷ pos 0 ∷ pos 0 ∷ pos 0 ∷ []))) p h.new.machine out.new result) }
    ensures blank { h.old.machine ≡ None → (h.new.machine ≡ None) × (result ≡ 4) × (out.new ≡ out.old) }
{
    match mem::replace(h, FmpSystem::blank()).into_box(alloc) {
        Some(held) => {
            let mut machine = held;
            let number = machine.call_straight(p, service, a, out);
            *h = FmpSystem::of(machine);
            match number {
                Some(number) => number,
                None => call_any(alloc, h, p, service, a, 0, 0, 0, out),
            }
        }
        None => BLANK,
    }
}

/// Whether the calls of the service of this function code are among the most frequent. Such a service takes one
/// argument at most.
#[inline(always)]
fn is_frequent(service: u8) -> bool
    ensures { result ≡ spec.is_frequent service }
{
    service == SLP_TSK
        || service == WUP_TSK
        || service == SIG_SEM
        || service == WAI_SEM
        || service == POL_SEM
}

/// The actor of the processor of this number, from 1, makes the call of the service of this function code, 1 to 59.
/// Arguments that it does not take are ignored.
#[tactic(auto, using(crate::proofs::Frequent::frequent_taken))]
#[unsafe(no_mangle)]
pub extern "C" fn fmp_call(
    alloc: Global,
    h: &mut FmpSystem,
    p: u8,
    service: u8,
    a: i32,
    b: i32,
    c: i32,
    d: i32,
    out: &mut FmpOutcome,
) -> u32
    ensures taken { IfSome h.old.machine (λ m.
        IsTaken m (made_by p (called_by service (a ∷ b ∷ c ∷ d ∷ []))) p h.new.machine out.new result) }
    ensures blank { h.old.machine ≡ None → (h.new.machine ≡ None) × (result ≡ 4) × (out.new ≡ out.old) }
{
    if is_frequent(service) {
        call_often(alloc, h, p, service, a, out)
    } else {
        call_any(alloc, h, p, service, a, b, c, d, out)
    }
}

/// The body of the actor of the processor of this number, from 1, ends.
#[unsafe(no_mangle)]
pub extern "C" fn fmp_end(alloc: Global, h: &mut FmpSystem, p: u8, out: &mut FmpOutcome) -> u32
    ensures taken { IfSome h.old.machine (λ m.
        IsTaken m (Ok (given.Act p act.End)) p h.new.machine out.new result) }
    ensures blank { h.old.machine ≡ None → (h.new.machine ≡ None) × (result ≡ 4) × (out.new ≡ out.old) }
{
    match mem::replace(h, FmpSystem::blank()).into_box(alloc) {
        Some(held) => {
            let mut machine = held;
            let number = machine.take(&Given::Act(p, Act::End), p, out);
            *h = FmpSystem::of(machine);
            number
        }
        None => BLANK,
    }
}

/// The faults in order of their numbers, from 1.
const FAULTS: [Fault; 3] = [Fault::Overflow, Fault::Division, Fault::Index];

fn fail(alloc: Global, h: &mut FmpSystem, p: u8, fault: Fault, out: &mut FmpOutcome) -> u32
    ensures taken { IfSome h.old.machine (λ m.
        IsTaken m (Ok (given.Act p (act.Fault fault))) p h.new.machine out.new result) }
    ensures blank { h.old.machine ≡ None → (h.new.machine ≡ None) × (result ≡ 4) × (out.new ≡ out.old) }
{
    match mem::replace(h, FmpSystem::blank()).into_box(alloc) {
        Some(held) => {
            let mut machine = held;
            let number = machine.take(&Given::Act(p, Act::Fault(fault)), p, out);
            *h = FmpSystem::of(machine);
            number
        }
        None => BLANK,
    }
}

/// The body of the actor of the processor of this number, from 1, stops with a fault: 1 an overflow, 2 a division by 0,
/// 3 an index out of range. 9 where there is no such fault.
#[unsafe(no_mangle)]
pub extern "C" fn fmp_fault(
    alloc: Global,
    h: &mut FmpSystem,
    p: u8,
    fault: u8,
    out: &mut FmpOutcome,
) -> u32
    ensures taken { IfSome h.old.machine (λ m. IfSome (fault_of fault) (λ f.
        IsTaken m (Ok (given.Act p (act.Fault f))) p h.new.machine out.new result)) }
    ensures blank { h.old.machine ≡ None → IfSome (fault_of fault) (λ f.
        (h.new.machine ≡ None) × (result ≡ 4) × (out.new ≡ out.old)) }
    ensures none { fault_of fault ≡ None → (h.new.machine ≡ h.old.machine) × (result ≡ 9) × (out.new ≡ out.old) }
{
    match item(&FAULTS, usize::from(fault)) {
        Some(fault) => fail(alloc, h, p, fault, out),
        None => NO_FAULT,
    }
}

/// The clock advances by one.
#[unsafe(no_mangle)]
pub extern "C" fn fmp_tick(alloc: Global, h: &mut FmpSystem, out: &mut FmpOutcome) -> u32
    ensures taken { IfSome h.old.machine (λ m. IsTaken m (Ok given.Tick) 0 h.new.machine out.new result) }
    ensures blank { h.old.machine ≡ None → (h.new.machine ≡ None) × (result ≡ 4) × (out.new ≡ out.old) }
{
    match mem::replace(h, FmpSystem::blank()).into_box(alloc) {
        Some(held) => {
            let mut machine = held;
            let number = machine.take(&Given::Tick, 0, out);
            *h = FmpSystem::of(machine);
            number
        }
        None => BLANK,
    }
}

/// The interrupt of this number, 1 to 32, is requested.
#[unsafe(no_mangle)]
pub extern "C" fn fmp_int(alloc: Global, h: &mut FmpSystem, number: u8, out: &mut FmpOutcome) -> u32
    ensures taken { IfSome h.old.machine (λ m. IsTaken m (Ok (given.Int number)) 0 h.new.machine out.new result) }
    ensures blank { h.old.machine ≡ None → (h.new.machine ≡ None) × (result ≡ 4) × (out.new ≡ out.old) }
{
    match mem::replace(h, FmpSystem::blank()).into_box(alloc) {
        Some(held) => {
            let mut machine = held;
            let answered = machine.take(&Given::Int(number), 0, out);
            *h = FmpSystem::of(machine);
            answered
        }
        None => BLANK,
    }
}
