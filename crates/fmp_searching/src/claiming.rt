//! What is claimed of all schedules.
ghost use Rattle.std.specs.Prelude.{◌≡◌, [], ◌++◌, IfOk, OnOk, decimal, if◌then◌else◌, true};
ghost use Rattle.std.specs.Fmt.{signed_decimal};
ghost use Rattle.fmp_base.specs.Systems.{tables_of};
ghost use Rattle.fmp_instructions.specs.Instructions.{code_tables};
ghost use Rattle.fmp_searching.specs.Claims as spec;
ghost use Rattle.fmp_searching.specs.Claims.{claim_tables};

use crate::lists::append_lists;
use crate::sentences::append_monitors;
use crate::sites::CallLines;
use crate::sources::Claim;
use fmp_base::{Fault, Service, System, TaskConfig};
use fmp_code::{Code, Instruction};
use fmp_explore::{CallSite, Never, NeverAt, Question, Report};
use fmp_json::{append, append_number, append_signed};
use fmp_named::append_task;
use std::alloc::{AllocError, Global};

/// Appends a value in decimal digits, with its sign if it is negative.
pub(crate) fn append_value(value: i32, out: &mut Vec<u8>) -> Result<(), AllocError>
    ensures { OnOk result (out.new.items ≡ out.old.items ++ signed_decimal value) }
{
    append_signed(i64::from(value), out)
}

/// Appends what must never happen; of a fault nothing.
#[tactic(auto, unfolding(crate::specs::Claims::never_text))]
pub(crate) fn append_never(sys: &System, never: Never, out: &mut Vec<u8>) -> Result<(), AllocError>
    ensures { OnOk result (out.new.items ≡ out.old.items ++ spec.never_text (tables_of sys.now) never) }
{
    match never {
        Never::Answer(code) => {
            append(b"never ", out)?;
            append(code.name().as_bytes(), out)?;
            append(b", ", out)
        }
        Never::Put(value) => {
            append(b"never put(", out)?;
            append_value(value, out)?;
            append(b"), ", out)
        }
        Never::Acts(t) => {
            append(b"never ", out)?;
            append_task(sys, usize::from(t), out)?;
            append(b" acts, ", out)
        }
        Never::Fault(_) => Ok(()),
    }
}

/// Appends what must never happen anywhere, but for faults.
#[tactic(auto, unfolding(crate::specs::Claims::nevers_text))]
fn append_nevers(sys: &System, nevers: &[Never], out: &mut Vec<u8>) -> Result<(), AllocError>
    ensures { OnOk result (out.new.items
        ≡ out.old.items ++ spec.nevers_text (tables_of sys.now) nevers.now) }
{
    for never in nevers {
        append_never(sys, *never, out)?;
    }
    Ok(())
}

/// The service that is called at a position of the code, if one is.
fn service_at(code: &Code, site: CallSite) -> Option<Service>
    ensures { result ≡ spec.service_at (code_tables code.now) site }
{
    let body = code.bodies.get(usize::from(site.body))?;
    match body.instructions.get(usize::from(site.pc)) {
        Some(Instruction::Call { service, .. }) => Some(*service),
        _ => None,
    }
}

/// Appends a call by the service and its line, or else by its position.
#[tactic(auto, unfolding(crate::specs::Claims::call_text))]
fn append_call(
    site: CallSite,
    service: Option<Service>,
    line: Option<u32>,
    out: &mut Vec<u8>,
) -> Result<(), AllocError>
    ensures { OnOk result (out.new.items ≡ out.old.items ++ spec.call_text site service line) }
{
    if let Some(service) = service
        && let Some(line) = line
    {
        append(service.name().as_bytes(), out)?;
        append(b" in line ", out)?;
        return append_number(u64::from(line), out);
    }
    append(b"the call at ", out)?;
    append_number(u64::from(site.pc), out)?;
    append(b" of body ", out)?;
    append_number(u64::from(site.body), out)
}

/// Appends whose answers are meant, if that matters.
fn append_of_task(sys: &System, by: Option<usize>, out: &mut Vec<u8>) -> Result<(), AllocError>
    ensures { OnOk result (out.new.items ≡ out.old.items ++ spec.of_task (tables_of sys.now) by) }
{
    match by {
        Some(task) => {
            append(b" by ", out)?;
            append_task(sys, task, out)
        }
        None => Ok(()),
    }
}

/// Appends an answer that must never be given to a call.
#[tactic(auto, unfolding(crate::specs::Claims::never_at_text))]
pub(crate) fn append_never_at(
    sys: &System,
    code: &Code,
    lines: &CallLines,
    never: NeverAt,
    out: &mut Vec<u8>,
) -> Result<(), AllocError>
    ensures { OnOk result (out.new.items
        ≡ out.old.items ++ spec.never_at_text (tables_of sys.now) (code_tables code.now) lines.now never) }
{
    let (service, line) = (service_at(code, never.site), lines.line(code, never.site));
    append(b"never ", out)?;
    append(never.code.name().as_bytes(), out)?;
    append_of_task(sys, never.by, out)?;
    append(b" of ", out)?;
    append_call(never.site, service, line, out)?;
    append(b", ", out)
}

/// Appends the answers that must never be given to calls.
#[tactic(auto, unfolding(crate::specs::Claims::nevers_at_text))]
fn append_nevers_at(
    sys: &System,
    code: &Code,
    lines: &CallLines,
    nevers: &[NeverAt],
    out: &mut Vec<u8>,
) -> Result<(), AllocError>
    ensures { OnOk result (out.new.items
        ≡ out.old.items ++ spec.nevers_at_text (tables_of sys.now) (code_tables code.now) lines.now nevers.now) }
{
    for never in nevers {
        append_never_at(sys, code, lines, *never, out)?;
    }
    Ok(())
}

/// Appends that a task may rest.
#[tactic(auto, unfolding(crate::specs::Claims::rest_text))]
fn append_rest(task: &TaskConfig, out: &mut Vec<u8>) -> Result<(), AllocError>
    ensures { OnOk result (out.new.items ≡ out.old.items ++ spec.rest_text task.now) }
{
    append(b", ", out)?;
    append(task.name.as_bytes(), out)?;
    append(b" may rest", out)
}

/// Appends that a task may rest, where it may.
fn append_mark(task: &TaskConfig, rests: bool, out: &mut Vec<u8>) -> Result<(), AllocError>
    ensures { OnOk result (out.new.items
        ≡ out.old.items ++ (if rests then spec.rest_text task.now else [])) }
{
    if rests {
        append_rest(task, out)
    } else {
        Ok(())
    }
}

/// Appends the tasks that may rest, by these marks.
#[tactic(auto, using(crate::proofs::Bodies::rests_text_at, crate::proofs::Bodies::rests_text_end))]
fn append_rests(tasks: &[TaskConfig], rest: &[bool], out: &mut Vec<u8>) -> Result<(), AllocError>
    ensures { OnOk result (out.new.items ≡ out.old.items ++ spec.rests_text tasks.now rest.now) }
{
    let count = tasks.len().min(rest.len());
    for t in 0..count {
        append_mark(&tasks[t], rest[t], out)?;
    }
    Ok(())
}

/// Whether an interrupt may come, of which there may be this many.
fn may_come(interrupts: Option<u8>) -> bool
    ensures { result ≡ spec.may_come interrupts }
{
    match interrupts {
        Some(most) => most > 0,
        None => true,
    }
}

/// Appends a text where this is so.
pub(crate) fn append_where(is_so: bool, text: &[u8], out: &mut Vec<u8>) -> Result<(), AllocError>
    ensures { OnOk result (out.new.items ≡ out.old.items ++ (if is_so then text.now else [])) }
{
    if is_so { append(text, out) } else { Ok(()) }
}

/// Why a state is no deadlock though no task goes on, each after `, `.
#[tactic(auto, unfolding(crate::specs::Claims::reasons_text))]
fn reasons(alloc: Global, sys: &System, question: &Question) -> Result<Vec<u8>, AllocError>
    ensures { IfOk result (λ text. text.items ≡ spec.reasons_text (tables_of sys.now) question.now) }
{
    let mut text = Vec::new(alloc);
    let interrupted = !sys.interrupts.is_empty() && may_come(question.interrupts);
    append_where(
        !sys.cyclics.is_empty(),
        b", a cyclic handler goes on",
        &mut text,
    )?;
    append_where(interrupted, b", an interrupt may come", &mut text)?;
    append_rests(&sys.tasks, &question.rest, &mut text)?;
    Ok(text)
}

/// Appends reasons in brackets, without their first `, `.
#[tactic(auto, unfolding(crate::specs::Claims::in_brackets))]
fn append_in_brackets(reasons: &[u8], out: &mut Vec<u8>) -> Result<(), AllocError>
    ensures { OnOk result (out.new.items ≡ out.old.items ++ spec.in_brackets reasons.now) }
{
    if reasons.len() <= 2 {
        return Ok(());
    }
    append(b" (", out)?;
    append(&reasons[2..], out)?;
    append(b")", out)
}

/// Whether what must never happen is this fault.
fn is_fault(fault: Fault, never: Never) -> bool
    ensures { result ≡ spec.is_fault_never fault never }
{
    match (never, fault) {
        (Never::Fault(Fault::Overflow), Fault::Overflow) => true,
        (Never::Fault(Fault::Division), Fault::Division) => true,
        (Never::Fault(Fault::Index), Fault::Index) => true,
        _ => false,
    }
}

/// Whether no body may stop with this fault.
fn forbids_fault(nevers: &[Never], fault: Fault) -> bool
    ensures { result ≡ spec.forbids_fault nevers.now fault }
{
    for never in nevers {
        if is_fault(fault, *never) {
            return true;
        }
    }
    false
}

/// Whether no body may stop with any fault.
fn forbids_all(nevers: &[Never]) -> bool
    ensures { result ≡ spec.forbids_all nevers.now }
{
    forbids_fault(nevers, Fault::Overflow)
        && forbids_fault(nevers, Fault::Division)
        && forbids_fault(nevers, Fault::Index)
}

/// Appends that no body may stop with this fault, where none may.
#[tactic(auto, unfolding(crate::specs::Claims::one_fault_text))]
fn append_fault(nevers: &[Never], fault: Fault, out: &mut Vec<u8>) -> Result<(), AllocError>
    ensures { OnOk result (out.new.items ≡ out.old.items ++ spec.one_fault_text nevers.now fault) }
{
    if !forbids_fault(nevers, fault) {
        return Ok(());
    }
    append(b", never ", out)?;
    append(fault.name().as_bytes(), out)
}

/// Appends which faults no body may stop with.
#[tactic(auto, unfolding(crate::specs::Claims::faults_text))]
pub(crate) fn append_faults(nevers: &[Never], out: &mut Vec<u8>) -> Result<(), AllocError>
    ensures { OnOk result (out.new.items ≡ out.old.items ++ spec.faults_text nevers.now) }
{
    if forbids_all(nevers) {
        return append(b", no fault", out);
    }
    append_fault(nevers, Fault::Overflow, out)?;
    append_fault(nevers, Fault::Division, out)?;
    append_fault(nevers, Fault::Index, out)
}

/// Appends what the words ask for.
#[tactic(auto, unfolding(crate::specs::Claims::asked_text))]
fn append_asked(alloc: Global, claim: &Claim<'_>, out: &mut Vec<u8>) -> Result<(), AllocError>
    ensures { OnOk result (out.new.items ≡ out.old.items ++ spec.asked_text (claim_tables claim.now)) }
{
    let (sys, question) = (claim.image.system(), claim.question);
    append_nevers(sys, &question.nevers, out)?;
    append_nevers_at(
        sys,
        claim.image.code(),
        claim.lines,
        &question.nevers_at,
        out,
    )?;
    append_monitors(alloc, claim.configured, &question.monitors, out)
}

/// Appends that there is no deadlock, and why a state is none though no task goes on.
#[tactic(auto, unfolding(crate::specs::Claims::deadlock_text))]
pub(crate) fn append_deadlock(
    alloc: Global,
    sys: &System,
    question: &Question,
    out: &mut Vec<u8>,
) -> Result<(), AllocError>
    ensures { OnOk result (out.new.items ≡ out.old.items ++ spec.deadlock_text (tables_of sys.now) question.now) }
{
    let reasons = reasons(alloc, sys, question)?;
    append(b"no deadlock", out)?;
    append_in_brackets(&reasons, out)
}

/// Appends what no list of events comes to.
#[tactic(auto, unfolding(crate::specs::Claims::parts_text))]
fn append_parts(alloc: Global, claim: &Claim<'_>, out: &mut Vec<u8>) -> Result<(), AllocError>
    ensures { OnOk result (out.new.items ≡ out.old.items ++ spec.parts_text (claim_tables claim.now)) }
{
    append_asked(alloc, claim, out)?;
    append_deadlock(alloc, claim.image.system(), claim.question, out)?;
    append_faults(&claim.question.nevers, out)
}

/// Appends the claim of a report that holds: what no list of events comes to, which the question is about, over which
/// lists, and at which bound. `AllocError` if memory runs out.
#[tactic(auto, unfolding(crate::specs::Claims::claim_text))]
pub fn append_claim(
    alloc: Global,
    claim: &Claim<'_>,
    report: &Report,
    out: &mut Vec<u8>,
) -> Result<(), AllocError>
    requires { report.now.holds ≡ true }
    ensures { OnOk result (out.new.items ≡ out.old.items ++ spec.claim_text (claim_tables claim.now)) }
{
    append_parts(alloc, claim, out)?;
    append_lists(claim.question, claim.bound, out)
}
