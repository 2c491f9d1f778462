//! What a claim is made of, part by part.
ghost use Rattle.std.specs.Prelude.{◌≡◌, ◌++◌, IfOk, OnOk, map, take};
ghost use Rattle.std.specs.List.{flat_map};
ghost use Rattle.fmp_base.specs.Systems.{tables_of};
ghost use Rattle.fmp_searching.specs.Claims.{claim_tables, deadlock_text, never_at_text, never_text};
ghost use Rattle.fmp_searching.specs.Parts as spec;
ghost use Rattle.fmp_searching.specs.Sentences.{subject_text};

use crate::claiming::{append_deadlock, append_faults, append_never, append_never_at};
use crate::sentences::append_subject;
use crate::sources::Claim;
use fmp_base::System;
use fmp_explore::{Monitor, Never, NeverAt, Question};
use std::alloc::{AllocError, Global};

/// Adds a part, without the comma and the blank after it, if it says something.
fn add_part(parts: &mut Vec<Vec<u8>>, part: Vec<u8>) -> Result<(), AllocError>
    ensures { OnOk result (map (λ p. p.items) parts.new.items
        ≡ map (λ p. p.items) parts.old.items ++ spec.part_of part.items) }
{
    let mut part = part;
    if part.len() > 2 {
        part.truncate(part.len() - 2);
        parts.push(part)?;
    }
    Ok(())
}

/// Adds what must never happen; of a fault nothing.
fn add_never(
    alloc: Global,
    claim: &Claim<'_>,
    never: Never,
    parts: &mut Vec<Vec<u8>>,
) -> Result<(), AllocError>
    ensures { OnOk result (map (λ p. p.items) parts.new.items ≡ map (λ p. p.items) parts.old.items
        ++ spec.part_of (never_text (claim_tables claim.now).image.system never)) }
{
    let mut part = Vec::new(alloc);
    append_never(claim.image.system(), never, &mut part)?;
    add_part(parts, part)
}

/// Adds an answer that must never be given to a call.
fn add_never_at(
    alloc: Global,
    claim: &Claim<'_>,
    never: NeverAt,
    parts: &mut Vec<Vec<u8>>,
) -> Result<(), AllocError>
    ensures { OnOk result (map (λ p. p.items) parts.new.items ≡ map (λ p. p.items) parts.old.items
        ++ spec.part_of (never_at_text (claim_tables claim.now).image.system (claim_tables claim.now).image.code
        (claim_tables claim.now).bodies never)) }
{
    let mut part = Vec::new(alloc);
    let (sys, code) = (claim.image.system(), claim.image.code());
    append_never_at(sys, code, claim.lines, never, &mut part)?;
    add_part(parts, part)
}

/// Adds what must never happen anywhere.
fn add_nevers_anywhere(
    alloc: Global,
    claim: &Claim<'_>,
    nevers: &[Never],
    parts: &mut Vec<Vec<u8>>,
) -> Result<(), AllocError>
    ensures { OnOk result (map (λ p. p.items) parts.new.items ≡ map (λ p. p.items) parts.old.items
        ++ flat_map (λ n. spec.part_of (never_text (claim_tables claim.now).image.system n)) nevers.now) }
{
    for never in nevers {
        add_never(alloc, claim, *never, parts)?;
    }
    Ok(())
}

/// Adds the answers that must never be given to calls.
fn add_nevers_at(
    alloc: Global,
    claim: &Claim<'_>,
    nevers: &[NeverAt],
    parts: &mut Vec<Vec<u8>>,
) -> Result<(), AllocError>
    ensures { OnOk result (map (λ p. p.items) parts.new.items ≡ map (λ p. p.items) parts.old.items
        ++ flat_map (λ n. spec.part_of (never_at_text (claim_tables claim.now).image.system
        (claim_tables claim.now).image.code (claim_tables claim.now).bodies n)) nevers.now) }
{
    for never in nevers {
        add_never_at(alloc, claim, *never, parts)?;
    }
    Ok(())
}

/// The first of the answers at calls that a question forbids.
fn first_at_calls<'a>(question: &'a Question, count: usize) -> &'a [NeverAt]
    ensures { result.now ≡ take count question.now.nevers_at.items }
{
    &question.nevers_at[..count.min(question.nevers_at.len())]
}

/// Adds what must never happen, but for faults: anywhere, and the first of what must never happen at calls.
pub fn add_nevers(
    alloc: Global,
    claim: &Claim<'_>,
    at_calls: usize,
    parts: &mut Vec<Vec<u8>>,
) -> Result<(), AllocError>
    ensures { OnOk result (map (λ p. p.items) parts.new.items ≡ map (λ p. p.items) parts.old.items
        ++ spec.never_parts (claim_tables claim.now) at_calls) }
{
    add_nevers_anywhere(alloc, claim, &claim.question.nevers, parts)?;
    add_nevers_at(
        alloc,
        claim,
        first_at_calls(claim.question, at_calls),
        parts,
    )
}

/// Adds what a monitor watches.
fn add_monitor(
    alloc: Global,
    sys: &System,
    monitor: &Monitor,
    parts: &mut Vec<Vec<u8>>,
) -> Result<(), AllocError>
    ensures { OnOk result (map (λ p. p.items) parts.new.items ≡ map (λ p. p.items) parts.old.items
        ++ spec.part_of (subject_text (tables_of sys.now) monitor.now.subject)) }
{
    let mut part = Vec::new(alloc);
    append_subject(alloc, sys, &monitor.subject, &mut part)?;
    add_part(parts, part)
}

/// Adds what these monitors watch.
pub fn add_monitors(
    alloc: Global,
    sys: &System,
    monitors: &[Monitor],
    parts: &mut Vec<Vec<u8>>,
) -> Result<(), AllocError>
    ensures { OnOk result (map (λ p. p.items) parts.new.items ≡ map (λ p. p.items) parts.old.items
        ++ flat_map (λ m. spec.part_of (subject_text (tables_of sys.now) m.subject)) monitors.now) }
{
    for monitor in monitors {
        add_monitor(alloc, sys, monitor, parts)?;
    }
    Ok(())
}

/// That there is no deadlock, and why a state is none though no task goes on.
pub fn deadlock_part(
    alloc: Global,
    sys: &System,
    question: &Question,
) -> Result<Vec<u8>, AllocError>
    ensures { IfOk result (λ part. part.items ≡ deadlock_text (tables_of sys.now) question.now) }
{
    let mut part = Vec::new(alloc);
    append_deadlock(alloc, sys, question, &mut part)?;
    Ok(part)
}

/// Adds which faults no body may stop with, without the comma and the blank before.
fn add_faults(
    alloc: Global,
    question: &Question,
    parts: &mut Vec<Vec<u8>>,
) -> Result<(), AllocError>
    ensures { OnOk result (map (λ p. p.items) parts.new.items ≡ map (λ p. p.items) parts.old.items
        ++ spec.fault_parts question.now) }
{
    let mut text = Vec::new(alloc);
    append_faults(&question.nevers, &mut text)?;
    if text.len() <= 2 {
        return Ok(());
    }
    let mut part = Vec::new(alloc);
    part.extend_from_slice(&text[2..])?;
    parts.push(part)?;
    Ok(())
}

/// What a claim is made of. `AllocError` if memory runs out.
pub fn parts_of(alloc: Global, claim: &Claim<'_>) -> Result<Vec<Vec<u8>>, AllocError>
    ensures { IfOk result (λ parts. map (λ p. p.items) parts.items ≡ spec.claim_parts (claim_tables claim.now)) }
{
    let (sys, question) = (claim.image.system(), claim.question);
    let mut parts = Vec::new(alloc);
    add_nevers(alloc, claim, question.nevers_at.len(), &mut parts)?;
    add_monitors(alloc, claim.configured, &question.monitors, &mut parts)?;
    parts.push(deadlock_part(alloc, sys, question)?)?;
    add_faults(alloc, question, &mut parts)?;
    Ok(parts)
}
