//! Calls that are refused: always, or by a code that says that they are used wrongly.
ghost use Rattle.std.specs.Prelude.{◌≡◌, ◌++◌, IfOk, OnOk, Some, map};
ghost use Rattle.std.specs.List.{flat_map, list_any};
ghost use Rattle.fmp_instructions.specs.Instructions.{code_tables};
ghost use Rattle.fmp_frames.specs.Answers.{codes_at as answers_at};
ghost use Rattle.fmp_frames.specs.Refusals as spec;
ghost use Rattle.fmp_frames.specs.Sites.{HasSites};

use crate::answers::{SiteAnswer, codes_at};
use crate::sites::{CallSite, SiteCall, call_at, call_sites};
use fmp_base::{Er, Service};
use fmp_instructions::Code;
use std::alloc::{AllocError, Global};

/// How often a call was refused.
#[derive(Clone, Copy)]
pub enum Refusal {
    /// Each time that it was answered: no answer was E_OK.
    Always,
    /// It was answered E_OK too.
    Sometimes,
}

/// A call that is refused.
#[derive(Drop)]
pub struct RefusedCall {
    pub site: CallSite,
    pub service: Service,
    pub refusal: Refusal,
    /// The codes that tell it, each once: all that the call was answered if it is always refused, else those of E_PAR,
    /// E_ID and E_CTX.
    pub codes: Vec<Er>,
}

/// Whether a call with this answer is done.
pub fn is_ok(code: Er) -> bool
    ensures { result ≡ spec.is_ok code }
{
    match code {
        Er::Ok => true,
        _ => false,
    }
}

/// Whether a code says that a call is used wrongly.
fn is_misuse(code: Er) -> bool
    ensures { result ≡ spec.is_misuse code }
{
    match code {
        Er::Par | Er::Id | Er::Ctx => true,
        _ => false,
    }
}

/// Whether some answer is E_OK.
fn has_ok(answers: &[Er]) -> bool
    ensures { result ≡ list_any spec.is_ok answers.now }
{
    answers.iter().any(|code| is_ok(*code))
}

/// How often a call was refused that was answered these codes.
fn refusal_of(answers: &[Er]) -> Refusal
    ensures { result ≡ spec.refusal_of answers.now }
{
    if has_ok(answers) {
        Refusal::Sometimes
    } else {
        Refusal::Always
    }
}

/// Adds a code, if it says that a call is used wrongly.
fn add_misuse(code: Er, codes: &mut Vec<Er>) -> Result<(), AllocError>
    ensures { OnOk result (codes.new.items ≡ codes.old.items ++ spec.misuse code) }
{
    if is_misuse(code) {
        codes.push(code)?;
    }
    Ok(())
}

/// Those of some codes that say that a call is used wrongly.
fn misuses(alloc: Global, answers: &[Er]) -> Result<Vec<Er>, AllocError>
    ensures { IfOk result (λ codes. codes.items ≡ flat_map spec.misuse answers.now) }
{
    let mut codes = Vec::new(alloc);
    for code in answers {
        add_misuse(*code, &mut codes)?;
    }
    Ok(codes)
}

/// Of the codes that a call was answered those that are told.
fn told_codes(
    alloc: Global,
    refusal: Refusal,
    is_tested: bool,
    answers: &[Er],
) -> Result<Vec<Er>, AllocError>
    ensures { IfOk result (λ codes. codes.items ≡ spec.told_codes refusal is_tested answers.now) }
{
    match (refusal, is_tested) {
        (Refusal::Always, _) => Vec::from_slice(alloc, answers),
        (Refusal::Sometimes, true) => Ok(Vec::new(alloc)),
        (Refusal::Sometimes, false) => misuses(alloc, answers),
    }
}

/// Adds a call that was answered these codes, if it is one that is told.
fn add_call(
    alloc: Global,
    site: CallSite,
    call: SiteCall,
    answers: &[Er],
    refused: &mut Vec<RefusedCall>,
) -> Result<(), AllocError>
    ensures { OnOk result (map spec.refused_of refused.new.items
        ≡ map spec.refused_of refused.old.items ++ spec.refused_call site (Some call) answers.now) }
{
    let refusal = refusal_of(answers);
    let codes = told_codes(alloc, refusal, call.is_tested, answers)?;
    if codes.is_empty() {
        return Ok(());
    }
    refused.push(RefusedCall {
        site,
        service: call.service,
        refusal,
        codes,
    })?;
    Ok(())
}

/// Adds the call of a code at a position that was answered these codes, each once, if it is one that is told: no answer
/// is E_OK; or one is E_PAR, E_ID or E_CTX, and its body does not test what it is answered. `AllocError` if memory runs
/// out.
pub fn add_refused(
    alloc: Global,
    code: &Code,
    site: CallSite,
    answers: &[Er],
    refused: &mut Vec<RefusedCall>,
) -> Result<(), AllocError>
    ensures { OnOk result (map spec.refused_of refused.new.items
        ≡ map spec.refused_of refused.old.items ++ spec.refused_at (code_tables code.now) site answers.now) }
{
    match call_at(code, site) {
        Some(call) => add_call(alloc, site, call, answers, refused),
        None => Ok(()),
    }
}

/// Those of some calls of a code that are told, where calls got these answers.
fn refused_among(
    alloc: Global,
    code: &Code,
    answers: &[SiteAnswer],
    sites: &[CallSite],
) -> Result<Vec<RefusedCall>, AllocError>
    ensures { IfOk result (λ refused. map spec.refused_of refused.items
        ≡ flat_map (λ s. spec.refused_at (code_tables code.now) s (answers_at answers.now s)) sites.now) }
{
    let mut refused = Vec::new(alloc);
    for site in sites {
        let codes = codes_at(alloc, answers, *site)?;
        add_refused(alloc, code, *site, &codes, &mut refused)?;
    }
    Ok(refused)
}

/// The calls of a code that are refused, where calls got these answers, in order of body and position. `AllocError` if
/// memory runs out.
pub fn refused_calls(
    alloc: Global,
    code: &Code,
    answers: &[SiteAnswer],
) -> Result<Vec<RefusedCall>, AllocError>
    requires { HasSites (code_tables code.now) }
    ensures { IfOk result (λ refused. map spec.refused_of refused.items
        ≡ spec.refused_calls (code_tables code.now) answers.now) }
{
    let sites = call_sites(alloc, code)?;
    refused_among(alloc, code, answers, &sites)
}
