//! What a search saw of the calls of a code: which were never made, and what the others were answered.
ghost use Rattle.std.specs.Prelude.{◌≡◌, ◌++◌, IfOk, OnOk, map};
ghost use Rattle.std.specs.List.{flat_map};
ghost use Rattle.fmp_searching.specs.Claims.{claim_tables};
ghost use Rattle.fmp_searching.specs.Made as spec;
ghost use Rattle.fmp_searching.specs.Sources.{source_tables};

use crate::answers::Answered;
use crate::sources::ExploredSources;
use fmp_base::Er;
use fmp_explore::{CallSite, Coverage};
use fmp_frames::{CallPosition, CallSite as FrameSite, SiteAnswer, call_sites};
use fmp_image_bytes::Image;
use std::alloc::{AllocError, Global};

/// What a search saw of the calls of a code, in the order of the text.
#[derive(Drop)]
pub struct SeenCalls {
    /// The calls that were never made.
    pub unmade: Vec<CallSite>,
    /// Those that were made and stand in the text, with the codes that they got.
    pub answered: Vec<Answered>,
    /// All answers.
    pub answers: Vec<SiteAnswer>,
}

/// The same position, as a question has it.
fn asked_site(site: FrameSite) -> CallSite
    ensures { result ≡ spec.asked_site site }
{
    CallSite {
        body: site.body,
        pc: site.pc,
    }
}

/// Adds a call, if it was never made.
fn add_unmade(
    calls: &mut Vec<CallSite>,
    coverage: &Coverage,
    site: FrameSite,
) -> Result<(), AllocError>
    ensures { OnOk result (calls.new.items ≡ calls.old.items ++ spec.unmade_here coverage.now site) }
{
    if coverage.was_made(asked_site(site)) {
        return Ok(());
    }
    calls.push(asked_site(site))?;
    Ok(())
}

/// Those of these calls that were never made.
fn unmade_among(
    alloc: Global,
    coverage: &Coverage,
    sites: &[FrameSite],
) -> Result<Vec<CallSite>, AllocError>
    ensures { IfOk result (λ calls. calls.items ≡ flat_map (λ site. spec.unmade_here coverage.now site) sites.now) }
{
    let mut calls = Vec::new(alloc);
    for site in sites {
        add_unmade(&mut calls, coverage, *site)?;
    }
    Ok(calls)
}

/// The answers of a call; none if it was never made.
fn answers_here(alloc: Global, coverage: &Coverage, site: FrameSite) -> Result<Vec<Er>, AllocError>
    ensures { IfOk result (λ codes. codes.items ≡ spec.answers_here coverage.now site) }
{
    if coverage.was_made(asked_site(site)) {
        coverage.answers(alloc, asked_site(site))
    } else {
        Ok(Vec::new(alloc))
    }
}

/// Adds these answers of a call.
fn add_codes(answers: &mut Vec<SiteAnswer>, site: FrameSite, codes: &[Er]) -> Result<(), AllocError>
    ensures { OnOk result (answers.new.items ≡ answers.old.items ++ spec.answers_of_site site codes.now) }
{
    for code in codes {
        answers.push(SiteAnswer { site, code: *code })?;
    }
    Ok(())
}

/// Adds the answers of a call.
fn add_answers(
    alloc: Global,
    answers: &mut Vec<SiteAnswer>,
    coverage: &Coverage,
    site: FrameSite,
) -> Result<(), AllocError>
    ensures { OnOk result (answers.new.items
        ≡ answers.old.items ++ spec.answers_of_site site (spec.answers_here coverage.now site)) }
{
    let codes = answers_here(alloc, coverage, site)?;
    add_codes(answers, site, &codes)
}

/// The answers that these calls got.
fn answers_among(
    alloc: Global,
    coverage: &Coverage,
    sites: &[FrameSite],
) -> Result<Vec<SiteAnswer>, AllocError>
    ensures { IfOk result (λ answers. answers.items
        ≡ flat_map (λ site. spec.answers_of_site site (spec.answers_here coverage.now site)) sites.now) }
{
    let mut answers = Vec::new(alloc);
    for site in sites {
        add_answers(alloc, &mut answers, coverage, *site)?;
    }
    Ok(answers)
}

/// Adds a call that got these codes, if it stands in the text.
fn add_answered_at(
    calls: &mut Vec<Answered>,
    position: Option<CallPosition>,
    answers: Vec<Er>,
) -> Result<(), AllocError>
    ensures { OnOk result (map spec.answered_call calls.new.items
        ≡ map spec.answered_call calls.old.items ++ spec.answered_at position answers.items) }
{
    let Some(CallPosition { line, column }) = position else {
        return Ok(());
    };
    calls.push(Answered {
        line,
        column,
        answers,
    })?;
    Ok(())
}

/// Adds a call with the codes that it got, if it was made and stands in the text.
fn add_answered(
    alloc: Global,
    calls: &mut Vec<Answered>,
    sources: &ExploredSources<'_>,
    coverage: &Coverage,
    site: FrameSite,
) -> Result<(), AllocError>
    ensures { OnOk result (map spec.answered_call calls.new.items ≡ map spec.answered_call calls.old.items
        ++ spec.answered_here coverage.now (claim_tables sources.now.claim).image.code
        (source_tables sources.now).positions site) }
{
    if !coverage.was_made(asked_site(site)) {
        return Ok(());
    }
    let code = sources.claim.image.code();
    let position = sources.claim.lines.position(code, site.body, site.pc);
    let answers = coverage.answers(alloc, asked_site(site))?;
    add_answered_at(calls, position, answers)
}

/// Those of these calls that were made and stand in the text.
fn answered_among(
    alloc: Global,
    sources: &ExploredSources<'_>,
    coverage: &Coverage,
    sites: &[FrameSite],
) -> Result<Vec<Answered>, AllocError>
    ensures { IfOk result (λ calls. map spec.answered_call calls.items
        ≡ flat_map (λ site. spec.answered_here coverage.now (claim_tables sources.now.claim).image.code
        (source_tables sources.now).positions site) sites.now) }
{
    let mut calls = Vec::new(alloc);
    for site in sites {
        add_answered(alloc, &mut calls, sources, coverage, *site)?;
    }
    Ok(calls)
}

/// The calls of the bodies of an image.
fn sites_of(alloc: Global, image: &Image) -> Result<Vec<FrameSite>, AllocError>
    ensures { IfOk result (λ sites. sites.items ≡ spec.sites_of image.now) }
{
    image.keeps_rules();
    call_sites(alloc, image.code())
}

/// What a search saw of the calls of the bodies that were explored. `AllocError` if memory runs out.
pub fn seen_calls(
    alloc: Global,
    sources: &ExploredSources<'_>,
    coverage: &Coverage,
) -> Result<SeenCalls, AllocError>
    ensures { IfOk result (spec.AreSeen coverage.now (claim_tables sources.now.claim).image.code
        (source_tables sources.now).positions) }
{
    let sites = sites_of(alloc, sources.claim.image)?;
    let unmade = unmade_among(alloc, coverage, &sites)?;
    let answered = answered_among(alloc, sources, coverage, &sites)?;
    let answers = answers_among(alloc, coverage, &sites)?;
    Ok(SeenCalls {
        unmade,
        answered,
        answers,
    })
}
