//! What is printed of a finding: the call to which it belongs, what is seen after its steps, and where they are.
ghost use Rattle.std.specs.Prelude.{◌≡◌, ◌++◌, OnOk};
ghost use Rattle.fmp_searching.specs.Claims.{claim_tables};
ghost use Rattle.fmp_searching.specs.Findings as spec;
ghost use Rattle.fmp_searching.specs.Sources.{source_tables, steps_name};

use crate::seen::Seen;
use crate::sources::{ExploredSources, say, say_position};
use fmp_explore::{CallSite, Finding, FindingKind};
use fmp_json::append_number;
use std::alloc::AllocError;

/// The line of a finding: of its call, or of the head of the body that goes on for ever.
fn line_of(sources: &ExploredSources<'_>, kind: FindingKind, site: CallSite) -> Option<u32>
    ensures { result ≡ spec.finding_line (claim_tables sources.now.claim) kind site }
{
    match kind {
        FindingKind::Endless(_) => sources.claim.lines.head(site.body),
        FindingKind::Line(_)
        | FindingKind::Deadlock
        | FindingKind::Breach(_)
        | FindingKind::State(_)
        | FindingKind::Stuck(_) => sources.claim.lines.line(sources.claim.image.code(), site),
    }
}

/// Appends the call to which a finding belongs, if it belongs to one.
fn say_site(
    out: &mut Vec<u8>,
    sources: &ExploredSources<'_>,
    kind: FindingKind,
    site: Option<CallSite>,
) -> Result<(), AllocError>
    ensures { OnOk result (out.new.items
        ≡ out.old.items ++ spec.site_text (source_tables sources.now) kind site) }
{
    let Some(site) = site else {
        return Ok(());
    };
    say_position(out, sources, line_of(sources, kind, site))?;
    say(out, ": ")
}

/// Appends the call to which a finding belongs, and what is seen.
pub fn say_seen(
    out: &mut Vec<u8>,
    sources: &ExploredSources<'_>,
    finding: &Finding,
    seen: &Seen,
) -> Result<(), AllocError>
    ensures { OnOk result (out.new.items
        ≡ out.old.items ++ spec.seen_text (source_tables sources.now) finding.now seen.now) }
{
    say_site(out, sources, finding.kind, seen.site)?;
    out.extend_from_slice(&seen.text)
}

/// The word for this many steps.
#[tactic(auto, unfolding(crate::specs::Findings::steps_word))]
fn steps_word(count: usize) -> &'static str
    ensures { result.now ≡ spec.steps_word count }
{
    if count == 1 { " step" } else { " steps" }
}

/// Appends the name of the file of steps of this number.
#[tactic(auto, unfolding(crate::specs::Sources::steps_name))]
fn append_steps_name(name: &str, number: usize, out: &mut Vec<u8>) -> Result<(), AllocError>
    ensures { OnOk result (out.new.items ≡ out.old.items ++ steps_name name.now number) }
{
    say(out, name)?;
    say(out, ".")?;
    append_number(number as u64, out)
}

/// Appends how many steps lead to the finding of this number, and where they are.
#[tactic(auto, unfolding(crate::specs::Findings::steps_text))]
fn say_steps(out: &mut Vec<u8>, name: &str, number: usize, count: usize) -> Result<(), AllocError>
    ensures { OnOk result (out.new.items ≡ out.old.items ++ spec.steps_text name.now number count) }
{
    say(out, ": after ")?;
    append_number(count as u64, out)?;
    say(out, steps_word(count))?;
    say(out, ", in ")?;
    append_steps_name(name, number, out)?;
    say(out, "\n")
}

/// Appends a finding, the one of this number, of which this is seen.
pub fn say_finding(
    out: &mut Vec<u8>,
    sources: &ExploredSources<'_>,
    number: usize,
    finding: &Finding,
    seen: &Seen,
) -> Result<(), AllocError>
    ensures { OnOk result (out.new.items
        ≡ out.old.items ++ spec.finding_text (source_tables sources.now) number finding.now seen.now) }
{
    say_seen(out, sources, finding, seen)?;
    say_steps(out, sources.named.out, number, finding.steps.len())
}
