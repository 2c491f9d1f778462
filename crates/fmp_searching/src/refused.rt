//! The calls that are refused in the states that a search saw.
ghost use Rattle.std.specs.Prelude.{◌≡◌, ◌++◌, IfOk, OnOk, map};
ghost use Rattle.std.specs.List.{flat_map};
ghost use Rattle.fmp_frames.specs.Refusals.{refused_calls as refused_by, refused_of};
ghost use Rattle.fmp_searching.specs.Extent as spec;
ghost use Rattle.fmp_searching.specs.Sources.{source_tables};

use crate::sources::ExploredSources;
use fmp_frames::{LineForm, RefusedCall, SiteAnswer, append_refused, refused_calls};
use fmp_image_bytes::Image;
use std::alloc::{AllocError, Global};

/// The calls that are refused, where calls got these answers: always, or by a code that says that they are used
/// wrongly. `AllocError` if memory runs out.
pub fn refused_in(
    alloc: Global,
    image: &Image,
    answers: &[SiteAnswer],
) -> Result<Vec<RefusedCall>, AllocError>
    ensures { IfOk result (λ refused. map refused_of refused.items ≡ refused_by image.now.code answers.now) }
{
    image.keeps_rules();
    refused_calls(alloc, image.code(), answers)
}

/// Appends a call that is refused, in a line.
fn say_one_refused(
    alloc: Global,
    out: &mut Vec<u8>,
    sources: &ExploredSources<'_>,
    call: &RefusedCall,
) -> Result<(), AllocError>
    ensures { OnOk result (out.new.items
        ≡ out.old.items ++ spec.refused_line (source_tables sources.now) (refused_of call.now)) }
{
    let file = sources.named.src.as_bytes();
    let code = sources.claim.image.code();
    let (lines, site) = (sources.claim.lines, call.site);
    let position = lines.position(code, site.body, site.pc);
    append_refused(alloc, LineForm::Text, file, position, call, out)
}

/// Appends these calls, which are refused, each in a line.
fn say_each_refused(
    alloc: Global,
    out: &mut Vec<u8>,
    sources: &ExploredSources<'_>,
    calls: &[RefusedCall],
) -> Result<(), AllocError>
    ensures { OnOk result (out.new.items ≡ out.old.items
        ++ flat_map (λ x. spec.refused_line (source_tables sources.now) x) (map refused_of calls.now)) }
{
    for call in calls {
        say_one_refused(alloc, out, sources, call)?;
    }
    Ok(())
}

/// Appends the calls that are refused, where calls got these answers, each in a line. `AllocError` if memory runs out.
pub fn say_refused(
    alloc: Global,
    out: &mut Vec<u8>,
    sources: &ExploredSources<'_>,
    answers: &[SiteAnswer],
) -> Result<(), AllocError>
    ensures { OnOk result (out.new.items ≡ out.old.items
        ++ flat_map (λ x. spec.refused_line (source_tables sources.now) x)
        (refused_by (source_tables sources.now).claim.image.code answers.now)) }
{
    let calls = refused_in(alloc, sources.claim.image, answers)?;
    say_each_refused(alloc, out, sources, &calls)
}
