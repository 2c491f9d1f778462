//! What an image says of the bodies of a text.

ghost use Rattle.std.specs.Prelude.{◌≡◌, ◌≤◌, List, IfOk};
ghost use Rattle.std.specs.List.{AllByRecursion};
ghost use Rattle.fmp_tasklang.specs.Trees.{BodyTree};
ghost use Rattle.fmp_scopes.specs.Headings.{AreHeadings};
ghost use Rattle.fmp_image.specs.Building as spec;

use fmp_codegen::Heading;
use fmp_image_bytes::{BodyHead, BodyKind};
use fmp_tasklang::BodyKind as WrittenKind;
use std::alloc::{AllocError, Global};

fn built_kind(kind: WrittenKind) -> BodyKind
    ensures { result ≡ spec.built_kind kind }
{
    match kind {
        WrittenKind::Task => BodyKind::Task,
        WrittenKind::Handler => BodyKind::Handler,
    }
}

fn built_head(heading: &Heading) -> BodyHead
    requires { heading.now.depth ≤ 64 }
    ensures { result ≡ spec.head_of heading.now }
{
    BodyHead {
        kind: built_kind(heading.kind),
        depth: heading.depth as u8,
    }
}

/// The kind and the depth of each body.
pub fn built_heads(alloc: Global, headings: &[Heading]) -> Result<Vec<BodyHead>, AllocError>
    requires { AllByRecursion (λ h. h.depth ≤ 64) headings.now }
    ensures { IfOk result (λ heads. (bodies : List BodyTree) → AreHeadings headings.now bodies →
        heads.items ≡ spec.built_heads bodies) }
{
    let mut heads = Vec::with_capacity(alloc, headings.len())?;
    for heading in headings {
        heads.push(built_head(heading))?;
    }
    Ok(heads)
}
