//! What the entries of static APIs require of a body: its kind, its name, how many operands it needs.

ghost use Rattle.std.specs.Prelude.{◌≡◌, ◌<◌, List, length, min, IfSome};
ghost use Rattle.fmp_tasklang.specs.Trees.{BodyTree};
ghost use Rattle.fmp_tasklang.specs.Views.{body_view};
ghost use Rattle.fmp_scopes.specs.Depths.{body_depth};
ghost use Rattle.fmp_scopes.specs.Entries as entries;
ghost use Rattle.fmp_scopes.specs.Headings as spec;
ghost use Rattle.fmp_scopes.specs.Headings.{AreHeadings};

use crate::extents::block_extent;
use crate::names::place_in;
use fmp_base::Name;
use fmp_tasklang::{Body, BodyKind};

/// What is known of a body without its statements.
#[derive(Clone, Copy)]
pub struct Heading {
    pub kind: BodyKind,
    pub name: Name,
    /// How many operands the body needs, counted up to 2^30.
    pub depth: u32,
}

/// The heading of a body that needs this many operands.
pub fn heading_with(body: &Body, depth: usize) -> Heading
    requires { depth ≡ min (body_depth (body_view body.now)) 1073741824 }
    ensures { result ≡ spec.heading_of (body_view body.now) }
{
    Heading {
        kind: body.kind,
        name: body.name.name,
        depth: depth as u32,
    }
}

/// The heading of a body.
pub fn heading_of(body: &Body) -> Heading
    ensures { result ≡ spec.heading_of (body_view body.now) }
{
    heading_with(body, block_extent(&body.statements).depth)
}

/// The place of the body of a name, from 0, if there is one.
pub fn body_place(headings: &[Heading], name: &Name) -> Option<usize>
    ensures place { (bodies : List BodyTree) → AreHeadings headings.now bodies →
        result ≡ entries.body_place bodies name.now }
    ensures below { IfSome result (λ place. place < length headings.now) }
{
    place_in(headings, name)
}
