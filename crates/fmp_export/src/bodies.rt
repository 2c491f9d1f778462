//! The functions of bodies in C.
ghost use Rattle.std.specs.Prelude.{◌≡◌, ◌++◌, map, IfOk, OnOk};
ghost use Rattle.fmp_tasklang.specs.Views.{body_view};
ghost use Rattle.fmp_export.specs.Bodies.{body_end, c_bodies, c_body, c_commented, c_commented_bodies, c_declared};
ghost use Rattle.fmp_export.specs.Bodies.{c_heading, c_initial, c_inside, c_prototype, c_prototypes, c_row, c_rows};
ghost use Rattle.fmp_export.specs.Bodies.{c_variable, c_variables, gap_after, inside_end, variables_end};
ghost use Rattle.fmp_export.specs.Sources.{source_view};

use crate::pieces::append_number;
use crate::remarks::{append_above, append_after, append_directive, append_own_lines, other_lines};
use crate::source::{Landmark, LexedText, gaps_between, place_after};
use crate::statements::append_block;
use crate::text::append;
use crate::words::{append_function, append_name};
use fmp_base::Name;
use fmp_tasklang::{Body, Declaration, Length};
use std::alloc::{AllocError, Global};

/// Appends the values of a variable when its body begins.
fn append_initial(
    source: &LexedText<'_>,
    length: Option<Length>,
    out: &mut Vec<u8>,
) -> Result<(), AllocError>
    ensures { OnOk result (out.new.items ≡ out.old.items ++ c_initial (source_view source.now) length) }
{
    match length {
        None => append(b" = 0;", out),
        Some(length) => {
            append(b"[", out)?;
            append_number(source, length.at as usize, length.places, out)?;
            append(b"] = {0};", out)
        }
    }
}

/// Appends the declaration of a variable.
#[tactic(auto, unfolding(crate::specs::Bodies::c_variable))]
fn append_variable(
    source: &LexedText<'_>,
    variable: &Declaration,
    out: &mut Vec<u8>,
) -> Result<(), AllocError>
    ensures { OnOk result (out.new.items ≡ out.old.items ++ c_variable (source_view source.now) variable.now) }
{
    append(b"    int32_t ", out)?;
    append_name(&variable.name.name, out)?;
    append_initial(source, variable.length, out)
}

/// Appends a declaration below the comments of a gap, with the comment of another after it.
#[tactic(auto, unfolding(crate::specs::Bodies::c_declared))]
fn append_declared(
    source: &LexedText<'_>,
    before: &[u8],
    gap: &[u8],
    variable: &Declaration,
    out: &mut Vec<u8>,
) -> Result<(), AllocError>
    ensures { OnOk result (out.new.items
        ≡ out.old.items ++ c_declared (source_view source.now) before.now gap.now variable.now) }
{
    append_above(source.alloc, b"    ", before, out)?;
    append_variable(source, variable, out)?;
    append_after(source.alloc, gap, out)?;
    append(b"\n", out)
}

/// Appends the declarations of variables from a place on, and an empty line. The first line of the gap before them is
/// written already. Gives the place after them.
fn append_variables(
    source: &LexedText<'_>,
    before: &[u8],
    at: usize,
    variables: &[Declaration],
    out: &mut Vec<u8>,
) -> Result<usize, AllocError>
    ensures text { OnOk result (out.new.items
        ≡ out.old.items ++ c_variables (source_view source.now) before.now at variables.now) }
    ensures next { IfOk result (λ next. next ≡ variables_end (source_view source.now) at variables.now) }
{
    let mut place = at;
    let mut written = Vec::new(source.alloc);
    append(before, &mut written)?;
    for variable in variables {
        let next = place_after(Landmark::Semicolon, source, place);
        let gap = gaps_between(source, place, next)?;
        append_declared(source, &written, &gap, variable, out)?;
        place = next;
        written = gap;
    }
    append(b"\n", out)?;
    append_above(source.alloc, b"    ", &written, out)?;
    Ok(place)
}

/// Appends the first lines of a body.
#[tactic(auto, unfolding(crate::specs::Bodies::c_heading))]
fn append_heading(
    alloc: Global,
    name: &Name,
    before: &[u8],
    out: &mut Vec<u8>,
) -> Result<(), AllocError>
    ensures { OnOk result (out.new.items ≡ out.old.items ++ c_heading name.now before.now) }
{
    append(b"void ", out)?;
    append_function(name, out)?;
    append(b"(intptr_t fmp_exinf)\n{", out)?;
    append_after(alloc, before, out)?;
    append(b"\n    int32_t exinf = (int32_t)fmp_exinf;\n", out)
}

/// Appends what a body has from a place on, and gives the place of its `}`.
#[tactic(auto, unfolding(crate::specs::Bodies::c_inside))]
fn append_inside(
    source: &LexedText<'_>,
    before: &[u8],
    at: usize,
    body: &Body,
    out: &mut Vec<u8>,
) -> Result<usize, AllocError>
    ensures text { OnOk result (out.new.items
        ≡ out.old.items ++ c_inside (source_view source.now) before.now at (body_view body.now)) }
    ensures end { IfOk result (λ end. end ≡ inside_end (source_view source.now) at (body_view body.now)) }
{
    append_heading(source.alloc, &body.name.name, before, out)?;
    let next = append_variables(source, before, at, &body.variables, out)?;
    let end = append_block(source, b"    ", next, &body.statements, out)?;
    append(b"}", out)?;
    Ok(end)
}

/// Appends the function of a body up to its `}`, and gives the place of that.
fn append_body(source: &LexedText<'_>, body: &Body, out: &mut Vec<u8>) -> Result<usize, AllocError>
    ensures text { OnOk result (out.new.items
        ≡ out.old.items ++ c_body (source_view source.now) (body_view body.now)) }
    ensures end { IfOk result (λ end. end ≡ body_end (source_view source.now) (body_view body.now)) }
{
    let start = body.at as usize;
    let at = place_after(Landmark::LeftBrace, source, start);
    let before = gaps_between(source, start, at)?;
    append_directive(source, start, out)?;
    append_inside(source, &before, at, body, out)
}

/// Appends the function of a body below the comments of these lines, and gives what stands after the body in the text.
#[tactic(auto, unfolding(crate::specs::Bodies::c_commented))]
fn append_commented(
    source: &LexedText<'_>,
    above: &[u8],
    body: &Body,
    out: &mut Vec<u8>,
) -> Result<Vec<u8>, AllocError>
    ensures text { OnOk result (out.new.items
        ≡ out.old.items ++ c_commented (source_view source.now) above.now (body_view body.now)) }
    ensures gap { IfOk result (λ gap. gap.items ≡ gap_after (source_view source.now) (body_view body.now)) }
{
    append(b"\n", out)?;
    append_own_lines(source.alloc, b"", above, out)?;
    let end = append_body(source, body, out)?;
    let gap = gaps_between(source, end, place_after(Landmark::RightBrace, source, end))?;
    append_after(source.alloc, &gap, out)?;
    append(b"\n", out)?;
    Ok(gap)
}

/// Appends the functions of bodies, and the comments that stand above, between and below them. Those of the lines
/// `above` come first.
pub fn append_commented_bodies(
    source: &LexedText<'_>,
    above: &[u8],
    bodies: &[Body],
    out: &mut Vec<u8>,
) -> Result<(), AllocError>
    ensures { OnOk result (out.new.items ≡ out.old.items
        ++ c_commented_bodies (source_view source.now) above.now (map body_view bodies.now)) }
{
    let mut lines = Vec::new(source.alloc);
    append(above, &mut lines)?;
    for body in bodies {
        let gap = append_commented(source, &lines, body, out)?;
        lines.clear();
        append(other_lines(&gap), &mut lines)?;
    }
    append_own_lines(source.alloc, b"", &lines, out)
}

/// Appends the functions of bodies without their text: numbers are written by their values, and there are no comments.
pub fn append_bodies(alloc: Global, bodies: &[Body], out: &mut Vec<u8>) -> Result<(), AllocError>
    ensures { OnOk result (out.new.items ≡ out.old.items ++ c_bodies (map body_view bodies.now)) }
{
    append_commented_bodies(&LexedText::none(alloc), b"", bodies, out)
}

/// Appends the prototype of the function of a body.
#[tactic(auto, unfolding(crate::specs::Bodies::c_prototype))]
fn append_prototype(body: &Body, out: &mut Vec<u8>) -> Result<(), AllocError>
    ensures { OnOk result (out.new.items ≡ out.old.items ++ c_prototype (body_view body.now)) }
{
    append(b"void ", out)?;
    append_function(&body.name.name, out)?;
    append(b"(intptr_t exinf);\n", out)
}

/// Appends the prototypes of the functions of bodies.
pub fn append_prototypes(bodies: &[Body], out: &mut Vec<u8>) -> Result<(), AllocError>
    ensures { OnOk result (out.new.items ≡ out.old.items ++ c_prototypes (map body_view bodies.now)) }
{
    for body in bodies {
        append_prototype(body, out)?;
    }
    Ok(())
}

/// Appends the row of a body in the table of bodies.
#[tactic(auto, unfolding(crate::specs::Bodies::c_row))]
fn append_row(body: &Body, out: &mut Vec<u8>) -> Result<(), AllocError>
    ensures { OnOk result (out.new.items ≡ out.old.items ++ c_row (body_view body.now)) }
{
    append(b"    {\"", out)?;
    append(body.name.name.as_bytes(), out)?;
    append(b"\", ", out)?;
    append_function(&body.name.name, out)?;
    append(b"},\n", out)
}

/// Appends the rows of bodies.
pub fn append_rows(bodies: &[Body], out: &mut Vec<u8>) -> Result<(), AllocError>
    ensures { OnOk result (out.new.items ≡ out.old.items ++ c_rows (map body_view bodies.now)) }
{
    for body in bodies {
        append_row(body, out)?;
    }
    Ok(())
}
