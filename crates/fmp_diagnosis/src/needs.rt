//! How much stack a body needs.
ghost use Rattle.fmp_base.specs.Ranges.{IsInRange};
ghost use Rattle.fmp_base.specs.Systems.{tables_of};

use crate::sentence::Texts;
use fmp_base::{Name, System};
use fmp_cfgparse::read_configuration;
use fmp_codegen::{Heading, body_place, compile_text};
use fmp_lex::BuildFault;
use std::alloc::{AllocError, Global};

/// How many operands the body of a name needs, if there is such a body.
fn operands_among(headings: &[Heading], name: &Name) -> Option<u32> {
    let heading = headings.get(body_place(headings, name)?)?;
    Some(heading.depth)
}

/// The same of the bodies of a task text without a fault.
fn operands_in(
    alloc: Global,
    system: &System,
    src: &[u8],
    name: &Name,
) -> Result<Option<u32>, BuildFault>
    requires { IsInRange (tables_of system.now) }
{
    let text = compile_text(alloc, src, system)?;
    Ok(operands_among(&text.headings, name))
}

/// The same of two texts.
fn operands_or_fault(
    alloc: Global,
    texts: Texts<'_>,
    name: &Name,
) -> Result<Option<u32>, BuildFault> {
    let configured = read_configuration(alloc, texts.cfg)?;
    operands_in(alloc, &configured.system, texts.src, name)
}

/// How many operands stand at once in the body of a name, if there is such a body and no fault comes before those of
/// the entries. `AllocError` if memory runs out.
pub fn operands_of(
    alloc: Global,
    texts: Texts<'_>,
    name: &Name,
) -> Result<Option<u32>, AllocError> {
    match operands_or_fault(alloc, texts, name) {
        Ok(operands) => Ok(operands),
        Err(BuildFault::Memory) => Err(AllocError),
        Err(BuildFault::At(_, _, _)) => Ok(None),
    }
}
