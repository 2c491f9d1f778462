//! The service calls of a code, by their positions.
ghost use Rattle.std.specs.Prelude.{◌≡◌, ◌≤◌, ◌++◌, ◌∷◌, [], IfOk, OnOk, length, slice_get};
ghost use Rattle.std.specs.Prelude.{if◌then◌else◌};
ghost use Rattle.std.specs.List.{list_any};
ghost use Rattle.fmp_instructions.specs.Instructions.{code_tables};
ghost use Rattle.fmp_frames.specs.Sites as spec;
ghost use Rattle.fmp_frames.specs.Sites.{HasSites};

use crate::call_positions::is_call;
use fmp_base::Service;
use fmp_instructions::{Code, Instruction};
use std::alloc::{AllocError, Global};

/// A service call in a body: the place of the body, and the position of the instruction in it.
#[derive(Clone, Copy, Debug, PartialEq, Eq)]
pub struct CallSite {
    pub body: u8,
    pub pc: u16,
}

/// What is known of a call from the code of its body.
#[derive(Clone, Copy)]
pub struct SiteCall {
    pub service: Service,
    /// Whether its body keeps the code that it is answered in a local, and reads that local somewhere.
    pub is_tested: bool,
}

/// Whether two calls are one.
pub fn is_same_site(a: CallSite, b: CallSite) -> bool
    ensures { result ≡ spec.is_same_site a b }
{
    a.body == b.body && a.pc == b.pc
}

/// Adds a call where this is so.
fn add_where(is_so: bool, site: CallSite, sites: &mut Vec<CallSite>) -> Result<(), AllocError>
    ensures { OnOk result (sites.new.items ≡ sites.old.items ++ (if is_so then site ∷ [] else [])) }
{
    if !is_so {
        return Ok(());
    }
    sites.push(site)?;
    Ok(())
}

/// Adds the calls among the instructions of the body of this number.
fn add_sites(
    body: u8,
    instructions: &[Instruction],
    sites: &mut Vec<CallSite>,
) -> Result<(), AllocError>
    requires { length instructions.now ≤ 65535 }
    ensures { OnOk result (sites.new.items ≡ sites.old.items ++ spec.sites_from body 0 instructions.now) }
{
    for (pc, instruction) in instructions.iter().enumerate() {
        let site = CallSite {
            body,
            pc: pc as u16,
        };
        add_where(is_call(instruction), site, sites)?;
    }
    Ok(())
}

/// The calls of a code, in order of body and position. `AllocError` if memory runs out.
pub fn call_sites(alloc: Global, code: &Code) -> Result<Vec<CallSite>, AllocError>
    requires { HasSites (code_tables code.now) }
    ensures { IfOk result (λ sites. sites.items ≡ spec.call_sites (code_tables code.now)) }
{
    let mut sites = Vec::new(alloc);
    for (body, text) in code.bodies.iter().enumerate() {
        add_sites(body as u8, &text.instructions, &mut sites)?;
    }
    Ok(sites)
}

/// Whether an instruction reads this local.
fn is_load(local: u8, instruction: &Instruction) -> bool
    ensures { result ≡ spec.is_load local instruction.now }
{
    match instruction {
        Instruction::Load(l) => *l == local,
        _ => false,
    }
}

/// Whether some instruction reads this local.
fn loads(instructions: &[Instruction], local: u8) -> bool
    ensures { result ≡ list_any (spec.is_load local) instructions.now }
{
    instructions.iter().any(|i| is_load(local, i))
}

/// Whether some instruction reads the local that gets the code of a call, if one gets it.
fn is_read(instructions: &[Instruction], local: Option<u8>) -> bool
    ensures { result ≡ spec.is_read instructions.now local }
{
    match local {
        Some(local) => loads(instructions, local),
        None => false,
    }
}

/// Which call an instruction of a body is, if it is one.
fn call_of(instructions: &[Instruction], instruction: &Instruction) -> Option<SiteCall>
    ensures { result ≡ spec.call_of instructions.now instruction.now }
{
    match instruction {
        Instruction::Call {
            service,
            result,
            ..
        } => Some(SiteCall {
            service: *service,
            is_tested: is_read(instructions, *result),
        }),
        _ => None,
    }
}

/// Which call the instruction at a position is, if it is one.
fn call_among(instructions: &[Instruction], pc: u16) -> Option<SiteCall>
    ensures { result ≡ spec.call_by instructions.now (slice_get instructions.now pc) }
{
    match instructions.get(usize::from(pc)) {
        Some(instruction) => call_of(instructions, instruction),
        None => None,
    }
}

/// The call of a code at a position, if there is one.
pub fn call_at(code: &Code, site: CallSite) -> Option<SiteCall>
    ensures { result ≡ spec.call_at (code_tables code.now) site }
{
    match code.bodies.get(usize::from(site.body)) {
        Some(body) => call_among(&body.instructions, site.pc),
        None => None,
    }
}
