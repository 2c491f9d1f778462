//! Where the calls of bodies stand in their text.
ghost use Rattle.std.specs.Prelude.{◌≡◌, ◌≤◌, [], ◌∷◌, ◌++◌, IfOk, MatchOption, None, OnOk, Some, count_by};
ghost use Rattle.std.specs.Prelude.{if◌then◌else◌, length, slice_get, take};
ghost use Rattle.fmp_frames.specs.CallPositions as frames;
ghost use Rattle.fmp_instructions.specs.Instructions.{code_tables};
ghost use Rattle.fmp_searching.specs.Sites as spec;

use fmp_code::{Code, Instruction};
use fmp_explore::CallSite;
use fmp_frames::{BodyCalls, CallPosition, call_count, is_call, text_bodies};
use std::alloc::{AllocError, Global};
use std::marker::Model;

/// Where the bodies of a text begin, and where their calls stand. The code of a body has its calls in the order of the
/// text, so the n-th call of the code is the n-th of the text.
#[derive(Drop)]
pub struct CallLines {
    bodies: Vec<BodyCalls>,
}

impl Model for CallLines {
    ghost use Rattle.std.specs.Prelude.{List, map};
    ghost use Rattle.fmp_frames.specs.CallPositions.{TextBody, text_body};

    ghost Value = { List TextBody };

    ghost view = { λ c. map text_body c.bodies.items };
}

/// The positions of the calls among the instructions of a body.
fn call_positions(alloc: Global, instructions: &[Instruction]) -> Result<Vec<u16>, AllocError>
    requires { length instructions.now ≤ 65535 }
    ensures { IfOk result (λ positions. positions.items ≡ spec.call_positions 0 instructions.now) }
{
    let mut positions = Vec::new(alloc);
    for pc in 0..instructions.len() {
        if is_call(&instructions[pc]) {
            positions.push(pc as u16)?;
        }
    }
    Ok(positions)
}

/// Adds a call where this is so.
fn add_where(is_so: bool, site: CallSite, sites: &mut Vec<CallSite>) -> Result<(), AllocError>
    ensures { OnOk result (sites.new.items ≡ sites.old.items ++ (if is_so then site ∷ [] else [])) }
{
    if !is_so {
        return Ok(());
    }
    sites.push(site)?;
    Ok(())
}

/// Adds the calls of a body that stand in a line, where its calls have these positions in the code and in the text.
#[tactic(auto, using(crate::proofs::Bodies::sites_at_at))]
fn add_sites(
    body: u8,
    positions: &[u16],
    calls: &[CallPosition],
    line: u32,
    sites: &mut Vec<CallSite>,
) -> Result<(), AllocError>
    ensures { OnOk result (sites.new.items
        ≡ sites.old.items ++ spec.sites_at body line positions.now calls.now) }
{
    let count = positions.len().min(calls.len());
    for at in 0..count {
        let pc = positions[at];
        add_where(calls[at].line == line, CallSite { body, pc }, sites)?;
    }
    Ok(())
}

/// The instructions of the body of a number, if there is one.
fn instructions_of(code: &Code, body: u8) -> Option<&[Instruction]>
    ensures { MatchOption result (spec.code_of (code_tables code.now) body ≡ None)
        (λ instructions. spec.code_of (code_tables code.now) body ≡ Some instructions.now) }
{
    match code.bodies.get(usize::from(body)) {
        Some(body) => Some(&body.instructions),
        None => None,
    }
}

/// Where the call at a position among instructions stands, whose calls stand here; the next one if none is there.
fn position_among(
    instructions: &[Instruction],
    calls: &[CallPosition],
    pc: u16,
) -> Option<CallPosition>
    ensures { result ≡ slice_get calls.now (count_by frames.is_call (take pc instructions.now)) }
{
    let end = usize::from(pc).min(instructions.len());
    calls.get(call_count(&instructions[..end])).copied()
}

impl CallLines {
    ghost use Rattle.std.specs.Prelude.{◌≡◌, ◌++◌, IfOk, MatchOption, None, OnOk, Some, option_map, slice_get};
    ghost use Rattle.fmp_frames.specs.CallPositions.{AreBodiesOf, position_of};
    ghost use Rattle.fmp_instructions.specs.Instructions.{code_tables};
    ghost use Rattle.fmp_searching.specs.Sites.{HasSites, calls_in, calls_of, code_of, line_of, positions_of};
    ghost use Rattle.fmp_searching.specs.Sites.{sites_by};

    /// The calls of a text that an image was built of; none of a text that is too long. `AllocError` if memory runs
    /// out.
    pub fn new(alloc: Global, src: &[u8]) -> Result<CallLines, AllocError>
        ensures { IfOk result (λ lines. AreBodiesOf src.now lines) }
    {
        Ok(CallLines {
            bodies: text_bodies(alloc, src)?,
        })
    }

    /// Where the call at a position of the body of a number of this code stands, or the next one if none is there.
    #[tactic(auto, using(crate::proofs::Bodies::position_no_code, crate::proofs::Bodies::position_no_calls))]
    pub fn position(&self, code: &Code, body: u8, pc: u16) -> Option<CallPosition>
        ensures { result ≡ position_of (code_tables code.now) (positions_of self.now) body pc }
    {
        let instructions = instructions_of(code, body)?;
        let calls = self.calls_of(body)?;
        position_among(instructions, calls, pc)
    }

    /// The line of the call at a position of this code, or of the next call of the body if none stands there.
    pub fn line(&self, code: &Code, site: CallSite) -> Option<u32>
        ensures { result ≡ line_of (code_tables code.now) self.now site }
    {
        match self.position(code, site.body, site.pc) {
            Some(position) => Some(position.line),
            None => None,
        }
    }

    /// Where the calls of the body of a number stand, if there is one.
    fn calls_of(&self, body: u8) -> Option<&[CallPosition]>
        ensures { MatchOption result (calls_of self.now body ≡ None)
            (λ calls. calls_of self.now body ≡ Some calls.now) }
    {
        match self.bodies.get(usize::from(body)) {
            Some(body) => Some(&body.calls),
            None => None,
        }
    }

    /// Adds the calls of the body of a number that stand in a line.
    fn add_calls(
        &self,
        alloc: Global,
        code: &Code,
        body: u8,
        line: u32,
        sites: &mut Vec<CallSite>,
    ) -> Result<(), AllocError>
        requires { HasSites (code_tables code.now) }
        ensures { OnOk result (sites.new.items ≡ sites.old.items
            ++ sites_by body line (code_of (code_tables code.now) body) (calls_of self.now body)) }
    {
        let Some(instructions) = instructions_of(code, body) else {
            return Ok(());
        };
        let Some(calls) = self.calls_of(body) else {
            return Ok(());
        };
        let positions = call_positions(alloc, instructions)?;
        add_sites(body, &positions, calls, line, sites)
    }

    /// The calls of this code that stand in a line of the text, in order. `AllocError` if memory runs out.
    pub fn calls(&self, alloc: Global, code: &Code, line: u32) -> Result<Vec<CallSite>, AllocError>
        requires { HasSites (code_tables code.now) }
        ensures { IfOk result (λ sites. sites.items ≡ calls_in line (code_tables code.now) self.now) }
    {
        let mut sites = Vec::new(alloc);
        for body in 0..code.bodies.len() {
            self.add_calls(alloc, code, body as u8, line, &mut sites)?;
        }
        Ok(sites)
    }

    /// The line at which the body at a place begins, if there is one.
    pub fn head(&self, body: u8) -> Option<u32>
        ensures { result ≡ option_map (λ b. b.head) (slice_get self.now body) }
    {
        match self.bodies.get(usize::from(body)) {
            Some(body) => Some(body.head),
            None => None,
        }
    }
}
