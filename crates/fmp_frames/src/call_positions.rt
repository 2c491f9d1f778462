//! Where the calls of bodies stand in their text.
ghost use Rattle.std.specs.Prelude.{◌≡◌, ◌+◌, ◌≤◌, ◌^◌, ◌++◌, IfOk, OnOk, count_by, drop, length, map};
ghost use Rattle.std.specs.Prelude.{slice_get, take};
ghost use Rattle.fmp_instructions.specs.Instructions.{body_tables, code_tables};
ghost use Rattle.fmp_frames.specs.CallPositions as spec;

use crate::columns::{column_of, line_begins};
use fmp_instructions::{BodyCode, Code, Instruction};
use fmp_lex::{Keyword, TextFault, TokenKind, Tokens, tokens};
use std::alloc::{AllocError, Global};
use std::marker::Model;

/// Where a call stands in a text: its line and its column, both from 1. Columns are counted in bytes.
#[derive(Clone, Copy, Debug, PartialEq, Eq)]
pub struct CallPosition {
    pub line: u32,
    pub column: usize,
}

/// A body of a text.
#[derive(Drop)]
pub struct BodyCalls {
    /// The line at which it begins, from 1.
    pub head: u32,
    /// Where its calls stand, in order.
    pub calls: Vec<CallPosition>,
}

/// Where the calls of each body of a text stand. The code of a body has its calls in the order of the text, so the
/// n-th call of the code is the n-th of the text.
#[derive(Drop)]
pub struct CallPositions {
    bodies: Vec<BodyCalls>,
}

impl Model for CallPositions {
    ghost use Rattle.std.specs.Prelude.{List, map};
    ghost use Rattle.fmp_frames.specs.CallPositions.{calls_of};
    ghost use Rattle.fmp_frames.specs.declared.call_positions.CallPosition.{CallPosition as Position};

    ghost Value = { List (List Position) };

    ghost view = { λ c. map calls_of c.bodies.items };
}

/// Whether a token begins a body.
pub fn begins_body(kind: TokenKind) -> bool
    ensures { result ≡ spec.is_head kind }
{
    match kind {
        TokenKind::Keyword(Keyword::Task) | TokenKind::Keyword(Keyword::Handler) => true,
        _ => false,
    }
}

/// Whether the token at a place begins a body.
pub fn begins_at(tokens: &Tokens<'_>, at: usize) -> bool
    ensures { result ≡ spec.head_at tokens.now at }
{
    match tokens.kind(at) {
        Some(kind) => begins_body(kind),
        None => false,
    }
}

/// Whether the token at a place names a service call.
pub fn is_service_at(tokens: &Tokens<'_>, at: usize) -> bool
    ensures { result ≡ spec.is_service_at tokens.now at }
{
    match tokens.kind(at) {
        Some(TokenKind::Service(_)) => true,
        _ => false,
    }
}

/// The line of the token at a place, from 1; 0 where there is none.
pub fn line_at(tokens: &Tokens<'_>, at: usize) -> u32
    ensures { result ≡ spec.line_at tokens.now at }
{
    match tokens.position(at) {
        Some(position) => position.line,
        None => 0,
    }
}

/// The tokens of a text, and the positions where its lines begin.
#[derive(Clone, Copy)]
struct TokenLines<'a> {
    begins: &'a [u32],
    tokens: &'a Tokens<'a>,
}

/// Where the token at a place of a text stands.
fn position_at(text: TokenLines<'_>, at: usize) -> CallPosition
    ensures { result ≡ spec.position_at text.entry.begins.now text.entry.tokens.now at }
{
    match text.tokens.position(at) {
        Some(position) => CallPosition {
            line: position.line,
            column: column_of(text.begins, position.line, position.start),
        },
        None => CallPosition { line: 0, column: 1 },
    }
}

/// Adds where the token at a place of a text stands, if it names a service call.
#[tactic(auto, using(crate::proofs::Bodies::call_position_by))]
fn add_call_at(
    text: TokenLines<'_>,
    at: usize,
    calls: &mut Vec<CallPosition>,
) -> Result<(), AllocError>
    ensures { OnOk result (calls.new.items
        ≡ calls.old.items ++ spec.call_position_at text.entry.begins.now text.entry.tokens.now at) }
{
    if !is_service_at(text.tokens, at) {
        return Ok(());
    }
    calls.push(position_at(text, at))?;
    Ok(())
}

/// Where the calls stand from a token on, up to where the next body begins.
fn calls_after(
    alloc: Global,
    text: TokenLines<'_>,
    start: usize,
) -> Result<Vec<CallPosition>, AllocError>
    ensures { IfOk result (λ calls. calls.items
        ≡ spec.call_positions text.entry.begins.now (drop start text.entry.tokens.now)) }
{
    let mut calls = Vec::new(alloc);
    for at in start..text.tokens.len() {
        if begins_at(text.tokens, at) {
            return Ok(calls);
        }
        add_call_at(text, at, &mut calls)?;
    }
    Ok(calls)
}

/// Adds the body that the token at a place begins, if it begins one. The next token stands at the place after it.
fn add_body_at(
    alloc: Global,
    text: TokenLines<'_>,
    at: usize,
    next: usize,
    bodies: &mut Vec<BodyCalls>,
) -> Result<(), AllocError>
    requires { next ≡ at + 1 }
    ensures { OnOk result (map spec.text_body bodies.new.items
        ≡ map spec.text_body bodies.old.items ++ spec.body_at text.entry.begins.now text.entry.tokens.now at) }
{
    if !begins_at(text.tokens, at) {
        return Ok(());
    }
    let calls = calls_after(alloc, text, next)?;
    bodies.push(BodyCalls {
        head: line_at(text.tokens, at),
        calls,
    })?;
    Ok(())
}

/// The bodies that begin in the tokens of a text.
fn bodies_in(alloc: Global, text: TokenLines<'_>) -> Result<Vec<BodyCalls>, AllocError>
    ensures { IfOk result (λ bodies. map spec.text_body bodies.items
        ≡ spec.bodies_in text.entry.begins.now text.entry.tokens.now) }
{
    let mut bodies = Vec::new(alloc);
    for at in 0..text.tokens.len() {
        add_body_at(alloc, text, at, at + 1, &mut bodies)?;
    }
    Ok(bodies)
}

/// The bodies of a text with these tokens.
fn bodies_of(alloc: Global, src: &[u8], tokens: &Tokens<'_>) -> Result<Vec<BodyCalls>, AllocError>
    requires { length src.now ≤ 2 ^ 20 }
    ensures { IfOk result (λ bodies. map spec.text_body bodies.items
        ≡ spec.bodies_in (spec.line_begins src.now) tokens.now) }
{
    let begins = line_begins(alloc, src)?;
    let text = TokenLines {
        begins: &begins,
        tokens,
    };
    bodies_in(alloc, text)
}

/// The bodies of a text that an image was built of; none of a text that is too long. `AllocError` if memory runs out.
pub fn text_bodies(alloc: Global, src: &[u8]) -> Result<Vec<BodyCalls>, AllocError>
    ensures { IfOk result (λ bodies. spec.AreBodiesOf src.now (map spec.text_body bodies.items)) }
{
    match tokens(alloc, src) {
        Ok(list) => bodies_of(alloc, src, &list.tokens),
        Err(TextFault::TooLong) => Ok(Vec::new(alloc)),
        Err(TextFault::Memory) => Err(AllocError),
    }
}

/// Whether an instruction is a call.
pub fn is_call(instruction: &Instruction) -> bool
    ensures { result ≡ spec.is_call instruction.now }
{
    match instruction {
        Instruction::Call { .. } => true,
        _ => false,
    }
}

/// How many of these instructions are calls.
pub fn call_count(instructions: &[Instruction]) -> usize
    ensures { result ≡ count_by spec.is_call instructions.now }
{
    instructions.iter().filter(|i| is_call(*i)).count()
}

/// How many calls each body of a code has.
fn code_counts(alloc: Global, bodies: &[BodyCode]) -> Result<Vec<usize>, AllocError>
    ensures { IfOk result (λ counts. counts.items ≡ spec.code_counts (map body_tables bodies.now)) }
{
    let mut counts = Vec::new(alloc);
    for body in bodies {
        counts.push(call_count(&body.instructions))?;
    }
    Ok(counts)
}

/// How many calls each body of a text has.
fn text_counts(alloc: Global, bodies: &[BodyCalls]) -> Result<Vec<usize>, AllocError>
    ensures { IfOk result (λ counts. counts.items ≡ map length (map spec.calls_of bodies.now)) }
{
    let mut counts = Vec::new(alloc);
    for body in bodies {
        counts.push(body.calls.len())?;
    }
    Ok(counts)
}

/// Where the call at a position of a body stands in the text, given where the calls of the body do; the next one if
/// none is there.
fn position_among(
    instructions: &[Instruction],
    calls: &[CallPosition],
    pc: u16,
) -> Option<CallPosition>
    ensures { result ≡ slice_get calls.now (count_by spec.is_call (take pc instructions.now)) }
{
    let end = usize::from(pc).min(instructions.len());
    calls.get(call_count(&instructions[..end])).copied()
}

impl CallPositions {
    ghost use Rattle.std.specs.Prelude.{◌≡◌, IfOk};
    ghost use Rattle.fmp_instructions.specs.Instructions.{code_tables};
    ghost use Rattle.fmp_frames.specs.CallPositions.{AreCallsOf, fits, position_of};

    /// Where the calls of a text stand that an image was built of; none for a text that is too long. `AllocError` if
    /// memory runs out.
    pub fn new(alloc: Global, src: &[u8]) -> Result<CallPositions, AllocError>
        ensures { IfOk result (λ positions. AreCallsOf src.now positions) }
    {
        let bodies = text_bodies(alloc, src)?;
        Ok(CallPositions { bodies })
    }

    /// Where the call at a position of the body of this number of this code stands, or the next call of the body if
    /// none is there.
    pub fn position(&self, code: &Code, body: u8, pc: u16) -> Option<CallPosition>
        ensures { result ≡ position_of (code_tables code.now) self.now body pc }
    {
        let code = code.bodies.get(usize::from(body))?;
        let text = self.bodies.get(usize::from(body))?;
        position_among(&code.instructions, &text.calls, pc)
    }

    /// Whether the text has as many bodies as this code, each with as many calls: if not, it is not the text of the
    /// code. `AllocError` if memory runs out.
    pub fn fits(&self, alloc: Global, code: &Code) -> Result<bool, AllocError>
        ensures { IfOk result (λ same. same ≡ fits (code_tables code.now) self.now) }
    {
        let code = code_counts(alloc, &code.bodies)?;
        let text = text_counts(alloc, &self.bodies)?;
        Ok(code == text)
    }
}
