//! The bodies of an image, read and put.

ghost use Rattle.std.specs.Prelude.{◌≡◌, ◌++◌, ◌∷◌, [], ◌<◌, ◌≤◌, ◌+◌, ◌*◌, ℕ, List, Some, drop, get_or, length, map};
ghost use Rattle.std.specs.Prelude.{slice_get, false, vec_len, vec_capacity, IfErr, IfOk, IsTrue, OnOk};
ghost use Rattle.fmp_instructions.specs.declared.instructions.Instruction.{Instruction};
ghost use Rattle.fmp_instructions.specs.Instructions.{body_tables};
ghost use Rattle.fmp_instructions.specs.Verify.{AreLow, fits};
ghost use Rattle.fmp_image_bytes.specs.declared.fault.ImageFault.TheVariants.{Code};
ghost use Rattle.fmp_image_bytes.specs.declared.fault.LoadFault.TheVariants.{Memory};
ghost use Rattle.fmp_image_bytes.specs.Fields.{Gives, byte};
ghost use Rattle.fmp_image_bytes.specs.Pairs.{pairs_at, pairs_spelled, AllPairs};
ghost use Rattle.fmp_image_bytes.specs.Bodies.{kind_number, kind_of, greatest, step_spelled, step_at, code_at};
ghost use Rattle.fmp_image_bytes.specs.Bodies.{AreDepths, keeps_table, tables_of_code, kept_code, body_numbers};
ghost use Rattle.fmp_image_bytes.specs.Bodies.{body_spelled, body_at, IsBody, bodies as all_bodies};

use crate::fault::{ImageFault, LoadFault, TABLE};
use crate::fields::{byte_at, in_range, put_byte, put_short, put_word, short_at};
use crate::heads::{BodyHead, BodyKind};
use crate::instructions::{Slot, argument_of, opcode_of, push_instruction};
use byteorder::{ByteOrder, LittleEndian};
use fmp_instructions::{BodyCode, Instruction};
use std::alloc::{AllocError, Global};

const CODE: LoadFault = LoadFault::Image(ImageFault::Code);

fn put_step(out: &mut Vec<u8>, instruction: Instruction, depth: u8) -> Result<(), AllocError>
    ensures { OnOk result (out.new.items ≡ out.old.items ++ step_spelled instruction depth) }
{
    put_byte(out, opcode_of(instruction))?;
    put_word(out, argument_of(instruction))?;
    put_byte(out, depth)?;
    Ok(())
}

fn put_steps(
    out: &mut Vec<u8>,
    instructions: &[Instruction],
    depths: &[u8],
) -> Result<(), AllocError>
    requires { length depths.now ≡ length instructions.now }
    ensures { OnOk result (out.new.items ≡ out.old.items ++ pairs_spelled step_spelled instructions.now depths.now) }
{
    for position in 0..instructions.len() {
        put_step(out, instructions[position], depths[position])?;
    }
    Ok(())
}

fn put_kind(out: &mut Vec<u8>, kind: BodyKind) -> Result<(), AllocError>
    ensures { OnOk result (out.new.items ≡ out.old.items ++ byte.spell (kind_number kind)) }
{
    match kind {
        BodyKind::Task => put_byte(out, 0),
        BodyKind::Handler => put_byte(out, 1),
    }
}

/// Puts a body of at most 65535 instructions.
fn put_body(out: &mut Vec<u8>, head: &BodyHead, body: &BodyCode) -> Result<(), AllocError>
    requires size { length body.now.instructions.items < 65536 }
    requires depths { length body.now.depths.items ≡ length body.now.instructions.items }
    ensures { OnOk result (out.new.items ≡ out.old.items ++ body_spelled head.now (body_tables body.now)) }
{
    put_kind(out, head.kind)?;
    put_byte(out, body.locals)?;
    put_byte(out, head.depth)?;
    put_short(out, body.instructions.len() as u16)?;
    put_steps(out, &body.instructions, &body.depths)?;
    Ok(())
}

/// How many operands stand before each of this many instructions.
fn read_depths(alloc: Global, size: u16, bytes: &[u8]) -> Result<Vec<u8>, LoadFault>
    requires { 6 * size ≤ length bytes.now }
    ensures read { IfOk result (λ depths. AreDepths size bytes.now depths.items) }
    ensures fault { IfErr result (λ fault. fault ≡ Memory) }
{
    let mut depths = Vec::with_capacity(alloc, size as usize)?;
    for position in 0..size as usize {
        depths.push_reserved(bytes[6 * position + 5]);
    }
    Ok(depths)
}

/// Appends the instruction that the first six bytes spell, if they spell one that is fit to stand there: whether they
/// do. There is room for it.
#[inline(always)]
fn push_step(slot: Slot<'_>, bytes: &[u8], instructions: &mut Vec<Instruction>) -> bool
    requires bytes { 6 ≤ length bytes.now }
    requires position { slot.position < length slot.depths.now }
    requires depth { get_or slot.depths.now slot.position 0 ≡ get_or bytes.now 5 0 }
    requires low { AreLow slot.depths.now }
    requires room { vec_len instructions.old < vec_capacity instructions.old }
    ensures pushed { IfOk (step_at slot.entry.version bytes.now)
        (λ x. (result ≡ fits slot.entry.locals slot.entry.depths.now slot.entry.position x.0.1 x.0.0)
        × (x.0.1 ≡ get_or slot.entry.depths.now slot.entry.position 0) × (x.1 ≡ drop 6 bytes.now)
        × (instructions.new.items ≡ instructions.old.items ++ x.0.0 ∷ [])) }
    ensures refused { IfErr (step_at slot.entry.version bytes.now) (λ fault. (result ≡ false) × (fault ≡ Code)) }
    ensures size { vec_len instructions.new ≤ vec_len instructions.old + 1 }
    ensures capacity { vec_capacity instructions.new ≡ vec_capacity instructions.old }
{
    let argument = LittleEndian::read_i32(&bytes[1..]);
    push_instruction(slot, bytes[0], argument, instructions)
}

/// The instructions of a body with these depths. Each is judged as it is read.
fn read_steps(
    alloc: Global,
    version: u16,
    locals: u8,
    depths: &[u8],
    bytes: &[u8],
) -> Result<Vec<Instruction>, LoadFault>
    requires bytes { 6 * length depths.now ≤ length bytes.now }
    requires size { length depths.now < 65536 }
    requires depths { AreDepths (length depths.now) bytes.now depths.now }
    requires first { slice_get depths.now 0 ≡ Some 0 }
    requires low { AreLow depths.now }
    ensures { Gives (λ x. ((x.items, depths.now), drop (6 * length depths.now) bytes.now)) result
        (kept_code locals (pairs_at (step_at version) (length depths.now) bytes.now)) }
{
    let mut instructions = Vec::with_capacity(alloc, depths.len())?;
    for position in 0..depths.len() {
        let slot = Slot {
            version,
            locals,
            depths,
            position,
        };
        if !push_step(slot, &bytes[6 * position..], &mut instructions) {
            return Err(CODE);
        }
    }
    Ok(instructions)
}

fn greatest(depths: &[u8]) -> u8
    ensures { result ≡ greatest depths.now }
{
    let mut most = 0;
    for depth in depths {
        most = most.max(*depth);
    }
    most
}

/// Whether these can be the depths of a body: the first is 0, and none is above 64. No code keeps to others.
fn is_depth_table(depths: &[u8]) -> bool
    ensures first { IsTrue result → slice_get depths.now 0 ≡ Some 0 }
    ensures low { IsTrue result → AreLow depths.now }
    ensures refused { (locals : ℕ) (code : List Instruction) → result ≡ false
        → keeps_table (tables_of_code locals (code, depths.now)) ≡ false }
{
    match depths.first() {
        None => false,
        Some(depth) => *depth == 0 && greatest(depths) <= 64,
    }
}

fn read_code<'a>(
    alloc: Global,
    version: u16,
    locals: u8,
    size: u16,
    bytes: &'a [u8],
) -> Result<((Vec<Instruction>, Vec<u8>), &'a [u8]), LoadFault>
    ensures { Gives (λ x. ((x.0.0.items, x.0.1.items), x.1.now)) result
        (kept_code locals (code_at version size bytes.now)) }
{
    let end = 6 * size as usize;
    if bytes.len() < end {
        return Err(LoadFault::Image(ImageFault::Short));
    }
    let depths = read_depths(alloc, size, bytes)?;
    if !is_depth_table(&depths) {
        return Err(CODE);
    }
    let instructions = read_steps(alloc, version, locals, &depths, bytes)?;
    Ok(((instructions, depths), &bytes[end..]))
}

fn keeps_numbers(kind: u8, locals: u8, depth: u8, depths: &[u8]) -> bool
    ensures { result ≡ body_numbers kind locals depth depths.now }
{
    kind <= 1 && in_range(1, 64, locals as u32) && depth == greatest(depths)
}

fn kind_of(is_handler: bool) -> BodyKind
    ensures { result ≡ kind_of is_handler }
{
    if is_handler {
        BodyKind::Handler
    } else {
        BodyKind::Task
    }
}

#[tactic(auto, unfolding(crate::specs::Bodies::body_at))]
fn read_body<'a>(
    alloc: Global,
    version: u16,
    bytes: &'a [u8],
) -> Result<((BodyHead, BodyCode), &'a [u8]), LoadFault>
    ensures { Gives (λ x. ((x.0.0, body_tables x.0.1), x.1.now)) result (body_at version bytes.now) }
{
    let (kind, rest) = byte_at(bytes)?;
    let (locals, rest) = byte_at(rest)?;
    let (depth, rest) = byte_at(rest)?;
    let (size, rest) = short_at(rest)?;
    let ((instructions, depths), rest) = read_code(alloc, version, locals, size, rest)?;
    let body = BodyCode {
        locals,
        instructions,
        depths,
    };
    if !keeps_numbers(kind, locals, depth, &body.depths) {
        return Err(TABLE);
    }
    let head = BodyHead {
        kind: kind_of(kind == 1),
        depth,
    };
    Ok(((head, body), rest))
}

fn read_some_bodies<'a>(
    alloc: Global,
    version: u16,
    count: u8,
    bytes: &'a [u8],
) -> Result<((Vec<BodyHead>, Vec<BodyCode>), &'a [u8]), LoadFault>
    ensures { Gives (λ x. ((x.0.0.items, map body_tables x.0.1.items), x.1.now)) result
        (pairs_at (body_at version) count bytes.now) }
{
    let mut heads = Vec::new(alloc);
    let mut bodies = Vec::new(alloc);
    let mut rest = bytes;
    for _ in 0..count {
        let ((head, body), after) = read_body(alloc, version, rest)?;
        heads.push(head)?;
        bodies.push(body)?;
        rest = after;
    }
    Ok(((heads, bodies), rest))
}

/// Reads all bodies of an image of a version after their number. `ImageFault::Short` if a field ends past the bytes,
/// `ImageFault::Code` if the code of a body is not fit to run, `ImageFault::Table` if another value of a body breaks a
/// rule, and `LoadFault::Memory` if memory runs out.
pub fn read_bodies<'a>(
    alloc: Global,
    version: u16,
    bytes: &'a [u8],
) -> Result<((Vec<BodyHead>, Vec<BodyCode>), &'a [u8]), LoadFault>
    ensures { Gives (λ x. ((x.0.0.items, map body_tables x.0.1.items), x.1.now)) result
        ((all_bodies version).read bytes.now) }
{
    let (count, rest) = byte_at(bytes)?;
    read_some_bodies(alloc, version, count, rest)
}

/// Puts all bodies, at most 255, after their number. `AllocError` if memory runs out.
pub fn put_bodies(
    out: &mut Vec<u8>,
    heads: &[BodyHead],
    bodies: &[BodyCode],
) -> Result<(), AllocError>
    requires count { length bodies.now < 256 }
    requires bodies { (version : ℕ) × AllPairs (IsBody version) heads.now (map body_tables bodies.now) }
    ensures { OnOk result
        (out.new.items ≡ out.old.items ++ (all_bodies 1).spell (heads.now, map body_tables bodies.now)) }
{
    put_byte(out, bodies.len() as u8)?;
    for place in 0..bodies.len() {
        put_body(out, &heads[place], &bodies[place])?;
    }
    Ok(())
}
