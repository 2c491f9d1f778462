//! Instructions as opcodes and arguments.

ghost use Rattle.std.specs.Prelude.{◌≡◌, ◌<◌, ◌≤◌, ◌+◌, ◌++◌, ◌∷◌, [], length, pos, true, false, vec_len};
ghost use Rattle.std.specs.Prelude.{None, Some, if◌then◌else◌, nat_eq, option_map, vec_capacity, MatchOption};
ghost use Rattle.fmp_instructions.specs.declared.instructions.Instruction.TheVariants.{Binary, End, Jump, JumpIfZero};
ghost use Rattle.fmp_instructions.specs.declared.instructions.Instruction.TheVariants.{Load, LoadIndexed, Store};
ghost use Rattle.fmp_instructions.specs.declared.instructions.Instruction.TheVariants.{StoreIndexed};
ghost use Rattle.fmp_instructions.specs.Verify.{AreLow};
ghost use Rattle.fmp_image_bytes.specs.Instructions.{unary_number, binary_number, local_number, call_number, opcode_of};
ghost use Rattle.fmp_image_bytes.specs.Instructions.{argument_of, local_of, service_of_number, unary_of};
ghost use Rattle.fmp_image_bytes.specs.Instructions.{binary_operator_of, call_of, array_number, numbered};
ghost use Rattle.fmp_image_bytes.specs.Instructions.{array_of, below, instruction_in};
ghost use Rattle.fmp_image_bytes.specs.Slots.{fits_slot};
ghost use Rattle.fmp_image_bytes.specs.Versions.{of_version};

use crate::versions::has;
use fmp_base::{BinaryOperator, SERVICES, Service, UnaryOperator};
use fmp_instructions::{Instruction, is_fit};

/// The operators with one operand, in the order of their numbers.
pub const UNARY_OPERATORS: [UnaryOperator; 3] = [
    UnaryOperator::Negate,
    UnaryOperator::Not,
    UnaryOperator::Complement,
];

/// The operators with two operands, in the order of their numbers.
pub const BINARY_OPERATORS: [BinaryOperator; 14] = [
    BinaryOperator::Add,
    BinaryOperator::Subtract,
    BinaryOperator::Multiply,
    BinaryOperator::Divide,
    BinaryOperator::Remainder,
    BinaryOperator::And,
    BinaryOperator::Or,
    BinaryOperator::ExclusiveOr,
    BinaryOperator::Equal,
    BinaryOperator::NotEqual,
    BinaryOperator::Less,
    BinaryOperator::LessOrEqual,
    BinaryOperator::Greater,
    BinaryOperator::GreaterOrEqual,
];

fn unary_number(operator: UnaryOperator) -> u8
    ensures { result ≡ unary_number operator }
{
    match operator {
        UnaryOperator::Negate => 0,
        UnaryOperator::Not => 1,
        UnaryOperator::Complement => 2,
    }
}

fn binary_number(operator: BinaryOperator) -> u8
    ensures { result ≡ binary_number operator }
{
    match operator {
        BinaryOperator::Add => 0,
        BinaryOperator::Subtract => 1,
        BinaryOperator::Multiply => 2,
        BinaryOperator::Divide => 3,
        BinaryOperator::Remainder => 4,
        BinaryOperator::And => 5,
        BinaryOperator::Or => 6,
        BinaryOperator::ExclusiveOr => 7,
        BinaryOperator::Equal => 8,
        BinaryOperator::NotEqual => 9,
        BinaryOperator::Less => 10,
        BinaryOperator::LessOrEqual => 11,
        BinaryOperator::Greater => 12,
        BinaryOperator::GreaterOrEqual => 13,
    }
}

/// A local in the argument of a call: its place, or 255 for none.
fn local_number(local: Option<u8>) -> u8
    ensures { result ≡ local_number local }
{
    match local {
        None => 255,
        Some(place) => place,
    }
}

fn call_number(service: Service, out: Option<u8>, receiver: Option<u8>) -> i32
    ensures { result ≡ pos (call_number service out receiver) }
{
    let number = service.number() as i32;
    let out = local_number(out) as i32;
    let receiver = local_number(receiver) as i32;
    number + 256 * out + 65536 * receiver
}

fn array_number(base: u8, places: u8) -> i32
    ensures { result ≡ pos (array_number base places) }
{
    base as i32 + 256 * places as i32
}

/// The opcode of an instruction.
pub fn opcode_of(instruction: Instruction) -> u8
    ensures { result ≡ opcode_of instruction }
{
    match instruction {
        Instruction::Push(_) => 1,
        Instruction::Load(_) => 2,
        Instruction::Store(_) => 3,
        Instruction::Unary(_) => 4,
        Instruction::Truth => 4,
        Instruction::Binary(_) => 5,
        Instruction::Jump(_) => 6,
        Instruction::JumpIfZero(_) => 7,
        Instruction::Call { .. } => 8,
        Instruction::End => 9,
        Instruction::LoadIndexed { .. } => 10,
        Instruction::StoreIndexed { .. } => 11,
    }
}

/// The argument of an instruction.
pub fn argument_of(instruction: Instruction) -> i32
    ensures { result ≡ argument_of instruction }
{
    match instruction {
        Instruction::Push(number) => number,
        Instruction::Load(place) => place as i32,
        Instruction::Store(place) => place as i32,
        Instruction::Unary(operator) => unary_number(operator) as i32,
        Instruction::Truth => 3,
        Instruction::Binary(operator) => binary_number(operator) as i32,
        Instruction::Jump(target) => target as i32,
        Instruction::JumpIfZero(target) => target as i32,
        Instruction::Call {
            service,
            out,
            result: receiver,
        } => call_number(service, out, receiver),
        Instruction::End => 0,
        Instruction::LoadIndexed { base, places } => array_number(base, places),
        Instruction::StoreIndexed { base, places } => array_number(base, places),
    }
}

fn local_of(number: u32) -> Option<u8>
    requires { number < 256 }
    ensures { result ≡ local_of number }
{
    if number == 255 {
        None
    } else {
        Some(number as u8)
    }
}

/// The services, at the place before their numbers: a table in memory, which a look at one of them does not copy.
static BY_NUMBER: &[Service] = &SERVICES;

/// The service of a number: it stands at the place before it in the list.
#[tactic(auto, using(crate::proofs::ServiceNumbers::numbered, crate::proofs::ServiceNumbers::not_numbered))]
fn service_of_number(number: u32) -> Option<Service>
    requires { number < 256 }
    ensures { result ≡ service_of_number number }
{
    if 1 <= number && number as usize <= BY_NUMBER.len() {
        Some(BY_NUMBER[number as usize - 1])
    } else {
        None
    }
}

#[tactic(auto, unfolding(crate::specs::Instructions::unary_of))]
fn unary_of(number: u32) -> Option<Instruction>
    ensures { result ≡ unary_of number }
{
    if number == 3 {
        return Some(Instruction::Truth);
    }
    UNARY_OPERATORS
        .iter()
        .copied()
        .find(|operator| unary_number(*operator) as u32 == number)
        .map(|operator| Instruction::Unary(operator))
}

#[tactic(auto, unfolding(crate::specs::Instructions::binary_operator_of))]
fn binary_operator_of(number: u32) -> Option<BinaryOperator>
    ensures { result ≡ binary_operator_of number }
{
    BINARY_OPERATORS
        .iter()
        .copied()
        .find(|operator| binary_number(*operator) as u32 == number)
}

#[tactic(auto, unfolding(crate::specs::Instructions::call_of))]
fn call_of(number: u32) -> Option<Instruction>
    ensures { result ≡ call_of number }
{
    if number >= 16_777_216 {
        return None;
    }
    match service_of_number(number % 256) {
        None => None,
        Some(service) => Some(Instruction::Call {
            service,
            out: local_of(number / 256 % 256),
            result: local_of(number / 65536),
        }),
    }
}

/// A number below 256.
#[inline(always)]
fn byte_of(number: u32) -> Option<u8>
    ensures { result ≡ below 256 number }
{
    if number < 256 {
        Some(number as u8)
    } else {
        None
    }
}

/// A number below 65536.
#[inline(always)]
fn short_of(number: u32) -> Option<u16>
    ensures { result ≡ below 65536 number }
{
    if number < 65536 {
        Some(number as u16)
    } else {
        None
    }
}

#[inline(always)]
fn load_of(number: u32) -> Option<Instruction>
    ensures { result ≡ option_map Load (below 256 number) }
{
    Some(Instruction::Load(byte_of(number)?))
}

#[inline(always)]
fn store_of(number: u32) -> Option<Instruction>
    ensures { result ≡ option_map Store (below 256 number) }
{
    Some(Instruction::Store(byte_of(number)?))
}

#[inline(always)]
fn binary_of(number: u32) -> Option<Instruction>
    ensures { result ≡ option_map Binary (binary_operator_of number) }
{
    Some(Instruction::Binary(binary_operator_of(number)?))
}

#[inline(always)]
fn jump_of(number: u32) -> Option<Instruction>
    ensures { result ≡ option_map Jump (below 65536 number) }
{
    Some(Instruction::Jump(short_of(number)?))
}

#[inline(always)]
fn jump_if_zero_of(number: u32) -> Option<Instruction>
    ensures { result ≡ option_map JumpIfZero (below 65536 number) }
{
    Some(Instruction::JumpIfZero(short_of(number)?))
}

#[inline(always)]
fn end_of(number: u32) -> Option<Instruction>
    ensures { result ≡ (if nat_eq number 0 then Some End else None) }
{
    if number == 0 {
        Some(Instruction::End)
    } else {
        None
    }
}

#[inline(always)]
fn indexed_load_of(number: u32) -> Option<Instruction>
    ensures { result ≡ array_of LoadIndexed number }
{
    let number = short_of(number)?;
    Some(Instruction::LoadIndexed {
        base: (number % 256) as u8,
        places: (number / 256) as u8,
    })
}

#[inline(always)]
fn indexed_store_of(number: u32) -> Option<Instruction>
    ensures { result ≡ array_of StoreIndexed number }
{
    let number = short_of(number)?;
    Some(Instruction::StoreIndexed {
        base: (number % 256) as u8,
        places: (number / 256) as u8,
    })
}

/// A position of a body that is read: what is known of the image and the body, and the position.
#[derive(Clone, Copy)]
pub struct Slot<'a> {
    /// The version of the image.
    pub version: u16,
    /// How many locals the body has.
    pub locals: u8,
    /// How many operands stand before each of its instructions.
    pub depths: &'a [u8],
    /// Which instruction it is, from 0.
    pub position: usize,
}

/// Appends an instruction: whether it is fit to stand there. There is room for it.
#[inline(always)]
fn push_fit(slot: Slot<'_>, instruction: Instruction, out: &mut Vec<Instruction>) -> bool
    requires room { vec_len out.old < vec_capacity out.old }
    requires position { slot.position < length slot.depths.now }
    requires low { AreLow slot.depths.now }
    ensures fits { result ≡ fits_slot slot.entry instruction }
    ensures items { out.new.items ≡ out.old.items ++ instruction ∷ [] }
    ensures size { vec_len out.new ≡ vec_len out.old + 1 }
    ensures capacity { vec_capacity out.new ≡ vec_capacity out.old }
{
    let Slot {
        version: _,
        locals,
        depths,
        position,
    } = slot;
    out.push_reserved(instruction);
    is_fit(
        locals,
        depths,
        position,
        depths[position] as usize,
        instruction,
    )
}

/// Appends an instruction if the version has it: whether there is one, the version has it, and it is fit to stand
/// there. There is room for it.
#[inline(always)]
fn push_some(slot: Slot<'_>, instruction: Option<Instruction>, out: &mut Vec<Instruction>) -> bool
    requires room { vec_len out.old < vec_capacity out.old }
    requires position { slot.position < length slot.depths.now }
    requires low { AreLow slot.depths.now }
    ensures pushed { MatchOption (of_version slot.entry.version instruction) (result ≡ false)
        (λ i. (result ≡ fits_slot slot.entry i) × (out.new.items ≡ out.old.items ++ i ∷ [])) }
    ensures size { vec_len out.new ≤ vec_len out.old + 1 }
    ensures capacity { vec_capacity out.new ≡ vec_capacity out.old }
{
    match instruction {
        Some(instruction) => has(slot.version, instruction) && push_fit(slot, instruction, out),
        None => false,
    }
}

/// Appends the instruction of an opcode, but for `Push`, and an argument, if the version has one: whether it has, and
/// it is fit to stand there. There is room for it. Each is judged where its kind is known.
#[inline(always)]
#[tactic(auto, unfolding(crate::specs::Instructions::numbered))]
fn push_numbered(slot: Slot<'_>, opcode: u8, number: u32, out: &mut Vec<Instruction>) -> bool
    requires room { vec_len out.old < vec_capacity out.old }
    requires position { slot.position < length slot.depths.now }
    requires low { AreLow slot.depths.now }
    ensures pushed { MatchOption (of_version slot.entry.version (numbered opcode number)) (result ≡ false)
        (λ i. (result ≡ fits_slot slot.entry i) × (out.new.items ≡ out.old.items ++ i ∷ [])) }
    ensures size { vec_len out.new ≤ vec_len out.old + 1 }
    ensures capacity { vec_capacity out.new ≡ vec_capacity out.old }
{
    match opcode {
        2 => push_some(slot, load_of(number), out),
        3 => push_some(slot, store_of(number), out),
        4 => push_some(slot, unary_of(number), out),
        5 => push_some(slot, binary_of(number), out),
        6 => push_some(slot, jump_of(number), out),
        7 => push_some(slot, jump_if_zero_of(number), out),
        8 => push_some(slot, call_of(number), out),
        9 => push_some(slot, end_of(number), out),
        10 => push_some(slot, indexed_load_of(number), out),
        11 => push_some(slot, indexed_store_of(number), out),
        _ => false,
    }
}

/// Appends the instruction of an opcode and an argument, if the version has one: whether it has, and it is fit to stand
/// there. There is room for it.
#[inline(always)]
pub fn push_instruction(
    slot: Slot<'_>,
    opcode: u8,
    argument: i32,
    out: &mut Vec<Instruction>,
) -> bool
    requires room { vec_len out.old < vec_capacity out.old }
    requires position { slot.position < length slot.depths.now }
    requires low { AreLow slot.depths.now }
    ensures pushed { MatchOption (instruction_in slot.entry.version opcode argument) (result ≡ false)
        (λ i. (result ≡ fits_slot slot.entry i) × (out.new.items ≡ out.old.items ++ i ∷ [])) }
    ensures size { vec_len out.new ≤ vec_len out.old + 1 }
    ensures capacity { vec_capacity out.new ≡ vec_capacity out.old }
{
    if opcode == 1 {
        return push_fit(slot, Instruction::Push(argument), out);
    }
    push_numbered(slot, opcode, argument.cast_unsigned(), out)
}
