//! The code of an expression and its depths, one instruction after another, and that of an assignment to an element.
//! The size of an operand of `&&` and `||` is counted before, so that each jump there is known when it is emitted;
//! nesting bounds how often an operand is counted.

ghost use Rattle.std.specs.Prelude.{◌≡◌, ◌+◌, ◌<◌, ◌≤◌, ◌++◌, ◌∷◌, [], map, max, length, OnOk};
ghost use Rattle.fmp_tasklang.specs.Scopes.{meaning_of};
ghost use Rattle.fmp_tasklang.specs.Values.{array_places};
ghost use Rattle.fmp_tasklang.specs.Views.{expression_view, link_view};
ghost use Rattle.fmp_scopes.specs.Chains.{links_size, links_depth, operator_size, operator_rise, operator_code};
ghost use Rattle.fmp_scopes.specs.Chains.{links_code, operator_depths, links_depths};
ghost use Rattle.fmp_scopes.specs.Depths.{expression_depth};
ghost use Rattle.fmp_scopes.specs.DepthTables.{expression_depths, element_depths};
ghost use Rattle.fmp_scopes.specs.Scheme.{array_base, load_element, store_element, element_code, name_code};
ghost use Rattle.fmp_scopes.specs.Scheme.{expression_code};
ghost use Rattle.fmp_scopes.specs.Scopes.{IsHeld, scope_view};
ghost use Rattle.fmp_scopes.specs.Sizes.{expression_size};

use fmp_instructions::Instruction;
use fmp_scopes::{Meaning, Names, expression_extent, first_place_of, meaning_in, places_in};
use fmp_tasklang::{Expression, Link, Operator, Word};
use std::alloc::AllocError;

/// The code that is made so far, with the number of operands before each instruction.
#[derive(Drop)]
pub struct Output {
    pub instructions: Vec<Instruction>,
    pub depths: Vec<u8>,
}

/// Appends an instruction.
#[inline(always)]
pub fn put(out: &mut Output, instruction: Instruction, depth: u8) -> Result<(), AllocError>
    ensures code { OnOk result (out.new.instructions.items ≡ out.old.instructions.items ++ instruction ∷ []) }
    ensures len { OnOk result (length out.new.instructions.items ≡ length out.old.instructions.items + 1) }
    ensures depths { OnOk result (out.new.depths.items ≡ out.old.depths.items ++ depth ∷ []) }
{
    out.instructions.push(instruction)?;
    out.depths.push(depth)?;
    Ok(())
}

/// A place in the code, from 0.
pub fn place(n: usize) -> u16
    requires { n ≤ 65535 }
    ensures { result ≡ n }
{
    n as u16
}

fn name_instruction(names: &Names<'_>, word: &Word) -> Instruction
    requires { IsHeld names.now }
    ensures { result ≡ name_code (scope_view names.now).locals (meaning_of (scope_view names.now) word.now.name) }
{
    match meaning_in(names, &word.name) {
        Meaning::Variable(v) => Instruction::Load(first_place_of(names, v)),
        Meaning::Array(_) => Instruction::Push(0),
        Meaning::Object(number) => Instruction::Push(number as i32),
        Meaning::Unknown => Instruction::Push(0),
    }
}

/// The first place of an array, and how many places it has.
fn array_of(names: &Names<'_>, word: &Word) -> (u8, u8)
    requires { IsHeld names.now }
    ensures base { result.0 ≡ array_base (scope_view names.now) (meaning_of (scope_view names.now) word.now.name) }
    ensures places { result.1 ≡ array_places (scope_view names.now) (meaning_of (scope_view names.now) word.now.name) }
{
    match meaning_in(names, &word.name) {
        Meaning::Array(v) => (first_place_of(names, v), places_in(names.variables, v)),
        _ => (0, 0),
    }
}

/// The instruction that loads an element of an array.
fn load_of(names: &Names<'_>, array: &Word) -> Instruction
    requires { IsHeld names.now }
    ensures { result ≡ load_element (scope_view names.now) (meaning_of (scope_view names.now) array.now.name) }
{
    let (base, places) = array_of(names, array);
    Instruction::LoadIndexed { base, places }
}

/// The instruction that stores an element of an array.
fn store_of(names: &Names<'_>, array: &Word) -> Instruction
    requires { IsHeld names.now }
    ensures { result ≡ store_element (scope_view names.now) (meaning_of (scope_view names.now) array.now.name) }
{
    let (base, places) = array_of(names, array);
    Instruction::StoreIndexed { base, places }
}

/// The size of an expression of a body that is small enough.
fn size_of(e: &Expression) -> usize
    requires { expression_size (expression_view e.now) ≤ 65535 }
    ensures { result ≡ expression_size (expression_view e.now) }
{
    expression_extent(e).size
}

/// The code of an expression before which this many operands stand.
#[cycle(expression_emission)]
pub fn emit_expression(
    out: &mut Output,
    names: &Names<'_>,
    e: &Expression,
    depth: u8,
) -> Result<(), AllocError>
    requires held { IsHeld names.now }
    requires room { length out.old.instructions.items + expression_size (expression_view e.now) ≤ 65535 }
    requires low { depth + expression_depth (expression_view e.now) ≤ 64 }
    ensures code { OnOk result (out.new.instructions.items ≡
        out.old.instructions.items ++ expression_code (scope_view names.now) (expression_view e.now)
        (length out.old.instructions.items)) }
    ensures len { OnOk result (length out.new.instructions.items ≡
        length out.old.instructions.items + expression_size (expression_view e.now)) }
    ensures depths { OnOk result (out.new.depths.items ≡
        out.old.depths.items ++ expression_depths (expression_view e.now) depth) }
{
    match e {
        Expression::Number(k) => {
            put(out, Instruction::Push(*k), depth)?;
            Ok(())
        }
        Expression::Name(word) => {
            put(out, name_instruction(names, word), depth)?;
            Ok(())
        }
        Expression::Element { array, index } => {
            emit_expression(out, names, index, depth)?;
            put(out, load_of(names, array), depth + 1)?;
            Ok(())
        }
        Expression::Unary { operator, operand } => {
            emit_expression(out, names, operand, depth)?;
            put(out, Instruction::Unary(*operator), depth + 1)?;
            Ok(())
        }
        Expression::Chain { first, rest } => {
            emit_expression(out, names, first, depth)?;
            emit_links(out, names, rest, depth)?;
            Ok(())
        }
    }
}

/// The further operands of a chain, after its first operand.
#[cycle(expression_emission)]
fn emit_links(
    out: &mut Output,
    names: &Names<'_>,
    links: &[Link],
    depth: u8,
) -> Result<(), AllocError>
    requires held { IsHeld names.now }
    requires room { length out.old.instructions.items + links_size (map link_view links.now) ≤ 65535 }
    requires low { depth + links_depth (map link_view links.now) ≤ 64 }
    ensures code { OnOk result (out.new.instructions.items ≡
        out.old.instructions.items ++ links_code (scope_view names.now) (map link_view links.now)
        (length out.old.instructions.items)) }
    ensures len { OnOk result (length out.new.instructions.items ≡
        length out.old.instructions.items + links_size (map link_view links.now)) }
    ensures depths { OnOk result (out.new.depths.items ≡
        out.old.depths.items ++ links_depths (map link_view links.now) depth) }
{
    for link in links {
        emit_link(out, names, link, depth)?;
    }
    Ok(())
}

/// A further operand of a chain, with its operator: of `&&` and `||` the operand is passed over where the first one
/// decides.
#[cycle(expression_emission)]
fn emit_link(out: &mut Output, names: &Names<'_>, link: &Link, depth: u8) -> Result<(), AllocError>
    requires held { IsHeld names.now }
    requires room { length out.old.instructions.items + expression_size (expression_view link.now.operand) +
        operator_size link.now.operator ≤ 65535 }
    requires low { depth + expression_depth (expression_view link.now.operand) + operator_rise link.now.operator ≤ 64 }
    ensures code { OnOk result (out.new.instructions.items ≡ out.old.instructions.items ++
        operator_code (scope_view names.now) link.now.operator (expression_view link.now.operand)
        (length out.old.instructions.items)) }
    ensures len { OnOk result (length out.new.instructions.items ≡
        length out.old.instructions.items + expression_size (expression_view link.now.operand) +
        operator_size link.now.operator) }
    ensures depths { OnOk result (out.new.depths.items ≡
        out.old.depths.items ++ operator_depths link.now.operator (expression_view link.now.operand) depth) }
{
    let operand = &link.operand;
    match link.operator {
        Operator::Binary(op) => {
            emit_expression(out, names, operand, depth + 1)?;
            put(out, Instruction::Binary(op), depth + 2)
        }
        Operator::Both => {
            let no = out.instructions.len() + 1 + size_of(operand) + 2;
            put(out, Instruction::JumpIfZero(place(no)), depth + 1)?;
            emit_expression(out, names, operand, depth)?;
            put(out, Instruction::Truth, depth + 1)?;
            put(out, Instruction::Jump(place(no + 1)), depth + 1)?;
            put(out, Instruction::Push(0), depth)
        }
        Operator::Either => {
            let second = out.instructions.len() + 3;
            let end = second + size_of(operand) + 1;
            put(out, Instruction::JumpIfZero(place(second)), depth + 1)?;
            put(out, Instruction::Push(1), depth)?;
            put(out, Instruction::Jump(place(end)), depth + 1)?;
            emit_expression(out, names, operand, depth)?;
            put(out, Instruction::Truth, depth + 1)
        }
    }
}

/// The code of an assignment to an element: the index, the value, and the store, which tests the index.
pub fn emit_element(
    out: &mut Output,
    names: &Names<'_>,
    array: &Word,
    index: &Expression,
    value: &Expression,
) -> Result<(), AllocError>
    requires held { IsHeld names.now }
    requires room { length out.old.instructions.items + expression_size (expression_view index.now) +
        expression_size (expression_view value.now) + 1 ≤ 65535 }
    requires low { max (expression_depth (expression_view index.now)) (expression_depth (expression_view value.now) + 1)
        ≤ 64 }
    ensures code { OnOk result (out.new.instructions.items ≡ out.old.instructions.items ++
        element_code (scope_view names.now) array.now (expression_view index.now) (expression_view value.now)
        (length out.old.instructions.items)) }
    ensures len { OnOk result (length out.new.instructions.items ≡
        length out.old.instructions.items + (expression_size (expression_view index.now) +
        expression_size (expression_view value.now) + 1)) }
    ensures depths { OnOk result (out.new.depths.items ≡ out.old.depths.items ++
        element_depths (expression_view index.now) (expression_view value.now)) }
{
    emit_expression(out, names, index, 0)?;
    emit_expression(out, names, value, 1)?;
    put(out, store_of(names, array), 2)?;
    Ok(())
}
