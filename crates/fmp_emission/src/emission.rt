//! The code of statements and its depths, one instruction after another. The jumps of an `if` and of a loop, and those
//! of its `break`s, get their places when these are known.

ghost use Rattle.std.specs.Prelude.{◌≡◌, ◌+◌, ◌<◌, ◌≤◌, ◌++◌, ◌∷◌, [], map, length, drop, take, slice_set, Some, OnOk};
ghost use Rattle.std.specs.Option.{option_copied};
ghost use Rattle.fmp_instructions.specs.declared.instructions.Instruction.TheVariants.{Jump, JumpIfZero};
ghost use Rattle.fmp_tasklang.specs.Views.{expression_view, call_view, statement_view, block_view};
ghost use Rattle.fmp_scopes.specs.Chains.{test_code};
ghost use Rattle.fmp_scopes.specs.Depths.{expression_depth, arguments_depth, statement_depth, block_depth};
ghost use Rattle.fmp_scopes.specs.DepthTables.{expression_depths, arguments_depths, statement_depths, block_depths};
ghost use Rattle.fmp_scopes.specs.Scheme.{word_place, arguments_code, target_place, call_instruction, statement_code};
ghost use Rattle.fmp_scopes.specs.Scheme.{block_code};
ghost use Rattle.fmp_scopes.specs.Scopes.{IsHeld, scope_view};
ghost use Rattle.fmp_scopes.specs.Sizes.{expression_size, arguments_size, statement_size, block_size};
ghost use Rattle.fmp_emission.specs.Breaks.{statement_breaks, block_breaks, led_to};

use crate::expressions::{Output, emit_element, emit_expression, place, put};
use fmp_instructions::Instruction;
use fmp_scopes::{Meaning, Names, first_place_of, meaning_in};
use fmp_tasklang::{Expression, ServiceCall, Statement, Word};
use std::alloc::{AllocError, Global};

/// The place of a variable that is written.
fn target_of(names: &Names<'_>, word: &Word) -> u8
    requires { IsHeld names.now }
    ensures { result ≡ target_place (scope_view names.now) word.now }
{
    match meaning_in(names, &word.name) {
        Meaning::Variable(v) => first_place_of(names, v),
        _ => 0,
    }
}

/// The place of a variable, where one is named.
fn place_of_word(names: &Names<'_>, word: Option<&Word>) -> Option<u8>
    requires { IsHeld names.now }
    ensures { result ≡ word_place (scope_view names.now) (option_copied word.entry) }
{
    match word {
        None => None,
        Some(word) => match meaning_in(names, &word.name) {
            Meaning::Variable(v) => Some(first_place_of(names, v)),
            _ => None,
        },
    }
}

/// The code of the arguments of a call, one after another.
fn emit_arguments(
    out: &mut Output,
    names: &Names<'_>,
    arguments: &[Expression],
) -> Result<(), AllocError>
    requires held { IsHeld names.now }
    requires room { length out.old.instructions.items + arguments_size (map expression_view arguments.now) ≤ 65535 }
    requires low { arguments_depth (map expression_view arguments.now) ≤ 64 }
    ensures code { OnOk result (out.new.instructions.items ≡ out.old.instructions.items ++
        arguments_code (scope_view names.now) (map expression_view arguments.now) (length out.old.instructions.items)) }
    ensures len { OnOk result (length out.new.instructions.items ≡
        length out.old.instructions.items + arguments_size (map expression_view arguments.now)) }
    ensures depths { OnOk result (out.new.depths.items ≡
        out.old.depths.items ++ arguments_depths (map expression_view arguments.now) 0) }
{
    for i in 0..arguments.len() {
        emit_expression(out, names, &arguments[i], i as u8)?;
    }
    Ok(())
}

/// The number of arguments of a call, which needs as many operands at least.
fn count_of(arguments: &[Expression]) -> u8
    requires { arguments_depth (map expression_view arguments.now) ≤ 64 }
    ensures { result ≡ length arguments.now }
{
    arguments.len() as u8
}

fn emit_call(out: &mut Output, names: &Names<'_>, call: &ServiceCall) -> Result<(), AllocError>
    requires held { IsHeld names.now }
    requires room { length out.old.instructions.items + arguments_size (call_view call.now).arguments + 1 ≤ 65535 }
    requires low { arguments_depth (call_view call.now).arguments ≤ 64 }
    ensures code { OnOk result (out.new.instructions.items ≡ out.old.instructions.items ++
        (arguments_code (scope_view names.now) (call_view call.now).arguments (length out.old.instructions.items) ++
        call_instruction (scope_view names.now) (call_view call.now) ∷ [])) }
    ensures len { OnOk result (length out.new.instructions.items ≡
        length out.old.instructions.items + arguments_size (call_view call.now).arguments + 1) }
    ensures depths { OnOk result (out.new.depths.items ≡ out.old.depths.items ++
        (arguments_depths (call_view call.now).arguments 0 ++ length (call_view call.now).arguments ∷ [])) }
{
    let arguments = call.arguments.as_slice();
    emit_arguments(out, names, arguments)?;
    let instruction = Instruction::Call {
        service: call.service,
        out: place_of_word(names, call.receivers.out()),
        result: place_of_word(names, call.receivers.result()),
    };
    put(out, instruction, count_of(arguments))?;
    Ok(())
}

/// The code of a condition, and a jump to the place after it if it is 0.
fn emit_test(out: &mut Output, names: &Names<'_>, condition: &Expression) -> Result<(), AllocError>
    requires held { IsHeld names.now }
    requires room { length out.old.instructions.items + expression_size (expression_view condition.now) + 1 ≤ 65535 }
    requires low { expression_depth (expression_view condition.now) ≤ 64 }
    ensures code { OnOk result (out.new.instructions.items ≡ out.old.instructions.items ++
        test_code (scope_view names.now) (expression_view condition.now) (length out.old.instructions.items) 0) }
    ensures len { OnOk result (length out.new.instructions.items ≡
        length out.old.instructions.items + expression_size (expression_view condition.now) + 1) }
    ensures depths { OnOk result (out.new.depths.items ≡ out.old.depths.items ++
        (expression_depths (expression_view condition.now) 0 ++ 1 ∷ [])) }
{
    emit_expression(out, names, condition, 0)?;
    let target = place(out.instructions.len() + 1);
    put(out, Instruction::JumpIfZero(target), 1)?;
    Ok(())
}

/// The last place of the code so far.
fn last_place(out: &Output) -> usize
    requires { 0 < length out.now.instructions.items }
    ensures { result + 1 ≡ length out.now.instructions.items }
{
    out.instructions.len() - 1
}

/// The test at a place, which led to the place after it, leads to the end of the code so far if its value is 0.
fn end_test(out: &mut Output, at: usize)
    requires there { at < length out.old.instructions.items }
    requires room { length out.old.instructions.items ≤ 65535 }
    ensures code { out.new.instructions.items
        ≡ slice_set out.old.instructions.items at (JumpIfZero (length out.old.instructions.items)) }
    ensures len { length out.new.instructions.items ≡ length out.old.instructions.items }
    ensures depths { out.new.depths.items ≡ out.old.depths.items }
{
    let end = place(out.instructions.len());
    out.instructions[at] = Instruction::JumpIfZero(end);
}

/// The jump at a place, which led nowhere yet, leads to the end of the code so far.
fn end_jump(out: &mut Output, at: usize)
    requires there { at < length out.old.instructions.items }
    requires room { length out.old.instructions.items ≤ 65535 }
    ensures code { out.new.instructions.items
        ≡ slice_set out.old.instructions.items at (Jump (length out.old.instructions.items)) }
    ensures len { length out.new.instructions.items ≡ length out.old.instructions.items }
    ensures depths { out.new.depths.items ≡ out.old.depths.items }
{
    let end = place(out.instructions.len());
    out.instructions[at] = Instruction::Jump(end);
}

/// The jump at a place, if there is one, leads to another place.
fn lead(out: &mut Output, at: u16, to: u16)
    ensures code { out.new.instructions.items ≡ slice_set out.old.instructions.items at (Jump to) }
    ensures len { length out.new.instructions.items ≡ length out.old.instructions.items }
    ensures depths { out.new.depths.items ≡ out.old.depths.items }
{
    if usize::from(at) < out.instructions.len() {
        out.instructions[usize::from(at)] = Instruction::Jump(to);
    }
}

/// The jumps at these places, from the one at a place of the list on, lead to the end of the code so far. They leave
/// the list.
fn end_breaks(out: &mut Output, breaks: &mut Vec<u16>, from: usize)
    requires room { length out.old.instructions.items ≤ 65535 }
    ensures code { out.new.instructions.items
        ≡ led_to (length out.old.instructions.items) (drop from breaks.old.items) out.old.instructions.items }
    ensures len { length out.new.instructions.items ≡ length out.old.instructions.items }
    ensures depths { out.new.depths.items ≡ out.old.depths.items }
    ensures breaks { breaks.new.items ≡ take from breaks.old.items }
{
    let end = place(out.instructions.len());
    for i in from..breaks.len() {
        lead(out, breaks[i], end);
    }
    breaks.truncate(from);
}

/// The code of a statement; `again` is the place to which a `continue` leads. Where a `break` leads is not known yet:
/// its jump leads to 0, and its place is noted.
#[cycle(statement_emission)]
fn emit_statement(
    out: &mut Output,
    names: &Names<'_>,
    s: &Statement,
    again: u16,
    breaks: &mut Vec<u16>,
) -> Result<(), AllocError>
    requires held { IsHeld names.now }
    requires room { length out.old.instructions.items + statement_size (statement_view s.now) ≤ 65535 }
    requires low { statement_depth (statement_view s.now) ≤ 64 }
    ensures code { OnOk result (out.new.instructions.items ≡ out.old.instructions.items ++
        statement_code (scope_view names.now) (statement_view s.now) (length out.old.instructions.items) again 0) }
    ensures len { OnOk result (length out.new.instructions.items ≡
        length out.old.instructions.items + statement_size (statement_view s.now)) }
    ensures depths { OnOk result
        (out.new.depths.items ≡ out.old.depths.items ++ statement_depths (statement_view s.now)) }
    ensures breaks { OnOk result (breaks.new.items ≡ breaks.old.items ++
        statement_breaks (statement_view s.now) (length out.old.instructions.items)) }
{
    match s {
        Statement::Assign { target, value } => {
            emit_expression(out, names, value, 0)?;
            put(out, Instruction::Store(target_of(names, target)), 1)?;
            Ok(())
        }
        Statement::AssignElement {
            array,
            index,
            value,
        } => {
            emit_element(out, names, array, index, value)?;
            Ok(())
        }
        Statement::Call(call) => {
            emit_call(out, names, call)?;
            Ok(())
        }
        Statement::If { condition, then } => {
            emit_test(out, names, condition)?;
            let test = last_place(out);
            emit_block(out, names, then, again, breaks)?;
            end_test(out, test);
            Ok(())
        }
        Statement::IfElse {
            condition,
            then,
            otherwise,
        } => {
            emit_test(out, names, condition)?;
            let choice = last_place(out);
            emit_block(out, names, then, again, breaks)?;
            put(out, Instruction::Jump(0), 0)?;
            let jump = last_place(out);
            end_test(out, choice);
            emit_block(out, names, otherwise, again, breaks)?;
            end_jump(out, jump);
            Ok(())
        }
        Statement::While { condition, body } => {
            let start = place(out.instructions.len());
            let outer = breaks.len();
            emit_test(out, names, condition)?;
            let test = last_place(out);
            emit_block(out, names, body, start, breaks)?;
            put(out, Instruction::Jump(start), 0)?;
            end_test(out, test);
            end_breaks(out, breaks, outer);
            Ok(())
        }
        Statement::Break => {
            breaks.push(place(out.instructions.len()))?;
            put(out, Instruction::Jump(0), 0)?;
            Ok(())
        }
        Statement::Continue => {
            put(out, Instruction::Jump(again), 0)?;
            Ok(())
        }
        Statement::Return => {
            put(out, Instruction::End, 0)?;
            Ok(())
        }
    }
}

/// The code of the statements of a block, as of one.
#[cycle(statement_emission)]
fn emit_block(
    out: &mut Output,
    names: &Names<'_>,
    statements: &[Statement],
    again: u16,
    breaks: &mut Vec<u16>,
) -> Result<(), AllocError>
    requires held { IsHeld names.now }
    requires room { length out.old.instructions.items + block_size (block_view statements.now) ≤ 65535 }
    requires low { block_depth (block_view statements.now) ≤ 64 }
    ensures code { OnOk result (out.new.instructions.items ≡ out.old.instructions.items ++
        block_code (scope_view names.now) (block_view statements.now) (length out.old.instructions.items) again 0) }
    ensures len { OnOk result (length out.new.instructions.items ≡
        length out.old.instructions.items + block_size (block_view statements.now)) }
    ensures depths { OnOk result
        (out.new.depths.items ≡ out.old.depths.items ++ block_depths (block_view statements.now)) }
    ensures breaks { OnOk result (breaks.new.items ≡ breaks.old.items ++
        block_breaks (block_view statements.now) (length out.old.instructions.items)) }
{
    for s in statements {
        emit_statement(out, names, s, again, breaks)?;
    }
    Ok(())
}

/// The code of the statements of a body, before which there is none. Outside of loops `break` and `continue` lead to
/// the end, which is at this place.
pub fn emit_statements(
    alloc: Global,
    out: &mut Output,
    names: &Names<'_>,
    statements: &[Statement],
    end: u16,
) -> Result<(), AllocError>
    requires held { IsHeld names.now }
    requires begun { out.old.instructions.items ≡ [] }
    requires size { block_size (block_view statements.now) ≡ end }
    requires low { block_depth (block_view statements.now) ≤ 64 }
    ensures code { OnOk result (out.new.instructions.items ≡
        block_code (scope_view names.now) (block_view statements.now) 0 end end) }
    ensures depths { OnOk result
        (out.new.depths.items ≡ out.old.depths.items ++ block_depths (block_view statements.now)) }
{
    let mut breaks = Vec::new(alloc);
    emit_block(out, names, statements, end, &mut breaks)?;
    end_breaks(out, &mut breaks, 0);
    Ok(())
}
