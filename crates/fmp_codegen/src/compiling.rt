//! The code of the bodies of a text, or the first fault in them.

ghost use Rattle.std.specs.Prelude.{◌≡◌, ◌+◌, ◌<◌, ◌≤◌, ◌++◌, ◌∷◌, [], Some, None, map, min, length, IfOk, OnOk};
ghost use Rattle.std.specs.Prelude.{IfNone, MatchResult};
ghost use Rattle.std.specs.List.{AllByRecursion};
ghost use Rattle.fmp_base.specs.Ranges.{IsInRange};
ghost use Rattle.fmp_base.specs.Systems.{tables_of};
ghost use Rattle.fmp_tasklang.specs.Layout.{exinf_local, total_places};
ghost use Rattle.fmp_tasklang.specs.Views.{block_view, body_view, program_view};
ghost use Rattle.fmp_instructions.specs.Instructions.{body_tables, code_tables};
ghost use Rattle.fmp_instructions.specs.Verify.{Verified};
ghost use Rattle.fmp_tasklang.specs.CallForms.{CallsFit};
ghost use Rattle.fmp_codegen.specs.Compiling as spec;
ghost use Rattle.fmp_codegen.specs.Compiling.{compiled_body, IsCompiled};
ghost use Rattle.fmp_scopes.specs.Depths.{body_depth};
ghost use Rattle.fmp_codegen.specs.Laws.{DoesText};
ghost use Rattle.fmp_scopes.specs.Scopes.{AreNumbers, HoldsNumbers, locals_with};
ghost use Rattle.fmp_scopes.specs.Sizes.{block_size};

use fmp_base::System;
use fmp_emission::{Output, emit_statements, put};
use fmp_instructions::{BodyCode, Code, Instruction};
use fmp_lex::{BuildFault, FaultKind, Tokens};
use fmp_scopes::{
    Extent, HasName, Names, ObjectNumbers, Objects, Offence, append, block_extent, block_offence,
    first_places, is_exinf, is_named_before, is_object, number_objects, number_variables, place_in,
    places_of_body, places_of_length, source_fault,
};
use fmp_tasklang::{Body, Declaration, Length, Program};
use std::alloc::{AllocError, Global};

/// The greatest number of instructions of a body.
const MOST_INSTRUCTIONS: usize = 65535;
/// The greatest number of operands that a body needs.
const MOST_OPERANDS: usize = 64;
/// The greatest number of places of the locals of a body.
const MOST_PLACES: usize = 64;
/// The greatest number of places of an array.
const LONGEST_ARRAY: i32 = 63;
/// The greatest number of bodies.
const MOST_BODIES: usize = 255;

/// Whether the length of an array, if there is one, is not 1 to 63.
fn length_offence(length: Option<Length>) -> Option<Offence>
    ensures { result ≡ spec.length_offence length }
{
    match length {
        Some(length) if length.places < 1 || length.places > LONGEST_ARRAY => Some(Offence {
            at: length.at,
            why: FaultKind::Limit,
        }),
        _ => None,
    }
}

/// The first fault of the declared variables of a body: the 65th place, a name of another variable or of an object, or
/// the length of an array.
fn variables_offence(
    objects: &Objects<'_>,
    numbers: &Option<ObjectNumbers>,
    variables: &[Declaration],
) -> Option<Offence>
    requires objects { HoldsNumbers objects.now }
    requires numbers { AreNumbers numbers.now variables.now }
    ensures first { result ≡
        spec.variables_offence (tables_of objects.now.system.now) (exinf_local ∷ []) variables.now }
    ensures few { IfNone result (length variables.now ≤ 63) }
    ensures places { IfNone result (total_places (locals_with variables.now) ≤ 64) }
{
    let mut places = 1;
    for i in 0..variables.len() {
        let variable = variables[i];
        let word = variable.name;
        places += places_of_length(variable.length);
        if places > MOST_PLACES {
            return Some(Offence {
                at: word.at,
                why: FaultKind::Limit,
            });
        }
        if is_exinf(&word.name)
            || is_named_before(numbers, variables, i, &word.name)
            || is_object(objects, &word.name)
        {
            return Some(Offence {
                at: word.at,
                why: FaultKind::TwiceNamed,
            });
        }
        if let Some(offence) = length_offence(variable.length) {
            return Some(offence);
        }
    }
    None
}

/// What the statements of a body take, or the fault of a body that takes too many instructions or operands.
fn extent_of_body(body: &Body) -> Result<Extent, Offence>
    ensures first { MatchResult result
        (λ _. spec.size_offence (body_view body.now) ≡ None)
        (λ offence. spec.size_offence (body_view body.now) ≡ Some offence) }
    ensures size { IfOk result (λ extent. extent.size ≡ block_size (block_view body.now.statements.items)) }
    ensures small { IfOk result (λ extent. extent.size < 65535) }
    ensures depth { IfOk result (λ extent. extent.depth ≡ min (body_depth (body_view body.now)) 1073741824) }
    ensures low { IfOk result (λ _. body_depth (body_view body.now) ≤ 64) }
{
    let extent = block_extent(&body.statements);
    if extent.size >= MOST_INSTRUCTIONS || extent.depth > MOST_OPERANDS {
        return Err(Offence {
            at: body.at,
            why: FaultKind::Limit,
        });
    }
    Ok(extent)
}

/// What the statements of a body take, or the body's first fault, after bodies of these names. The numbers are those of
/// its variables.
pub fn judge_body<T: HasName>(
    objects: &Objects<'_>,
    earlier: &[T],
    numbers: &Option<ObjectNumbers>,
    body: &Body,
) -> Result<Extent, Offence>
    requires objects { HoldsNumbers objects.now }
    requires numbers { AreNumbers numbers.now body.now.variables.items }
    ensures first { let tables = tables_of objects.now.system.now in MatchResult result
        (λ _. spec.body_offence tables (map T.name_of earlier.now) (body_view body.now) ≡ None)
        (λ offence. spec.body_offence tables (map T.name_of earlier.now) (body_view body.now) ≡ Some offence) }
    ensures variables { IfOk result (λ _. length body.now.variables.items ≤ 63) }
    ensures places { IfOk result (λ _. total_places (locals_with body.now.variables.items) ≤ 64) }
    ensures size { IfOk result (λ extent. extent.size ≡ block_size (block_view body.now.statements.items)) }
    ensures small { IfOk result (λ extent. extent.size < 65535) }
    ensures depth { IfOk result (λ extent. extent.depth ≡ min (body_depth (body_view body.now)) 1073741824) }
    ensures low { IfOk result (λ _. body_depth (body_view body.now) ≤ 64) }
{
    if earlier.len() >= MOST_BODIES {
        return Err(Offence {
            at: body.at,
            why: FaultKind::Limit,
        });
    }
    if place_in(earlier, &body.name.name).is_some() {
        return Err(Offence {
            at: body.name.at,
            why: FaultKind::TwiceNamed,
        });
    }
    if let Some(offence) = variables_offence(objects, numbers, &body.variables) {
        return Err(offence);
    }
    let names = Names {
        objects: *objects,
        variables: &body.variables,
        numbers,
        places: &[],
    };
    if let Some(offence) = block_offence(&names, &body.statements) {
        return Err(offence);
    }
    extent_of_body(body)
}

/// The code of a body that has no fault and whose statements take `size` instructions. The numbers are those of its
/// variables.
pub fn compile_body(
    alloc: Global,
    objects: &Objects<'_>,
    numbers: &Option<ObjectNumbers>,
    body: &Body,
    size: u16,
) -> Result<BodyCode, AllocError>
    requires objects { HoldsNumbers objects.now }
    requires numbers { AreNumbers numbers.now body.now.variables.items }
    requires variables { length body.now.variables.items ≤ 63 }
    requires places { total_places (locals_with body.now.variables.items) ≤ 64 }
    requires size { size ≡ block_size (block_view body.now.statements.items) }
    requires small { size < 65535 }
    requires low { body_depth (body_view body.now) ≤ 64 }
    ensures { IfOk result (λ code. body_tables code ≡
        compiled_body (tables_of objects.now.system.now) (body_view body.now)) }
{
    let places = first_places(alloc, &body.variables)?;
    let names = Names {
        objects: *objects,
        variables: &body.variables,
        numbers,
        places: &places,
    };
    let mut out = Output {
        instructions: Vec::with_capacity(alloc, usize::from(size) + 1)?,
        depths: Vec::with_capacity(alloc, usize::from(size) + 1)?,
    };
    emit_statements(alloc, &mut out, &names, &body.statements, size)?;
    put(&mut out, Instruction::End, 0)?;
    Ok(BodyCode {
        locals: places_of_body(&body.variables),
        instructions: out.instructions,
        depths: out.depths,
    })
}

/// The code of the bodies of a text, which does what they do. These are the tokens of the text.
///
/// Bodies are judged in order of text. A fault stands at its token of the task text. `Limit`: for the 256th body at its
/// first word, for the 65th place of locals at the name of the variable that has it, for the length of an array that is
/// not 1 to 63 at that number, and for more than 65535 instructions or 64 operands at the body's first word, after all
/// of its names. `TwiceNamed`: for a body with the name of another one, and for a variable with the name of another
/// variable, of `exinf` or of an object. `UnknownName`: for a name that is neither a variable nor an object, or that is
/// no variable where it is written. `Shape`: for an array without an index, and for a variable or an object with one.
pub fn compile(
    alloc: Global,
    tokens: &Tokens<'_>,
    program: &Program,
    system: &System,
) -> Result<Code, BuildFault>
    requires { IsInRange (tables_of system.now) }
    ensures compiled { IsCompiled (tables_of system.now) tokens.now (program_view program.now) result }
    ensures tied { IfOk result (λ code. DoesText (tables_of system.now) (program_view program.now) (code_tables code)) }
    ensures verified { CallsFit (program_view program.now) → IfOk result (λ code. Verified (code_tables code)) }
    ensures few { IfOk result (λ _. length program.now.bodies.items ≤ 255) }
    ensures low { IfOk result (λ _. AllByRecursion (λ b. body_depth (body_view b) ≤ 64) program.now.bodies.items) }
{
    let numbers = number_objects(alloc, system)?;
    let objects = Objects {
        system,
        numbers: &numbers,
    };
    let mut bodies = Vec::new(alloc);
    for i in 0..program.bodies.len() {
        let body = &program.bodies[i];
        let numbers = number_variables(alloc, &body.variables)?;
        match judge_body(&objects, &program.bodies[..i], &numbers, body) {
            Ok(extent) => {
                let code = compile_body(alloc, &objects, &numbers, body, extent.size as u16)?;
                append(&mut bodies, code)?;
            }
            Err(offence) => {
                return Err(source_fault(tokens, offence));
            }
        }
    }
    Ok(Code { bodies })
}
