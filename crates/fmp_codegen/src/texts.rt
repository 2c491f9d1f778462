//! From a task text to the code of its bodies. Each body is read, judged and compiled before the next one is read, so
//! that at most one syntax tree is held at once.

ghost use Rattle.std.specs.Prelude.{◌≡◌, ◌≤◌, ◌++◌, ◌∷◌, [], List, length, map, IsTrue, IfOk, IfSome, OnOk};
ghost use Rattle.std.specs.List.{AllByRecursion};
ghost use Rattle.fmp_base.specs.Ranges.{IsInRange};
ghost use Rattle.fmp_base.specs.Systems.{SystemTables, tables_of};
ghost use Rattle.fmp_lex.specs.Reading.{kinds_of};
ghost use Rattle.fmp_lex.specs.Windows.{IsWindow, Passed};
ghost use Rattle.fmp_instructions.specs.Instructions.{body_tables, code_tables};
ghost use Rattle.fmp_tasklang.specs.Trees.{BodyTree};
ghost use Rattle.fmp_tasklang.specs.Views.{body_view};
ghost use Rattle.fmp_scopes.specs.Scopes.{AreNumbers, HoldsNumbers};
ghost use Rattle.fmp_codegen.specs.Texts.{AreMade, IsMadeUpTo, IsMadeOf, IsStreamed, IsTextCompiled, MadeText};

use crate::compiling::{compile_body, judge_body};
use fmp_base::System;
use fmp_instructions::{BodyCode, Code};
use fmp_lex::{
    BuildFault, FirstFault, GrammarFault, ReadError, TEXT_MAX, TextFault, TextFile, Tokens, Window,
    fault_at, tokens, too_long,
};
use fmp_scopes::{
    Heading, ObjectNumbers, Objects, Offence, append, heading_with, number_objects,
    number_variables, source_fault,
};
use fmp_tasklang::{Body, body, body_kind_at, hold_heading, stream_body};
use std::alloc::{AllocError, Global};

/// The code of the bodies of a text, and what is known of each body beside it.
#[derive(Drop)]
pub struct CompiledText {
    pub headings: Vec<Heading>,
    pub code: Code,
}

/// What is made of the bodies that are read so far: their code, or the first fault in them.
#[derive(Drop)]
pub struct MadeBodies {
    pub headings: Vec<Heading>,
    pub bodies: Vec<BodyCode>,
    pub offence: Option<Offence>,
}

/// What is made where no body is read so far.
fn no_bodies(alloc: Global) -> MadeBodies
    ensures { (tables : SystemTables) → AreMade tables result [] }
{
    MadeBodies {
        headings: Vec::new(alloc),
        bodies: Vec::new(alloc),
        offence: None,
    }
}

/// Judges a body that stands after those before it, and compiles it if there is no fault. The numbers are those of its
/// variables.
fn add_numbered(
    alloc: Global,
    objects: &Objects<'_>,
    made: &mut MadeBodies,
    numbers: &Option<ObjectNumbers>,
    body: &Body,
) -> Result<(), AllocError>
    requires objects { HoldsNumbers objects.now }
    requires numbers { AreNumbers numbers.now body.now.variables.items }
    ensures { let tables = tables_of objects.now.system.now in OnOk result ((bodies : List BodyTree) →
        AreMade tables made.old bodies → AreMade tables made.new (bodies ++ body_view body.now ∷ [])) }
{
    if made.offence.is_some() {
        return Ok(());
    }
    match judge_body(objects, &made.headings, numbers, body) {
        Ok(extent) => {
            let code = compile_body(alloc, objects, numbers, body, extent.size as u16)?;
            append(&mut made.bodies, code)?;
            append(&mut made.headings, heading_with(body, extent.depth))?;
        }
        Err(offence) => made.offence = Some(offence),
    }
    Ok(())
}

/// Judges a body that stands after those before it, and compiles it if there is no fault.
fn add_body(
    alloc: Global,
    objects: &Objects<'_>,
    made: &mut MadeBodies,
    body: &Body,
) -> Result<(), AllocError>
    requires { HoldsNumbers objects.now }
    ensures { let tables = tables_of objects.now.system.now in OnOk result ((bodies : List BodyTree) →
        AreMade tables made.old bodies → AreMade tables made.new (bodies ++ body_view body.now ∷ [])) }
{
    let numbers = number_variables(alloc, &body.variables)?;
    add_numbered(alloc, objects, made, &numbers, body)
}

/// What is made of the bodies at the head of these tokens, and the place after them.
fn compile_bodies(
    alloc: Global,
    tokens: &Tokens<'_>,
    objects: &Objects<'_>,
) -> Result<(MadeBodies, usize), ReadError>
    requires { HoldsNumbers objects.now }
    ensures { IsMadeUpTo (tables_of objects.now.system.now) (kinds_of tokens.now) result }
{
    let mut made = no_bodies(alloc);
    let mut i = 0;
    'bodies: while let Some(kind) = body_kind_at(tokens, i) {
        let (one, next) = body(alloc, tokens, kind, i)?;
        add_body(alloc, objects, &mut made, &one)?;
        i = next;
    }
    Ok((made, i))
}

/// What is made of the program that these tokens spell, or the place of their first fault.
fn compile_tokens(
    alloc: Global,
    tokens: &Tokens<'_>,
    objects: &Objects<'_>,
) -> Result<MadeBodies, ReadError>
    requires { HoldsNumbers objects.now }
    ensures { IsMadeOf (tables_of objects.now.system.now) (kinds_of tokens.now) result }
{
    let (made, next) = compile_bodies(alloc, tokens, objects)?;
    if next < tokens.len() {
        return Err(ReadError::Fault(FirstFault {
            at: next,
            why: GrammarFault::Syntax,
        }));
    }
    Ok(made)
}

/// Reads the bodies of a text through a window at its start, and adds them up to the first with a fault. Tells whether
/// it read the whole text and found no fault. The error is out of memory.
fn add_streamed(
    alloc: Global,
    objects: &Objects<'_>,
    window: &mut Window<'_>,
    made: &mut MadeBodies,
) -> Result<bool, AllocError>
    requires objects { HoldsNumbers objects.now }
    requires window { IsWindow window.now }
    requires passed { Passed window.now [] 0 }
    requires made { AreMade (tables_of objects.now.system.now) made.now [] }
    ensures { IfOk result (λ whole. IsTrue whole →
        IsStreamed (tables_of objects.now.system.now) window.old.text.now made.new) }
{
    let mut i = 0;
    hold_heading(alloc, window, i)?;
    'bodies: while let Some(kind) = body_kind_at(&window.tokens, i) {
        let Some((one, next)) = stream_body(alloc, window, kind, i)? else {
            return Ok(false);
        };
        add_body(alloc, objects, made, &one)?;
        if made.offence.is_some() {
            return Ok(false);
        }
        i = next;
        hold_heading(alloc, window, i)?;
    }
    Ok(i == window.tokens.len() && window.is_last())
}

/// What is made of the bodies that a text spells; none if the text has a fault or is too long. The error is out of
/// memory.
fn stream_bodies(
    alloc: Global,
    text: &[u8],
    objects: &Objects<'_>,
) -> Result<Option<MadeBodies>, AllocError>
    requires { HoldsNumbers objects.now }
    ensures { IfOk result (λ o. IfSome o (λ made. IsStreamed (tables_of objects.now.system.now) text.now made)) }
{
    if text.len() > TEXT_MAX {
        return Ok(None);
    }
    let mut window = Window::new(alloc, text);
    let mut made = no_bodies(alloc);
    let whole = add_streamed(alloc, objects, &mut window, &mut made)?;
    Ok(if whole { Some(made) } else { None })
}

/// The code that was made.
fn text_of(made: MadeBodies) -> CompiledText
    ensures headings { result.headings.items ≡ made.headings.items }
    ensures code { code_tables result.code ≡ map body_tables made.bodies.items }
{
    CompiledText {
        headings: made.headings,
        code: Code {
            bodies: made.bodies,
        },
    }
}

/// The code of a text whose bodies were read, or the first fault in them.
fn answer(tokens: &Tokens<'_>, made: MadeBodies) -> Result<CompiledText, BuildFault>
    ensures { MadeText tokens.now made result }
{
    match made.offence {
        Some(offence) => Err(source_fault(tokens, offence)),
        None => Ok(text_of(made)),
    }
}

/// The code of the bodies that a text spells, or the first fault of the text. All of its tokens are held at once.
fn compile_all(
    alloc: Global,
    text: &[u8],
    objects: &Objects<'_>,
) -> Result<CompiledText, BuildFault>
    requires { HoldsNumbers objects.now }
    ensures { IsTextCompiled (tables_of objects.now.system.now) text.now result }
{
    match tokens(alloc, text) {
        Ok(list) => match compile_tokens(alloc, &list.tokens, objects) {
            Ok(made) => answer(&list.tokens, made),
            Err(ReadError::Memory) => Err(BuildFault::Memory),
            Err(ReadError::Fault(fault)) => Err(fault_at(&list, TextFile::Source, fault)),
        },
        Err(TextFault::TooLong) => Err(too_long(TextFile::Source)),
        Err(TextFault::Memory) => Err(BuildFault::Memory),
    }
}

/// The code of the bodies that a task text spells over the objects of a system, or the first fault of the text: that of
/// its syntax, or else the first in its bodies. The faults are those of `read_tasks` and then those of `compile`.
///
/// The text is read through a window on its tokens, so that few of them are held at once. Only a text with a fault is
/// read a second time, with all of its tokens at once, to find the fault that comes first.
pub fn compile_text(alloc: Global, text: &[u8], system: &System) -> Result<CompiledText, BuildFault>
    requires { IsInRange (tables_of system.now) }
    ensures compiled { IsTextCompiled (tables_of system.now) text.now result }
    ensures few { IfOk result (λ made. length made.headings.items ≤ 255) }
    ensures low { IfOk result (λ made. AllByRecursion (λ h. h.depth ≤ 64) made.headings.items) }
{
    let numbers = number_objects(alloc, system)?;
    let objects = Objects {
        system,
        numbers: &numbers,
    };
    match stream_bodies(alloc, text, &objects)? {
        Some(made) => Ok(text_of(made)),
        None => compile_all(alloc, text, &objects),
    }
}
