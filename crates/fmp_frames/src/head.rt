//! The head of a dump, which declares its variables.
ghost use Rattle.std.specs.Prelude.{◌≡◌, ◌++◌, ◌≤◌, IfOk, OnOk};
ghost use Rattle.fmp_base.specs.Systems.{tables_of};
ghost use Rattle.fmp_frames.specs.Declarations.{variables_of};
ghost use Rattle.fmp_frames.specs.Dumps as spec;

use crate::declarations::{Declaration, Scope, declarations_of, variables_in};
use crate::text::append_identifier;
use crate::variable::Variable;
use fmp_base::System;
use fmp_json::{append, append_number};
use std::alloc::{AllocError, Global};

const COMMENT: &str = "$comment
  States of a run. One unit of time is one event, and no length of time: what stands
  at #k is the state after event k. A stretch that keeps its place is an event here too,
  though a trace gives it no number. Numbers of tasks, objects and processors are from 1.
  state: 0 DORMANT, 1 READY, 2 RUNNING, 3 WAITING, 4 SUSPENDED, 5 WAITING-SUSPENDED
  wait_kind: 0 none, 1 sleep, 2 delay, 3 semaphore, 4 eventflag, 5 sends to a data queue,
    6 receives from a data queue, 7 mailbox
  handler: 0 none, n cyclic handler n, 256 + i interrupt i
  lock: 0 free, 1 CPU lock, 256 + s spin lock s
  spins: the number of the spin lock for which what runs there spins, 0 for none
  refused: an event of this processor 0 as asked, 1 a code other than E_OK, 2 a fault
  cyclic and interrupt handlers: 0 idle, 1 pending, 2 runs, 3 runs and is pending again
$end
";

/// The variables in order, and the head that declares them.
#[derive(Drop)]
pub struct DumpHead {
    pub variables: Vec<Variable>,
    pub text: Vec<u8>,
}

fn append_scope_name(scope: Scope, out: &mut Vec<u8>) -> Result<(), AllocError>
    ensures { OnOk result (out.new.items ≡ out.old.items ++ spec.scope_name scope) }
{
    match scope {
        Scope::System => append(b"fmp", out),
        Scope::Processor(place) => {
            append(b"p", out)?;
            append_number(u64::from(place) + 1, out)
        }
        Scope::Tasks => append(b"tasks", out),
        Scope::Cyclics => append(b"cyclic", out),
        Scope::Interrupts => append(b"interrupt", out),
        Scope::Interrupt(number) => {
            append(b"i", out)?;
            append_number(u64::from(number), out)
        }
        Scope::Objects => append(b"objects", out),
        Scope::Named(name) => append(name.as_bytes(), out),
    }
}

/// Appends the beginning of the declaration of a variable: its kind and how many bits its values have.
fn append_opening(variable: Variable, out: &mut Vec<u8>) -> Result<(), AllocError>
    ensures { OnOk result (out.new.items ≡ out.old.items ++ spec.opening_text variable) }
{
    append(b"$var ", out)?;
    append(variable.kind().as_bytes(), out)?;
    append(b" ", out)?;
    append_number(u64::from(variable.width()), out)?;
    append(b" ", out)
}

/// Appends the declaration of the variable at this place.
fn append_variable(place: usize, variable: Variable, out: &mut Vec<u8>) -> Result<(), AllocError>
    ensures { OnOk result (out.new.items ≡ out.old.items ++ spec.variable_text place variable) }
{
    append_opening(variable, out)?;
    append_identifier(place, out)?;
    append(b" ", out)?;
    append(variable.name().as_bytes(), out)?;
    append(b" $end\n", out)
}

fn append_declaration(
    place: usize,
    declaration: Declaration,
    out: &mut Vec<u8>,
) -> Result<(), AllocError>
    ensures { OnOk result (out.new.items ≡ out.old.items ++ spec.declaration_text place declaration) }
{
    match declaration {
        Declaration::Begin(scope) => {
            append(b"$scope module ", out)?;
            append_scope_name(scope, out)?;
            append(b" $end\n", out)
        }
        Declaration::Shown(variable) => append_variable(place, variable, out),
        Declaration::End => append(b"$upscope $end\n", out),
    }
}

/// Whether a declaration is of a variable, as a number.
fn variable_count(declaration: Declaration) -> usize
    ensures count { result ≡ spec.variable_count declaration }
    ensures few { result ≤ 1 }
{
    match declaration {
        Declaration::Shown(_) => 1,
        Declaration::Begin(_) | Declaration::End => 0,
    }
}

fn append_declarations(declarations: &[Declaration], out: &mut Vec<u8>) -> Result<(), AllocError>
    ensures { OnOk result (out.new.items ≡ out.old.items ++ spec.declarations_text 0 declarations.now) }
{
    let mut place = 0;
    for declaration in declarations {
        append_declaration(place, *declaration, out)?;
        place += variable_count(*declaration);
    }
    Ok(())
}

/// Appends the head with these declarations.
fn append_head(declarations: &[Declaration], out: &mut Vec<u8>) -> Result<(), AllocError>
    ensures { OnOk result (out.new.items ≡ out.old.items ++ spec.head_of declarations.now) }
{
    append(COMMENT.as_bytes(), out)?;
    append(b"$timescale 1 ns $end\n", out)?;
    append_declarations(declarations, out)?;
    append(b"$enddefinitions $end\n", out)
}

impl DumpHead {
    /// The head of the dump of a system. `AllocError` if memory runs out.
    pub fn new(alloc: Global, sys: &System) -> Result<DumpHead, AllocError>
        ensures { IfOk result (λ head. (head.variables.items ≡ variables_of (tables_of sys.now))
            × (head.text.items ≡ spec.head_text (tables_of sys.now))) }
    {
        let declared = declarations_of(alloc, sys)?;
        let variables = variables_in(alloc, &declared)?;
        let mut text = Vec::new(alloc);
        append_head(&declared, &mut text)?;
        Ok(DumpHead { variables, text })
    }
}
