//! What the head of a dump declares: the variables, in scopes.
ghost use Rattle.std.specs.Prelude.{◌≡◌, ◌++◌, [], ◌∷◌, IfOk, OnOk};
ghost use Rattle.fmp_base.specs.Systems.{tables_of};
ghost use Rattle.fmp_frames.specs.Declarations as spec;
ghost use Rattle.fmp_frames.specs.Declarations.{in_scope, of_each, scope_of_any, shown};

use crate::variable::{Variable, WaitedObject};
use fmp_base::{InterruptConfig, Name, System, TaskConfig};
use std::alloc::{AllocError, Global};

/// A scope of a dump.
#[derive(Clone, Copy)]
pub enum Scope {
    /// All that is shown of a system.
    System,
    /// The processor at this place.
    Processor(u8),
    Tasks,
    /// The cyclic handlers.
    Cyclics,
    /// The interrupts that have handlers.
    Interrupts,
    /// The interrupt of this number.
    Interrupt(u8),
    /// What tasks share: semaphores, eventflags, data queues, mailboxes and shared words.
    Objects,
    /// A task, a cyclic handler or an object.
    Named(Name),
}

/// A declaration in the head of a dump.
#[derive(Clone, Copy)]
pub enum Declaration {
    /// A scope begins.
    Begin(Scope),
    /// A variable.
    Shown(Variable),
    /// The scope that began last ends.
    End,
}

fn begin(scope: Scope, out: &mut Vec<Declaration>) -> Result<(), AllocError>
    ensures { OnOk result (out.new.items ≡ out.old.items ++ (Declaration.Begin scope ∷ [])) }
{
    out.push(Declaration::Begin(scope))?;
    Ok(())
}

fn end(out: &mut Vec<Declaration>) -> Result<(), AllocError>
    ensures { OnOk result (out.new.items ≡ out.old.items ++ (Declaration.End ∷ [])) }
{
    out.push(Declaration::End)?;
    Ok(())
}

fn declare_all(variables: &[Variable], out: &mut Vec<Declaration>) -> Result<(), AllocError>
    ensures { OnOk result (out.new.items ≡ out.old.items ++ shown variables.now) }
{
    for variable in variables {
        out.push(Declaration::Shown(*variable))?;
    }
    Ok(())
}

/// A scope with these variables.
fn declare_scope(
    scope: Scope,
    variables: &[Variable],
    out: &mut Vec<Declaration>,
) -> Result<(), AllocError>
    ensures { OnOk result (out.new.items ≡ out.old.items ++ in_scope scope (shown variables.now)) }
{
    begin(scope, out)?;
    declare_all(variables, out)?;
    end(out)
}

/// A scope of this name with these variables.
fn declare_group(
    name: &Name,
    variables: &[Variable],
    out: &mut Vec<Declaration>,
) -> Result<(), AllocError>
    ensures { OnOk result (out.new.items ≡ out.old.items ++ spec.group name.now variables.now) }
{
    declare_scope(Scope::Named(*name), variables, out)
}

/// What a processor spins for, where there are spin locks.
fn declare_spin(has_locks: bool, place: usize, out: &mut Vec<Declaration>) -> Result<(), AllocError>
    ensures { OnOk result (out.new.items ≡ out.old.items ++ shown (spec.spin_variable has_locks place)) }
{
    if has_locks {
        out.push(Declaration::Shown(Variable::Spin(place)))?;
    }
    Ok(())
}

fn declare_processor(
    has_locks: bool,
    place: u8,
    out: &mut Vec<Declaration>,
) -> Result<(), AllocError>
    ensures { OnOk result (out.new.items ≡ out.old.items ++ spec.processor_scope has_locks place) }
{
    begin(Scope::Processor(place), out)?;
    let place = usize::from(place);
    declare_all(
        &[
            Variable::Run(place),
            Variable::Handler(place),
            Variable::Lock(place),
            Variable::Dispatch(place),
            Variable::Refused(place),
        ],
        out,
    )?;
    declare_spin(has_locks, place, out)?;
    end(out)
}

fn declare_processors(
    has_locks: bool,
    count: u8,
    out: &mut Vec<Declaration>,
) -> Result<(), AllocError>
    ensures { OnOk result (out.new.items ≡ out.old.items ++ spec.processors_from has_locks 0 count) }
{
    for place in 0..count {
        declare_processor(has_locks, place, out)?;
    }
    Ok(())
}

fn declare_task(
    place: usize,
    config: &TaskConfig,
    out: &mut Vec<Declaration>,
) -> Result<(), AllocError>
    ensures { OnOk result (out.new.items ≡ out.old.items ++ spec.task_scope place config.now) }
{
    declare_group(
        &config.name,
        &[
            Variable::State(place),
            Variable::Running(place),
            Variable::Processor(place),
            Variable::Priority(place),
            Variable::WaitKind(place),
            Variable::WaitObject(place),
        ],
        out,
    )
}

fn declare_tasks(sys: &System, out: &mut Vec<Declaration>) -> Result<(), AllocError>
    ensures { OnOk result (out.new.items ≡ out.old.items ++ of_each spec.task_scope 0 (tables_of sys.now).tasks) }
{
    for (place, config) in sys.tasks.iter().enumerate() {
        declare_task(place, config, out)?;
    }
    Ok(())
}

fn declare_cyclics(sys: &System, out: &mut Vec<Declaration>) -> Result<(), AllocError>
    ensures { OnOk result (out.new.items
        ≡ out.old.items ++ of_each spec.cyclic_scope 0 (tables_of sys.now).cyclics) }
{
    for (place, config) in sys.cyclics.iter().enumerate() {
        declare_group(&config.name, &[Variable::Cyclic(place)], out)?;
    }
    Ok(())
}

fn declare_interrupt(config: &InterruptConfig, out: &mut Vec<Declaration>) -> Result<(), AllocError>
    ensures { OnOk result (out.new.items ≡ out.old.items ++ spec.interrupt_scope config.now) }
{
    let place = usize::from(config.number.saturating_sub(1));
    declare_scope(
        Scope::Interrupt(config.number),
        &[Variable::Interrupt(place)],
        out,
    )
}

fn declare_interrupts(sys: &System, out: &mut Vec<Declaration>) -> Result<(), AllocError>
    ensures { OnOk result (out.new.items
        ≡ out.old.items ++ of_each (λ place. spec.interrupt_scope) 0 (tables_of sys.now).interrupts) }
{
    for config in &sys.interrupts {
        declare_interrupt(config, out)?;
    }
    Ok(())
}

fn declare_semaphores(sys: &System, out: &mut Vec<Declaration>) -> Result<(), AllocError>
    ensures { OnOk result (out.new.items
        ≡ out.old.items ++ of_each spec.semaphore_scope 0 (tables_of sys.now).semaphores) }
{
    for (place, config) in sys.semaphores.iter().enumerate() {
        let waiting = Variable::Waiting(WaitedObject::Semaphore(place));
        declare_group(&config.name, &[Variable::Count(place), waiting], out)?;
    }
    Ok(())
}

fn declare_flags(sys: &System, out: &mut Vec<Declaration>) -> Result<(), AllocError>
    ensures { OnOk result (out.new.items ≡ out.old.items ++ of_each spec.flag_scope 0 (tables_of sys.now).flags) }
{
    for (place, config) in sys.flags.iter().enumerate() {
        let waiting = Variable::Waiting(WaitedObject::Flag(place));
        declare_group(&config.name, &[Variable::Pattern(place), waiting], out)?;
    }
    Ok(())
}

fn declare_data_queues(sys: &System, out: &mut Vec<Declaration>) -> Result<(), AllocError>
    ensures { OnOk result (out.new.items
        ≡ out.old.items ++ of_each spec.data_queue_scope 0 (tables_of sys.now).data_queues) }
{
    for (place, config) in sys.data_queues.iter().enumerate() {
        let waiting = Variable::Waiting(WaitedObject::DataQueue(place));
        declare_group(&config.name, &[Variable::DataQueue(place), waiting], out)?;
    }
    Ok(())
}

fn declare_mailboxes(sys: &System, out: &mut Vec<Declaration>) -> Result<(), AllocError>
    ensures { OnOk result (out.new.items
        ≡ out.old.items ++ of_each spec.mailbox_scope 0 (tables_of sys.now).mailboxes) }
{
    for (place, config) in sys.mailboxes.iter().enumerate() {
        let waiting = Variable::Waiting(WaitedObject::Mailbox(place));
        declare_group(&config.name, &[Variable::Mailbox(place), waiting], out)?;
    }
    Ok(())
}

fn declare_shared_words(sys: &System, out: &mut Vec<Declaration>) -> Result<(), AllocError>
    ensures { OnOk result (out.new.items
        ≡ out.old.items ++ of_each spec.word_scope 0 (tables_of sys.now).shared_words) }
{
    for (place, config) in sys.shared_words.iter().enumerate() {
        declare_group(&config.name, &[Variable::Word(place)], out)?;
    }
    Ok(())
}

fn declare_task_scope(sys: &System, out: &mut Vec<Declaration>) -> Result<(), AllocError>
    ensures { OnOk result (out.new.items
        ≡ out.old.items ++ in_scope Scope.Tasks (of_each spec.task_scope 0 (tables_of sys.now).tasks)) }
{
    begin(Scope::Tasks, out)?;
    declare_tasks(sys, out)?;
    end(out)
}

fn declare_cyclic_scope(sys: &System, out: &mut Vec<Declaration>) -> Result<(), AllocError>
    ensures { OnOk result (out.new.items
        ≡ out.old.items ++ scope_of_any Scope.Cyclics spec.cyclic_scope (tables_of sys.now).cyclics) }
{
    if sys.cyclics.is_empty() {
        return Ok(());
    }
    begin(Scope::Cyclics, out)?;
    declare_cyclics(sys, out)?;
    end(out)
}

fn declare_interrupt_scope(sys: &System, out: &mut Vec<Declaration>) -> Result<(), AllocError>
    ensures { OnOk result (out.new.items ≡ out.old.items
        ++ scope_of_any Scope.Interrupts (λ place. spec.interrupt_scope) (tables_of sys.now).interrupts) }
{
    if sys.interrupts.is_empty() {
        return Ok(());
    }
    begin(Scope::Interrupts, out)?;
    declare_interrupts(sys, out)?;
    end(out)
}

fn declare_objects(sys: &System, out: &mut Vec<Declaration>) -> Result<(), AllocError>
    ensures { OnOk result (out.new.items ≡ out.old.items ++ spec.objects (tables_of sys.now)) }
{
    begin(Scope::Objects, out)?;
    declare_semaphores(sys, out)?;
    declare_flags(sys, out)?;
    declare_data_queues(sys, out)?;
    declare_mailboxes(sys, out)?;
    declare_shared_words(sys, out)?;
    end(out)
}

fn declare_system(sys: &System, out: &mut Vec<Declaration>) -> Result<(), AllocError>
    ensures { OnOk result (out.new.items ≡ out.old.items ++ spec.declarations_of (tables_of sys.now)) }
{
    begin(Scope::System, out)?;
    out.push(Declaration::Shown(Variable::Clock))?;
    declare_processors(!sys.spin_locks.is_empty(), sys.processors, out)?;
    declare_task_scope(sys, out)?;
    declare_cyclic_scope(sys, out)?;
    declare_interrupt_scope(sys, out)?;
    declare_objects(sys, out)?;
    end(out)
}

/// What the head of the dump of a system declares, in order. `AllocError` if memory runs out.
pub fn declarations_of(alloc: Global, sys: &System) -> Result<Vec<Declaration>, AllocError>
    ensures { IfOk result (λ declared. declared.items ≡ spec.declarations_of (tables_of sys.now)) }
{
    let mut declared = Vec::new(alloc);
    declare_system(sys, &mut declared)?;
    Ok(declared)
}

/// Appends the variable of a declaration, if it is of one.
fn add_variable(declaration: Declaration, variables: &mut Vec<Variable>) -> Result<(), AllocError>
    ensures { OnOk result (variables.new.items
        ≡ variables.old.items ++ spec.variables_in (declaration ∷ [])) }
{
    match declaration {
        Declaration::Shown(variable) => {
            variables.push(variable)?;
            Ok(())
        }
        Declaration::Begin(_) | Declaration::End => Ok(()),
    }
}

/// The variables that are declared, in order. `AllocError` if memory runs out.
pub fn variables_in(
    alloc: Global,
    declarations: &[Declaration],
) -> Result<Vec<Variable>, AllocError>
    ensures { IfOk result (λ variables. variables.items ≡ spec.variables_in declarations.now) }
{
    let mut variables = Vec::new(alloc);
    for declaration in declarations {
        add_variable(*declaration, &mut variables)?;
    }
    Ok(variables)
}
