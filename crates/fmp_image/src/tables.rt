//! The tables of a system with the numbers of bodies in place of their names.

ghost use Rattle.std.specs.Prelude.{◌≡◌, ◌≤◌, List, length, map};
ghost use Rattle.fmp_base.specs.Systems.{tables_of};
ghost use Rattle.fmp_tasklang.specs.Trees.{BodyTree};
ghost use Rattle.fmp_scopes.specs.Headings.{AreHeadings};
ghost use Rattle.fmp_image.specs.Building as spec;
ghost use Rattle.fmp_image.specs.Building.{built_task, built_cyclic, built_interrupt, built_tables};

use fmp_base::{CyclicConfig, Entry, InterruptConfig, System, TaskConfig};
use fmp_codegen::{Heading, body_place};

fn built_entry(headings: &[Heading], entry: Entry) -> Entry
    requires { length headings.now ≤ 255 }
    ensures { (bodies : List BodyTree) → AreHeadings headings.now bodies → result ≡ spec.built_entry bodies entry }
{
    match entry {
        Entry::Named(name) => match body_place(headings, &name) {
            Some(place) => Entry::Body(place as u8),
            None => Entry::Body(0),
        },
        Entry::Body(number) => Entry::Body(number),
    }
}

fn build_tasks(headings: &[Heading], tasks: &mut [TaskConfig])
    requires { length headings.now ≤ 255 }
    ensures { (bodies : List BodyTree) → AreHeadings headings.now bodies →
        tasks.new ≡ map (built_task bodies) tasks.old }
{
    for task in tasks.iter_mut() {
        task.entry = built_entry(headings, task.entry);
    }
}

fn build_cyclics(headings: &[Heading], cyclics: &mut [CyclicConfig])
    requires { length headings.now ≤ 255 }
    ensures { (bodies : List BodyTree) → AreHeadings headings.now bodies →
        cyclics.new ≡ map (built_cyclic bodies) cyclics.old }
{
    for cyclic in cyclics.iter_mut() {
        cyclic.entry = built_entry(headings, cyclic.entry);
    }
}

fn build_interrupts(headings: &[Heading], interrupts: &mut [InterruptConfig])
    requires { length headings.now ≤ 255 }
    ensures { (bodies : List BodyTree) → AreHeadings headings.now bodies →
        interrupts.new ≡ map (built_interrupt bodies) interrupts.old }
{
    for interrupt in interrupts.iter_mut() {
        interrupt.entry = built_entry(headings, interrupt.entry);
    }
}

/// Puts the numbers of bodies in place of their names.
pub fn build_tables(headings: &[Heading], system: &mut System)
    requires { length headings.now ≤ 255 }
    ensures { (bodies : List BodyTree) → AreHeadings headings.now bodies →
        tables_of system.new ≡ built_tables bodies (tables_of system.old) }
{
    build_tasks(headings, &mut system.tasks);
    build_cyclics(headings, &mut system.cyclics);
    build_interrupts(headings, &mut system.interrupts);
}
