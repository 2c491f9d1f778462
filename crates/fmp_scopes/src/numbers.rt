//! The numbers of the objects of a system, found by their names.

ghost use Rattle.std.specs.Prelude.{◌≡◌, ◌+◌, ◌<◌, ◌≤◌, map, length, IfOk, OnOk};
ghost use Rattle.fmp_base.specs.declared.names.Name as base;
ghost use Rattle.fmp_base.specs.Names.{name_text};
ghost use Rattle.fmp_base.specs.Ranges.{IsInRange};
ghost use Rattle.fmp_base.specs.Systems.{tables_of};
ghost use Rattle.fmp_tasklang.specs.Scopes.{place_of, number_or, object_names, object_number};
ghost use Rattle.fmp_scopes.specs.Numbers.{object_named};

use crate::names::HasName;
use fmp_base::System;
use fmp_lex::ObjectName;
use std::alloc::{AllocError, Global};
use std::collections::HashMap;

/// The number of the object of each name.
pub type ObjectNumbers = HashMap<ObjectName, u8>;

/// The number of the object at a place.
fn numbered(place: usize) -> u8
    requires { place < 255 }
    ensures { result ≡ place + 1 }
{
    place as u8 + 1
}

/// Gives the objects of a table their numbers. Of those with one name the first comes last, and its number stays.
pub(crate) fn number_rows<T: HasName>(
    numbers: &mut ObjectNumbers,
    rows: &[T],
) -> Result<(), AllocError>
    requires { length rows.now ≤ 255 }
    ensures { OnOk result ((name : base.Name) → object_named numbers.new name ≡
        number_or (place_of (name_text name) (map T.name_of rows.now)) (object_named numbers.old name)) }
{
    let mut place = rows.len();
    while place > 0 {
        place -= 1;
        let name = *rows[place].name();
        numbers.insert(ObjectName { name }, numbered(place))?;
    }
    Ok(())
}

/// How many objects with names a system has.
fn count_objects(system: &System) -> usize
    requires { IsInRange (tables_of system.now) }
{
    system.cyclics.len()
        + system.spin_locks.len()
        + system.shared_words.len()
        + system.messages.len()
        + system.mailboxes.len()
        + system.data_queues.len()
        + system.flags.len()
        + system.semaphores.len()
        + system.tasks.len()
}

/// The numbers of the objects of a system. Where two tables have one name, its number is that of the first. The error
/// is out of memory.
pub fn number_objects(alloc: Global, system: &System) -> Result<ObjectNumbers, AllocError>
    requires { IsInRange (tables_of system.now) }
    ensures { IfOk result (λ numbers. (name : base.Name) → object_named numbers name ≡
        object_number (name_text name) (object_names (tables_of system.now))) }
{
    let mut numbers = HashMap::with_capacity(alloc, count_objects(system))?;
    number_rows(&mut numbers, &system.cyclics)?;
    number_rows(&mut numbers, &system.spin_locks)?;
    number_rows(&mut numbers, &system.shared_words)?;
    number_rows(&mut numbers, &system.messages)?;
    number_rows(&mut numbers, &system.mailboxes)?;
    number_rows(&mut numbers, &system.data_queues)?;
    number_rows(&mut numbers, &system.flags)?;
    number_rows(&mut numbers, &system.semaphores)?;
    number_rows(&mut numbers, &system.tasks)?;
    Ok(numbers)
}
