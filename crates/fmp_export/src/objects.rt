//! The numbers of objects in C.
ghost use Rattle.std.specs.Prelude.{◌≡◌, ◌++◌, ◌+◌, ◌<◌, ◌^◌, map, OnOk};
ghost use Rattle.fmp_base.specs.Systems.{tables_of};
ghost use Rattle.fmp_export.specs.Files.{c_enumeration, c_kind, c_kinds, c_object, c_objects};

use crate::text::{append, append_count};
use crate::words::append_name;
use fmp_base::{Name, System};
use fmp_scopes::HasName;
use std::alloc::{AllocError, Global};

/// Appends an object by its number.
#[tactic(auto, unfolding(crate::specs::Files::c_object))]
fn append_object(number: usize, name: &Name, out: &mut Vec<u8>) -> Result<(), AllocError>
    ensures { OnOk result (out.new.items ≡ out.old.items ++ c_object number name.now) }
{
    append(b"    ", out)?;
    append_name(name, out)?;
    append(b" = ", out)?;
    append_count(number, out)?;
    append(b",\n", out)
}

/// Appends the objects of a table.
fn append_objects<T: HasName>(rows: &[T], out: &mut Vec<u8>) -> Result<(), AllocError>
    ensures { OnOk result (out.new.items ≡ out.old.items ++ c_objects 1 (map T.name_of rows.now)) }
{
    for place in 0..rows.len() {
        append_object(place + 1, rows[place].name(), out)?;
    }
    Ok(())
}

/// Appends the objects of a table, if it has any.
pub fn append_kind<T: HasName>(
    title: &[u8],
    rows: &[T],
    out: &mut Vec<u8>,
) -> Result<(), AllocError>
    ensures { OnOk result (out.new.items ≡ out.old.items ++ c_kind title.now (map T.name_of rows.now)) }
{
    if rows.is_empty() {
        return Ok(());
    }
    append(b"    /* ", out)?;
    append(title, out)?;
    append(b" */\n", out)?;
    append_objects(rows, out)
}

/// Appends the objects of all tables.
#[tactic(auto, unfolding(crate::specs::Files::c_kinds))]
fn append_kinds(system: &System, out: &mut Vec<u8>) -> Result<(), AllocError>
    ensures { OnOk result (out.new.items ≡ out.old.items ++ c_kinds (tables_of system.now)) }
{
    append_kind(b"Tasks.", &system.tasks, out)?;
    append_kind(b"Semaphores.", &system.semaphores, out)?;
    append_kind(b"Eventflags.", &system.flags, out)?;
    append_kind(b"Data queues.", &system.data_queues, out)?;
    append_kind(b"Mailboxes.", &system.mailboxes, out)?;
    append_kind(b"Messages.", &system.messages, out)?;
    append_kind(b"Shared words.", &system.shared_words, out)?;
    append_kind(b"Spin locks.", &system.spin_locks, out)?;
    append_kind(b"Cyclic handlers.", &system.cyclics, out)
}

/// Appends an enumeration of the objects of a system, if it has any.
pub fn append_enumeration(
    alloc: Global,
    system: &System,
    out: &mut Vec<u8>,
) -> Result<(), AllocError>
    ensures { OnOk result (out.new.items ≡ out.old.items ++ c_enumeration (c_kinds (tables_of system.now))) }
{
    let mut kinds = Vec::new(alloc);
    append_kinds(system, &mut kinds)?;
    if kinds.is_empty() {
        return Ok(());
    }
    append(b"enum {\n", out)?;
    append(&kinds, out)?;
    append(b"};\n\n", out)
}
