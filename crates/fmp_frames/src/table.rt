//! The table of a run as text: one row for each task.
ghost use Rattle.std.specs.Prelude.{◌≡◌, ◌++◌, ◌∷◌, [], IfOk, OnOk, codes, decimal, get_or, map, string_bytes};
ghost use Rattle.fmp_base.specs.Names.{name_text};
ghost use Rattle.fmp_base.specs.Systems.{tables_of};
ghost use Rattle.fmp_frames.specs.Counting.{counts_of};
ghost use Rattle.fmp_frames.specs.Tables as spec;

use crate::counting::TaskTally;
use crate::tallies::Tallies;
use fmp_base::{System, TaskConfig};
use fmp_json::{append, append_number};
use itoa::Buffer;
use std::alloc::{AllocError, Global};

/// The narrowest that a column of numbers is, with the spaces before it.
const COLUMN: usize = 8;

/// This many spaces.
fn append_spaces(count: usize, out: &mut Vec<u8>) -> Result<(), AllocError>
    ensures { OnOk result (out.new.items ≡ out.old.items ++ spec.blanks count) }
{
    for _space in 0..count {
        out.push(b' ')?;
    }
    Ok(())
}

/// A cell at the right end of the column of this head.
pub fn append_cell(head: &str, cell: &str, out: &mut Vec<u8>) -> Result<(), AllocError>
    ensures { OnOk result (out.new.items ≡ out.old.items ++ spec.cell head.now cell.now) }
{
    let width = (head.len() + 2).max(COLUMN);
    append_spaces(width.saturating_sub(cell.len()), out)?;
    append(cell.as_bytes(), out)
}

/// A head at the right end of its column.
pub fn append_head(head: &str, out: &mut Vec<u8>) -> Result<(), AllocError>
    ensures { OnOk result (out.new.items ≡ out.old.items ++ spec.head_cell head.now) }
{
    append_cell(head, head, out)
}

/// The first cell of a row: a name, and the width of the column of names.
#[derive(Clone, Copy)]
pub struct RowName<'a> {
    pub name: &'a [u8],
    pub width: usize,
}

/// Appends the first cell of a row.
pub fn append_name(row: RowName<'_>, out: &mut Vec<u8>) -> Result<(), AllocError>
    ensures { OnOk result (out.new.items
        ≡ out.old.items ++ spec.name_cell row.entry.width row.entry.name.now) }
{
    append(row.name, out)?;
    append_spaces(row.width.saturating_sub(row.name.len()), out)
}

/// The heads of the counts.
#[tactic(auto, unfolding(crate::specs::Tables::count_heads))]
fn append_count_heads(out: &mut Vec<u8>) -> Result<(), AllocError>
    ensures { OnOk result (out.new.items ≡ out.old.items ++ spec.count_heads) }
{
    append_head("starts", out)?;
    append_head("calls", out)?;
    append_head("waits", out)?;
    append_head("time-outs", out)?;
    append_head("preemptions", out)?;
    append_head("kept", out)?;
    append_head("spins", out)?;
    append_head("events", out)
}

/// The row of the heads.
fn append_heads(width: usize, out: &mut Vec<u8>) -> Result<(), AllocError>
    ensures { OnOk result (out.new.items ≡ out.old.items ++ spec.heads width) }
{
    let name = b"task";
    append_name(RowName { name, width }, out)?;
    append_count_heads(out)?;
    append_head("share", out)?;
    append(b"\n", out)
}

/// A count under its head.
fn append_count(head: &str, count: u32, out: &mut Vec<u8>) -> Result<(), AllocError>
    ensures { OnOk result (out.new.items ≡ out.old.items ++ spec.cell head.now (decimal count)) }
{
    append_cell(head, Buffer::new().format(count), out)
}

/// The counts of a task that spun after this many events, each under its head.
#[tactic(auto, unfolding(crate::specs::Tables::count_cells))]
fn append_counts(tally: &TaskTally, spins: u32, out: &mut Vec<u8>) -> Result<(), AllocError>
    ensures { OnOk result (out.new.items ≡ out.old.items ++ spec.count_cells tally.now spins) }
{
    append_count("starts", tally.starts, out)?;
    append_count("calls", tally.calls, out)?;
    append_count("waits", tally.waits, out)?;
    append_count("time-outs", tally.time_outs, out)?;
    append_count("preemptions", tally.preemptions, out)?;
    append_count("kept", tally.kept, out)?;
    append_count("spins", spins, out)?;
    append_count("events", tally.events, out)
}

/// The width of the longest name of a task, or of the head above the names.
fn name_width(tasks: &[TaskConfig]) -> usize
    ensures { result ≡ spec.widest 4 (map (λ c. name_text c.name) tasks.now) }
{
    let mut width = 4;
    for config in tasks {
        width = config.name.as_bytes().len().max(width);
    }
    width
}

/// The share of a task that made this many of all events, in tenths of a percent.
fn share_of(alloc: Global, events: u32, all: u32) -> Result<String, AllocError>
    ensures { IfOk result (λ text. string_bytes text ≡ spec.share events all) }
{
    let share = u64::from(events) * 1000 / u64::from(all.max(1));
    format!(in alloc; "{}.{}%", share / 10, share % 10)
}

/// After how many events a task spun, by its place.
fn spins_at(spins: &[u32], place: usize) -> u32
    ensures { result ≡ get_or spins.now place 0 }
{
    match spins.get(place) {
        Some(count) => *count,
        None => 0,
    }
}

/// The row of a task that spun after this many events, and made this share of all.
fn append_tally(
    row: RowName<'_>,
    tally: &TaskTally,
    spins: u32,
    share: &str,
    out: &mut Vec<u8>,
) -> Result<(), AllocError>
    ensures { OnOk result (out.new.items ≡ out.old.items ++ (spec.name_cell row.entry.width row.entry.name.now
        ++ (spec.count_cells tally.now spins ++ (spec.cell (codes "share") share.now ++ 10 ∷ [])))) }
{
    append_name(row, out)?;
    append_counts(tally, spins, out)?;
    append_cell("share", share, out)?;
    append(b"\n", out)
}

/// The row of a task, if anything is counted of it.
fn append_row(
    alloc: Global,
    tallies: &Tallies,
    task: usize,
    row: RowName<'_>,
    out: &mut Vec<u8>,
) -> Result<(), AllocError>
    ensures { OnOk result (out.new.items
        ≡ out.old.items ++ spec.task_row (counts_of tallies.now) row.entry.width task row.entry.name.now) }
{
    let Some(tally) = tallies.tallies.get(task) else {
        return Ok(());
    };
    let share = share_of(alloc, tally.events, tallies.events)?;
    append_tally(row, tally, spins_at(&tallies.spins, task), &share, out)
}

/// The rows of all tasks.
fn append_rows(
    alloc: Global,
    tallies: &Tallies,
    tasks: &[TaskConfig],
    width: usize,
    out: &mut Vec<u8>,
) -> Result<(), AllocError>
    ensures { OnOk result (out.new.items
        ≡ out.old.items ++ spec.task_rows (counts_of tallies.now) width 0 tasks.now) }
{
    for (task, config) in tasks.iter().enumerate() {
        let name = config.name.as_bytes();
        append_row(alloc, tallies, task, RowName { name, width }, out)?;
    }
    Ok(())
}

impl Tallies {
    ghost use Rattle.std.specs.Prelude.{◌≡◌, ◌++◌, OnOk};
    ghost use Rattle.fmp_base.specs.Systems.{tables_of};
    ghost use Rattle.fmp_frames.specs.Counting.{counts_of};
    ghost use Rattle.fmp_frames.specs.Tables.{task_table};

    /// Appends the table: a line for each task, with its share of the events in tenths of a percent. `AllocError` if
    /// memory runs out.
    pub fn append_table(
        &self,
        alloc: Global,
        sys: &System,
        out: &mut Vec<u8>,
    ) -> Result<(), AllocError>
        ensures { OnOk result (out.new.items
            ≡ out.old.items ++ task_table (tables_of sys.now) (counts_of self.now)) }
    {
        let width = name_width(&sys.tasks);
        append_heads(width, out)?;
        append_rows(alloc, self, &sys.tasks, width, out)
    }
}
