//! Tracefiles of lcov.
ghost use Rattle.std.specs.Prelude.{◌≡◌, ◌++◌, IfOk, OnOk, count_by};
ghost use Rattle.std.specs.List.{flat_map};
ghost use Rattle.fmp_looking.specs.Coverage as spec;

use crate::coverage::LineCount;
use crate::tables::BranchCount;
use fmp_frames::CallPosition;
use fmp_json::{append, append_number};
use std::alloc::{AllocError, Global};

/// A way of a branch.
#[derive(Clone, Copy)]
struct Way {
    position: CallPosition,
    /// 0 where what the branch goes by is not 0, 1 where it is.
    number: u64,
    /// How often it was gone.
    times: u64,
    /// Whether the branch was reached.
    is_reached: bool,
}

/// Appends how often a line was reached.
fn append_data(count: &LineCount, out: &mut Vec<u8>) -> Result<(), AllocError>
    ensures { OnOk result (out.new.items ≡ out.old.items ++ spec.data_line count.now) }
{
    append(b"DA:", out)?;
    append_number(u64::from(count.line), out)?;
    append(b",", out)?;
    append_number(count.count as u64, out)?;
    append(b"\n", out)
}

/// Appends how often each line was reached.
fn append_all(counts: &[LineCount], out: &mut Vec<u8>) -> Result<(), AllocError>
    ensures { OnOk result (out.new.items ≡ out.old.items ++ spec.data_lines counts.now) }
{
    for count in counts {
        append_data(count, out)?;
    }
    Ok(())
}

/// Whether a branch was reached.
fn is_reached(count: &BranchCount) -> bool
    ensures { result ≡ spec.is_reached count.now }
{
    count.is_true != 0 || count.is_false != 0
}

/// Adds the two ways of a branch.
fn add_ways(count: &BranchCount, ways: &mut Vec<Way>) -> Result<(), AllocError>
    ensures { OnOk result (ways.new.items ≡ ways.old.items ++ spec.ways_of count.now) }
{
    let is_reached = is_reached(count);
    ways.push(Way {
        position: count.position,
        number: 0,
        times: count.is_true,
        is_reached,
    })?;
    ways.push(Way {
        position: count.position,
        number: 1,
        times: count.is_false,
        is_reached,
    })?;
    Ok(())
}

/// The ways of branches.
fn all_ways(alloc: Global, counts: &[BranchCount]) -> Result<Vec<Way>, AllocError>
    ensures { IfOk result (λ ways. ways.items ≡ flat_map (λ c. spec.ways_of c) counts.now) }
{
    let mut ways = Vec::new(alloc);
    for count in counts {
        add_ways(count, &mut ways)?;
    }
    Ok(ways)
}

/// Appends how often a branch went a way; nothing is said of one that was never reached.
fn append_times(way: &Way, out: &mut Vec<u8>) -> Result<(), AllocError>
    ensures { OnOk result (out.new.items ≡ out.old.items ++ spec.times_gone way.now.times way.now.is_reached) }
{
    if way.is_reached {
        append_number(way.times, out)
    } else {
        append(b"-", out)
    }
}

/// Appends where a branch stands.
fn append_branch_position(position: CallPosition, out: &mut Vec<u8>) -> Result<(), AllocError>
    ensures { OnOk result (out.new.items ≡ out.old.items ++ spec.branch_position position) }
{
    append(b"BRDA:", out)?;
    append_number(u64::from(position.line), out)?;
    append(b",", out)?;
    append_number(position.column as u64, out)?;
    append(b",", out)
}

/// Appends a way of a branch.
fn append_way(way: &Way, out: &mut Vec<u8>) -> Result<(), AllocError>
    ensures { OnOk result (out.new.items ≡ out.old.items ++ spec.way_line way.now) }
{
    append_branch_position(way.position, out)?;
    append_number(way.number, out)?;
    append(b",", out)?;
    append_times(way, out)?;
    append(b"\n", out)
}

/// Appends ways of branches.
fn append_ways(ways: &[Way], out: &mut Vec<u8>) -> Result<(), AllocError>
    ensures { OnOk result (out.new.items ≡ out.old.items ++ flat_map (λ w. spec.way_line w) ways.now) }
{
    for way in ways {
        append_way(way, out)?;
    }
    Ok(())
}

/// Whether a branch went this way.
fn was_gone(way: &Way) -> bool
    ensures { result ≡ spec.was_gone way.now }
{
    way.times != 0
}

/// How many ways were gone.
fn ways_gone(ways: &[Way]) -> usize
    ensures { result ≡ count_by spec.was_gone ways.now }
{
    ways.iter().filter(|way| was_gone(*way)).count()
}

/// Appends how many ways there are, and how many were gone.
fn append_found_ways(ways: &[Way], out: &mut Vec<u8>) -> Result<(), AllocError>
    ensures { OnOk result (out.new.items ≡ out.old.items ++ spec.found_ways ways.now) }
{
    append(b"BRF:", out)?;
    append_number(ways.len() as u64, out)?;
    append(b"\nBRH:", out)?;
    append_number(ways_gone(ways) as u64, out)?;
    append(b"\n", out)
}

/// Appends what is known of the ways of branches, if there are some.
fn append_branches(ways: &[Way], out: &mut Vec<u8>) -> Result<(), AllocError>
    ensures { OnOk result (out.new.items ≡ out.old.items ++ spec.branch_lines ways.now) }
{
    if ways.is_empty() {
        return Ok(());
    }
    append_ways(ways, out)?;
    append_found_ways(ways, out)
}

/// Whether a call of a line was made.
fn was_made(count: &LineCount) -> bool
    ensures { result ≡ spec.was_made count.now }
{
    count.count != 0
}

/// How many lines were reached.
fn made_lines(counts: &[LineCount]) -> usize
    ensures { result ≡ count_by spec.was_made counts.now }
{
    counts.iter().filter(|count| was_made(*count)).count()
}

/// Appends how many lines were reached, and how many there are.
fn append_found(counts: &[LineCount], out: &mut Vec<u8>) -> Result<(), AllocError>
    ensures { OnOk result (out.new.items ≡ out.old.items ++ spec.found_lines counts.now) }
{
    append(b"LH:", out)?;
    append_number(made_lines(counts) as u64, out)?;
    append(b"\nLF:", out)?;
    append_number(counts.len() as u64, out)?;
    append(b"\n", out)
}

/// Appends the end of a record.
fn append_end(counts: &[LineCount], out: &mut Vec<u8>) -> Result<(), AllocError>
    ensures { OnOk result (out.new.items ≡ out.old.items ++ spec.record_end counts.now) }
{
    append_found(counts, out)?;
    append(b"end_of_record\n", out)
}

/// The tracefile of lcov that tells how often the branches of the text of this file went each way, and how often the
/// calls in each line were made: a line with calls that were not made has the count 0. A branch is named by its line
/// and its column; its way 0 is that where what it goes by is not 0. `AllocError` if memory runs out.
pub fn tracefile(
    alloc: Global,
    file: &str,
    counts: &[LineCount],
    branches: &[BranchCount],
) -> Result<Vec<u8>, AllocError>
    ensures { IfOk result (λ out. out.items ≡ spec.tracefile file.now counts.now branches.now) }
{
    let ways = all_ways(alloc, branches)?;
    let mut out = Vec::new(alloc);
    append(b"TN:\nSF:", &mut out)?;
    append(file.as_bytes(), &mut out)?;
    append(b"\n", &mut out)?;
    append_branches(&ways, &mut out)?;
    append_all(counts, &mut out)?;
    append_end(counts, &mut out)?;
    Ok(out)
}
