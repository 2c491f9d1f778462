//! What never ran in a search, and how full its objects ever were, for other programs: objects of JSON, one in a line.
ghost use Rattle.std.specs.Prelude.{◌≡◌, ◌++◌, OnOk};
ghost use Rattle.fmp_base.specs.Systems.{tables_of};
ghost use Rattle.fmp_searching.specs.ExtentRecords as spec;
ghost use Rattle.fmp_searching.specs.Lines.{numbered};

use crate::counts::Count;
use crate::coverage_records::append_finished;
use crate::records::write_number;
use fmp_base::{Name, System};
use fmp_explore::Report;
use fmp_json::{begin, text_member};
use fmp_scopes::HasName;
use std::alloc::{AllocError, Global};

/// Appends an object with a name, and a number if there is one.
pub fn append_named(
    alloc: Global,
    out: &mut Vec<u8>,
    what: &str,
    name: &[u8],
    number: Option<u64>,
) -> Result<(), AllocError>
    ensures { OnOk result (out.new.items ≡ out.old.items ++ spec.named_record what.now name.now number) }
{
    let name = String::from_utf8_lossy(alloc, name)?;
    let mut writer = begin(alloc)?;
    text_member(&mut writer, "what", what)?;
    text_member(&mut writer, "name", name.as_str())?;
    write_number(&mut writer, "value", number)?;
    append_finished(writer, out)
}

/// Appends a name, unless what has it ran.
fn append_unrun_name(
    alloc: Global,
    out: &mut Vec<u8>,
    name: Name,
    ran: bool,
) -> Result<(), AllocError>
    ensures { OnOk result (out.new.items ≡ out.old.items ++ spec.unrun_record name ran) }
{
    if ran {
        Ok(())
    } else {
        append_named(alloc, out, "never_run", name.as_bytes(), None)
    }
}

/// Appends the rows of a table that never ran.
#[tactic(auto, using(crate::proofs::SeenLists::numbered_at))]
fn append_unrun_rows<T: HasName>(
    alloc: Global,
    out: &mut Vec<u8>,
    rows: &[T],
    ran: &[bool],
) -> Result<(), AllocError>
    ensures { OnOk result (out.new.items
        ≡ out.old.items ++ numbered (λ _ x ran. spec.unrun_record (T.name_of x) ran) 0 rows.now ran.now) }
{
    let count = rows.len().min(ran.len());
    for i in 0..count {
        append_unrun_name(alloc, out, *rows[i].name(), ran[i])?;
    }
    Ok(())
}

/// Appends the tasks and the cyclic handlers that never ran.
pub fn append_unrun(
    alloc: Global,
    out: &mut Vec<u8>,
    sys: &System,
    report: &Report,
) -> Result<(), AllocError>
    ensures { OnOk result (out.new.items ≡ out.old.items ++ spec.unrun_records (tables_of sys.now) report.now) }
{
    append_unrun_rows(alloc, out, &sys.tasks, &report.coverage.runs.tasks)?;
    append_unrun_rows(alloc, out, &sys.cyclics, &report.coverage.runs.cyclics)
}

/// Appends a name and its greatest count or length.
fn append_peak(
    alloc: Global,
    out: &mut Vec<u8>,
    what: &str,
    name: Name,
    most: u64,
) -> Result<(), AllocError>
    ensures { OnOk result (out.new.items ≡ out.old.items ++ spec.peak_record what.now name most) }
{
    append_named(alloc, out, what, name.as_bytes(), Some(most))
}

/// Appends the greatest count or length of each row of a table, in this word.
#[tactic(auto, using(crate::proofs::SeenLists::numbered_at))]
fn append_row_peaks<T: HasName, N: Count>(
    alloc: Global,
    out: &mut Vec<u8>,
    what: &str,
    rows: &[T],
    peaks: &[N],
) -> Result<(), AllocError>
    ensures { OnOk result (out.new.items ≡ out.old.items
        ++ numbered (λ _ x most. spec.peak_record what.now (T.name_of x) (N.number most)) 0 rows.now peaks.now) }
{
    let count = rows.len().min(peaks.len());
    for i in 0..count {
        append_peak(alloc, out, what, *rows[i].name(), peaks[i].count())?;
    }
    Ok(())
}

/// Appends the greatest length of each data queue and mailbox.
fn append_lengths(
    alloc: Global,
    out: &mut Vec<u8>,
    sys: &System,
    report: &Report,
) -> Result<(), AllocError>
    ensures { OnOk result (out.new.items ≡ out.old.items ++ spec.length_records (tables_of sys.now) report.now) }
{
    let peaks = &report.coverage.peaks;
    append_row_peaks(
        alloc,
        out,
        "greatest_length",
        &sys.data_queues,
        &peaks.words,
    )?;
    append_row_peaks(
        alloc,
        out,
        "greatest_length",
        &sys.mailboxes,
        &peaks.messages,
    )
}

/// Appends the greatest count of each semaphore, and the greatest length of each data queue and mailbox.
pub fn append_peaks(
    alloc: Global,
    out: &mut Vec<u8>,
    sys: &System,
    report: &Report,
) -> Result<(), AllocError>
    ensures { OnOk result (out.new.items ≡ out.old.items ++ spec.peak_records (tables_of sys.now) report.now) }
{
    let counts = &report.coverage.peaks.counts;
    append_row_peaks(alloc, out, "greatest_count", &sys.semaphores, counts)?;
    append_lengths(alloc, out, sys, report)
}
