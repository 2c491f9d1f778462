//! The dump of a run, event by event.
ghost use Rattle.std.specs.Prelude.{◌≡◌, ◌≤◌, ◌++◌, IfOk, OnOk};
ghost use Rattle.fmp_base.specs.Systems.{tables_of};
ghost use Rattle.fmp_frames.specs.DumpedRuns.{IsBegun, IsDumped, number_after};
ghost use Rattle.fmp_frames.specs.Dumps as spec;
ghost use Rattle.fmp_frames.specs.Frames.{table_of};

use crate::head::DumpHead;
use crate::text::{append_bits, append_identifier};
use crate::values::values_of;
use crate::variable::Variable;
use crate::{Frame, Viewer};
use fmp_base::System;
use fmp_json::{append, append_number};
use std::alloc::{AllocError, Global};

/// The dump of a run so far. If memory runs out, it has an unfinished end.
#[derive(Drop)]
pub struct Waves {
    /// The variables, in the order of the head.
    pub variables: Vec<Variable>,
    /// Their values after the last event.
    pub values: Vec<u64>,
    /// How many events have been shown; 2^32 - 1 stands for more too.
    events: u32,
    text: Vec<u8>,
}

/// Appends a value in the form for its width: that of one bit is a digit.
fn append_binary(width: u8, value: u64, out: &mut Vec<u8>) -> Result<(), AllocError>
    requires { width ≤ 32 }
    ensures { OnOk result (out.new.items ≡ out.old.items ++ spec.binary_text width value) }
{
    if width == 1 {
        return append_bits(value, 1, out);
    }
    append(b"b", out)?;
    append_bits(value, width, out)?;
    append(b" ", out)
}

/// Appends the value of the variable at this place.
fn append_value(
    place: usize,
    variable: Variable,
    value: u64,
    out: &mut Vec<u8>,
) -> Result<(), AllocError>
    ensures { OnOk result (out.new.items ≡ out.old.items ++ spec.value_text place variable value) }
{
    append_binary(variable.width(), value, out)?;
    append_identifier(place, out)?;
    append(b"\n", out)
}

/// Appends the values of all variables.
#[tactic(auto, unfolding(crate::specs::Dumps::values_text))]
fn append_all(variables: &[Variable], values: &[u64], out: &mut Vec<u8>) -> Result<(), AllocError>
    ensures { OnOk result (out.new.items ≡ out.old.items ++ spec.values_text 0 variables.now values.now) }
{
    let mut rest = values;
    for (place, variable) in variables.iter().enumerate() {
        let [value, more @ ..] = rest else {
            return Ok(());
        };
        append_value(place, *variable, *value, out)?;
        rest = more;
    }
    Ok(())
}

/// Appends the values of all variables after setup.
fn append_first(variables: &[Variable], values: &[u64], out: &mut Vec<u8>) -> Result<(), AllocError>
    ensures { OnOk result (out.new.items ≡ out.old.items ++ spec.first_text variables.now values.now) }
{
    append(b"#0\n$dumpvars\n", out)?;
    append_all(variables, values, out)?;
    append(b"$end\n", out)
}

/// Appends a value if it is not as it was before.
fn append_if_changed(
    place: usize,
    variable: Variable,
    before: u64,
    value: u64,
    out: &mut Vec<u8>,
) -> Result<(), AllocError>
    ensures { OnOk result (out.new.items ≡ out.old.items ++ spec.change_text place variable before value) }
{
    if before == value {
        return Ok(());
    }
    append_value(place, variable, value, out)
}

/// Appends the values that have changed.
#[tactic(auto, unfolding(crate::specs::Dumps::changes_text))]
fn append_changed(
    variables: &[Variable],
    before: &[u64],
    values: &[u64],
    out: &mut Vec<u8>,
) -> Result<(), AllocError>
    ensures { OnOk result (out.new.items
        ≡ out.old.items ++ spec.changes_text 0 variables.now before.now values.now) }
{
    let mut before = before;
    let mut values = values;
    for (place, variable) in variables.iter().enumerate() {
        let [was, rest_before @ ..] = before else {
            return Ok(());
        };
        let [value, rest @ ..] = values else {
            return Ok(());
        };
        append_if_changed(place, *variable, *was, *value, out)?;
        before = rest_before;
        values = rest;
    }
    Ok(())
}

/// Appends the time of an event.
fn append_time(event: u32, out: &mut Vec<u8>) -> Result<(), AllocError>
    ensures { OnOk result (out.new.items ≡ out.old.items ++ spec.time_text event) }
{
    append(b"#", out)?;
    append_number(u64::from(event), out)?;
    append(b"\n", out)
}

/// Appends the time of an event, and the values that it has changed.
fn append_event(
    event: u32,
    variables: &[Variable],
    before: &[u64],
    values: &[u64],
    out: &mut Vec<u8>,
) -> Result<(), AllocError>
    ensures { OnOk result (out.new.items
        ≡ out.old.items ++ spec.event_text event variables.now before.now values.now) }
{
    append_time(event, out)?;
    append_changed(variables, before, values, out)
}

impl Waves {
    /// The dump of a system after setup. `AllocError` if memory runs out.
    pub fn new(alloc: Global, sys: &System, setup: &Frame) -> Result<Waves, AllocError>
        ensures { IfOk result (IsBegun (tables_of sys.now) (table_of setup.now)) }
    {
        let DumpHead {
            variables,
            mut text,
        } = DumpHead::new(alloc, sys)?;
        let values = values_of(alloc, setup, &variables)?;
        append_first(&variables, &values, &mut text)?;
        Ok(Waves {
            variables,
            values,
            events: 0,
            text,
        })
    }

    /// The whole text: one unit of time more, so that the last state has a width. `AllocError` if memory runs out.
    pub fn finish(mut self) -> Result<Vec<u8>, AllocError>
        ensures { IfOk result (λ text. text.items ≡ self.text.items ++ spec.time_text (number_after self.events)) }
    {
        append_time(self.events.saturating_add(1), &mut self.text)?;
        Ok(self.text)
    }
}

impl Viewer for Waves {
    ghost shown = { IsDumped };

    /// One event more: the values that it has changed.
    fn show(&mut self, alloc: Global, frame: &Frame) -> Result<(), AllocError> {
        let values = values_of(alloc, frame, &self.variables)?;
        self.events = self.events.saturating_add(1);
        append_event(
            self.events,
            &self.variables,
            &self.values,
            &values,
            &mut self.text,
        )?;
        self.values = values;
        Ok(())
    }
}
