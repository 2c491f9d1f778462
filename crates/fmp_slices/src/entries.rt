//! The entries of a trace, each an object of JSON in a line of its own after a comma.
ghost use Rattle.std.specs.Prelude.{◌≡◌, ◌++◌, ◌∷◌, [], IfOk, OnOk};
ghost use Rattle.fmp_json.specs.Members.{finished};
ghost use Rattle.fmp_slices.specs.Entries as spec;
ghost use Rattle.json.specs.Token.{begin_object};

use crate::lanes::Lane;
use fmp_json::{begin, finish, number_member, text_member};
use json::Writer;
use std::alloc::{AllocError, Global};

/// Appends an object that was begun, after a comma.
fn append_object(writer: Writer, out: &mut Vec<u8>) -> Result<(), AllocError>
    requires { writer.before ≡ [] }
    ensures { OnOk result (out.new.items ≡ out.old.items ++ (44 ∷ finished writer.tokens)) }
{
    out.push(b',')?;
    let line = finish(writer)?;
    out.extend_from_slice(&line)
}

/// Begins an entry of this phase on a track.
fn begin_entry(alloc: Global, phase: &str, lane: Lane) -> Result<Writer, AllocError>
    ensures before { IfOk result (λ writer. writer.before ≡ []) }
    ensures tokens { IfOk result (λ writer. writer.tokens ≡ begin_object ∷ spec.lane_members phase.now lane) }
{
    let mut writer = begin(alloc)?;
    text_member(&mut writer, "ph", phase)?;
    number_member(&mut writer, "pid", lane.group)?;
    number_member(&mut writer, "tid", lane.number)?;
    Ok(writer)
}

/// Writes a member whose value is a name, as bytes.
fn name_member(alloc: Global, writer: &mut Writer, name: &[u8]) -> Result<(), AllocError>
    ensures before { writer.new.before ≡ writer.old.before }
    ensures tokens { OnOk result (writer.new.tokens ≡ writer.old.tokens ++ spec.name_member name.now) }
{
    let text = String::from_utf8_lossy(alloc, name)?;
    text_member(writer, "name", &text)
}

/// Appends a slice: on this track, from a time to a later one.
pub fn append_slice(
    alloc: Global,
    lane: Lane,
    span: (u64, u64),
    name: &[u8],
    out: &mut Vec<u8>,
) -> Result<(), AllocError>
    ensures { OnOk result (out.new.items ≡ out.old.items ++ spec.slice_text lane span.0 span.1 name.now) }
{
    let (from, to) = span;
    let mut writer = begin_entry(alloc, "X", lane)?;
    number_member(&mut writer, "ts", from)?;
    number_member(&mut writer, "dur", to.saturating_sub(from))?;
    name_member(alloc, &mut writer, name)?;
    append_object(writer, out)
}

/// Appends what happened at a time, on this track.
pub fn append_instant(
    alloc: Global,
    lane: Lane,
    time: u64,
    name: &[u8],
    out: &mut Vec<u8>,
) -> Result<(), AllocError>
    ensures { OnOk result (out.new.items ≡ out.old.items ++ spec.instant_text lane time name.now) }
{
    let mut writer = begin_entry(alloc, "i", lane)?;
    number_member(&mut writer, "ts", time)?;
    text_member(&mut writer, "s", "t")?;
    name_member(alloc, &mut writer, name)?;
    append_object(writer, out)
}

/// An end of an arrow.
#[derive(Clone, Copy)]
pub struct FlowPoint<'a> {
    /// The track that the arrow leaves or reaches.
    pub lane: Lane,
    pub time: u64,
    /// The number of the arrow.
    pub number: u64,
    /// What the arrow says.
    pub word: &'a str,
}

/// Appends where an arrow leaves a track.
pub fn append_flow_start(
    alloc: Global,
    point: FlowPoint<'_>,
    out: &mut Vec<u8>,
) -> Result<(), AllocError>
    ensures { OnOk result (out.new.items ≡ out.old.items
        ++ spec.flow_start_text point.entry.lane point.entry.time point.entry.number point.entry.word.now) }
{
    let mut writer = begin_entry(alloc, "s", point.lane)?;
    number_member(&mut writer, "ts", point.time)?;
    number_member(&mut writer, "id", point.number)?;
    text_member(&mut writer, "cat", "flow")?;
    text_member(&mut writer, "name", point.word)?;
    append_object(writer, out)
}

/// Appends where an arrow reaches a track.
pub fn append_flow_end(
    alloc: Global,
    point: FlowPoint<'_>,
    out: &mut Vec<u8>,
) -> Result<(), AllocError>
    ensures { OnOk result (out.new.items ≡ out.old.items
        ++ spec.flow_end_text point.entry.lane point.entry.time point.entry.number point.entry.word.now) }
{
    let mut writer = begin_entry(alloc, "f", point.lane)?;
    text_member(&mut writer, "bp", "e")?;
    number_member(&mut writer, "ts", point.time)?;
    number_member(&mut writer, "id", point.number)?;
    text_member(&mut writer, "cat", "flow")?;
    text_member(&mut writer, "name", point.word)?;
    append_object(writer, out)
}

/// Appends the name of a track, or of its group: `thread_name` or `process_name` says which.
pub fn append_title(
    alloc: Global,
    lane: Lane,
    what: &str,
    name: &[u8],
    out: &mut Vec<u8>,
) -> Result<(), AllocError>
    ensures { OnOk result (out.new.items ≡ out.old.items ++ spec.title_text lane what.now name.now) }
{
    let mut writer = begin_entry(alloc, "M", lane)?;
    text_member(&mut writer, "name", what)?;
    writer.key("args")?;
    writer.begin_object()?;
    name_member(alloc, &mut writer, name)?;
    writer.end_object()?;
    append_object(writer, out)
}
