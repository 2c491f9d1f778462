//! What stands in messages: objects of JSON, positions and ranges.
ghost use Rattle.std.specs.Prelude.{◌≡◌, ◌++◌, List, OnOk};
ghost use Rattle.fmp_server.specs.declared.positions.TextRange.{TextRange};
ghost use Rattle.fmp_server.specs.Messages as spec;
ghost use Rattle.fmp_server.specs.Positions.{AreRanges};
ghost use Rattle.fmp_server.specs.Roles.{positions_of};

use crate::positions::{Position, TextRange, range_of};
use crate::roles::NamePosition;
use fmp_json::{number_member, text_member};
use json::Writer;
use std::alloc::AllocError;

/// Begins a member whose value is an object.
pub fn begin_member(writer: &mut Writer, name: &str) -> Result<(), AllocError>
    ensures before { writer.new.before ≡ writer.old.before }
    ensures tokens { OnOk result (writer.new.tokens ≡ writer.old.tokens ++ spec.member_begin name.now) }
{
    writer.key(name)?;
    writer.begin_object()
}

/// Writes a position.
pub fn write_position(writer: &mut Writer, position: Position) -> Result<(), AllocError>
    ensures before { writer.new.before ≡ writer.old.before }
    ensures tokens { OnOk result (writer.new.tokens ≡ writer.old.tokens ++ spec.position position) }
{
    writer.begin_object()?;
    number_member(writer, "line", position.line)?;
    number_member(writer, "character", position.character)?;
    writer.end_object()
}

/// Writes a range.
pub fn write_range(writer: &mut Writer, range: TextRange) -> Result<(), AllocError>
    ensures before { writer.new.before ≡ writer.old.before }
    ensures tokens { OnOk result (writer.new.tokens ≡ writer.old.tokens ++ spec.range range) }
{
    writer.begin_object()?;
    writer.key("start")?;
    write_position(writer, range.start)?;
    writer.key("end")?;
    write_position(writer, range.end)?;
    writer.end_object()
}

/// Writes a member whose value is a range.
pub fn range_member(writer: &mut Writer, name: &str, range: TextRange) -> Result<(), AllocError>
    ensures before { writer.new.before ≡ writer.old.before }
    ensures tokens { OnOk result (writer.new.tokens ≡ writer.old.tokens ++ spec.range_member name.now range) }
{
    writer.key(name)?;
    write_range(writer, range)
}

/// Writes where something stands: a range of the file of a URI.
pub fn write_location(writer: &mut Writer, uri: &str, range: TextRange) -> Result<(), AllocError>
    ensures before { writer.new.before ≡ writer.old.before }
    ensures tokens { OnOk result (writer.new.tokens ≡ writer.old.tokens ++ spec.location uri.now range) }
{
    writer.begin_object()?;
    text_member(writer, "uri", uri)?;
    range_member(writer, "range", range)?;
    writer.end_object()
}

/// Writes an edit: a text in place of what a range has.
pub fn write_edit(writer: &mut Writer, range: TextRange, text: &str) -> Result<(), AllocError>
    ensures before { writer.new.before ≡ writer.old.before }
    ensures tokens { OnOk result (writer.new.tokens ≡ writer.old.tokens ++ spec.edit range text.now) }
{
    writer.begin_object()?;
    range_member(writer, "range", range)?;
    text_member(writer, "newText", text)?;
    writer.end_object()
}

/// Writes a member of which the key is the URI of a text, and the value are the edits that put a name in place of what
/// stands at these positions of it.
pub fn write_edits(
    writer: &mut Writer,
    uri: &str,
    text: &[u8],
    positions: &[NamePosition],
    name: &str,
) -> Result<(), AllocError>
    ensures before { writer.new.before ≡ writer.old.before }
    ensures tokens { OnOk result ((ranges : List TextRange) × AreRanges text.now (positions_of positions.now) ranges
        × (writer.new.tokens ≡ writer.old.tokens ++ spec.edits uri.now ranges name.now)) }
{
    writer.key(uri)?;
    writer.begin_array()?;
    for one in positions {
        write_edit(writer, range_of(text, one.position), name)?;
    }
    writer.end_array()
}
