//! Where what a name stands for is made, and where it is used.
ghost use Rattle.std.specs.Prelude.{◌≡◌, ◌-◌, ◌++◌, List, IfOk, MatchOption, OnOk};
ghost use Rattle.std.specs.Bool.{MatchBool};
ghost use Rattle.json.specs.Token as json;
ghost use Rattle.fmp_server.specs.declared.positions.TextRange.{TextRange};
ghost use Rattle.fmp_server.specs.Documents.{AreCut, text_in};
ghost use Rattle.fmp_server.specs.Messages as message;
ghost use Rattle.fmp_server.specs.Navigation as spec;
ghost use Rattle.fmp_server.specs.Navigation.{AreAllLocations, AreLocations, AreLocationsIn, HasNoName, IsNamed};
ghost use Rattle.fmp_server.specs.Navigation.{IsPositionsAnswer};
ghost use Rattle.fmp_server.specs.Positions.{IsRange};

use crate::documents::{CutTexts, OpenTexts};
use crate::messages::{RequestId, begin_answer, finish, null_answer};
use crate::positions::{Position, offset_at, range_of};
use crate::roles::{NamePosition, Named, named_at, positions_in, word_at};
use crate::writing::write_location;
use fmp_lex::TextFile;
use json::Writer;
use std::alloc::{AllocError, Global};

/// Which positions of a name are asked for.
#[derive(Clone, Copy)]
pub enum WantedPositions {
    /// Where it is made or declared.
    Declarations,
    /// All others.
    Uses,
    All,
}

impl WantedPositions {
    /// Whether a position is asked for.
    fn wants(self, declares: bool) -> bool
        ensures { result ≡ spec.wants self declares }
    {
        match self {
            WantedPositions::Declarations => declares,
            WantedPositions::Uses => !declares,
            WantedPositions::All => true,
        }
    }
}

/// What the name at a position of the text that is meant stands for.
pub fn named_in(cut: &CutTexts<'_>, position: Position) -> Option<Named>
    requires { AreCut cut.now.open cut.now }
    ensures { MatchOption result (HasNoName cut.now position) (IsNamed cut.now position) }
{
    let file = cut.open.file;
    let tokens = cut.tokens(file);
    let at = word_at(tokens, offset_at(cut.open.bytes_of(file), position))?;
    named_at(tokens, file, at)
}

/// Writes a position of a text as a location, if it is asked for.
fn write_wanted(
    writer: &mut Writer,
    uri: &str,
    text: &[u8],
    one: NamePosition,
    wanted: WantedPositions,
) -> Result<(), AllocError>
    ensures before { writer.new.before ≡ writer.old.before }
    ensures tokens { OnOk result (MatchBool (spec.wants wanted one.declares)
        ((r : TextRange) × IsRange text.now (one.position.line - 1) one.position.start one.position.end r
        × (writer.new.tokens ≡ writer.old.tokens ++ message.location uri.now r))
        (writer.new.tokens ≡ writer.old.tokens)) }
{
    if wanted.wants(one.declares) {
        write_location(writer, uri, range_of(text, one.position))
    } else {
        Ok(())
    }
}

/// Writes those of these positions of a text that are asked for.
fn write_locations(
    writer: &mut Writer,
    uri: &str,
    text: &[u8],
    positions: &[NamePosition],
    wanted: WantedPositions,
) -> Result<(), AllocError>
    ensures before { writer.new.before ≡ writer.old.before }
    ensures tokens { OnOk result ((out : List json.Token)
        × AreLocations uri.now text.now (spec.wanted_of wanted positions.now) out
        × (writer.new.tokens ≡ writer.old.tokens ++ out)) }
{
    for one in positions {
        write_wanted(writer, uri, text, *one, wanted)?;
    }
    Ok(())
}

/// Writes the positions of a name in one text.
fn write_positions(
    alloc: Global,
    writer: &mut Writer,
    cut: &CutTexts<'_>,
    file: TextFile,
    named: Named,
    wanted: WantedPositions,
) -> Result<(), AllocError>
    ensures before { writer.new.before ≡ writer.old.before }
    ensures tokens { OnOk result ((out : List json.Token)
        × AreLocationsIn cut.now file named wanted (text_in cut.now.open file) out
        × (writer.new.tokens ≡ writer.old.tokens ++ out)) }
{
    let Some(document) = cut.open.of(file) else {
        return Ok(());
    };
    let positions = positions_in(alloc, cut.tokens(file), file, named)?;
    let text = document.text.as_bytes();
    write_locations(writer, document.uri.as_str(), text, &positions, wanted)
}

/// Writes those positions of a name that are asked for, of both texts.
fn write_all_positions(
    alloc: Global,
    writer: &mut Writer,
    cut: &CutTexts<'_>,
    named: Named,
    wanted: WantedPositions,
) -> Result<(), AllocError>
    ensures before { writer.new.before ≡ writer.old.before }
    ensures tokens { OnOk result ((out : List json.Token) × AreAllLocations cut.now named wanted out
        × (writer.new.tokens ≡ writer.old.tokens ++ out)) }
{
    writer.begin_array()?;
    write_positions(alloc, writer, cut, TextFile::Configuration, named, wanted)?;
    write_positions(alloc, writer, cut, TextFile::Source, named, wanted)?;
    writer.end_array()
}

/// The answer with those positions of a name that are asked for, of both texts.
fn answer(
    alloc: Global,
    cut: &CutTexts<'_>,
    id: RequestId<'_>,
    named: Named,
    wanted: WantedPositions,
) -> Result<Vec<u8>, AllocError>
    ensures { IfOk result (λ bytes. (out : List json.Token) × AreAllLocations cut.now named wanted out
        × (bytes.items ≡ message.answer id.entry out)) }
{
    let mut writer = begin_answer(alloc, id)?;
    write_all_positions(alloc, &mut writer, cut, named, wanted)?;
    finish(writer)
}

/// The answer with those positions of the name at a position that are asked for, of both texts. `AllocError` if memory
/// runs out.
pub fn positions(
    alloc: Global,
    open: OpenTexts<'_>,
    id: RequestId<'_>,
    position: Position,
    wanted: WantedPositions,
) -> Result<Vec<u8>, AllocError>
    ensures { IfOk result (λ bytes. IsPositionsAnswer «open».entry id.entry position wanted bytes.items) }
{
    let cut = CutTexts::new(alloc, open)?;
    match named_in(&cut, position) {
        Some(named) => answer(alloc, &cut, id, named, wanted),
        None => null_answer(alloc, id),
    }
}
