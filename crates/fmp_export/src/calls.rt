//! Service calls of a text in C.
ghost use Rattle.std.specs.Prelude.{◌≡◌, ◌++◌, true, drop, map, take, OnOk};
ghost use Rattle.std.specs.Option.{option_copied};
ghost use Rattle.fmp_base.specs.Services.{out_place};
ghost use Rattle.fmp_base.specs.Systems.{found};
ghost use Rattle.fmp_tasklang.specs.Views.{call_view};
ghost use Rattle.fmp_export.specs.declared.pieces.Risk.TheVariants as risk;
ghost use Rattle.fmp_export.specs.Pieces.{piece_view};
ghost use Rattle.fmp_export.specs.Sources.{source_view};
ghost use Rattle.fmp_export.specs.Statements as spec;
ghost use Rattle.fmp_export.specs.Statements.{c_call};

use crate::expressions::expressions;
use crate::pieces::{Piece, Risk, joint_risk, matters};
use crate::source::LexedText;
use crate::text::{append, append_count, inner_margin};
use crate::words::append_name;
use fmp_base::Service;
use fmp_tasklang::{ServiceCall, Word};
use std::alloc::{AllocError, Global};

/// Whether the order of these evaluations can be seen.
fn any_matters(pieces: &[Piece]) -> bool
    ensures { result ≡ spec.any_matters risk.Safe (map piece_view pieces.now) }
{
    let mut risk = Risk::Safe;
    for piece in pieces {
        if matters(risk, piece.risk) {
            return true;
        }
        risk = joint_risk(risk, piece.risk);
    }
    false
}

/// Appends the variable of the value at a place.
fn append_value_name(place: usize, out: &mut Vec<u8>) -> Result<(), AllocError>
    ensures { OnOk result (out.new.items ≡ out.old.items ++ spec.value_name place) }
{
    append(b"fmp_value_", out)?;
    append_count(place, out)
}

/// Appends the declaration of the variable of the value at a place.
#[tactic(auto, unfolding(crate::specs::Statements::c_value))]
fn append_value(
    margin: &[u8],
    place: usize,
    piece: &Piece,
    out: &mut Vec<u8>,
) -> Result<(), AllocError>
    ensures { OnOk result (out.new.items ≡ out.old.items
        ++ spec.c_value margin.now place (piece_view piece.now)) }
{
    append(margin, out)?;
    append(b"int32_t ", out)?;
    append_value_name(place, out)?;
    append(b" = ", out)?;
    append(&piece.text, out)?;
    append(b";\n", out)
}

/// Appends the declarations of the variables of all values.
fn append_values(margin: &[u8], pieces: &[Piece], out: &mut Vec<u8>) -> Result<(), AllocError>
    ensures { OnOk result (out.new.items ≡ out.old.items
        ++ spec.c_values margin.now 0 (map piece_view pieces.now)) }
{
    for place in 0..pieces.len() {
        append_value(margin, place, &pieces[place], out)?;
    }
    Ok(())
}

/// Appends what stands before what is passed at a place: a comma, if others are before it.
fn append_comma(place: usize, out: &mut Vec<u8>) -> Result<(), AllocError>
    ensures { OnOk result (out.new.items ≡ out.old.items ++ spec.c_comma place) }
{
    if place == 0 {
        Ok(())
    } else {
        append(b", ", out)
    }
}

/// Appends the argument at a place: its text, or the variable of its value.
#[tactic(auto, unfolding(crate::specs::Statements::c_passed))]
fn append_passed(
    ordered: bool,
    place: usize,
    piece: &Piece,
    out: &mut Vec<u8>,
) -> Result<(), AllocError>
    ensures { OnOk result (out.new.items ≡ out.old.items
        ++ spec.c_passed ordered place (piece_view piece.now)) }
{
    append_comma(place, out)?;
    if ordered {
        append_value_name(place, out)
    } else {
        append(&piece.text, out)
    }
}

/// Appends the arguments from a place on.
fn append_listed(
    ordered: bool,
    from: usize,
    pieces: &[Piece],
    out: &mut Vec<u8>,
) -> Result<(), AllocError>
    ensures { OnOk result (out.new.items ≡ out.old.items
        ++ spec.c_listed ordered from (map piece_view (drop from pieces.now))) }
{
    for place in from..pieces.len() {
        append_passed(ordered, place, &pieces[place], out)?;
    }
    Ok(())
}

/// Appends the arguments before the out place.
#[tactic(auto, using(crate::proofs::Passed::taken))]
fn append_before(
    ordered: bool,
    count: usize,
    pieces: &[Piece],
    out: &mut Vec<u8>,
) -> Result<(), AllocError>
    ensures { OnOk result (out.new.items ≡ out.old.items
        ++ spec.c_listed ordered 0 (take count (map piece_view pieces.now))) }
{
    append_listed(ordered, 0, &pieces[..count.min(pieces.len())], out)
}

/// Appends the arguments after the out place.
#[tactic(auto, using(crate::proofs::Passed::dropped))]
fn append_after(
    ordered: bool,
    from: usize,
    pieces: &[Piece],
    out: &mut Vec<u8>,
) -> Result<(), AllocError>
    ensures { OnOk result (out.new.items ≡ out.old.items
        ++ spec.c_listed ordered from (drop from (map piece_view pieces.now))) }
{
    append_listed(ordered, from, pieces, out)
}

/// Appends the out place, before which some arguments stand.
fn append_out(place: usize, word: &Word, out: &mut Vec<u8>) -> Result<(), AllocError>
    ensures { OnOk result (out.new.items ≡ out.old.items ++ spec.c_out place word.now) }
{
    append_comma(place, out)?;
    append(b"&", out)?;
    append_name(&word.name, out)
}

/// Appends the arguments, and the out place with some of them before it.
fn append_arguments(
    ordered: bool,
    place: usize,
    word: Option<&Word>,
    pieces: &[Piece],
    out: &mut Vec<u8>,
) -> Result<(), AllocError>
    ensures { OnOk result (out.new.items ≡ out.old.items
        ++ spec.c_arguments ordered place (option_copied word.entry) (map piece_view pieces.now)) }
{
    match word {
        None => append_listed(ordered, 0, pieces, out),
        Some(word) => {
            append_before(ordered, place, pieces, out)?;
            append_out(place, word, out)?;
            append_after(ordered, place, pieces, out)
        }
    }
}

/// Appends the variable that gets the code of a call, if there is one.
fn append_result(word: Option<&Word>, out: &mut Vec<u8>) -> Result<(), AllocError>
    ensures { OnOk result (out.new.items ≡ out.old.items ++ spec.c_result (option_copied word.entry)) }
{
    match word {
        None => Ok(()),
        Some(word) => {
            append_name(&word.name, out)?;
            append(b" = ", out)
        }
    }
}

/// How many arguments stand before the out place of a service; 0 if it has none.
fn before_out(service: Service) -> usize
    ensures { result ≡ found 0 (out_place service) }
{
    match service.out_place() {
        Some(place) => usize::from(place),
        None => 0,
    }
}

/// Appends the call of a service.
#[tactic(auto, unfolding(crate::specs::Statements::c_invocation))]
fn append_invocation(
    ordered: bool,
    call: &ServiceCall,
    pieces: &[Piece],
    out: &mut Vec<u8>,
) -> Result<(), AllocError>
    ensures { OnOk result (out.new.items ≡ out.old.items
        ++ spec.c_invocation ordered (call_view call.now) (map piece_view pieces.now)) }
{
    append_result(call.receivers.result(), out)?;
    append(call.service.name().as_bytes(), out)?;
    append(b"(", out)?;
    let place = before_out(call.service);
    append_arguments(ordered, place, call.receivers.out(), pieces, out)?;
    append(b");", out)
}

/// Appends a call whose arguments are evaluated before it, one after another.
fn append_ordered(
    alloc: Global,
    margin: &[u8],
    call: &ServiceCall,
    pieces: &[Piece],
    out: &mut Vec<u8>,
) -> Result<(), AllocError>
    ensures { OnOk result (out.new.items ≡ out.old.items
        ++ spec.c_call_by true margin.now (call_view call.now) (map piece_view pieces.now)) }
{
    append(b"{\n", out)?;
    let inner = inner_margin(alloc, margin)?;
    append_values(&inner, pieces, out)?;
    append(&inner, out)?;
    append_invocation(true, call, pieces, out)?;
    append(b"\n", out)?;
    append(margin, out)?;
    append(b"}", out)
}

/// Appends a call with these arguments.
fn append_call_of(
    alloc: Global,
    margin: &[u8],
    call: &ServiceCall,
    pieces: &[Piece],
    out: &mut Vec<u8>,
) -> Result<(), AllocError>
    ensures { OnOk result (out.new.items ≡ out.old.items
        ++ spec.c_call_of margin.now (call_view call.now) (map piece_view pieces.now)) }
{
    if any_matters(pieces) {
        append_ordered(alloc, margin, call, pieces, out)
    } else {
        append_invocation(false, call, pieces, out)
    }
}

/// Appends a service call at a place, without what ends its line.
#[tactic(auto, unfolding(crate::specs::Statements::c_call))]
pub fn append_call(
    source: &LexedText<'_>,
    margin: &[u8],
    at: usize,
    call: &ServiceCall,
    out: &mut Vec<u8>,
) -> Result<(), AllocError>
    ensures { OnOk result (out.new.items ≡ out.old.items
        ++ c_call (source_view source.now) margin.now at (call_view call.now)) }
{
    let pieces = expressions(source, at, call.arguments.as_slice())?;
    append_call_of(source.alloc, margin, call, &pieces, out)
}
