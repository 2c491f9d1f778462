//! The fields of the states of a system, and the pieces by which they are read.
ghost use Rattle.std.specs.Prelude.{◌≡◌, IfOk, true};
ghost use Rattle.fmp_fields.specs.Pieces.{fields_of_pieces};

use crate::field::{What, is_same};
use crate::piece::{Piece, guessed_pieces};
use std::alloc::{AllocError, Global};
use std::marker::Model;

/// The fields of the states of a system in order, and the pieces that they are.
#[derive(Drop)]
pub struct FieldPlan {
    list: Vec<What>,
    parts: Vec<Piece>,
}

impl Model for FieldPlan {
    ghost use Rattle.std.specs.Prelude.{◌≡◌};
    ghost use Rattle.fmp_fields.specs.Pieces.{FieldList, fields_of_pieces};

    ghost Value = { FieldList };

    ghost view = { λ f. record { items = f.list.items } };

    ghost invariant = { λ f. fields_of_pieces f.parts.items ≡ f.list.items };
}

/// Each field as a piece of its own. `AllocError` if memory runs out.
fn single_pieces(alloc: Global, fields: &[What]) -> Result<Vec<Piece>, AllocError>
    ensures { IfOk result (λ pieces. fields_of_pieces pieces.items ≡ fields.now) }
{
    let mut pieces = Vec::new(alloc);
    for at in 0..fields.len() {
        pieces.push(Piece::Single(fields[at]))?;
    }
    Ok(pieces)
}

/// The fields of pieces, one after the other. `AllocError` if memory runs out.
fn fields_in(alloc: Global, pieces: &[Piece]) -> Result<Vec<What>, AllocError>
    ensures { IfOk result (λ fields. fields.items ≡ fields_of_pieces pieces.now) }
{
    let mut fields = Vec::new(alloc);
    for at in 0..pieces.len() {
        pieces[at].push_fields(&mut fields)?;
    }
    Ok(fields)
}

/// Whether two lists of fields are the same.
fn are_same(a: &[What], b: &[What]) -> bool
    ensures { result ≡ true → a.now ≡ b.now }
{
    if a.len() != b.len() {
        return false;
    }
    for k in 0..a.len() {
        if !is_same(a[k], b[k]) {
            return false;
        }
    }
    true
}

/// Whether these are the fields of pieces. `AllocError` if memory runs out.
fn are_in(alloc: Global, pieces: &[Piece], fields: &[What]) -> Result<bool, AllocError>
    ensures { IfOk result (λ are. are ≡ true → fields_of_pieces pieces.now ≡ fields.now) }
{
    let all = fields_in(alloc, pieces)?;
    Ok(are_same(all.as_slice(), fields))
}

/// The pieces that fields are. `AllocError` if memory runs out.
fn pieces_of(alloc: Global, fields: &[What]) -> Result<Vec<Piece>, AllocError>
    ensures { IfOk result (λ pieces. fields_of_pieces pieces.items ≡ fields.now) }
{
    let pieces = guessed_pieces(alloc, fields)?;
    if are_in(alloc, &pieces, fields)? {
        Ok(pieces)
    } else {
        single_pieces(alloc, fields)
    }
}

impl FieldPlan {
    /// These fields, in order. `AllocError` if memory runs out.
    pub fn new(alloc: Global, list: Vec<What>) -> Result<FieldPlan, AllocError>
        ensures { IfOk result (λ fields. fields.items ≡ list.items) }
    {
        let parts = pieces_of(alloc, &list)?;
        Ok(FieldPlan { list, parts })
    }

    /// The fields, in order.
    pub fn list(&self) -> &[What]
        ensures { result.now ≡ self.now.items }
    {
        &self.list
    }

    /// The pieces that the fields are, in order.
    pub fn pieces(&self) -> &[Piece]
        ensures { fields_of_pieces result.now ≡ self.now.items }
    {
        &self.parts
    }
}
