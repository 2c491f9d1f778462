//! Expressions in C: the text of each, which faults its evaluation may end with, whether an operator stands outermost,
//! and where the task text goes on after its numbers.
ghost use Rattle.std.specs.Prelude.{◌≡◌, ◌++◌, IfOk, OnOk};
ghost use Rattle.std.specs.Option.{option_map};
ghost use Rattle.fmp_export.specs.Sources.{source_view};
ghost use Rattle.fmp_export.specs.Pieces as spec;
ghost use Rattle.fmp_export.specs.Pieces.{piece_view, operand, number_piece, name_piece, element_piece, unary_piece};
ghost use Rattle.fmp_export.specs.Pieces.{binary_piece, both_piece, either_piece};
ghost use Rattle.fmp_export.specs.Words.{c_name};

use crate::source::{Landmark, LexedText, before, from, landmark_from, place_after};
use crate::text::{append, append_signed};
use crate::words::append_name;
use fmp_base::{BinaryOperator, Name, UnaryOperator};
use std::alloc::{AllocError, Global};

/// The faults that an evaluation may end with.
#[derive(Clone, Copy)]
pub enum Risk {
    /// None.
    Safe,
    /// Overflow alone.
    Overflow,
    /// A bad index alone.
    Index,
    /// Several, or a division.
    Several,
}

/// What stands outermost in an expression.
#[derive(Clone, Copy)]
pub enum ExpressionShape {
    /// A number without a sign.
    Number,
    /// A name, or a call of a function.
    Closed,
    /// An operator: parentheses stand around the expression where it is an operand.
    Open,
}

/// An expression in C.
#[derive(Drop)]
pub struct Piece {
    /// Its text.
    pub text: Vec<u8>,
    /// The faults that its evaluation may end with.
    pub risk: Risk,
    /// What stands outermost in it.
    pub shape: ExpressionShape,
    /// The place after its last number in the list of tokens; if it has none, where it was begun.
    pub next: usize,
}

/// The faults of two evaluations.
pub fn joint_risk(a: Risk, b: Risk) -> Risk
    ensures { result ≡ spec.joint_risk a b }
{
    match (a, b) {
        (Risk::Safe, b) => b,
        (a, Risk::Safe) => a,
        (Risk::Overflow, Risk::Overflow) => Risk::Overflow,
        (Risk::Index, Risk::Index) => Risk::Index,
        _ => Risk::Several,
    }
}

/// Whether the order of two evaluations can be seen: both may end the body, and not both by the same fault.
pub fn matters(a: Risk, b: Risk) -> bool
    ensures { result ≡ spec.matters a b }
{
    match (a, b) {
        (Risk::Safe, _) => false,
        (_, Risk::Safe) => false,
        (Risk::Overflow, Risk::Overflow) => false,
        (Risk::Index, Risk::Index) => false,
        _ => true,
    }
}

/// Appends an expression as the operand of an operator.
fn append_operand(piece: &Piece, out: &mut Vec<u8>) -> Result<(), AllocError>
    ensures { OnOk result (out.new.items ≡ out.old.items ++ operand (piece_view piece.now)) }
{
    match piece.shape {
        ExpressionShape::Open => {
            append(b"(", out)?;
            append(&piece.text, out)?;
            append(b")", out)
        }
        ExpressionShape::Closed => append(&piece.text, out),
        ExpressionShape::Number => append(&piece.text, out),
    }
}

/// Appends a number as it is written at the next number or constant from a place on, or by its value if there is none.
#[tactic(auto, unfolding(crate::specs::Pieces::number_text))]
pub fn append_number(
    source: &LexedText<'_>,
    at: usize,
    number: i32,
    out: &mut Vec<u8>,
) -> Result<(), AllocError>
    ensures { OnOk result (out.new.items
        ≡ out.old.items ++ spec.number_text (source_view source.now) at number) }
{
    match landmark_from(Landmark::Number, source, at) {
        Some(token) => append(
            from(
                before(source.text, token.end as usize),
                token.start as usize,
            ),
            out,
        ),
        None => append_signed(number, out),
    }
}

/// The shape of a number, or of the value of a constant.
fn number_shape(number: i32) -> ExpressionShape
    ensures { result ≡ spec.number_shape number }
{
    if number < 0 {
        ExpressionShape::Closed
    } else {
        ExpressionShape::Number
    }
}

/// A number, or a constant, which is the next one from a place on.
pub fn number(source: &LexedText<'_>, at: usize, number: i32) -> Result<Piece, AllocError>
    ensures { IfOk result (λ p. piece_view p ≡ number_piece (source_view source.now) at number) }
{
    let mut text = Vec::new(source.alloc);
    append_number(source, at, number, &mut text)?;
    Ok(Piece {
        text,
        risk: Risk::Safe,
        shape: number_shape(number),
        next: place_after(Landmark::Number, source, at),
    })
}

/// A variable or an object.
pub fn name(alloc: Global, at: usize, name: &Name) -> Result<Piece, AllocError>
    ensures { IfOk result (λ p. piece_view p ≡ name_piece at (c_name name.now)) }
{
    let mut text = Vec::new(alloc);
    append_name(name, &mut text)?;
    Ok(Piece {
        text,
        risk: Risk::Safe,
        shape: ExpressionShape::Closed,
        next: at,
    })
}

/// An element of an array.
#[tactic(auto, unfolding(crate::specs::Pieces::element_piece))]
pub fn element(alloc: Global, array: &Name, index: &Piece) -> Result<Piece, AllocError>
    ensures { IfOk result (λ p. piece_view p ≡ element_piece (c_name array.now) (piece_view index.now)) }
{
    let mut text = Vec::new(alloc);
    append(b"fmp_at(", &mut text)?;
    append_name(array, &mut text)?;
    append(b", ", &mut text)?;
    append(&index.text, &mut text)?;
    append(b")", &mut text)?;
    Ok(Piece {
        text,
        risk: joint_risk(index.risk, Risk::Index),
        shape: ExpressionShape::Closed,
        next: index.next,
    })
}

/// Minus: of a number it is one in C too.
fn negated(alloc: Global, piece: &Piece) -> Result<Piece, AllocError>
    ensures { IfOk result (λ p. piece_view p ≡ spec.negated piece.now.shape (piece_view piece.now)) }
{
    let mut text = Vec::new(alloc);
    if let ExpressionShape::Number = piece.shape {
        append(b"-", &mut text)?;
        append(&piece.text, &mut text)?;
        return Ok(Piece {
            text,
            risk: piece.risk,
            shape: ExpressionShape::Closed,
            next: piece.next,
        });
    }
    append(b"fmp_neg(", &mut text)?;
    append(&piece.text, &mut text)?;
    append(b")", &mut text)?;
    Ok(Piece {
        text,
        risk: joint_risk(piece.risk, Risk::Overflow),
        shape: ExpressionShape::Closed,
        next: piece.next,
    })
}

/// An operator of C before its operand.
fn prefixed(alloc: Global, sign: &[u8], piece: &Piece) -> Result<Piece, AllocError>
    ensures { IfOk result (λ p. piece_view p ≡ spec.prefixed sign.now (piece_view piece.now)) }
{
    let mut text = Vec::new(alloc);
    append(sign, &mut text)?;
    append_operand(piece, &mut text)?;
    Ok(Piece {
        text,
        risk: piece.risk,
        shape: ExpressionShape::Open,
        next: piece.next,
    })
}

/// An operator before its operand.
#[tactic(auto, unfolding(crate::specs::Pieces::unary_piece))]
pub fn unary(alloc: Global, operator: UnaryOperator, piece: &Piece) -> Result<Piece, AllocError>
    ensures { IfOk result (λ p. piece_view p ≡ unary_piece operator (piece_view piece.now)) }
{
    match operator {
        UnaryOperator::Negate => negated(alloc, piece),
        UnaryOperator::Not => prefixed(alloc, b"!", piece),
        UnaryOperator::Complement => prefixed(alloc, b"~", piece),
    }
}

/// The function of an operator.
fn function_of(operator: BinaryOperator) -> &'static [u8]
    ensures { result.now ≡ spec.function_of operator }
{
    match operator {
        BinaryOperator::Add => b"fmp_add",
        BinaryOperator::Subtract => b"fmp_sub",
        BinaryOperator::Multiply => b"fmp_mul",
        BinaryOperator::Divide => b"fmp_div",
        BinaryOperator::Remainder => b"fmp_rem",
        BinaryOperator::And => b"fmp_and",
        BinaryOperator::Or => b"fmp_or",
        BinaryOperator::ExclusiveOr => b"fmp_xor",
        BinaryOperator::Equal => b"fmp_equal",
        BinaryOperator::NotEqual => b"fmp_not_equal",
        BinaryOperator::Less => b"fmp_less",
        BinaryOperator::LessOrEqual => b"fmp_less_or_equal",
        BinaryOperator::Greater => b"fmp_greater",
        BinaryOperator::GreaterOrEqual => b"fmp_greater_or_equal",
    }
}

/// The operator of C that does the same, if there is one.
fn sign_of(operator: BinaryOperator) -> Option<&'static [u8]>
    ensures { option_map (λ s. s.now) result ≡ spec.sign_of operator }
{
    match operator {
        BinaryOperator::Add
        | BinaryOperator::Subtract
        | BinaryOperator::Multiply
        | BinaryOperator::Divide
        | BinaryOperator::Remainder => None,
        BinaryOperator::And => Some(b" & "),
        BinaryOperator::Or => Some(b" | "),
        BinaryOperator::ExclusiveOr => Some(b" ^ "),
        BinaryOperator::Equal => Some(b" == "),
        BinaryOperator::NotEqual => Some(b" != "),
        BinaryOperator::Less => Some(b" < "),
        BinaryOperator::LessOrEqual => Some(b" <= "),
        BinaryOperator::Greater => Some(b" > "),
        BinaryOperator::GreaterOrEqual => Some(b" >= "),
    }
}

/// The faults of an operator itself.
fn risk_of(operator: BinaryOperator) -> Risk
    ensures { result ≡ spec.risk_of operator }
{
    match operator {
        BinaryOperator::Add | BinaryOperator::Subtract | BinaryOperator::Multiply => Risk::Overflow,
        BinaryOperator::Divide | BinaryOperator::Remainder => Risk::Several,
        _ => Risk::Safe,
    }
}

/// An operator of C between its operands.
fn infixed(alloc: Global, sign: &[u8], a: &Piece, b: &Piece) -> Result<Piece, AllocError>
    ensures { IfOk result (λ p. piece_view p ≡ spec.infixed sign.now (piece_view a.now) (piece_view b.now)) }
{
    let mut text = Vec::new(alloc);
    append_operand(a, &mut text)?;
    append(sign, &mut text)?;
    append_operand(b, &mut text)?;
    Ok(Piece {
        text,
        risk: joint_risk(a.risk, b.risk),
        shape: ExpressionShape::Open,
        next: b.next,
    })
}

/// Appends the arguments of a function, and the `)` after them.
fn append_both(a: &Piece, b: &Piece, out: &mut Vec<u8>) -> Result<(), AllocError>
    ensures { OnOk result (out.new.items ≡ out.old.items ++ spec.arguments_of (piece_view a.now) (piece_view b.now)) }
{
    append(&a.text, out)?;
    append(b", ", out)?;
    append(&b.text, out)?;
    append(b")", out)
}

/// Appends what stands before the arguments of the function of an operator.
fn append_front(ordered: bool, function: &[u8], out: &mut Vec<u8>) -> Result<(), AllocError>
    ensures { OnOk result (out.new.items ≡ out.old.items ++ spec.front_of ordered function.now) }
{
    if ordered {
        append(b"fmp_ordered(", out)?;
        append(function, out)?;
        return append(b", ", out);
    }
    append(function, out)?;
    append(b"(", out)
}

/// The function of an operator, called.
fn applied(
    alloc: Global,
    ordered: bool,
    operator: BinaryOperator,
    a: &Piece,
    b: &Piece,
) -> Result<Piece, AllocError>
    ensures { IfOk result (λ p. piece_view p
        ≡ spec.applied ordered operator (piece_view a.now) (piece_view b.now)) }
{
    let mut text = Vec::new(alloc);
    append_front(ordered, function_of(operator), &mut text)?;
    append_both(a, b, &mut text)?;
    Ok(Piece {
        text,
        risk: joint_risk(joint_risk(a.risk, b.risk), risk_of(operator)),
        shape: ExpressionShape::Closed,
        next: b.next,
    })
}

/// An operator between its operands. C leaves open which of them is evaluated first, and `fmp_ordered` does not.
#[tactic(auto, unfolding(crate::specs::Pieces::binary_piece))]
pub fn binary(
    alloc: Global,
    operator: BinaryOperator,
    a: &Piece,
    b: &Piece,
) -> Result<Piece, AllocError>
    ensures { IfOk result (λ p. piece_view p ≡ binary_piece operator (piece_view a.now) (piece_view b.now)) }
{
    if matters(a.risk, b.risk) {
        return applied(alloc, true, operator, a, b);
    }
    match sign_of(operator) {
        None => applied(alloc, false, operator, a, b),
        Some(sign) => infixed(alloc, sign, a, b),
    }
}

/// `&&`, which C evaluates as the text does.
#[tactic(auto, unfolding(crate::specs::Pieces::both_piece))]
pub fn both(alloc: Global, a: &Piece, b: &Piece) -> Result<Piece, AllocError>
    ensures { IfOk result (λ p. piece_view p ≡ both_piece (piece_view a.now) (piece_view b.now)) }
{
    infixed(alloc, b" && ", a, b)
}

/// `||`, which C evaluates as the text does.
#[tactic(auto, unfolding(crate::specs::Pieces::either_piece))]
pub fn either(alloc: Global, a: &Piece, b: &Piece) -> Result<Piece, AllocError>
    ensures { IfOk result (λ p. piece_view p ≡ either_piece (piece_view a.now) (piece_view b.now)) }
{
    infixed(alloc, b" || ", a, b)
}
