//! The syntax tree of a task text.
use crate::argument_list::ArgumentList;
use crate::receivers::Receivers;
use fmp_base::{BinaryOperator, Name, Service, UnaryOperator};

/// A name in a text.
#[derive(Clone, Copy)]
pub struct Word {
    pub name: Name,
    /// The place of its token in the list of tokens.
    pub at: u32,
}

/// An operator between two operands.
#[derive(Clone, Copy)]
pub enum Operator {
    Binary(BinaryOperator),
    /// `&&`
    Both,
    /// `||`
    Either,
}

/// An expression. However many operators it has, the tree is no deeper than its parentheses and unary operators
/// nest, so no recursion over it is deep.
#[derive(Drop)]
#[cycle(expression)]
pub enum Expression {
    /// A number, or the value of a constant.
    Number(i32),
    /// A variable or an object.
    Name(Word),
    /// The element of an array that the value of an expression names, counted from 0. The name lies in a box, so that
    /// the other expressions need no room for it beside their own.
    Element {
        array: Box<Word>,
        index: Box<Expression>,
    },
    /// An operator before its operand.
    Unary {
        operator: UnaryOperator,
        operand: Box<Expression>,
    },
    /// Operands with operators between them, grouped to the left.
    Chain {
        first: Box<Expression>,
        rest: Vec<Link>,
    },
}

/// A further operand of a chain, with the operator before it.
#[derive(Drop)]
#[cycle(expression)]
pub struct Link {
    pub operator: Operator,
    pub operand: Expression,
}

/// A service call.
#[derive(Drop)]
pub struct ServiceCall {
    pub service: Service,
    /// The arguments, without the out place.
    pub arguments: ArgumentList,
    /// The variable at the out place and the one before `=`.
    pub receivers: Receivers,
}

/// A statement.
#[derive(Drop)]
pub enum Statement {
    /// `target = value;`
    Assign {
        target: Word,
        value: Expression,
    },
    /// `array[index] = value;` Both expressions lie in boxes, so that the other statements need no room for them.
    AssignElement {
        array: Word,
        index: Box<Expression>,
        value: Box<Expression>,
    },
    /// A service call, with or without a variable before `=`.
    Call(ServiceCall),
    /// An `if` without an `else`.
    If {
        condition: Expression,
        then: Vec<Statement>,
    },
    /// An `if` with an `else`; an `else if` is one statement in `otherwise`. The condition lies in a box, like the
    /// expressions of `AssignElement`.
    IfElse {
        condition: Box<Expression>,
        then: Vec<Statement>,
        otherwise: Vec<Statement>,
    },
    /// A `while`.
    While {
        condition: Expression,
        body: Vec<Statement>,
    },
    /// `break;`
    Break,
    /// `continue;`
    Continue,
    /// `return;`
    Return,
}

/// What a body is for.
#[derive(Clone, Copy)]
pub enum BodyKind {
    Task,
    /// A cyclic handler or an interrupt handler.
    Handler,
}

/// The number between the brackets of a declaration.
#[derive(Clone, Copy)]
pub struct Length {
    /// How many places the array has, as the text says it. Only 1 to 63 are allowed, which the compiler judges.
    pub places: i32,
    /// The place of its token in the list of tokens.
    pub at: u32,
}

/// A declared variable.
#[derive(Clone, Copy)]
pub struct Declaration {
    pub name: Word,
    /// The length of an array; none for a plain variable.
    pub length: Option<Length>,
}

/// The body of a task or of a handler.
#[derive(Drop)]
pub struct Body {
    pub kind: BodyKind,
    /// The place of the word `task` or `handler` in the list of tokens.
    pub at: u32,
    pub name: Word,
    /// The declared variables, in order.
    pub variables: Vec<Declaration>,
    pub statements: Vec<Statement>,
}

/// The bodies of a text, in order.
#[derive(Drop)]
pub struct Program {
    pub bodies: Vec<Body>,
}
