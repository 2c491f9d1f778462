//! The operators of the task language.
/// A unary operator of the task language.
#[derive(Clone, Copy)]
pub enum UnaryOperator {
    /// `-`
    Negate,
    /// `!`: 1 for 0, else 0.
    Not,
    /// `~`
    Complement,
}

/// A binary operator of the task language, except `&&` and `||`.
#[derive(Clone, Copy)]
pub enum BinaryOperator {
    /// `+`
    Add,
    /// `-`
    Subtract,
    /// `*`
    Multiply,
    /// `/`, cut toward zero.
    Divide,
    /// `%`, with the dividend's sign.
    Remainder,
    /// `&`, bit by bit.
    And,
    /// `|`, bit by bit.
    Or,
    /// `^`, bit by bit.
    ExclusiveOr,
    /// `==`: 1 if it holds, else 0; likewise the five below.
    Equal,
    /// `!=`
    NotEqual,
    /// `<`
    Less,
    /// `<=`
    LessOrEqual,
    /// `>`
    Greater,
    /// `>=`
    GreaterOrEqual,
}
