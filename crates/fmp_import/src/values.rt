//! The values of expressions of C, as far as configurations have them: numbers, constants, `|`, `&`, `<<`, `>>`, `+`,
//! `-`, `*`, `/`, `%`, parentheses and casts.
ghost use Rattle.std.specs.Prelude.{◌≡◌, ◌^◌, pos, IfSome};
ghost use Rattle.fmp_import.specs.Values.{IsValue, whole_value};

use crate::lexemes::Lexeme;
use crate::reading::SourceReading;
use crate::terms::{NoValue, Term, terms_of};
use std::alloc::Global;

/// An operator that is applied here to numbers that are not negative alone: C gives others by their types.
#[derive(Clone, Copy)]
enum WholeOperator {
    And,
    ShiftLeft,
    ShiftRight,
    Divide,
    Remainder,
}

/// An operator that waits for what stands after it.
#[derive(Clone, Copy)]
enum PendingOperator {
    Open,
    Or,
    Add,
    Subtract,
    Multiply,
    Whole(WholeOperator),
    Negate,
}

impl WholeOperator {
    /// How tightly it binds.
    fn binding(self) -> u8 {
        match self {
            WholeOperator::And => 2,
            WholeOperator::ShiftLeft | WholeOperator::ShiftRight => 3,
            WholeOperator::Divide | WholeOperator::Remainder => 5,
        }
    }

    /// What it gives of two numbers. None if C does not say, as for a shift by 32 bits or a division by 0.
    fn value(self, left: u64, right: u64) -> Option<u64>
        ensures { IfSome result (λ value. value ≡ whole_value self left right) }
    {
        match self {
            WholeOperator::And => Some(left & right),
            WholeOperator::ShiftLeft => left.checked_mul(power(right)?),
            WholeOperator::ShiftRight => left.checked_div(power(right)?),
            WholeOperator::Divide => left.checked_div(right),
            WholeOperator::Remainder => left.checked_rem(right),
        }
    }

    /// What it gives of two numbers, if these are not negative and that fits 32 bits.
    fn applied(self, left: i64, right: i64) -> Option<i64>
        ensures { IfSome result (IsValue (PendingOperator.Whole self) left right) }
    {
        let first = natural_of(left)?;
        let second = natural_of(right)?;
        fitting(self.value(first, second)?)
    }
}

/// The number by which a shift by fewer than 32 bits multiplies.
fn power(bits: u64) -> Option<u64>
    ensures { IfSome result (λ value. value ≡ 2 ^ bits) }
{
    if bits < 32 {
        2_u64.checked_pow(bits as u32)
    } else {
        None
    }
}

/// A number that is not negative.
fn natural_of(number: i64) -> Option<u64>
    ensures { IfSome result (λ natural. number ≡ pos natural) }
{
    u64::try_from(number).ok()
}

/// A number that fits 32 bits.
fn fitting(number: u64) -> Option<i64>
    ensures { IfSome result (λ fitting. fitting ≡ pos number) }
{
    if number < 1 << 32 {
        Some(number as i64)
    } else {
        None
    }
}

impl PendingOperator {
    /// How tightly it binds.
    fn binding(self) -> u8 {
        match self {
            PendingOperator::Open => 0,
            PendingOperator::Or => 1,
            PendingOperator::Whole(operator) => operator.binding(),
            PendingOperator::Add | PendingOperator::Subtract => 4,
            PendingOperator::Multiply => 5,
            PendingOperator::Negate => 6,
        }
    }

    /// What it gives of two numbers, of which a sign has 0 as its left one.
    fn applied(self, left: i64, right: i64) -> Option<i64>
        ensures { IfSome result (IsValue self left right) }
    {
        match self {
            PendingOperator::Open => None,
            PendingOperator::Or => Some(left | right),
            PendingOperator::Add => left.checked_add(right),
            PendingOperator::Subtract | PendingOperator::Negate => left.checked_sub(right),
            PendingOperator::Multiply => left.checked_mul(right),
            PendingOperator::Whole(operator) => operator.applied(left, right),
        }
    }
}

/// The operator of a term between two operands.
fn operator_of(term: Term) -> Option<PendingOperator> {
    match term {
        Term::Sign(b'|') => Some(PendingOperator::Or),
        Term::Sign(b'&') => Some(PendingOperator::Whole(WholeOperator::And)),
        Term::Shift(b'<') => Some(PendingOperator::Whole(WholeOperator::ShiftLeft)),
        Term::Shift(_) => Some(PendingOperator::Whole(WholeOperator::ShiftRight)),
        Term::Sign(b'+') => Some(PendingOperator::Add),
        Term::Sign(b'-') => Some(PendingOperator::Subtract),
        Term::Sign(b'*') => Some(PendingOperator::Multiply),
        Term::Sign(b'/') => Some(PendingOperator::Whole(WholeOperator::Divide)),
        Term::Sign(b'%') => Some(PendingOperator::Whole(WholeOperator::Remainder)),
        _ => None,
    }
}

/// An expression that is evaluated from left to right.
#[derive(Drop)]
struct Calculation {
    values: Vec<i64>,
    operators: Vec<PendingOperator>,
    /// Whether an operand comes next.
    wants: bool,
    /// How many parentheses are open.
    depth: usize,
    /// Whether an operator stood outside of parentheses.
    is_loose: bool,
}

impl Calculation {
    fn new(alloc: Global) -> Calculation {
        Calculation {
            values: Vec::new(alloc),
            operators: Vec::new(alloc),
            wants: true,
            depth: 0,
            is_loose: false,
        }
    }

    /// Applies an operator to the last values.
    fn apply(&mut self, operator: PendingOperator) -> Result<(), NoValue> {
        let right = self.values.pop().ok_or(NoValue::Form)?;
        let left = match operator {
            PendingOperator::Negate => 0,
            _ => self.values.pop().ok_or(NoValue::Form)?,
        };
        let value = operator.applied(left, right).ok_or(NoValue::Form)?;
        self.values.push(value)?;
        Ok(())
    }

    /// Applies the last operators, as long as they bind at least so tightly.
    fn reduce(&mut self, binding: u8) -> Result<(), NoValue> {
        for _ in 0..self.operators.len() {
            match self.operators.last().copied() {
                Some(operator) if operator.binding() >= binding => {
                    self.operators.pop();
                    self.apply(operator)?;
                }
                _ => return Ok(()),
            }
        }
        Ok(())
    }

    fn take_value(&mut self, value: i64) -> Result<(), NoValue> {
        self.values.push(value)?;
        self.wants = false;
        Ok(())
    }

    fn take_operator(&mut self, operator: PendingOperator) -> Result<(), NoValue> {
        self.reduce(operator.binding())?;
        self.operators.push(operator)?;
        self.wants = true;
        self.is_loose = self.is_loose || self.depth == 0;
        Ok(())
    }

    /// Begins what stands in parentheses.
    fn open(&mut self) -> Result<(), NoValue> {
        self.operators.push(PendingOperator::Open)?;
        self.depth = self.depth.saturating_add(1);
        Ok(())
    }

    /// Ends what stands in parentheses.
    fn close(&mut self) -> Result<(), NoValue> {
        self.reduce(1)?;
        self.depth = self.depth.saturating_sub(1);
        match self.operators.pop() {
            Some(PendingOperator::Open) => Ok(()),
            _ => Err(NoValue::Form),
        }
    }

    /// Takes a term where an operand begins.
    fn operand(&mut self, term: Term) -> Result<(), NoValue> {
        match term {
            Term::Number(value) => self.take_value(value)?,
            Term::Sign(b'(') => self.open()?,
            Term::Sign(b'-') => self.operators.push(PendingOperator::Negate)?,
            Term::Sign(b'+') => {}
            _ => return Err(NoValue::Form),
        }
        Ok(())
    }

    /// Takes a term after an operand.
    fn operator(&mut self, term: Term) -> Result<(), NoValue> {
        match (term, operator_of(term)) {
            (Term::Sign(b')'), _) => self.close(),
            (_, Some(operator)) => self.take_operator(operator),
            _ => Err(NoValue::Form),
        }
    }

    /// The value of terms.
    fn value(&mut self, terms: &[Term]) -> Result<i64, NoValue> {
        for term in terms {
            if self.wants {
                self.operand(*term)?;
            } else {
                self.operator(*term)?;
            }
        }
        self.end()
    }

    /// The value of what was taken.
    fn end(&mut self) -> Result<i64, NoValue> {
        self.reduce(1)?;
        if self.wants || !self.operators.is_empty() {
            return Err(NoValue::Form);
        }
        self.values.pop().ok_or(NoValue::Form)
    }
}

/// The value of an expression.
pub fn value_of(
    alloc: Global,
    reading: SourceReading<'_>,
    lexemes: &[Lexeme],
) -> Result<i64, NoValue> {
    let terms = terms_of(alloc, reading, lexemes)?;
    Calculation::new(alloc).value(&terms)
}

/// What stands for a name: a value, and the terms where an operator of theirs stands outside of parentheses. Operators
/// beside the name may bind more tightly than that one.
#[derive(Drop)]
pub struct Meaning {
    pub value: i64,
    pub terms: Vec<Term>,
}

/// What an expression means.
pub fn meaning_of(
    alloc: Global,
    reading: SourceReading<'_>,
    lexemes: &[Lexeme],
) -> Result<Meaning, NoValue> {
    let mut terms = terms_of(alloc, reading, lexemes)?;
    let mut calculation = Calculation::new(alloc);
    let value = calculation.value(&terms)?;
    if !calculation.is_loose {
        terms.clear();
    }
    Ok(Meaning { value, terms })
}
