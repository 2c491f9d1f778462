//! Conditions on the state of a kernel between events.
ghost use Rattle.std.specs.Prelude.{◌≡◌};
ghost use Rattle.fmp_monitors.specs.Conditions as spec;
ghost use Rattle.fmp_monitors.specs.Happenings.{is_same};

use crate::lines::is_state;
use crate::measuring::{measured, state_of, task_on};
use fmp_base::StateWord;
use fmp_tasks::KernelState;

/// How many tests a condition has at most.
pub const MAX_TESTS: usize = 8;

/// A number of a state. Objects go by their places.
#[derive(Clone, Copy)]
pub enum Measure {
    /// The value of a shared word.
    SharedWord(usize),
    /// The count of a semaphore.
    Count(usize),
    /// The pattern of an eventflag.
    Pattern(usize),
    /// How many words a data queue holds.
    Words(usize),
    /// How many messages are in a mailbox.
    Messages(usize),
    /// The current priority of a task, 1 to 16.
    Priority(usize),
}

/// How a number compares with another.
#[derive(Clone, Copy)]
pub enum Relation {
    Less,
    LessOrEqual,
    Equal,
    Unequal,
    Greater,
    GreaterOrEqual,
}

/// What a test asks of a state.
#[derive(Clone, Copy)]
pub enum TestedFact {
    /// A number has this relation to this value.
    Compares {
        measure: Measure,
        relation: Relation,
        value: i32,
    },
    /// The task at this place is in this state.
    Is {
        task: usize,
        word: StateWord,
    },
    /// The processor at this place runs this task, or none.
    Runs {
        processor: u8,
        task: Option<usize>,
    },
}

/// A test of a condition.
#[derive(Clone, Copy)]
pub struct ConditionTest {
    pub fact: TestedFact,
    /// The fact must not be so.
    pub negated: bool,
    /// It begins an alternative: `or` stands before it. The tests of an alternative are joined by `and`.
    pub alternative: bool,
}

/// Tests that are joined by `and`, in alternatives that are joined by `or`.
#[derive(Clone, Copy)]
pub struct Condition {
    /// How many tests there are, 1 to 8. The first one begins an alternative.
    pub count: usize,
    /// The tests, with anything after the last one.
    pub tests: [ConditionTest; 8],
}

fn is_same_number(a: i32, b: i32) -> bool
    ensures { result ≡ is_same a b }
{
    a == b
}

/// Whether a number has this relation to another.
fn compares(relation: Relation, a: i32, b: i32) -> bool
    ensures { result ≡ spec.compares relation a b }
{
    match relation {
        Relation::Less => a < b,
        Relation::LessOrEqual => a <= b,
        Relation::Equal => is_same_number(a, b),
        Relation::Unequal => !is_same_number(a, b),
        Relation::Greater => a > b,
        Relation::GreaterOrEqual => a >= b,
    }
}

/// Whether a task, or none, is another, or none.
fn is_same_task(a: Option<u8>, b: Option<usize>) -> bool
    ensures { result ≡ spec.is_same_task a b }
{
    match (a, b) {
        (None, None) => true,
        (Some(a), Some(b)) => usize::from(a) == b,
        _ => false,
    }
}

/// Whether a fact is so in a state.
fn is_so(fact: TestedFact, state: &KernelState) -> bool
    ensures { result ≡ spec.is_so fact state.now.state }
{
    match fact {
        TestedFact::Compares {
            measure,
            relation,
            value,
        } => compares(relation, measured(measure, state), value),
        TestedFact::Is { task, word } => is_state(word, state_of(state, task)),
        TestedFact::Runs { processor, task } => is_same_task(task_on(state, processor), task),
    }
}

/// Whether a state passes a test.
fn passes(test: ConditionTest, state: &KernelState) -> bool
    ensures { result ≡ spec.passes test state.now.state }
{
    if test.negated {
        !is_so(test.fact, state)
    } else {
        is_so(test.fact, state)
    }
}

/// Whether one of the alternatives holds in a state.
fn holds_any(tests: &[ConditionTest], state: &KernelState) -> bool
    ensures { result ≡ spec.passes_one tests.now state.now.state }
{
    let mut so_far = false;
    for test in tests {
        if test.alternative && so_far {
            return true;
        }
        let passed = passes(*test, state);
        so_far = (test.alternative || so_far) && passed;
    }
    so_far
}

impl Condition {
    /// The tests.
    fn all_tests(&self) -> &[ConditionTest]
        ensures { result.now ≡ spec.tests_of self.now }
    {
        let count = self.count.min(MAX_TESTS);
        &self.tests[..count]
    }

    /// Whether the condition holds in a state.
    pub fn holds(&self, state: &KernelState) -> bool
        ensures { result ≡ spec.holds self.now state.now.state }
    {
        holds_any(self.all_tests(), state)
    }
}
