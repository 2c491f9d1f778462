//! What can be wrong with a text of expectations.
use thiserror::Error;

/// What may stand in a line.
#[derive(Clone, Copy, Debug, PartialEq, Eq, Error)]
pub enum Expects {
    /// The first word of a sentence.
    #[error("a sentence: 'never DEED', 'DEED before DEED', 'TASK runs within N ticks of int I', 'always TEST', 'between DEED and DEED one at a time', 'TASK rests' or 'end STATE TASK'")]
    Sentence,
    /// A deed.
    #[error("a deed: a code as E_QOVR, a value as put(7), or a fault as F_IDX")]
    Deed,
    /// The name of a task or of a cyclic handler.
    #[error("the name of a task or a cyclic handler")]
    Actor,
    /// The name of a task or of a cyclic handler, or a body that the handler of only one interrupt has.
    #[error("the name of a task or a cyclic handler, or a body that only the handler of an interrupt has")]
    ActorOrHandler,
    /// The name of a task or of a cyclic handler. An image has no names of bodies.
    #[error("the name of a task or a cyclic handler (with --src also the body of an interrupt's handler)")]
    ActorOfImage,
    /// The name of a task.
    #[error("the name of a task")]
    Task,
    /// A state of a task.
    #[error("a state: RUNNING, READY, WAITING, SUSPENDED, WAITING-SUSPENDED or DORMANT")]
    State,
    /// A number of ticks.
    #[error("a number of ticks, 0 to 2147483647")]
    Count,
    /// The number of an interrupt.
    #[error("the number of an interrupt, 1 to 32")]
    Interrupt,
    /// The number of an interrupt, or the name of a body that no other interrupt has.
    #[error("the number of an interrupt, 1 to 32, or a body that only its handler has")]
    InterruptOrHandler,
    /// The number of an interrupt. An image has no names of bodies.
    #[error("the number of an interrupt, 1 to 32 (with --src also the body of its handler)")]
    InterruptOfImage,
    /// The word `runs`.
    #[error("`runs`")]
    Runs,
    /// The word `within`.
    #[error("`within`")]
    Within,
    /// The word `ticks`.
    #[error("`ticks`")]
    Ticks,
    /// The word `of`.
    #[error("`of`")]
    Of,
    /// The word `int`, or a deed.
    #[error("`int` or a deed")]
    Int,
    /// The word `before` or `within`.
    #[error("`before` or `within`")]
    Before,
    /// The word `before` or `within`, or `by` with an actor.
    #[error("`before`, `within` or `by`")]
    BeforeOrBy,
    /// Nothing, `after` or `until`.
    #[error("the end of the line, `after` or `until`")]
    NeverEnd,
    /// Nothing, `after` or `until`, or `by` with an actor.
    #[error("the end of the line, `after`, `until` or `by`")]
    NeverEndOrBy,
    /// Nothing, `after` or `until`, or `by` with an actor, or `at` with the line of a call.
    #[error("the end of the line, `after`, `until`, `by` or `at`")]
    NeverEndByOrAt,
    /// Nothing, `after` or `until`, or `at` with the line of a call.
    #[error("the end of the line, `after`, `until` or `at`")]
    NeverEndOrAt,
    /// Nothing, `after` or `until`. With `at` only a task may be named.
    #[error("the end of the line, `after` or `until`: with `at` only a task may be named")]
    TaskOnly,
    /// Nothing, `after` or `until`. Where calls stand is not known without the tasks' text.
    #[error("the end of the line, `after` or `until`: `at` needs --src SRC")]
    TextNeeded,
    /// The number of a line of the tasks' text.
    #[error("the number of a line, 1 to 2147483647")]
    Line,
    /// Nothing, or `until`.
    #[error("the end of the line or `until`")]
    UntilEnd,
    /// Nothing, or `until`, or `by` with an actor.
    #[error("the end of the line, `until` or `by`")]
    UntilEndOrBy,
    /// The word `runs` or `rests`.
    #[error("`runs` or `rests`")]
    RunsOrRests,
    /// The word `and`.
    #[error("`and`")]
    And,
    /// The word `and`, or `by` with an actor.
    #[error("`and` or `by`")]
    AndOrBy,
    /// The word `one`.
    #[error("`one`")]
    One,
    /// The word `one`, or `by` with an actor.
    #[error("`one` or `by`")]
    OneOrBy,
    /// The word `at`.
    #[error("`at`")]
    At,
    /// The word `a`.
    #[error("`a`")]
    A,
    /// The word `time`.
    #[error("`time`")]
    Time,
    /// A test of a condition.
    #[error("a condition: 'NAME < 5', 'priority TASK < 5', 'TASK is STATE' or 'TASK runs on 2'")]
    Test,
    /// A relation of numbers.
    #[error("a relation: ==, !=, <, <=, > or >=")]
    Relation,
    /// A number of 32 bits.
    #[error("a number, -2147483648 to 2147483647")]
    Value,
    /// The word `on`.
    #[error("`on`")]
    On,
    /// The number of a processor of the system.
    #[error("the number of a processor of the system")]
    Processor,
    /// Nothing, or one more test.
    #[error("the end of the line, `and` or `or`")]
    AndOr,
    /// Not another test.
    #[error("at most 8 tests")]
    FewerTests,
    /// Nothing.
    #[error("the end of the line")]
    End,
    /// Nothing, or `by` with an actor.
    #[error("the end of the line or `by`")]
    EndOrBy,
}

/// What is wrong with a line.
#[derive(Clone, Copy, Debug, PartialEq, Eq, Error)]
#[error("expected {expects}")]
pub struct ExpectationFlaw {
    /// What is expected in place of a word, or of the end of the line.
    pub expects: Expects,
    /// How many words of the line are left, that word being the first of them; 0 at the end of the line.
    pub left: usize,
}

/// Why a text gives no expectations.
#[derive(Clone, Copy, Debug, PartialEq, Eq, Error)]
pub enum ExpectFault {
    /// A line has a flaw. Lines are numbered from 1.
    #[error("expect:{line}: {flaw}")]
    Line { line: usize, flaw: ExpectationFlaw },
    /// Memory ran out.
    #[error("memory")]
    Memory,
}
