//! The conditions of `always`.
ghost use Rattle.std.specs.Prelude.{◌≡◌, ◌<◌, ◌∷◌, ◌++◌, [], ℕ, Bool, List, Result, IfOk, IfErr, MatchOption, Ok, Err};
ghost use Rattle.std.specs.Prelude.{position, bytes_eq};
ghost use Rattle.fmp_monitors.specs.declared.condition.ConditionTest.{ConditionTest};
ghost use Rattle.fmp_expect.specs.declared.fault.ExpectationFlaw.{ExpectationFlaw};
ghost use Rattle.fmp_base.specs.Names.{name_text};
ghost use Rattle.fmp_base.specs.Systems.{tables_of};
ghost use Rattle.fmp_expect.specs.Conditions as spec;
ghost use Rattle.fmp_expect.specs.Words.{words_of};

use crate::fault::{ExpectationFlaw, Expects};
use crate::numbers::signed_in;
use crate::parts::{
    after_first, after_word, begins, flaw_at, found_or, is_this, ranged_in, state_in, task_in,
};
use crate::words::next_word;
use fmp_base::{
    DataQueueConfig, FlagConfig, MailboxConfig, SemaphoreConfig, SharedWordConfig, StateWord,
    System,
};
use fmp_monitors::{Condition, ConditionTest, MAX_TESTS, Measure, Relation, TestedFact};

fn word_among(words: &[SharedWordConfig], name: &[u8]) -> Option<usize>
    ensures { result ≡ position (λ x. bytes_eq (name_text x.name) name.now) words.now }
{
    words.iter().position(|x| x.name.as_bytes() == name)
}

fn semaphore_among(semaphores: &[SemaphoreConfig], name: &[u8]) -> Option<usize>
    ensures { result ≡ position (λ x. bytes_eq (name_text x.name) name.now) semaphores.now }
{
    semaphores.iter().position(|x| x.name.as_bytes() == name)
}

fn flag_among(flags: &[FlagConfig], name: &[u8]) -> Option<usize>
    ensures { result ≡ position (λ x. bytes_eq (name_text x.name) name.now) flags.now }
{
    flags.iter().position(|x| x.name.as_bytes() == name)
}

fn queue_among(queues: &[DataQueueConfig], name: &[u8]) -> Option<usize>
    ensures { result ≡ position (λ x. bytes_eq (name_text x.name) name.now) queues.now }
{
    queues.iter().position(|x| x.name.as_bytes() == name)
}

fn mailbox_among(mailboxes: &[MailboxConfig], name: &[u8]) -> Option<usize>
    ensures { result ≡ position (λ x. bytes_eq (name_text x.name) name.now) mailboxes.now }
{
    mailboxes.iter().position(|x| x.name.as_bytes() == name)
}

/// What is measured of the object of this name, if it is a data queue or a mailbox.
fn length_named(sys: &System, name: &[u8]) -> Option<Measure>
    ensures { result ≡ spec.length_named (tables_of sys.now) name.now }
{
    if let Some(place) = queue_among(&sys.data_queues, name) {
        return Some(Measure::Words(place));
    }
    match mailbox_among(&sys.mailboxes, name) {
        Some(place) => Some(Measure::Messages(place)),
        None => None,
    }
}

/// What is measured of the object of this name.
fn measure_named(sys: &System, name: &[u8]) -> Option<Measure>
    ensures { result ≡ spec.measure_named (tables_of sys.now) name.now }
{
    if let Some(place) = word_among(&sys.shared_words, name) {
        return Some(Measure::SharedWord(place));
    }
    if let Some(place) = semaphore_among(&sys.semaphores, name) {
        return Some(Measure::Count(place));
    }
    if let Some(place) = flag_among(&sys.flags, name) {
        return Some(Measure::Pattern(place));
    }
    length_named(sys, name)
}

fn relation_named(word: &[u8]) -> Option<Relation>
    ensures { result ≡ spec.relation_named word.now }
{
    if is_this(word, b"==") {
        Some(Relation::Equal)
    } else if is_this(word, b"!=") {
        Some(Relation::Unequal)
    } else if is_this(word, b"<") {
        Some(Relation::Less)
    } else if is_this(word, b"<=") {
        Some(Relation::LessOrEqual)
    } else if is_this(word, b">") {
        Some(Relation::Greater)
    } else if is_this(word, b">=") {
        Some(Relation::GreaterOrEqual)
    } else {
        None
    }
}

fn relation_in(line: &[u8]) -> Result<(Relation, &[u8]), ExpectationFlaw>
    ensures read { IfOk result (λ r. spec.relation_of (words_of line.now)
        ≡ Ok (record { value = r.0; rest = words_of r.1.now })) }
    ensures fault { IfErr result (λ e. spec.relation_of (words_of line.now) ≡ Err e) }
{
    match next_word(line) {
        Some((word, rest)) => found_or(Expects::Relation, line, rest, relation_named(word)),
        None => Err(flaw_at(Expects::Relation, line)),
    }
}

fn value_in(line: &[u8]) -> Result<(i32, &[u8]), ExpectationFlaw>
    ensures read { IfOk result (λ r. spec.value_of (words_of line.now)
        ≡ Ok (record { value = r.0; rest = words_of r.1.now })) }
    ensures fault { IfErr result (λ e. spec.value_of (words_of line.now) ≡ Err e) }
{
    match next_word(line) {
        Some((word, rest)) => found_or(Expects::Value, line, rest, signed_in(word)),
        None => Err(flaw_at(Expects::Value, line)),
    }
}

fn object_in<'a>(sys: &System, line: &'a [u8]) -> Result<(Measure, &'a [u8]), ExpectationFlaw>
    ensures read { IfOk result (λ r. spec.object_of (tables_of sys.now) (words_of line.now)
        ≡ Ok (record { value = r.0; rest = words_of r.1.now })) }
    ensures fault { IfErr result (λ e. spec.object_of (tables_of sys.now) (words_of line.now) ≡ Err e) }
{
    match next_word(line) {
        Some((word, rest)) => found_or(Expects::Test, line, rest, measure_named(sys, word)),
        None => Err(flaw_at(Expects::Test, line)),
    }
}

fn priority_in<'a>(sys: &System, line: &'a [u8]) -> Result<(Measure, &'a [u8]), ExpectationFlaw>
    ensures read { IfOk result (λ r. spec.priority_of (tables_of sys.now) (words_of line.now)
        ≡ Ok (record { value = r.0; rest = words_of r.1.now })) }
    ensures fault { IfErr result (λ e. spec.priority_of (tables_of sys.now) (words_of line.now) ≡ Err e) }
{
    let (task, rest) = task_in(sys, line)?;
    Ok((Measure::Priority(task), rest))
}

fn measure_in<'a>(sys: &System, line: &'a [u8]) -> Result<(Measure, &'a [u8]), ExpectationFlaw>
    ensures read { IfOk result (λ r. spec.measure_of (tables_of sys.now) (words_of line.now)
        ≡ Ok (record { value = r.0; rest = words_of r.1.now })) }
    ensures fault { IfErr result (λ e. spec.measure_of (tables_of sys.now) (words_of line.now) ≡ Err e) }
{
    if begins(b"priority", line) {
        priority_in(sys, after_first(line))
    } else {
        object_in(sys, line)
    }
}

fn comparison_in<'a>(
    sys: &System,
    line: &'a [u8],
) -> Result<(TestedFact, &'a [u8]), ExpectationFlaw>
    ensures read { IfOk result (λ r. spec.comparison_of (tables_of sys.now) (words_of line.now)
        ≡ Ok (record { value = r.0; rest = words_of r.1.now })) }
    ensures fault { IfErr result (λ e. spec.comparison_of (tables_of sys.now) (words_of line.now) ≡ Err e) }
{
    let (measure, rest) = measure_in(sys, line)?;
    let (relation, rest) = relation_in(rest)?;
    let (value, rest) = value_in(rest)?;
    let fact = TestedFact::Compares {
        measure,
        relation,
        value,
    };
    Ok((fact, rest))
}

/// A task is in a state.
fn is_in<'a>(sys: &System, line: &'a [u8]) -> Result<(TestedFact, &'a [u8]), ExpectationFlaw>
    ensures read { IfOk result (λ r. spec.is_of (tables_of sys.now) (words_of line.now)
        ≡ Ok (record { value = r.0; rest = words_of r.1.now })) }
    ensures fault { IfErr result (λ e. spec.is_of (tables_of sys.now) (words_of line.now) ≡ Err e) }
{
    let (task, rest) = task_in(sys, line)?;
    let (word, rest) = state_in(after_first(rest))?;
    Ok((TestedFact::Is { task, word }, rest))
}

/// A task, or `nobody`.
fn who_in<'a>(sys: &System, line: &'a [u8]) -> Result<(Option<usize>, &'a [u8]), ExpectationFlaw>
    ensures read { IfOk result (λ r. spec.who_of (tables_of sys.now) (words_of line.now)
        ≡ Ok (record { value = r.0; rest = words_of r.1.now })) }
    ensures fault { IfErr result (λ e. spec.who_of (tables_of sys.now) (words_of line.now) ≡ Err e) }
{
    if begins(b"nobody", line) {
        Ok((None, after_first(line)))
    } else {
        let (task, rest) = task_in(sys, line)?;
        Ok((Some(task), rest))
    }
}

/// A processor runs a task, or nobody.
fn on_in<'a>(sys: &System, line: &'a [u8]) -> Result<(TestedFact, &'a [u8]), ExpectationFlaw>
    ensures read { IfOk result (λ r. spec.on_of (tables_of sys.now) (words_of line.now)
        ≡ Ok (record { value = r.0; rest = words_of r.1.now })) }
    ensures fault { IfErr result (λ e. spec.on_of (tables_of sys.now) (words_of line.now) ≡ Err e) }
{
    let (task, rest) = who_in(sys, line)?;
    let rest = after_word(Expects::On, b"on", after_first(rest))?;
    let count = u32::from(sys.processors);
    let (number, rest) = ranged_in(Expects::Processor, 1, count, rest)?;
    let fact = TestedFact::Runs {
        processor: (number - 1) as u8,
        task,
    };
    Ok((fact, rest))
}

fn fact_in<'a>(sys: &System, line: &'a [u8]) -> Result<(TestedFact, &'a [u8]), ExpectationFlaw>
    ensures read { IfOk result (λ r. spec.fact_of (tables_of sys.now) (words_of line.now)
        ≡ Ok (record { value = r.0; rest = words_of r.1.now })) }
    ensures fault { IfErr result (λ e. spec.fact_of (tables_of sys.now) (words_of line.now) ≡ Err e) }
{
    let rest = after_first(line);
    if begins(b"is", rest) {
        is_in(sys, line)
    } else if begins(b"runs", rest) {
        on_in(sys, line)
    } else {
        comparison_in(sys, line)
    }
}

/// A test of what a line says next, which must not be so if it is negated.
fn tested_in<'a>(
    sys: &System,
    negated: bool,
    alternative: bool,
    line: &'a [u8],
) -> Result<(ConditionTest, &'a [u8]), ExpectationFlaw>
    ensures read { IfOk result (λ r. spec.test_with negated alternative (spec.fact_of (tables_of sys.now)
        (words_of line.now)) ≡ Ok (record { value = r.0; rest = words_of r.1.now })) }
    ensures fault { IfErr result (λ e. spec.test_with negated alternative (spec.fact_of (tables_of sys.now)
        (words_of line.now)) ≡ Err e) }
{
    let (fact, rest) = fact_in(sys, line)?;
    let test = ConditionTest {
        fact,
        negated,
        alternative,
    };
    Ok((test, rest))
}

/// A test, which begins an alternative or not.
fn test_in<'a>(
    sys: &System,
    alternative: bool,
    line: &'a [u8],
) -> Result<(ConditionTest, &'a [u8]), ExpectationFlaw>
    ensures read { IfOk result (λ r. spec.test_of (tables_of sys.now) alternative (words_of line.now)
        ≡ Ok (record { value = r.0; rest = words_of r.1.now })) }
    ensures fault { IfErr result (λ e. spec.test_of (tables_of sys.now) alternative (words_of line.now) ≡ Err e) }
{
    if begins(b"not", line) {
        tested_in(sys, true, alternative, after_first(line))
    } else {
        tested_in(sys, false, alternative, line)
    }
}

/// What stands between two tests, and whether an alternative begins after it; none at the end of the line.
fn joint_in(line: &[u8]) -> Result<Option<(bool, &[u8])>, ExpectationFlaw>
    ensures joint { IfOk result (λ joint. (more : Bool → List (List ℕ) → Result (List ConditionTest) ExpectationFlaw)
        → MatchOption joint (spec.next_tests more (words_of line.now) ≡ Ok [])
        (λ next. spec.next_tests more (words_of line.now) ≡ more next.0 (words_of next.1.now))) }
    ensures fault { IfErr result (λ e. (more : Bool → List (List ℕ) → Result (List ConditionTest) ExpectationFlaw)
        → spec.next_tests more (words_of line.now) ≡ Err e) }
{
    match next_word(line) {
        Some((word, rest)) => {
            if is_this(word, b"and") {
                Ok(Some((false, rest)))
            } else if is_this(word, b"or") {
                Ok(Some((true, rest)))
            } else {
                Err(flaw_at(Expects::AndOr, line))
            }
        }
        None => Ok(None),
    }
}

/// What stands after the last test of a condition.
fn no_test() -> ConditionTest
    ensures { result ≡ spec.no_test }
{
    ConditionTest {
        fact: TestedFact::Is {
            task: 0,
            word: StateWord::Dormant,
        },
        negated: false,
        alternative: true,
    }
}

/// A condition of no tests.
fn no_condition() -> Condition
    ensures { result ≡ spec.condition_with [] }
{
    let test = no_test();
    Condition {
        count: 0,
        tests: [test; 8],
    }
}

/// A condition of one more test.
fn with_test(condition: Condition, test: ConditionTest) -> Condition
    requires { condition.count < 8 }
    ensures { (ts : List ConditionTest) → condition ≡ spec.condition_with ts
        → result ≡ spec.condition_with (ts ++ test ∷ []) }
{
    let mut tests = condition.tests;
    tests[condition.count] = test;
    Condition {
        count: condition.count + 1,
        tests,
    }
}

/// The condition of a line.
pub fn condition_in(sys: &System, line: &[u8]) -> Result<Condition, ExpectationFlaw>
    ensures { result ≡ spec.condition_of (tables_of sys.now) (words_of line.now) }
{
    let mut condition = no_condition();
    let mut rest = line;
    let mut alternative = true;
    while condition.count < MAX_TESTS {
        let (test, after) = test_in(sys, alternative, rest)?;
        condition = with_test(condition, test);
        match joint_in(after)? {
            Some((next, words)) => {
                alternative = next;
                rest = words;
            }
            None => return Ok(condition),
        }
    }
    Err(flaw_at(Expects::FewerTests, rest))
}
