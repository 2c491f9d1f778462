//! The words of a condition of a sentence.
ghost use Rattle.std.specs.Prelude.{◌≡◌, ◌+◌, ◌++◌, OnOk, Some};
ghost use Rattle.std.specs.List.{flat_map};
ghost use Rattle.fmp_base.specs.Systems.{tables_of};
ghost use Rattle.fmp_monitors.specs.Conditions.{tests_of};
ghost use Rattle.fmp_expect.specs.Written as written;
ghost use Rattle.fmp_searching.specs.Sentences as spec;

use crate::claiming::{append_value, append_where};
use crate::sentences::append_named;
use fmp_base::{Name, System};
use fmp_json::{append, append_number};
use fmp_monitors::{Condition, ConditionTest, MAX_TESTS, Measure, Relation, TestedFact};
use fmp_named::append_task;
use std::alloc::{AllocError, Global};

/// The name of the object of a measure, if it is there.
fn measure_name(sys: &System, measure: Measure) -> Option<Name>
    ensures { result ≡ written.measure_name (tables_of sys.now) measure }
{
    match measure {
        Measure::SharedWord(place) => Some(sys.shared_words.get(place)?.name),
        Measure::Count(place) => Some(sys.semaphores.get(place)?.name),
        Measure::Pattern(place) => Some(sys.flags.get(place)?.name),
        Measure::Words(place) => Some(sys.data_queues.get(place)?.name),
        Measure::Messages(place) => Some(sys.mailboxes.get(place)?.name),
        Measure::Priority(task) => Some(sys.tasks.get(task)?.name),
    }
}

/// What stands before the name in a measure.
fn measure_word(measure: Measure) -> &'static [u8]
    ensures { result.now ≡ spec.measure_word measure }
{
    match measure {
        Measure::Priority(_) => b"priority ",
        _ => b"",
    }
}

/// A relation, between blanks.
fn relation_word(relation: Relation) -> &'static [u8]
    ensures { result.now ≡ spec.relation_text relation }
{
    match relation {
        Relation::Less => b" < ",
        Relation::LessOrEqual => b" <= ",
        Relation::Equal => b" == ",
        Relation::Unequal => b" != ",
        Relation::Greater => b" > ",
        Relation::GreaterOrEqual => b" >= ",
    }
}

/// Appends the task that a processor runs, or that it runs none.
fn append_runner(sys: &System, task: Option<usize>, out: &mut Vec<u8>) -> Result<(), AllocError>
    ensures { OnOk result (out.new.items ≡ out.old.items ++ spec.runner_text (tables_of sys.now) task) }
{
    match task {
        Some(task) => append_task(sys, task, out),
        None => append(b"nobody", out),
    }
}

/// Appends a fact.
#[tactic(auto, unfolding(crate::specs::Sentences::fact_text))]
fn append_fact(sys: &System, fact: TestedFact, out: &mut Vec<u8>) -> Result<(), AllocError>
    ensures { OnOk result (out.new.items ≡ out.old.items ++ spec.fact_text (tables_of sys.now) fact) }
{
    match fact {
        TestedFact::Compares {
            measure,
            relation,
            value,
        } => {
            append(measure_word(measure), out)?;
            append_named(measure_name(sys, measure), out)?;
            append(relation_word(relation), out)?;
            append_value(value, out)
        }
        TestedFact::Is { task, word } => {
            append_task(sys, task, out)?;
            append(b" is ", out)?;
            append(word.name().as_bytes(), out)
        }
        TestedFact::Runs { processor, task } => {
            append_runner(sys, task, out)?;
            append(b" runs on ", out)?;
            append_number(u64::from(processor) + 1, out)
        }
    }
}

/// What joins a test to those before it.
fn joint(alternative: bool) -> &'static [u8]
    ensures { result.now ≡ spec.joint_text alternative }
{
    if alternative { b" or " } else { b" and " }
}

/// Appends a test after others.
#[tactic(auto, unfolding(crate::specs::Sentences::test_text))]
fn append_test(sys: &System, test: &ConditionTest, out: &mut Vec<u8>) -> Result<(), AllocError>
    ensures { OnOk result (out.new.items ≡ out.old.items ++ spec.test_text (tables_of sys.now) test.now) }
{
    append(joint(test.alternative), out)?;
    append_where(test.negated, b"not ", out)?;
    append_fact(sys, test.fact, out)
}

/// The tests of a condition.
fn tests_in(condition: &Condition) -> &[ConditionTest]
    ensures { result.now ≡ tests_of condition.now }
{
    let count = condition.count.min(MAX_TESTS);
    &condition.tests[..count]
}

/// Appends tests, each after others.
fn append_tests(sys: &System, tests: &[ConditionTest], out: &mut Vec<u8>) -> Result<(), AllocError>
    ensures { OnOk result (out.new.items
        ≡ out.old.items ++ flat_map (λ t. spec.test_text (tables_of sys.now) t) tests.now) }
{
    for test in tests {
        append_test(sys, test, out)?;
    }
    Ok(())
}

/// Appends tests without the ` or ` of the first.
#[tactic(auto, unfolding(crate::specs::Sentences::without_or))]
fn append_without_or(tests: &[u8], out: &mut Vec<u8>) -> Result<(), AllocError>
    ensures { OnOk result (out.new.items ≡ out.old.items ++ spec.without_or tests.now) }
{
    if tests.len() <= 4 {
        return Ok(());
    }
    append(&tests[4..], out)
}

/// Appends a condition.
pub fn append_condition(
    alloc: Global,
    sys: &System,
    condition: &Condition,
    out: &mut Vec<u8>,
) -> Result<(), AllocError>
    ensures { OnOk result (out.new.items
        ≡ out.old.items ++ spec.without_or (spec.tests_text (tables_of sys.now) condition.now)) }
{
    let mut tests = Vec::new(alloc);
    append_tests(sys, tests_in(condition), &mut tests)?;
    append_without_or(&tests, out)
}
