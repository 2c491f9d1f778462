//! How a run does by each expectation of a text alone.
ghost use Rattle.std.specs.Prelude.{◌≡◌, ◌≤◌, ◌^◌, IfOk, length, map};
ghost use Rattle.fmp_looking.specs.Judgements as spec;

use crate::expecting::verdict_of;
use crate::opened::Opened;
use fmp_expect::{BrokenExpectation, Expected};
use fmp_kernel::Coming;
use std::alloc::{AllocError, Global};

/// How a run does by one expectation alone.
#[derive(Clone, Copy)]
pub struct Judgement {
    /// The line of the expectation, from 1.
    pub line: usize,
    /// Where the run breaks it, if it does.
    pub broken: Option<BrokenExpectation>,
    /// Whether it says nothing of the run, since what it speaks of never comes.
    pub is_empty: bool,
}

/// How judgements are told to other programs.
#[derive(Clone, Copy)]
pub enum JudgementForm {
    /// A report of tests in the XML of JUnit.
    Junit,
    /// An object of JSON for each, one a line.
    Records,
}

impl Judgement {
    /// Whether the run fails the expectation; strictly, also if it says nothing of the run.
    pub fn fails(&self, strict: bool) -> bool
        ensures { result ≡ spec.fails strict self.now }
    {
        self.broken.is_some() || (strict && self.is_empty)
    }
}

/// How a run of a system does by one expectation.
fn judgement_of<O: Opened, T: Coming<O::Bodies>>(
    alloc: Global,
    opened: &O,
    events: &[T],
    one: Expected,
) -> Result<Judgement, AllocError>
    requires { length events.now ≤ 2 ^ 31 }
    ensures { IfOk result (λ j. j ≡ spec.judged_by T.reaction (O.start opened.now) events.now one) }
{
    let verdict = verdict_of(alloc, opened, events, &[one])?;
    Ok(Judgement {
        line: one.line,
        broken: verdict.broken,
        is_empty: !verdict.empty.is_empty(),
    })
}

/// How a run of a system does by each of these expectations alone, in their order. `AllocError` if memory runs out.
pub fn judgements_of<O: Opened, T: Coming<O::Bodies>>(
    alloc: Global,
    opened: &O,
    events: &[T],
    expected: &[Expected],
) -> Result<Vec<Judgement>, AllocError>
    requires { length events.now ≤ 2 ^ 31 }
    ensures { IfOk result (λ all. all.items
        ≡ map (spec.judged_by T.reaction (O.start opened.now) events.now) expected.now) }
{
    let mut all = Vec::new(alloc);
    for one in expected {
        all.push(judgement_of(alloc, opened, events, *one)?)?;
    }
    Ok(all)
}
