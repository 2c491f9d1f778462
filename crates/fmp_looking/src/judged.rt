//! The judgements of a run by the expectations of a text, for programs that read them.
ghost use Rattle.std.specs.Prelude.{◌≡◌, ◌≤◌, ◌^◌, IfOk, length, map};
ghost use Rattle.fmp_looking.specs.Judgements as spec;

use crate::exit::{ViewExit, memory};
use crate::expecting::{Expectations, expected_of};
use crate::judged_cases::{cases_of, told_in};
use crate::judging::{JudgementForm, judgements_of};
use crate::looking::RunLook;
use crate::opened::Opened;
use fmp_expect::Expected;
use fmp_kernel::Coming;
use std::alloc::{AllocError, Global};

/// Expectations by each of which a run is judged alone, and how that is told.
#[derive(Clone, Copy)]
pub struct Judged<'a> {
    pub expectations: Expectations<'a>,
    pub form: JudgementForm,
}

/// How a run of a system does by each of these expectations alone, in a form.
fn judged_text<O: Opened, T: Coming<O::Bodies>>(
    alloc: Global,
    opened: &O,
    events: &[T],
    judged: &Judged<'_>,
    expected: &[Expected],
) -> Result<Vec<u8>, AllocError>
    requires { length events.now ≤ 2 ^ 31 }
    ensures { IfOk result (λ out. spec.IsTold judged.now.form judged.now.expectations.name.now
        judged.now.expectations.strict
        (map (spec.named_by judged.now.expectations.text.now)
        (map (spec.judged_by T.reaction (O.start opened.now) events.now) expected.now)) out.items) }
{
    let Judged { expectations, form } = judged;
    let all = judgements_of(alloc, opened, events, expected)?;
    let cases = cases_of(alloc, opened, events, expectations, &all)?;
    told_in(alloc, *form, expectations.name, expectations.strict, &cases)
}

impl RunLook for Judged<'_> {
    ghost use Rattle.fmp_looking.specs.Judgements.{AreJudgements};

    /// A test, or an object of JSON, for each expectation, in their order.
    type Made = Vec<u8>;

    ghost makes = { λ x meaning reaction k xs times out. AreJudgements x reaction k xs out.items };

    fn of<O: Opened, T: Coming<O::Bodies>>(
        &self,
        alloc: Global,
        opened: &O,
        events: &[T],
        _times: &[Option<u64>],
    ) -> Result<Vec<u8>, ViewExit> {
        let expected = expected_of(alloc, opened.system(), self.expectations.text)?;
        judged_text(alloc, opened, events, self, &expected).map_err(|e| memory(e))
    }
}
