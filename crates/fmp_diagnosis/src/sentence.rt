//! The sentence that says what is wrong at a position of a text.
ghost use Rattle.std.specs.Prelude.{◌≡◌, OnOk};
ghost use Rattle.fmp_diagnosis.specs.Reports.{text_of};
ghost use Rattle.fmp_diagnosis.specs.Words.{IsSaid};

use crate::around::Around;
use crate::limits::say_limit;
use crate::names::{say_shape, say_unknown};
use crate::refusals::{say_refusal, say_small_stack, say_wrong_kind};
use crate::syntax::say_syntax;
use crate::twice::say_twice;
use fmp_lex::{FaultKind, TextFile};
use std::alloc::{AllocError, Global};

/// The two texts of a system.
#[derive(Clone, Copy)]
pub struct Texts<'a> {
    /// The configuration.
    pub cfg: &'a [u8],
    /// The bodies of its tasks and handlers.
    pub src: &'a [u8],
}

impl<'a> Texts<'a> {
    /// One of the two.
    pub fn of(&self, file: TextFile) -> &'a [u8]
        ensures { result.now ≡ text_of self.now file }
    {
        match file {
            TextFile::Configuration => self.cfg,
            TextFile::Source => self.src,
        }
    }
}

/// Appends a sentence that says what is wrong with two texts whose fault is of this kind and stands at a position of
/// one of them: what stands there, what may stand there or which value is out of which range, and of an unknown name
/// the nearest known one. `AllocError` if memory runs out.
pub(crate) fn say_fault(
    alloc: Global,
    texts: Texts<'_>,
    around: &Around<'_>,
    kind: FaultKind,
    out: &mut Vec<u8>,
) -> Result<(), AllocError>
    ensures { OnOk result (IsSaid out.old.items out.new.items) }
{
    match kind {
        FaultKind::Syntax => say_syntax(alloc, around, out),
        FaultKind::TwiceNamed => say_twice(alloc, texts.cfg, around, out),
        FaultKind::UnknownName => say_unknown(alloc, texts, around, out),
        FaultKind::Api(code) => say_refusal(around, code, out),
        FaultKind::Limit => say_limit(texts.of(around.file).len(), around, out),
        FaultKind::StackTooSmall => say_small_stack(alloc, texts, around, out),
        FaultKind::WrongEntryKind => say_wrong_kind(around, out),
        FaultKind::Shape => say_shape(around, out),
    }
}
