//! What holds of the lines that are told where only events come, the contract of a function that does nothing.
ghost use Rattle.std.specs.Prelude.{◌≡◌, List, Ok, Some};
ghost use Rattle.fmp_base.specs.declared.events.Event.{Event};
ghost use Rattle.fmp_kernel.specs.Comings.{reaction_of};
ghost use Rattle.fmp_expect.specs.Meaning.{Told};
ghost use Rattle.fmp_expect.specs.Runs.{events_told, lines_told, rest_told};
ghost use Rattle.fmp_base.specs.Systems.{SystemTables};
ghost use Rattle.fmp_expect.specs.Grammar.{line_meaning, sentence_of};
ghost use Rattle.fmp_expect.specs.Written.{AreWords, IsWritable, sentence_words, spaced};
ghost use Rattle.fmp_kernel.specs.KernelViews.{KernelView};
ghost use Rattle.fmp_monitors.specs.declared.sentence.Sentence.{Sentence};

use fmp_kernel::Body;

/// The lines that are told of events that come to a kernel are those of its run over them.
#[tactic(auto, using(crate::proofs::Events::same_told))]
pub fn events_tell_as_their_run<B: Body>()
    ensures { (k : KernelView B B.Ctx) (es : List Event) (told : List Told) →
        lines_told (rest_told (reaction_of B.meaning) k es told) ≡ events_told B.meaning k es (lines_told told) }
{}

/// The words of a sentence are read as that sentence, if its names are found and its numbers are in range; and so is a
/// line that has these words, with a blank between two.
#[tactic(auto, using(crate::proofs::ReadBack::read_back, crate::proofs::WrittenLines::line_back))]
pub fn sentences_are_read_as_written()
    ensures words { (sys : SystemTables) (e : Sentence) → IsWritable sys e
        → sentence_of sys (sentence_words sys e) ≡ Ok e }
    ensures line { (sys : SystemTables) (e : Sentence) → IsWritable sys e → AreWords (sentence_words sys e)
        → line_meaning sys (spaced (sentence_words sys e)) ≡ Some (Ok e) }
{}
