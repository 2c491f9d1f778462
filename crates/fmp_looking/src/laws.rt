//! What a run fails of `never` at a line is what a search forbids there.
ghost use Rattle.std.specs.Prelude.{◌≡◌, List, is_some, map};
ghost use Rattle.fmp_base.specs.declared.events.Event.{Event};
ghost use Rattle.fmp_expect.specs.Judges.{broken_along};
ghost use Rattle.fmp_image_bytes.specs.Images.{ImageTables};
ghost use Rattle.fmp_instructions.specs.declared.instructions.MachineContext.{MachineContext};
ghost use Rattle.fmp_instructions.specs.Instructions.{BodyTables};
ghost use Rattle.fmp_instructions.specs.Machine.{code_meaning};
ghost use Rattle.fmp_kernel.specs.Comings.{reaction_of};
ghost use Rattle.fmp_kernel.specs.KernelViews.{KernelView};
ghost use Rattle.fmp_looking.specs.declared.call_sentences.CallNever.{CallNever};
ghost use Rattle.fmp_looking.specs.CallLaws.{forbids_along};
ghost use Rattle.fmp_looking.specs.CallSentences.{breaks_by, judge_of};

/// A run fails a sentence about the calls of a line exactly where a search with the same forbidden answers stops: a
/// line of one of its events tells that such a call gets such an answer.
#[tactic(auto, using(crate::proofs::CallLaws::along_is))]
pub fn calls_are_judged_as_searches_judge()
    ensures { (i : ImageTables) (nevers : List CallNever) (k : KernelView (List BodyTables) MachineContext)
        (es : List Event) → is_some (broken_along (breaks_by (judge_of i nevers)) (reaction_of code_meaning) k es)
        ≡ forbids_along i.system (map (λ n. n.never) nevers) k es }
{}
