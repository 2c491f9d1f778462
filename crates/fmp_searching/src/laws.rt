//! Laws on what two texts mean, each the contract of a function that does nothing.
ghost use Rattle.std.specs.Prelude.{◌≡◌, ◌≤◌, ◌++◌, ℕ, Bool, List, Ok, Some, codes, true};
ghost use Rattle.fmp_base.specs.Texts.{fault_text};
ghost use Rattle.fmp_base.specs.declared.bodies.Fault.{Fault};
ghost use Rattle.fmp_base.specs.declared.events.Event.{Event};
ghost use Rattle.fmp_base.specs.declared.events.Line.{Line};
ghost use Rattle.fmp_base.specs.Meanings.{Meaning, World};
ghost use Rattle.fmp_base.specs.Systems.{SystemTables};
ghost use Rattle.fmp_codegen.specs.Tie.{CodeTied};
ghost use Rattle.fmp_expect.specs.Grammar.{line_meaning};
ghost use Rattle.fmp_expect.specs.Written.{AreWords, IsWritable, sentence_words};
ghost use Rattle.fmp_image.specs.Building.{Builds};
ghost use Rattle.fmp_image_bytes.specs.Images.{ImageTables};
ghost use Rattle.fmp_instructions.specs.Machine.{code_meaning};
ghost use Rattle.fmp_instructions.specs.declared.instructions.MachineContext.{MachineContext};
ghost use Rattle.fmp_monitors.specs.declared.sentence.Sentence.{Sentence};
ghost use Rattle.fmp_question.specs.Rules.{rules_of};
ghost use Rattle.fmp_question.specs.declared.question.Never.{Never};
ghost use Rattle.fmp_question.specs.declared.question.Never.TheVariants as never;
ghost use Rattle.fmp_question.specs.declared.question.Question.{Question};
ghost use Rattle.fmp_schedules.specs.Beside.{DoesBeside, HoldsThereAtAll};
ghost use Rattle.fmp_schedules.specs.Completed.{HoldsAtAll, IsCompleted};
ghost use Rattle.fmp_schedules.specs.Schedules.{Holds, HoldsThere, IsSchedule, Rules};
ghost use Rattle.fmp_tasklang.specs.Texts.{text_meaning};
ghost use Rattle.fmp_searching.specs.Claims.{bound_text, faults_text, forbids_fault, lists_text, never_text};
ghost use Rattle.fmp_searching.specs.Extent.{words_of};
ghost use Rattle.fmp_searching.specs.Sentences.{is_worded};
ghost use Rattle.fmp_searching.specs.TextCalls.{CallsHaveLines};
ghost use Rattle.fmp_searching.specs.TextSchedules.{NeverTold};
ghost use Rattle.fmp_searching.specs.Words.{is_worded_never, never_named};

use fmp_codegen::laws::code_keeps_calls;
use fmp_expect::sentences_are_read_as_written;
use fmp_image::laws::{built_image_does_text, built_image_prints_text};

/// Where something holds along all schedules of the image of two texts, it holds of the texts: along each schedule they
/// mean what the image prints, no forbidden line is told, and no line breaks a sentence.
pub fn texts_never_tell()
    ensures { (cfg src : List ℕ) (i : ImageTables) (b : Builds cfg src i) (rules : Rules) (n : ℕ)
        (forbidden : Line → Bool) (rest : List Bool) → 1 ≤ n →
        Holds rules i.system (code_meaning i.code) n forbidden rest → (es : List Event) →
        IsSchedule rules i.system (code_meaning i.code) n forbidden es →
        NeverTold i b.tasks.bodies n forbidden rules.monitors es }
{
    built_image_prints_text();
}

/// Where something holds along all schedules of the image of two texts within n instructions a stretch, it holds of
/// every list of events that the texts complete, in whatever number of turns of loops: no forbidden line is told, no
/// line and no state breaks a sentence, and no deadlock is reached. No answer is told to its call where it must never
/// be: the code, beside the texts, stands after no such call. For whatever the texts complete, the image does
/// too, with the same lines, along a schedule of its own in which it keeps the places of long stretches now and then.
pub fn texts_hold()
    ensures all { (cfg src : List ℕ) (i : ImageTables) (b : Builds cfg src i) (rules : Rules) (n : ℕ)
        (forbidden : Line → Bool) (rest : List Bool) → 1 ≤ n →
        Holds rules i.system (code_meaning i.code) n forbidden rest →
        HoldsAtAll rules i.system (text_meaning i.system b.tasks.bodies) forbidden rest }
    ensures there { (cfg src : List ℕ) (i : ImageTables) (b : Builds cfg src i) (rules : Rules) (n : ℕ)
        (forbidden : Line → Bool) (there : World MachineContext → Line → Bool) → 1 ≤ n →
        HoldsThere rules i.system (code_meaning i.code) n forbidden there →
        HoldsThereAtAll (CodeTied i.system b.tasks.bodies i.code) rules i.system (code_meaning i.code) n
        (text_meaning i.system b.tasks.bodies) forbidden there }
    ensures done { (cfg src : List ℕ) (i : ImageTables) (b : Builds cfg src i) (rules : Rules) (n : ℕ)
        (forbidden : Line → Bool) (turns : ℕ) (es : List Event) → 1 ≤ n →
        IsCompleted rules i.system (text_meaning i.system b.tasks.bodies) turns es →
        DoesBeside (CodeTied i.system b.tasks.bodies i.code) rules i.system (code_meaning i.code) n
        (text_meaning i.system b.tasks.bodies) turns forbidden es }
{
    built_image_does_text();
}

/// A sentence that a claim or a finding prints in its words is read as that sentence, if its names are found and are
/// words, and its numbers are in range.
pub fn printed_sentences_are_read_back()
    ensures { (sys : SystemTables) (e : Sentence) → is_worded e ≡ true → IsWritable sys e
        → AreWords (sentence_words sys e) → line_meaning sys (words_of sys e) ≡ Some (Ok e) }
{
    sentences_are_read_as_written();
}

/// What a claim says never happens is what was asked for. Of an answer or a value, what stands after `never ` is a word
/// that asks for it. Of faults, a name that stands after `, never ` is a word that asks for the fault, which the
/// question forbids; where a claim says `, no fault`, its question forbids each.
pub fn printed_nevers_are_read_back()
    ensures nevers { (sys : SystemTables) (n : Never) → is_worded_never n ≡ true → (word : List ℕ)
        × ((never_text sys n ≡ codes "never " ++ (word ++ codes ", ")) × (never_named word ≡ Some n)) }
    ensures faults { (fault : Fault) → never_named (fault_text fault) ≡ Some (never.Fault fault) }
    ensures named { (nevers : List Never) (fault : Fault) (front rest : List ℕ) →
        faults_text nevers ≡ front ++ (codes ", never " ++ (fault_text fault ++ rest)) →
        forbids_fault nevers fault ≡ true }
    ensures all { (nevers : List Never) (fault : Fault) → faults_text nevers ≡ codes ", no fault" →
        forbids_fault nevers fault ≡ true }
{}

/// Where a claim says `over all lists of events` and names no limit before the bound, each list of events is one of
/// those that it is over.
pub fn plain_claims_are_of_all_lists<C>()
    ensures { (q : Question) (bound : ℕ) →
        lists_text q bound ≡ codes ": over all lists of events" ++ bound_text bound →
        (sys : SystemTables) (M : Meaning C) (n : ℕ) (forbidden : Line → Bool) (es : List Event) →
        IsSchedule (rules_of q) sys M n forbidden es }
{}

/// Where two texts build an image, the calls of its code are those of the task text, body by body and in order, and the
/// lines that are taken for them are those in which they stand.
pub fn calls_have_lines()
    ensures { CallsHaveLines }
{
    code_keeps_calls();
}
