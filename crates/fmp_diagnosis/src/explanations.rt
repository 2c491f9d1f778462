//! What the codes mean.
ghost use Rattle.std.specs.Prelude.{◌≡◌, ◌<◌, ◌++◌, length, IfOk, OnErr, OnOk};
ghost use Rattle.fmp_diagnosis.specs.Explanations as spec;
ghost use Rattle.fmp_diagnosis.specs.Explanations.{IsExplained, IsExplanation};

use crate::topics::Topic;
use fmp_base::Er;
use std::alloc::{AllocError, Global};

impl Topic {
    /// What the code means, in a few words.
    pub fn meaning(self) -> &'static str
        ensures { 0 < length result.now }
    {
        match self {
            Topic::Reply(Er::Ok) => "normal completion",
            Topic::Reply(Er::Sys) => "system error",
            Topic::Reply(Er::Nospt) => "unsupported function",
            Topic::Reply(Er::Rsatr) => "reserved attribute",
            Topic::Reply(Er::Par) => "parameter error",
            Topic::Reply(Er::Id) => "invalid object number",
            Topic::Reply(Er::Ctx) => "context error",
            Topic::Reply(Er::Iluse) => "illegal use of a service call",
            Topic::Reply(Er::Obj) => "object state error",
            Topic::Reply(Er::Qovr) => "queue overflow",
            Topic::Reply(Er::Rlwai) => "forced release from waiting",
            Topic::Reply(Er::Tmout) => "polling failure or time-out",
            Topic::Overflow => "overflow",
            Topic::Division => "division by zero",
            Topic::Index => "index out of range",
            Topic::Syntax => "syntax",
            Topic::TwiceNamed => "name used twice",
            Topic::UnknownName => "unknown name",
            Topic::Refused => "refused by a static API",
            Topic::Limit => "limit passed",
            Topic::StackTooSmall => "stack too small",
            Topic::WrongEntryKind => "entry of the other kind",
            Topic::Shape => "array and index do not match",
            Topic::ImageShort => "image too short",
            Topic::ImageMagic => "not an image",
            Topic::ImageVersion => "other version",
            Topic::ImageTable => "table out of its rules",
            Topic::ImageCode => "code not fit to run",
            Topic::ImageTrailing => "bytes after the image",
            Topic::StepForm => "not a step",
            Topic::StepRange => "number out of range",
            Topic::TooManySteps => "too many steps",
            Topic::HostWork => "too much work for a host, or none",
            Topic::HostThread => "no thread",
            Topic::RecordingForm => "not a line of a recording",
            Topic::RecordingRange => "number out of range",
            Topic::RecordingTooLong => "recording too long",
        }
    }

    /// When it comes.
    pub fn cause(self) -> &'static str
        ensures { 0 < length result.now }
    {
        match self {
            Topic::Reply(Er::Ok) => "The call has done what it was asked to do.",
            Topic::Reply(Er::Sys) =>
                "No call of this kernel answers it; its name is a constant of both texts.",
            Topic::Reply(Er::Nospt) =>
                "No call of this kernel answers it; its name is a constant of both texts.",
            Topic::Reply(Er::Rsatr) =>
                "A static API has attributes that are not for its kind of object.",
            Topic::Reply(Er::Par) =>
                "A value is out of its range: a priority, a time limit, a pattern, a mode, a size.",
            Topic::Reply(Er::Id) => "There is no object of this number.",
            Topic::Reply(Er::Ctx) =>
                "Not allowed here: by a handler, under a lock, or, where it waits, with dispatching disabled.",
            Topic::Reply(Er::Iluse) =>
                "The call makes no sense for its caller or its object, as it stands.",
            Topic::Reply(Er::Obj) => "The object is in a state in which it can't take the call.",
            Topic::Reply(Er::Qovr) =>
                "A count stands at its greatest value, or a task is suspended already.",
            Topic::Reply(Er::Rlwai) => "Another caller has ended the wait by rel_wai.",
            Topic::Reply(Er::Tmout) =>
                "What was waited for was not there at once, or not within the time limit.",
            Topic::Overflow =>
                "A body computed a value that does not fit 32 bits; the task or handler ends.",
            Topic::Division => "A body divided by 0; the task or handler ends.",
            Topic::Index =>
                "An index was below 0, or not below the length of its array; the task or handler ends.",
            Topic::Syntax => "The text goes on as no well-formed text does, at this line.",
            Topic::TwiceNamed => "An object, a body or a variable has the name of one before it.",
            Topic::UnknownName => "A name is used that nothing has.",
            Topic::Refused => "An API refuses its values, with the error code after B4.",
            Topic::Limit => "A number, a name, a text, a nesting or a count is out of its limits.",
            Topic::StackTooSmall => "The stack of a task does not hold the operands of its body.",
            Topic::WrongEntryKind => "A task names a handler as its entry, or a handler a task.",
            Topic::Shape =>
                "An array stands without an index, or a variable or an object with one.",
            Topic::ImageShort => "A field ends past the end of the bytes.",
            Topic::ImageMagic => "The first four bytes are not FMPI.",
            Topic::ImageVersion => "The version of the image is not 1 to 3.",
            Topic::ImageTable =>
                "A value of the header, of a body or of a row breaks a rule of its table.",
            Topic::ImageCode =>
                "An opcode is none of its version, or code can jump out of its body or take what is not there.",
            Topic::ImageTrailing => "Bytes stand after the last table.",
            Topic::StepForm => "A line of the steps is none of 'run P', 'tick' and 'int I'.",
            Topic::StepRange => "The number of a processor or of an interrupt is out of range.",
            Topic::TooManySteps =>
                "A run has at most 1048576 steps; this line is the first one too many.",
            Topic::HostWork =>
                "The turns of all processors, the ticks, and 65536 with --int are together not 1 to 1048576.",
            Topic::HostThread => "The system refused a thread for a processor.",
            Topic::RecordingForm =>
                "A line is of no known form, or the recording has the last events of its run alone.",
            Topic::RecordingRange =>
                "There is no such processor or interrupt, or a time is later than 2^53 microseconds.",
            Topic::RecordingTooLong =>
                "A recording has at most 2147483648 lines; this line is the first one too many.",
        }
    }

    /// An example of it.
    pub fn example(self) -> &'static str
        ensures { 0 < length result.now }
    {
        match self {
            Topic::Reply(Er::Ok) => "sig_sem(1) on a semaphore that is below its greatest count.",
            Topic::Reply(Er::Sys) => "put(E_SYS) prints -5.",
            Topic::Reply(Er::Nospt) => "put(E_NOSPT) prints -9.",
            Topic::Reply(Er::Rsatr) => "CRE_FLG(F, {9, 0}) is fault B4 E_RSATR.",
            Topic::Reply(Er::Par) => "chg_pri(1, 17), since priorities end at 16.",
            Topic::Reply(Er::Id) => "wai_sem(2) in a system with one semaphore.",
            Topic::Reply(Er::Ctx) => "slp_tsk() after loc_cpu().",
            Topic::Reply(Er::Iluse) => "ter_tsk of the calling task itself.",
            Topic::Reply(Er::Obj) => "wup_tsk of a task that is dormant.",
            Topic::Reply(Er::Qovr) => "sig_sem of a semaphore at its greatest count.",
            Topic::Reply(Er::Rlwai) =>
                "A task that sleeps is the argument of rel_wai: it gets E_RLWAI.",
            Topic::Reply(Er::Tmout) => "pol_sem(1) with count 0.",
            Topic::Overflow => "x = 2147483647 + 1;",
            Topic::Division => "x = 1 / 0;",
            Topic::Index => "a[3] = 1; with var a[3];",
            Topic::Syntax => "NUM_PRC(1) without its semicolon.",
            Topic::TwiceNamed => "Two CRE_SEM of the name S.",
            Topic::UnknownName => "put(y); in a task without a variable y.",
            Topic::Refused => "CRE_TSK with priority 17 is B4 E_PAR.",
            Topic::Limit => "A name of 32 bytes, or NUM_PRC(9).",
            Topic::StackTooSmall => "A stack of 4 bytes for put(1 + 2);",
            Topic::WrongEntryKind => "CRE_TSK whose entry is declared by 'handler'.",
            Topic::Shape => "put(a); with var a[3];",
            Topic::ImageShort => "The front half of an image.",
            Topic::ImageMagic => "A text in place of an image.",
            Topic::ImageVersion => "A version byte of 255.",
            Topic::ImageTable => "A task with priority 0.",
            Topic::ImageCode => "A jump past the last instruction.",
            Topic::ImageTrailing => "An image with one more line feed.",
            Topic::StepForm => "run one",
            Topic::StepRange => "run 3 in a system of 2 processors, or int 33.",
            Topic::TooManySteps => "A steps text of 1048577 lines.",
            Topic::HostWork => "fmp host with --turns 0 --ticks 0.",
            Topic::HostThread => "fmp host where no more threads may be started.",
            Topic::RecordingForm => "run 1 wai_sem, without the semaphore, or dropped 31.",
            Topic::RecordingRange => "run 3 end in a system of 2 processors, or int 33.",
            Topic::RecordingTooLong => "A recording of 2147483649 lines.",
        }
    }
}

/// Appends a word, its text and a line feed.
fn append_line(word: &str, text: &str, out: &mut Vec<u8>) -> Result<(), AllocError>
    ensures { OnOk result (out.new.items ≡ out.old.items ++ spec.line word.now text.now) }
{
    out.extend_from_slice(word.as_bytes())?;
    out.extend_from_slice(b": ")?;
    out.extend_from_slice(text.as_bytes())?;
    out.extend_from_slice(b"\n")
}

/// What is said of a code.
fn explanation(alloc: Global, topic: Topic) -> Result<Vec<u8>, AllocError>
    ensures { IfOk result (λ said. IsExplanation topic said.items) }
{
    let mut said = Vec::new(alloc);
    append_line(topic.word(), topic.meaning(), &mut said)?;
    append_line("  when", topic.cause(), &mut said)?;
    append_line("  example", topic.example(), &mut said)?;
    Ok(said)
}

/// Appends what a code means, when it comes and an example, one line each. If memory runs out, nothing is appended.
pub fn explain(alloc: Global, topic: Topic, out: &mut Vec<u8>) -> Result<(), AllocError>
    ensures ok { OnOk result (IsExplained topic out.old.items out.new.items) }
    ensures err { OnErr result (out.new.items ≡ out.old.items) }
{
    let said = explanation(alloc, topic)?;
    out.extend_from_slice(&said)
}
