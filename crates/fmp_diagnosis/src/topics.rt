//! The codes that the programs print.
ghost use Rattle.std.specs.Prelude.{◌≡◌, find, IfOk};
ghost use Rattle.std.specs.Str.{bytes_eq};
ghost use Rattle.fmp_diagnosis.specs.Topics as spec;
ghost use Rattle.fmp_diagnosis.specs.Topics.{EveryTopicIsFound, is_numbered, topic_named, topic_word};
ghost use Rattle.fmp_diagnosis.specs.Topics.{topic_asked as topic_asked_by};

use fmp_base::{Er, Fault};
use itoa::Buffer;
use std::alloc::{AllocError, Global};

/// A code that the programs print.
#[derive(Clone, Copy)]
pub enum Topic {
    /// A main error code, as a call answers it and as a static API refuses with it.
    Reply(Er),
    /// F_OVF: a value does not fit 32 bits.
    Overflow,
    /// F_DIV: a divisor is 0.
    Division,
    /// F_IDX: an index is out of the range of its array.
    Index,
    /// B1.
    Syntax,
    /// B2.
    TwiceNamed,
    /// B3.
    UnknownName,
    /// B4: a static API refuses its values.
    Refused,
    /// B5.
    Limit,
    /// B6.
    StackTooSmall,
    /// B7.
    WrongEntryKind,
    /// B9.
    Shape,
    /// L1.
    ImageShort,
    /// L2.
    ImageMagic,
    /// L3.
    ImageVersion,
    /// L4.
    ImageTable,
    /// L5.
    ImageCode,
    /// L6.
    ImageTrailing,
    /// S1.
    StepForm,
    /// S2.
    StepRange,
    /// S3.
    TooManySteps,
    /// H4.
    HostWork,
    /// H5.
    HostThread,
    /// R1.
    RecordingForm,
    /// R2.
    RecordingRange,
    /// R3.
    RecordingTooLong,
}

/// All of them.
pub const TOPICS: [Topic; 37] = [
    Topic::Reply(Er::Ok),
    Topic::Reply(Er::Sys),
    Topic::Reply(Er::Nospt),
    Topic::Reply(Er::Rsatr),
    Topic::Reply(Er::Par),
    Topic::Reply(Er::Id),
    Topic::Reply(Er::Ctx),
    Topic::Reply(Er::Iluse),
    Topic::Reply(Er::Obj),
    Topic::Reply(Er::Qovr),
    Topic::Reply(Er::Rlwai),
    Topic::Reply(Er::Tmout),
    Topic::Overflow,
    Topic::Division,
    Topic::Index,
    Topic::Syntax,
    Topic::TwiceNamed,
    Topic::UnknownName,
    Topic::Refused,
    Topic::Limit,
    Topic::StackTooSmall,
    Topic::WrongEntryKind,
    Topic::Shape,
    Topic::ImageShort,
    Topic::ImageMagic,
    Topic::ImageVersion,
    Topic::ImageTable,
    Topic::ImageCode,
    Topic::ImageTrailing,
    Topic::StepForm,
    Topic::StepRange,
    Topic::TooManySteps,
    Topic::HostWork,
    Topic::HostThread,
    Topic::RecordingForm,
    Topic::RecordingRange,
    Topic::RecordingTooLong,
];

impl Topic {
    /// The code as it is printed.
    pub fn word(self) -> &'static str
        ensures { result.now ≡ topic_word self }
    {
        match self {
            Topic::Reply(code) => code.name(),
            Topic::Overflow => Fault::Overflow.name(),
            Topic::Division => Fault::Division.name(),
            Topic::Index => Fault::Index.name(),
            Topic::Syntax => "B1",
            Topic::TwiceNamed => "B2",
            Topic::UnknownName => "B3",
            Topic::Refused => "B4",
            Topic::Limit => "B5",
            Topic::StackTooSmall => "B6",
            Topic::WrongEntryKind => "B7",
            Topic::Shape => "B9",
            Topic::ImageShort => "L1",
            Topic::ImageMagic => "L2",
            Topic::ImageVersion => "L3",
            Topic::ImageTable => "L4",
            Topic::ImageCode => "L5",
            Topic::ImageTrailing => "L6",
            Topic::StepForm => "S1",
            Topic::StepRange => "S2",
            Topic::TooManySteps => "S3",
            Topic::HostWork => "H4",
            Topic::HostThread => "H5",
            Topic::RecordingForm => "R1",
            Topic::RecordingRange => "R2",
            Topic::RecordingTooLong => "R3",
        }
    }
}

/// The topic of this word, among these.
fn topic_among(topics: &[Topic], word: &[u8]) -> Option<Topic>
    ensures { result ≡ find (λ topic. bytes_eq (topic_word topic) word.now) topics.now }
{
    topics
        .iter()
        .copied()
        .find(|topic| topic.word().as_bytes() == word)
}

/// The topic of this word.
#[tactic(auto, unfolding(crate::specs::Topics::topic_named))]
pub fn topic_named(word: &[u8]) -> Option<Topic>
    ensures { result ≡ topic_named word.now }
{
    topic_among(&TOPICS, word)
}

/// Whether this word is the number of an error code, with its sign or without.
fn is_number_of(code: Er, word: &[u8]) -> bool
    ensures { result ≡ spec.is_number_of code word.now }
{
    let number = code.code();
    Buffer::new().format(number).as_bytes() == word
        || Buffer::new().format(number.unsigned_abs()).as_bytes() == word
}

impl Topic {
    /// Whether it is an error code of which this word is the number.
    fn is_numbered(self, word: &[u8]) -> bool
        ensures { result ≡ is_numbered self word.now }
    {
        match self {
            Topic::Reply(code) => is_number_of(code, word),
            _ => false,
        }
    }
}

/// The error code of which this word is the number, among these.
fn numbered_among(topics: &[Topic], word: &[u8]) -> Option<Topic>
    ensures { result ≡ find (λ topic. is_numbered topic word.now) topics.now }
{
    topics.iter().copied().find(|topic| topic.is_numbered(word))
}

/// The topic that a word asks for: by what is printed, in letters of either case, or by the number of an error code,
/// with its sign or without. `AllocError` if memory runs out.
#[tactic(auto, unfolding(crate::specs::Topics::topic_asked))]
pub fn topic_asked(alloc: Global, word: &[u8]) -> Result<Option<Topic>, AllocError>
    ensures { IfOk result (λ topic. topic ≡ topic_asked_by word.now) }
{
    let mut letters = Vec::new(alloc);
    letters.extend_from_slice(word)?;
    letters.make_ascii_uppercase();
    match topic_named(&letters) {
        Some(topic) => Ok(Some(topic)),
        None => Ok(numbered_among(&TOPICS, word)),
    }
}

/// Each topic is found by its word, in letters of either case; each error code by its number, with its sign or without.
pub fn every_topic_is_found()
    ensures { EveryTopicIsFound }
{}
