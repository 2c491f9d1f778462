//! What is written: the objects of a configuration, in blocks of their classes.
use fmp_base::words::{Api, Constant};

/// A part of a text: its bytes from `start` up to `end`, as far as the text goes.
#[derive(Clone, Copy)]
pub struct TextSpan {
    pub start: usize,
    pub end: usize,
}

/// What a static API is given at one place.
#[derive(Clone, Copy)]
pub enum PlanItem {
    /// A name: the whole word that stands here in the source.
    Name(TextSpan),
    /// The name of a body that is a word of this project in the source: that word, and `_` after it.
    Escaped(TextSpan),
    Number(i32),
    /// The constants of an attribute.
    Attribute(Constant, Option<Constant>, Option<Constant>),
    Null,
}

/// An object: its static API with what it is given.
#[derive(Drop)]
pub struct Record {
    pub api: Api,
    /// The name, or the number of an interrupt.
    pub subject: PlanItem,
    pub attribute: PlanItem,
    /// What stands after the attribute.
    pub rest: Vec<PlanItem>,
}

/// A class: the processor on which its tasks begin, from 1, and whether they stay there.
#[derive(Clone, Copy, PartialEq, Eq)]
pub struct SourceClass {
    pub processor: u8,
    pub only: bool,
}

/// The objects of a class.
#[derive(Drop)]
pub struct Block {
    pub class: SourceClass,
    pub records: Vec<Record>,
}
