//! The syntax tree of a configuration.
use fmp_base::Name;
use fmp_lex::{Api, Constant};

/// A part of a value. Whether it has an unknown constant is judged when the value is computed.
#[derive(Clone, Copy)]
pub enum Item {
    /// A number, 0 to 2147483647.
    Number(i32),
    /// A number after a minus sign.
    Minus(i32),
    /// A constant of the uITRON 4.0 specification.
    Constant(Constant),
    /// An unknown constant.
    Name(Name),
}

/// Items that are joined by or; there is at least one.
#[derive(Drop)]
pub enum Value {
    /// The only item.
    One(Item),
    /// The items, where there are several.
    Joined(Vec<Item>),
}

/// What a static API is given at one place.
#[derive(Drop)]
pub enum ApiField {
    Value(Value),
    /// The name of an object or of an entry.
    Name(Name),
}

/// A static API with its first field and those of its packet, in order of text, without NULL.
#[derive(Drop)]
pub struct StaticApi {
    pub kind: Api,
    /// The place of the API's word among the tokens.
    pub at: usize,
    pub fields: Vec<ApiField>,
}

/// A class with its static APIs.
#[derive(Drop)]
pub struct Class {
    pub name: Name,
    /// The place of the name among the tokens.
    pub at: usize,
    pub apis: Vec<StaticApi>,
}

/// The syntax tree of a configuration.
#[derive(Drop)]
pub struct Configuration {
    /// The number of NUM_PRC.
    pub processors: i32,
    /// The place of that number among the tokens.
    pub at: usize,
    pub classes: Vec<Class>,
}
