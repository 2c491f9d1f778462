//! The constants of a configuration in C.
ghost use Rattle.std.specs.Prelude.{◌≡◌, [], IfOk, OnErr, length, option_copied, option_map, take};
ghost use Rattle.fmp_base.specs.Words as spec_words;
ghost use Rattle.fmp_import.specs.Constants as spec;
ghost use Rattle.fmp_import.specs.Constants.{HasDefined, HasGiven, HasMore};

use crate::directives::enabled_lexemes;
use crate::lexemes::{Lexeme, LexemeKind, lexemes};
use crate::reading::SourceReading;
use crate::terms::{NoValue, Term};
use crate::text::bytes_of;
use crate::values::{Meaning, meaning_of};
use fmp_base::Name;
use fmp_base::words::find_constant;
use std::alloc::{AllocError, Global};
use std::marker::Model;

/// What stands for a name.
#[derive(Drop)]
pub struct Definition {
    name: Name,
    value: i64,
    /// The terms that replace the name, where one of their operators stands outside of parentheses.
    terms: Vec<Term>,
}

/// What a line of the preprocessor defines.
#[derive(Clone, Copy, PartialEq, Eq)]
pub enum Defines {
    /// A constant, which is known from now on.
    Constant,
    /// A name for which something else stands already.
    Other,
    /// A name that has no number.
    NoNumber,
    /// Nothing.
    Nothing,
}

/// Constants by their names. The first definition of a name counts. Names of more than 31 bytes are not kept.
/// It is seen as the list of its definitions.
#[derive(Drop)]
pub struct Constants {
    definitions: Vec<Definition>,
    /// The names that `define` passes over: `define_again` alone defines them.
    renewed: Vec<Name>,
}

impl Model for Constants {
    ghost use Rattle.std.specs.Prelude.{List};
    ghost use Rattle.fmp_import.specs.declared.constants.Definition.{Definition};

    ghost Value = { List Definition };

    ghost view = { λ constants. constants.definitions.items };
}

/// What `fmp_view export --toppers` writes for the bytes of a stack beside those of the text.
const STACK_BESIDE: &[u8] = b"FMP_STACK";

/// The value of a limit of priorities.
fn limit_value(word: &[u8]) -> Option<i64>
    ensures { result ≡ spec.limit_value word.now }
{
    if word == b"TMIN_TPRI".as_slice() {
        return Some(1);
    }
    if word == b"TMAX_TPRI".as_slice() || word == b"TMAX_MPRI".as_slice() {
        return Some(16);
    }
    None
}

/// The value of a constant of uITRON.
fn constant_value(word: &[u8]) -> Option<i64>
    ensures { result ≡ option_map spec_words.constant_value (spec_words.constant_named word.now) }
{
    Some(i64::from(find_constant(word)?.value()))
}

/// The value of a name that is known from the first.
fn own_value(word: &[u8]) -> Option<i64>
    ensures { result ≡ spec.own_value word.now }
{
    if word == b"NULL".as_slice() || word == STACK_BESIDE {
        return Some(0);
    }
    limit_value(word).or(constant_value(word))
}

impl Constants {
    /// No constants but those of uITRON, and what `export` writes for a stack.
    pub fn new(alloc: Global) -> Constants
        ensures { result ≡ [] }
    {
        Constants {
            definitions: Vec::new(alloc),
            renewed: Vec::new(alloc),
        }
    }

    /// How many definitions there are.
    pub(crate) fn count(&self) -> usize
        ensures { result ≡ length self.now }
    {
        self.definitions.len()
    }

    /// The value of a name.
    pub(crate) fn value_named(&self, word: &[u8]) -> Option<i64>
        ensures { result ≡ spec.value_named self.now word.now }
    {
        match self.defined(word) {
            Some(definition) => Some(definition.value),
            None => own_value(word),
        }
    }

    /// The terms that replace a name. None if its value does.
    pub(crate) fn terms_named(&self, word: &[u8]) -> &[Term]
        ensures { result.now ≡ spec.terms_named self.now word.now }
    {
        match self.defined(word) {
            Some(definition) => definition.terms.as_slice(),
            None => &[],
        }
    }

    /// The first definition of a name.
    fn defined(&self, word: &[u8]) -> Option<&Definition>
        ensures { option_copied result ≡ spec.defined self.now word.now }
    {
        self.definitions
            .iter()
            .find(|definition| definition.name.as_bytes() == word)
    }

    /// Adds a constant of this name with the value of an expression, if that has one.
    fn add(
        &mut self,
        alloc: Global,
        text: &[u8],
        word: &[u8],
        expression: &[Lexeme],
    ) -> Result<bool, AllocError>
        ensures defined { IfOk result (λ added. HasDefined self.old self.new word.now added) }
        ensures given { IfOk result (λ added. HasGiven self.old self.new added) }
        ensures more { HasMore self.old self.new }
        ensures kept { OnErr result (self.new ≡ self.old) }
    {
        let reading = SourceReading {
            text,
            lexemes: expression,
            constants: self,
        };
        match (Name::new(word), meaning_of(alloc, reading, expression)) {
            (_, Err(NoValue::Memory)) => Err(AllocError),
            (Some(name), Ok(Meaning { value, terms })) => {
                self.definitions.push(Definition { name, value, terms })?;
                Ok(true)
            }
            _ => Ok(false),
        }
    }

    /// What a line defines whose name is known: nothing new if the same expression stands for it already.
    fn known(
        &self,
        alloc: Global,
        text: &[u8],
        known: &Definition,
        expression: &[Lexeme],
    ) -> Result<Defines, AllocError> {
        let reading = SourceReading {
            text,
            lexemes: expression,
            constants: self,
        };
        match meaning_of(alloc, reading, expression) {
            Err(NoValue::Memory) => Err(AllocError),
            Ok(Meaning { value, terms })
                if value == known.value && terms.as_slice() == known.terms.as_slice() => {
                Ok(Defines::Constant)
            }
            _ => Ok(Defines::Other),
        }
    }

    /// Whether one of the first definitions, of this number, has a name.
    pub(crate) fn is_among_first(&self, count: usize, word: &[u8]) -> bool
        ensures { result ≡ spec.is_defined (take count self.now) word.now }
    {
        self.definitions
            .iter()
            .take(count)
            .any(|definition| definition.name.as_bytes() == word)
    }

    /// Forgets all but the first definitions, of this number, and which names `define` passes over.
    pub(crate) fn begin_again(&mut self, count: usize)
        ensures { self.new ≡ take count self.old }
    {
        self.definitions.truncate(count);
        self.renewed.clear();
    }

    /// From now on `define` passes over this name.
    pub(crate) fn renew(&mut self, name: Name) -> Result<(), AllocError>
        ensures { self.new ≡ self.old }
    {
        self.renewed.push(name)?;
        Ok(())
    }

    /// Whether `define` passes over a name.
    fn is_renewed(&self, word: &[u8]) -> bool {
        self.renewed.iter().any(|name| name.as_bytes() == word)
    }

    /// Adds the constant that a line of the preprocessor defines, unless something stands for its name already, or the
    /// name is passed over. A macro with parameters is no constant.
    pub(crate) fn define(&mut self, alloc: Global, line: &[u8]) -> Result<Defines, AllocError>
        ensures { HasMore self.old self.new }
    {
        self.define_as(alloc, line, false)
    }

    /// The same also of a name that `define` passes over.
    pub(crate) fn define_again(&mut self, alloc: Global, line: &[u8]) -> Result<Defines, AllocError>
        ensures { HasMore self.old self.new }
    {
        self.define_as(alloc, line, true)
    }

    fn define_as(
        &mut self,
        alloc: Global,
        line: &[u8],
        is_renewal: bool,
    ) -> Result<Defines, AllocError>
        ensures { HasMore self.old self.new }
    {
        let Some(text) = line.strip_prefix(b"#") else {
            return Ok(Defines::Nothing);
        };
        let found = lexemes(alloc, text)?;
        let [word, name, expression @ ..] = found.as_slice() else {
            return Ok(Defines::Nothing);
        };
        if bytes_of(text, word.span) != b"define".as_slice() || name.kind != LexemeKind::Word {
            return Ok(Defines::Nothing);
        }
        if let [first, ..] = expression
            && first.kind == LexemeKind::Sign(b'(')
            && first.span.start == name.span.end
        {
            return Ok(Defines::NoNumber);
        }
        let name = bytes_of(text, name.span);
        match self.defined(name) {
            Some(known) => self.known(alloc, text, known, expression),
            None if !is_renewal && self.is_renewed(name) => Ok(Defines::Other),
            None => {
                let added = self.add(alloc, text, name, expression)?;
                Ok(if added {
                    Defines::Constant
                } else {
                    Defines::NoNumber
                })
            }
        }
    }

    /// Adds the constants that a header defines; its other lines are skipped.
    pub(crate) fn take_header(&mut self, alloc: Global, text: &[u8]) -> Result<(), AllocError>
        ensures { HasMore self.old self.new }
    {
        for lexeme in &enabled_lexemes(alloc, text)? {
            if lexeme.kind.is_directive() {
                self.define(alloc, bytes_of(text, lexeme.span))?;
            }
        }
        Ok(())
    }

    /// Adds a constant that is given as `NAME=VALUE`, or as `NAME` for the value 1. Says whether it is of this form.
    pub fn give(&mut self, alloc: Global, text: &[u8]) -> Result<bool, AllocError>
        ensures given { IfOk result (λ given. HasGiven self.old self.new given) }
        ensures kept { OnErr result (self.new ≡ self.old) }
    {
        let found = lexemes(alloc, text)?;
        match found.as_slice() {
            [name] if name.kind == LexemeKind::Word => {
                let one = lexemes(alloc, b"1")?;
                self.add(alloc, b"1", bytes_of(text, name.span), &one)
            }
            [name, equal, value @ ..]
                if name.kind == LexemeKind::Word && equal.kind == LexemeKind::Sign(b'=') => {
                self.add(alloc, text, bytes_of(text, name.span), value)
            }
            _ => Ok(false),
        }
    }
}
