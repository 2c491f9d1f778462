//! What the names of a body mean: its local variables, and the objects of the configuration.

ghost use Rattle.std.specs.Prelude.{◌≡◌, ◌+◌, ◌<◌, ◌≤◌, ◌↔◌, IsTrue, ℕ, List, Option, Some, None, map, length, IfSome};
ghost use Rattle.std.specs.Prelude.{IfNone, is_some, if◌then◌else◌};
ghost use Rattle.std.specs.Str.{bytes_eq};
ghost use Rattle.fmp_base.specs.Names.{name_text};
ghost use Rattle.fmp_base.specs.Systems.{tables_of};
ghost use Rattle.fmp_tasklang.specs.Layout.{exinf_name};
ghost use Rattle.fmp_tasklang.specs.Scopes.{Variable, Array, meaning_of, object_names, object_number, place_of};
ghost use Rattle.fmp_scopes.specs.Scopes as spec;
ghost use Rattle.fmp_scopes.specs.Naming.{Reads, Writes, ReadsElement, WritesElement, at_token, use_offence};
ghost use Rattle.fmp_scopes.specs.Scopes.{HoldsNumbers, IsHeld, meaning_view, scope_view};

use crate::headings::Heading;
use crate::locals::variable_place;
use crate::numbers::ObjectNumbers;
use crate::offences::Offence;
use fmp_base::{
    CyclicConfig, DataQueueConfig, FlagConfig, MailboxConfig, MessageConfig, Name, SemaphoreConfig,
    SharedWordConfig, SpinLockConfig, System, TaskConfig,
};
use fmp_lex::{FaultKind, ObjectName};
use fmp_tasklang::{Body, Declaration, Word};

/// A row of a table that has a name.
pub trait HasName {
    ghost use Rattle.fmp_base.specs.declared.names.Name as base;

    ghost name_of: { Self → base.Name };

    /// The name.
    fn name(&self) -> &Name
        ensures { result.now ≡ name_of self.now };
}

impl HasName for Word {
    ghost name_of = { λ w. w.name };

    fn name(&self) -> &Name {
        &self.name
    }
}

impl HasName for Declaration {
    ghost name_of = { λ d. d.name.name };

    fn name(&self) -> &Name {
        &self.name.name
    }
}

impl HasName for TaskConfig {
    ghost name_of = { λ t. t.name };

    fn name(&self) -> &Name {
        &self.name
    }
}

impl HasName for SemaphoreConfig {
    ghost name_of = { λ t. t.name };

    fn name(&self) -> &Name {
        &self.name
    }
}

impl HasName for FlagConfig {
    ghost name_of = { λ t. t.name };

    fn name(&self) -> &Name {
        &self.name
    }
}

impl HasName for DataQueueConfig {
    ghost name_of = { λ t. t.name };

    fn name(&self) -> &Name {
        &self.name
    }
}

impl HasName for MailboxConfig {
    ghost name_of = { λ t. t.name };

    fn name(&self) -> &Name {
        &self.name
    }
}

impl HasName for MessageConfig {
    ghost name_of = { λ t. t.name };

    fn name(&self) -> &Name {
        &self.name
    }
}

impl HasName for SharedWordConfig {
    ghost name_of = { λ t. t.name };

    fn name(&self) -> &Name {
        &self.name
    }
}

impl HasName for SpinLockConfig {
    ghost name_of = { λ t. t.name };

    fn name(&self) -> &Name {
        &self.name
    }
}

impl HasName for CyclicConfig {
    ghost name_of = { λ t. t.name };

    fn name(&self) -> &Name {
        &self.name
    }
}

impl HasName for Body {
    ghost name_of = { λ b. b.name.name };

    fn name(&self) -> &Name {
        &self.name.name
    }
}

impl HasName for Heading {
    ghost name_of = { λ h. h.name };

    fn name(&self) -> &Name {
        &self.name
    }
}

/// The place of the first row of a name, from 0, if there is one.
#[tactic(auto, using(crate::proofs::Loops::loop_steps))]
pub fn place_in<T: HasName>(rows: &[T], name: &Name) -> Option<usize>
    ensures place { result ≡ place_of (name_text name.now) (map T.name_of rows.now) }
    ensures below { IfSome result (λ place. place < length rows.now) }
{
    for place in 0..rows.len() {
        if name.as_bytes() == rows[place].name().as_bytes() {
            return Some(place);
        }
    }
    None
}

/// The number of the object of a name, in the first table that has it.
fn object_in(objects: &Objects<'_>, name: &Name) -> Meaning
    requires { HoldsNumbers objects.now }
    ensures { meaning_view result
        ≡ object_number (name_text name.now) (object_names (tables_of objects.now.system.now)) }
{
    match objects.numbers.get(&ObjectName { name: *name }) {
        Some(number) => Meaning::Object(*number),
        None => Meaning::Unknown,
    }
}

/// What a name means in a body.
#[derive(Clone, Copy)]
pub enum Meaning {
    /// A local variable, by its number: 0 for `exinf`, then in order of declaration.
    Variable(u8),
    /// A local array, by its number among the variables.
    Array(u8),
    /// An object, by its number.
    Object(u8),
    /// Neither of them.
    Unknown,
}

/// The objects of a system, and their numbers.
#[derive(Clone, Copy)]
pub struct Objects<'a> {
    /// The system, whose tables name the objects.
    pub system: &'a System,
    /// The number of each object, by its name.
    pub numbers: &'a ObjectNumbers,
}

/// The objects of a system and the declared variables of a body.
#[derive(Clone, Copy)]
pub struct Names<'a> {
    /// The objects of the system.
    pub objects: Objects<'a>,
    /// The declared variables, without `exinf`.
    pub variables: &'a [Declaration],
    /// The number of each variable by its name, as `number_variables` gives them; none where a search is as fast.
    pub numbers: &'a Option<ObjectNumbers>,
    /// The first places of the locals, by their numbers, as `first_places` gives them; none where a search is as fast.
    pub places: &'a [u8],
}

/// Whether a name is `exinf`, that of local 0.
pub fn is_exinf(name: &Name) -> bool
    ensures { result ≡ bytes_eq (name_text name.now) (name_text exinf_name) }
{
    name.as_bytes() == b"exinf".as_slice()
}

/// Whether some object has this name.
pub fn is_object(objects: &Objects<'_>, name: &Name) -> bool
    requires { HoldsNumbers objects.now }
    ensures { result ≡ spec.is_object (tables_of objects.now.system.now) name.now }
{
    match object_in(objects, name) {
        Meaning::Unknown => false,
        _ => true,
    }
}

/// What a declared name means, given its number among the locals.
fn local_meaning(variable: &Declaration, number: u8) -> Meaning
    ensures { meaning_view result ≡ (if is_some variable.now.length then Array number else Variable number) }
{
    match variable.length {
        None => Meaning::Variable(number),
        Some(_) => Meaning::Array(number),
    }
}

/// What a name means: a local variable or array, else an object.
pub fn meaning_in(names: &Names<'_>, name: &Name) -> Meaning
    requires { IsHeld names.now }
    ensures { meaning_view result ≡ meaning_of (scope_view names.now) name.now }
{
    if is_exinf(name) {
        return Meaning::Variable(0);
    }
    match variable_place(names, name) {
        Some(place) => local_meaning(&names.variables[place], place as u8 + 1),
        None => object_in(&names.objects, name),
    }
}

/// The fault at a word, if there is one.
fn at_word(word: &Word, fault: Option<FaultKind>) -> Option<Offence>
    ensures { result ≡ at_token word.now.at fault }
{
    match fault {
        Some(why) => Some(Offence { at: word.at, why }),
        None => None,
    }
}

/// The fault of a name that is read: it is neither a variable nor an object, or it is an array.
pub fn read_offence(names: &Names<'_>, word: &Word) -> Option<Offence>
    requires { IsHeld names.now }
    ensures { result ≡ use_offence (scope_view names.now) (Reads word.now) }
{
    let fault = match meaning_in(names, &word.name) {
        Meaning::Variable(_) | Meaning::Object(_) => None,
        Meaning::Array(_) => Some(FaultKind::Shape),
        Meaning::Unknown => Some(FaultKind::UnknownName),
    };
    at_word(word, fault)
}

/// The fault of a name that is written: it is no variable, or it is an array.
pub fn write_offence(names: &Names<'_>, word: &Word) -> Option<Offence>
    requires { IsHeld names.now }
    ensures { result ≡ use_offence (scope_view names.now) (Writes word.now) }
{
    let fault = match meaning_in(names, &word.name) {
        Meaning::Variable(_) => None,
        Meaning::Array(_) => Some(FaultKind::Shape),
        Meaning::Object(_) | Meaning::Unknown => Some(FaultKind::UnknownName),
    };
    at_word(word, fault)
}

/// The fault of a name that is read with an index: it is unknown, or it is no array.
pub fn read_element_offence(names: &Names<'_>, word: &Word) -> Option<Offence>
    requires { IsHeld names.now }
    ensures { result ≡ use_offence (scope_view names.now) (ReadsElement word.now) }
{
    let fault = match meaning_in(names, &word.name) {
        Meaning::Array(_) => None,
        Meaning::Variable(_) | Meaning::Object(_) => Some(FaultKind::Shape),
        Meaning::Unknown => Some(FaultKind::UnknownName),
    };
    at_word(word, fault)
}

/// The fault of a name that is written with an index: it is no local, or no array.
pub fn write_element_offence(names: &Names<'_>, word: &Word) -> Option<Offence>
    requires { IsHeld names.now }
    ensures { result ≡ use_offence (scope_view names.now) (WritesElement word.now) }
{
    let fault = match meaning_in(names, &word.name) {
        Meaning::Array(_) => None,
        Meaning::Variable(_) => Some(FaultKind::Shape),
        Meaning::Object(_) | Meaning::Unknown => Some(FaultKind::UnknownName),
    };
    at_word(word, fault)
}
