//! Names that an object can have, and what may stand only once in an image.

ghost use Rattle.std.specs.Prelude.{◌≡◌, ◌++◌, ◌∷◌, [], true, false, MatchOption, OnOk};
ghost use Rattle.std.specs.List.{list_all};
ghost use Rattle.fmp_base.specs.Names.{name_text, name_from};
ghost use Rattle.fmp_base.specs.Words.{is_letter, is_word, service_named};
ghost use Rattle.fmp_image_bytes.specs.Keys.{begins_and_goes_on, is_service_of, is_reserved, is_name, key_input};
ghost use Rattle.fmp_image_bytes.specs.Keys.{same_key, is_taken};
ghost use Rattle.fmp_image_bytes.specs.KeyLaws.{are_alike, are_partly_alike, hashed_alike};

use crate::versions::has_service;
use fmp_base::Name;
use fmp_base::words::{find_api, find_constant, find_keyword, find_service};
use indexmap::IndexSet;
use std::alloc::AllocFailed;
use std::hash::{Hash, Hasher};

/// What may stand only once in an image: the name of an object, or the number of an interrupt with a handler. Two names
/// are the same where their bytes are.
#[derive(Clone, Copy)]
pub enum Key {
    Name(Name),
    Interrupt(u8),
}

fn is_letter(byte: u8) -> bool
    ensures { result ≡ is_letter byte }
{
    (65 <= byte && byte <= 90) || (97 <= byte && byte <= 122) || byte == 95
}

fn is_word(byte: u8) -> bool
    ensures { result ≡ is_word byte }
{
    is_letter(byte) || (48 <= byte && byte <= 57)
}

fn are_word(bytes: &[u8]) -> bool
    ensures { result ≡ list_all is_word bytes.now }
{
    bytes.iter().all(|byte| is_word(*byte))
}

fn begins_and_goes_on(text: &[u8]) -> bool
    ensures { result ≡ begins_and_goes_on text.now }
{
    match text {
        [] => false,
        [first, rest @ ..] => is_letter(*first) && are_word(rest),
    }
}

fn is_service_of(version: u16, text: &[u8]) -> bool
    ensures { result ≡ is_service_of version (service_named text.now) }
{
    match find_service(text) {
        None => false,
        Some(service) => has_service(version, service),
    }
}

fn is_reserved(version: u16, text: &[u8]) -> bool
    ensures { result ≡ is_reserved version text.now }
{
    find_constant(text).is_some()
        || find_api(text).is_some()
        || is_service_of(version, text)
        || find_keyword(text).is_some()
}

/// Whether an object in an image of a version can have this name: 1 to 31 bytes, a letter or `_` and then letters,
/// digits and `_`, and no word of the texts of that version.
#[tactic(auto, unfolding(crate::specs::Keys::is_name))]
pub fn is_name(version: u16, text: &[u8]) -> bool
    ensures { result ≡ is_name version text.now }
{
    text.len() <= 31 && begins_and_goes_on(text) && !is_reserved(version, text)
}

/// The name of this text, if an object in an image of a version can have it: `None` if `is_name` says no.
#[tactic(auto, using(crate::proofs::Names::name_fits))]
pub fn name_of(version: u16, text: &[u8]) -> Option<Name>
    ensures { MatchOption result (is_name version text.now ≡ false)
        (λ name. (is_name version text.now ≡ true) × (name ≡ name_from text.now)) }
{
    if is_name(version, text) {
        Name::new(text)
    } else {
        None
    }
}

impl PartialEq for Key {
    ghost eq = { same_key };

    ghost laws = { are_partly_alike };

    fn eq(&self, other: &Key) -> bool {
        match (self, other) {
            (Key::Name(x), Key::Name(y)) => x.as_bytes() == y.as_bytes(),
            (Key::Interrupt(i), Key::Interrupt(j)) => *i == *j,
            (Key::Name(_), Key::Interrupt(_)) => false,
            (Key::Interrupt(_), Key::Name(_)) => false,
        }
    }
}

impl Eq for Key {
    ghost laws = { are_alike };
}

impl Hash for Key {
    ghost hash_input = { key_input };

    ghost respects_eq = { hashed_alike };

    fn hash<H: Hasher>(&self, state: &mut H) {
        match self {
            Key::Name(name) => name.as_bytes().hash(state),
            Key::Interrupt(number) => number.hash(state),
        }
    }
}

/// The keys that stand in an image already, in their order.
pub type TakenKeys = IndexSet<Key>;

/// Whether a key stands among these.
pub fn is_taken(key: &Key, taken: &TakenKeys) -> bool
    ensures { result ≡ is_taken key.now taken.now.keys }
{
    taken.contains(key)
}

#[tactic(auto, using(crate::specs::KeyLaws::put_last))]
/// Enters a key that does not stand among these after them. `AllocFailed` if memory runs out.
pub fn take(key: Key, taken: &mut TakenKeys) -> Result<(), AllocFailed<Key>>
    requires { is_taken key taken.old.keys ≡ false }
    ensures { OnOk result (taken.new.keys ≡ taken.old.keys ++ key ∷ []) }
{
    taken.insert(key)?;
    Ok(())
}
