//! The names that are known at a position of the texts.
ghost use Rattle.std.specs.Prelude.{◌≡◌, slice_get, IfOk, OnOk};
ghost use Rattle.std.specs.Option.{option_and_then};
ghost use Rattle.fmp_base.specs.Names.{name_text};
ghost use Rattle.fmp_diagnosis.specs.Nearest.{IsAsked, IsMeant, IsMeantName};
ghost use Rattle.fmp_diagnosis.specs.Words.{IsSaid, IsSaidFirst, MaySay, quoted};

use crate::apis::object_name;
use crate::around::{begins_body_at, last_body, name_at};
use crate::fields::takes_attribute;
use crate::nearness::{nearest, other_case};
use crate::words::{Word, ask_whether, say_of};
use fmp_base::{Name, SERVICES, Service};
use fmp_lex::words::{APIS, CONSTANTS, KEYWORDS};
use fmp_lex::{Api, Keyword, TextFile, TokenKind, Tokens};
use std::alloc::{AllocError, Global};

fn add(known: &mut Vec<Name>, text: &str) -> Result<(), AllocError> {
    if let Some(name) = Name::new(text.as_bytes()) {
        known.push(name)?;
    }
    Ok(())
}

/// The names of the constants.
pub fn constants(alloc: Global) -> Result<Vec<Name>, AllocError> {
    let mut known = Vec::new(alloc);
    for constant in &CONSTANTS {
        add(&mut known, constant.name())?;
    }
    Ok(known)
}

/// The names of the constants of which the attribute of a static API is made.
pub fn attributes(alloc: Global, api: Api) -> Result<Vec<Name>, AllocError> {
    let mut known = Vec::new(alloc);
    for constant in &CONSTANTS {
        if takes_attribute(api, *constant) {
            add(&mut known, constant.name())?;
        }
    }
    Ok(known)
}

/// The text in which a keyword stands.
fn text_of(keyword: Keyword) -> TextFile {
    match keyword {
        Keyword::NumPrc | Keyword::Class | Keyword::Null => TextFile::Configuration,
        _ => TextFile::Source,
    }
}

/// The keywords of a text.
pub fn keywords(alloc: Global, file: TextFile) -> Result<Vec<Name>, AllocError> {
    let mut known = Vec::new(alloc);
    for keyword in &KEYWORDS {
        if text_of(*keyword) == file {
            add(&mut known, keyword.name())?;
        }
    }
    Ok(known)
}

/// The names of the static APIs.
pub fn apis(alloc: Global) -> Result<Vec<Name>, AllocError> {
    let mut known = Vec::new(alloc);
    for api in &APIS {
        add(&mut known, api.name())?;
    }
    Ok(known)
}

/// The names of the service calls.
pub fn services(alloc: Global) -> Result<Vec<Name>, AllocError> {
    let mut known = Vec::new(alloc);
    for service in &SERVICES {
        add(&mut known, service.name())?;
    }
    Ok(known)
}

/// The names of the objects of a configuration, in order of text.
pub fn objects(alloc: Global, tokens: &Tokens<'_>) -> Result<Vec<Name>, AllocError> {
    let mut known = Vec::new(alloc);
    for at in 0..tokens.len() {
        if let Some(name) = object_name(tokens, at) {
            known.push(name)?;
        }
    }
    Ok(known)
}

/// The names of the bodies of a task text, in order of text.
pub fn bodies(alloc: Global, tokens: &Tokens<'_>) -> Result<Vec<Name>, AllocError> {
    let mut known = Vec::new(alloc);
    for at in 0..tokens.len() {
        if begins_body_at(tokens, at) {
            if let Some(name) = name_at(tokens, at.saturating_add(1)) {
                known.push(name)?;
            }
        }
    }
    Ok(known)
}

/// The variables of the last body among tokens: `exinf`, and those that it declares.
pub fn variables(alloc: Global, tokens: &Tokens<'_>) -> Result<Vec<Name>, AllocError> {
    let mut known = Vec::new(alloc);
    add(&mut known, "exinf")?;
    for at in last_body(tokens)..tokens.len() {
        if let Some(TokenKind::Keyword(Keyword::Var)) = tokens.kind(at) {
            if let Some(name) = name_at(tokens, at.saturating_add(1)) {
                known.push(name)?;
            }
        }
    }
    Ok(known)
}

/// The place of the known name that was meant by a name: the nearest one if one is near, else one with the same letters
/// in another case.
fn meant(alloc: Global, name: &Name, known: &[Name]) -> Result<Option<usize>, AllocError>
    ensures { IfOk result (IsMeant name.now known.now) }
{
    match nearest(alloc, name, known)? {
        Some(place) => Ok(Some(place)),
        None => Ok(other_case(name, known)),
    }
}

/// The known name at a place, if it is given and there is one.
fn known_at(known: &[Name], place: Option<usize>) -> Option<Name>
    ensures { result ≡ option_and_then (λ k. slice_get known.now k) place }
{
    match place {
        Some(place) => known.get(place).copied(),
        None => None,
    }
}

/// The known name that was meant by a name: the nearest one if one is near, else one with the same letters in another
/// case; none if there is neither. `AllocError` if memory runs out.
pub fn name_meant(alloc: Global, name: &Name, known: &[Name]) -> Result<Option<Name>, AllocError>
    ensures { IfOk result (IsMeantName name.now known.now) }
{
    let place = meant(alloc, name, known)?;
    Ok(known_at(known, place))
}

/// Asks whether a known name was meant, where one is near.
pub fn say_nearest(
    alloc: Global,
    name: &Name,
    known: &[Name],
    out: &mut Vec<u8>,
) -> Result<(), AllocError>
    ensures said { OnOk result (MaySay out.old.items out.new.items) }
    ensures asks { OnOk result (IsAsked name.now known.now out.old.items out.new.items) }
{
    match name_meant(alloc, name, known)? {
        Some(found) => ask_whether(&found, out),
        None => Ok(()),
    }
}

/// Says of a name that it is none of the known ones, in these words, and asks whether one of them was meant.
pub fn say_unknown_of(
    alloc: Global,
    name: &Name,
    words: &[Word],
    known: &[Name],
    out: &mut Vec<u8>,
) -> Result<(), AllocError>
    ensures said { OnOk result (IsSaid out.old.items out.new.items) }
    ensures names { OnOk result (IsSaidFirst (quoted (name_text name.now)) out.old.items out.new.items) }
{
    say_of(name, words, out)?;
    say_nearest(alloc, name, known, out)
}
