//! Warnings of waits for bits of an eventflag that nothing sets.
ghost use Rattle.std.specs.Prelude.{OnOk};
ghost use Rattle.fmp_diagnosis.specs.Words.{IsSaid};

use crate::found::FoundWarnings;
use crate::landmarks::Landmarks;
use crate::objects::NamedObjects;
use crate::walk::{WalkedArgument, lone_argument};
use fmp_base::{Name, Service};
use fmp_diagnosis::apis::is_symbol;
use fmp_diagnosis::around::name_at;
use fmp_diagnosis::words::{Word, say};
use fmp_lex::{Api, Symbol, TextFile, TokenKind, Tokens};
use std::alloc::{AllocError, Global};

/// The name that is the first argument of the call whose word stands at a place, and has others after it.
fn first_name(tokens: &Tokens<'_>, at: usize) -> Option<Name> {
    if !is_symbol(tokens, at.saturating_add(3), Symbol::Comma) {
        return None;
    }
    name_at(tokens, at.saturating_add(2))
}

/// Notes the bits that an argument sets, if it is the bits of a call that sets some of an eventflag by its name.
pub fn note_bits(objects: &mut NamedObjects, tokens: &Tokens<'_>, argument: WalkedArgument) {
    if argument.place != 1 || !matches!(argument.service, Service::SetFlg | Service::IsetFlg) {
        return;
    }
    let bits = match lone_argument(tokens, argument.at) {
        Some(lone) => lone.number(),
        None => None,
    };
    if let Some(name) = first_name(tokens, argument.at.saturating_sub(4)) {
        objects.note_bits(name, bits);
    }
}

/// Bits for which a call waits, and which nothing sets.
#[derive(Clone, Copy)]
struct MissedBits {
    service: Service,
    flag: Name,
    bits: u32,
}

/// Which of the bits that a call waits for are never set, where the wait needs one of those: any of them if it is for
/// all bits, else all of them.
fn missed_of(awaited: i64, set: i64, waits_for_all: bool) -> Option<i64> {
    let missed = awaited & !set;
    let is_met = if waits_for_all {
        missed == 0
    } else {
        missed != awaited
    };
    if is_met || awaited <= 0 {
        None
    } else {
        Some(missed)
    }
}

/// The bits for which the call at a place waits, and which nothing sets. `pol_flg` does not wait. Nothing is said of an
/// eventflag that no call sets, and of bits that are no number.
fn missed_at(objects: &NamedObjects, tokens: &Tokens<'_>, at: usize) -> Option<MissedBits> {
    let TokenKind::Service(service) = tokens.kind(at)? else {
        return None;
    };
    if !matches!(service, Service::WaiFlg | Service::TwaiFlg) {
        return None;
    }
    let flag = first_name(tokens, at)?;
    let object = objects.named(flag)?;
    if !matches!(object.api, Api::CreFlg) || !objects.uses_of(&object).is_raised {
        return None;
    }
    let awaited = lone_argument(tokens, at.saturating_add(4))?.number()?;
    let waits_for_all = match lone_argument(tokens, at.saturating_add(6)) {
        Some(mode) => mode.number() == Some(0),
        None => false,
    };
    let bits = missed_of(awaited, objects.bits_of(&object), waits_for_all)?;
    let bits = u32::try_from(bits).ok()?;
    Some(MissedBits {
        service,
        flag,
        bits,
    })
}

/// Says which bits nothing sets.
fn say_missed(alloc: Global, missed: MissedBits, out: &mut Vec<u8>) -> Result<(), AllocError>
    ensures { OnOk result (IsSaid out.old.items out.new.items) }
{
    let bits = format!(in alloc; "nothing sets the bits 0x{:x}", missed.bits)?;
    out.extend_from_slice(bits.as_bytes())?;
    say(
        &[
            Word::Text(" of "),
            Word::Name(missed.flag),
            Word::Text(", for which `"),
            Word::Text(missed.service.name()),
            Word::Text("` waits"),
        ],
        out,
    )
}

/// Warns of the waits of a task text for bits of an eventflag that are not set at first and that no call sets. That is
/// certain: each call that sets bits of the eventflag gives them as a number.
pub fn warn_of_bits(
    (src, landmarks): (&Tokens<'_>, &Landmarks),
    objects: &NamedObjects,
    found: &mut FoundWarnings<'_>,
) -> Result<(), AllocError> {
    for mark in &landmarks.structure {
        let at = mark.at;
        if let Some(missed) = missed_at(objects, src, at) {
            let mut sentence = Vec::new(found.alloc);
            say_missed(found.alloc, missed, &mut sentence)?;
            found.warn(TextFile::Source, src, at.saturating_add(4), sentence)?;
        }
    }
    Ok(())
}
