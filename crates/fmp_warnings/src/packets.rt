//! Warnings of constants in the packet of a static API for which they are not.
ghost use Rattle.std.specs.Prelude.{OnOk};
ghost use Rattle.fmp_diagnosis.specs.Words.{IsSaid};

use crate::found::FoundWarnings;
use fmp_diagnosis::apis::{api_at, begin_of, value_last};
use fmp_diagnosis::fields::{Field, attributes_of, fields_of, takes_attribute};
use fmp_diagnosis::words::{Word, say};
use fmp_lex::{Api, Constant, TextFile, TokenKind, Tokens};
use std::alloc::{AllocError, Global};

/// Whether a constant is an attribute.
fn is_attribute(constant: Constant) -> bool {
    !matches!(
        constant,
        Constant::Code(_)
            | Constant::TwfAndw
            | Constant::TwfOrw
            | Constant::TmoPol
            | Constant::TmoFevr
            | Constant::TskSelf
            | Constant::TpriIni
            | Constant::TpriSelf
    )
}

/// Whether a constant may well stand in a field of a static API. Any number is taken where the field is not a measure.
fn is_at_home(api: Api, field: Field, constant: Constant) -> bool {
    match field {
        Field::Attribute => takes_attribute(api, constant),
        Field::ExtendedInformation | Field::SharedWord => true,
        _ => !is_attribute(constant),
    }
}

/// The constant at a place, if it is not for this field.
fn stray_constant(tokens: &Tokens<'_>, at: usize, api: Api, field: Field) -> Option<Constant> {
    match tokens.kind(at) {
        Some(TokenKind::Constant(constant)) if !is_at_home(api, field, constant) => Some(constant),
        _ => None,
    }
}

/// Says that a constant is not for this field.
fn say_stray(
    api: Api,
    field: Field,
    constant: Constant,
    out: &mut Vec<u8>,
) -> Result<(), AllocError>
    ensures { OnOk result (IsSaid out.old.items out.new.items) }
{
    let constant = Word::Quoted(constant.name());
    let of = Word::Quoted(api.name());
    if field == Field::Attribute {
        let is = Word::Text(" is not an attribute of ");
        let takes = Word::Text("; its attribute must be ");
        return say(
            &[constant, is, of, takes, Word::Text(attributes_of(api))],
            out,
        );
    }
    let is = Word::Text(" is an attribute, but it stands for ");
    say(
        &[
            constant,
            is,
            Word::The(field.called()),
            Word::Text(" of "),
            of,
        ],
        out,
    )
}

/// Warns of the constants in a field of the API at a place that are not for it.
fn warn_of_field(
    cfg: &Tokens<'_>,
    at: usize,
    api: Api,
    field: Field,
    found: &mut FoundWarnings<'_>,
) -> Result<(), AllocError> {
    let begin = begin_of(cfg, at, api, field);
    for place in begin..value_last(cfg, begin).saturating_add(1) {
        if let Some(constant) = stray_constant(cfg, place, api, field) {
            let mut sentence = Vec::new(found.alloc);
            say_stray(api, field, constant, &mut sentence)?;
            found.warn(TextFile::Configuration, cfg, place, sentence)?;
        }
    }
    Ok(())
}

/// Warns of the constants of a configuration that are not for the field in which they stand.
pub fn warn_of_constants(
    cfg: &Tokens<'_>,
    found: &mut FoundWarnings<'_>,
) -> Result<(), AllocError> {
    for at in 0..cfg.len() {
        if let Some(api) = api_at(cfg, at) {
            for field in fields_of(api) {
                if field.is_value() {
                    warn_of_field(cfg, at, api, *field, found)?;
                }
            }
        }
    }
    Ok(())
}
