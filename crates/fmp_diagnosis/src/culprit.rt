//! Where a fault is shown: at its position, or at the tokens beside it that are to be changed.
ghost use Rattle.std.specs.Prelude.{◌≡◌, true, length, option_map, slice_range, min, IfOk};
ghost use Rattle.fmp_diagnosis.specs.Culprits as spec;
ghost use Rattle.fmp_diagnosis.specs.Culprits.{HasTokens, IsCulprit};

use crate::apis::{api_at, begin_of, unknown_constant_place, value_last};
use crate::around::{Around, around_position, list_of};
use crate::fields::Field;
use crate::refusals::field_refused;
use crate::syntax::{is_due_to_word_before, wants_semicolon};
use crate::words::word_length;
use fmp_lex::laws::a_text_has_one_cut;
use fmp_lex::{Api, FaultKind, TextFile, TokenKind, TokenPosition, Tokens};
use std::alloc::{AllocError, Global};

/// Where a fault is shown.
#[derive(Clone, Copy)]
pub enum Aim {
    /// At its position.
    Here,
    /// There, up to the end of a word or a number that is no token.
    Whole,
    /// At the token before its position.
    Before,
    /// After that token, where something is missing.
    After,
    /// From the first byte of one token of the text to the last byte of another; the first alone, if the other one
    /// stands in another line.
    Tokens(usize, usize),
}

/// From the first byte of one token to the last of another in its line.
fn joined(tokens: &Tokens<'_>, first: usize, last: usize) -> Option<TokenPosition>
    ensures { result ≡ spec.joined (spec.position_at tokens.now first) (spec.position_at tokens.now last) }
{
    let from = tokens.position(first)?;
    let to = tokens.position(last)?;
    Some(TokenPosition {
        line: from.line,
        start: from.start,
        end: if to.line == from.line {
            to.end
        } else {
            from.end
        },
    })
}

/// After the last byte of a token.
fn after(tokens: &Tokens<'_>, at: usize) -> Option<TokenPosition>
    ensures { result ≡ option_map spec.after (spec.position_at tokens.now at) }
{
    let position = tokens.position(at)?;
    Some(TokenPosition {
        line: position.line,
        start: position.end,
        end: position.end,
    })
}

/// From a position of a text on, up to the end of the word or the number that begins there.
fn whole(text: &[u8], position: TokenPosition) -> TokenPosition
    ensures { result ≡ spec.whole text.now position }
{
    let at = (position.start as usize).min(text.len());
    let length = word_length(&text[at..]);
    let end = (position.start as usize)
        .saturating_add(length)
        .min(u32::MAX as usize);
    TokenPosition {
        end: position.end.max(end as u32),
        ..position
    }
}

impl Aim {
    /// Where it leads from the token at a place of a text; nowhere if there is no such token.
    fn position(
        self,
        text: &[u8],
        here: TokenPosition,
        tokens: &Tokens<'_>,
        at: usize,
    ) -> Option<TokenPosition>
        ensures { result ≡ spec.aimed text.now here tokens.now at self }
    {
        match self {
            Aim::Here => None,
            Aim::Whole => Some(whole(text, here)),
            Aim::Before => tokens.position(at.saturating_sub(1)),
            Aim::After => after(tokens, at.saturating_sub(1)),
            Aim::Tokens(first, last) => joined(tokens, first, last),
        }
    }
}

/// The first and the last token of a field of the API that begins these tokens.
fn field_span(tokens: &Tokens<'_>, api: Api, field: Field) -> (usize, usize) {
    let first = begin_of(tokens, 0, api, field);
    (first, value_last(tokens, first))
}

/// The field of the API that begins these tokens which has a fault of this kind.
fn faulty_field(tokens: &Tokens<'_>, api: Api, kind: FaultKind) -> Option<Field> {
    match kind {
        FaultKind::Api(code) => field_refused(tokens, api, code),
        FaultKind::TwiceNamed => Some(Field::Name),
        FaultKind::UnknownName | FaultKind::WrongEntryKind => Some(Field::Entry),
        FaultKind::StackTooSmall => Some(Field::StackSize),
        FaultKind::Syntax | FaultKind::Limit | FaultKind::Shape => None,
    }
}

/// The first and the last of the tokens to which a fault of the API that begins these tokens is due.
fn faulty_span(tokens: &Tokens<'_>, kind: FaultKind) -> Option<(usize, usize)> {
    let api = api_at(tokens, 0)?;
    if kind == FaultKind::UnknownName {
        if let Some(at) = unknown_constant_place(tokens, 0, api) {
            return Some((at, at));
        }
    }
    let field = faulty_field(tokens, api, kind)?;
    Some(field_span(tokens, api, field))
}

/// Where a fault at the word of a static API is shown, or at another token that is no fault of syntax.
fn aim_in_api(around: &Around<'_>, kind: FaultKind) -> Aim
    requires { spec.is_in_api kind ≡ true }
    ensures { spec.fits kind (length around.now.before.tokens) result ≡ true }
{
    match faulty_span(&around.rest.tokens, kind) {
        Some((first, last)) => {
            let at = around.before.tokens.len();
            Aim::Tokens(at.saturating_add(first), at.saturating_add(last))
        }
        None => Aim::Here,
    }
}

/// Whether what stands at the position is no token.
fn is_no_token(around: &Around<'_>) -> bool {
    matches!(around.here(), Some(TokenKind::Bad(_)))
}

/// Where a fault of syntax is shown.
fn aim_of_syntax(alloc: Global, around: &Around<'_>) -> Result<Aim, AllocError>
    ensures { IfOk result (λ aim. spec.fits FaultKind.Syntax (length around.now.before.tokens) aim ≡ true) }
{
    if is_no_token(around) {
        return Ok(Aim::Whole);
    }
    if is_due_to_word_before(around) {
        return Ok(Aim::Before);
    }
    if wants_semicolon(alloc, around)? {
        return Ok(Aim::After);
    }
    Ok(Aim::Here)
}

/// Where a fault of this kind is shown.
fn aim_of(alloc: Global, around: &Around<'_>, kind: FaultKind) -> Result<Aim, AllocError>
    ensures { IfOk result (λ aim. spec.fits kind (length around.now.before.tokens) aim ≡ true) }
{
    match kind {
        FaultKind::Syntax => aim_of_syntax(alloc, around),
        FaultKind::Limit if is_no_token(around) => Ok(Aim::Whole),
        FaultKind::Limit | FaultKind::Shape => Ok(Aim::Here),
        _ => Ok(aim_in_api(around, kind)),
    }
}

/// Where a fault of this kind at a position of a text is shown, around which it was looked at.
pub(crate) fn culprit_around(
    alloc: Global,
    text: &[u8],
    around: &Around<'_>,
    position: TokenPosition,
    kind: FaultKind,
) -> Result<TokenPosition, AllocError>
    requires { HasTokens (slice_range text.now 0 (min position.start (length text.now))) around.now.before.tokens }
    ensures { IfOk result (IsCulprit text.now position kind) }
{
    match aim_of(alloc, around, kind)? {
        Aim::Here => {
            // The text has tokens, which are not looked at.
            a_text_has_one_cut();
            Ok(position)
        }
        aim => {
            let list = list_of(alloc, text)?;
            let at = around.before.tokens.len();
            let shown = aim.position(text, position, &list.tokens, at);
            Ok(shown.unwrap_or(position))
        }
    }
}

/// Where a fault of this kind at a position of a text is shown. `AllocError` if memory runs out.
pub fn culprit_of(
    alloc: Global,
    text: &[u8],
    file: TextFile,
    position: TokenPosition,
    kind: FaultKind,
) -> Result<TokenPosition, AllocError>
    ensures { IfOk result (IsCulprit text.now position kind) }
{
    let around = around_position(alloc, file, text, position.start as usize)?;
    culprit_around(alloc, text, &around, position, kind)
}
