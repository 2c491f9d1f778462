//! Another name for an object, a body or a variable, in both texts.
ghost use Rattle.std.specs.Prelude.{◌≡◌, ◌+◌, ◌||◌, ◌∷◌, [], ◌++◌, List, IfOk, MatchOption, OnOk, drop, is_some};
ghost use Rattle.json.specs.Token as json;
ghost use Rattle.fmp_base.specs.declared.names.Name.{Name};
ghost use Rattle.fmp_lex.specs.declared.token.TokenKind.TheVariants as kind;
ghost use Rattle.fmp_lex.specs.Reading.{kinds_of};
ghost use Rattle.fmp_server.specs.Documents.{AreCut, text_in};
ghost use Rattle.fmp_server.specs.Messages as message;
ghost use Rattle.fmp_server.specs.Navigation.{AreAllEdits, AreBothEdits, AreEditsIn};
ghost use Rattle.fmp_server.specs.Renaming as spec;
ghost use Rattle.fmp_server.specs.Renaming.{IsNameText, IsNoNameText, IsRenameAnswer, IsRenamed, MayHave};
ghost use Rattle.fmp_server.specs.Renaming.{MayNotHave, is_used_from};
ghost use Rattle.fmp_server.specs.Roles.{start_of};

use crate::documents::{CutTexts, OpenTexts};
use crate::messages::{Refusal, RequestId, begin_answer, finish, refused};
use crate::navigation::named_in;
use crate::positions::Position;
use crate::roles::{Named, Role, RoleWalk, is_exinf, positions_in};
use crate::writing::{begin_member, write_edits};
use fmp_base::Name;
use fmp_diagnosis::around::list_of;
use fmp_lex::{TextFile, TokenKind, Tokens};
use json::Writer;
use std::alloc::{AllocError, Global};

/// Why a name is not changed: nothing has a name there that may change.
const NOTHING: &str = "nothing whose name may change stands here";

/// The other text of the system is not open.
const HALF: &str = "the other text of the system is not open, in which the name may stand too";

/// The new name is none.
const NO_NAME: &str = "the new name is a word of the language, or no name at all";

/// The new name is that of something else.
const USED: &str = "the new name stands in the texts already";

/// The name that is the only token, if it is one.
#[tactic(auto, using(crate::proofs::Naming::only_kind))]
fn only_name(tokens: &Tokens<'_>) -> Option<Name>
    ensures { MatchOption result ((name : Name) → kinds_of tokens.now ≡ kind.Name name ∷ [] → ⊥)
        (λ name. kinds_of tokens.now ≡ kind.Name name ∷ []) }
{
    match tokens.kind(0) {
        Some(TokenKind::Name(name)) if tokens.len() == 1 => Some(name),
        _ => None,
    }
}

/// The name that a text is, if it is one and no word of the language.
fn name_of(alloc: Global, text: &str) -> Result<Option<Name>, AllocError>
    ensures { IfOk result (λ name. MatchOption name (IsNoNameText text.now) (IsNameText text.now)) }
{
    let list = list_of(alloc, text.as_bytes())?;
    match only_name(&list.tokens) {
        Some(name) if name.as_bytes() == text.as_bytes() => Ok(Some(name)),
        _ => Ok(None),
    }
}

/// Whether two names, one with this role, must differ: bodies have names of their own.
fn is_rival(one: Role, other: Role) -> bool
    ensures { result ≡ spec.is_rival one other }
{
    match (one, other) {
        (Role::Body, Role::Body) => true,
        (Role::Body | Role::Class, _) => false,
        (_, Role::Body | Role::Class) => false,
        _ => true,
    }
}

/// Whether a token is the name of a walk, and stands for something that must have another name than what has this role.
fn clashes(walk: &RoleWalk, role: Role, kind: TokenKind) -> bool
    ensures { result ≡ spec.clashes walk.now role kind }
{
    walk.is_at(kind) && is_rival(role, walk.role())
}

/// Whether the token at a place, the next of the walk, clashes. Moves the walk after it.
fn clashes_next(tokens: &Tokens<'_>, at: usize, walk: &mut RoleWalk, role: Role) -> bool
    ensures { (result || is_used_from walk.new role (drop (at + 1) (kinds_of tokens.now)))
        ≡ is_used_from walk.old role (drop at (kinds_of tokens.now)) }
{
    match tokens.kind(at) {
        Some(kind) => {
            let clashes = clashes(walk, role, kind);
            walk.take(kind);
            clashes
        }
        None => false,
    }
}

/// Whether a name stands in a text for something that must have another name than what has this role.
fn is_used_in(tokens: &Tokens<'_>, file: TextFile, name: Name, role: Role) -> bool
    ensures { result ≡ is_used_from (start_of file name) role (kinds_of tokens.now) }
{
    let mut walk = RoleWalk::new(file, name);
    for at in 0..tokens.len() {
        if clashes_next(tokens, at, &mut walk, role) {
            return true;
        }
    }
    false
}

/// Whether a name stands in one of both texts for something that must have another name than what has this role.
fn is_used(cut: &CutTexts<'_>, name: Name, role: Role) -> bool
    ensures { result ≡ spec.is_used cut.now name role }
{
    let cfg = TextFile::Configuration;
    let src = TextFile::Source;
    is_used_in(cut.tokens(cfg), cfg, name, role) || is_used_in(cut.tokens(src), src, name, role)
}

/// Why what has a name cannot have another one, whichever that is.
fn fixed(open: OpenTexts<'_>, named: Named) -> Option<&'static str>
    ensures { is_some result ≡ spec.is_fixed «open».entry named named.role }
{
    match named.role {
        Role::Class => Some(NOTHING),
        Role::Variable(_) if is_exinf(named.name) => Some(NOTHING),
        Role::Object | Role::Body if !open.are_both() => Some(HALF),
        _ => None,
    }
}

/// Why what has a name cannot have this one.
fn hindrance(
    alloc: Global,
    cut: &CutTexts<'_>,
    named: Named,
    text: &str,
) -> Result<Option<&'static str>, AllocError>
    ensures { IfOk result (λ why.
        MatchOption why (MayHave cut.now named text.now) (λ _. MayNotHave cut.now named text.now)) }
{
    if let Some(why) = fixed(cut.open, named) {
        return Ok(Some(why));
    }
    match name_of(alloc, text)? {
        None => Ok(Some(NO_NAME)),
        Some(name) if is_exinf(name) || is_used(cut, name, named.role) => Ok(Some(USED)),
        Some(_) => Ok(None),
    }
}

/// Writes the edits of one text, if it is open, that put a new name in place of each of a name.
fn write_changes(
    alloc: Global,
    writer: &mut Writer,
    cut: &CutTexts<'_>,
    file: TextFile,
    named: Named,
    text: &str,
) -> Result<(), AllocError>
    ensures before { writer.new.before ≡ writer.old.before }
    ensures tokens { OnOk result ((out : List json.Token)
        × AreEditsIn cut.now file named text.now (text_in cut.now.open file) out
        × (writer.new.tokens ≡ writer.old.tokens ++ out)) }
{
    let Some(document) = cut.open.of(file) else {
        return Ok(());
    };
    let positions = positions_in(alloc, cut.tokens(file), file, named)?;
    let (uri, bytes) = (document.uri.as_str(), document.text.as_bytes());
    write_edits(writer, uri, bytes, &positions, text)
}

/// Writes the edits of one text, and those of the other.
fn write_both_changes(
    alloc: Global,
    writer: &mut Writer,
    cut: &CutTexts<'_>,
    named: Named,
    text: &str,
) -> Result<(), AllocError>
    ensures before { writer.new.before ≡ writer.old.before }
    ensures tokens { OnOk result ((out : List json.Token) × AreBothEdits cut.now named text.now out
        × (writer.new.tokens ≡ writer.old.tokens ++ out)) }
{
    write_changes(alloc, writer, cut, TextFile::Configuration, named, text)?;
    write_changes(alloc, writer, cut, TextFile::Source, named, text)
}

/// Writes the edits of both texts.
fn write_all_changes(
    alloc: Global,
    writer: &mut Writer,
    cut: &CutTexts<'_>,
    named: Named,
    text: &str,
) -> Result<(), AllocError>
    ensures before { writer.new.before ≡ writer.old.before }
    ensures tokens { OnOk result ((out : List json.Token) × AreAllEdits cut.now named text.now out
        × (writer.new.tokens ≡ writer.old.tokens ++ out)) }
{
    writer.begin_object()?;
    begin_member(writer, "changes")?;
    write_both_changes(alloc, writer, cut, named, text)?;
    writer.end_object()?;
    writer.end_object()
}

/// The answer with the edits of both texts.
fn edits(
    alloc: Global,
    cut: &CutTexts<'_>,
    id: RequestId<'_>,
    named: Named,
    text: &str,
) -> Result<Vec<u8>, AllocError>
    ensures { IfOk result (λ bytes. (out : List json.Token) × AreAllEdits cut.now named text.now out
        × (bytes.items ≡ message.answer id.entry out)) }
{
    let mut writer = begin_answer(alloc, id)?;
    write_all_changes(alloc, &mut writer, cut, named, text)?;
    finish(writer)
}

/// The answer to a request to give what stands at a position of these texts this name.
fn renamed(
    alloc: Global,
    cut: &CutTexts<'_>,
    id: RequestId<'_>,
    position: Position,
    text: &str,
) -> Result<Vec<u8>, AllocError>
    requires { AreCut cut.now.open cut.now }
    ensures { IfOk result (λ bytes. IsRenamed cut.now id.entry position text.now bytes.items) }
{
    let Some(named) = named_in(cut, position) else {
        return refused(alloc, Some(id), Refusal::Failed, NOTHING);
    };
    match hindrance(alloc, cut, named, text)? {
        Some(why) => refused(alloc, Some(id), Refusal::Failed, why),
        None => edits(alloc, cut, id, named, text),
    }
}

/// The answer with the edits that give what stands at a position this name in both texts, or why it cannot have it.
/// `AllocError` if memory runs out.
pub fn rename(
    alloc: Global,
    open: OpenTexts<'_>,
    id: RequestId<'_>,
    position: Position,
    text: &str,
) -> Result<Vec<u8>, AllocError>
    ensures { IfOk result (λ bytes. IsRenameAnswer «open».entry id.entry position text.now bytes.items) }
{
    let cut = CutTexts::new(alloc, open)?;
    renamed(alloc, &cut, id, position, text)
}
