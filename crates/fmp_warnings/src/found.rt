//! The warnings of two texts, as they are found.
ghost use Rattle.std.specs.Prelude.{◌≡◌, ◌+◌, [], length, IfOk, OnOk};
ghost use Rattle.fmp_diagnosis.specs.Reports.{IsWarning, text_of};
ghost use Rattle.fmp_warnings.specs.Warned.{AddsOne, IsSaidAt, shown_at};

use fmp_diagnosis::apis::is_symbol;
use fmp_diagnosis::{FaultReport, Texts, column_after, excerpt_at};
use fmp_lex::{Symbol, TextFile, TokenPosition, Tokens};
use std::alloc::{AllocError, Global};

/// A warning: which text it is about, and what is said of it.
#[derive(Drop)]
pub struct Warning {
    pub file: TextFile,
    pub finding: FaultReport,
}

/// The warnings of two texts so far.
#[derive(Drop)]
pub struct FoundWarnings<'a> {
    /// The allocator of what is said.
    pub alloc: Global,
    texts: Texts<'a>,
    pub list: Vec<Warning>,
}

/// Where the token at a place stands, with the number after it in its line if it is a minus.
fn position_at(tokens: &Tokens<'_>, at: usize) -> TokenPosition
    ensures { result ≡ shown_at tokens.now at }
{
    let Some(position) = tokens.position(at) else {
        return TokenPosition {
            line: 1,
            start: 0,
            end: 0,
        };
    };
    if !is_symbol(tokens, at, Symbol::Minus) {
        return position;
    }
    match tokens.position(at.saturating_add(1)) {
        Some(next) if next.line == position.line => TokenPosition {
            end: next.end,
            ..position
        },
        _ => position,
    }
}

/// A warning of what stands at a position of a text.
fn warning_at(
    alloc: Global,
    text: &[u8],
    position: TokenPosition,
    sentence: Vec<u8>,
) -> Result<FaultReport, AllocError>
    ensures { IfOk result (IsWarning text.now position sentence.items) }
{
    let at = (position.start as usize).min(text.len());
    let excerpt = excerpt_at(alloc, text, at, position.end as usize)?;
    Ok(FaultReport {
        line: position.line,
        end: column_after(excerpt.column, at, position.end as usize),
        excerpt,
        code: "warning",
        refusal: "",
        sentence,
    })
}

impl<'a> FoundWarnings<'a> {
    /// No warnings of these texts.
    pub fn new(alloc: Global, texts: Texts<'a>) -> FoundWarnings<'a>
        ensures list { result.list.items ≡ [] }
        ensures texts { result.texts ≡ texts.entry }
    {
        FoundWarnings {
            alloc,
            texts,
            list: Vec::new(alloc),
        }
    }

    /// One more warning: of the token at a place of a text, with this sentence.
    pub fn warn(
        &mut self,
        file: TextFile,
        tokens: &Tokens<'_>,
        at: usize,
        sentence: Vec<u8>,
    ) -> Result<(), AllocError>
        ensures grows { OnOk result (length self.new.list.items ≡ length self.old.list.items + 1) }
        ensures adds { OnOk result (AddsOne
            (IsSaidAt file (text_of self.old.texts file) tokens.now at sentence.items) self.old self.new) }
    {
        let position = position_at(tokens, at);
        let finding = warning_at(self.alloc, self.texts.of(file), position, sentence)?;
        self.list.push(Warning { file, finding })?;
        Ok(())
    }
}
