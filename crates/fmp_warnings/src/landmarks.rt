//! The tokens of a task text at which the warnings look: found once, in the walk over its calls.
ghost use Rattle.std.specs.Prelude.{◌≡◌, ◌++◌, ◌∷◌, [], if◌then◌else◌, OnOk};
ghost use Rattle.fmp_diagnosis.specs.Tokens as tokens;
ghost use Rattle.fmp_warnings.specs.Marks as spec;

use fmp_diagnosis::around::begins_body;
use fmp_lex::{Symbol, TokenKind};
use std::alloc::{AllocError, Global};

/// The places of the tokens at which warnings look, each list in order of text.
#[derive(Drop)]
pub struct Landmarks {
    /// Keywords, service calls and braces.
    pub structure: Vec<Mark>,
    /// The symbols of expressions between operands.
    pub operators: Vec<usize>,
    /// Brackets that open.
    pub brackets: Vec<Mark>,
    /// Where the last body begins.
    body: usize,
}

/// A token.
#[derive(Clone, Copy)]
pub struct Mark {
    /// Its place.
    pub at: usize,
    /// Where the body begins in which it stands.
    pub body: usize,
}

/// Whether a symbol stands between operands of an expression.
fn is_operator(symbol: Symbol) -> bool {
    matches!(
        symbol,
        Symbol::Equal
            | Symbol::NotEqual
            | Symbol::Less
            | Symbol::LessEqual
            | Symbol::Greater
            | Symbol::GreaterEqual
            | Symbol::Plus
            | Symbol::Star
            | Symbol::Slash
            | Symbol::Percent
    )
}

impl Landmarks {
    /// Those of a text without tokens.
    pub fn new(alloc: Global) -> Landmarks
        ensures structure { result.structure.items ≡ [] }
        ensures body { result.body ≡ 0 }
    {
        Landmarks {
            structure: Vec::new(alloc),
            operators: Vec::new(alloc),
            brackets: Vec::new(alloc),
            body: 0,
        }
    }

    /// The token at a place of the last body.
    fn mark(&self, at: usize) -> Mark
        ensures { result ≡ record { at = at; body = self.now.body } }
    {
        Mark {
            at,
            body: self.body,
        }
    }

    /// Notes a symbol at a place.
    fn note_symbol(&mut self, at: usize, symbol: Symbol) -> Result<(), AllocError>
        ensures body { OnOk result (self.new.body ≡ self.old.body) }
        ensures structure { OnOk result (self.new.structure.items ≡ self.old.structure.items
            ++ (if spec.is_structure (TokenKind.Symbol symbol) then record { at = at; body = self.old.body } ∷ []
            else [])) }
    {
        match symbol {
            Symbol::LeftBrace | Symbol::RightBrace => {
                let mark = self.mark(at);
                self.structure.push(mark)?;
            }
            Symbol::LeftBracket => {
                let mark = self.mark(at);
                self.brackets.push(mark)?;
            }
            _ if is_operator(symbol) => {
                self.operators.push(at)?;
            }
            _ => {}
        }
        Ok(())
    }

    /// Notes the next token, which stands at a place.
    pub fn note(&mut self, at: usize, kind: TokenKind) -> Result<(), AllocError>
        ensures body { OnOk result (self.new.body ≡ if tokens.begins_body kind then at else self.old.body) }
        ensures structure { OnOk result (self.new.structure.items ≡ self.old.structure.items
            ++ (if spec.is_structure kind then record { at = at; body = self.new.body } ∷ [] else [])) }
    {
        if begins_body(kind) {
            self.body = at;
        }
        match kind {
            TokenKind::Keyword(_) | TokenKind::Service(_) => {
                let mark = self.mark(at);
                self.structure.push(mark)?;
                Ok(())
            }
            TokenKind::Symbol(symbol) => self.note_symbol(at, symbol),
            _ => Ok(()),
        }
    }
}
