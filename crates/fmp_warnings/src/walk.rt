//! A walk over the calls of a task text, with the arguments that they have.
use crate::contexts::BodyKind;
use crate::wanted::{WantedArgument, wanted_at};
use fmp_base::{Name, Service};
use fmp_diagnosis::apis::is_symbol;
use fmp_lex::{Constant, Keyword, Symbol, TokenKind, Tokens};

/// The call of a walk.
#[derive(Clone, Copy)]
pub struct CallWalk {
    /// The kind of the body that it stands in.
    body: Option<BodyKind>,
    /// Whether the last token began a body.
    is_heading: bool,
    service: Option<Service>,
    /// How many parentheses are open in it.
    open: usize,
    /// How many of its arguments stand before.
    argument: usize,
}

impl CallWalk {
    /// The walk before the first token.
    pub fn new() -> CallWalk {
        CallWalk {
            body: None,
            is_heading: false,
            service: None,
            open: 0,
            argument: 0,
        }
    }

    /// Whether the last token is the name of a body that begins.
    pub fn is_heading(self) -> bool {
        self.is_heading
    }

    /// The walk after a token.
    pub fn after(self, kind: TokenKind) -> CallWalk {
        match kind {
            TokenKind::Keyword(Keyword::Task | Keyword::Handler) => CallWalk {
                body: BodyKind::begun_by(kind),
                is_heading: true,
                ..self
            },
            TokenKind::Symbol(Symbol::LeftBrace) => CallWalk {
                is_heading: false,
                ..self
            },
            TokenKind::Service(service) => CallWalk {
                service: Some(service),
                open: 0,
                argument: 0,
                ..self
            },
            TokenKind::Symbol(Symbol::LeftParen) => CallWalk {
                open: self.open.saturating_add(1),
                ..self
            },
            TokenKind::Symbol(Symbol::RightParen) => CallWalk {
                open: self.open.saturating_sub(1),
                ..self
            },
            TokenKind::Symbol(Symbol::Comma) if self.open == 1 => CallWalk {
                argument: self.argument.saturating_add(1),
                ..self
            },
            TokenKind::Symbol(Symbol::Semicolon) => CallWalk {
                service: None,
                ..self
            },
            _ => self,
        }
    }

    /// The call of a service that begins here, where the body that it stands in may never make it.
    pub fn barred(self, service: Service) -> Option<BarredCall> {
        let body = self.body?;
        if body.bars(service) {
            Some(BarredCall { service, body })
        } else {
            None
        }
    }

    /// The argument that begins after this symbol at a place, if it should not be just any number.
    pub fn argument_after(self, at: usize, symbol: Symbol) -> Option<WalkedArgument> {
        let service = match symbol {
            Symbol::LeftParen | Symbol::Comma if self.open == 1 => self.service?,
            _ => return None,
        };
        Some(WalkedArgument {
            at: at.saturating_add(1),
            place: self.argument,
            service,
            wanted: wanted_at(service, self.argument)?,
        })
    }

    /// What the call takes in the place of the argument that the walk is in, if it is in one and not just any number is
    /// taken there.
    fn wanted(self) -> Option<WantedArgument> {
        if self.open == 0 {
            return None;
        }
        wanted_at(self.service?, self.argument)
    }

    /// Whether the name at a place is used as a value: no call takes it as an object there, and it is no whole argument
    /// of which something is said.
    pub fn is_value(self, tokens: &Tokens<'_>, at: usize) -> bool {
        match self.wanted() {
            Some(WantedArgument::Object(_)) => false,
            Some(WantedArgument::Number(_)) => !is_argument(tokens, at),
            None => true,
        }
    }
}

/// A call that bodies of this kind may never make.
#[derive(Clone, Copy)]
pub struct BarredCall {
    pub service: Service,
    pub body: BodyKind,
}

/// An argument of a call.
#[derive(Clone, Copy)]
pub struct WalkedArgument {
    /// The place of its first token.
    pub at: usize,
    /// How many arguments stand before it.
    pub place: usize,
    pub service: Service,
    /// What the call takes there.
    pub wanted: WantedArgument,
}

/// What an argument is, where it is a number, a constant or a name alone.
#[derive(Clone, Copy)]
pub enum Lone {
    Number(i64),
    Constant(Constant),
    Name(Name),
}

impl Lone {
    /// The number that it stands for; none for a name.
    pub fn number(self) -> Option<i64> {
        match self {
            Lone::Number(number) => Some(number),
            Lone::Constant(constant) => Some(i64::from(constant.value())),
            Lone::Name(_) => None,
        }
    }
}

/// Whether an argument ends in front of this place.
fn ends_argument(tokens: &Tokens<'_>, at: usize) -> bool {
    is_symbol(tokens, at, Symbol::Comma) || is_symbol(tokens, at, Symbol::RightParen)
}

/// Whether the token at a place, within a call, is an argument alone.
fn is_argument(tokens: &Tokens<'_>, at: usize) -> bool {
    let before = at.saturating_sub(1);
    let begins = is_symbol(tokens, before, Symbol::Comma)
        || is_symbol(tokens, before, Symbol::LeftParen);
    begins && ends_argument(tokens, at.saturating_add(1))
}

/// The argument that begins at a place, where it is a number, a constant or a name alone.
pub fn lone_argument(tokens: &Tokens<'_>, at: usize) -> Option<Lone> {
    let next = at.saturating_add(1);
    let is_minus = is_symbol(tokens, at, Symbol::Minus);
    let last = if is_minus { next } else { at };
    if !ends_argument(tokens, last.saturating_add(1)) {
        return None;
    }
    match tokens.kind(last)? {
        TokenKind::Number(number) if is_minus => Some(Lone::Number(0i64.saturating_sub(i64::from(
            number,
        )))),
        _ if is_minus => None,
        TokenKind::Number(number) => Some(Lone::Number(i64::from(number))),
        TokenKind::Constant(constant) => Some(Lone::Constant(constant)),
        TokenKind::Name(name) => Some(Lone::Name(name)),
        _ => None,
    }
}
