//! Calls that bodies of one kind may never make.
use fmp_base::{Permission, Service};
use fmp_lex::{Keyword, TokenKind};

/// A kind of bodies.
#[derive(Clone, Copy)]
pub enum BodyKind {
    Task,
    Handler,
}

impl BodyKind {
    /// The kind of the body that begins with this token, if one does.
    pub fn begun_by(kind: TokenKind) -> Option<BodyKind> {
        match kind {
            TokenKind::Keyword(Keyword::Task) => Some(BodyKind::Task),
            TokenKind::Keyword(Keyword::Handler) => Some(BodyKind::Handler),
            _ => None,
        }
    }

    /// Whether a call is E_CTX in each body of this kind, whatever happens.
    pub fn bars(self, service: Service) -> bool {
        let permission = service.permission();
        match self {
            BodyKind::Task => matches!(permission, Permission::Handlers),
            BodyKind::Handler => !matches!(permission, Permission::Anywhere | Permission::Handlers),
        }
    }

    /// The kind, with its article.
    pub fn called(self) -> &'static str {
        match self {
            BodyKind::Task => "a task",
            BodyKind::Handler => "a handler",
        }
    }
}
