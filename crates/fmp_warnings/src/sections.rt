//! Where a body may hold a spin lock or the CPU lock: only in sections that one call begins and another one ends, if
//! nothing but calls stands between them.
use crate::landmarks::Mark;
use crate::objects::NamedObjects;
use fmp_base::{Name, Service};
use fmp_diagnosis::apis::is_symbol;
use fmp_diagnosis::around::{begins_body, is_same, name_at};
use fmp_lex::{Api, Symbol, TokenKind, Tokens};

/// What a call takes or gives back.
#[derive(Clone, Copy)]
pub enum Guard {
    Lock(Name),
    Cpu,
}

impl Guard {
    /// Whether both are the same.
    pub fn is(self, other: Guard) -> bool {
        match (self, other) {
            (Guard::Lock(one), Guard::Lock(other)) => is_same(&one, &other),
            (Guard::Cpu, Guard::Cpu) => true,
            _ => false,
        }
    }
}

/// The spin lock whose name is the only argument of the call at a place.
fn lock_at(objects: &NamedObjects, tokens: &Tokens<'_>, at: usize) -> Option<Name> {
    if !is_symbol(tokens, at.saturating_add(3), Symbol::RightParen) {
        return None;
    }
    let name = name_at(tokens, at.saturating_add(2))?;
    matches!(objects.api_of(name), Some(Api::CreSpn)).then_some(name)
}

/// What a call of this service at a place takes or gives back, if the text says it.
pub fn guard_at(
    objects: &NamedObjects,
    tokens: &Tokens<'_>,
    at: usize,
    service: Service,
) -> Option<Guard> {
    match service {
        Service::LocSpn | Service::TrySpn | Service::UnlSpn => {
            lock_at(objects, tokens, at).map(Guard::Lock)
        }
        Service::LocCpu | Service::UnlCpu => Some(Guard::Cpu),
        _ => None,
    }
}

/// Whether a section that is open is so after a token with this guard; none if it can't be said.
fn after_inside(guard: Guard, kind: TokenKind, found: Option<Guard>) -> Option<bool> {
    match kind {
        TokenKind::Service(Service::UnlSpn | Service::UnlCpu) => {
            found?.is(guard).then_some(false)
        }
        TokenKind::Service(Service::LocSpn | Service::TrySpn | Service::LocCpu | Service::ExtTsk) =>
            None,
        TokenKind::Service(_) => Some(true),
        _ => None,
    }
}

/// Whether a section begins with a token with this guard; none if it can't be said.
fn after_outside(guard: Guard, kind: TokenKind, found: Option<Guard>) -> Option<bool> {
    match kind {
        TokenKind::Service(Service::LocSpn | Service::TrySpn) => match (guard, found) {
            (Guard::Lock(_), found) => Some(found?.is(guard)),
            (Guard::Cpu, _) => Some(false),
        },
        TokenKind::Service(Service::LocCpu) => Some(guard.is(Guard::Cpu)),
        _ => Some(false),
    }
}

/// Whether the body that begins with the first of these tokens holds something in sections alone.
pub fn is_in_sections(
    objects: &NamedObjects,
    tokens: &Tokens<'_>,
    body: &[Mark],
    guard: Guard,
) -> bool {
    let mut is_open = false;
    for mark in body.get(1..).unwrap_or(&[]) {
        let Some(kind) = tokens.kind(mark.at) else {
            return false;
        };
        if begins_body(kind) {
            return !is_open;
        }
        let found = match kind {
            TokenKind::Service(service) => guard_at(objects, tokens, mark.at, service),
            _ => None,
        };
        let after = if is_open {
            after_inside(guard, kind, found)
        } else {
            after_outside(guard, kind, found)
        };
        match after {
            Some(open) => is_open = open,
            None => return false,
        }
    }
    !is_open
}
