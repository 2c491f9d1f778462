//! What is counted of the calls of a service by a caller.
ghost use Rattle.std.specs.Prelude.{◌≡◌, length};
ghost use Rattle.std.specs.List.{filter};
ghost use Rattle.fmp_frames.specs.CallCounts as spec;

use crate::told::{CallTold, ToldOutcome};
use fmp_base::{Caller, Er, Handler, Service};

/// A caller, and a service that it calls.
#[derive(Clone, Copy)]
pub struct CallerService {
    pub caller: Caller,
    pub service: Service,
}

fn is_same_handler(a: Handler, b: Handler) -> bool
    ensures { result ≡ spec.is_same_handler a b }
{
    match (a, b) {
        (Handler::Cyclic(a), Handler::Cyclic(b)) | (Handler::Interrupt(a), Handler::Interrupt(b)) =>
            a == b,
        _ => false,
    }
}

/// Whether two callers are the same.
pub fn is_same_caller(a: Caller, b: Caller) -> bool
    ensures { result ≡ spec.is_same_caller a b }
{
    match (a, b) {
        (Caller::Task(a), Caller::Task(b)) => a == b,
        (Caller::Handler(a), Caller::Handler(b)) => is_same_handler(a, b),
        _ => false,
    }
}

/// Whether a line tells of a call of this service by this caller.
pub fn is_at(told: CallTold, site: CallerService) -> bool
    ensures { result ≡ spec.is_at site told }
{
    is_same_caller(told.caller, site.caller) && told.service.number() == site.service.number()
}

/// Whether a line tells that a call is made.
fn is_made(outcome: ToldOutcome) -> bool
    ensures { result ≡ spec.is_made outcome }
{
    match outcome {
        ToldOutcome::Answered(_) | ToldOutcome::Waits => true,
        ToldOutcome::Released(_) => false,
    }
}

/// Whether a line tells that its caller begins to wait.
fn is_wait(outcome: ToldOutcome) -> bool
    ensures { result ≡ spec.is_wait outcome }
{
    match outcome {
        ToldOutcome::Waits => true,
        ToldOutcome::Answered(_) | ToldOutcome::Released(_) => false,
    }
}

/// Whether a line tells that a call is answered this code, at once or at the end of a wait.
fn has_answer(outcome: ToldOutcome, code: Er) -> bool
    ensures { result ≡ spec.has_answer code outcome }
{
    match outcome {
        ToldOutcome::Answered(other) | ToldOutcome::Released(other) => other.code() == code.code(),
        ToldOutcome::Waits => false,
    }
}

/// How many calls were made.
pub fn times(told: &[CallTold], site: CallerService) -> usize
    ensures { result ≡ length (filter (spec.is_call site) told.now) }
{
    told.iter()
        .filter(|told| is_at(**told, site) && is_made(told.outcome))
        .count()
}

/// At how many of them the caller began to wait.
pub fn waits(told: &[CallTold], site: CallerService) -> usize
    ensures { result ≡ length (filter (spec.is_waiting_call site) told.now) }
{
    told.iter()
        .filter(|told| is_at(**told, site) && is_wait(told.outcome))
        .count()
}

/// How many were answered this code.
pub fn answers(told: &[CallTold], site: CallerService, code: Er) -> usize
    ensures { result ≡ length (filter (spec.is_answer site code) told.now) }
{
    told.iter()
        .filter(|told| is_at(**told, site) && has_answer(told.outcome, code))
        .count()
}
