//! When a body does the same as its text.
ghost use Rattle.std.specs.Prelude.{◌≡◌, ◌↔◌, IsTrue};

use fmp_base::{Call, Fault, Service};
use fmp_outside::Act;

/// Whether two services are the same.
#[tactic(auto, using(crate::proofs::SameCalls::same_services))]
fn is_same_service(a: Service, b: Service) -> bool
    ensures { IsTrue result ↔ a ≡ b }
{
    a.number() == b.number()
}

/// Whether two lists of arguments are the same.
fn are_same(a: &[i32], b: &[i32]) -> bool
    ensures { IsTrue result ↔ a.now ≡ b.now }
{
    a == b
}

/// Whether two calls are the same.
fn is_same_call(a: Call, b: Call) -> bool
    ensures { IsTrue result ↔ a ≡ b }
{
    is_same_service(a.service(), b.service())
        && are_same(a.arguments().as_slice(), b.arguments().as_slice())
}

/// Whether two faults are the same.
fn is_same_fault(a: Fault, b: Fault) -> bool
    ensures { IsTrue result ↔ a ≡ b }
{
    match (a, b) {
        (Fault::Overflow, Fault::Overflow) => true,
        (Fault::Division, Fault::Division) => true,
        (Fault::Index, Fault::Index) => true,
        _ => false,
    }
}

/// Whether two acts are the same.
pub fn is_same(a: Act, b: Act) -> bool
    ensures { IsTrue result ↔ a ≡ b }
{
    match (a, b) {
        (Act::Call(a), Act::Call(b)) => is_same_call(a, b),
        (Act::End, Act::End) => true,
        (Act::Fault(a), Act::Fault(b)) => is_same_fault(a, b),
        _ => false,
    }
}
