//! What the bodies of tasks and handlers do, and what is kept of them.
ghost use Rattle.std.specs.Prelude.{◌≡◌, ⊤};

use crate::calls::Call;
use std::alloc::AllocError;

/// Why a body stops in the middle of a statement.
#[derive(Clone, Copy, PartialEq, Eq)]
pub enum Fault {
    /// A result outside 32 bits.
    Overflow,
    /// A division or remainder by 0.
    Division,
    /// An index below 0, or not below the number of an array's places.
    Index,
}

/// A stretch of a body: what it does up to its next service call, its end or its fault, with the context
/// that it leaves.
pub enum Stretch<C> {
    /// It makes this service call.
    Call(C, Call),
    /// It ends.
    End(C),
    /// It stops with this fault.
    Fault(C, Fault),
    /// It needs more than the bound; this is the context at the bound.
    Over(C),
}

impl<C: Copy> Clone for Stretch<C> {
    ghost is_clone = { λ x y. y ≡ x };

    ghost is_infallible = { λ _. ⊤ };

    fn clone(&self) -> Result<Self, AllocError> {
        Ok(*self)
    }
}

impl<C: Copy> Copy for Stretch<C> {}

/// What is kept of a body between its stretches.
pub enum Held<C> {
    /// A context from which the body goes on.
    Goes(C),
    /// A context that awaits the reply to the body's call.
    Awaits(C),
}

impl<C: Copy> Clone for Held<C> {
    ghost is_clone = { λ x y. y ≡ x };

    ghost is_infallible = { λ _. ⊤ };

    fn clone(&self) -> Result<Self, AllocError> {
        Ok(*self)
    }
}

impl<C: Copy> Copy for Held<C> {}

/// What is kept of a handler that runs.
pub struct HandlerContext<C> {
    /// The number of its body.
    pub body: u8,
    /// The context of its body.
    pub context: C,
}

impl<C: Copy> Clone for HandlerContext<C> {
    ghost is_clone = { λ x y. y ≡ x };

    ghost is_infallible = { λ _. ⊤ };

    fn clone(&self) -> Result<Self, AllocError> {
        Ok(*self)
    }
}

impl<C: Copy> Copy for HandlerContext<C> {}

/// How a handler begins.
#[derive(Clone, Copy)]
pub struct HandlerStart {
    /// The number of its body.
    pub body: u8,
    /// Its extended information, 0 for an interrupt handler.
    pub exinf: i32,
}
