//! How a stretch that is made in place stops.

use crate::bodies::Fault;
use crate::calls::Call;

/// How a stretch stops that leaves its context in place of the one from which it began.
#[derive(Clone, Copy)]
pub enum StretchStop {
    /// It makes this service call.
    Call(Call),
    /// It ends.
    End,
    /// It stops with this fault.
    Fault(Fault),
    /// It needs more than the bound; the context that it leaves is the one at the bound.
    Over,
}
