//! The places of calls in bodies.

/// A service call in a body: the place of the body, and of the instruction in it.
#[derive(Clone, Copy, Debug, PartialEq, Eq)]
pub struct CallSite {
    pub body: u8,
    pub pc: u16,
}
