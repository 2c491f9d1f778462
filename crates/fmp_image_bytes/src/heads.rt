//! What the tables of an image say of a body beside its code.

/// The kind of a body: of a task or of a handler.
#[derive(Clone, Copy)]
pub enum BodyKind {
    Task,
    Handler,
}

/// What an image says of a body beside its code.
#[derive(Clone, Copy)]
pub struct BodyHead {
    pub kind: BodyKind,
    /// The greatest number of operands that stand before an instruction of the body, 0 to 64.
    pub depth: u8,
}
