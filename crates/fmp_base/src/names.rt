//! Names of objects and bodies.
ghost use Rattle.std.specs.Prelude.{◌≡◌, ◌↔◌, ◌<◌, ◌≤◌, ◌++◌, ◌-◌, length, replicate, take, IsSome, IfSome};
ghost use Rattle.fmp_base.specs.Names.{name_text, name_from};

/// A name of an object or of a body: 1 to 31 bytes, the unused ones 0.
#[derive(Clone, Copy, PartialEq, Eq)]
pub struct Name {
    /// How many bytes are used, 1 to 31.
    pub length: u8,
    /// The bytes, 0 after the used ones.
    pub bytes: [u8; 31],
}

impl Name {
    /// The greatest number of bytes of a name.
    pub const MAX: usize = 31;

    /// The name of these bytes; none if there are 0 or more than 31.
    pub fn new(text: &[u8]) -> Option<Name>
        ensures fits { IsSome result ↔ ((0 < length text.now) × (length text.now ≤ 31)) }
        ensures value { IfSome result (λ name. name ≡ name_from text.now) }
    {
        if text.is_empty() || text.len() > Name::MAX {
            return None;
        }
        let mut bytes = [0; 31];
        for i in 0..text.len() {
            bytes[i] = text[i];
        }
        Some(Name {
            length: text.len() as u8,
            bytes,
        })
    }

    /// The bytes of the name.
    pub fn as_bytes(&self) -> &[u8]
        ensures { result.now ≡ name_text self.now }
    {
        let length = (self.length as usize).min(Name::MAX);
        &self.bytes[..length]
    }
}
