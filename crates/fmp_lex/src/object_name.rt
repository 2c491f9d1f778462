//! The name of an object as a key of maps and sets.
ghost use Rattle.std.proofs.Common.{rules};
ghost use Rattle.std.specs.Cmp.Rules.{comparing, hashing};
ghost use Rattle.std.specs.Hash as fed;
ghost use Rattle.std.specs.Str.{bytes_eq};
ghost use Rattle.fmp_base.specs.Names.{name_text};

use fmp_base::Name;
use std::hash::{Hash, Hasher};

/// The name of an object. Two are equal where their bytes are.
#[derive(Clone, Copy, Drop)]
pub struct ObjectName {
    /// The name as the configuration has it.
    pub name: Name,
}

impl PartialEq for ObjectName {
    ghost eq = { λ a b. bytes_eq (name_text a.name) (name_text b.name) };

    ghost laws = { Prim.search (comparing, rules) };

    fn eq(&self, other: &ObjectName) -> bool {
        self.name.as_bytes() == other.name.as_bytes()
    }
}

impl Eq for ObjectName {
    ghost laws = { Prim.search (comparing, rules) };
}

impl Hash for ObjectName {
    ghost hash_input = { λ a. fed.slice fed.u8 (name_text a.name) };

    ghost respects_eq = { Prim.search (hashing, rules) };

    fn hash<H: Hasher>(&self, state: &mut H) {
        self.name.as_bytes().hash(state);
    }
}
