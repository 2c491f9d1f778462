//! Lists that are put back as others are.
ghost use Rattle.std.specs.Prelude.{◌≡◌, length};

use crate::rings::Rings;

impl Rings {
    /// Puts the lists of other rings, with as many nodes and heads, in the place of these.
    pub fn put_back(&mut self, from: &Rings)
        requires nodes { self.old.nodes ≡ from.now.nodes }
        requires heads { length self.old.lists ≡ length from.now.lists }
        ensures { self.new ≡ from.now }
    {
        self.nodes = from.nodes;
        self.heads = from.heads;
        self.next.put_back(&from.next);
        self.previous.put_back(&from.previous);
    }
}
