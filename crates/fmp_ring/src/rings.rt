//! The rings.
ghost use Rattle.std.specs.Prelude.{◌≡◌, ℕ, ◌+◌, ◌<◌, ◌++◌, ◌∷◌, [], length, slice_set, true, false, IfOk, IfSome};
ghost use Rattle.std.specs.Prelude.{replicate};
ghost use Rattle.fmp_base.specs.Links.{AddsAtMost};
ghost use Rattle.fmp_base.specs.Queues.{first_of};
ghost use Rattle.fmp_base.specs.States.{without};
ghost use Rattle.fmp_ring.specs.Orders.{IsOrder};
ghost use Rattle.fmp_ring.specs.RingLists.{AreDisjoint, list_at, is_in, is_linked, rotated, behind_first, follower};
ghost use Rattle.fmp_ring.specs.RingLists.{inserted_before, with_before, without_node};

use fmp_base::{CountedLinks, WorkCount};
use std::alloc::{AllocError, Global};
use std::marker::Model;

mod copying;

/// A list of nodes for each head, heads and nodes being numbered from 0. A node stands in at most one list.
///
/// In the arrays of links, the place of a node is its number, and the places of the heads come after all nodes. Each
/// list is a ring: from its head over its nodes and back. A node that stands in no list links to itself.
#[derive(Drop)]
pub struct Rings {
    nodes: u16,
    heads: u16,
    next: CountedLinks,
    previous: CountedLinks,
}

impl Model for Rings {
    ghost use Rattle.fmp_ring.specs.RingLists.{RingLists};

    ghost Value = { RingLists };

    ghost use Rattle.fmp_ring.specs.Chains.{ring_lists, HasRings};

    ghost view = { ring_lists };

    ghost invariant = { HasRings };
}

/// Links one place to another, and that one back.
fn link(
    next: &mut CountedLinks,
    previous: &mut CountedLinks,
    from: u32,
    to: u32,
    steps: &mut WorkCount,
)
    requires from { from < length next.old }
    requires to { to < length previous.old }
    ensures next { next.new ≡ slice_set next.old from to }
    ensures previous { previous.new ≡ slice_set previous.old to from }
    ensures steps { steps.new ≡ steps.old + 2 }
{
    next.set(from, to, steps);
    previous.set(to, from, steps);
}

impl Rings {
    /// Empty lists for this many heads and nodes. `AllocError` if memory runs out.
    pub fn new(alloc: Global, heads: u16, nodes: u16) -> Result<Rings, AllocError>
        ensures { IfOk result (λ r. r ≡ record { nodes = nodes; lists = replicate heads [] }) }
    {
        let places = nodes as u32 + heads as u32;
        let next = CountedLinks::new(alloc, places)?;
        let previous = CountedLinks::new(alloc, places)?;
        Ok(Rings {
            nodes,
            heads,
            next,
            previous,
        })
    }

    /// A law: no node stands in two lists.
    pub fn lists_are_disjoint(&self)
        ensures { AreDisjoint self.now.lists }
    {
        // Only a look at a field tells the proof that the links are rings.
        let _ = &self.nodes;
    }

    /// The first of the list of a head, if any. No node stands in that list twice. At most 1 step.
    pub fn first(&self, h: u16, steps: &mut WorkCount) -> Option<u16>
        requires { h < length self.now.lists }
        ensures value { result ≡ first_of (list_at self.now.lists h) }
        ensures node { IfSome result (λ x. x < self.now.nodes) }
        ensures order { IsOrder self.now.nodes (list_at self.now.lists h) }
        ensures steps { AddsAtMost 1 steps.old steps.new }
    {
        let x = self.next.get(self.nodes as u32 + h as u32, steps);
        if x < self.nodes as u32 {
            Some(x as u16)
        } else {
            None
        }
    }

    /// The node that follows another in its list, if any. At most 1 step.
    pub fn next(&self, x: u16, steps: &mut WorkCount) -> Option<u16>
        requires { is_linked x self.now.lists ≡ true }
        ensures value { (h : ℕ)
            → is_in x (list_at self.now.lists h) ≡ true
            → result ≡ follower x (list_at self.now.lists h) }
        ensures node { IfSome result (λ y. y < self.now.nodes) }
        ensures steps { AddsAtMost 1 steps.old steps.new }
    {
        let y = self.next.get(x as u32, steps);
        if y < self.nodes as u32 {
            Some(y as u16)
        } else {
            None
        }
    }

    /// Whether a number is that of a node that stands in a list. At most 1 step.
    pub fn is_linked(&self, x: u16, steps: &mut WorkCount) -> bool
        ensures value { result ≡ is_linked x self.now.lists }
        ensures steps { AddsAtMost 1 steps.old steps.new }
    {
        if self.nodes <= x {
            return false;
        }
        self.next.get(x as u32, steps) != x as u32
    }

    /// Puts a node, which stands in no list, last in the list of a head. At most 5 steps.
    pub fn push_back(&mut self, h: u16, x: u16, steps: &mut WorkCount)
        requires head { h < length self.old.lists }
        requires node { x < self.old.nodes }
        requires free { is_linked x self.old.lists ≡ false }
        ensures lists { self.new
            ≡ record self.old { lists = slice_set self.old.lists h (list_at self.old.lists h ++ x ∷ []) } }
        ensures steps { AddsAtMost 5 steps.old steps.new }
    {
        let head = self.nodes as u32 + h as u32;
        let last = self.previous.get(head, steps);
        link(&mut self.next, &mut self.previous, last, x as u32, steps);
        link(&mut self.next, &mut self.previous, x as u32, head, steps);
    }

    /// Puts a node, which stands in no list, right before one that stands in one. At most 5 steps.
    pub fn insert_before(&mut self, x: u16, at: u16, steps: &mut WorkCount)
        requires node { x < self.old.nodes }
        requires free { is_linked x self.old.lists ≡ false }
        requires there { is_linked at self.old.lists ≡ true }
        ensures lists { self.new ≡ record self.old { lists = with_before at x self.old.lists } }
        ensures one { (h : ℕ)
            → is_in at (list_at self.old.lists h) ≡ true
            → self.new.lists ≡ slice_set self.old.lists h (inserted_before at x (list_at self.old.lists h)) }
        ensures steps { AddsAtMost 5 steps.old steps.new }
    {
        let before = self.previous.get(at as u32, steps);
        link(&mut self.next, &mut self.previous, before, x as u32, steps);
        link(
            &mut self.next,
            &mut self.previous,
            x as u32,
            at as u32,
            steps,
        );
    }

    /// Takes a node out of the list in which it stands. At most 5 steps.
    pub fn remove(&mut self, x: u16, steps: &mut WorkCount)
        requires { is_linked x self.old.lists ≡ true }
        ensures lists { self.new ≡ record self.old { lists = without_node x self.old.lists } }
        ensures gone { is_linked x self.new.lists ≡ false }
        ensures one { (h : ℕ)
            → is_in x (list_at self.old.lists h) ≡ true
            → self.new.lists ≡ slice_set self.old.lists h (without (list_at self.old.lists h) x) }
        ensures steps { AddsAtMost 5 steps.old steps.new }
    {
        let before = self.previous.get(x as u32, steps);
        let after = self.next.get(x as u32, steps);
        self.next.set(x as u32, x as u32, steps);
        link(&mut self.next, &mut self.previous, before, after, steps);
    }

    /// Takes the first of the list of a head, if any. At most 6 steps.
    pub fn pop_front(&mut self, h: u16, steps: &mut WorkCount) -> Option<u16>
        requires { h < length self.old.lists }
        ensures value { result ≡ first_of (list_at self.old.lists h) }
        ensures lists { self.new
            ≡ record self.old { lists = slice_set self.old.lists h (behind_first (list_at self.old.lists h)) } }
        ensures node { IfSome result (λ x. x < self.old.nodes) }
        ensures steps { AddsAtMost 6 steps.old steps.new }
    {
        // Only a look at a field tells the proof that the links are rings.
        let _ = &self.nodes;
        let first = self.first(h, steps);
        if let Some(x) = first {
            self.remove(x, steps);
        }
        first
    }

    /// Puts the first of the list of a head, if any, last. At most 11 steps.
    pub fn rotate(&mut self, h: u16, steps: &mut WorkCount)
        requires { h < length self.old.lists }
        ensures lists { self.new
            ≡ record self.old { lists = slice_set self.old.lists h (rotated (list_at self.old.lists h)) } }
        ensures steps { AddsAtMost 11 steps.old steps.new }
    {
        // Only a look at a field tells the proof that the links are rings.
        let _ = &self.nodes;
        if let Some(x) = self.pop_front(h, steps) {
            self.push_back(h, x, steps);
        }
    }
}
