//! What follows for every body and every state, each the contract of a function that does nothing.
ghost use Rattle.std.specs.Prelude.{◌≡◌, ℕ, ◌≤◌, false};
ghost use Rattle.fmp_base.specs.Settles.{settled};
ghost use Rattle.fmp_base.specs.States.{Progress};
ghost use Rattle.fmp_base.specs.Stretches.{is_over};
ghost use Rattle.fmp_base.specs.Systems.{SystemTables};

use crate::body::Body;

/// A stretch that ends within a bound is the same at every greater bound: a greater bound changes nothing that was
/// done.
pub fn greater_bounds_change_nothing<B: Body>(body: &B)
    ensures { (entry low high : ℕ) (c : B.Ctx) → low ≤ high → is_over ((B.meaning body.now).stretch entry low c) ≡ false
        → (B.meaning body.now).stretch entry high c ≡ (B.meaning body.now).stretch entry low c }
{}

/// Settling changes no task and not their order: a preempted task keeps its place in its queue.
pub fn settling_keeps_the_order()
    ensures tasks { (sys : SystemTables) (g : Progress) → (settled sys g).state.tasks ≡ g.state.tasks }
    ensures order { (sys : SystemTables) (g : Progress) → (settled sys g).state.order ≡ g.state.order }
{}
