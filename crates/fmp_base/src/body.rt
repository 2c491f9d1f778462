//! What the kernel is given to run: bodies as a trait.
ghost use Rattle.std.specs.Prelude.{◌≡◌, ℕ, ◌≤◌, false};
ghost use Rattle.fmp_base.specs.Meanings.{Meaning};
ghost use Rattle.fmp_base.specs.Stretches.{ending, is_over};
ghost use Rattle.fmp_base.specs.Contexts.{OfCall, stopped};

use crate::bodies::Stretch;
use crate::calls::Reply;
use crate::stop::StretchStop;

/// The bodies of tasks and handlers, by their numbers, as a meaning that computes.
pub trait Body {
    /// What a body keeps between its stretches.
    type Ctx: Copy;

    /// What the bodies mean.
    ghost meaning: { Self → Meaning Self.Ctx };

    /// Which bodies there are.
    ghost has_entry: { Self → ℕ → Type 0 };

    /// Which contexts the calls of a body give.
    ghost is_context: { Self → ℕ → Self.Ctx → Type 0 };

    /// The context of a body at its start.
    fn start(&self, entry: u8, exinf: i32) -> Self::Ctx
        requires { has_entry self.now entry }
        ensures value { result ≡ (meaning self.now).start entry exinf }
        ensures context { is_context self.now entry result };

    /// A stretch of a body, of at most n units.
    fn stretch(&self, entry: u8, n: u64, c: Self::Ctx) -> Stretch<Self::Ctx>
        requires entry { has_entry self.now entry }
        requires context { is_context self.now entry c }
        ensures value { ending result ≡ (meaning self.now).stretch entry n c }
        ensures context { OfCall (is_context self.now entry) (ending result) };

    /// The context after a reply to the call that ended a stretch.
    fn deliver(&self, entry: u8, c: Self::Ctx, r: Reply) -> Self::Ctx
        requires entry { has_entry self.now entry }
        requires context { is_context self.now entry c }
        ensures value { result ≡ (meaning self.now).deliver entry c r }
        ensures context { is_context self.now entry result };

    /// A stretch of a body, of at most n units, that leaves its context in place of the one from which it began. If it
    /// is over its bound, it leaves the context at the bound.
    fn stretch_in_place(&self, entry: u8, n: u64, context: &mut Self::Ctx) -> StretchStop
        requires entry { has_entry self.now entry }
        requires context { is_context self.now entry context.old }
        ensures value { stopped result context.new ≡ (meaning self.now).stretch entry n context.old }
        ensures context { OfCall (is_context self.now entry) (stopped result context.new) }
    {
        match self.stretch(entry, n, *context) {
            Stretch::Call(after, made) => {
                *context = after;
                StretchStop::Call(made)
            }
            Stretch::End(after) => {
                *context = after;
                StretchStop::End
            }
            Stretch::Fault(after, fault) => {
                *context = after;
                StretchStop::Fault(fault)
            }
            Stretch::Over(after) => {
                *context = after;
                StretchStop::Over
            }
        }
    }

    /// The context after a reply to the call that ended a stretch, in place of the one that the call left.
    fn deliver_in_place(&self, entry: u8, context: &mut Self::Ctx, r: Reply)
        requires entry { has_entry self.now entry }
        requires context { is_context self.now entry context.old }
        ensures value { context.new ≡ (meaning self.now).deliver entry context.old r }
        ensures context { is_context self.now entry context.new }
    {
        *context = self.deliver(entry, *context, r);
    }

    /// A stretch that is not over its bound is the same at every greater bound.
    ghost stays: { (body : Self) (entry low high : ℕ) (c : Self.Ctx) → low ≤ high
        → is_over ((meaning body).stretch entry low c) ≡ false
        → (meaning body).stretch entry high c ≡ (meaning body).stretch entry low c };
}
