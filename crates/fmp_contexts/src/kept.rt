//! What is kept of one body between its stretches, changed in place.
ghost use Rattle.std.specs.Prelude.{◌≡◌, Some, true};
ghost use Rattle.std.specs.Option.{option_copied};
ghost use Rattle.fmp_base.specs.declared.bodies.Held.{Held};
ghost use Rattle.fmp_base.specs.declared.bodies.Held.TheVariants.{Awaits, Goes};
ghost use Rattle.fmp_base.specs.Meanings.{kept_context, told};
ghost use Rattle.fmp_base.specs.Contexts.{OfCall, stopped};
ghost use Rattle.fmp_contexts.specs.Contexts.{OfHeld, context_held, going_context, held_by, is_call, is_going};
ghost use Rattle.fmp_contexts.specs.Contexts.{stretched_from};

use fmp_base::{Body, Held, Reply, StretchStop};
use std::alloc::AllocError;
use std::marker::Model;

/// A context, and whether it awaits the reply to the call of its body.
pub struct KeptContext<C: Copy> {
    awaits: bool,
    context: C,
}

impl<C: Copy> Clone for KeptContext<C> {
    ghost is_clone = { λ x y. y ≡ x };

    ghost is_infallible = { λ _. Unit {0} };

    fn clone(&self) -> Result<Self, AllocError> {
        Ok(*self)
    }
}

impl<C: Copy> Copy for KeptContext<C> {}

impl<C: Copy> Model for KeptContext<C> {
    ghost use Rattle.fmp_base.specs.declared.bodies.Held.{Held};
    ghost use Rattle.fmp_contexts.specs.Contexts.{held_by};

    ghost Value = { Held C };

    ghost view = { λ k. held_by k.awaits k.context };

    ghost use Rattle.std.specs.Prelude.{Some, not};
    ghost use Rattle.fmp_contexts.specs.Contexts.{awaits_told, context_held, context_told, is_going};

    ghost inverse = { λ h. record { awaits = not (is_going (Some h)); context = context_held h } };

    ghost inverse_ok = { λ k h i. record {
      awaits = awaits_told k.awaits k.context i;
      context = context_told k.awaits k.context i;
    } };
}

impl<C: Copy> KeptContext<C> {
    /// A context from which its body goes on.
    pub fn going_from(context: C) -> Self
        ensures { result ≡ Goes context }
    {
        KeptContext {
            awaits: false,
            context,
        }
    }

    /// The context, where it stands.
    pub fn context(&self) -> &C
        ensures { Some result.now ≡ kept_context (Some self.now) }
    {
        &self.context
    }

    /// The context, where its body goes on from it.
    pub fn going(&self) -> Option<&C>
        ensures { option_copied result ≡ going_context (Some self.now) }
    {
        if self.awaits {
            None
        } else {
            Some(&self.context)
        }
    }

    /// Whether its body goes on from the context.
    pub fn goes(&self) -> bool
        ensures { result ≡ is_going (Some self.now) }
    {
        !self.awaits
    }

    /// What is kept.
    pub fn held(&self) -> Held<C>
        ensures { result ≡ self.now }
    {
        if self.awaits {
            Held::Awaits(self.context)
        } else {
            Held::Goes(self.context)
        }
    }

    /// This context is kept, and awaits the reply to its call, or does not.
    #[inline(always)]
    pub fn put(&mut self, context: &C, awaits: bool)
        ensures { self.new ≡ held_by awaits context.now }
    {
        self.awaits = awaits;
        self.context = *context;
    }
}

/// Whether a stretch stops at a call, so that its context awaits the reply.
fn awaits_reply(stop: &StretchStop) -> bool
    ensures { result ≡ is_call stop.now }
{
    match stop {
        StretchStop::Call(_) => true,
        StretchStop::End => false,
        StretchStop::Fault(_) => false,
        StretchStop::Over => false,
    }
}

/// A stretch of the body of an entry, of at most n units, from the context that is kept, which goes on. The one at
/// which it stops is left in place, and awaits the reply to its call, if it makes one.
#[tactic(auto, using(crate::proofs::HeldLemmas::context_by, crate::proofs::HeldLemmas::stretched_by))]
pub fn stretch<B: Body>(body: &B, entry: u8, n: u64, kept: &mut KeptContext<B::Ctx>) -> StretchStop
    requires entry { B.has_entry body.now entry }
    requires context { OfHeld (B.is_context body.now entry) kept.old }
    requires goes { is_going (Some kept.old) ≡ true }
    ensures value { stopped result (context_held kept.new)
        ≡ stretched_from (B.meaning body.now) entry n (Some kept.old) }
    ensures context { OfCall (B.is_context body.now entry) (stopped result (context_held kept.new)) }
    ensures awaits { kept.new ≡ held_by (is_call result) (context_held kept.new) }
{
    let stop = body.stretch_in_place(entry, n, &mut kept.context);
    kept.awaits = awaits_reply(&stop);
    stop
}

/// The body of an entry is told a reply, where its context awaits one.
pub fn tell<B: Body>(body: &B, entry: u8, kept: &mut KeptContext<B::Ctx>, reply: Reply)
    requires entry { B.has_entry body.now entry }
    requires fits { OfHeld (B.is_context body.now entry) kept.old }
    ensures value { Some kept.new ≡ told (B.meaning body.now) entry reply (Some kept.old) }
    ensures fits { OfHeld (B.is_context body.now entry) kept.new }
{
    if kept.awaits {
        body.deliver_in_place(entry, &mut kept.context, reply);
        kept.awaits = false;
    }
}
