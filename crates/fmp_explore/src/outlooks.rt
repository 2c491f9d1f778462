//! Which bodies go on forever, as far as known: what was found of the contexts at which stretches were cut last.
ghost use Rattle.std.specs.Prelude.{◌<◌, ◌≡◌, [], IfOk, false, length};
ghost use Rattle.fmp_code.specs.Vms.{IsContext};

use fmp_code::{MachineContext, Vm};
use fmp_kernel::{Actor, Kernel};
use fmp_question::{Outlook, is_same, outlook_of};
use std::alloc::{AllocError, Global};

/// How many contexts are remembered.
const REMEMBERED: usize = 64;

/// What becomes of a body from a context on.
#[derive(Clone, Copy)]
struct Known {
    entry: u8,
    context: MachineContext,
    outlook: Outlook,
}

/// What is known of bodies that may go on forever.
#[derive(Drop)]
pub struct Outlooks {
    known: Vec<Known>,
    /// The place of those that is written next, once all are.
    next: usize,
    /// The bodies that were looked at without an answer. They are not looked at again.
    unknown: Vec<u8>,
    /// Whether anything was remembered since these were made.
    pub changed: bool,
}

/// Whether this is known of an actor.
fn is_of(known: &Known, actor: &Actor<MachineContext>) -> bool {
    known.entry == actor.entry && is_same(&known.context, &actor.context)
}

impl Outlooks {
    /// Nothing is known.
    pub fn new(alloc: Global) -> Outlooks
        ensures known { result.known.items ≡ [] }
        ensures unknown { result.unknown.items ≡ [] }
        ensures changed { result.changed ≡ false }
    {
        Outlooks {
            known: Vec::new(alloc),
            next: 0,
            unknown: Vec::new(alloc),
            changed: false,
        }
    }

    /// A copy that knows the same, and has remembered nothing since. `AllocError` if memory runs out.
    pub fn again(&self, alloc: Global) -> Result<Outlooks, AllocError>
        ensures known { IfOk result (λ again. again.known.items ≡ self.now.known.items) }
        ensures unknown { IfOk result (λ again. again.unknown.items ≡ self.now.unknown.items) }
        ensures changed { IfOk result (λ again. again.changed ≡ false) }
    {
        Ok(Outlooks {
            known: Vec::from_slice(alloc, &self.known)?,
            next: self.next,
            unknown: Vec::from_slice(alloc, &self.unknown)?,
            changed: false,
        })
    }

    /// What is known of an actor, if something is.
    fn find(&self, actor: &Actor<MachineContext>) -> Option<Outlook> {
        for known in &self.known {
            if is_of(known, actor) {
                return Some(known.outlook);
            }
        }
        if self.unknown.contains(&actor.entry) {
            Some(Outlook::Unknown)
        } else {
            None
        }
    }

    /// Remembers what becomes of an actor. `AllocError` if memory runs out.
    fn remember(
        &mut self,
        actor: &Actor<MachineContext>,
        outlook: Outlook,
    ) -> Result<(), AllocError> {
        self.changed = true;
        let known = Known {
            entry: actor.entry,
            context: actor.context,
            outlook,
        };
        if self.known.len() < REMEMBERED {
            self.known.push(known)?;
            return Ok(());
        }
        if let Some(place) = self.known.get_mut(self.next) {
            *place = known;
        }
        self.next = (self.next % REMEMBERED + 1) % REMEMBERED;
        Ok(())
    }

    /// What becomes of an actor, which is looked at unless that is known. `AllocError` if memory runs out.
    fn of(&mut self, body: &Vm<'_>, actor: &Actor<MachineContext>) -> Result<Outlook, AllocError>
        requires entry { actor.now.entry < length body.now }
        requires context { IsContext body.now actor.now.entry actor.now.context }
    {
        if let Some(known) = self.find(actor) {
            return Ok(known);
        }
        let seen = outlook_of(body, actor.entry, actor.context);
        self.changed = true;
        match seen {
            Outlook::Unknown => self.unknown.push(actor.entry)?,
            Outlook::Endless | Outlook::Ends => self.remember(actor, seen)?,
        }
        Ok(seen)
    }

    /// What becomes of the actor of a processor. `AllocError` if memory runs out.
    pub fn on(
        &mut self,
        kernel: &Kernel<Vm<'_>>,
        body: &Vm<'_>,
        p: u8,
    ) -> Result<Outlook, AllocError>
        requires { body.now ≡ kernel.now.body }
    {
        match kernel.actor(p) {
            Some(actor) => self.of(body, &actor),
            None => Ok(Outlook::Unknown),
        }
    }

    /// An event kept the place of the actor of a processor: what becomes of it stays so. `AllocError` if memory runs
    /// out.
    pub fn go_on(
        &mut self,
        kernel: &Kernel<Vm<'_>>,
        p: u8,
        outlook: Outlook,
    ) -> Result<(), AllocError> {
        let Some(actor) = kernel.actor(p) else {
            return Ok(());
        };
        if self.find(&actor).is_some() {
            return Ok(());
        }
        self.remember(&actor, outlook)
    }
}
