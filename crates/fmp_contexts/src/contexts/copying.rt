//! What is kept of the bodies, put back as it is kept elsewhere.
ghost use Rattle.std.specs.Prelude.{◌≡◌, length};

use crate::contexts::{BodyContexts, KeptHandler};

/// Puts what is kept of another handler in the place of this.
fn put_handler_back<C: Copy>(handler: &mut Option<KeptHandler<C>>, from: &Option<KeptHandler<C>>)
    ensures { handler.new ≡ from.now }
{
    match from {
        Some(from) => {
            *handler = Some(KeptHandler {
                body: from.body,
                kept: from.kept,
            });
        }
        None => {
            // Where nothing is kept, nothing is written: that would take as long as a context.
            if handler.is_some() {
                *handler = None;
            }
        }
    }
}

/// Puts what is kept of as many other handlers in the place of this.
fn put_handlers_back<C: Copy>(
    handlers: &mut [Option<KeptHandler<C>>],
    from: &[Option<KeptHandler<C>>],
)
    requires { length handlers.old ≡ length from.now }
    ensures { handlers.new ≡ from.now }
{
    for p in 0..handlers.len() {
        put_handler_back(&mut handlers[p], &from[p]);
    }
}

impl<C: Copy> BodyContexts<C> {
    /// Puts what is kept of other bodies, with as many places, in the place of this.
    pub fn put_back(&mut self, from: &BodyContexts<C>)
        requires tasks { length self.old.tasks ≡ length from.now.tasks }
        requires handlers { length self.old.handlers ≡ length from.now.handlers }
        ensures { self.new ≡ from.now }
    {
        self.tasks.copy_from_slice(from.tasks.as_slice());
        put_handlers_back(self.handlers.as_mut_slice(), from.handlers.as_slice());
    }
}
