//! What comes to a kernel.
ghost use Rattle.std.specs.Prelude.{◌≡◌, ◌<◌, ◌^◌};
ghost use Rattle.fmp_base.specs.Steps.{Reaction, effect_of};
ghost use Rattle.fmp_kernel.specs.Comings.{IsPlaceOf, reaction_of};
ghost use Rattle.fmp_kernel.specs.KernelViews.{KernelView, view_after};

use crate::kernel::Kernel;
use crate::stamps::run_place;
use fmp_base::{Body, Effect, Event};

/// What comes to a kernel over these bodies.
pub trait Coming<B: Body>: Copy {
    /// What it does to a kernel.
    ghost reaction: { KernelView B B.Ctx → Self → Reaction B.Ctx };

    /// It comes to a kernel that has taken fewer than 2^31 events: what it does. If it is done, its lines and the state
    /// after it stand in the kernel. If it does nothing, nothing has changed.
    fn take(self, kernel: &mut Kernel<B>) -> Effect
        requires { kernel.old.taken < 2 ^ 31 }
        ensures effect { result ≡ effect_of (reaction kernel.old self) }
        ensures state { kernel.new ≡ view_after kernel.old (reaction kernel.old self) };

    /// The processor, by its place from 0, that it runs, if it runs one: no other actor keeps its place.
    fn place(self) -> Option<u8>
        ensures { (k : KernelView B B.Ctx) → IsPlaceOf result (reaction k self) };
}

impl<B: Body> Coming<B> for Event {
    ghost reaction = { λ k e. reaction_of B.meaning k e };

    fn take(self, kernel: &mut Kernel<B>) -> Effect {
        kernel.step_long(self)
    }

    #[tactic(auto, using(crate::proofs::EventPlaces::event_place))]
    fn place(self) -> Option<u8> {
        run_place(self)
    }
}
