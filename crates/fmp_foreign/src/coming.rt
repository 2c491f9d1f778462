//! What comes to a kernel whose bodies run elsewhere.
ghost use Rattle.std.specs.Prelude.{◌≡◌, pos};
ghost use Rattle.fmp_base.specs.Stretches.{ending};
ghost use Rattle.fmp_foreign.specs.declared.foreign.LastTold.TheVariants as told;
ghost use Rattle.fmp_foreign.specs.Hosting.{reaction};
ghost use Rattle.fmp_outside.specs.Outside.{ending_by};

use crate::foreign::{Foreign, LastTold};
use fmp_base::{Effect, Event, Stretch};
use fmp_kernel::{Coming, Kernel, run_place};
use fmp_outside::{Act, Given};

/// The stretch that ends with this act.
fn stretch_of(act: Act) -> Stretch<LastTold>
    ensures { ending result ≡ ending_by (told.Starts (pos 0)) act }
{
    let told = LastTold::Starts(0);
    match act {
        Act::Call(call) => Stretch::Call(told, call),
        Act::End => Stretch::End(told),
        Act::Fault(fault) => Stretch::Fault(told, fault),
    }
}

impl Coming<Foreign> for Given {
    ghost reaction = { reaction };

    #[tactic(auto, using(crate::proofs::AnyStretch::any_stretch))]
    #[inline(always)]
    fn take(self, kernel: &mut Kernel<Foreign>) -> Effect {
        match self {
            Given::Act(p, act) => kernel.apply_long(p, stretch_of(act)),
            Given::Tick => kernel.step_long(Event::Tick),
            Given::Int(number) => kernel.step_long(Event::Int(number)),
        }
    }

    #[tactic(auto, using(crate::proofs::GivenPlaces::given_place))]
    fn place(self) -> Option<u8> {
        run_place(self.event())
    }
}
