//! What comes to a kernel whose bodies run outside.
ghost use Rattle.std.specs.Prelude.{◌≡◌};
ghost use Rattle.fmp_base.specs.Stretches.{ending};
ghost use Rattle.fmp_outside.specs.Outside.{act_of as act_by, event_of};

use fmp_base::{Call, Event, Fault, Stretch};

/// What a body does at the end of a stretch.
#[derive(Clone, Copy)]
pub enum Act {
    /// It makes this service call.
    Call(Call),
    /// It ends.
    End,
    /// It stops with this fault.
    Fault(Fault),
}

/// What comes to a kernel whose bodies run outside.
#[derive(Clone, Copy)]
pub enum Given {
    /// The actor of the processor of this number, from 1, does this.
    Act(u8, Act),
    /// The clock advances by one.
    Tick,
    /// The interrupt of this number is requested.
    Int(u8),
}

impl Given {
    /// The event that it would be if the bodies ran inside.
    pub fn event(self) -> Event
        ensures { result ≡ event_of self }
    {
        match self {
            Given::Act(p, _) => Event::Run(p),
            Given::Tick => Event::Tick,
            Given::Int(i) => Event::Int(i),
        }
    }
}

impl Act {
    /// The act at the end of a stretch; none if the stretch is over its bound.
    pub fn of<C: Copy>(stretch: Stretch<C>) -> Option<Act>
        ensures { result ≡ act_by (ending stretch) }
    {
        match stretch {
            Stretch::Call(_, call) => Some(Act::Call(call)),
            Stretch::End(_) => Some(Act::End),
            Stretch::Fault(_, fault) => Some(Act::Fault(fault)),
            Stretch::Over(_) => None,
        }
    }
}
