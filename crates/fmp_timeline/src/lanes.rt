//! What a panel shows of a task on a processor.
ghost use Rattle.std.specs.Prelude.{◌≡◌};
ghost use Rattle.fmp_timeline.specs.Lanes as spec;

/// How a task is there on a processor, over the events of a panel.
#[derive(Clone, Copy)]
pub struct Presence {
    /// It is assigned to the processor after some event of the panel.
    pub is_here: bool,
    /// The first event of the panel migrates it to another processor.
    pub leaves: bool,
    /// It runs, changes or has a mark.
    pub is_awake: bool,
    /// It is dormant after each event of the panel.
    pub is_dormant: bool,
}

/// What a panel shows of a task on a processor.
#[derive(Clone, Copy)]
pub enum Showing {
    /// A lane.
    Lane,
    /// That it has no lane, since nothing happens to it.
    Count,
    /// Nothing: it is on another processor.
    Nothing,
}

/// What a panel shows of a task that is there so on a processor. A task to which nothing happens has a lane only where
/// there are few tasks and it is started.
pub fn showing_of(many: bool, presence: Presence) -> Showing
    ensures { result ≡ spec.showing_of many presence }
{
    if presence.leaves || (presence.is_here && presence.is_awake) {
        Showing::Lane
    } else if !presence.is_here {
        Showing::Nothing
    } else if many || presence.is_dormant {
        Showing::Count
    } else {
        Showing::Lane
    }
}
