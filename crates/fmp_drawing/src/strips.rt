//! Which lanes a panel has, and where they stand.
ghost use Rattle.std.specs.Prelude.{◌≡◌, ◌++◌, ◌∷◌, IfOk, OnOk, []};
ghost use Rattle.fmp_drawing.specs.Lanes as spec;

use fmp_base::{Caller, Handler, Lock, StateWord, System};
use fmp_timeline::{
    ObjectHistory, PanelSpan, Presence, Run, Showing, TaskShown, Tenths, Track, px, showing_of,
};
use std::alloc::{AllocError, Global};

/// With more tasks than this, a panel has no lanes of tasks and handlers to which nothing happens.
const MANY_TASKS: usize = 24;

/// What a lane shows.
#[derive(Clone, Copy, PartialEq, Eq)]
pub enum Lane {
    Processor(u8),
    Lock(u8),
    Dispatch(u8),
    Handler(Handler),
    /// A task on a processor.
    Task(u8, u8),
    /// The head of the group of objects.
    ObjectsHead,
    /// The object at this place.
    Object(usize),
    Gap,
}

/// A lane at its place, in whole pixels.
#[derive(Clone, Copy)]
pub struct Strip {
    pub lane: Lane,
    pub top: u32,
    pub height: u32,
}

/// The lanes of a panel, and what has none because nothing happens to it.
#[derive(Drop)]
pub struct Strips {
    pub strips: Vec<Strip>,
    /// The tasks without a lane.
    pub asleep: Vec<u8>,
    /// The places of the objects without a lane.
    pub still: Vec<usize>,
    pub bottom: u32,
}

impl Lane {
    fn height(self) -> u32
        ensures { result ≡ spec.height_of self }
    {
        match self {
            Lane::Processor(_) => 28,
            Lane::Lock(_) | Lane::Dispatch(_) => 12,
            Lane::Handler(_) | Lane::ObjectsHead | Lane::Object(_) => 18,
            Lane::Task(..) => 22,
            Lane::Gap => 10,
        }
    }

    /// The owner of the lane.
    pub fn actor(self) -> Option<Caller>
        ensures { result ≡ spec.actor_of self }
    {
        match self {
            Lane::Task(task, _) => Some(Caller::Task(task)),
            Lane::Handler(handler) => Some(Caller::Handler(handler)),
            _ => None,
        }
    }

    /// Whether the lane belongs to the head of a processor's group.
    pub fn is_head(self) -> bool
        ensures { result ≡ spec.is_head self }
    {
        matches!(self, Lane::Processor(_) | Lane::Lock(_) | Lane::Dispatch(_))
    }
}

impl Strip {
    /// The top of the lane, lowered by this many tenths.
    pub fn y(&self, lower: i32) -> Tenths
        ensures { result ≡ spec.y_of self.now lower }
    {
        px(self.top) + Tenths(lower)
    }

    /// The middle of the lane, lowered by this many tenths.
    pub fn middle(&self, lower: i32) -> Tenths
        ensures { result ≡ spec.middle_of self.now lower }
    {
        px(self.top) + px(self.height).half() + Tenths(lower)
    }
}

/// Whether a track, if there is one, has a state of this kind after some event of these.
fn any_state<S: Copy + PartialEq + Drop, F: Fn(S) -> bool>(
    track: Option<&Track<S>>,
    first: u32,
    last: u32,
    is_meant: F,
) -> bool
    requires { (state : S) → F.pre is_meant state }
{
    let Some(track) = track else {
        return false;
    };
    for place in track.places(first, last) {
        if let Some(stay) = track.stay(place)
            && is_meant(stay.state)
        {
            return true;
        }
    }
    false
}

/// Whether a task is assigned to a processor after some event of these.
fn is_here(run: &Run, task: u8, processor: u8, first: u32, last: u32) -> bool {
    let track = run.tasks.get(usize::from(task));
    any_state(track, first, last, |shown| shown.processor == processor)
}

/// Whether a task is assigned to a processor after the event before a panel, and not after the panel's first event.
fn leaves(run: &Run, task: u8, processor: u8, first: u32) -> bool {
    let before = first.saturating_sub(1);
    is_here(run, task, processor, before, before) && !is_here(run, task, processor, first, first)
}

/// Whether a task is dormant after each event of a panel.
fn is_dormant(run: &Run, task: u8, span: &PanelSpan) -> bool {
    let track = run.tasks.get(usize::from(task));
    !any_state(
        track,
        span.first,
        span.last,
        |shown| shown.word != StateWord::Dormant,
    )
}

/// How a task is there on a processor, over the events of a panel.
fn presence_of(run: &Run, span: &PanelSpan, task: u8, processor: u8) -> Presence {
    Presence {
        is_here: is_here(run, task, processor, span.first, span.last),
        leaves: leaves(run, task, processor, span.first),
        is_awake: is_awake(run, task, span),
        is_dormant: is_dormant(run, task, span),
    }
}

/// Whether an object changes in a panel, or tasks wait for it.
fn is_moving(object: &ObjectHistory, span: &PanelSpan) -> bool {
    let waited = match object.track.at(span.first) {
        Some(shown) => shown.start < shown.end,
        None => false,
    };
    waited || object.track.places(span.first, span.last).len() > 1
}

/// Whether some object changes in a panel, or tasks wait for it.
fn is_any_moving(objects: &[ObjectHistory], span: &PanelSpan) -> bool {
    for object in objects {
        if is_moving(object, span) {
            return true;
        }
    }
    false
}

/// Whether something happens to a task in a panel: it runs, changes or has a mark.
fn is_awake(run: &Run, task: u8, span: &PanelSpan) -> bool {
    let Some(track) = run.tasks.get(usize::from(task)) else {
        return false;
    };
    let changes = track.places(span.first, span.last).len() > 1;
    changes || runs_at(track, span.first) || has_mark(run, task, span)
}

/// Whether a task runs after this event.
fn runs_at(track: &Track<TaskShown>, event: u32) -> bool {
    match track.at(event) {
        Some(shown) => shown.word == StateWord::Running,
        None => false,
    }
}

/// Whether a task has a mark in a panel, after setup.
fn has_mark(run: &Run, task: u8, span: &PanelSpan) -> bool {
    let Some(deeds) = run.deeds_of(Caller::Task(task)) else {
        return false;
    };
    for mark in &deeds.marks {
        if mark.event > 0 && span.has(mark.event) {
            return true;
        }
    }
    false
}

/// Whether a processor handles the interrupt at this place.
fn handles(sys: &System, processor: u8, place: u8) -> bool {
    for config in sys.interrupts.as_slice() {
        if config.processor == processor && config.number == place.saturating_add(1) {
            return true;
        }
    }
    false
}

impl Strips {
    #[tactic(auto, using(crate::proofs::Stacks::keeps_added))]
    fn add(&mut self, lane: Lane) -> Result<(), AllocError>
        ensures strips { OnOk result (self.new.strips.items
            ≡ self.old.strips.items ++ spec.strip_at self.old.bottom lane ∷ []) }
        ensures bottom { OnOk result (self.new.bottom ≡ spec.lower self.old.bottom (spec.height_of lane)) }
        ensures stack { OnOk result (spec.KeepsStack self.old.strips.items self.old.bottom self.new.strips.items
            self.new.bottom) }
    {
        let height = lane.height();
        self.strips.push(Strip {
            lane,
            top: self.bottom,
            height,
        })?;
        self.bottom = self.bottom.saturating_add(height);
        Ok(())
    }

    fn add_head(&mut self, run: &Run, span: &PanelSpan, processor: u8) -> Result<(), AllocError>
        ensures { OnOk result (spec.KeepsStack self.old.strips.items self.old.bottom self.new.strips.items
            self.new.bottom) }
    {
        let place = usize::from(processor);
        let (first, last) = (span.first, span.last);
        self.add(Lane::Processor(processor))?;
        let spins = run.spins.meet(processor, first, last);
        if spins || any_state(run.locks.get(place), first, last, |lock| lock != Lock::Free) {
            self.add(Lane::Lock(processor))?;
        }
        if any_state(run.dispatches.get(place), first, last, |enabled| !enabled) {
            self.add(Lane::Dispatch(processor))?;
        }
        Ok(())
    }

    /// The lane of a handler, if there are few tasks or something happens to it.
    fn add_handler(
        &mut self,
        run: &Run,
        span: &PanelSpan,
        many: bool,
        handler: Handler,
    ) -> Result<(), AllocError>
        ensures { OnOk result (spec.KeepsStack self.old.strips.items self.old.bottom self.new.strips.items
            self.new.bottom) }
    {
        if many && !run.is_handling(handler, span) {
            return Ok(());
        }
        self.add(Lane::Handler(handler))
    }

    fn add_interrupts(
        &mut self,
        sys: &System,
        run: &Run,
        span: &PanelSpan,
        processor: u8,
    ) -> Result<(), AllocError>
        ensures { OnOk result (spec.KeepsStack self.old.strips.items self.old.bottom self.new.strips.items
            self.new.bottom) }
    {
        let many = sys.tasks.len() > MANY_TASKS;
        for place in 0..32u8 {
            if handles(sys, processor, place) {
                self.add_handler(run, span, many, Handler::Interrupt(place))?;
            }
        }
        Ok(())
    }

    fn add_cyclics(
        &mut self,
        sys: &System,
        run: &Run,
        span: &PanelSpan,
        processor: u8,
    ) -> Result<(), AllocError>
        ensures { OnOk result (spec.KeepsStack self.old.strips.items self.old.bottom self.new.strips.items
            self.new.bottom) }
    {
        let many = sys.tasks.len() > MANY_TASKS;
        for place in 0..sys.cyclics.len().min(255) as u8 {
            if sys.cyclics[usize::from(place)].processor == processor {
                self.add_handler(run, span, many, Handler::Cyclic(place))?;
            }
        }
        Ok(())
    }

    /// The lane of a task in the group of a processor, if it has one there.
    fn add_task(
        &mut self,
        run: &Run,
        span: &PanelSpan,
        many: bool,
        place: (u8, u8),
    ) -> Result<(), AllocError>
        ensures { OnOk result (spec.KeepsStack self.old.strips.items self.old.bottom self.new.strips.items
            self.new.bottom) }
    {
        let (task, processor) = place;
        match showing_of(many, presence_of(run, span, task, processor)) {
            Showing::Lane => self.add(Lane::Task(task, processor))?,
            Showing::Count => self.asleep.push(task)?,
            Showing::Nothing => {}
        }
        Ok(())
    }

    fn add_tasks(
        &mut self,
        sys: &System,
        run: &Run,
        span: &PanelSpan,
        processor: u8,
    ) -> Result<(), AllocError>
        ensures { OnOk result (spec.KeepsStack self.old.strips.items self.old.bottom self.new.strips.items
            self.new.bottom) }
    {
        let many = sys.tasks.len() > MANY_TASKS;
        for priority in 1..=16u8 {
            for task in 0..sys.tasks.len().min(255) as u8 {
                if sys.tasks[usize::from(task)].priority == priority {
                    self.add_task(run, span, many, (task, processor))?;
                }
            }
        }
        Ok(())
    }

    /// The lane of the object at a place, if it has one.
    fn add_object(
        &mut self,
        object: &ObjectHistory,
        place: usize,
        span: &PanelSpan,
    ) -> Result<(), AllocError>
        ensures { OnOk result (spec.KeepsStack self.old.strips.items self.old.bottom self.new.strips.items
            self.new.bottom) }
    {
        if is_moving(object, span) {
            return self.add(Lane::Object(place));
        }
        self.still.push(place)?;
        Ok(())
    }

    fn add_objects(&mut self, run: &Run, span: &PanelSpan) -> Result<(), AllocError>
        ensures { OnOk result (spec.KeepsStack self.old.strips.items self.old.bottom self.new.strips.items
            self.new.bottom) }
    {
        if is_any_moving(&run.objects.all, span) {
            self.add(Lane::ObjectsHead)?;
        }
        for (place, object) in run.objects.all.iter().enumerate() {
            self.add_object(object, place, span)?;
        }
        Ok(())
    }

    fn add_all(&mut self, sys: &System, run: &Run, span: &PanelSpan) -> Result<(), AllocError>
        ensures { OnOk result (spec.KeepsStack self.old.strips.items self.old.bottom self.new.strips.items
            self.new.bottom) }
    {
        for processor in 0..sys.processors {
            self.add_head(run, span, processor)?;
            self.add_interrupts(sys, run, span, processor)?;
            self.add_cyclics(sys, run, span, processor)?;
            self.add_tasks(sys, run, span, processor)?;
            self.add(Lane::Gap)?;
        }
        self.add_objects(run, span)
    }

    /// The lanes of a panel that begins at this height.
    pub fn new(
        alloc: Global,
        sys: &System,
        run: &Run,
        span: &PanelSpan,
        top: u32,
    ) -> Result<Strips, AllocError>
        ensures { IfOk result (λ panel. spec.AreStacked top panel.strips.items panel.bottom) }
    {
        let mut strips = Strips {
            strips: Vec::new(alloc),
            asleep: Vec::new(alloc),
            still: Vec::new(alloc),
            bottom: top,
        };
        strips.add_all(sys, run, span)?;
        Ok(strips)
    }

    /// Whether something has no lane.
    pub fn leaves_out(&self) -> bool
        ensures { result ≡ spec.leaves_out self.now }
    {
        !self.asleep.is_empty() || !self.still.is_empty()
    }

    /// The lower end, with a line for what has no lane.
    pub fn end(&self) -> u32
        ensures { result ≡ spec.end_of self.now }
    {
        if self.leaves_out() {
            return self.bottom.saturating_add(14);
        }
        self.bottom
    }

    fn of_lane(&self, lane: Lane) -> Option<Strip> {
        for strip in &self.strips {
            if strip.lane == lane {
                return Some(*strip);
            }
        }
        None
    }

    /// The lane of a task on a processor.
    pub fn of_task(&self, task: u8, processor: u8) -> Option<Strip> {
        self.of_lane(Lane::Task(task, processor))
    }

    /// The lane of an actor; that of a task is where the task is after this event.
    pub fn of_actor(&self, run: &Run, actor: Caller, event: u32) -> Option<Strip> {
        match actor {
            Caller::Task(task) => {
                let shown = run.tasks.get(usize::from(task))?.at(event)?;
                self.of_task(task, shown.processor)
            }
            Caller::Handler(handler) => self.of_lane(Lane::Handler(handler)),
        }
    }
}
