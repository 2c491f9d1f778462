//! Who took what, and since when tasks stand where they do: read from the lines of a trace, and from no state.
ghost use Rattle.std.specs.Prelude.{◌≡◌, [], IfOk, slice_get};
ghost use Rattle.fmp_base.specs.Services.{argument, arguments_of, parameters};
ghost use Rattle.fmp_base.specs.Systems.{SystemTables, tables_of};
ghost use Rattle.fmp_why.specs.Histories as spec;
ghost use Rattle.fmp_why.specs.HistoryTables as rows;

use fmp_base::{
    Action, Call, Caller, Er, Line, ObjectKind, Reply, SemaphoreConfig, Service, System,
};
use std::alloc::{AllocError, Global};

/// What an actor did to an object, by the event.
#[derive(Clone, Copy)]
pub struct ObjectDeed {
    pub actor: Caller,
    pub event: u32,
}

/// What was done to an object last.
#[derive(Clone, Copy)]
pub struct ObjectTrail {
    /// Who acquired or received from it last.
    pub taken: Option<ObjectDeed>,
    /// Who signalled it, set it or sent to it last.
    pub given: Option<ObjectDeed>,
    /// The task that took it last, unless that task has given it back since.
    pub holder: Option<u8>,
}

/// Nothing was done.
const NOTHING: ObjectTrail = ObjectTrail {
    taken: None,
    given: None,
    holder: None,
};

/// What the trace told of a task last.
#[derive(Clone, Copy)]
struct TaskPart {
    /// The last event that the task had a part in.
    event: u32,
    /// The call with which it began to wait then, if it did.
    waits: Option<Call>,
}

/// What a trace has told so far.
#[derive(Drop)]
pub struct History {
    semaphores: Vec<ObjectTrail>,
    flags: Vec<ObjectTrail>,
    data_queues: Vec<ObjectTrail>,
    mailboxes: Vec<ObjectTrail>,
    spin_locks: Vec<ObjectTrail>,
    tasks: Vec<TaskPart>,
}

/// What a call does to the object that its first argument names.
#[derive(Clone, Copy)]
enum Way {
    Takes,
    Gives,
}

/// What a call does, and to which object: that of a kind at a place.
#[derive(Clone, Copy)]
struct ObjectAct {
    way: Way,
    kind: ObjectKind,
    place: usize,
}

/// The place of a task, if an actor is one.
fn task_of(actor: Caller) -> Option<u8>
    ensures { result ≡ spec.task_of actor }
{
    match actor {
        Caller::Task(task) => Some(task),
        Caller::Handler(_) => None,
    }
}

/// The task that has a part in a line: it calls, is released or starts.
fn part_in(line: Line) -> Option<u8>
    ensures { result ≡ spec.part_in line }
{
    match line {
        Line::Call { caller, .. } => task_of(caller),
        Line::Gets { task, .. } => Some(task),
        Line::Starts { task, .. } => Some(task),
        _ => None,
    }
}

/// The call with which a task waits from a line on.
fn waits_from(line: Line) -> Option<Call>
    ensures { result ≡ spec.waits_from line }
{
    match line {
        Line::Call {
            call,
            reply: None,
            ..
        } => Some(call),
        _ => None,
    }
}

/// Whether a call was answered as it was asked.
fn is_done(reply: Reply) -> bool
    ensures { result ≡ spec.is_done reply }
{
    match reply.code {
        Er::Ok => true,
        _ => false,
    }
}

/// The call with which a task waits.
fn waits_of(parts: &[TaskPart], task: u8) -> Option<Call>
    ensures { result ≡ spec.waits_of (slice_get parts.now task) }
{
    match parts.get(usize::from(task)) {
        Some(part) => part.waits,
        None => None,
    }
}

/// The call from which a task is released with a reply, if it did what it asks for.
fn released(parts: &[TaskPart], task: u8, reply: Reply) -> Option<(Caller, Call)>
    ensures { result ≡ spec.released_with (spec.is_done reply) task (spec.waits_of (slice_get parts.now task)) }
{
    if !is_done(reply) {
        return None;
    }
    match waits_of(parts, task) {
        Some(call) => Some((Caller::Task(task), call)),
        None => None,
    }
}

/// Which actor did, by a line, what which call asks for.
fn done_in(parts: &[TaskPart], line: Line) -> Option<(Caller, Call)>
    ensures { result ≡ spec.done_in (λ t. spec.waits_of (slice_get parts.now t)) line }
{
    match line {
        Line::Call {
            caller,
            call,
            reply: Some(reply),
            ..
        } => if is_done(reply) {
            Some((caller, call))
        } else {
            None
        },
        Line::Gets { task, reply, .. } => released(parts, task, reply),
        _ => None,
    }
}

fn way_by(action: Option<Action>) -> Option<Way>
    ensures { result ≡ spec.way_by action }
{
    match action {
        Some(Action::Takes) => Some(Way::Takes),
        Some(Action::Gives) => Some(Way::Gives),
        _ => None,
    }
}

/// What a service does to the object that its first argument names.
fn way_of(service: Service) -> Option<Way>
    ensures { result ≡ spec.way_of service }
{
    match service {
        Service::LocSpn | Service::TrySpn => Some(Way::Takes),
        Service::UnlSpn => Some(Way::Gives),
        _ => way_by(service.action()),
    }
}

/// The kind of the objects of which the first argument of a service names one.
fn kind_of(service: Service) -> Option<ObjectKind>
    ensures { result ≡ spec.first_kind (parameters service) }
{
    match service.parameters() {
        [first, ..] => first.object_kind(),
        [] => None,
    }
}

/// The place that a number from 1 on names.
fn place_of(number: i32) -> Option<usize>
    ensures { result ≡ spec.place_of number }
{
    if number > 0 {
        Some((number - 1) as usize)
    } else {
        None
    }
}

/// The place that the first argument of a call names.
fn first_place(call: Call) -> Option<usize>
    ensures { result ≡ spec.place_of (argument (arguments_of call) 0) }
{
    let arguments = call.arguments();
    match arguments.as_slice() {
        [number, ..] => place_of(*number),
        [] => None,
    }
}

/// Which object a call takes or gives, if it does.
fn act_of(call: Call) -> Option<ObjectAct>
    ensures { result ≡ spec.act_of call }
{
    let service = call.service();
    match (way_of(service), kind_of(service), first_place(call)) {
        (Some(way), Some(kind), Some(place)) => Some(ObjectAct { way, kind, place }),
        _ => None,
    }
}

/// The holder after a task, or a handler, gave.
fn holder_after(giver: Option<u8>, holder: Option<u8>) -> Option<u8>
    ensures { result ≡ spec.holder_after giver holder }
{
    match (giver, holder) {
        (Some(giver), Some(task)) if giver == task => None,
        _ => holder,
    }
}

impl ObjectTrail {
    /// What was done last, after this too.
    fn with(self, way: Way, deed: ObjectDeed) -> ObjectTrail
        ensures { result ≡ spec.after_deed way deed self }
    {
        match way {
            Way::Takes => ObjectTrail {
                taken: Some(deed),
                holder: task_of(deed.actor),
                ..self
            },
            Way::Gives => ObjectTrail {
                given: Some(deed),
                holder: holder_after(task_of(deed.actor), self.holder),
                ..self
            },
        }
    }
}

/// One thing more was done to the object at a place.
fn add(trails: &mut Vec<ObjectTrail>, place: usize, way: Way, deed: ObjectDeed)
    ensures { trails.new.items ≡ rows.changed_at (spec.after_deed way deed) trails.old.items place }
{
    if place < trails.len() {
        trails[place] = trails[place].with(way, deed);
    }
}

/// A task had this part in a line.
fn set_part(parts: &mut Vec<TaskPart>, task: usize, part: TaskPart)
    ensures { parts.new.items ≡ rows.changed_at (λ _. part) parts.old.items task }
{
    if task < parts.len() {
        parts[task] = part;
    }
}

impl History {
    /// Nothing is told of a system. `AllocError` if memory runs out.
    pub fn new(alloc: Global, sys: &System) -> Result<History, AllocError>
        ensures { IfOk result (λ made. rows.IsTold (tables_of sys.now) [] (rows.tables made)) }
    {
        let part = TaskPart {
            event: 0,
            waits: None,
        };
        Ok(History {
            semaphores: vec![in alloc; NOTHING; sys.semaphores.len()]?,
            flags: vec![in alloc; NOTHING; sys.flags.len()]?,
            data_queues: vec![in alloc; NOTHING; sys.data_queues.len()]?,
            mailboxes: vec![in alloc; NOTHING; sys.mailboxes.len()]?,
            spin_locks: vec![in alloc; NOTHING; sys.spin_locks.len()]?,
            tasks: vec![in alloc; part; sys.tasks.len()]?,
        })
    }

    /// An actor did to an object what a call does.
    fn note_act(&mut self, act: ObjectAct, deed: ObjectDeed)
        ensures { rows.tables self.new
            ≡ rows.deed_noted act.kind act.place (spec.after_deed act.way deed) (rows.tables self.old) }
    {
        match act.kind {
            ObjectKind::Semaphore => add(&mut self.semaphores, act.place, act.way, deed),
            ObjectKind::Flag => add(&mut self.flags, act.place, act.way, deed),
            ObjectKind::DataQueue => add(&mut self.data_queues, act.place, act.way, deed),
            ObjectKind::Mailbox => add(&mut self.mailboxes, act.place, act.way, deed),
            ObjectKind::SpinLock => add(&mut self.spin_locks, act.place, act.way, deed),
            _ => {}
        }
    }

    /// An actor did what a call asks for, if it is some.
    fn note_done(&mut self, done: Option<(Caller, Call)>, event: u32)
        ensures { rows.tables self.new ≡ rows.done_noted event done (rows.tables self.old) }
    {
        if let Some((actor, call)) = done
            && let Some(act) = act_of(call)
        {
            self.note_act(act, ObjectDeed { actor, event });
        }
    }

    /// A task, if it is some, had this part in a line.
    fn note_part(&mut self, task: Option<u8>, part: TaskPart)
        ensures { rows.tables self.new ≡ rows.part_noted task part (rows.tables self.old) }
    {
        if let Some(task) = task {
            set_part(&mut self.tasks, usize::from(task), part);
        }
    }

    /// Notes what a line told.
    fn note_line(&mut self, line: Line, event: u32)
        ensures { rows.tables self.new ≡ rows.line_noted event line (rows.tables self.old) }
    {
        let done = done_in(&self.tasks, line);
        let waits = waits_from(line);
        self.note_part(part_in(line), TaskPart { event, waits });
        self.note_done(done, event);
    }

    /// Notes what lines told, one after another.
    fn note_lines(&mut self, lines: &[Line], event: u32)
        ensures { rows.tables self.new ≡ rows.lines_noted event lines.now (rows.tables self.old) }
    {
        for line in lines {
            self.note_line(*line, event);
        }
    }

    /// Notes what the lines of an event told.
    pub fn note(&mut self, lines: &[Line], event: u32)
        ensures { (sys : SystemTables) (told : spec.Told) → rows.IsTold sys told (rows.tables self.old)
            → rows.IsTold sys (spec.told_with lines.now event told) (rows.tables self.new) }
    {
        self.note_lines(lines, event);
    }

    /// The last event that a task had a part in: where it waits, that of its call.
    pub fn since(&self, task: usize) -> u32
        ensures row { result ≡ rows.since_in (rows.tables self.now) task }
        ensures told { (sys : SystemTables) (told : spec.Told) → rows.IsTold sys told (rows.tables self.now)
            → result ≡ spec.event_of (spec.part_told sys told task) }
    {
        match self.tasks.get(task) {
            Some(part) => part.event,
            None => 0,
        }
    }

    /// What was done to the objects of a kind that is waited or spun for.
    fn trails(&self, kind: ObjectKind) -> &[ObjectTrail]
        ensures { result.now ≡ rows.trails_in (rows.tables self.now) kind }
    {
        match kind {
            ObjectKind::Semaphore => &self.semaphores,
            ObjectKind::Flag => &self.flags,
            ObjectKind::DataQueue => &self.data_queues,
            ObjectKind::Mailbox => &self.mailboxes,
            ObjectKind::SpinLock => &self.spin_locks,
            _ => &[],
        }
    }

    /// What was done to an object of a kind that is waited or spun for.
    pub fn trail(&self, kind: ObjectKind, place: u8) -> ObjectTrail
        ensures row { result ≡ rows.trail_in (rows.tables self.now) kind place }
        ensures told { (sys : SystemTables) (told : spec.Told) → rows.IsTold sys told (rows.tables self.now)
            → result ≡ spec.trail_or (spec.trail_told sys told kind place) }
    {
        match self.trails(kind).get(usize::from(place)) {
            Some(trail) => *trail,
            None => NOTHING,
        }
    }

    /// The task that holds each semaphore: the one that took it last and has not signalled it since. A semaphore that
    /// begins with no resource is held by none: it is waited for as a sign, and not as a lock.
    pub fn holders(&self, alloc: Global, sys: &System) -> Result<Vec<Option<u8>>, AllocError>
        ensures rows { IfOk result (λ holders. holders.items
            ≡ rows.holders_in (tables_of sys.now).semaphores (rows.tables self.now).semaphores) }
        ensures told { (told : spec.Told) → rows.IsTold (tables_of sys.now) told (rows.tables self.now)
            → IfOk result (λ holders. holders.items ≡ spec.holders_told (tables_of sys.now) told) }
    {
        holders_of(alloc, &sys.semaphores, &self.semaphores)
    }
}

/// The task that holds a semaphore, by what was done to it.
fn holder_of(config: &SemaphoreConfig, trail: ObjectTrail) -> Option<u8>
    ensures { result ≡ spec.holder_of config.now trail }
{
    if config.initial > 0 {
        trail.holder
    } else {
        None
    }
}

/// The task that holds each of these semaphores, by what was done to each.
fn holders_of(
    alloc: Global,
    semaphores: &[SemaphoreConfig],
    trails: &[ObjectTrail],
) -> Result<Vec<Option<u8>>, AllocError>
    ensures { IfOk result (λ holders. holders.items ≡ rows.holders_in semaphores.now trails.now) }
{
    let mut holders = Vec::new(alloc);
    let mut rest = trails;
    for config in semaphores {
        let [trail, more @ ..] = rest else {
            return Ok(holders);
        };
        holders.push(holder_of(config, *trail))?;
        rest = more;
    }
    Ok(holders)
}
