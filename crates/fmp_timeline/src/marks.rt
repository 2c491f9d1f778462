//! What events do to tasks and handlers: marks in their lanes, and links between them.
ghost use Rattle.std.specs.Prelude.{◌≡◌};
ghost use Rattle.fmp_timeline.specs.Marks as spec;

use fmp_base::{Action, Call, Caller, Er, Fault, Handler, Line, Reply};

/// What a mark says.
#[derive(Clone, Copy)]
pub enum Sign {
    /// A task started.
    Start,
    /// An activation was queued.
    Queued,
    /// A wait ended well.
    Released,
    /// A wakeup was queued.
    WakeupQueued,
    /// A wait ended by its time limit.
    TimedOut,
    /// A wait was broken off.
    BrokenOff,
    /// A call did not wait and got nothing.
    Polled,
    /// A call was refused with this code.
    Refused(Er),
    /// A body stopped with a fault.
    Faulted(Fault),
    /// A body ended.
    Ended,
    /// A task was terminated.
    Terminated,
    /// A task has this priority now.
    Priority(u8),
    /// An interrupt was requested.
    Requested,
    /// A cyclic handler became due.
    Due,
    /// A stretch was cut short after the event, and kept its place.
    Kept,
}

impl Sign {
    /// Whether the mark stands where the task was before the event, not where it is after it.
    pub fn stands_before(self) -> bool
        ensures { result ≡ spec.stands_before self }
    {
        matches!(
            self,
            Sign::Polled | Sign::Refused(_) | Sign::Faulted(_) | Sign::Ended | Sign::Terminated
        )
    }

    /// Whether something went wrong.
    pub fn is_wrong(self) -> bool
        ensures { result ≡ spec.is_wrong self }
    {
        matches!(self, Sign::Refused(_) | Sign::Faulted(_))
    }
}

/// A mark at an event.
#[derive(Clone, Copy)]
pub struct EventMark {
    pub event: u32,
    pub sign: Sign,
}

/// A service call at an event.
#[derive(Clone, Copy)]
pub struct CallMade {
    pub event: u32,
    pub call: Call,
    pub reply: Option<Reply>,
    /// Whether a wait ended at the event.
    pub releases: bool,
}

fn is_ok(code: Er) -> bool
    ensures { result ≡ spec.is_ok code }
{
    match code {
        Er::Ok => true,
        _ => false,
    }
}

/// Whether a call was answered at once, and with `E_OK`.
fn is_accepted(reply: Option<Reply>) -> bool
    ensures { result ≡ spec.is_accepted reply }
{
    match reply {
        Some(reply) => is_ok(reply.code),
        None => false,
    }
}

impl CallMade {
    /// Whether the name of the call stands in its lane before those of others do: if it waits, is refused, or ends a
    /// wait.
    pub fn is_named_first(&self) -> bool
        ensures { result ≡ spec.is_named_first self.now }
    {
        self.releases || !is_accepted(self.reply)
    }
}

/// What an actor did to another task at an event.
#[derive(Clone, Copy)]
pub enum Bond {
    /// It started the other.
    Starts,
    /// It released the other, or queued a wakeup.
    Releases,
    /// It migrated the other.
    Migrates,
    /// It terminated, suspended or resumed the other, or changed its priority.
    Changes,
}

/// A line from an actor to the task on which it acted.
#[derive(Clone, Copy)]
pub struct ActorLink {
    pub event: u32,
    pub from: Caller,
    pub task: u8,
    pub bond: Bond,
}

/// A task that is assigned to another processor from an event on.
#[derive(Clone, Copy)]
pub struct Migration {
    pub event: u32,
    pub task: u8,
    pub from: u8,
    pub to: u8,
}

/// The one whose call, end or fault an event is.
pub fn actor_of(lines: &[Line]) -> Option<Caller>
    ensures { result ≡ spec.actor_of lines.now }
{
    match lines.first()? {
        Line::Call { caller, .. } | Line::End { caller, .. } | Line::Fault { caller, .. } => {
            Some(*caller)
        }
        _ => None,
    }
}

/// The task that a call names by this number, where 0 is the caller.
pub fn task_named(number: i32, caller: Caller) -> Option<u8>
    ensures { result ≡ spec.task_named number caller }
{
    match (number, caller) {
        (0, Caller::Task(task)) => Some(task),
        _ => u8::try_from(number.checked_sub(1)?).ok(),
    }
}

/// What an accepted call does to a task, if it names one to do something to.
pub fn bond_of(call: Call) -> Option<(i32, Bond)>
    ensures { result ≡ spec.bond_of call }
{
    let bond = match call.service().action()? {
        Action::Activates => Bond::Starts,
        Action::WakesUp => Bond::Releases,
        Action::Migrates => Bond::Migrates,
        Action::Changes => Bond::Changes,
        Action::Gives | Action::Takes => return None,
    };
    let arguments = call.arguments();
    Some((*arguments.as_slice().first()?, bond))
}

/// Whether one of these lines says that this task starts or is released.
pub fn moves(lines: &[Line], place: u8) -> bool
    ensures { result ≡ spec.moves place lines.now }
{
    for line in lines {
        if let Line::Starts { task, .. } | Line::Gets { task, .. } = line
            && *task == place
        {
            return true;
        }
    }
    false
}

/// Whether one of these lines says that a wait ended.
pub fn ends_wait(lines: &[Line]) -> bool
    ensures { result ≡ spec.ends_wait lines.now }
{
    for line in lines {
        if matches!(line, Line::Gets { .. }) {
            return true;
        }
    }
    false
}

/// The mark of a code that a call answers at once.
pub fn answer_sign(code: Er) -> Option<Sign>
    ensures { result ≡ spec.answer_sign code }
{
    match code {
        Er::Ok => None,
        Er::Tmout | Er::Rlwai => Some(Sign::Polled),
        _ => Some(Sign::Refused(code)),
    }
}

/// The mark of a code that a released task gets.
fn release_sign(code: Er) -> Sign
    ensures { result ≡ spec.release_sign code }
{
    match code {
        Er::Ok => Sign::Released,
        Er::Tmout => Sign::TimedOut,
        _ => Sign::BrokenOff,
    }
}

/// The mark of a line, and in whose lane it stands; a call has its marks beside these.
pub fn line_sign(line: Line) -> Option<(Caller, Sign)>
    ensures { result ≡ spec.line_sign line }
{
    match line {
        Line::Int(place) => Some((Caller::Handler(Handler::Interrupt(place)), Sign::Requested)),
        Line::Call {
            caller,
            reply: Some(reply),
            ..
        } => Some((caller, answer_sign(reply.code)?)),
        Line::End { caller, .. } => Some((caller, Sign::Ended)),
        Line::Fault { caller, fault, .. } => Some((caller, Sign::Faulted(fault))),
        Line::Gets { task, reply, .. } => Some((Caller::Task(task), release_sign(reply.code))),
        Line::Starts { task, .. } => Some((Caller::Task(task), Sign::Start)),
        Line::Pends { cyclic, .. } => {
            Some((Caller::Handler(Handler::Cyclic(cyclic)), Sign::Due))
        }
        _ => None,
    }
}

/// The link of a line to a task that the actor starts or releases.
pub fn line_link(line: Line, event: u32, actor: Option<Caller>) -> Option<ActorLink>
    ensures { result ≡ spec.line_link line event actor }
{
    let (task, bond) = match line {
        Line::Starts { task, .. } => (task, Bond::Starts),
        Line::Gets { task, .. } => (task, Bond::Releases),
        _ => return None,
    };
    let from = actor?;
    if from == Caller::Task(task) {
        return None;
    }
    Some(ActorLink {
        event,
        from,
        task,
        bond,
    })
}
