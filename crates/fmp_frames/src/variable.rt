//! The variables of a dump.
ghost use Rattle.std.specs.Prelude.{◌≡◌, ◌≤◌};
ghost use Rattle.fmp_frames.specs.Dumps as spec;

/// An object for which tasks can wait, by its place.
#[derive(Clone, Copy)]
pub enum WaitedObject {
    Semaphore(usize),
    Flag(usize),
    DataQueue(usize),
    Mailbox(usize),
}

/// What a variable shows, of the processor, task, handler or object at its place.
#[derive(Clone, Copy)]
pub enum Variable {
    /// The clock.
    Clock,
    /// The number of the task that a processor runs, 0 for none.
    Run(usize),
    /// The handler that it runs: 0 none, the number of a cyclic handler, 256 and the number of an interrupt.
    Handler(usize),
    /// Its lock: 0 none, 1 the CPU lock, 256 and the number of a spin lock.
    Lock(usize),
    /// The number of the spin lock for which its actor spins, 0 for none.
    Spin(usize),
    /// Whether dispatching is enabled on it.
    Dispatch(usize),
    /// At an event of it: 0 as asked, 1 a code other than E_OK, 2 a fault.
    Refused(usize),
    /// 0 DORMANT, 1 READY, 2 RUNNING, 3 WAITING, 4 SUSPENDED, 5 WAITING-SUSPENDED.
    State(usize),
    /// Whether a task is RUNNING.
    Running(usize),
    /// The number of its processor.
    Processor(usize),
    /// Its priority.
    Priority(usize),
    /// 0 no wait, 1 sleep, 2 delay, 3 semaphore, 4 eventflag, 5 sends to a data queue, 6 receives from one, 7 mailbox.
    WaitKind(usize),
    /// The number of the object that it waits for, 0 for none.
    WaitObject(usize),
    /// A cyclic handler: 0 idle, 1 pending, 2 runs, 3 runs and is pending again.
    Cyclic(usize),
    /// The handler of an interrupt, likewise.
    Interrupt(usize),
    /// The count of a semaphore.
    Count(usize),
    /// The pattern of an eventflag.
    Pattern(usize),
    /// How many words a data queue holds.
    DataQueue(usize),
    /// How many messages are in a mailbox.
    Mailbox(usize),
    /// The value of a shared word, as 32 bits.
    Word(usize),
    /// How many tasks wait for an object.
    Waiting(WaitedObject),
}

impl Variable {
    /// How many bits its values have.
    pub fn width(self) -> u8
        ensures width { result ≡ spec.width self }
        ensures narrow { result ≤ 32 }
    {
        match self {
            Variable::Dispatch(_) | Variable::Running(_) => 1,
            Variable::Refused(_) | Variable::Cyclic(_) | Variable::Interrupt(_) => 2,
            Variable::State(_) | Variable::WaitKind(_) => 3,
            Variable::Processor(_) => 4,
            Variable::Priority(_) => 5,
            Variable::Run(_)
            | Variable::Spin(_)
            | Variable::WaitObject(_)
            | Variable::DataQueue(_)
            | Variable::Mailbox(_)
            | Variable::Waiting(_) => 8,
            Variable::Handler(_) | Variable::Lock(_) => 9,
            Variable::Count(_) | Variable::Pattern(_) => 16,
            Variable::Clock | Variable::Word(_) => 32,
        }
    }

    /// The word for its kind.
    pub fn kind(self) -> &'static str
        ensures { result.now ≡ spec.kind self }
    {
        match self {
            Variable::Word(_) => "integer",
            _ => "wire",
        }
    }

    /// Its name in its scope.
    pub fn name(self) -> &'static str
        ensures { result.now ≡ spec.variable_name self }
    {
        match self {
            Variable::Clock => "clock",
            Variable::Run(_) => "run",
            Variable::Handler(_) => "handler",
            Variable::Lock(_) => "lock",
            Variable::Spin(_) => "spins",
            Variable::Dispatch(_) => "dispatch",
            Variable::Refused(_) => "refused",
            Variable::State(_) => "state",
            Variable::Running(_) => "running",
            Variable::Processor(_) => "processor",
            Variable::Priority(_) => "priority",
            Variable::WaitKind(_) => "wait_kind",
            Variable::WaitObject(_) => "wait_object",
            Variable::Cyclic(_) | Variable::Interrupt(_) => "handling",
            Variable::Count(_) => "count",
            Variable::Pattern(_) => "pattern",
            Variable::DataQueue(_) => "words",
            Variable::Mailbox(_) => "messages",
            Variable::Word(_) => "value",
            Variable::Waiting(_) => "waiting",
        }
    }
}
