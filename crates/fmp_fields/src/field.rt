//! The fields of a state: everything in it that a later event can show. Times are relative to the clock, and the tasks
//! stand in their queues and in no other order.
ghost use Rattle.std.specs.Prelude.{◌≡◌, ◌%◌, true};

/// A field of a state, and of what it is. Tasks, processors and objects go by their places, from 0. A number that may
/// be missing is stored with 1 added, and as 0 where it is missing.
#[derive(Clone, Copy, PartialEq, Eq)]
pub enum What {
    /// How many interrupts came, where their number is limited.
    Interrupts,
    /// How far the task is from running, and what kind of wait it is in.
    Phase(u8),
    /// The object at which the task waits.
    Object(u8),
    /// The bits for which the task waits, or the word that it sends.
    Wanted(u8),
    /// Whether the task is suspended.
    Suspended(u8),
    /// The current priority of the task.
    Priority(u8),
    /// The processor of the task.
    Processor(u8),
    /// Its queued activations.
    Activations(u8),
    /// The processor that its next start assigns.
    NextProcessor(u8),
    /// Its queued wakeups.
    Wakeups(u8),
    /// The ticks up to the end of its wait.
    TicksLeft(u8),
    /// The task behind it in its queue.
    Behind(u8),
    /// Where its body stands, if it is started.
    Pc(u8),
    /// A local of its body, if it is started.
    Local(u8, u8),
    /// How many operands its last stretch left, if that was cut at the bound.
    Operands(u8),
    /// An operand of its body, counted from the one that was pushed first.
    Operand(u8, u8),
    /// The task that a processor runs.
    Runs(u8),
    /// The lock of a processor: 0 for none, 1 for the CPU lock, and a spin lock's number with 1 added.
    Lock(u8),
    /// Whether dispatching is disabled on a processor.
    DispatchDisabled(u8),
    /// The handler of an interrupt that a processor runs.
    InterruptHandler(u8),
    /// The cyclic handler that a processor runs.
    CyclicHandler(u8),
    /// Where the body of its handler stands, if one runs.
    HandlerPc(u8),
    /// A local of the body of its handler, if one runs.
    HandlerLocal(u8, u8),
    /// How many operands the last stretch of its handler left.
    HandlerOperands(u8),
    /// An operand of the body of its handler.
    HandlerOperand(u8, u8),
    /// The count of a semaphore.
    Count(u8),
    /// The pattern of an eventflag.
    Pattern(u8),
    /// How many words a data queue holds.
    Words(u8),
    /// A word of a data queue, counted from the oldest one.
    Word(u8, u8),
    /// The first message of a mailbox.
    FirstMessage(u8),
    /// The message behind this one in its mailbox.
    MessageBehind(u8),
    /// A shared word.
    SharedWord(u8),
    /// The ticks up to the next start of a cyclic handler.
    TicksToDue(u8),
    /// Whether a cyclic handler is pending.
    PendingCyclic(u8),
    /// Whether the handler of the interrupt at this place is pending.
    PendingInterrupt(u8),
}

/// A place below 256 as a byte; of a greater one its last byte.
pub fn low_byte(place: usize) -> u8
    ensures { result ≡ place % 256 }
{
    (place % 256) as u8
}

/// Whether two fields are the same, as `==` tells too: but that has too many cases for a search of proofs.
pub fn is_same(a: What, b: What) -> bool
    ensures { result ≡ true → a ≡ b }
{
    match (a, b) {
        (What::Interrupts, What::Interrupts) => true,
        (What::Phase(t), What::Phase(u)) => t == u,
        (What::Object(t), What::Object(u)) => t == u,
        (What::Wanted(t), What::Wanted(u)) => t == u,
        (What::Suspended(t), What::Suspended(u)) => t == u,
        (What::Priority(t), What::Priority(u)) => t == u,
        (What::Processor(t), What::Processor(u)) => t == u,
        (What::Activations(t), What::Activations(u)) => t == u,
        (What::NextProcessor(t), What::NextProcessor(u)) => t == u,
        (What::Wakeups(t), What::Wakeups(u)) => t == u,
        (What::TicksLeft(t), What::TicksLeft(u)) => t == u,
        (What::Behind(t), What::Behind(u)) => t == u,
        (What::Pc(t), What::Pc(u)) => t == u,
        (What::Local(t, k), What::Local(u, l)) => t == u && k == l,
        (What::Operands(t), What::Operands(u)) => t == u,
        (What::Operand(t, k), What::Operand(u, l)) => t == u && k == l,
        (What::Runs(t), What::Runs(u)) => t == u,
        (What::Lock(t), What::Lock(u)) => t == u,
        (What::DispatchDisabled(t), What::DispatchDisabled(u)) => t == u,
        (What::InterruptHandler(t), What::InterruptHandler(u)) => t == u,
        (What::CyclicHandler(t), What::CyclicHandler(u)) => t == u,
        (What::HandlerPc(t), What::HandlerPc(u)) => t == u,
        (What::HandlerLocal(t, k), What::HandlerLocal(u, l)) => t == u && k == l,
        (What::HandlerOperands(t), What::HandlerOperands(u)) => t == u,
        (What::HandlerOperand(t, k), What::HandlerOperand(u, l)) => t == u && k == l,
        (What::Count(t), What::Count(u)) => t == u,
        (What::Pattern(t), What::Pattern(u)) => t == u,
        (What::Words(t), What::Words(u)) => t == u,
        (What::Word(t, k), What::Word(u, l)) => t == u && k == l,
        (What::FirstMessage(t), What::FirstMessage(u)) => t == u,
        (What::MessageBehind(t), What::MessageBehind(u)) => t == u,
        (What::SharedWord(t), What::SharedWord(u)) => t == u,
        (What::TicksToDue(t), What::TicksToDue(u)) => t == u,
        (What::PendingCyclic(t), What::PendingCyclic(u)) => t == u,
        (What::PendingInterrupt(t), What::PendingInterrupt(u)) => t == u,
        _ => false,
    }
}
