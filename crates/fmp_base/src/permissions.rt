//! From where service calls may be made.

/// From where a service may be called; from elsewhere the call is E_CTX (uITRON 4.0, section 3.5; FMP kernel, spin
/// locks).
#[derive(Clone, Copy)]
pub enum Permission {
    /// From tasks and handlers, also while the CPU is locked.
    Anywhere,
    /// From tasks, also while the CPU is locked.
    LockedTasks,
    /// From tasks.
    Tasks,
    /// From tasks; while dispatching is disabled not on the caller itself, since it takes the caller off its processor.
    TasksOnOthers,
    /// From tasks while dispatching is enabled, since the caller may wait, whatever its time limit.
    WaitingTasks,
    /// From handlers.
    Handlers,
}
