//! Worked examples: small systems, written as tables and syntax trees, and the exact bytes that they print over a few
//! events. Each is proved by computing what the definitions mean.
ghost use Rattle.fmp_library_tests.specs.AcrossTraces.{CallsAcrossProcessors, WokenBehindASpinLock};
ghost use Rattle.fmp_library_tests.specs.ArrayTraces.{IndexOutOfRange, ValueFaultsFirst};
ghost use Rattle.fmp_library_tests.specs.DataQueueTraces.{WordGoesWithoutBuffer, ForcedSendDropsOldest};
ghost use Rattle.fmp_library_tests.specs.DelayTraces.{DelaysEndInTaskOrder};
ghost use Rattle.fmp_library_tests.specs.FlagTraces.{FlagClearsAfterFirstRelease};
ghost use Rattle.fmp_library_tests.specs.HandlerTraces.{InterruptWaitsForUnlock, InterruptPendsWhileHandled};
ghost use Rattle.fmp_library_tests.specs.HandlerTraces.{CyclicHandlerStartsAtPhase};
ghost use Rattle.fmp_library_tests.specs.LockTraces.{SpinningDoesNothing, FaultFreesSpinLock};
ghost use Rattle.fmp_library_tests.specs.MailboxTraces.{UrgentMessageFirst};
ghost use Rattle.fmp_library_tests.specs.ManyDelayTraces.{AllDelaysEndAtOnce};
ghost use Rattle.fmp_library_tests.specs.ProcessorTraces.{MigrationRefused, ActivationOnOtherProcessor};
ghost use Rattle.fmp_library_tests.specs.ProcessorTraces.{EndlessLoopIsNothing, SuspendedTaskRunsOn};
ghost use Rattle.fmp_library_tests.specs.QueuedTraces.{LastStoredProcessor, ActivationsUpToTheLimit};
ghost use Rattle.fmp_library_tests.specs.QueuedTraces.{WakeupsUpToTheLimit};
ghost use Rattle.fmp_library_tests.specs.QueuedTraces.{OneActivationInOlderImage};
ghost use Rattle.fmp_library_tests.specs.RotationTraces.{RotationOnOtherProcessor, RotationAtOwnPriority};
ghost use Rattle.fmp_library_tests.specs.SemaphoreTraces.{SemaphoreByPriority, PriorityChangeGoesLast};
ghost use Rattle.fmp_library_tests.specs.TaskTraces.{TaskRunsAndEnds, SmallBoundIsEnough, EmptySystemPrintsNothing};
ghost use Rattle.fmp_library_tests.specs.TaskTraces.{SleepIsReleasedByForce};

/// A task starts at setup, makes a call and ends; then its processor has nothing to run.
pub fn task_runs_and_ends()
    ensures { TaskRunsAndEnds }
{}

/// A small bound is enough for a body without loops.
pub fn small_bound_is_enough()
    ensures { SmallBoundIsEnough }
{}

/// A system without tasks prints nothing.
pub fn empty_system_prints_nothing()
    ensures { EmptySystemPrintsNothing }
{}

/// `rel_wai` releases a sleeping task with E_RLWAI, and is refused for a dormant one.
pub fn sleep_is_released_by_force()
    ensures { SleepIsReleasedByForce }
{}

/// Tasks that wait at a semaphore with TA_TPRI are released by priority, and those of one priority in their order.
pub fn semaphore_by_priority()
    ensures { SemaphoreByPriority }
{}

/// A waiting task whose priority is set, even to what it is already, goes behind its equals.
pub fn priority_change_goes_last()
    ensures { PriorityChangeGoesLast }
{}

/// With TA_CLR the first task that a flag releases clears all bits, and the next one waits on.
pub fn flag_clears_after_first_release()
    ensures { FlagClearsAfterFirstRelease }
{}

/// With capacity 0 a word goes from a waiting sender to the receiver, and none can be sent by force.
pub fn word_goes_without_buffer()
    ensures { WordGoesWithoutBuffer }
{}

/// A word that is sent by force drops the oldest of a full queue; a waiting sender's word follows it.
pub fn forced_send_drops_oldest()
    ensures { ForcedSendDropsOldest }
{}

/// With TA_MPRI the more urgent message is received first; a message that is queued can't be sent again.
pub fn urgent_message_first()
    ensures { UrgentMessageFirst }
{}

/// Delays that end at one tick end in order of task number, whichever began first.
pub fn delays_end_in_task_order()
    ensures { DelaysEndInTaskOrder }
{}

/// The delays of 255 tasks end at one tick, in order of task number; then the first of them runs.
pub fn all_delays_end_at_once()
    ensures { AllDelaysEndAtOnce }
{}

/// A task migrates to no processor that its class does not allow, and from no other than the caller's.
pub fn migration_refused()
    ensures { MigrationRefused }
{}

/// A queued activation of `mact_tsk` starts the task on the processor that was named.
pub fn activation_on_other_processor()
    ensures { ActivationOnOtherProcessor }
{}

/// Each queued `mact_tsk` replaces the stored processor; the next start takes it, and the one after stays there.
pub fn last_stored_processor()
    ensures { LastStoredProcessor }
{}

/// 255 activations of a task can be queued, and no more.
pub fn activations_up_to_the_limit()
    ensures { ActivationsUpToTheLimit }
{}

/// 255 wakeups of a task can be queued, and no more.
pub fn wakeups_up_to_the_limit()
    ensures { WakeupsUpToTheLimit }
{}

/// In an image of an older version one activation can be queued.
pub fn one_activation_in_older_image()
    ensures { OneActivationInOlderImage }
{}

/// `mrot_rdq` rotates a ready queue of another processor, which dispatches.
pub fn rotation_on_other_processor()
    ensures { RotationOnOtherProcessor }
{}

/// `mrot_rdq` of priority 0 (TPRI_SELF) rotates the queue of the caller's current priority.
pub fn rotation_at_own_priority()
    ensures { RotationAtOwnPriority }
{}

/// A loop without an end is nothing in a text's meaning, and leaves the other processor alone.
pub fn endless_loop_is_nothing()
    ensures { EndlessLoopIsNothing }
{}

/// A task that another processor suspends runs on until it enables dispatching.
pub fn suspended_task_runs_on()
    ensures { SuspendedTaskRunsOn }
{}

/// A task that spins for a held spin lock does nothing until the lock is free.
pub fn spinning_does_nothing()
    ensures { SpinningDoesNothing }
{}

/// A fault ends a task as `ext_tsk` does: its spin lock is free, and a queued activation starts it again.
pub fn fault_frees_spin_lock()
    ensures { FaultFreesSpinLock }
{}

/// An interrupt waits until the CPU is unlocked, and is taken once; dispatch waits until its handler has ended.
pub fn interrupt_waits_for_unlock()
    ensures { InterruptWaitsForUnlock }
{}

/// An interrupt whose handler runs is pending, and the handler begins again once it has ended.
pub fn interrupt_pends_while_handled()
    ensures { InterruptPendsWhileHandled }
{}

/// A cyclic handler is due first one tick after its phase, then after each period.
pub fn cyclic_handler_starts_at_phase()
    ensures { CyclicHandlerStartsAtPhase }
{}

/// A handler wakes a task of another processor that holds a spin lock: the task runs once the lock is given up.
pub fn woken_behind_a_spin_lock()
    ensures { WokenBehindASpinLock }
{}

/// `ter_tsk` is refused for a task of another processor, `chg_pri` dispatches there, and a task that has migrated is
/// terminated where it is.
pub fn calls_across_processors()
    ensures { CallsAcrossProcessors }
{}

/// An element of an array is stored and loaded by its index; one after the last place is the fault F_IDX.
pub fn index_out_of_range()
    ensures { IndexOutOfRange }
{}

/// The value that is stored is worked out before the index is tested.
pub fn value_faults_first()
    ensures { ValueFaultsFirst }
{}
