//! Laws of the commands of a session, and of what is told where an event does nothing.
ghost use Rattle.std.specs.Prelude.{◌≡◌, ◌+◌, ◌++◌, ℕ, IsSomeAnd, List, None, Ok, Some, codes};
ghost use Rattle.fmp_base.specs.declared.calls.Answer.TheVariants.{Spins};
ghost use Rattle.fmp_base.specs.declared.calls.Call.{Call};
ghost use Rattle.fmp_base.specs.declared.events.Event.{Event};
ghost use Rattle.fmp_base.specs.Calls.{called};
ghost use Rattle.fmp_base.specs.States.{processor_at};
ghost use Rattle.fmp_base.specs.Steps.{Nothing, actor_of, step};
ghost use Rattle.fmp_drive.specs.NextRuns.{next_run};
ghost use Rattle.fmp_drive.specs.declared.next.NextRun.TheVariants as next;
ghost use Rattle.fmp_instructions.specs.Instructions.{BodyTables};
ghost use Rattle.fmp_instructions.specs.Machine.{code_meaning};
ghost use Rattle.fmp_instructions.specs.declared.instructions.MachineContext.{MachineContext};
ghost use Rattle.fmp_kernel.specs.KernelViews.{KernelView};
ghost use Rattle.fmp_session.specs.Commands.{blank_of, command_of, event_of, run_of};
ghost use Rattle.fmp_session.specs.declared.command.Command.{Command};
ghost use Rattle.fmp_session.specs.declared.interrupts.NamedInterrupt.{NamedInterrupt};

/// A line of a steps text takes its event, once.
#[tactic(auto, using(crate::proofs::CommandLaws::steps_once))]
pub fn lines_of_steps_are_commands()
    ensures { (processors : ℕ) (interrupts : List NamedInterrupt) (line : List ℕ) (e : Event) →
        event_of processors line ≡ Some e → command_of processors interrupts line ≡ Ok (Command.Take e 1) }
{}

/// `run P x1` is `run P`.
#[tactic(auto, using(crate::proofs::CommandLaws::run_once))]
pub fn once_goes_without_saying()
    ensures { (processors : ℕ) (text : List ℕ) → blank_of text ≡ None →
        run_of processors (text ++ codes " x1") ≡ run_of processors text }
{}

/// Where a processor makes a call in its next run, this run does nothing only if the call finds its spin lock held.
pub fn calls_that_do_nothing_spin()
    ensures { (k : KernelView (List BodyTables) MachineContext) (p : ℕ) (call : Call) →
        next_run code_meaning k (p + 1) ≡ next.Calls call →
        step k.system (code_meaning k.body) k.bound k.world (Event.Run (p + 1)) ≡ Nothing →
        IsSomeAnd (actor_of (processor_at k.world.state p))
        (λ who. (called k.system k.world.state p who call).answer ≡ Spins) }
{}
