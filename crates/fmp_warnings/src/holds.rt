//! What a task holds, what is wrong where it does, and what is said of that.
ghost use Rattle.std.specs.Prelude.{OnOk};
ghost use Rattle.fmp_diagnosis.specs.Words.{IsSaid};

use fmp_base::{Permission, Service};
use fmp_diagnosis::words::{Word, say};
use std::alloc::AllocError;

/// What a task holds.
#[derive(Clone, Copy, PartialEq, Eq)]
pub enum Hold {
    SpinLock,
    Cpu,
    Dispatching,
}

impl Hold {
    /// Whether a call of a task is E_CTX while this is held; `is_on_caller` if it acts on the task that makes it.
    pub fn bars(self, service: Service, is_on_caller: bool) -> bool {
        match (self, service.permission()) {
            (_, Permission::WaitingTasks) => true,
            (Hold::Dispatching, Permission::TasksOnOthers) => is_on_caller,
            (Hold::SpinLock | Hold::Cpu, permission) => matches!(
                permission,
                Permission::Tasks | Permission::TasksOnOthers
            ),
            _ => false,
        }
    }

    /// What is said of it before the line of the call that took it, and after that.
    fn words(self) -> (&'static str, &'static str) {
        match self {
            Hold::SpinLock => ("the spin lock that line ", " takes is held"),
            Hold::Cpu => ("the CPU is locked by line ", ""),
            Hold::Dispatching => ("dispatching is disabled by line ", ""),
        }
    }
}

/// What is wrong where something is held.
#[derive(Clone, Copy)]
pub enum Flaw {
    /// This call is E_CTX.
    Barred(Service),
    /// This call gives back a spin lock that is not held, which is E_ILUSE.
    Wrong(Service),
    /// The task ends, and has not given it back.
    Kept,
    /// The task ends, and an `if` before takes it, or gives it back, on some of its ways alone.
    MayBeKept,
}

/// What is held at a token: since the call at a place, in as many blocks as are open there.
#[derive(Clone, Copy)]
pub struct Held {
    pub hold: Hold,
    pub at: usize,
    pub depth: usize,
    /// Whether a loop stands after the call that may be left by no way but a jump.
    pub is_looped: bool,
    /// The number of blocks around an open loop that stands after the call and may give this back: it is held for sure
    /// in the first round alone.
    pub first_round: Option<usize>,
}

impl Held {
    /// What the call at a place takes, in as many blocks.
    pub fn new(hold: Hold, at: usize, depth: usize) -> Held {
        Held {
            hold,
            at,
            depth,
            is_looped: false,
            first_round: None,
        }
    }

    /// Whether a task that comes to its end with it has forgotten it: of a lock, if no loop may keep the task from its
    /// end.
    pub fn is_lost(self) -> bool {
        !self.is_looped && self.hold != Hold::Dispatching
    }

    /// Whether what stands in as many blocks may be passed over in the only round in which this is held for sure.
    pub fn is_doubtful(self, depth: usize) -> bool {
        match self.first_round {
            Some(blocks) => depth > blocks.saturating_add(1),
            None => false,
        }
    }

    /// The same after the end of a block, where as many are open.
    pub fn after_block(self, depth: usize) -> Held {
        Held {
            first_round: self.first_round.filter(|blocks| *blocks < depth),
            ..self
        }
    }
}

/// Says what a call answers.
fn say_answer(
    service: Service,
    answers: &'static str,
    is_first: bool,
    out: &mut Vec<u8>,
) -> Result<(), AllocError>
    ensures { OnOk result (IsSaid out.old.items out.new.items) }
{
    let call = Word::Quoted(service.name());
    let round = if is_first {
        " in the first round: "
    } else {
        ": "
    };
    say(&[call, Word::Text(answers), Word::Text(round)], out)
}

/// Says what happens where something is held.
fn say_flaw(flaw: Flaw, is_first: bool, out: &mut Vec<u8>) -> Result<(), AllocError>
    ensures { OnOk result (IsSaid out.old.items out.new.items) }
{
    match flaw {
        Flaw::Barred(service) => say_answer(service, " answers E_CTX here", is_first, out),
        Flaw::Wrong(service) => say_answer(service, " answers E_ILUSE here", is_first, out),
        Flaw::Kept => say(&[Word::Text("the task ends here while ")], out),
        Flaw::MayBeKept => say(&[Word::Text("the task may end here while ")], out),
    }
}

/// Says what is wrong where something is held that a call in this line took.
pub fn say_held(flaw: Flaw, held: Held, line: u32, out: &mut Vec<u8>) -> Result<(), AllocError>
    ensures { OnOk result (IsSaid out.old.items out.new.items) }
{
    say_flaw(flaw, held.first_round.is_some(), out)?;
    let (before, after) = held.hold.words();
    let line = Word::Number(i64::from(line));
    say(&[Word::Text(before), line, Word::Text(after)], out)
}
