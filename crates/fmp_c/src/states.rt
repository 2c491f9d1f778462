//! What is shown of a task, as a record of numbers.
ghost use Rattle.std.specs.Prelude.{◌≡◌};
ghost use Rattle.fmp_c.specs.Exports.{no_state, state_at, state_row, word_number};

use fmp_base::{StateWord, TaskState};
use fmp_foreign::HostedSystem;

/// What is shown of a task.
#[repr(C)]
#[derive(Clone, Copy)]
pub struct FmpState {
    /// 0 there is no such task, 1 RUNNING, 2 READY, 3 WAITING, 4 SUSPENDED, 5 WAITING-SUSPENDED, 6 DORMANT.
    pub word: u32,
    /// The number of the assigned processor, from 1.
    pub processor: u32,
    /// The current priority, 1 to 16.
    pub priority: u32,
}

fn word_number(word: StateWord) -> u32
    ensures { result ≡ word_number word }
{
    match word {
        StateWord::Running => 1,
        StateWord::Ready => 2,
        StateWord::Waiting => 3,
        StateWord::Suspended => 4,
        StateWord::WaitingSuspended => 5,
        StateWord::Dormant => 6,
    }
}

fn state_row(state: TaskState) -> FmpState
    ensures { result ≡ state_row state }
{
    FmpState {
        word: word_number(state.word),
        processor: u32::from(state.processor) + 1,
        priority: u32::from(state.priority),
    }
}

impl FmpState {
    /// No task.
    fn none() -> FmpState
        ensures { result ≡ no_state }
    {
        FmpState {
            word: 0,
            processor: 0,
            priority: 0,
        }
    }

    /// What is shown of the task of this number, from 1.
    pub fn of(hosted: &HostedSystem, task: u8) -> FmpState
        ensures { result ≡ state_at hosted.now.kernel task }
    {
        if task == 0 || usize::from(task) > hosted.kernel.tables().task_count() {
            return FmpState::none();
        }
        state_row(hosted.kernel.state(task - 1))
    }
}
