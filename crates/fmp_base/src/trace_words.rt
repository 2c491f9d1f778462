//! The words that a trace has for faults and for the states of tasks.
ghost use Rattle.std.specs.Prelude.{◌≡◌, ◌≤◌, bytes_eq, find, length};
ghost use Rattle.fmp_base.specs.Runs.{state_word};
ghost use Rattle.fmp_base.specs.Texts.{fault_named, fault_text, word_text};

use crate::bodies::Fault;
use crate::events::StateWord;
use crate::states::Phase;

/// All faults of bodies.
pub const FAULTS: [Fault; 3] = [Fault::Overflow, Fault::Division, Fault::Index];

/// The first of these faults that has this name.
fn fault_among(faults: &[Fault], word: &[u8]) -> Option<Fault>
    ensures { result ≡ find (λ fault. bytes_eq (fault_text fault) word.now) faults.now }
{
    faults
        .iter()
        .copied()
        .find(|fault| fault.name().as_bytes() == word)
}

impl Fault {
    /// The fault that a trace writes so, if it is one.
    pub fn named(word: &[u8]) -> Option<Fault>
        ensures { result ≡ fault_named word.now }
    {
        fault_among(&FAULTS, word)
    }

    /// The fault as a trace writes it.
    pub fn name(self) -> &'static str
        ensures value { result.now ≡ fault_text self }
        ensures short { length result.now ≤ 5 }
    {
        match self {
            Fault::Overflow => "F_OVF",
            Fault::Division => "F_DIV",
            Fault::Index => "F_IDX",
        }
    }
}

impl StateWord {
    /// The word for the state of a task in this phase, given whether it is suspended and whether its processor runs it.
    pub fn of(phase: Phase, suspended: bool, runs: bool) -> StateWord
        ensures { result ≡ state_word phase suspended runs }
    {
        match (phase, suspended) {
            (Phase::Dormant, _) => StateWord::Dormant,
            (Phase::Waiting(_), true) => StateWord::WaitingSuspended,
            (Phase::Waiting(_), false) => StateWord::Waiting,
            (Phase::Ready, true) => StateWord::Suspended,
            (Phase::Ready, false) => {
                if runs {
                    StateWord::Running
                } else {
                    StateWord::Ready
                }
            }
        }
    }

    /// The word as a trace writes it.
    pub fn name(self) -> &'static str
        ensures value { result.now ≡ word_text self }
        ensures short { length result.now ≤ 17 }
    {
        match self {
            StateWord::Running => "RUNNING",
            StateWord::Ready => "READY",
            StateWord::Waiting => "WAITING",
            StateWord::Suspended => "SUSPENDED",
            StateWord::WaitingSuspended => "WAITING-SUSPENDED",
            StateWord::Dormant => "DORMANT",
        }
    }
}
