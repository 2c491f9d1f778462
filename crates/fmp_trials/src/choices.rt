//! What comes in a random run, by chance.
ghost use Rattle.std.specs.Prelude.{◌≡◌, ◌%◌, ◌<◌, max};
ghost use Rattle.fmp_trials.specs.Choices as spec;

use rand_core::SeedableRng;
use rand_core::utils::NextWord;
use rand_pcg::Pcg32;

/// How often an interrupt comes.
#[derive(Clone, Copy, Debug, PartialEq, Eq)]
pub struct InterruptRate {
    /// Its number, 1 to 32. One without a handler never comes.
    pub interrupt: u8,
    /// It comes once in this many events, on average; never at 0.
    pub every: u32,
}

/// How random runs go.
#[derive(Clone, Copy)]
pub struct RunPlan<'a> {
    /// How many events a run has at most.
    pub events: u32,
    /// The clock advances once in this many events, on average, and whenever no processor can do anything; at 0 only
    /// then.
    pub tick: u32,
    pub interrupts: &'a [InterruptRate],
}

/// The choices of a run, which its seed decides.
#[derive(Drop)]
pub struct Choices<'a> {
    pub plan: RunPlan<'a>,
    random: Pcg32,
    /// Another processor goes on once in this many events, on average.
    change: u32,
    /// The processor that ran last.
    turn: u8,
}

impl<'a> Choices<'a> {
    /// The choices of the run of this seed. Most mistakes need few changes of processor at the right moments, so these
    /// come once in 1, 4, 16 or 64 events, which is a choice too.
    pub fn new(plan: RunPlan<'a>, seed: u64) -> Choices<'a>
        ensures { result ≡ spec.choices_of plan.entry seed }
    {
        let mut random = Pcg32::seed_from_u64(seed);
        let change = match random.next_word() % 4 {
            0 => 1,
            1 => 4,
            2 => 16,
            _ => 64,
        };
        Choices {
            plan,
            random,
            change,
            turn: 1,
        }
    }

    /// Whether what comes once in this many events comes now; never at 0.
    pub fn comes(&mut self, every: u32) -> bool
        ensures comes { result ≡ spec.comes self.old every }
        ensures past { self.new ≡ spec.past self.old }
    {
        let word = self.random.next_word();
        every > 0 && word % every == 0
    }

    /// The processor of these that is to go on.
    pub fn processor(&mut self, processors: u8) -> u8
        ensures turn { result ≡ self.new.turn }
        ensures turned { self.new ≡ spec.turned processors self.old }
    {
        if self.comes(self.change) {
            self.turn = 1 + self.below(processors);
        }
        self.turn
    }

    /// A number below this one, or 0.
    fn below(&mut self, end: u8) -> u8
        ensures below { result ≡ spec.word self.old % max end 1 }
        ensures past { self.new ≡ spec.past self.old }
        ensures less { result < 255 }
    {
        (self.random.next_word() % u32::from(end.max(1))) as u8
    }

    /// This processor went on.
    pub fn went_on(&mut self, processor: u8)
        ensures { self.new ≡ record self.old { turn = processor } }
    {
        self.turn = processor;
    }
}
