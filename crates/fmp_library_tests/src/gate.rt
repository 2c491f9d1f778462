//! A gate that has two processors go on in turn.
use fmp_hostrun::Gate;
use std::sync::atomic::{AtomicU64, Ordering};
use std::thread;

/// How often a question yields while it waits.
const MOST_YIELDS: u32 = 10_000_000;

/// A gate that holds the first turn of processor 2 until the first turn of processor 1 is asked for, and that one until
/// the board has answered a number of turns of processor 2. It waits inside its questions, and says no for good once
/// one has waited too long.
#[derive(Drop)]
pub struct SecondFirst {
    turns: u32,
    asked: AtomicU64,
    answered: AtomicU64,
    told: AtomicU64,
    vain: AtomicU64,
}

impl SecondFirst {
    /// A gate that was asked nothing yet, and holds processor 1 for this many turns of processor 2, at least one.
    pub fn new(turns: u32) -> SecondFirst {
        SecondFirst {
            turns,
            asked: AtomicU64::new(0),
            answered: AtomicU64::new(0),
            told: AtomicU64::new(0),
            vain: AtomicU64::new(0),
        }
    }

    /// How many turns the board has answered.
    pub fn told(&self) -> u64 {
        self.told.load(Ordering::SeqCst)
    }

    /// Waits until something has happened: whether it has.
    fn waits_for(&self, happened: &AtomicU64) -> bool {
        for _ in 0..MOST_YIELDS {
            if self.vain.load(Ordering::SeqCst) != 0 {
                return false;
            }
            if happened.load(Ordering::SeqCst) != 0 {
                return true;
            }
            thread::yield_now();
        }
        self.vain.store(1, Ordering::SeqCst);
        false
    }
}

impl Gate for SecondFirst {
    ghost is_open = { ⊥ };

    fn may_submit(&self, p: u8, turn: u32) -> bool {
        match (p, turn) {
            (2, 1) => self.waits_for(&self.asked),
            (1, 1) => {
                self.asked.store(1, Ordering::SeqCst);
                self.waits_for(&self.answered)
            }
            _ => self.vain.load(Ordering::SeqCst) == 0,
        }
    }

    fn answered(&self, p: u8, turn: u32) {
        self.told.fetch_add(1, Ordering::SeqCst);
        if p == 2 && turn == self.turns {
            self.answered.store(1, Ordering::SeqCst);
        }
    }
}
