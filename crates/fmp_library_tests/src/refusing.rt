//! A gate that says no to some processors.
use fmp_hostrun::Gate;
use std::sync::atomic::{AtomicU64, Ordering};

/// A gate that lets at most one processor go on, and counts what it was asked for the others and what it was told.
#[derive(Drop)]
pub struct LetsOne {
    processor: u8,
    refused: AtomicU64,
    told: AtomicU64,
}

impl LetsOne {
    /// A gate that lets this processor go on, or none where it is 0.
    pub fn new(processor: u8) -> LetsOne {
        LetsOne {
            processor,
            refused: AtomicU64::new(0),
            told: AtomicU64::new(0),
        }
    }

    /// How often it said no.
    pub fn refused(&self) -> u64 {
        self.refused.load(Ordering::SeqCst)
    }

    /// How many turns the board has answered.
    pub fn told(&self) -> u64 {
        self.told.load(Ordering::SeqCst)
    }
}

impl Gate for LetsOne {
    ghost is_open = { ⊥ };

    fn may_submit(&self, p: u8, _turn: u32) -> bool {
        if p == self.processor {
            return true;
        }
        self.refused.fetch_add(1, Ordering::SeqCst);
        false
    }

    fn answered(&self, _p: u8, _turn: u32) {
        self.told.fetch_add(1, Ordering::SeqCst);
    }
}
