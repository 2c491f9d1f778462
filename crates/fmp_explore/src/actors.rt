//! Which tasks act in states, or in those that can be reached from them.
ghost use Rattle.std.specs.Prelude.{◌≡◌, ◌+◌, ◌/◌, [], ◌++◌, OnOk, slice_get, unwrap_or};
ghost use Rattle.fmp_explore.specs.Noted.{place_in};

use std::alloc::{AllocError, Global};

/// For each state a bit for each task, and one more.
#[derive(Drop)]
pub struct ActorBits {
    bytes: Vec<u8>,
    /// How many bytes the bits of a state take.
    width: usize,
}

impl ActorBits {
    /// No state, in a system of this many tasks.
    pub fn new(alloc: Global, tasks: usize) -> ActorBits
        ensures bytes { result.bytes.items ≡ [] }
        ensures width { result.width ≡ tasks / 8 + 1 }
    {
        ActorBits {
            bytes: Vec::new(alloc),
            width: tasks / 8 + 1,
        }
    }

    /// Forgets all states.
    pub fn clear(&mut self, alloc: Global)
        ensures bytes { self.new.bytes.items ≡ [] }
        ensures width { self.new.width ≡ self.old.width }
    {
        self.bytes = Vec::new(alloc);
    }

    /// How many bytes the bits of a state take.
    pub fn width(&self) -> usize
        ensures { result ≡ self.now.width }
    {
        self.width
    }

    /// Adds a state with no bit set. `AllocError` if memory runs out.
    pub fn begin(&mut self) -> Result<(), AllocError> {
        for _byte in 0..self.width {
            self.bytes.push(0)?;
        }
        Ok(())
    }

    /// Adds the states of others. `AllocError` if memory runs out.
    pub fn join(&mut self, other: &ActorBits) -> Result<(), AllocError>
        ensures bytes { OnOk result (self.new.bytes.items ≡ self.old.bytes.items ++ other.now.bytes.items) }
        ensures width { self.new.width ≡ self.old.width }
    {
        self.bytes.extend_from_slice(&other.bytes)
    }

    /// Where a byte of a state stands.
    fn place(&self, state: u32, byte: usize) -> usize
        ensures { result ≡ place_in self.now.width state byte }
    {
        (state as usize).wrapping_mul(self.width).wrapping_add(byte)
    }

    /// The bits in a byte of a state; none if there is no such byte.
    pub fn bits(&self, state: u32, byte: usize) -> u8
        ensures { result ≡ unwrap_or (slice_get self.now.bytes.items (place_in self.now.width state byte)) 0 }
    {
        match self.bytes.get(self.place(state, byte)) {
            Some(bits) => *bits,
            None => 0,
        }
    }

    /// The bits in a byte that some state has, of this many.
    pub fn bits_of_some(&self, states: u32, byte: usize) -> u8 {
        let mut bits = 0;
        for state in 0..states {
            bits |= self.bits(state, byte);
        }
        bits
    }

    /// Sets these bits in a byte of a state.
    pub fn set_all(&mut self, state: u32, byte: usize, theirs: u8) {
        let place = self.place(state, byte);
        if let Some(bits) = self.bytes.get_mut(place) {
            *bits |= theirs;
        }
    }

    /// The bits in a byte that one of this many states lacks, where states with this bit are left out.
    pub fn lacking(&self, states: u32, byte: usize, but: usize) -> u8 {
        let mut bits = 0;
        for state in 0..states {
            if !self.has(state, but) {
                bits |= !self.bits(state, byte);
            }
        }
        bits
    }

    /// Sets a bit of a state.
    pub fn set(&mut self, state: u32, bit: usize) {
        let place = self.place(state, bit / 8);
        if let Some(bits) = self.bytes.get_mut(place) {
            *bits |= 1 << (bit % 8);
        }
    }

    /// Whether a bit of a state is set.
    pub fn has(&self, state: u32, bit: usize) -> bool {
        self.bits(state, bit / 8) >> (bit % 8) & 1 == 1
    }

    /// Gives a state the bits in a byte that another one has: whether one of them is new to it.
    pub fn take(&mut self, state: u32, other: u32, byte: usize) -> bool {
        let theirs = self.bits(other, byte);
        let place = self.place(state, byte);
        match self.bytes.get_mut(place) {
            Some(bits) => {
                let changed = theirs & !*bits != 0;
                *bits |= theirs;
                changed
            }
            None => false,
        }
    }
}
