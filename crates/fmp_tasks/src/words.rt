//! The words that a data queue holds.
ghost use Rattle.std.specs.Prelude.{◌≡◌, ◌<◌, ◌++◌, ◌∷◌, [], length, slice_get, IfOk};
ghost use Rattle.fmp_base.specs.DataQueueCalls.{without_oldest};

use std::alloc::{AllocError, Global};
use std::collections::VecDeque;
use std::marker::Model;

mod copying;

/// The words of one data queue, the oldest first, in a ring buffer with room for 255. It is seen as the list of these.
#[derive(Drop)]
pub struct QueueWords {
    ring: VecDeque<i32>,
}

impl Model for QueueWords {
    ghost use Rattle.std.specs.Prelude.{◌≤◌, ℤ, List, length};
    ghost use Rattle.std.specs.VecDeque.{deque_capacity};

    ghost Value = { List ℤ };

    ghost view = { λ w. w.ring.items };

    ghost invariant = { λ w. (length w.ring.items ≤ 255) × (255 ≤ deque_capacity w.ring) };
}

impl QueueWords {
    /// No word. `AllocError` if memory runs out.
    pub fn new(alloc: Global) -> Result<QueueWords, AllocError>
        ensures { IfOk result (λ w. w ≡ []) }
    {
        let ring = VecDeque::with_capacity(alloc, 255)?;
        Ok(QueueWords { ring })
    }

    /// How many words there are.
    pub fn len(&self) -> u8
        ensures { result ≡ length self.now }
    {
        self.ring.len() as u8
    }

    /// The oldest word, if any.
    pub fn oldest(&self) -> Option<i32>
        ensures { result ≡ slice_get self.now 0 }
    {
        self.ring.front().copied()
    }

    /// The word at this place, counted from the oldest one, if any.
    pub fn get(&self, i: u8) -> Option<i32>
        ensures { result ≡ slice_get self.now i }
    {
        self.ring.get(i as usize).copied()
    }

    /// Puts a word last, if there are fewer than 255.
    pub fn append(&mut self, word: i32)
        requires { length self.old < 255 }
        ensures { self.new ≡ self.old ++ word ∷ [] }
    {
        self.ring.push_back_reserved(word);
    }

    /// Puts a word last; the oldest word, if there is one, makes room.
    pub fn force(&mut self, word: i32)
        ensures { self.new ≡ without_oldest self.old ++ word ∷ [] }
    {
        let _ = self.ring.pop_front();
        self.ring.push_back_reserved(word);
    }

    /// Takes all words out.
    pub fn clear(&mut self)
        ensures { self.new ≡ [] }
    {
        self.ring.clear();
    }

    /// Takes the oldest word out, if there is one.
    pub fn drop_oldest(&mut self)
        ensures { self.new ≡ without_oldest self.old }
    {
        let _ = self.ring.pop_front();
    }
}
