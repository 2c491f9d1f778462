//! The state of the kernel, put back as that of other tables is.
ghost use Rattle.std.specs.Prelude.{◌≡◌, length};

use crate::kernel_state::KernelState;
use crate::marks::SettleMarks;
use crate::words::QueueWords;

/// Puts the words of as many other data queues in the place of these.
fn put_words_back(words: &mut [QueueWords], from: &[QueueWords])
    requires { length words.old ≡ length from.now }
    ensures { words.new ≡ from.now }
{
    for i in 0..words.len() {
        words[i].put_back(&from[i]);
    }
}

impl KernelState {
    /// Puts the state of other tables of the same system in the place of this one.
    #[tactic(auto, using(crate::proofs::MarkLemmas::at_rest_all))]
    pub fn put_back(&mut self, from: &KernelState)
        requires { self.old.system ≡ from.now.system }
        ensures { self.new ≡ from.now }
    {
        self.blocks.copy_from_slice(from.blocks.as_slice());
        self.order.put_back(&from.order);
        self.rings.put_back(&from.rings);
        self.ready.put_back(&from.ready);
        self.waits = from.waits;
        self.deadlines.put_back(&from.deadlines);
        self.semaphores.copy_from_slice(from.semaphores.as_slice());
        self.flags.copy_from_slice(from.flags.as_slice());
        put_words_back(&mut self.words, &from.words);
        self.mailboxes.put_back(&from.mailboxes);
        self.shared_words
            .copy_from_slice(from.shared_words.as_slice());
        self.processors.put_back(&from.processors);
        self.cyclics.put_back(&from.cyclics);
        self.pending.put_back(&from.pending);
        self.marks = SettleMarks::all();
        self.clock = from.clock;
    }
}
