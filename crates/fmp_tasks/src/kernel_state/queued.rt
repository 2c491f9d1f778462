//! What data queues and mailboxes hold.
ghost use Rattle.std.specs.Prelude.{◌≡◌, ◌<◌, ◌≤◌, ◌++◌, ◌∷◌, [], length, slice_get, true, false, IfSome};
ghost use Rattle.fmp_base.specs.DataQueueCalls.{words_at, with_words, has_room, appended, without_oldest};
ghost use Rattle.fmp_base.specs.MailboxCalls.{messages_at, with_messages, enqueued, message_priority, is_queued};
ghost use Rattle.fmp_base.specs.Queues.{first_of};
ghost use Rattle.fmp_base.specs.Systems.{mailbox_config};
ghost use Rattle.fmp_ring.specs.RingLists.{behind_first, follower};
ghost use Rattle.fmp_tasks.specs.Holding.{messages_holding};

use crate::kernel_state::KernelState;
use crate::messages::{length_of, put};
use fmp_base::WorkCount;
use fmp_ring::as_byte;

impl KernelState {
    /// How many data queues there are.
    pub fn data_queue_count(&self) -> usize
        ensures state { result ≡ length self.now.state.data_queues }
        ensures system { result ≡ length self.now.system.data_queues }
        ensures few { result ≤ 255 }
    {
        self.words.len()
    }

    /// How many words a data queue holds.
    pub fn data_queue_length(&self, d: u8) -> u8
        requires { d < length self.now.system.data_queues }
        ensures { result ≡ length (words_at self.now.state d) }
    {
        self.words[d as usize].len()
    }

    /// Whether a data queue has room for a word.
    pub fn has_room(&self, d: u8) -> bool
        requires { d < length self.now.system.data_queues }
        ensures { result ≡ has_room self.now.system self.now.state d }
    {
        self.words[d as usize].len() < self.system.data_queues[d as usize].capacity
    }

    /// The oldest word of a data queue, if any.
    pub fn oldest_word(&self, d: u8) -> Option<i32>
        requires { d < length self.now.system.data_queues }
        ensures { result ≡ slice_get (words_at self.now.state d) 0 }
    {
        self.words[d as usize].oldest()
    }

    /// The word at place i of a data queue, counted from the oldest one, if any.
    pub fn word(&self, d: u8, i: u8) -> Option<i32>
        requires { d < length self.now.system.data_queues }
        ensures { result ≡ slice_get (words_at self.now.state d) i }
    {
        self.words[d as usize].get(i)
    }

    /// Puts a word last in a data queue that has room.
    pub fn append_word(&mut self, d: u8, word: i32)
        requires there { d < length self.old.system.data_queues }
        requires room { has_room self.old.system self.old.state d ≡ true }
        ensures { self.new ≡ record self.old { state = appended self.old.state d word } }
    {
        self.words[d as usize].append(word);
    }

    /// Puts a word last in a data queue; its oldest word, if it has one, makes room.
    pub fn force_word(&mut self, d: u8, word: i32)
        requires { d < length self.old.system.data_queues }
        ensures { self.new
            ≡ record self.old
            { state = with_words self.old.state d (without_oldest (words_at self.old.state d) ++ word ∷ []) } }
    {
        self.words[d as usize].force(word);
    }

    /// Takes all words out of a data queue.
    pub fn clear_words(&mut self, d: u8)
        requires { d < length self.old.system.data_queues }
        ensures { self.new ≡ record self.old { state = with_words self.old.state d [] } }
    {
        self.words[d as usize].clear();
    }

    /// Takes the oldest word out of a data queue, if it has one.
    pub fn drop_oldest(&mut self, d: u8)
        requires { d < length self.old.system.data_queues }
        ensures { self.new
            ≡ record self.old { state = with_words self.old.state d (without_oldest (words_at self.old.state d)) } }
    {
        self.words[d as usize].drop_oldest();
    }

    /// How many mailboxes there are.
    pub fn mailbox_count(&self) -> usize
        ensures state { result ≡ length self.now.state.mailboxes }
        ensures system { result ≡ length self.now.system.mailboxes }
        ensures few { result ≤ 255 }
    {
        self.system.mailboxes.len()
    }

    /// How many messages there are.
    pub fn message_count(&self) -> usize
        ensures system { result ≡ length self.now.system.messages }
        ensures few { result ≤ 255 }
    {
        self.system.messages.len()
    }

    /// Whether a message is queued in some mailbox.
    pub fn is_queued(&self, g: u8) -> bool
        ensures { result ≡ is_queued g self.now.state.mailboxes }
    {
        self.mailboxes.is_linked(g as u16, &mut WorkCount::new())
    }

    /// How many messages are in a mailbox. Walks over them.
    pub fn mailbox_length(&self, x: u8) -> u8
        requires { x < length self.now.system.mailboxes }
        ensures { result ≡ length (messages_at self.now.state x) }
    {
        length_of(&self.mailboxes, x as u16)
    }

    /// The first message in a mailbox, if any.
    pub fn first_message(&self, x: u8) -> Option<u8>
        requires { x < length self.now.system.mailboxes }
        ensures { result ≡ first_of (messages_at self.now.state x) }
    {
        as_byte(self.mailboxes.first(x as u16, &mut WorkCount::new()))
    }

    /// The message right behind another one in its mailbox; none where that one is the last, or is queued nowhere.
    pub fn message_behind(&self, g: u8) -> Option<u8>
        ensures value { result ≡ follower g (messages_holding self.now.state.mailboxes g) }
        ensures there { IfSome result (λ u. u < length self.now.system.messages) }
    {
        if !self.mailboxes.is_linked(g as u16, &mut WorkCount::new()) {
            return None;
        }
        as_byte(self.mailboxes.next(g as u16, &mut WorkCount::new()))
    }

    /// Queues a message, which is queued nowhere, in a mailbox: last in FIFO order (TA_MFIFO), after those that are at
    /// least as urgent in priority order (TA_MPRI).
    pub fn enqueue_message(&mut self, x: u8, g: u8)
        requires mailbox { x < length self.old.system.mailboxes }
        requires message { g < length self.old.system.messages }
        requires free { is_queued g self.old.state.mailboxes ≡ false }
        ensures { self.new
            ≡ record self.old {
              state = with_messages self.old.state x
                  (enqueued (mailbox_config self.old.system x).message_order (message_priority self.old.system) g
                  (messages_at self.old.state x));
            } }
    {
        let order = self.system.mailboxes[x as usize].message_order;
        put(&mut self.mailboxes, &self.system, x, order, g);
    }

    /// Takes the first message out of a mailbox, if it has one.
    pub fn take_message(&mut self, x: u8)
        requires { x < length self.old.system.mailboxes }
        ensures { self.new
            ≡ record self.old { state = with_messages self.old.state x (behind_first (messages_at self.old.state x)) } }
    {
        let _ = self.mailboxes.pop_front(x as u16, &mut WorkCount::new());
    }
}
