//! The rings of messages in mailboxes.
ghost use Rattle.std.specs.Prelude.{◌≡◌, ◌<◌, ◌≤◌, length, slice_set, false};
ghost use Rattle.fmp_base.specs.MailboxCalls.{enqueued, message_priority, is_queued};
ghost use Rattle.fmp_base.specs.Systems.{tables_of};
ghost use Rattle.fmp_ring.specs.Places.{IsPlace};
ghost use Rattle.fmp_ring.specs.RingLists.{list_at};

use fmp_base::{QueueOrder, System, WorkCount};
use fmp_ring::Rings;

/// The priority of a message; 1 if there is none.
fn priority_of(sys: &System, g: u16) -> u8
    ensures { result ≡ message_priority (tables_of sys.now) g }
{
    match sys.messages.get(g as usize) {
        Some(config) => config.priority,
        None => 1,
    }
}

/// The message before which another comes in a mailbox: the first that is less urgent, if any. Walks from the front.
fn place(rings: &Rings, sys: &System, x: u16, g: u16, steps: &mut WorkCount) -> Option<u16>
    requires { x < length rings.now.lists }
    ensures { IsPlace (message_priority (tables_of sys.now)) g (list_at rings.now.lists x) result }
{
    let mut at = rings.first(x, steps);
    while let Some(u) = at {
        if priority_of(sys, g) < priority_of(sys, u) {
            return Some(u);
        }
        at = rings.next(u, steps);
    }
    None
}

/// How many messages are in a mailbox. Walks over them.
pub fn length_of(rings: &Rings, x: u16) -> u8
    requires mailbox { x < length rings.now.lists }
    requires few { rings.now.nodes ≤ 255 }
    ensures { result ≡ length (list_at rings.now.lists x) }
{
    let mut steps = WorkCount::new();
    let mut count = 0;
    let mut at = rings.first(x, &mut steps);
    while let Some(u) = at {
        count += 1;
        at = rings.next(u, &mut steps);
    }
    count
}

/// Puts a message, which is in no mailbox, into one, last or after those that are at least as urgent.
pub fn put(rings: &mut Rings, sys: &System, x: u8, order: QueueOrder, g: u8)
    requires mailbox { x < length rings.old.lists }
    requires message { g < rings.old.nodes }
    requires free { is_queued g rings.old.lists ≡ false }
    ensures { rings.new
        ≡ record rings.old {
          lists = slice_set rings.old.lists x
              (enqueued order (message_priority (tables_of sys.now)) g (list_at rings.old.lists x));
        } }
{
    let mut steps = WorkCount::new();
    let (head, node) = (x as u16, g as u16);
    match order {
        QueueOrder::Fifo => rings.push_back(head, node, &mut steps),
        QueueOrder::Priority => match place(rings, sys, head, node, &mut steps) {
            Some(at) => rings.insert_before(node, at, &mut steps),
            None => rings.push_back(head, node, &mut steps),
        },
    }
}
