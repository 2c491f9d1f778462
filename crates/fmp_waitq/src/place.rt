//! Places in priority order.
ghost use Rattle.std.specs.Prelude.{◌≡◌, ◌+◌, ◌<◌, length};
ghost use Rattle.fmp_base.specs.Links.{AddsAtMost};
ghost use Rattle.fmp_base.specs.Queues.{priority_in};
ghost use Rattle.fmp_ring.specs.Orders.{IsOrder};
ghost use Rattle.fmp_ring.specs.Places.{IsPlace, Walked};
ghost use Rattle.fmp_ring.specs.RingLists.{list_at};

use fmp_base::{TaskBlock, WorkCount};
use fmp_ring::Rings;

/// The priority of a task; 1 if there is none.
fn priority_at(blocks: &[TaskBlock], t: u16) -> u8
    ensures { result ≡ priority_in blocks.now t }
{
    match blocks.get(t as usize) {
        Some(x) => x.priority,
        None => 1,
    }
}

/// The task before which another comes in a list: the first that is less urgent, if any. Walks on from a place that
/// lies past none that is less urgent.
pub fn place_from(
    rings: &Rings,
    head: u16,
    blocks: &[TaskBlock],
    t: u16,
    start: Option<u16>,
    steps: &mut WorkCount,
) -> Option<u16>
    requires order { IsOrder rings.now.nodes (list_at rings.now.lists head) }
    requires walked { Walked (priority_in blocks.now) t (list_at rings.now.lists head) start }
    ensures place { IsPlace (priority_in blocks.now) t (list_at rings.now.lists head) result }
    ensures steps { AddsAtMost (length (list_at rings.now.lists head)) steps.old steps.new }
{
    let mut at = start;
    while let Some(u) = at {
        if priority_at(blocks, t) < priority_at(blocks, u) {
            return Some(u);
        }
        at = rings.next(u, steps);
    }
    None
}

/// The task before which another comes in a list: the first that is less urgent, if any. Walks from the front.
pub fn place(
    rings: &Rings,
    head: u16,
    blocks: &[TaskBlock],
    t: u16,
    steps: &mut WorkCount,
) -> Option<u16>
    requires { head < length rings.now.lists }
    ensures place { IsPlace (priority_in blocks.now) t (list_at rings.now.lists head) result }
    ensures steps { AddsAtMost (length (list_at rings.now.lists head) + 1) steps.old steps.new }
{
    let start = rings.first(head, steps);
    place_from(rings, head, blocks, t, start, steps)
}
