//! Arrows from who acted to the task on which it acted.
ghost use Rattle.std.specs.Prelude.{◌≡◌, ◌++◌, OnOk};
ghost use Rattle.fmp_base.specs.Systems.{tables_of};
ghost use Rattle.fmp_slices.specs.Traces as spec;

use crate::clock::Clock;
use crate::entries::{FlowPoint, append_flow_end, append_flow_start};
use crate::lanes::{lane_of, task_lane};
use fmp_base::System;
use fmp_timeline::{ActorLink, Bond};
use std::alloc::{AllocError, Global};

/// What an arrow says.
fn bond_word(bond: Bond) -> &'static str
    ensures { result.now ≡ spec.bond_word bond }
{
    match bond {
        Bond::Starts => "starts",
        Bond::Releases => "releases",
        Bond::Migrates => "migrates",
        Bond::Changes => "changes",
    }
}

/// When the arrow of an event leaves: a microsecond before the event, but no earlier than the event before it. There
/// the slice of the actor lasts.
fn leaves_at(clock: &Clock, event: u32) -> u64
    ensures { result ≡ spec.leaves_at clock.now.times.items event }
{
    let before = clock.at(event.saturating_sub(1));
    clock.at(event).saturating_sub(1).max(before)
}

/// Appends the arrow of this number.
fn append_link(
    alloc: Global,
    sys: &System,
    clock: &Clock,
    number: u64,
    link: &ActorLink,
    out: &mut Vec<u8>,
) -> Result<(), AllocError>
    ensures { OnOk result (out.new.items
        ≡ out.old.items ++ spec.link_text (tables_of sys.now) clock.now.times.items number link.now) }
{
    let Some(lane) = lane_of(sys, link.from) else {
        return Ok(());
    };
    let start = FlowPoint {
        lane,
        time: leaves_at(clock, link.event),
        number,
        word: bond_word(link.bond),
    };
    let end = FlowPoint {
        lane: task_lane(link.task),
        time: clock.at(link.event),
        ..start
    };
    append_flow_start(alloc, start, out)?;
    append_flow_end(alloc, end, out)
}

/// Appends all arrows, numbered from 1.
pub fn append_links(
    alloc: Global,
    sys: &System,
    clock: &Clock,
    links: &[ActorLink],
    out: &mut Vec<u8>,
) -> Result<(), AllocError>
    ensures { OnOk result (out.new.items ≡ out.old.items
        ++ spec.texts_from (spec.link_text (tables_of sys.now) clock.now.times.items) 1 links.now) }
{
    let mut number = 1u64;
    for link in links {
        append_link(alloc, sys, clock, number, link, out)?;
        number = number.saturating_add(1);
    }
    Ok(())
}
