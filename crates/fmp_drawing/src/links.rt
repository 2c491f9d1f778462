//! Lines from an actor to the task on which it acted, and migrations.
ghost use Rattle.std.specs.Prelude.{◌≡◌};
ghost use Rattle.fmp_drawing.specs.Links as spec;

use crate::rows::Panel;
use crate::strips::Strip;
use fmp_base::Caller;
use fmp_timeline::CanvasPiece::{At, Number, Raw};
use fmp_timeline::{ActorLink, BarLook, Bond, Canvas, Migration, Tenths, px};

/// Where a link ends in the lane of the other.
fn link_end(bond: Bond, strip: &Strip, down: bool) -> Tenths
    ensures { result ≡ spec.link_end bond strip.now down }
{
    let edge = match bond {
        Bond::Starts => Tenths(10),
        Bond::Releases => Tenths(70),
        Bond::Migrates | Bond::Changes => Tenths(30),
    };
    if down {
        strip.y(0) + edge
    } else {
        strip.y(0) + px(strip.height) - edge
    }
}

/// A link from one lane to another.
fn put_link(x: Tenths, bond: Bond, from: &Strip, to: &Strip, out: &mut Canvas) {
    let down = from.top < to.top;
    let (x, start, end) = (At(x), At(from.middle(0)), At(link_end(bond, to, down)));
    out.put("<path class=\"ln q\" d=\"M{} {}V{}\"/>", &[x, start, end]);
    out.put(
        "<circle class=\"dot q\" cx=\"{}\" cy=\"{}\" r=\"2.2\"/>",
        &[x, start],
    );
    if matches!(bond, Bond::Migrates | Bond::Changes) {
        let head = if down { "l3-5h-6z" } else { "l3 5h-6z" };
        out.put(
            "<path class=\"dot q\" d=\"M{} {}{}\"/>",
            &[x, end, Raw(head)],
        );
    }
    out.raw("\n");
}

/// The lanes of a link, if both are there and are two.
fn lanes_of(panel: Panel<'_>, link: &ActorLink) -> Option<(Strip, Strip)> {
    let before = link.event.saturating_sub(1);
    let at = if link.bond == Bond::Migrates {
        before
    } else {
        link.event
    };
    let (run, strips) = (panel.scene.run, panel.strips);
    let from = strips.of_actor(run, link.from, before)?;
    let to = strips.of_actor(run, Caller::Task(link.task), at)?;
    (from.lane != to.lane).then_some((from, to))
}

/// A migration from lane to lane.
fn put_migration(look: BarLook, x: Tenths, from: &Strip, to: &Strip, out: &mut Canvas) {
    let (tip, neck, head) = if from.top < to.top {
        (to.y(30), to.y(-40), "l4.5 -7h-9z")
    } else {
        let tip = to.y(-30) + px(to.height);
        (tip, tip + Tenths(70), "l4.5 7h-9z")
    };
    let colour = Number(u32::from(look.colour));
    out.put(
        "<path class=\"c{} q o mg\" d=\"M{} {}V{}\"/>",
        &[colour, At(x), At(from.middle(0)), At(neck)],
    );
    out.put(
        "<path class=\"c{} q f\" d=\"M{} {}{}\"/>\n",
        &[colour, At(x), At(tip), Raw(head)],
    );
}

/// The migrations of a panel from lane to lane.
fn put_migrations(panel: Panel<'_>, out: &mut Canvas) {
    let (span, strips) = (panel.span, panel.strips);
    let all: &[Migration] = &panel.scene.run.migrations;
    let first = all.partition_point(|migration| migration.event < span.first);
    for migration in all.get(first..).unwrap_or(&[]) {
        if migration.event > span.last {
            break;
        }
        let from = strips.of_task(migration.task, migration.from);
        let to = strips.of_task(migration.task, migration.to);
        if let (Some(from), Some(to)) = (from, to) {
            let look = panel.scene.look(migration.task);
            put_migration(look, span.x(migration.event), &from, &to, out);
        }
    }
}

/// The links and the migrations of a panel. Narrow columns have migrations alone.
pub fn put_links(panel: Panel<'_>, out: &mut Canvas) {
    let span = panel.span;
    let all: &[ActorLink] = &panel.scene.run.links;
    let first = all.partition_point(|link| link.event < span.first);
    for link in all.get(first..).unwrap_or(&[]) {
        if span.is_narrow() || link.event > span.last {
            break;
        }
        if let Some((from, to)) = lanes_of(panel, link) {
            put_link(span.x(link.event), link.bond, &from, &to, out);
        }
    }
    put_migrations(panel, out);
}
