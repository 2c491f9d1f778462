//! The real times of events, where they are known: a row at the axis, and lines in titles.
ghost use Rattle.std.specs.Prelude.{◌≡◌, ◌-◌, slice_get};
ghost use Rattle.fmp_drawing.specs.Times as spec;
ghost use Rattle.fmp_timeline.specs.Canvases.{Adds};

use crate::scene::Scene;
use crate::shapes::put_text;
use fmp_timeline::CanvasPiece::{At, Label, Raw};
use fmp_timeline::{Canvas, PanelSpan, Tenths, px};
use itoa::Buffer;

/// The height of the row of times.
const ROW: u32 = 14;

/// The size of the row's numbers.
const SMALL: Tenths = Tenths(90);

/// There is at most one label for this many pixels.
const APART: u32 = 56;

/// Where the axis of a panel begins that begins at this height: below the row of times, if there is one.
pub fn axis_top(scene: &Scene<'_>, top: u32) -> u32
    ensures { result ≡ spec.axis_top scene.now.times.now top }
{
    if scene.has_times() {
        top.saturating_add(ROW)
    } else {
        top
    }
}

/// What an event covers at the axis, above this height and in all: with its time, if it is known.
pub fn axis_area(scene: &Scene<'_>, top: Tenths) -> (Tenths, Tenths)
    ensures { result ≡ spec.axis_area scene.now.times.now top }
{
    if scene.has_times() {
        (top - px(ROW), Tenths(300) + px(ROW))
    } else {
        (top, Tenths(300))
    }
}

/// The decimal point, with the zeros that make three digits of this number of microseconds.
fn point_before(micros: u64) -> &'static str
    ensures { result.now ≡ spec.point_text micros }
{
    match micros {
        0..=9 => ".00",
        10..=99 => ".0",
        _ => ".",
    }
}

/// A time in milliseconds, with three decimals.
fn put_millis(micros: u64, out: &mut Canvas)
    ensures { Adds out.old out.new (spec.millis_text micros) }
{
    let (millis, rest) = (micros / 1000, micros % 1000);
    out.raw(Buffer::new().format(millis));
    out.raw(point_before(rest));
    out.raw(Buffer::new().format(rest));
}

/// From when to when, in milliseconds.
fn put_period(from: u64, to: u64, out: &mut Canvas)
    ensures { Adds out.old out.new (spec.period_text from to) }
{
    put_millis(from, out);
    out.raw("–");
    put_millis(to, out);
    out.raw(" ms");
}

/// When an event came, as a line, if that is known.
pub fn put_time_line(scene: &Scene<'_>, event: u32, out: &mut Canvas)
    ensures { Adds out.old out.new (spec.time_line (slice_get scene.now.times.now event)) }
{
    if let Some(time) = scene.time_of(event) {
        put_millis(time, out);
        out.raw(" ms\n");
    }
}

/// How long a state lasted that began and ended with these events, as a line, if their times are known.
pub fn put_period_line(scene: &Scene<'_>, from: u32, to: Option<u32>, out: &mut Canvas)
    ensures { Adds out.old out.new (spec.period_line scene.now.times.now from to) }
{
    let Some(to) = to else {
        return put_time_line(scene, from, out);
    };
    if let (Some(from), Some(to)) = (scene.time_of(from), scene.time_of(to)) {
        put_period(from, to, out);
        out.raw("\n");
    }
}

/// When the first and the last event of the picture came, if that is known.
pub fn put_extent_of_times(scene: &Scene<'_>, out: &mut Canvas)
    ensures { Adds out.old out.new (spec.extent_text scene.now.times.now scene.now.page) }
{
    if let (Some(from), Some(to)) = (
        scene.time_of(scene.page.first),
        scene.time_of(scene.page.last),
    ) {
        out.raw(" · ");
        put_period(from, to, out);
    }
}

/// The least of 1, 2, 5, 10, 20, 50 and so on that is at least this.
fn rounded_up(least: u64) -> u64 {
    let mut decade: u64 = 1;
    for _zero in 0..19 {
        for digit in [1u64, 2, 5] {
            let step = decade.saturating_mul(digit);
            if step >= least {
                return step;
            }
        }
        decade = decade.saturating_mul(10);
    }
    decade
}

/// The round step of time that a panel has labels for, in microseconds.
fn step_of(scene: &Scene<'_>, span: &PanelSpan) -> u64 {
    let from = scene.time_of(span.first).unwrap_or(0);
    let to = scene.time_of(span.last).unwrap_or(from);
    let events = span.last.saturating_sub(span.first).saturating_add(1);
    let labels = events.saturating_mul(span.page.column) / APART;
    rounded_up(to.saturating_sub(from) / u64::from(labels.max(1)))
}

/// The time of an event if it is the first of the panel, or the first since a multiple of this step.
fn labelled(scene: &Scene<'_>, span: &PanelSpan, event: u32, step: u64) -> Option<u64> {
    let time = scene.time_of(event)?;
    let before = scene.time_of(event.saturating_sub(1))?;
    let is_first = event == span.first || time.checked_div(step) != before.checked_div(step);
    is_first.then_some(time)
}

/// The time of an event over it, if it begins after this place: where it ends.
fn put_label(
    scene: &Scene<'_>,
    (x, time): (Tenths, u64),
    top: Tenths,
    end: Tenths,
    out: &mut Canvas,
) -> Tenths {
    let mut text = Canvas::new(scene.alloc);
    put_millis(time, &mut text);
    let half = text.width(SMALL).half();
    let x = x.or_more(scene.page.left() + half - Tenths(30));
    if !end.is_below(x - half) {
        return end;
    }
    put_text(Raw("m c"), (x, top + Tenths(100)), Label(&text), out);
    x + half + Tenths(40)
}

/// The row of times of a panel that begins at this height: few of them, those after round times, but those that would
/// touch the one before.
fn put_row(scene: &Scene<'_>, span: &PanelSpan, top: Tenths, out: &mut Canvas) {
    let (x, y) = (At(scene.page.left() - Tenths(80)), At(top + Tenths(100)));
    out.put("<text class=\"m e\" x=\"{}\" y=\"{}\">ms</text>\n", &[x, y]);
    let step = step_of(scene, span);
    let mut end = scene.page.left() - Tenths(50);
    for event in span.first..=span.last {
        if let Some(time) = labelled(scene, span, event, step) {
            end = put_label(scene, (span.x(event), time), top, end, out);
        }
    }
}

/// The row of times of a panel that begins at this height, if they are known.
pub fn put_times(scene: &Scene<'_>, span: &PanelSpan, top: Tenths, out: &mut Canvas) {
    if scene.has_times() {
        put_row(scene, span, top, out);
    }
}
