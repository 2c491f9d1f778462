//! The axis of a panel: clock and events.
ghost use Rattle.std.specs.Prelude.{◌≡◌, ◌%◌, ◌==◌, option_map, slice_get, false};
ghost use Rattle.std.specs.Option.{option_map_or};
ghost use Rattle.fmp_drawing.specs.Axes as spec;

use crate::scene::Scene;
use crate::shapes::{Rect, put_plain_box, put_text};
use crate::times::axis_area;
use crate::titles::put_area;
use fmp_timeline::CanvasPiece::{At, Label, Number, Numbered, Raw};
use fmp_timeline::{Canvas, Note, PanelSpan, Run, Tenths, number_width, px};

/// The size of numbers on the axis.
const SMALL: Tenths = Tenths(90);

/// Events whose number is a multiple of this have a grid line.
fn step_of(column: u32) -> u32
    ensures { result ≡ spec.step_of column }
{
    match column {
        20.. => 1,
        10..=19 => 5,
        5..=9 => 10,
        _ => 20,
    }
}

/// The words at the left of the axis.
fn put_words(scene: &Scene<'_>, span: &PanelSpan, top: Tenths, out: &mut Canvas) {
    let x = At(scene.page.left() - Tenths(80));
    let (upper, lower) = (At(top + Tenths(100)), At(top + Tenths(260)));
    out.put(
        "<text class=\"m e\" x=\"{}\" y=\"{}\">clock</text>",
        &[x, upper],
    );
    out.put(
        "<text class=\"m e\" x=\"{}\" y=\"{}\">event</text>\n",
        &[x, lower],
    );
    if scene.has_overview() {
        out.put(
            "<a href=\"#top\"><text class=\"m\" x=\"12\" y=\"{}\">↑ overview</text></a>\n",
            &[lower],
        );
    }
    if scene.page.panels > 1 {
        out.put(
            "<text class=\"pn\" x=\"12\" y=\"{}\">Events {}–{}</text>\n",
            &[At(top + Tenths(110)), Number(span.first), Number(span.last)],
        );
    }
}

/// A line of a path through all lanes.
fn put_upright(x: Tenths, (top, bottom): (Tenths, Tenths), out: &mut Canvas) {
    out.put("M{} {}V{}", &[At(x), At(top + Tenths(300)), At(bottom)]);
}

/// Whether an event has a grid line.
fn is_on_grid(span: &PanelSpan, event: u32) -> bool
    ensures { result ≡ (event % spec.step_of span.now.page.column == 0) }
{
    event.checked_rem(step_of(span.page.column)) == Some(0)
}

/// The numbers of events, and the grid below them.
fn put_grid(span: &PanelSpan, (top, bottom): (Tenths, Tenths), out: &mut Canvas) {
    for event in span.first..=span.last {
        if is_on_grid(span, event) {
            let place = (span.x(event), top + Tenths(260));
            put_text(Raw("c m"), place, Number(event), out);
        }
    }
    out.raw("<path class=\"grid\" d=\"");
    for event in span.first..=span.last {
        if is_on_grid(span, event) {
            put_upright(span.x(event), (top, bottom), out);
        }
    }
    out.raw("\"/>\n");
}

/// Whether an event is a tick.
fn is_tick(scene: &Scene<'_>, event: u32) -> bool
    ensures { result ≡ option_map_or (λ note. note.ticks) (slice_get scene.now.run.now.notes.items event) false }
{
    match scene.run.notes.get(event as usize) {
        Some(note) => note.ticks,
        None => false,
    }
}

/// The lines of the ticks, through all lanes.
fn put_ticks(scene: &Scene<'_>, span: &PanelSpan, ends: (Tenths, Tenths), out: &mut Canvas) {
    let mut open = false;
    for event in span.first..=span.last {
        if is_tick(scene, event) {
            if !open {
                out.raw("<path class=\"tk");
                out.raw(if span.is_narrow() {
                    "\" stroke-opacity=\".5"
                } else {
                    ""
                });
                out.raw("\" d=\"");
                open = true;
            }
            put_upright(span.x(event), ends, out);
        }
    }
    if open {
        out.raw("\"/>\n");
    }
}

/// What the badge of an event shows, if it has one: the clock or an interrupt, as words and a number.
fn badge_of(note: &Note) -> Option<(&'static str, u32)>
    ensures { option_map (λ badge. (badge.0.now, badge.1)) result ≡ spec.badge_of note.now }
{
    match note.interrupt {
        _ if note.ticks => Some(("", note.clock)),
        Some(place) => Some(("#", u32::from(place).saturating_add(1))),
        None => None,
    }
}

/// A badge over an event.
fn put_badge(x: Tenths, top: Tenths, text: &Canvas, ticks: bool, out: &mut Canvas) {
    let wide = text.width(SMALL) + Tenths(70);
    let (frame, words) = if ticks {
        ("tkb", "tkt c")
    } else {
        ("ikb", "ikt c")
    };
    let badge = Rect {
        x: x - wide.half(),
        y: top + Tenths(20),
        wide,
        high: Tenths(120),
    };
    put_plain_box(Raw(frame), badge, out);
    put_text(Raw(words), (x, top + Tenths(110)), Label(text), out);
}

/// What the axis shows of the event before this one, if there is one.
fn note_before<'a>(run: &'a Run, event: u32) -> Option<&'a Note>
    ensures { option_map (λ note. note.now) result ≡ spec.note_before run.now event }
{
    run.notes.get(event.checked_sub(1)? as usize)
}

/// The clock that a later panel begins with, in the lead: where it ends.
fn put_first_clock(scene: &Scene<'_>, span: &PanelSpan, top: Tenths, out: &mut Canvas) -> Tenths {
    let Some(note) = note_before(scene.run, span.first) else {
        return Tenths(0);
    };
    let x = scene.page.left() + Tenths(60);
    put_text(Raw("m c"), (x, top + Tenths(110)), Number(note.clock), out);
    x + number_width(note.clock, SMALL).half() + Tenths(20)
}

/// The badge of an event, if it has one that begins after this place: where it ends.
fn put_badge_after(
    scene: &Scene<'_>,
    note: &Note,
    (x, top): (Tenths, Tenths),
    end: Tenths,
    out: &mut Canvas,
) -> Tenths {
    let Some((words, number)) = badge_of(note) else {
        return end;
    };
    let mut text = Canvas::new(scene.alloc);
    text.numbered(words, number, "");
    let half = (text.width(SMALL) + Tenths(70)).half();
    if !end.is_below(x - half) {
        return end;
    }
    put_badge(x, top, &text, note.ticks, out);
    x + half + Tenths(10)
}

/// The clock at each tick and the number of each interrupt, but those that would touch the one before.
fn put_badges(scene: &Scene<'_>, span: &PanelSpan, top: Tenths, out: &mut Canvas) {
    let mut end = put_first_clock(scene, span, top, out);
    for event in span.first..=span.last {
        if let Some(note) = scene.run.notes.get(event as usize) {
            end = put_badge_after(scene, note, (span.x(event), top), end, out);
        }
    }
}

/// What is pointed at for the lines of each event.
fn put_areas(scene: &Scene<'_>, span: &PanelSpan, top: Tenths, out: &mut Canvas) {
    let wide = px(span.page.column);
    let (top, high) = axis_area(scene, top);
    for event in span.first..=span.last {
        let area = Rect {
            x: span.x(event) - wide.half(),
            y: top,
            wide,
            high,
        };
        put_area(scene, area, event, out);
    }
}

/// The axis of a panel between these heights, with its grid.
pub fn put_axis(
    scene: &Scene<'_>,
    span: &PanelSpan,
    (top, bottom): (Tenths, Tenths),
    out: &mut Canvas,
) {
    put_words(scene, span, top, out);
    put_grid(span, (top, bottom), out);
    put_badges(scene, span, top, out);
    put_ticks(scene, span, (top, bottom), out);
    put_areas(scene, span, top, out);
}
