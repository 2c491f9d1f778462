//! The names of service calls, each at the end of the stretch that made it.
use crate::rows::Row;
use crate::scene::{Scene, TakenPixels, fit_right};
use crate::shapes::{Rect, put_label_in, put_plate};
use crate::strips::Lane;
use crate::titles::put_area;
use fmp_timeline::CanvasPiece::{At, Label, Raw};
use fmp_timeline::{CallMade, Canvas, PanelSpan, Tenths, append_call, append_value, px};
use std::alloc::AllocError;

/// The size of calls.
const CALL: Tenths = Tenths(85);

/// Where the state before an event begins, if it is one of this lane.
fn stretch_start(scene: &Scene<'_>, lane: Lane, event: u32) -> Option<u32> {
    let before = event.checked_sub(1)?;
    match lane {
        Lane::Task(task, processor) => {
            let track = scene.run.tasks.get(usize::from(task))?;
            let stay = track.stay(track.places(before, before).start)?;
            (stay.state.processor == processor).then_some(stay.from)
        }
        Lane::Handler(handler) => {
            let track = scene.run.handling(handler)?;
            Some(track.stay(track.places(before, before).start)?.from)
        }
        _ => None,
    }
}

/// Where the longest form of a call that fits between two places of a lane ends, with its text.
fn fit_call(
    row: Row<'_>,
    taken: &[TakenPixels],
    ends: (Tenths, Tenths),
    made: &CallMade,
    text: &mut Canvas,
) -> Option<Tenths> {
    text.shorten(0);
    append_call(row.scene.sys, made.call, text);
    let middle = text.len();
    append_value(made.reply, text);
    let short = made.call.service().name().len();
    for count in [text.len(), middle, short] {
        text.shorten(count);
        let x = fit_right(row.span, taken, ends, text.width(CALL));
        if x.is_some() {
            return x;
        }
    }
    None
}

/// The text of a call: in a task's box in its colour, in a handler's on a plate.
fn put_call_text(row: Row<'_>, x: Tenths, text: &Canvas, out: &mut Canvas) {
    let strip = row.strip;
    if let Lane::Task(task, _) = strip.lane {
        let place = (x, strip.y(140));
        return put_label_in(row.scene.look(task), "e s8", place, Label(text), out);
    }
    let wide = text.width(CALL) + Tenths(20);
    let plate = Rect {
        x: x - wide + Tenths(10),
        y: strip.middle(-45),
        wide,
        high: Tenths(90),
    };
    put_plate(
        plate,
        Raw("e s8 q"),
        (x, strip.middle(30)),
        Label(text),
        out,
    );
}

/// A call of a lane, and where it can be named: its own room, after the lane's call before it, and all that the
/// stretch has.
#[derive(Clone, Copy)]
struct CallLabel {
    made: CallMade,
    own: Tenths,
    least: Tenths,
}

/// The name of a call where it fits: in its own room, or from there on to the left, if it is named first.
fn put_name(
    row: Row<'_>,
    place: &CallLabel,
    taken: &mut Vec<TakenPixels>,
    out: &mut Canvas,
) -> Result<(), AllocError> {
    let mut text = Canvas::new(row.scene.alloc);
    let end = row.span.x(place.made.event);
    for left in [place.own, place.least] {
        if let Some(x) = fit_call(row, taken, (left, end), &place.made, &mut text) {
            put_call_text(row, x, &text, out);
            let from = x - text.width(CALL);
            taken.push(TakenPixels { from, to: x })?;
            break;
        }
    }
    Ok(())
}

/// The names of the calls that are named first, or of the others.
fn put_names(
    row: Row<'_>,
    places: &[CallLabel],
    first: bool,
    taken: &mut Vec<TakenPixels>,
    out: &mut Canvas,
) -> Result<(), AllocError> {
    for place in places {
        if place.made.is_named_first() == first {
            put_name(row, place, taken, out)?;
        }
    }
    Ok(())
}

/// Where the stretch of a lane that begins with this event begins in a panel.
fn stretch_left(span: &PanelSpan, start: u32) -> Tenths {
    if start < span.first {
        span.page.left()
    } else {
        span.x(start)
    }
}

/// The calls of a lane in a panel, each with its place.
fn places_of(row: Row<'_>) -> Result<Vec<CallLabel>, AllocError> {
    let mut places = Vec::new(row.scene.alloc);
    let mut previous = Tenths(0);
    for made in calls_of(row) {
        if let Some(start) = stretch_start(row.scene, row.strip.lane, made.event) {
            let left = stretch_left(row.span, start);
            let own = previous.or_more(left);
            let least = if made.is_named_first() { left } else { own };
            places.push(CallLabel {
                made: *made,
                own,
                least,
            })?;
            previous = row.span.x(made.event);
        }
    }
    Ok(places)
}

/// What is pointed at for each of these calls.
fn put_areas(row: Row<'_>, places: &[CallLabel], out: &mut Canvas) {
    for place in places {
        let event = place.made.event;
        let area = Rect {
            x: place.own,
            y: row.strip.y(20),
            wide: row.span.x(event) - place.own,
            high: px(row.strip.height) - Tenths(40),
        };
        put_area(row.scene, area, event, out);
    }
}

/// The calls of a lane in a panel.
fn calls_of<'a>(row: Row<'a>) -> &'a [CallMade] {
    let span = row.span;
    let Some(deeds) = row.scene.deeds_in(row.strip.lane) else {
        return &[];
    };
    let from = deeds.calls.partition_point(|made| made.event < span.first);
    let to = deeds.calls.partition_point(|made| made.event <= span.last);
    deeds.calls.get(from..to).unwrap_or(&[])
}

/// A notch at the foot of a task's box for each of its calls.
fn put_notches(row: Row<'_>, out: &mut Canvas) {
    let foot = row.strip.y(-70) + px(row.strip.height);
    let mut open = false;
    for made in calls_of(row) {
        if stretch_start(row.scene, row.strip.lane, made.event).is_some() {
            if !open {
                out.raw("<path class=\"cut q\" d=\"");
                open = true;
            }
            let x = row.span.x(made.event) - Tenths(5);
            out.put("M{} {}v4", &[At(x), At(foot)]);
        }
    }
    if open {
        out.raw("\"/>\n");
    }
}

/// The calls of a lane in a panel, beside these pixels of its marks, and a notch at the foot of a task's box for each.
/// Those that wait, are refused or end a wait are named first, and the others where there is room left. `AllocError` if
/// memory runs out.
pub fn put_calls(
    row: Row<'_>,
    mut taken: Vec<TakenPixels>,
    out: &mut Canvas,
) -> Result<(), AllocError> {
    if row.span.is_narrow() {
        return Ok(());
    }
    let places = places_of(row)?;
    put_areas(row, &places, out);
    put_names(row, &places, true, &mut taken, out)?;
    put_names(row, &places, false, &mut taken, out)?;
    if matches!(row.strip.lane, Lane::Task(..)) {
        put_notches(row, out);
    }
    Ok(())
}
