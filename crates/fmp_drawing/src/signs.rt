//! Marks and their tags, which take room in a lane before its texts do.
use crate::rows::Row;
use crate::scene::{Scene, TakenPixels};
use crate::shapes::{Rect, put_plain_box, put_text};
use crate::strips::{Lane, Strip};
use crate::titles::put_event_title;
use fmp_timeline::CanvasPiece::{At, Raw, Text};
use fmp_timeline::{Canvas, EventMark, PanelSpan, Run, Sign, Tenths, px, width};
use std::alloc::AllocError;

/// The size of tags.
const TAG: Tenths = Tenths(80);

/// A mark at its place, with a tag if there is room for one.
#[derive(Clone, Copy)]
pub struct PlacedMark {
    pub mark: EventMark,
    pub x: Tenths,
    /// Where the tag begins, and its text.
    pub tag: Option<(Tenths, &'static [u8])>,
}

/// The name of a mark's shape, and what it takes to the left and to the right of its event's line.
fn shape_of(sign: Sign) -> (&'static str, u32, u32) {
    match sign {
        Sign::Start => ("act", 4, 4),
        Sign::Queued => ("queued", 4, 4),
        Sign::Released => ("rel", 4, 4),
        Sign::WakeupQueued => ("wup", 4, 4),
        Sign::TimedOut => ("tmo", 5, 5),
        Sign::BrokenOff => ("rlw", 5, 5),
        Sign::Polled => ("poll", 5, 5),
        Sign::Refused(_) => ("refused", 5, 5),
        Sign::Faulted(_) => ("fault", 7, 7),
        Sign::Ended => ("end", 4, 2),
        Sign::Terminated => ("ter", 4, 3),
        Sign::Priority(_) => ("", 0, 0),
        Sign::Requested => ("int", 4, 5),
        Sign::Due => ("due", 4, 4),
        Sign::Kept => ("kept", 5, 5),
    }
}

/// What a mark takes to the left of its event's line.
fn left_of(sign: Sign) -> Tenths {
    let (_, left, _) = shape_of(sign);
    px(left)
}

/// What a mark takes to the right of its event's line.
fn right_of(sign: Sign) -> Tenths {
    let (_, _, right) = shape_of(sign);
    px(right)
}

/// The tags of the priorities from 1 to 16.
static PRIORITIES: [&str; 16] = [
    "pri 1", "pri 2", "pri 3", "pri 4", "pri 5", "pri 6", "pri 7", "pri 8", "pri 9", "pri 10",
    "pri 11", "pri 12", "pri 13", "pri 14", "pri 15", "pri 16",
];

/// The tag of a priority.
fn priority_tag(priority: u8) -> &'static str {
    let place = usize::from(priority).saturating_sub(1);
    PRIORITIES.get(place).copied().unwrap_or("")
}

/// The text of a mark's tag; empty if it has none.
fn tag_text(sign: Sign) -> &'static str {
    match sign {
        Sign::Refused(code) => code.name(),
        Sign::Faulted(fault) => fault.name(),
        Sign::Priority(priority) => priority_tag(priority),
        _ => "",
    }
}

/// Whether a mark of a task stands in its lane on this processor.
fn stands_on(run: &Run, task: u8, processor: u8, mark: &EventMark) -> bool {
    let event = if mark.sign.stands_before() {
        mark.event.saturating_sub(1)
    } else {
        mark.event
    };
    if let Some(track) = run.tasks.get(usize::from(task))
        && let Some(shown) = track.at(event)
    {
        return shown.processor == processor;
    }
    true
}

/// Whether a mark of this lane's owner stands in this lane.
fn stands_in(run: &Run, lane: Lane, mark: &EventMark) -> bool {
    match lane {
        Lane::Task(task, processor) => stands_on(run, task, processor, mark),
        _ => true,
    }
}

/// The marks of this lane's owner, from an event on.
fn marks_from<'a>(scene: &Scene<'a>, lane: Lane, first: u32) -> &'a [EventMark] {
    let Some(deeds) = scene.deeds_in(lane) else {
        return &[];
    };
    let from = deeds.marks.partition_point(|mark| mark.event < first);
    deeds.marks.get(from..).unwrap_or(&[])
}

/// The marks of a lane in a panel.
fn marks_of(scene: &Scene<'_>, span: &PanelSpan, lane: Lane) -> Result<Vec<EventMark>, AllocError> {
    let mut mine = Vec::new(scene.alloc);
    for mark in marks_from(scene, lane, span.first) {
        if mark.event > span.last {
            break;
        }
        if stands_in(scene.run, lane, mark) {
            mine.push(*mark)?;
        }
    }
    Ok(mine)
}

/// Whether one of these marks says that a body stops at this event.
fn stops_at(event: u32, all: &[EventMark]) -> bool {
    for mark in all {
        if mark.event == event && matches!(mark.sign, Sign::Ended | Sign::Faulted(_)) {
            return true;
        }
    }
    false
}

/// How far a mark stands beside its event's line: a start beside an end of the same event.
fn shift_of(mark: &EventMark, all: &[EventMark]) -> Tenths {
    if matches!(mark.sign, Sign::Start) && stops_at(mark.event, all) {
        return Tenths(40);
    }
    Tenths(0)
}

/// Where the marks after this one begin.
fn next_left(span: &PanelSpan, event: u32, later: &[EventMark]) -> Tenths {
    for mark in later {
        if mark.event > event {
            return span.x(mark.event) - left_of(mark.sign);
        }
    }
    span.end() + Tenths(200)
}

/// Where the tag of a mark begins.
fn tag_start(span: &PanelSpan, mark: &EventMark, all: &[EventMark]) -> Tenths {
    let x = span.x(mark.event);
    if !matches!(mark.sign, Sign::Priority(_)) {
        return x + right_of(mark.sign) + Tenths(10);
    }
    let mut most = Tenths(0);
    for other in all {
        if other.event == mark.event {
            most = most.or_more(right_of(other.sign));
        }
    }
    x + most + Tenths(20)
}

/// The room that a tag takes.
fn tag_width(text: &[u8]) -> Tenths {
    width(text, TAG) + Tenths(50)
}

/// The text of a mark's tag as it fits between two places, without its first letters where it says what went wrong.
fn fit_tag(sign: Sign, start: Tenths, end: Tenths) -> Option<(Tenths, &'static [u8])> {
    let text = tag_text(sign).as_bytes();
    if text.is_empty() {
        return None;
    }
    if (start + tag_width(text)).is_below(end) {
        return Some((start, text));
    }
    let short = text.get(2..).unwrap_or(&[]);
    (sign.is_wrong() && (start + tag_width(short)).is_below(end)).then_some((start, short))
}

/// A mark at its place among these.
fn placed_mark(
    span: &PanelSpan,
    mark: &EventMark,
    all: &[EventMark],
    later: &[EventMark],
) -> PlacedMark {
    let end = next_left(span, mark.event, later);
    PlacedMark {
        mark: *mark,
        x: span.x(mark.event) + shift_of(mark, all),
        tag: fit_tag(mark.sign, tag_start(span, mark, all), end),
    }
}

/// The marks of a lane at their places. None if columns are narrow.
fn placed_marks(
    scene: &Scene<'_>,
    span: &PanelSpan,
    lane: Lane,
) -> Result<Vec<PlacedMark>, AllocError> {
    let mut placed = Vec::new(scene.alloc);
    if span.is_narrow() {
        return Ok(placed);
    }
    let mine = marks_of(scene, span, lane)?;
    for (index, mark) in mine.iter().enumerate() {
        let later = mine.get(index..).unwrap_or(&[]);
        placed.push(placed_mark(span, mark, &mine, later))?;
    }
    Ok(placed)
}

/// The pixels that a mark takes.
fn taken_by(placed: &PlacedMark) -> TakenPixels {
    let sign = placed.mark.sign;
    TakenPixels {
        from: placed.x - left_of(sign),
        to: placed.x + right_of(sign),
    }
}

/// The pixels that the marks of a lane and their tags take.
pub fn taken_in(
    scene: &Scene<'_>,
    span: &PanelSpan,
    lane: Lane,
) -> Result<Vec<TakenPixels>, AllocError> {
    let mut taken = Vec::new(scene.alloc);
    for placed in &placed_marks(scene, span, lane)? {
        taken.push(taken_by(placed))?;
        if let Some((from, text)) = placed.tag {
            let to = from + tag_width(text);
            taken.push(TakenPixels { from, to })?;
        }
    }
    Ok(taken)
}

fn put_tag(text: &[u8], sign: Sign, from: Tenths, strip: &Strip, out: &mut Canvas) {
    let (frame, words) = if sign.is_wrong() {
        ("eb q", "et q")
    } else {
        ("pb q", "pt q")
    };
    let plate = Rect {
        x: from,
        y: strip.middle(-50),
        wide: tag_width(text),
        high: Tenths(100),
    };
    put_plain_box(Raw(frame), plate, out);
    let place = (from + Tenths(25), strip.middle(30));
    put_text(Raw(words), place, Text(text), out);
}

/// The shape of a mark.
fn put_shape(scene: &Scene<'_>, shape: &str, strip: &Strip, placed: &PlacedMark, out: &mut Canvas) {
    out.raw("<g>");
    put_event_title(scene, placed.mark.event, out);
    out.put(
        "<use href=\"#{}\" x=\"{}\" y=\"{}\"/></g>\n",
        &[Raw(shape), At(placed.x), At(strip.middle(0))],
    );
}

fn put_mark(scene: &Scene<'_>, strip: &Strip, placed: &PlacedMark, out: &mut Canvas) {
    let sign = placed.mark.sign;
    let (shape, _, _) = shape_of(sign);
    if !shape.is_empty() {
        put_shape(scene, shape, strip, placed, out);
    }
    if let Some((from, text)) = placed.tag {
        put_tag(text, sign, from, strip, out);
    }
}

/// The class of a mark's tick where columns are narrow; none if it has no tick.
fn tick_class(sign: Sign) -> Option<&'static str> {
    match sign {
        Sign::Refused(_) | Sign::Faulted(_) => Some("er"),
        Sign::TimedOut | Sign::BrokenOff => Some("am"),
        Sign::Start | Sign::Requested | Sign::Due => Some("mk"),
        _ => None,
    }
}

/// The ticks of one class of marks, as one path.
fn put_ticks(
    span: &PanelSpan,
    strip: &Strip,
    marks: &[EventMark],
    class: &'static str,
    out: &mut Canvas,
) {
    let mut open = false;
    for mark in marks {
        if tick_class(mark.sign) == Some(class) {
            if !open {
                out.put("<path class=\"{} thin q\" d=\"", &[Raw(class)]);
                open = true;
            }
            out.put("M{} {}v7", &[At(span.x(mark.event)), At(strip.y(0))]);
        }
    }
    if open {
        out.raw("\"/>\n");
    }
}

/// The marks of a lane where columns are narrow.
fn put_all_ticks(span: &PanelSpan, strip: &Strip, marks: &[EventMark], out: &mut Canvas) {
    put_ticks(span, strip, marks, "er", out);
    put_ticks(span, strip, marks, "am", out);
    put_ticks(span, strip, marks, "mk", out);
}

/// The marks of a lane. `AllocError` if memory runs out.
pub fn put_marks(row: Row<'_>, out: &mut Canvas) -> Result<(), AllocError> {
    let lane = row.strip.lane;
    if row.span.is_narrow() {
        let marks = marks_of(row.scene, row.span, lane)?;
        put_all_ticks(row.span, row.strip, &marks, out);
        return Ok(());
    }
    for placed in &placed_marks(row.scene, row.span, lane)? {
        put_mark(row.scene, row.strip, placed, out);
    }
    Ok(())
}
