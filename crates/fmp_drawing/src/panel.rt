//! A panel: some events of a run, with their axis and all lanes.
use crate::axis::put_axis;
use crate::buses::{put_object, put_objects_head};
use crate::handlers::put_handler;
use crate::links::put_links;
use crate::picture::MOST_BYTES;
use crate::processors::{put_dispatch, put_lock, put_processor};
use crate::rows::{Panel, Row};
use crate::scene::Scene;
use crate::signs::{put_marks, taken_in};
use crate::strips::{Lane, Strips};
use crate::tasks::put_task;
use crate::times::{axis_top, put_times};
use fmp_base::StateWord;
use fmp_timeline::CanvasPiece::{At, Number, Raw, Text};
use fmp_timeline::{Canvas, PanelSpan, Tenths, bytes_of, px, task_bytes};
use std::alloc::AllocError;

/// The height of an axis.
const AXIS: u32 = 34;

/// The bands behind the heads of the processors' groups.
fn put_bands(panel: Panel<'_>, out: &mut Canvas) {
    out.raw("<path class=\"pband\" d=\"");
    for strip in &panel.strips.strips {
        if strip.lane.is_head() {
            out.put(
                "M0 {}H{}v{}H0z",
                &[At(strip.y(0)), At(panel.span.end()), Number(strip.height)],
            );
        }
    }
    out.raw("\"/>\n");
}

/// A lane of a processor's head or of objects.
fn put_lane_alone(row: Row<'_>, out: &mut Canvas) {
    match row.strip.lane {
        Lane::Processor(processor) => put_processor(row, processor, out),
        Lane::Lock(processor) => put_lock(row, processor, out),
        Lane::Dispatch(processor) => put_dispatch(row, processor, out),
        Lane::ObjectsHead => put_objects_head(row.strip, out),
        Lane::Object(place) => {
            if let Some(object) = row.scene.run.objects.all.get(place) {
                put_object(row, object, out);
            }
        }
        Lane::Handler(_) | Lane::Task(..) | Lane::Gap => {}
    }
}

/// A lane with its boxes and texts. `AllocError` if memory runs out.
fn put_lane(row: Row<'_>, out: &mut Canvas) -> Result<(), AllocError> {
    let taken = taken_in(row.scene, row.span, row.strip.lane)?;
    match row.strip.lane {
        Lane::Handler(handler) => put_handler(row, handler, taken, out),
        Lane::Task(task, processor) => put_task(row, (task, processor), taken, out),
        _ => {
            put_lane_alone(row, out);
            Ok(())
        }
    }
}

/// The wash over the lead, which shows the states that the panel begins with.
fn put_lead(span: &PanelSpan, top: u32, bottom: u32, out: &mut Canvas) {
    if span.first > 0 {
        let (left, lead) = (At(span.page.left()), px(span.page.lead));
        let (top, bottom) = (Number(top), Number(bottom));
        out.put(
            "<path class=\"lead q\" d=\"M{} {}h{}V{}h{}z\"/>\n",
            &[left, top, At(lead), bottom, At(lead.back())],
        );
    }
}

/// The small letters of a state's word.
fn small_word(word: StateWord) -> &'static str {
    match word {
        StateWord::Running => "running",
        StateWord::Ready => "ready",
        StateWord::Waiting => "waiting",
        StateWord::Suspended => "suspended",
        StateWord::WaitingSuspended => "waiting-suspended",
        StateWord::Dormant => "dormant",
    }
}

/// Whether a task is in a state where a panel begins.
fn is_in(panel: Panel<'_>, task: u8, word: StateWord) -> bool {
    if let Some(track) = panel.scene.run.tasks.get(usize::from(task))
        && let Some(shown) = track.at(panel.span.first)
    {
        return shown.word == word;
    }
    false
}

/// How many tasks without a lane are in a state.
fn asleep_in(panel: Panel<'_>, word: StateWord) -> u32 {
    let mut count: u32 = 0;
    for task in &panel.strips.asleep {
        if is_in(panel, *task, word) {
            count = count.saturating_add(1);
        }
    }
    count
}

/// The names of the first four tasks without a lane that are in a state.
fn put_asleep_names(panel: Panel<'_>, word: StateWord, out: &mut Canvas) {
    let mut count: u32 = 0;
    for task in &panel.strips.asleep {
        if count < 4 && is_in(panel, *task, word) {
            out.raw(if count > 0 { ", " } else { "" });
            out.text(task_bytes(panel.scene.sys, *task));
            count = count.saturating_add(1);
        }
    }
}

/// Says how many tasks without a lane are in a state, with the names of the first four. The answer is whether there are
/// any.
fn put_asleep_in(panel: Panel<'_>, word: StateWord, before: &str, out: &mut Canvas) -> bool {
    let count = asleep_in(panel, word);
    if count > 0 {
        let head = [Raw(before), Number(count), Raw(small_word(word))];
        out.put("{}{} {} (", &head);
        put_asleep_names(panel, word, out);
        out.raw(if count > 4 { ", …)" } else { ")" });
    }
    count > 0
}

/// The names of the first four objects without a lane.
fn put_still_names(panel: Panel<'_>, out: &mut Canvas) {
    let mut count: u32 = 0;
    for place in &panel.strips.still {
        if count < 4
            && let Some(object) = panel.scene.run.objects.all.get(*place)
        {
            out.raw(if count > 0 { ", " } else { "" });
            out.text(bytes_of(panel.scene.sys, object.topic));
            count = count.saturating_add(1);
        }
    }
}

/// Says how many objects have no lane, with the names of the first four.
fn put_still(panel: Panel<'_>, before: &str, out: &mut Canvas) {
    let count = u32::try_from(panel.strips.still.len()).unwrap_or(u32::MAX);
    if count > 0 {
        out.put("{}{} object", &[Raw(before), Number(count)]);
        out.raw(if count > 1 { "s (" } else { " (" });
        put_still_names(panel, out);
        out.raw(if count > 4 { ", …)" } else { ")" });
    }
}

/// The line that says which tasks and objects have no lane.
fn put_asleep(panel: Panel<'_>, out: &mut Canvas) {
    let y = At(px(panel.strips.bottom) + Tenths(110));
    out.put(
        "<text class=\"m\" x=\"12\" y=\"{}\">No change and no lane here:",
        &[y],
    );
    let mut before = " ";
    for word in [
        StateWord::Dormant,
        StateWord::Ready,
        StateWord::Suspended,
        StateWord::Waiting,
        StateWord::WaitingSuspended,
    ] {
        if put_asleep_in(panel, word, before, out) {
            before = "; ";
        }
    }
    put_still(panel, before, out);
    out.raw("</text>\n");
}

/// The lanes of a panel, until they are too large. `AllocError` if memory runs out.
fn put_lanes(panel: Panel<'_>, out: &mut Canvas) -> Result<(), AllocError> {
    for strip in &panel.strips.strips {
        if out.len() <= MOST_BYTES {
            put_lane(panel.row(strip), out)?;
        }
    }
    Ok(())
}

/// The marks of all lanes. `AllocError` if memory runs out.
fn put_all_marks(panel: Panel<'_>, out: &mut Canvas) -> Result<(), AllocError> {
    for strip in &panel.strips.strips {
        put_marks(panel.row(strip), out)?;
    }
    Ok(())
}

/// The bands, the axis and the lanes of a panel that begins at this height, until they are too large. `AllocError` if
/// memory runs out.
fn put_ground(panel: Panel<'_>, top: u32, out: &mut Canvas) -> Result<(), AllocError> {
    let (first, last) = (Number(panel.span.first), Number(panel.span.last));
    out.put(
        "<g id=\"e{}\" role=\"group\" aria-label=\"Events {} to {}\">\n",
        &[first, first, last],
    );
    put_bands(panel, out);
    put_times(panel.scene, panel.span, px(top), out);
    let ends = (px(axis_top(panel.scene, top)), px(panel.strips.bottom));
    put_axis(panel.scene, panel.span, ends, out);
    put_lanes(panel, out)
}

/// What stands above the lanes of a panel that begins at this height. `AllocError` if memory runs out.
fn put_cover(panel: Panel<'_>, top: u32, out: &mut Canvas) -> Result<(), AllocError> {
    let lanes = axis_top(panel.scene, top).saturating_add(AXIS);
    put_lead(panel.span, lanes, panel.strips.bottom, out);
    put_links(panel, out);
    out.settle();
    put_all_marks(panel, out)?;
    if panel.strips.leaves_out() {
        put_asleep(panel, out);
    }
    out.raw("</g>\n");
    Ok(())
}

/// A panel that begins at this height, or a beginning of it that is too large. `AllocError` if memory runs out.
fn put_rows(panel: Panel<'_>, top: u32, out: &mut Canvas) -> Result<(), AllocError> {
    put_ground(panel, top, out)?;
    if out.len() > MOST_BYTES {
        return Ok(());
    }
    put_cover(panel, top, out)
}

/// The lanes of a panel that begins at this height.
fn rows_of(scene: &Scene<'_>, span: &PanelSpan, top: u32) -> Result<Strips, AllocError> {
    let lanes = axis_top(scene, top).saturating_add(AXIS);
    Strips::new(scene.alloc, scene.sys, scene.run, span, lanes)
}

/// The lower end of a panel that begins at this height.
pub fn panel_bottom(scene: &Scene<'_>, span: &PanelSpan, top: u32) -> Result<u32, AllocError> {
    Ok(rows_of(scene, span, top)?.end())
}

/// A panel that begins at this height, or a beginning of it that is too large: its lower end.
pub fn put_panel(
    scene: &Scene<'_>,
    span: &PanelSpan,
    top: u32,
    out: &mut Canvas,
) -> Result<u32, AllocError> {
    let strips = rows_of(scene, span, top)?;
    let panel = Panel {
        scene,
        span,
        strips: &strips,
    };
    put_rows(panel, top, out)?;
    Ok(strips.end())
}
