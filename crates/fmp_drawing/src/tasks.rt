//! Lanes of tasks.
ghost use Rattle.std.specs.Prelude.{◌≡◌, false, slice_get};
ghost use Rattle.fmp_drawing.specs.Tasks as spec;
ghost use Rattle.fmp_timeline.specs.Canvases.{Adds};

use crate::calls::put_calls;
use crate::rows::{GutterName, NAME, Row, put_name, put_side};
use crate::scene::{Scene, TakenPixels};
use crate::shapes::{Rect, colour_class, put_box, put_hatch, put_number, put_plain_box, put_text};
use crate::strips::Strip;
use crate::titles::put_title_with;
use crate::waits::{LanePart, WaitText, append_wait, put_wait_text};
use fmp_base::{Caller, StateWord, TaskConfig};
use fmp_timeline::CanvasPiece::{At, Label, Number, Raw, Text};
use fmp_timeline::{
    BarLook, Canvas, SpinSpan, Stay, TaskShown, Tenths, append_handler, deed_words, task_bytes,
    width,
};
use std::alloc::AllocError;

/// The size of the texts at the right end of the gutter.
const SMALL: Tenths = Tenths(90);

/// The lane of a task on a processor, beside the pixels of it that its marks take.
#[derive(Clone, Copy)]
struct TaskRow<'a> {
    row: Row<'a>,
    task: u8,
    processor: u8,
    look: BarLook,
    taken: &'a [TakenPixels],
}

/// Appends the priority of a task on its first processor, or where a guest comes from.
fn append_side(config: &TaskConfig, processor: u8, text: &mut Canvas)
    ensures { Adds text.old text.new (spec.origin_text config.now processor) }
{
    if config.processor == processor {
        text.numbered("pri ", u32::from(config.priority), "");
    } else {
        let home = u32::from(config.processor).saturating_add(1);
        text.numbered("from p", home, "");
    }
}

/// What stands at the right end of the gutter: the priority, or where a guest comes from.
fn side_text(scene: &Scene<'_>, task: u8, processor: u8) -> Canvas
    ensures { result.is_cut ≡ false
        → result.bytes.items ≡ spec.side_text (slice_get scene.now.sys.now.tasks.items task) processor }
{
    let mut text = Canvas::new(scene.alloc);
    if let Some(config) = scene.sys.tasks.get(usize::from(task)) {
        append_side(config, processor, &mut text);
    }
    text
}

/// The small square of a task's colour: full on its first processor, and otherwise pale.
fn put_square(strip: &Strip, look: BarLook, home: bool, out: &mut Canvas) {
    let (shade, x, lower, side) = if home {
        (" f", 160, -40, Tenths(80))
    } else {
        (" y", 165, -35, Tenths(70))
    };
    let square = Rect {
        x: Tenths(x),
        y: strip.middle(lower),
        wide: side,
        high: side,
    };
    put_plain_box(colour_class("c", look, shade), square, out);
}

/// The number of a task that is a guest on its lane's processor, in a pale box of its colour.
fn put_guest(strip: &Strip, task: u8, look: BarLook, out: &mut Canvas) {
    let rect = Rect {
        x: Tenths(85),
        y: strip.middle(-50),
        wide: Tenths(170),
        high: Tenths(100),
    };
    put_plain_box(colour_class("c", look, " y"), rect, out);
    let number = Number(u32::from(task).saturating_add(1));
    put_text(Raw("s7 c"), (Tenths(170), strip.middle(30)), number, out);
}

/// The mark of a task's colour before its name, with its number where there are more tasks than colours.
fn put_colour(row: Row<'_>, task: u8, home: bool, out: &mut Canvas) {
    let look = row.scene.look(task);
    match (row.scene.is_numbered(), home) {
        (false, _) => put_square(row.strip, look, home, out),
        (true, true) => put_number(row.scene, (Tenths(80), row.strip.middle(-55)), task, out),
        (true, false) => put_guest(row.strip, task, look, out),
    }
}

/// Whether a processor is the first one of a task.
fn is_home(scene: &Scene<'_>, task: u8, processor: u8) -> bool
    ensures { result ≡ spec.is_home (slice_get scene.now.sys.now.tasks.items task) processor }
{
    match scene.sys.tasks.get(usize::from(task)) {
        Some(config) => config.processor == processor,
        None => false,
    }
}

/// The name, the colour and the priority of a task at the left of its lane.
fn put_gutter(row: Row<'_>, task: u8, processor: u8, out: &mut Canvas) {
    let name = task_bytes(row.scene.sys, task);
    let home = is_home(row.scene, task, processor);
    let number = Number(u32::from(processor).saturating_add(1));
    out.put(
        "<g role=\"group\" aria-label=\"Task {} on processor {}\">",
        &[Text(name), number],
    );
    put_colour(row, task, home, out);
    let side = side_text(row.scene, task, processor);
    let gutter = GutterName {
        text: Text(name),
        wide: width(name, NAME),
        room: row.scene.page.left() - Tenths(440) - side.width(SMALL),
        faint: !home,
    };
    put_name(row.strip, gutter, out);
    put_side(row.scene, row.strip, Label(&side), out);
}

/// Appends the head of a state's title: the task, its state, what it waits for, the handler over it.
fn append_head(scene: &Scene<'_>, task: u8, shown: &TaskShown, head: &mut Canvas) {
    head.plain(task_bytes(scene.sys, task));
    head.raw(" ");
    head.raw(shown.word.name());
    if shown.wait.is_some() {
        head.raw(" ");
        let whole = WaitText {
            shown,
            letters: None,
            until: true,
        };
        append_wait(scene, whole, head);
    }
    if let Some(handler) = shown.under {
        head.raw(" under ");
        append_handler(scene.sys, handler, "#", head);
    }
}

/// Appends a line on a wait: for what, until when, since which event, and who acted last on what it is for.
fn append_told(scene: &Scene<'_>, task: u8, stay: &Stay<TaskShown>, text: &mut Canvas) {
    let (Some(cause), Some(told)) = (stay.state.wait, scene.run.waits.told(task, stay)) else {
        return;
    };
    text.raw("\n");
    text.plain(task_bytes(scene.sys, task));
    text.raw(" waits ");
    text.wait(scene.sys, cause, stay.state.deadline);
    text.numbered(", since event ", told.since, "");
    if let Some(deed) = told.deed {
        text.raw(deed_words(cause));
        text.caller(scene.sys, deed.actor);
        text.numbered(" at event ", deed.event, "");
    }
}

/// The end of a state's path with its title: its head, the processor, since when, and what is told of a wait.
fn put_task_title(scene: &Scene<'_>, task: u8, stay: &Stay<TaskShown>, out: &mut Canvas) {
    let mut head = Canvas::new(scene.alloc);
    append_head(scene, task, &stay.state, &mut head);
    let mut more = Canvas::new(scene.alloc);
    append_told(scene, task, stay, &mut more);
    let processor = Number(u32::from(stay.state.processor).saturating_add(1));
    let values = [Label(&head), processor];
    put_title_with(scene, ("{}, p{}", &values), Label(&more), stay, out);
}

/// The hatch of a task that waits and is suspended, at the foot of its frame.
fn put_suspension(row: Row<'_>, stay: &Stay<TaskShown>, out: &mut Canvas) {
    let frame = row.stay_box(stay, 145, 40);
    let foot = Rect {
        x: frame.x + Tenths(10),
        wide: frame.wide - Tenths(20),
        ..frame
    };
    put_box(Raw("ws q"), foot, out);
    out.raw("/>\n");
}

/// A wait: its frame, and its text where it fits.
fn put_wait(lane: TaskRow<'_>, stay: &Stay<TaskShown>, out: &mut Canvas) {
    let row = lane.row;
    put_box(Raw("w"), row.stay_box(stay, 55, 130).framed(), out);
    put_task_title(row.scene, lane.task, stay, out);
    let style = if stay.state.word == StateWord::WaitingSuspended {
        put_suspension(row, stay, out);
        ("wt q s7", row.strip.y(130))
    } else {
        ("wt q", row.strip.y(150))
    };
    let part = LanePart {
        row,
        taken: lane.taken,
        ends: (row.span.box_left(stay), row.span.box_right(stay)),
    };
    put_wait_text(part, style, &stay.state, out);
}

/// The full box of a task that runs, with what lies over it.
fn put_running(lane: TaskRow<'_>, stay: &Stay<TaskShown>, out: &mut Canvas) {
    let rect = lane.row.stay_box(stay, 30, 160);
    put_box(colour_class("c", lane.look, " f"), rect, out);
    put_task_title(lane.row.scene, lane.task, stay, out);
    put_hatch(lane.look, rect, out);
    if stay.state.under.is_some() {
        put_box(Raw("over q"), rect, out);
        out.raw("/>\n");
    }
    if stay.state.held {
        put_box(Raw("hold q"), rect, out);
        out.raw("/>\n");
    }
}

/// A state of a task that neither runs nor waits.
fn put_rest(lane: TaskRow<'_>, stay: &Stay<TaskShown>, out: &mut Canvas) {
    let row = lane.row;
    match stay.state.word {
        StateWord::Ready => {
            let class = colour_class("c", lane.look, " y");
            put_box(class, row.stay_box(stay, 95, 90).framed(), out);
        }
        StateWord::Suspended => {
            put_box(Raw("s"), row.stay_box(stay, 55, 130).framed(), out);
        }
        _ => row.put_stay_line("dorm", stay, 5, out),
    }
    put_task_title(row.scene, lane.task, stay, out);
}

/// A state of a task on this processor.
fn put_state(lane: TaskRow<'_>, stay: &Stay<TaskShown>, out: &mut Canvas) {
    match stay.state.word {
        StateWord::Waiting | StateWord::WaitingSuspended => put_wait(lane, stay, out),
        StateWord::Running => put_running(lane, stay, out),
        StateWord::Suspended if stay.state.held => put_running(lane, stay, out),
        _ => put_rest(lane, stay, out),
    }
}

/// A state of a task: on this processor or on another.
fn put_stay(lane: TaskRow<'_>, stay: &Stay<TaskShown>, out: &mut Canvas) {
    if stay.state.processor == lane.processor {
        return put_state(lane, stay, out);
    }
    lane.row.put_stay_line("away", stay, 5, out);
    out.raw("/>\n");
}

/// The states of a task in its lane on a processor.
fn put_stays(lane: TaskRow<'_>, out: &mut Canvas) {
    let row = lane.row;
    if let Some(track) = row.scene.run.tasks.get(usize::from(lane.task)) {
        for place in track.places(row.span.first, row.span.last) {
            if let Some(stay) = track.stay(place) {
                put_stay(lane, &stay, out);
            }
        }
    }
}

/// The zigzags of one span along the foot of a task that spins.
fn put_zigzags(row: Row<'_>, look: BarLook, spin: &Stay<SpinSpan>, out: &mut Canvas) {
    let rect = row.stay_box(spin, 180, 0);
    let count = u32::try_from((rect.wide - Tenths(20)).0).unwrap_or(0) / 40;
    out.numbered("<path class=\"g", u32::from(look.colour), " q\" d=\"");
    for step in 0..count.min(5000) {
        let x = rect.x + Tenths(10) + Tenths(40).times(step);
        out.put("M{} {}l2-3l2 3", &[At(x), At(rect.y)]);
    }
    out.raw("\"/>\n");
}

/// The zigzags along the foot of a task that spins.
fn put_spins(lane: TaskRow<'_>, out: &mut Canvas) {
    let spins = &lane.row.scene.run.spins;
    for place in spins.places() {
        if let Some(spin) = spins.stay(place, lane.processor, lane.row.span)
            && spin.state.actor == Caller::Task(lane.task)
        {
            put_zigzags(lane.row, lane.look, &spin, out);
        }
    }
}

/// What a lane shows of its task.
fn put_contents(lane: TaskRow<'_>, out: &mut Canvas) {
    put_gutter(lane.row, lane.task, lane.processor, out);
    put_stays(lane, out);
    put_spins(lane, out);
}

/// The lane of a task on a processor, beside these pixels of its marks. `AllocError` if memory runs out.
pub fn put_task(
    row: Row<'_>,
    (task, processor): (u8, u8),
    taken: Vec<TakenPixels>,
    out: &mut Canvas,
) -> Result<(), AllocError> {
    let lane = TaskRow {
        row,
        task,
        processor,
        look: row.scene.look(task),
        taken: &taken,
    };
    put_contents(lane, out);
    put_calls(row, taken, out)?;
    out.raw("</g>\n");
    Ok(())
}
