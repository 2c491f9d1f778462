//! The legend.
use crate::scene::Scene;
use crate::shapes::{put_number, put_text};
use fmp_timeline::CanvasPiece::{At, Number, Raw, Text};
use fmp_timeline::{Canvas, Tenths, px, task_bytes, width};

/// A shape, what it means, and how wide it is in pixels.
struct LegendItem(&'static str, &'static str, u32);

/// The states of tasks.
static TASK: [LegendItem; 10] = [
    LegendItem(
        "<path class=\"c0 f\" d=\"M0-7h26v14h-26z\"/>",
        "running",
        26,
    ),
    LegendItem(
        "<path class=\"c0 f\" d=\"M0-7h26v14h-26z\"/><path class=\"over\" d=\"M0-7h26v14h-26z\"/>",
        "running, under a handler",
        26,
    ),
    LegendItem(
        "<path class=\"c0 y\" d=\"M.5-2.5h25v9h-25z\"/>",
        "ready",
        26,
    ),
    LegendItem(
        "<path class=\"w\" d=\"M.5-5.5h38v11h-38z\"/><text class=\"wt c\" x=\"19\" y=\"3\">SEM ≤9</text>",
        "waiting, until clock 9",
        39,
    ),
    LegendItem(
        "<path class=\"w\" d=\"M.5-5.5h34v11h-34z\"/><text class=\"wt c\" x=\"17\" y=\"3\">→DTQ</text>",
        "to send",
        35,
    ),
    LegendItem(
        "<path class=\"w\" d=\"M.5-5.5h34v11h-34z\"/><text class=\"wt c\" x=\"17\" y=\"3\">←DTQ</text>",
        "to receive",
        35,
    ),
    LegendItem(
        "<path class=\"s\" d=\"M.5-5.5h25v11h-25z\"/>",
        "suspended",
        26,
    ),
    LegendItem(
        "<path class=\"w\" d=\"M.5-5.5h25v11h-25z\"/><path class=\"ws\" d=\"M1 1.5h24v4h-24z\"/>",
        "waiting and suspended",
        26,
    ),
    LegendItem("<path class=\"dorm\" d=\"M0 .5h26\"/>", "dormant", 26),
    LegendItem(
        "<path class=\"away\" d=\"M0 .5h26\"/>",
        "on another processor",
        26,
    ),
];

/// A task beyond the eighth.
static HATCHED: LegendItem = LegendItem(
    "<path class=\"c0 f\" d=\"M0-7h26v14h-26z\"/><path class=\"x1w\" d=\"M0-7h26v14h-26z\"/>",
    "running, one of the tasks 9 to 16 from above",
    26,
);

/// With more tasks than this, the legend does not list them.
const MANY_TASKS: usize = 32;

/// What processors and handlers show.
static PROCESSOR: [LegendItem; 5] = [
    LegendItem(
        "<path class=\"hr\" d=\"M.5-5.5h25v11h-25z\"/>",
        "handler runs",
        26,
    ),
    LegendItem(
        "<path class=\"hp\" d=\"M.5-4.5h25v9h-25z\"/>",
        "handler pending",
        26,
    ),
    LegendItem(
        "<path class=\"lc\" d=\"M0-5h26v10h-26z\"/>",
        "CPU lock or spin lock held",
        26,
    ),
    LegendItem(
        "<path class=\"spb\" d=\"M.5-4.5h25v9h-25z\"/>",
        "spinning for a lock",
        26,
    ),
    LegendItem(
        "<path class=\"ld\" d=\"M0-5h26v10h-26z\"/>",
        "dispatch disabled",
        26,
    ),
];

/// What objects show.
static OBJECT: LegendItem = LegendItem(
    "<path class=\"b\" d=\"M0 0l2.5-5.5h21l2.5 5.5l-2.5 5.5h-21z\"/><path class=\"bq\" d=\"M2 3H24v3H2z\"/>",
    "object, tasks wait for it",
    26,
);

/// The marks.
static MARKS: [LegendItem; 14] = [
    LegendItem("<use href=\"#act\" x=\"6\"/>", "start", 12),
    LegendItem("<use href=\"#queued\" x=\"6\"/>", "activation queued", 12),
    LegendItem("<use href=\"#rel\" x=\"6\"/>", "released", 12),
    LegendItem("<use href=\"#wup\" x=\"6\"/>", "wakeup queued", 12),
    LegendItem("<use href=\"#tmo\" x=\"6\"/>", "timed out", 12),
    LegendItem(
        "<use href=\"#rlw\" x=\"6\"/>",
        "wait broken off (E_RLWAI)",
        12,
    ),
    LegendItem("<use href=\"#poll\" x=\"6\"/>", "polling failed", 12),
    LegendItem("<use href=\"#refused\" x=\"6\"/>", "refused", 12),
    LegendItem("<use href=\"#fault\" x=\"6\"/>", "fault", 12),
    LegendItem("<use href=\"#end\" x=\"6\"/>", "end", 12),
    LegendItem("<use href=\"#ter\" x=\"6\"/>", "terminated", 12),
    LegendItem("<use href=\"#int\" x=\"6\"/>", "interrupt", 12),
    LegendItem("<use href=\"#due\" x=\"6\"/>", "cyclic handler due", 12),
    LegendItem(
        "<use href=\"#kept\" x=\"6\" y=\"-7\"/>",
        "stretch cut short",
        12,
    ),
];

/// Where the items of a line begin.
const ITEMS: u32 = 74;

/// An item at its place.
fn put_item(item: &LegendItem, x: Tenths, y: u32, out: &mut Canvas) {
    let wide = Number(item.2.saturating_add(5));
    out.put(
        "<g transform=\"translate({} {})\">{}<text x=\"{}\" y=\"3\">{}</text></g>\n",
        &[At(x), Number(y), Raw(item.0), wide, Raw(item.1)],
    );
}

/// Where the next item stands, and the height of its line.
#[derive(Clone, Copy)]
struct LegendPen {
    x: Tenths,
    y: u32,
}

impl LegendPen {
    /// The beginning of a line of items with this head.
    fn new(head: &str, y: u32, out: &mut Canvas) -> LegendPen {
        let place = (Tenths(120), px(y.saturating_add(3)));
        put_text(Raw("m k"), place, Raw(head), out);
        LegendPen { x: px(ITEMS), y }
    }

    /// Begins a new line where this one has no room for something so wide.
    fn make_room(&mut self, scene: &Scene<'_>, wide: Tenths) {
        if (px(scene.page.wide) - Tenths(200)).is_below(self.x + wide) {
            self.x = px(ITEMS);
            self.y = self.below();
        }
    }

    /// An item, in a new line where it does not fit into this one.
    fn put(&mut self, scene: &Scene<'_>, item: &LegendItem, out: &mut Canvas) {
        let wide = px(item.2) + width(item.1.as_bytes(), Tenths(90));
        self.make_room(scene, wide);
        put_item(item, self.x, self.y, out);
        self.x = self.x + wide + Tenths(200);
    }

    /// These items.
    fn put_all(&mut self, scene: &Scene<'_>, items: &[LegendItem], out: &mut Canvas) {
        for item in items {
            self.put(scene, item, out);
        }
    }

    /// A task: its number in its colour, and its name.
    fn put_task(&mut self, scene: &Scene<'_>, task: u8, out: &mut Canvas) {
        let name = task_bytes(scene.sys, task);
        let wide = width(name, Tenths(90)) + Tenths(230);
        self.make_room(scene, wide);
        let corner = (self.x, px(self.y) - Tenths(55));
        put_number(scene, corner, task, out);
        let place = (self.x + Tenths(230), px(self.y.saturating_add(3)));
        put_text(Raw("l"), place, Text(name), out);
        self.x = self.x + wide + Tenths(160);
    }

    /// The height below the line.
    fn below(&self) -> u32 {
        self.y.saturating_add(20)
    }
}

/// A line of all tasks, if their numbers stand in the picture and they are few: the height below it.
fn put_tasks(scene: &Scene<'_>, top: u32, out: &mut Canvas) -> u32 {
    let count = scene.looks.len();
    if !scene.is_numbered() || count > MANY_TASKS {
        return top;
    }
    let mut pen = LegendPen::new("Tasks", top, out);
    for task in 0..count.min(MANY_TASKS) as u8 {
        pen.put_task(scene, task, out);
    }
    pen.below()
}

/// The legend from this height on: the height below it.
pub fn put_legend(scene: &Scene<'_>, top: u32, out: &mut Canvas) -> u32 {
    out.raw("<g role=\"group\" aria-label=\"Legend\">\n");
    let mut pen = LegendPen::new("Task", top, out);
    pen.put_all(scene, &TASK, out);
    if scene.is_numbered() {
        pen.put(scene, &HATCHED, out);
    }
    let mut pen = LegendPen::new("Processor", pen.below(), out);
    pen.put_all(scene, &PROCESSOR, out);
    if !scene.run.objects.all.is_empty() {
        pen.put(scene, &OBJECT, out);
    }
    let mut pen = LegendPen::new("Marks", pen.below(), out);
    pen.put_all(scene, &MARKS, out);
    let below = put_tasks(scene, pen.below(), out);
    out.settle();
    out.raw("</g>\n");
    below
}
