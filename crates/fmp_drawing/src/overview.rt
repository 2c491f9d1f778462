//! The overview over a long run: what ran most in each part of it, and a link for each panel.
ghost use Rattle.std.specs.Prelude.{◌≡◌, ◌+◌, ◌*◌, min};
ghost use Rattle.fmp_drawing.specs.Overviews as spec;
ghost use Rattle.fmp_timeline.specs.Shown.{actor_of};

use crate::scene::Scene;
use crate::shapes::{hatch_of, put_label_in, put_line, put_text};
use fmp_timeline::CanvasPiece::{At, Number, Raw};
use fmp_timeline::{Canvas, Occupant, Tenths, number_width, px};
use std::alloc::AllocError;

/// What most events of a part show: a task at its place, a handler, or nothing.
const KINDS: usize = 257;

const HANDLER: usize = 255;

const IDLE: usize = 256;

/// The parts of the run that have one look each.
#[derive(Clone, Copy)]
struct Bins {
    events: u32,
    bins: u32,
    left: Tenths,
    /// The width of all, in pixels.
    wide: u32,
}

/// A number times a fraction.
#[tactic(auto, using(crate::proofs::Products::small_product))]
fn part(number: u32, count: u32, of: u32) -> u32
    ensures { result ≡ spec.part number count of }
{
    let whole = u64::from(number).saturating_mul(u64::from(count));
    let part = whole.checked_div(u64::from(of)).unwrap_or(0);
    u32::try_from(part).unwrap_or(u32::MAX)
}

impl Bins {
    fn new(scene: &Scene<'_>) -> Bins
        ensures { result ≡ spec.bins_of scene.now.page scene.now.run.now }
    {
        let page = &scene.page;
        let events = scene.run.next_event();
        let wide = page.wide.saturating_sub(page.gutter).saturating_sub(26);
        Bins {
            events,
            bins: events.min(wide / 2),
            left: page.left(),
            wide,
        }
    }

    /// The first event of a part.
    fn start(&self, bin: u32) -> u32
        ensures { result ≡ spec.start_of self.now bin }
    {
        part(self.events, bin, self.bins)
    }

    /// Where a part begins.
    fn x(&self, bin: u32) -> Tenths
        ensures { result ≡ spec.x_at self.now bin self.now.bins }
    {
        self.left + Tenths(1).times(part(self.wide.saturating_mul(10), bin, self.bins))
    }

    /// Where an event stands.
    fn event_x(&self, event: u32) -> Tenths
        ensures { result ≡ spec.x_at self.now event self.now.events }
    {
        self.left + Tenths(1).times(part(self.wide.saturating_mul(10), event, self.events))
    }
}

/// The kind of what a processor does.
fn kind_of(occupant: Occupant) -> usize
    ensures { result ≡ spec.kind_of (actor_of occupant) }
{
    match (occupant.handler, occupant.task) {
        (Some(_), _) => HANDLER,
        (None, Some(task)) => usize::from(task),
        (None, None) => IDLE,
    }
}

/// How many events of a part each kind has on a processor.
fn counts_in(scene: &Scene<'_>, processor: u8, first: u32, end: u32) -> [u32; KINDS] {
    let mut counts = [0u32; KINDS];
    let Some(track) = scene.run.occupants.get(usize::from(processor)) else {
        return counts;
    };
    for place in track.places(first, end.saturating_sub(1)) {
        if let Some(stay) = track.stay(place)
            && let Some(count) = counts.get_mut(kind_of(stay.state))
        {
            let to = stay.to.unwrap_or(end).min(end);
            *count = count.saturating_add(to.saturating_sub(stay.from.max(first)));
        }
    }
    counts
}

/// The kind that most events of a part have on a processor.
fn most_in(scene: &Scene<'_>, processor: u8, first: u32, end: u32) -> usize {
    let mut best = IDLE;
    let mut most = 0;
    for (kind, count) in counts_in(scene, processor, first, end).iter().enumerate() {
        if *count > most {
            best = kind;
            most = *count;
        }
    }
    best
}

/// The kinds of all parts on a processor.
fn kinds_of(scene: &Scene<'_>, bins: &Bins, processor: u8) -> Result<Vec<usize>, AllocError> {
    let mut kinds = Vec::new(scene.alloc);
    for bin in 0..bins.bins {
        let end = bins.start(bin.saturating_add(1));
        kinds.push(most_in(scene, processor, bins.start(bin), end))?;
    }
    Ok(kinds)
}

/// Neighbouring parts of one kind, from one up to another.
#[derive(Clone, Copy)]
struct PartRange {
    from: u32,
    to: u32,
}

/// All stretches of a kind.
fn stretches_of(
    scene: &Scene<'_>,
    bins: &Bins,
    kinds: &[usize],
    kind: usize,
) -> Result<Vec<PartRange>, AllocError> {
    let mut all = Vec::new(scene.alloc);
    let mut from: Option<u32> = None;
    for bin in 0..=bins.bins {
        let is_kind = kinds.get(bin as usize) == Some(&kind);
        match from {
            None if is_kind => from = Some(bin),
            Some(start) if !is_kind => {
                all.push(PartRange {
                    from: start,
                    to: bin,
                })?;
                from = None;
            }
            _ => {}
        }
    }
    Ok(all)
}

/// The strip of a processor, which begins at this height.
#[derive(Clone, Copy)]
struct OverviewStrip<'a> {
    scene: &'a Scene<'a>,
    bins: &'a Bins,
    y: u32,
}

/// Stretches as the boxes of a path, after its class.
fn put_boxes(strip: OverviewStrip<'_>, stretches: &[PartRange], out: &mut Canvas) {
    out.raw("\" d=\"");
    let y = Number(strip.y);
    for stretch in stretches {
        let x = strip.bins.x(stretch.from);
        let wide = strip.bins.x(stretch.to) - x;
        out.put("M{} {}h{}v10h{}z", &[At(x), y, At(wide), At(wide.back())]);
    }
    out.raw("\"/>\n");
}

/// The number of a task in those of its stretches that have room for it.
fn put_numbers(strip: OverviewStrip<'_>, stretches: &[PartRange], task: u8, out: &mut Canvas) {
    let number = u32::from(task).saturating_add(1);
    let need = number_width(number, Tenths(80)) + Tenths(20);
    let y = px(strip.y.saturating_add(8));
    let look = strip.scene.look(task);
    for stretch in stretches {
        let left = strip.bins.x(stretch.from);
        let wide = strip.bins.x(stretch.to) - left;
        if need.is_below(wide) {
            let place = (left + wide.half(), y);
            put_label_in(look, "s7 c", place, Number(number), out);
        }
    }
}

/// The stretches of a task: in its colour, with its hatch, and with its number where there are more tasks than colours.
fn put_task(strip: OverviewStrip<'_>, stretches: &[PartRange], task: u8, out: &mut Canvas) {
    let look = strip.scene.look(task);
    out.numbered("<path class=\"c", u32::from(look.colour), " f");
    put_boxes(strip, stretches, out);
    if let Some((number, letter)) = hatch_of(look) {
        out.put("<path class=\"x{}{}", &[Number(number), Raw(letter)]);
        put_boxes(strip, stretches, out);
    }
    if strip.scene.is_numbered() {
        put_numbers(strip, stretches, task, out);
    }
}

/// The stretches of a kind.
fn put_kind(
    strip: OverviewStrip<'_>,
    kinds: &[usize],
    kind: usize,
    out: &mut Canvas,
) -> Result<(), AllocError> {
    let stretches = stretches_of(strip.scene, strip.bins, kinds, kind)?;
    match u8::try_from(kind) {
        Ok(task) if kind < HANDLER => put_task(strip, &stretches, task, out),
        _ => {
            out.raw("<path class=\"hov");
            put_boxes(strip, &stretches, out);
        }
    }
    Ok(())
}

/// The number of a processor at its strip, and the line of the strip.
fn put_strip_head(bins: &Bins, processor: u8, y: u32, out: &mut Canvas) {
    let number = Number(u32::from(processor).saturating_add(1));
    let (x, foot) = (At(bins.left - Tenths(80)), Number(y.saturating_add(8)));
    out.put(
        "<text class=\"m e\" x=\"{}\" y=\"{}\">p{}</text>",
        &[x, foot, number],
    );
    let start = (bins.left, px(y.saturating_add(5)));
    put_line("i", start, px(bins.wide), out);
    out.raw("/>\n");
}

/// The strip of a processor. `AllocError` if memory runs out.
fn put_strip(
    scene: &Scene<'_>,
    bins: &Bins,
    processor: u8,
    y: u32,
    out: &mut Canvas,
) -> Result<(), AllocError> {
    put_strip_head(bins, processor, y, out);
    let kinds = kinds_of(scene, bins, processor)?;
    let strip = OverviewStrip { scene, bins, y };
    for kind in 0..IDLE {
        if kinds.contains(&kind) {
            put_kind(strip, &kinds, kind, out)?;
        }
    }
    out.settle();
    Ok(())
}

/// A red stroke, as high as the share of these in the events of a part.
fn put_stroke(bins: &Bins, bin: u32, count: u32, y: u32, out: &mut Canvas) {
    let next = bin.saturating_add(1);
    let share = part(80, count, bins.start(next).saturating_sub(bins.start(bin)));
    let x = bins.x(bin) + (bins.x(next) - bins.x(bin)).half();
    let high = Tenths(15) + Tenths(1).times(share);
    out.put("M{} {}v{}", &[At(x), Number(y), At(high.back())]);
}

/// How many of these events are before this one.
fn count_before(events: &[u32], end: u32) -> usize {
    events.partition_point(|event| *event < end)
}

/// Red strokes, as high as the share of a part's events that were refused or at fault.
fn put_wrong(scene: &Scene<'_>, bins: &Bins, y: u32, out: &mut Canvas) {
    let wrong = scene.run.wrong.as_slice();
    out.raw("<path class=\"er thin\" d=\"");
    let mut before = count_before(wrong, bins.start(0));
    for bin in 0..bins.bins {
        let after = count_before(wrong, bins.start(bin.saturating_add(1)));
        let count = u32::try_from(after.saturating_sub(before)).unwrap_or(0);
        if count > 0 {
            put_stroke(bins, bin, count, y, out);
        }
        before = after;
    }
    out.raw("\"/>\n");
}

/// The number of the first event of a panel in its frame, where it fits.
fn put_frame_number(first: u32, (left, right): (Tenths, Tenths), bottom: u32, out: &mut Canvas) {
    if !(right - left).is_below(Tenths(360)) {
        let (x, y) = (At(left + Tenths(30)), Number(bottom.saturating_sub(3)));
        out.put(
            "<text class=\"m\" x=\"{}\" y=\"{}\">{}</text>",
            &[x, y, Number(first)],
        );
    }
}

/// The frame of a panel, which is a link.
fn put_frame(bins: &Bins, (first, last): (u32, u32), (top, bottom): (u32, u32), out: &mut Canvas) {
    let left = bins.event_x(first);
    let right = bins
        .event_x(last.saturating_add(1))
        .or_more(left + Tenths(20));
    let events = [Number(first), Number(first), Number(last)];
    out.put("<a href=\"#e{}\" aria-label=\"Events {} to {}\">", &events);
    let (x, upper, lower) = (At(left), Number(top), Number(bottom));
    out.put(
        "<path class=\"pl\" d=\"M{} {}H{}V{}H{}z\"><title>events {} to {}</title></path>",
        &[x, upper, At(right), lower, x, Number(first), Number(last)],
    );
    put_frame_number(first, (left, right), bottom, out);
    out.raw("</a>\n");
}

/// The frames of the panels.
fn put_frames(scene: &Scene<'_>, bins: &Bins, ends: (u32, u32), out: &mut Canvas) {
    for panel in 0..scene.page.panels {
        let first = scene.page.panel_start(panel);
        put_frame(bins, (first, scene.page.panel_end(first)), ends, out);
    }
}

/// The overview from this height on, if there is one: the height below it. `AllocError` if memory runs out.
pub fn put_overview(scene: &Scene<'_>, top: u32, out: &mut Canvas) -> Result<u32, AllocError> {
    if !scene.has_overview() {
        return Ok(top);
    }
    let y = top.saturating_add(6);
    let bins = Bins::new(scene);
    out.raw("<g role=\"group\" aria-label=\"Overview, with a link for each panel\">\n");
    let place = (Tenths(120), px(y.saturating_add(9)));
    put_text(Raw("pn"), place, Raw("Overview"), out);
    let mut strip = y.saturating_add(8);
    for processor in 0..scene.sys.processors {
        put_strip(scene, &bins, processor, strip, out)?;
        strip = strip.saturating_add(12);
    }
    put_wrong(scene, &bins, y.saturating_add(7), out);
    let ends = (y.saturating_sub(2), strip.saturating_add(12));
    put_frames(scene, &bins, ends, out);
    out.raw("</g>\n");
    Ok(strip.saturating_add(24))
}
