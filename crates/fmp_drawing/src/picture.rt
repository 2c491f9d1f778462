//! The whole picture.
ghost use Rattle.std.specs.Prelude.{◌≡◌, ◌^◌, ◌-◌, ◌≤◌, IfOk, OnOk, length, min, slice_get};
ghost use Rattle.std.specs.Option.{option_map_or};
ghost use Rattle.fmp_drawing.specs.Pictures as spec;
ghost use Rattle.fmp_timeline.specs.Canvases.{Adds};

use crate::legend::put_legend;
use crate::overview::put_overview;
use crate::panel::{panel_bottom, put_panel};
use crate::scene::Scene;
use crate::style::{DARK, LIGHT, SHAPES};
use crate::times::put_extent_of_times;
use fmp_base::System;
use fmp_timeline::CanvasPiece::{Number, Text};
use fmp_timeline::{Canvas, PanelSpan, PicturePage, Run};
use std::alloc::{AllocError, Global};
use thiserror::Error;

/// No picture has more bytes.
pub const MOST_BYTES: usize = 40_000_000;

/// What stands between two panels, in pixels.
const BETWEEN: u32 = 24;

/// A number of things.
fn put_count(count: u32, thing: &str, out: &mut Canvas)
    ensures { Adds out.old out.new (spec.count_text count thing.now) }
{
    out.number(count);
    out.raw(thing);
    out.raw(if count == 1 { "" } else { "s" });
}

/// The clock after an event.
fn clock_at(run: &Run, event: u32) -> u32
    ensures { result ≡ option_map_or (λ note. note.clock) (slice_get run.now.notes.items event) 0 }
{
    match run.notes.get(event as usize) {
        Some(note) => note.clock,
        None => 0,
    }
}

/// How many tasks there are.
fn task_count(scene: &Scene<'_>) -> u32
    ensures { result ≡ min (length scene.now.sys.now.tasks.items) (2 ^ 32 - 1) }
{
    u32::try_from(scene.sys.tasks.len()).unwrap_or(u32::MAX)
}

/// The title and the description of the picture, for screen readers.
fn put_description(scene: &Scene<'_>, name: &[u8], out: &mut Canvas) {
    let (first, last) = (Number(scene.page.first), Number(scene.page.last));
    out.put(
        "<title id=\"title\">Timeline of {}, events {} to {}</title>\n<desc id=\"desc\">",
        &[Text(name), first, last],
    );
    put_count(u32::from(scene.sys.processors), " processor", out);
    out.raw(", ");
    put_count(task_count(scene), " task", out);
    out.raw(
        ". The horizontal axis counts events of the simulator, not time; dashed vertical lines are \
         clock ticks.\nEvery lane is a group that lists its states in order.",
    );
    if scene.has_times() {
        out.raw(" The row ms at the axis has the real times of events.");
    }
    out.raw("</desc>\n");
}

/// The style and the shapes of the picture.
fn put_style(out: &mut Canvas) {
    out.raw("<style>");
    out.raw(LIGHT);
    out.raw("\n@media screen and (prefers-color-scheme:dark){");
    out.raw(DARK);
    out.raw("}</style>\n");
    out.raw(SHAPES);
    out.raw("\n");
}

/// The first lines of the picture: its size, its title, its description, its style and its shapes.
fn put_root(scene: &Scene<'_>, name: &[u8], high: u32, out: &mut Canvas) {
    let (wide, high) = (Number(scene.page.wide), Number(high));
    out.put(
        "<svg xmlns=\"http://www.w3.org/2000/svg\" viewBox=\"0 0 {} {}\" width=\"{}\" height=\"{}\"",
        &[wide, high, wide, high],
    );
    out.raw(
        " id=\"top\" role=\"graphics-document\"\naria-labelledby=\"title desc\" lang=\"en\">\n",
    );
    put_description(scene, name, out);
    put_style(out);
}

/// What is drawn of a run: its events, and the clocks at their ends.
fn put_extent(scene: &Scene<'_>, out: &mut Canvas) {
    let (first, last) = (scene.page.first, scene.page.last);
    out.put(" · events {}–{}", &[Number(first), Number(last)]);
    if first > 0 || last < scene.last_event() {
        out.numbered(" of 0–", scene.last_event(), "");
    }
    let (from, to) = (clock_at(scene.run, first), clock_at(scene.run, last));
    out.put(" · clock {}–{}", &[Number(from), Number(to)]);
    put_extent_of_times(scene, out);
}

/// The title, and in small what is drawn.
fn put_head(scene: &Scene<'_>, name: &[u8], out: &mut Canvas) {
    out.put(
        "<text class=\"h1\" x=\"12\" y=\"26\">{}</text>\n<text class=\"h2\" x=\"12\" y=\"42\">",
        &[Text(name)],
    );
    put_count(u32::from(scene.sys.processors), " processor", out);
    out.raw(" · ");
    put_count(task_count(scene), " task", out);
    put_extent(scene, out);
    out.raw(" · a column is one event, not a length of time</text>\n");
}

/// The panel with this number.
fn span_of(page: PicturePage, panel: u32) -> PanelSpan
    ensures { result ≡ spec.span_of page panel }
{
    let first = page.panel_start(panel);
    PanelSpan {
        page,
        first,
        last: page.panel_end(first),
    }
}

/// The height of a picture whose panels begin at this height.
fn height_of(scene: &Scene<'_>, top: u32) -> Result<u32, AllocError> {
    let mut y = top;
    for panel in 0..scene.page.panels {
        let bottom = panel_bottom(scene, &span_of(scene.page, panel), y)?;
        y = bottom.saturating_add(BETWEEN);
    }
    Ok(y.saturating_sub(4))
}

/// The panels from this height on, until they are too large.
fn put_panels(scene: &Scene<'_>, top: u32, out: &mut Canvas) -> Result<(), AllocError> {
    let mut y = top;
    for panel in 0..scene.page.panels {
        if out.len() > MOST_BYTES {
            break;
        }
        let bottom = put_panel(scene, &span_of(scene.page, panel), y, out)?;
        y = bottom.saturating_add(BETWEEN);
    }
    Ok(())
}

/// What stands above the panels: the height below it.
fn put_top(scene: &Scene<'_>, name: &[u8], out: &mut Canvas) -> Result<u32, AllocError> {
    put_head(scene, name, out);
    let y = put_legend(scene, 64, out);
    put_overview(scene, y.saturating_add(2), out)
}

/// The picture with this above its panels, which begin at this height, or a beginning of it that is too large.
fn put_picture(
    scene: &Scene<'_>,
    name: &[u8],
    top: (&Canvas, u32),
    out: &mut Canvas,
) -> Result<(), AllocError>
    ensures { OnOk result (spec.EndsPicture out.new) }
{
    let (above, y) = top;
    put_root(scene, name, height_of(scene, y)?, out);
    out.join(above);
    put_panels(scene, y, out)?;
    out.raw("</svg>\n");
    Ok(())
}

/// The picture, or a beginning of it that is too large.
fn drawn(scene: &Scene<'_>, name: &[u8]) -> Result<Vec<u8>, AllocError>
    ensures { IfOk result (λ picture. spec.IsClosed picture.items) }
{
    let mut above = Canvas::new(scene.alloc);
    let y = put_top(scene, name, &mut above)?;
    let mut out = Canvas::new(scene.alloc);
    put_picture(scene, name, (&above, y), &mut out)?;
    out.finish()
}

/// Why there is no picture.
#[derive(Debug, Drop, Error)]
pub enum DrawFault {
    /// It would have more than `MOST_BYTES`.
    #[error("the picture has more than {max} bytes", max = MOST_BYTES)]
    TooLarge,
    /// Memory ran out.
    #[error("memory")]
    Memory(#[from(alloc)] AllocError),
}

/// A picture of a run of a system with these measures and this name as its title: an SVG without scripts, light and
/// dark. `TooLarge` for more bytes than a picture may have, `Memory` if memory runs out.
pub fn draw(
    alloc: Global,
    sys: &System,
    run: &Run,
    name: &[u8],
    page: PicturePage,
) -> Result<Vec<u8>, DrawFault>
    ensures most { IfOk result (λ picture. length picture.items ≤ 40000000) }
    ensures closed { IfOk result (λ picture. spec.IsClosed picture.items) }
{
    draw_timed(alloc, sys, run, name, page, &[])
}

/// The picture of `draw` with the real times of events, where they are known: those of setup and of the events, in
/// microseconds. With no times it is the picture that `draw` makes.
pub fn draw_timed(
    alloc: Global,
    sys: &System,
    run: &Run,
    name: &[u8],
    page: PicturePage,
    times: &[u64],
) -> Result<Vec<u8>, DrawFault>
    ensures most { IfOk result (λ picture. length picture.items ≤ 40000000) }
    ensures closed { IfOk result (λ picture. spec.IsClosed picture.items) }
{
    let scene = Scene::new(alloc, sys, run, page, times)?;
    let picture = drawn(&scene, name)?;
    if picture.len() > MOST_BYTES {
        return Err(DrawFault::TooLarge);
    }
    Ok(picture)
}
