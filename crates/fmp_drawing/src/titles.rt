//! What a box says when it is pointed at: its state, and the lines of the event that made it.
ghost use Rattle.std.specs.Prelude.{◌≡◌};
ghost use Rattle.fmp_drawing.specs.Titles as spec;

use crate::scene::Scene;
use crate::shapes::{Rect, put_box};
use crate::times::{put_period_line, put_time_line};
use fmp_timeline::CanvasPiece::{Number, Raw};
use fmp_timeline::{Canvas, CanvasPiece, Run, Stay};

/// No more lines than this stand in a title.
const MOST_LINES: u32 = 12;

/// Where the lines before an event end.
fn end_before(run: &Run, place: usize) -> usize
    ensures { result ≡ spec.end_before run.now place }
{
    if let Some(before) = place.checked_sub(1)
        && let Some(note) = run.notes.get(before)
    {
        return note.end;
    }
    0
}

/// The lines of an event, without the last line feed.
fn lines_of(run: &Run, event: u32) -> &[u8]
    ensures { result.now ≡ spec.lines_of run.now event }
{
    let place = event as usize;
    match run.notes.get(place) {
        Some(note) => {
            let lines = end_before(run, place)..note.end.saturating_sub(1);
            run.text.get(lines).unwrap_or(&[])
        }
        None => &[],
    }
}

/// The lines of an event, those beyond the twelfth as their number.
fn put_lines(lines: &[u8], out: &mut Canvas) {
    let mut count: u32 = 0;
    for line in lines.split(|byte| *byte == b'\n') {
        if count < MOST_LINES {
            if count > 0 {
                out.raw("\n");
            }
            out.text(line);
        }
        count = count.saturating_add(1);
    }
    if count > MOST_LINES {
        out.numbered("\n… and ", count.saturating_sub(MOST_LINES), " lines more");
    }
}

/// A title with the time of an event, if it is known, and its lines.
pub fn put_event_title(scene: &Scene<'_>, event: u32, out: &mut Canvas) {
    out.raw("<title>");
    put_time_line(scene, event, out);
    put_lines(lines_of(scene.run, event), out);
    out.raw("</title>");
}

/// What is pointed at for the lines of an event: a box.
pub fn put_area(scene: &Scene<'_>, area: Rect, event: u32, out: &mut Canvas) {
    put_box(Raw("z"), area, out);
    out.raw(">");
    put_event_title(scene, event, out);
    out.raw("</path>\n");
}

/// The end of a path with a title: a head as a form and its values, from where to where a state lasts, also in real
/// time if that is known, and the lines of the event that began it.
pub fn put_title<S>(
    scene: &Scene<'_>,
    head: &str,
    values: &[CanvasPiece<'_>],
    stay: &Stay<S>,
    out: &mut Canvas,
) {
    put_title_with(scene, (head, values), Raw(""), stay, out);
}

/// `put_title`, with this after its first line.
pub fn put_title_with<S>(
    scene: &Scene<'_>,
    (head, values): (&str, &[CanvasPiece<'_>]),
    more: CanvasPiece<'_>,
    stay: &Stay<S>,
    out: &mut Canvas,
) {
    out.raw("><title>");
    out.put(head, values);
    match stay.to {
        Some(to) => out.put(
            ", events {} to {}{}\n",
            &[Number(stay.from), Number(to), more],
        ),
        None => out.put(", from event {} on{}\n", &[Number(stay.from), more]),
    }
    put_period_line(scene, stay.from, stay.to, out);
    put_lines(lines_of(scene.run, stay.from), out);
    out.raw("</title></path>\n");
}
