//! Lanes of processors, with their locks and their dispatching.
use crate::rows::Row;
use crate::scene::{Scene, letters_that_fit};
use crate::shapes::{
    Rect, colour_class, put_box, put_hatch, put_label, put_label_in, put_plate, put_text,
};
use crate::strips::Strip;
use crate::titles::{put_title, put_title_with};
use fmp_base::{Handler, Lock};
use fmp_timeline::CanvasPiece::{Label, Number, Numbered, Raw, Text};
use fmp_timeline::{
    ArgumentTopic, Canvas, Occupant, SpinSpan, Stay, Tenths, Track, bytes_of, handler_text,
    task_bytes, width,
};

/// The size of names in a processor's boxes.
const BOLD: Tenths = Tenths(100);
/// The size of texts in bars.
const BAR: Tenths = Tenths(80);

/// The number of a processor.
fn processor_number(place: u8) -> u32 {
    u32::from(place).saturating_add(1)
}

/// The name of a handler on a plate between two places, where it fits.
fn put_handler_plate(
    row: Row<'_>,
    handler: Handler,
    (left, right): (Tenths, Tenths),
    out: &mut Canvas,
) {
    let label = handler_text(row.scene.alloc, row.scene.sys, handler, "int ");
    let wide = label.width(BOLD) + Tenths(60);
    if (wide + Tenths(40)).is_below(right - left) {
        let plate = Rect {
            x: left + Tenths(30),
            y: row.strip.middle(-70),
            wide,
            high: Tenths(140),
        };
        let place = (left + Tenths(60), row.strip.middle(40));
        put_plate(plate, Raw("k q"), place, Label(&label), out);
    }
}

/// A handler that runs on a processor, with its name on a plate.
fn put_handler_box(
    row: Row<'_>,
    processor: u8,
    handler: Handler,
    stay: &Stay<Occupant>,
    out: &mut Canvas,
) {
    put_box(Raw("hr"), row.stay_box(stay, 45, 190).framed(), out);
    let name = handler_text(row.scene.alloc, row.scene.sys, handler, "#");
    let head = [Number(processor_number(processor)), Label(&name)];
    put_title(row.scene, "p{}: {}", &head, stay, out);
    put_handler_plate(row, handler, row.text_ends(stay), out);
}

/// How many letters of a name stand in its box, and what stands after them, where some fit.
fn fit_name(name: &[u8], room: Tenths) -> Option<(usize, &'static str)> {
    if width(name, BOLD).is_below(room) {
        return Some((name.len(), ""));
    }
    Some((letters_that_fit(name, 4, BOLD, room)?, "…"))
}

/// The name of a task in its box, or its first letters where it does not fit.
fn put_occupant_name(row: Row<'_>, task: u8, (left, right): (Tenths, Tenths), out: &mut Canvas) {
    let name = task_bytes(row.scene.sys, task);
    if let Some((letters, dots)) = fit_name(name, right - left - Tenths(60)) {
        let mut label = Canvas::new(row.scene.alloc);
        label.plain(name.get(..letters).unwrap_or(name));
        label.raw(dots);
        let place = (left + Tenths(40), row.strip.middle(40));
        put_label_in(row.scene.look(task), "k", place, Label(&label), out);
    }
}

/// A task that a processor runs.
fn put_task_box(row: Row<'_>, processor: u8, task: u8, stay: &Stay<Occupant>, out: &mut Canvas) {
    let look = row.scene.look(task);
    let rect = row.stay_box(stay, 40, 200).framed();
    put_box(colour_class("c", look, " f"), rect, out);
    let number = Number(processor_number(processor));
    let head = [number, Text(task_bytes(row.scene.sys, task))];
    put_title(row.scene, "p{}: {}", &head, stay, out);
    put_hatch(look, rect, out);
    put_occupant_name(row, task, row.text_ends(stay), out);
}

/// A processor that runs nothing.
fn put_idle(row: Row<'_>, processor: u8, stay: &Stay<Occupant>, out: &mut Canvas) {
    row.put_stay_line("i", stay, 0, out);
    let number = Number(processor_number(processor));
    put_title(row.scene, "p{}: idle", &[number], stay, out);
}

/// What a processor does, as long as it does it.
fn put_occupant(row: Row<'_>, processor: u8, stay: &Stay<Occupant>, out: &mut Canvas) {
    match (stay.state.handler, stay.state.task) {
        (Some(handler), _) => put_handler_box(row, processor, handler, stay, out),
        (None, Some(task)) => put_task_box(row, processor, task, stay, out),
        (None, None) => put_idle(row, processor, stay, out),
    }
}

/// What a processor does in a panel.
fn put_occupants(row: Row<'_>, processor: u8, out: &mut Canvas) {
    if let Some(track) = row.scene.run.occupants.get(usize::from(processor)) {
        for place in track.places(row.span.first, row.span.last) {
            if let Some(stay) = track.stay(place) {
                put_occupant(row, processor, &stay, out);
            }
        }
    }
}

/// The lane of a processor.
pub fn put_processor(row: Row<'_>, processor: u8, out: &mut Canvas) {
    let number = processor_number(processor);
    out.numbered("<g role=\"group\" aria-label=\"Processor ", number, "\">");
    let place = (Tenths(120), row.strip.middle(40));
    put_text(Raw("pn"), place, Numbered("Processor ", number, ""), out);
    put_occupants(row, processor, out);
    out.raw("</g>\n");
}

/// Puts the text of a bar in place, if it fits, and says whether it does.
fn put_bar_text(
    class: &str,
    strip: &Strip,
    (left, right): (Tenths, Tenths),
    label: &[u8],
    out: &mut Canvas,
) -> bool {
    let fits = (width(label, BAR) + Tenths(40)).is_below(right - left);
    if fits {
        let place = (left + Tenths(30), strip.y(80));
        put_label(Raw(class), place, Text(label), out);
    }
    fits
}

/// The words and the name in the title of a lock that is held.
fn lock_words<'a>(scene: &Scene<'a>, lock: Lock) -> Option<(&'static str, &'a [u8])> {
    match lock {
        Lock::Free => None,
        Lock::Cpu => Some(("", b"CPU lock")),
        Lock::Spin(place) => {
            let name = bytes_of(scene.sys, ArgumentTopic::SpinLock(place));
            Some(("spin lock ", name))
        }
    }
}

/// A lock, if it is held.
fn put_held_lock(row: Row<'_>, processor: u8, stay: &Stay<Lock>, out: &mut Canvas) {
    if let Some((words, label)) = lock_words(row.scene, stay.state) {
        put_box(Raw("lc"), row.stay_box(stay, 0, 100), out);
        let number = Number(processor_number(processor));
        let head = [number, Raw(words), Text(label)];
        put_title(row.scene, "p{}: {}{} held", &head, stay, out);
        put_bar_text("lct q", row.strip, row.text_ends(stay), label, out);
    }
}

/// Appends a line that says who took the lock of a spinning span last before the span ended, and at which event.
fn append_taker(scene: &Scene<'_>, lock: Option<u8>, stay: &Stay<SpinSpan>, text: &mut Canvas) {
    if let Some(lock) = lock
        && let Some(deed) = scene.run.waits.taker(lock, stay.to)
    {
        text.raw("\ntaken by ");
        text.caller(scene.sys, deed.actor);
        text.numbered(" at event ", deed.event, "");
    }
}

/// The text of a spinning span: words, and the name of the lock.
fn spin_text<'a>(scene: &Scene<'a>, lock: Option<u8>) -> (&'static str, &'a [u8]) {
    match lock {
        Some(lock) => (
            "spins for ",
            bytes_of(scene.sys, ArgumentTopic::SpinLock(lock)),
        ),
        None => ("no progress", &[]),
    }
}

/// Puts the text of such a span between two places, if it fits, and says whether it does.
fn put_spin_text(
    row: Row<'_>,
    (left, right): (Tenths, Tenths),
    (words, name): (&str, &[u8]),
    out: &mut Canvas,
) -> bool {
    let wide = width(words.as_bytes(), BAR) + width(name, BAR) + Tenths(50);
    let fits = (wide + Tenths(200)).is_below(right - left);
    if fits {
        let mut label = Canvas::new(row.scene.alloc);
        label.raw(words);
        label.plain(name);
        let plate = Rect {
            x: left + Tenths(40),
            y: row.strip.y(10),
            wide,
            high: Tenths(80),
        };
        let place = (left + Tenths(65), row.strip.y(80));
        put_plate(plate, Raw("spt q"), place, Label(&label), out);
    }
    fits
}

/// The end of the path of a spinning span with its title: for what lock it spins, and who took that.
fn put_spin_title<'a>(
    scene: &Scene<'_>,
    lock: Option<u8>,
    (words, name): (&'a str, &'a [u8]),
    stay: &Stay<SpinSpan>,
    out: &mut Canvas,
) {
    let number = Number(processor_number(stay.state.processor));
    let head = [number, Raw(words), Text(name)];
    let mut more = Canvas::new(scene.alloc);
    append_taker(scene, lock, stay, &mut more);
    put_title_with(scene, ("p{}: {}{}", &head), Label(&more), stay, out);
}

/// A span in which a processor's actor spins.
fn put_spin(row: Row<'_>, stay: &Stay<SpinSpan>, out: &mut Canvas) {
    let lock = row.scene.run.lock_of(&stay.state);
    let (words, name) = spin_text(row.scene, lock);
    put_box(Raw("spb"), row.stay_box(stay, 5, 90).framed(), out);
    put_spin_title(row.scene, lock, (words, name), stay, out);
    let ends = row.text_ends(stay);
    if !put_spin_text(row, ends, (words, name), out) {
        put_spin_text(row, ends, ("", name), out);
    }
}

/// The spans in which a processor spins but holds no lock.
fn put_spins(row: Row<'_>, processor: u8, track: &Track<Lock>, out: &mut Canvas) {
    let spins = &row.scene.run.spins;
    for place in spins.places() {
        if let Some(stay) = spins.stay(place, processor, row.span)
            && track.at(stay.from) == Some(Lock::Free)
        {
            put_spin(row, &stay, out);
        }
    }
}

/// The bar of a processor's lock.
pub fn put_lock(row: Row<'_>, processor: u8, out: &mut Canvas) {
    if let Some(track) = row.scene.run.locks.get(usize::from(processor)) {
        for place in track.places(row.span.first, row.span.last) {
            if let Some(stay) = track.stay(place) {
                put_held_lock(row, processor, &stay, out);
            }
        }
        put_spins(row, processor, track, out);
    }
}

/// A span in which a processor does not dispatch.
fn put_no_dispatch(row: Row<'_>, processor: u8, stay: &Stay<bool>, out: &mut Canvas) {
    put_box(Raw("ld"), row.stay_box(stay, 0, 100), out);
    let number = Number(processor_number(processor));
    put_title(row.scene, "p{}: dispatch disabled", &[number], stay, out);
    let ends = (row.span.box_left(stay), row.span.box_right(stay));
    if !put_bar_text("ldt q", row.strip, ends, b"dispatch off", out) {
        put_bar_text("ldt q", row.strip, ends, b"dsp off", out);
    }
}

/// The bar of a processor's dispatching.
pub fn put_dispatch(row: Row<'_>, processor: u8, out: &mut Canvas) {
    if let Some(track) = row.scene.run.dispatches.get(usize::from(processor)) {
        for place in track.places(row.span.first, row.span.last) {
            if let Some(stay) = track.stay(place)
                && !stay.state
            {
                put_no_dispatch(row, processor, &stay, out);
            }
        }
    }
}
