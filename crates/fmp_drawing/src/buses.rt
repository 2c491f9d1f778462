//! Lanes of objects.
use crate::rows::{GutterName, NAME, Row, put_name, put_side};
use crate::scene::Scene;
use crate::shapes::put_text;
use crate::strips::Strip;
use crate::titles::put_title;
use fmp_timeline::CanvasPiece::{At, Label, Raw, Text};
use fmp_timeline::{
    ArgumentTopic, Canvas, ObjectHistory, ObjectShown, Stay, Tenths, bytes_of, task_bytes, width,
};

/// The size of values.
const SMALL: Tenths = Tenths(90);

/// What kind of object it is.
fn kind_of(topic: ArgumentTopic) -> &'static str {
    match topic {
        ArgumentTopic::Semaphore(_) => "semaphore",
        ArgumentTopic::Flag(_) => "flag",
        ArgumentTopic::DataQueue(_) => "data queue",
        ArgumentTopic::Mailbox(_) => "mailbox",
        ArgumentTopic::SharedWord(_) => "shared word",
        ArgumentTopic::Task(_) => "task",
        ArgumentTopic::SpinLock(_) => "spin lock",
        ArgumentTopic::Cyclic(_) => "cyclic handler",
    }
}

/// The head of the group of objects.
pub fn put_objects_head(strip: &Strip, out: &mut Canvas) {
    put_text(Raw("pn"), (Tenths(120), strip.y(120)), Raw("Objects"), out);
}

/// Appends a value: of an eventflag's pattern above 9 in hexadecimal digits.
fn append_shown(topic: ArgumentTopic, value: i32, text: &mut Canvas) {
    if matches!(topic, ArgumentTopic::Flag(_)) && value > 9 {
        text.raw("0x");
        text.hexadecimal(value.unsigned_abs());
    } else {
        text.signed(value);
    }
}

/// Appends these words and the names of the tasks that wait, with commas between, if there are any.
fn append_waiting(scene: &Scene<'_>, shown: &ObjectShown, words: &str, text: &mut Canvas) {
    let mut before = words;
    for task in scene.run.objects.waiting_for(shown) {
        text.raw(before);
        text.plain(task_bytes(scene.sys, *task));
        before = ", ";
    }
}

/// The end of a value's path with its title.
fn put_value_title(
    scene: &Scene<'_>,
    topic: ArgumentTopic,
    stay: &Stay<ObjectShown>,
    out: &mut Canvas,
) {
    let mut head = Canvas::new(scene.alloc);
    head.plain(bytes_of(scene.sys, topic));
    head.raw(" = ");
    head.signed(stay.state.value);
    append_waiting(scene, &stay.state, ", waiting: ", &mut head);
    put_title(scene, "{}", &[Label(&head)], stay, out);
}

/// The text of a value from a place on.
fn put_value_text(strip: &Strip, left: Tenths, text: &Canvas, out: &mut Canvas) {
    out.put(
        "<text class=\"wt q\" x=\"{}\" y=\"{}\" xml:space=\"preserve\">{}</text>\n",
        &[At(left + Tenths(50)), At(strip.middle(22)), Label(text)],
    );
}

/// The value followed by the waiting tasks, or the value alone, between two places, if it fits.
fn put_value(
    row: Row<'_>,
    (left, right): (Tenths, Tenths),
    topic: ArgumentTopic,
    shown: &ObjectShown,
    out: &mut Canvas,
) {
    let mut text = Canvas::new(row.scene.alloc);
    append_shown(topic, shown.value, &mut text);
    let alone = text.len();
    append_waiting(row.scene, shown, "  ", &mut text);
    for count in [text.len(), alone] {
        text.shorten(count);
        if (text.width(SMALL) + Tenths(60)).is_below(right - left) {
            return put_value_text(row.strip, left, &text, out);
        }
    }
}

/// The box of a value: a hexagon whose ends slant so far, without the end of its element.
fn put_hexagon(strip: &Strip, (left, right): (Tenths, Tenths), slant: Tenths, out: &mut Canvas) {
    let (begin, end) = (At(left + slant), At(right - slant));
    out.put(
        "<path class=\"b\" d=\"M{} {}l{}-5.5H{}l{} 5.5l{} 5.5H{}z\"",
        &[
            At(left),
            At(strip.middle(0)),
            At(slant),
            end,
            At(slant),
            At(slant.back()),
            begin,
        ],
    );
}

/// The bar at the foot of a value while tasks wait.
fn put_queue_bar(strip: &Strip, (left, right): (Tenths, Tenths), out: &mut Canvas) {
    out.put(
        "<path class=\"bq q\" d=\"M{} {}H{}v1.7H{}z\"/>\n",
        &[At(left), At(strip.middle(43)), At(right), At(left)],
    );
}

/// A value as long as it lasts, with a bar at its foot while tasks wait.
fn put_stay(row: Row<'_>, topic: ArgumentTopic, stay: &Stay<ObjectShown>, out: &mut Canvas) {
    let (left, right) = (row.span.box_left(stay), row.span.box_right(stay));
    let slant = (right - left).half().or_less(Tenths(25));
    put_hexagon(row.strip, (left, right), slant, out);
    put_value_title(row.scene, topic, stay, out);
    if stay.state.start < stay.state.end {
        put_queue_bar(row.strip, (left + slant, right - slant), out);
    }
    let begin = left.or_more(row.span.page.start() - Tenths(30));
    put_value(row, (begin, right), topic, &stay.state, out);
}

/// The name and the kind of an object at the left of its lane.
fn put_gutter(row: Row<'_>, topic: ArgumentTopic, out: &mut Canvas) {
    let kind = kind_of(topic);
    let name = bytes_of(row.scene.sys, topic);
    out.put(
        "<g role=\"group\" aria-label=\"{} {}\">",
        &[Raw(kind), Text(name)],
    );
    let gutter = GutterName {
        text: Text(name),
        wide: width(name, NAME),
        room: row.scene.page.left() - Tenths(440) - width(kind.as_bytes(), SMALL),
        faint: false,
    };
    put_name(row.strip, gutter, out);
    put_side(row.scene, row.strip, Raw(kind), out);
}

/// The lane of an object.
pub fn put_object(row: Row<'_>, object: &ObjectHistory, out: &mut Canvas) {
    put_gutter(row, object.topic, out);
    for place in object.track.places(row.span.first, row.span.last) {
        if let Some(stay) = object.track.stay(place) {
            put_stay(row, object.topic, &stay, out);
        }
    }
    out.raw("</g>\n");
}
