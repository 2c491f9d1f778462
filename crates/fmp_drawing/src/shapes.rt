//! Shapes that many parts of a picture have: boxes, lines and texts.
ghost use Rattle.std.specs.Prelude.{◌≡◌, option_map};
ghost use Rattle.fmp_drawing.specs.Shapes as spec;
ghost use Rattle.fmp_timeline.specs.declared.canvas.CanvasPiece.TheVariants as piece;

use crate::scene::Scene;
use fmp_timeline::CanvasPiece::{At, Number, Numbered, Raw};
use fmp_timeline::{BarLook, Canvas, CanvasPiece, Tenths};

/// A box of a picture: where its upper left corner is, and how wide and high it is.
#[derive(Clone, Copy)]
pub struct Rect {
    pub x: Tenths,
    pub y: Tenths,
    pub wide: Tenths,
    pub high: Tenths,
}

impl Rect {
    /// The box of a frame: half a pixel less at each side, for its line.
    pub fn framed(self) -> Rect
        ensures { result ≡ spec.framed self }
    {
        Rect {
            x: self.x + Tenths(5),
            wide: self.wide - Tenths(10),
            ..self
        }
    }
}

/// The outline of a box, as the attribute of its path.
fn put_outline(rect: Rect, out: &mut Canvas) {
    let (wide, back) = (At(rect.wide), At(rect.wide.back()));
    out.put(
        " d=\"M{} {}h{}v{}h{}z\"",
        &[At(rect.x), At(rect.y), wide, At(rect.high), back],
    );
}

/// A box without the end of its element.
pub fn put_box(class: CanvasPiece<'_>, rect: Rect, out: &mut Canvas) {
    out.put("<path class=\"{}\"", &[class]);
    put_outline(rect, out);
}

/// A box with nothing in it, and without a line feed.
pub fn put_plain_box(class: CanvasPiece<'_>, rect: Rect, out: &mut Canvas) {
    put_box(class, rect, out);
    out.raw("/>");
}

/// A line to the right without the end of its element.
pub fn put_line(class: &str, (x, y): (Tenths, Tenths), long: Tenths, out: &mut Canvas) {
    out.put(
        "<path class=\"{}\" d=\"M{} {}h{}\"",
        &[Raw(class), At(x), At(y), At(long)],
    );
}

/// A text, and a line feed.
pub fn put_text<'a>(
    class: CanvasPiece<'a>,
    (x, y): (Tenths, Tenths),
    text: CanvasPiece<'a>,
    out: &mut Canvas,
) {
    out.put(
        "<text class=\"{}\" x=\"{}\" y=\"{}\">{}</text>\n",
        &[class, At(x), At(y), text],
    );
}

/// A text that stands above the lines of the panel.
pub fn put_label<'a>(
    class: CanvasPiece<'a>,
    place: (Tenths, Tenths),
    text: CanvasPiece<'a>,
    out: &mut Canvas,
) {
    out.raise();
    put_text(class, place, text, out);
    out.lower();
}

/// A text on a plate, both above the lines of the panel.
pub fn put_plate<'a>(
    plate: Rect,
    class: CanvasPiece<'a>,
    place: (Tenths, Tenths),
    text: CanvasPiece<'a>,
    out: &mut Canvas,
) {
    out.raise();
    put_plain_box(Raw("tb q"), plate, out);
    put_text(class, place, text, out);
    out.lower();
}

/// The class of a task's colour between two words.
pub fn colour_class<'a>(before: &'a str, look: BarLook, after: &'a str) -> CanvasPiece<'a>
    ensures { result ≡ piece.Numbered before.entry look.colour after.entry }
{
    Numbered(before, u32::from(look.colour), after)
}

/// The number of a task's hatch, and its letter: `w` for white on a dark colour, `b` for black on a light one.
pub fn hatch_of(look: BarLook) -> Option<(u32, &'static str)>
    ensures { option_map (λ hatch. (hatch.0, hatch.1.now)) result ≡ spec.hatch_of look }
{
    let letter = if look.colour % 2 == 0 { "w" } else { "b" };
    (look.hatch > 0).then_some((u32::from(look.hatch), letter))
}

/// The hatch of a task over a box of its colour, if it has one.
pub fn put_hatch(look: BarLook, rect: Rect, out: &mut Canvas) {
    if let Some((number, letter)) = hatch_of(look) {
        out.put("<path class=\"x{}{} q\"", &[Number(number), Raw(letter)]);
        put_outline(rect, out);
        out.raw("/>\n");
    }
}

/// A text in a box of a task's colour, above the lines of the panel; on a hatch it has an edge of that colour.
pub fn put_label_in<'a>(
    look: BarLook,
    class: &'a str,
    (x, y): (Tenths, Tenths),
    text: CanvasPiece<'a>,
    out: &mut Canvas,
) {
    let edge = if look.hatch > 0 {
        colour_class(" p", look, "")
    } else {
        Raw("")
    };
    let colour = Number(u32::from(look.colour));
    out.raise();
    out.put(
        "<text class=\"{} d{}{} q\" x=\"{}\" y=\"{}\">{}</text>\n",
        &[Raw(class), colour, edge, At(x), At(y), text],
    );
    out.lower();
}

/// The number of a task in a box of its colour.
pub fn put_number(scene: &Scene<'_>, (x, y): (Tenths, Tenths), task: u8, out: &mut Canvas) {
    let look = scene.look(task);
    let rect = Rect {
        x,
        y,
        wide: Tenths(180),
        high: Tenths(110),
    };
    put_plain_box(colour_class("c", look, " f"), rect, out);
    put_hatch(look, rect, out);
    let place = (x + Tenths(90), y + Tenths(85));
    let number = Number(u32::from(task).saturating_add(1));
    put_label_in(look, "s7 c", place, number, out);
}
