//! A panel and its lanes: where the states of a lane stand, and what is said of it at the left.
ghost use Rattle.std.specs.Prelude.{◌≡◌};
ghost use Rattle.fmp_drawing.specs.Rows as spec;

use crate::scene::Scene;
use crate::shapes::{Rect, put_line, put_text};
use crate::strips::{Strip, Strips};
use fmp_timeline::CanvasPiece::{At, Raw};
use fmp_timeline::{Canvas, CanvasPiece, PanelSpan, Stay, Tenths};

/// The size of names in the gutter.
pub const NAME: Tenths = Tenths(115);

/// A panel: the source of the picture, the events of the panel, and its lanes.
#[derive(Clone, Copy)]
pub struct Panel<'a> {
    pub scene: &'a Scene<'a>,
    pub span: &'a PanelSpan,
    pub strips: &'a Strips,
}

impl<'a> Panel<'a> {
    /// A lane of the panel.
    pub fn row(self, strip: &'a Strip) -> Row<'a>
        ensures { result ≡ record { scene = self.entry.scene; span = self.entry.span; strip = strip.entry } }
    {
        Row {
            scene: self.scene,
            span: self.span,
            strip,
        }
    }
}

/// A lane of a panel: the source of the picture, the events of the panel, and where the lane stands.
#[derive(Clone, Copy)]
pub struct Row<'a> {
    pub scene: &'a Scene<'a>,
    pub span: &'a PanelSpan,
    pub strip: &'a Strip,
}

impl Row<'_> {
    /// The box of a state as long as it lasts: lowered and high by this many tenths.
    pub fn stay_box<S>(self, stay: &Stay<S>, lower: i32, high: i32) -> Rect
        ensures { result ≡ spec.stay_box self.entry.span.now self.entry.strip.now stay.now lower high }
    {
        let x = self.span.box_left(stay);
        Rect {
            x,
            y: self.strip.y(lower),
            wide: self.span.box_right(stay) - x,
            high: Tenths(high),
        }
    }

    /// Between which places the text of a state can stand: inside of the panel.
    pub fn text_ends<S>(self, stay: &Stay<S>) -> (Tenths, Tenths)
        ensures { result ≡ spec.text_ends self.entry.span.now stay.now }
    {
        let left = self.span.box_left(stay).or_more(self.span.page.start());
        (left, self.span.box_right(stay))
    }

    /// A line as long as a state lasts, this many tenths below the middle, without the end of its element.
    pub fn put_stay_line<S>(self, class: &str, stay: &Stay<S>, lower: i32, out: &mut Canvas) {
        let x = self.span.box_left(stay);
        let long = self.span.box_right(stay) - x;
        put_line(class, (x, self.strip.middle(lower)), long, out);
    }
}

/// A name in the gutter.
#[derive(Clone, Copy)]
pub struct GutterName<'a> {
    pub text: CanvasPiece<'a>,
    pub wide: Tenths,
    /// How wide it can be: it is squeezed where it is wider.
    pub room: Tenths,
    /// Whether it is pale.
    pub faint: bool,
}

/// The name of a lane.
pub fn put_name(strip: &Strip, name: GutterName<'_>, out: &mut Canvas) {
    let y = At(strip.middle(40));
    out.put("<text class=\"n\" x=\"30\" y=\"{}\"", &[y]);
    if name.room.is_below(name.wide) {
        out.put(
            " textLength=\"{}\" lengthAdjust=\"spacingAndGlyphs\"",
            &[At(name.room)],
        );
    }
    if name.faint {
        out.raw(" fill-opacity=\".7\"");
    }
    out.put(">{}</text>", &[name.text]);
}

/// What stands at the right end of the gutter.
pub fn put_side(scene: &Scene<'_>, strip: &Strip, side: CanvasPiece<'_>, out: &mut Canvas) {
    let place = (scene.page.left() - Tenths(80), strip.middle(30));
    put_text(Raw("m e"), place, side, out);
}
