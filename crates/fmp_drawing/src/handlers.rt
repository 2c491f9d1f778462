//! Lanes of handlers.
ghost use Rattle.std.specs.Prelude.{◌≡◌, option_map};
ghost use Rattle.fmp_drawing.specs.Handlers as spec;

use crate::calls::put_calls;
use crate::rows::{GutterName, NAME, Row, put_name, put_side};
use crate::scene::TakenPixels;
use crate::shapes::{Rect, put_box};
use crate::titles::put_title;
use fmp_base::Handler;
use fmp_timeline::CanvasPiece::{Label, Numbered, Raw};
use fmp_timeline::{Canvas, Handling, Stay, Tenths, handler_text};
use std::alloc::AllocError;

/// The period of a cyclic handler, at the right end of the gutter.
fn put_period(row: Row<'_>, handler: Handler, out: &mut Canvas) {
    if let Handler::Cyclic(place) = handler
        && let Some(config) = row.scene.sys.cyclics.get(usize::from(place))
    {
        put_side(
            row.scene,
            row.strip,
            Numbered("every ", config.period, ""),
            out,
        );
    }
}

/// The name of a handler, its square and its period at the left of its lane.
fn put_gutter(row: Row<'_>, handler: Handler, name: &Canvas, out: &mut Canvas) {
    out.put(
        "<g role=\"group\" aria-label=\"Handler {}\">",
        &[Label(name)],
    );
    let gutter = GutterName {
        text: Label(name),
        wide: name.width(NAME),
        room: row.scene.page.left() - Tenths(740),
        faint: false,
    };
    put_name(row.strip, gutter, out);
    let square = Rect {
        x: Tenths(165),
        y: row.strip.middle(-35),
        wide: Tenths(70),
        high: Tenths(70),
    };
    put_box(Raw("hr"), square, out);
    out.raw("/>\n");
    put_period(row, handler, out);
}

/// What a handler does, where it does something.
fn words_of(handling: Handling) -> Option<&'static str>
    ensures { option_map (λ words. words.now) result ≡ spec.words_of handling.runs handling.pends }
{
    match (handling.runs, handling.pends) {
        (false, false) => None,
        (false, true) => Some(" is pending"),
        (true, false) => Some(" runs"),
        (true, true) => Some(" runs and is pending again"),
    }
}

/// The box of a handler that runs or is pending, without the end of its element.
fn put_handling_box(row: Row<'_>, stay: &Stay<Handling>, out: &mut Canvas) {
    if stay.state.runs {
        put_box(Raw("hr"), row.stay_box(stay, 25, 130).framed(), out);
    } else {
        put_box(Raw("hp"), row.stay_box(stay, 45, 90).framed(), out);
    }
}

/// A span in which a handler runs or is pending.
fn put_handling(row: Row<'_>, name: &Canvas, stay: &Stay<Handling>, out: &mut Canvas) {
    let Some(words) = words_of(stay.state) else {
        row.put_stay_line("dorm", stay, 5, out);
        out.raw("/>\n");
        return;
    };
    put_handling_box(row, stay, out);
    put_title(row.scene, "{}{}", &[Label(name), Raw(words)], stay, out);
    if stay.state.runs && stay.state.pends {
        put_box(Raw("hp q"), row.stay_box(stay, 125, 30).framed(), out);
        out.raw("/>\n");
    }
}

/// The states of a handler in its lane.
fn put_handlings(row: Row<'_>, handler: Handler, name: &Canvas, out: &mut Canvas) {
    if let Some(track) = row.scene.run.handling(handler) {
        for place in track.places(row.span.first, row.span.last) {
            if let Some(stay) = track.stay(place) {
                put_handling(row, name, &stay, out);
            }
        }
    }
}

/// The lane of a handler, beside these pixels of its marks. `AllocError` if memory runs out.
pub fn put_handler(
    row: Row<'_>,
    handler: Handler,
    taken: Vec<TakenPixels>,
    out: &mut Canvas,
) -> Result<(), AllocError> {
    let name = handler_text(row.scene.alloc, row.scene.sys, handler, "interrupt ");
    put_gutter(row, handler, &name, out);
    put_handlings(row, handler, &name, out);
    put_calls(row, taken, out)?;
    out.raw("</g>\n");
    Ok(())
}
