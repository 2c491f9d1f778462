//! The page: its controls, the picture, the data and the script.
ghost use Rattle.std.specs.Prelude.{IfOk, List, ℕ};
ghost use Rattle.fmp_slices.specs.Pages as spec;
ghost use Rattle.fmp_timeline.specs.Canvases.{Adds};

use crate::contents::{PageSource, contents_of};
use crate::script::SCRIPT;
use crate::style::STYLE;
use fmp_base::System;
use fmp_timeline::{Canvas, PicturePage, Run};
use std::alloc::{AllocError, Global};

/// What stands before the title. The policy lets the page load nothing.
const HEAD: &str = r#"<!DOCTYPE html>
<html lang="en">
<head>
<meta charset="utf-8">
<meta name="viewport" content="width=device-width">
<meta http-equiv="Content-Security-Policy"
content="default-src 'none'; style-src 'unsafe-inline'; script-src 'unsafe-inline'">
"#;

/// The controls, before the picture.
const TOOLS: &str = r#"</style>
</head>
<body>
<div id="tools" role="toolbar" aria-label="Event and zoom">
<button type="button" id="back" aria-label="Event before" title="Event before (,)">◀</button>
<button type="button" id="on" aria-label="Next event" title="Next event (.)">▶</button>
<label>Event <input type="range" id="moment"></label>
<output id="now" for="moment"></output>
<button type="button" id="smaller" aria-label="Zoom out" title="Zoom out (-)">−</button>
<button type="button" id="larger" aria-label="Zoom in" title="Zoom in (+)">+</button>
<button type="button" id="whole" title="Whole width; 0 is the first size">Fit width</button>
</div>
"#;

/// The lists, between the picture and the data.
const LISTS: &str = r#"<div id="side">
<section id="states" tabindex="0" aria-label="States after the event"></section>
<section id="story" tabindex="0" aria-label="What happened"><h2>What happened</h2>
<p>Click a task, a handler, a processor or an object, in the picture or in the list.</p></section>
</div>
"#;

/// The title of a page with this name.
fn put_title(name: &[u8], out: &mut Canvas)
    ensures { Adds out.old out.new (spec.title_text name.now) }
{
    out.raw("<title>Timeline of ");
    out.text(name);
    out.raw("</title>\n");
}

/// The style of the page, and its controls.
fn put_tools(out: &mut Canvas)
    ensures { (tools : List ℕ) × Adds out.old out.new tools }
{
    out.raw("<style>");
    out.raw(STYLE);
    out.raw(TOOLS);
}

fn put_picture(picture: &[u8], out: &mut Canvas)
    ensures { Adds out.old out.new (spec.view_text picture.now) }
{
    out.raw("<main id=\"view\" tabindex=\"0\" aria-label=\"Picture\">\n");
    out.plain(picture);
    out.raw("</main>\n");
}

fn put_data(json: &[u8], out: &mut Canvas)
    ensures { Adds out.old out.new (spec.data_text json.now) }
{
    out.raw("<script type=\"application/json\" id=\"run\">");
    out.plain(json);
    out.raw("</script>\n");
}

fn put_script(out: &mut Canvas)
    ensures { (script : List ℕ) × Adds out.old out.new script }
{
    out.raw("<script>\n");
    out.raw(SCRIPT);
    out.raw("</script>\n</body>\n</html>\n");
}

/// All of the page.
fn put_page(name: &[u8], picture: &[u8], json: &[u8], out: &mut Canvas)
    ensures { (page : List ℕ) × spec.IsPage name.now picture.now json.now page × Adds out.old out.new page }
{
    out.raw(HEAD);
    put_title(name, out);
    put_tools(out);
    put_picture(picture, out);
    out.raw(LISTS);
    put_data(json, out);
    put_script(out);
}

/// A page of a run of a system that shows this picture of it, which has these measures: one file of HTML that loads
/// nothing. The name stands in its title. `AllocError` if memory runs out.
pub fn page_of(
    alloc: Global,
    sys: &System,
    run: &Run,
    name: &[u8],
    page: PicturePage,
    picture: &[u8],
) -> Result<Vec<u8>, AllocError>
    ensures { IfOk result (λ text. (json : List ℕ) × spec.IsPage name.now picture.now json text.items
        × spec.IsData page run.now json) }
{
    let contents = contents_of(PageSource {
        alloc,
        sys,
        run,
        page,
    })?;
    let mut out = Canvas::new(alloc);
    put_page(name, picture, &contents, &mut out);
    out.finish()
}
