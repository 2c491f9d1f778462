//! Laws of building, each the contract of a function that does nothing.

ghost use Rattle.std.specs.Prelude.{ℕ, ◌≤◌, List};
ghost use Rattle.fmp_base.specs.declared.events.Event.{Event};
ghost use Rattle.fmp_codegen.specs.Laws.{DoesText};
ghost use Rattle.fmp_codegen.specs.Runs.{PrintsText};
ghost use Rattle.fmp_image_bytes.specs.Images.{ImageTables, IsImage};
ghost use Rattle.fmp_image.specs.Building.{Builds};
ghost use Rattle.fmp_image.specs.Laws.{HaveOneAnswer};

use fmp_codegen::laws::{
    compiled_code_is_verified, compiled_run, compiled_stretch, greatest_depth_is_needed,
};

/// What two texts build keeps the rules of images.
pub fn what_is_built_is_an_image()
    ensures { (cfg src : List ℕ) (i : ImageTables) → Builds cfg src i → IsImage i }
{
    greatest_depth_is_needed();
    compiled_code_is_verified();
}

/// The code of the image of two texts does what their bodies do.
pub fn built_image_does_text()
    ensures { (cfg src : List ℕ) (i : ImageTables) (b : Builds cfg src i) → DoesText i.system b.tasks.bodies i.code }
{
    compiled_stretch();
}

/// Whatever the events, running the image of two texts prints what the texts mean.
pub fn built_image_prints_text()
    ensures { (cfg src : List ℕ) (i : ImageTables) (b : Builds cfg src i) (n : ℕ) (es : List Event) →
        1 ≤ n → PrintsText i.system b.tasks.bodies i.code n es }
{
    compiled_run();
}

/// Two texts build at most one image or have at most one first fault apart from running out of memory, and never both.
/// So what `build` answers, they answer.
pub fn two_texts_have_one_answer()
    ensures { (cfg src : List ℕ) → HaveOneAnswer cfg src }
{}
