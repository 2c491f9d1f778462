//! Laws of the compiled code, each the contract of a function that does nothing.

ghost use Rattle.std.specs.Prelude.{◌≡◌, ℕ, ◌≤◌, List};
ghost use Rattle.fmp_base.specs.declared.events.Event.{Event};
ghost use Rattle.fmp_base.specs.Systems.{SystemTables};
ghost use Rattle.fmp_tasklang.specs.Trees.{BodyTree};
ghost use Rattle.fmp_instructions.specs.Verify.{Verified};
ghost use Rattle.fmp_tasklang.specs.CallForms.{CallsFit};
ghost use Rattle.fmp_codegen.specs.Calls.{KeepsCalls};
ghost use Rattle.fmp_codegen.specs.Compiling.{IsAccepted, compiled};
ghost use Rattle.fmp_scopes.specs.Depths.{body_depth};
ghost use Rattle.fmp_scopes.specs.DepthTables.{body_depths};
ghost use Rattle.fmp_codegen.specs.Laws.{DoesText, greatest};
ghost use Rattle.fmp_codegen.specs.Runs.{PrintsText};

/// The code of an accepted text does what its bodies do.
pub fn compiled_stretch()
    ensures { (tables : SystemTables) (bodies : List BodyTree) →
        IsAccepted tables bodies → DoesText tables bodies (compiled tables bodies) }
{}

/// The verifier accepts the code of an accepted text.
pub fn compiled_code_is_verified()
    ensures { (tables : SystemTables) (bodies : List BodyTree) →
        IsAccepted tables bodies → CallsFit bodies → Verified (compiled tables bodies) }
{}

/// The greatest number of operands that stand before an instruction of a body is the number that the body needs.
pub fn greatest_depth_is_needed()
    ensures { (body : BodyTree) → greatest (body_depths body) ≡ body_depth body }
{}

/// Whatever the events, running the code of an accepted text prints what the text means.
pub fn compiled_run()
    ensures { (sys : SystemTables) (bodies : List BodyTree) (n : ℕ) (es : List Event) →
        IsAccepted sys bodies → 1 ≤ n → PrintsText sys bodies (compiled sys bodies) n es }
{}

/// The code of a body has the service calls of its text, in the order of the text.
pub fn code_keeps_calls()
    ensures { KeepsCalls }
{}
