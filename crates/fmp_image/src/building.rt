//! Two texts are read, compiled and put together into an image.
ghost use Rattle.std.specs.Prelude.{◌≡◌, ◌≤◌, List, length, IfOk, IfErr};
ghost use Rattle.std.specs.List.{AllByRecursion};
ghost use Rattle.fmp_base.specs.Systems.{tables_of};
ghost use Rattle.fmp_tasklang.specs.Trees.{BodyTree};
ghost use Rattle.fmp_instructions.specs.Instructions.{code_tables};
ghost use Rattle.fmp_codegen.specs.Compiling.{compiled};
ghost use Rattle.fmp_scopes.specs.Headings.{AreHeadings};
ghost use Rattle.fmp_image_bytes.specs.Images.{IsImage};
ghost use Rattle.fmp_image.specs.Building.{Builds, IsBuildFault, built_image};

use crate::entries::entry_uses;
use crate::heads::built_heads;
use crate::laws::what_is_built_is_an_image;
use crate::tables::build_tables;
use fmp_base::System;
use fmp_cfgparse::read_configuration;
use fmp_codegen::{CompiledText, check_headings, compile_text};
use fmp_image_bytes::Image;
use fmp_image_bytes::versions::newest;
use fmp_lex::BuildFault;
use std::alloc::{AllocError, Global};

/// The image of a system and of the code of its bodies, of the newest version.
fn image_of(alloc: Global, system: System, text: CompiledText) -> Result<Image, AllocError>
    requires few { length text.headings.items ≤ 255 }
    requires low { AllByRecursion (λ h. h.depth ≤ 64) text.headings.items }
    requires lawful { (bodies : List BodyTree) × AreHeadings text.headings.items bodies ×
        (code_tables text.code ≡ compiled (tables_of system) bodies) × IsImage (built_image (tables_of system) bodies) }
    ensures { IfOk result (λ image. (bodies : List BodyTree) → AreHeadings text.headings.items bodies →
        code_tables text.code ≡ compiled (tables_of system) bodies → image ≡ built_image (tables_of system) bodies) }
{
    let heads = built_heads(alloc, &text.headings)?;
    let mut built = system;
    build_tables(&text.headings, &mut built);
    Ok(Image::new(newest(), built, text.code, heads))
}

/// The image of the system that a configuration describes, its bodies given by a task text; or the first fault of the
/// texts: of the syntax of the configuration and of what it makes, then of the syntax of the task text, then of its
/// bodies, then of the entries that the static APIs name. `Memory` if an allocation is refused.
pub fn build(alloc: Global, cfg: &[u8], src: &[u8]) -> Result<Image, BuildFault>
    ensures builds { IfOk result (λ image. Builds cfg.now src.now image) }
    ensures refuses { IfErr result (IsBuildFault cfg.now src.now) }
{
    let configured = read_configuration(alloc, cfg)?;
    let text = compile_text(alloc, src, &configured.system)?;
    let parsed = &configured.parsed;
    let entries = entry_uses(alloc, &parsed.tree)?;
    check_headings(&parsed.list.tokens, &text.headings, &entries)?;
    what_is_built_is_an_image();
    Ok(image_of(alloc, configured.system, text)?)
}
