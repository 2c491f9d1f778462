//! From the two texts of a system to the bytes of its image.

ghost use Rattle.std.specs.Prelude.{◌≡◌, IfErr, IfOk, OnErr, OnOk};
ghost use Rattle.fmp_image.specs.Building.{IsBuildFault};
ghost use Rattle.fmp_engine.specs.Built.{AppendsImage, CanBuild};

use fmp_image::build;
use fmp_image_bytes::store;
use fmp_lex::BuildFault;
use std::alloc::Global;

/// Checks that two texts, a configuration and the bodies of its tasks and handlers, build an image. An error is the
/// first fault of the texts, or out of memory.
pub fn check(alloc: Global, cfg: &[u8], src: &[u8]) -> Result<(), BuildFault>
    ensures builds { IfOk result (λ _. CanBuild cfg.now src.now) }
    ensures refuses { IfErr result (IsBuildFault cfg.now src.now) }
{
    match build(alloc, cfg, src) {
        Ok(image) => {
            drop(image);
            Ok(())
        }
        Err(fault) => Err(fault),
    }
}

/// Builds the image of two texts, a configuration and the bodies of its tasks and handlers, and appends its bytes. An
/// error is the first fault of the texts, or out of memory; then nothing has been appended.
pub fn build_image(
    alloc: Global,
    cfg: &[u8],
    src: &[u8],
    out: &mut Vec<u8>,
) -> Result<(), BuildFault>
    ensures ok { OnOk result (AppendsImage cfg.now src.now out.old.items out.new.items) }
    ensures refused { IfErr result (IsBuildFault cfg.now src.now) }
    ensures err { OnErr result (out.new.items ≡ out.old.items) }
{
    let image = match build(alloc, cfg, src) {
        Ok(image) => image,
        Err(fault) => return Err(fault),
    };
    let stored = store(alloc, &image);
    drop(image);
    let Ok(bytes) = stored else {
        return Err(BuildFault::Memory);
    };
    match out.extend_from_slice(&bytes) {
        Ok(()) => Ok(()),
        Err(_) => Err(BuildFault::Memory),
    }
}
