//! The versions of images, and what each of them has.
ghost use Rattle.std.specs.Prelude.{◌≡◌};
ghost use Rattle.fmp_image_bytes.specs.Versions.{has, has_service, is_version, newest};

use fmp_base::Service;
use fmp_instructions::Instruction;

/// The version of the images that are built.
pub fn newest() -> u16
    ensures { result ≡ newest }
{
    3
}

/// Whether there are images of a version: 1 to 3.
pub fn is_version(version: u16) -> bool
    ensures { result ≡ is_version version }
{
    1 <= version && version <= newest()
}

/// Whether a version has a service.
#[inline(always)]
pub fn has_service(version: u16, service: Service) -> bool
    ensures { result ≡ has_service version service }
{
    match service {
        Service::MrotRdq => version >= 3,
        _ => true,
    }
}

/// Whether images of a version have an instruction.
#[inline(always)]
pub fn has(version: u16, instruction: Instruction) -> bool
    ensures { result ≡ has version instruction }
{
    match instruction {
        Instruction::LoadIndexed { .. } => version >= 2,
        Instruction::StoreIndexed { .. } => version >= 2,
        Instruction::Call { service, .. } => has_service(version, service),
        _ => true,
    }
}
