//! The service calls by their function codes.
ghost use Rattle.std.specs.Prelude.{◌≡◌, length};
ghost use Rattle.fmp_c.specs.Names.{put};
ghost use Rattle.fmp_c.specs.Services as spec;

use crate::names::put;
use fmp_base::SERVICES;

/// The name of the service of this function code, 1 to 59: how many bytes it has, 0 where there is no such service. It
/// stands in the room if there is room for it, and else nothing is written.
#[unsafe(no_mangle)]
pub extern "C" fn fmp_service_name(service: u8, room: &mut [u8]) -> usize
    ensures room { room.new ≡ put (spec.name_by service) room.old }
    ensures length { result ≡ length (spec.name_by service) }
{
    if service < 1 || service > 59 {
        return put(&[], room);
    }
    put(SERVICES[service as usize - 1].name().as_bytes(), room)
}

/// How many arguments the service of this function code takes, 0 to 4; 0 where there is no such service.
#[unsafe(no_mangle)]
pub extern "C" fn fmp_service_arity(service: u8) -> u32
    ensures { result ≡ spec.arity_by service }
{
    if service < 1 || service > 59 {
        return 0;
    }
    u32::from(SERVICES[service as usize - 1].arity())
}
