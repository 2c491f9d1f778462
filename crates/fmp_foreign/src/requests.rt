//! Service calls by numbers, and why something that comes is not taken.
ghost use Rattle.std.specs.Prelude.{◌≡◌, pos, get_or};
ghost use Rattle.fmp_foreign.specs.Hosting.{called_by};

use fmp_base::{Call, SERVICES, Service};

/// Why nothing has happened: a number is out of range, or no more events are taken.
#[derive(Clone, Copy, Debug, PartialEq, Eq)]
pub enum Refusal {
    /// There is no processor of this number; they go from 1.
    Processor,
    /// There is no service of this function code; they go from 1 to 59.
    Service,
    /// There are fewer arguments than the service takes, or more than four.
    Arguments,
    /// There is no interrupt of this number; they go from 1 to 32.
    Interrupt,
    /// 2^31 events were taken, and no more are.
    Full,
}

/// The services, at the place before their function codes: a table in memory, which a look at one of them does not
/// copy.
static BY_NUMBER: &[Service] = &SERVICES;

/// The argument at this place, or 0.
fn argument(arguments: &[i32], place: usize) -> i32
    ensures { result ≡ get_or arguments.now place (pos 0) }
{
    match arguments.get(place) {
        Some(argument) => *argument,
        None => 0,
    }
}

/// The call of the service of this function code with these arguments: at least as many as the service takes, and at
/// most four. Arguments that it does not take are ignored.
pub fn call_of(service: u8, arguments: &[i32]) -> Result<Call, Refusal>
    ensures { result ≡ called_by service arguments.now }
{
    if service < 1 || service > 59 {
        return Err(Refusal::Service);
    }
    let service = BY_NUMBER[service as usize - 1];
    if arguments.len() < usize::from(service.arity()) || arguments.len() > 4 {
        return Err(Refusal::Arguments);
    }
    let four = [
        argument(arguments, 0),
        argument(arguments, 1),
        argument(arguments, 2),
        argument(arguments, 3),
    ];
    Ok(Call::request(service, four))
}
