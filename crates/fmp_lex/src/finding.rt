//! Constants, static APIs and services are found with one comparison: a sum of some of the bytes of a word tells the
//! only one that it may be.
ghost use Rattle.std.specs.Prelude.{◌≡◌, IsTrue, Some, false, slice_get};
ghost use Rattle.fmp_base.specs.Services.{service_name};
ghost use Rattle.fmp_base.specs.Words.{api_name, api_named, constant_name, constant_named, service_named};

use crate::words::{APIS, Api, CONSTANTS, Constant};
use fmp_base::{SERVICES, Service};

/// For each sum that `constant_in` makes, modulo 64, the place of its constant in `CONSTANTS`; 30 if there is none.
static CONSTANT_PLACES: [u8; 64] = [
    12, 30, 17, 18, 2, 4, 8, 25, 30, 1, 30, 30, 30, 30, 26, 30, 30, 30, 14, 30, 21, 30, 9, 30, 23,
    11, 30, 30, 22, 30, 15, 19, 30, 30, 30, 30, 30, 30, 24, 7, 3, 30, 13, 30, 30, 20, 30, 30, 6,
    30, 30, 30, 27, 30, 16, 0, 29, 10, 28, 30, 30, 5, 30, 30,
];

/// For each sum that `api_in` makes, modulo 16, the place of its static API in `APIS`; 10 if there is none.
static API_PLACES: [u8; 16] = [6, 8, 10, 0, 3, 10, 9, 10, 7, 10, 4, 5, 2, 1, 10, 10];

/// For each sum that `service_in` makes, modulo 256, the place of its service in `SERVICES`; 59 if there is none.
static SERVICE_PLACES: [u8; 256] = [
    59, 59, 59, 59, 59, 16, 59, 59, 59, 59, 59, 51, 59, 59, 59, 59, 28, 59, 59, 59, 59, 50, 59, 18,
    59, 59, 59, 59, 59, 59, 59, 27, 59, 59, 6, 59, 59, 59, 59, 59, 59, 59, 59, 59, 35, 33, 31, 59,
    59, 59, 59, 52, 59, 59, 59, 22, 59, 7, 59, 59, 59, 55, 59, 59, 41, 47, 59, 46, 59, 59, 59, 59,
    59, 37, 59, 54, 59, 59, 59, 59, 59, 59, 59, 59, 59, 59, 59, 59, 59, 59, 59, 59, 49, 43, 59, 59,
    59, 59, 59, 59, 59, 59, 59, 59, 59, 19, 59, 59, 42, 59, 29, 53, 59, 57, 59, 59, 59, 59, 59, 59,
    44, 59, 59, 59, 13, 59, 59, 59, 8, 59, 59, 59, 59, 59, 59, 59, 3, 59, 14, 59, 59, 59, 59, 39,
    59, 59, 59, 17, 59, 9, 59, 59, 59, 59, 4, 59, 59, 59, 59, 59, 59, 10, 59, 59, 59, 59, 59, 59,
    5, 59, 59, 59, 59, 34, 59, 59, 59, 59, 59, 59, 59, 59, 59, 59, 59, 45, 59, 59, 40, 59, 59, 59,
    26, 59, 59, 59, 59, 2, 32, 59, 15, 38, 59, 59, 0, 59, 59, 59, 12, 59, 24, 59, 59, 59, 59, 25,
    21, 59, 59, 59, 11, 59, 59, 59, 59, 59, 36, 48, 59, 1, 59, 59, 59, 59, 59, 59, 59, 59, 30, 20,
    59, 58, 59, 59, 59, 59, 59, 59, 23, 59, 59, 59, 59, 56, 59, 59,
];

/// The word at a place, if there is one.
#[inline(always)]
fn word_at<W: Copy>(words: &[W], place: u8) -> Option<W>
    ensures { result ≡ slice_get words.now place }
{
    words.get(usize::from(place)).copied()
}

/// The only constant that these bytes may be.
#[inline(always)]
fn constant_in(bytes: &[u8]) -> Option<Constant>
    ensures { (c : Constant) → bytes.now ≡ constant_name c → result ≡ Some c }
{
    if bytes.len() < 4 {
        return None;
    }
    let sum = 4 * usize::from(bytes[2])
        + 4 * usize::from(bytes[3])
        + usize::from(bytes[bytes.len() - 2]);
    word_at(&CONSTANTS, CONSTANT_PLACES[sum % 64])
}

/// The only static API that these bytes may be.
#[inline(always)]
fn api_in(bytes: &[u8]) -> Option<Api>
    ensures { (a : Api) → bytes.now ≡ api_name a → result ≡ Some a }
{
    if bytes.len() < 6 {
        return None;
    }
    let sum = 8 * usize::from(bytes[4]) + usize::from(bytes[5]);
    word_at(&APIS, API_PLACES[sum % 16])
}

/// The only service that these bytes may be.
#[inline(always)]
fn service_in(bytes: &[u8]) -> Option<Service>
    ensures { (s : Service) → bytes.now ≡ service_name s → result ≡ Some s }
{
    if bytes.len() < 3 {
        return None;
    }
    let first = usize::from(bytes[0]) + usize::from(bytes[1]);
    let sum = 32 * first + 3 * usize::from(bytes[2]) + 4 * usize::from(bytes[bytes.len() - 1]);
    word_at(&SERVICES, SERVICE_PLACES[sum % 256])
}

/// Whether these bytes are this text.
#[inline(always)]
fn is_text(bytes: &[u8], text: &str) -> bool
    ensures yes { IsTrue result → bytes.now ≡ text.now }
    ensures no { result ≡ false → bytes.now ≡ text.now → ⊥ }
{
    text.as_bytes() == bytes
}

/// The constant of this name.
#[inline(always)]
pub(crate) fn find_constant(bytes: &[u8]) -> Option<Constant>
    ensures { result ≡ constant_named bytes.now }
{
    let Some(constant) = constant_in(bytes) else {
        return None;
    };
    if is_text(bytes, constant.name()) {
        Some(constant)
    } else {
        None
    }
}

/// The static API of this name.
#[inline(always)]
pub(crate) fn find_api(bytes: &[u8]) -> Option<Api>
    ensures { result ≡ api_named bytes.now }
{
    let Some(api) = api_in(bytes) else {
        return None;
    };
    if is_text(bytes, api.name()) {
        Some(api)
    } else {
        None
    }
}

/// The service of this name.
#[inline(always)]
pub(crate) fn find_service(bytes: &[u8]) -> Option<Service>
    ensures { result ≡ service_named bytes.now }
{
    let Some(service) = service_in(bytes) else {
        return None;
    };
    if is_text(bytes, service.name()) {
        Some(service)
    } else {
        None
    }
}
