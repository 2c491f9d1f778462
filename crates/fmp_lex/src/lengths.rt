//! The lengths of the words of both texts and their first bytes, which tell most names from words before they are
//! looked up.
ghost use Rattle.std.specs.Prelude.{◌≡◌, false, None};
ghost use Rattle.fmp_base.specs.Words.{constant_named, api_named, service_named};
ghost use Rattle.fmp_lex.specs.Beginnings.{begins};
ghost use Rattle.fmp_lex.specs.Cutting.{word_kind};

use crate::finding::{find_api, find_constant, find_service};
use crate::words::{Api, Constant};
use fmp_base::Service;

/// The lengths of the words that begin with each byte: bit `n` is set where one has `n` bytes.
const LENGTHS: [u16; 256] = [
    0, 0, 0, 0, 0, 0, 0, 0, 0, 0, 0, 0, 0, 0, 0, 0, 0, 0, 0, 0, 0, 0, 0, 0, 0, 0, 0, 0, 0, 0, 0, 0,
    0, 0, 0, 0, 0, 0, 0, 0, 0, 0, 0, 0, 0, 0, 0, 0, 0, 0, 0, 0, 0, 0, 0, 0, 0, 0, 0, 0, 0, 0, 0, 0,
    0, 0, 0, 160, 128, 240, 0, 0, 0, 0, 0, 0, 0, 0, 144, 0, 0, 0, 0, 0, 960, 0, 0, 0, 0, 0, 0, 0,
    0, 0, 0, 0, 0, 128, 32, 384, 128, 144, 256, 128, 128, 772, 0, 0, 192, 384, 0, 0, 392, 0, 192,
    192, 400, 128, 8, 160, 0, 0, 0, 0, 0, 0, 0, 0, 0, 0, 0, 0, 0, 0, 0, 0, 0, 0, 0, 0, 0, 0, 0, 0,
    0, 0, 0, 0, 0, 0, 0, 0, 0, 0, 0, 0, 0, 0, 0, 0, 0, 0, 0, 0, 0, 0, 0, 0, 0, 0, 0, 0, 0, 0, 0, 0,
    0, 0, 0, 0, 0, 0, 0, 0, 0, 0, 0, 0, 0, 0, 0, 0, 0, 0, 0, 0, 0, 0, 0, 0, 0, 0, 0, 0, 0, 0, 0, 0,
    0, 0, 0, 0, 0, 0, 0, 0, 0, 0, 0, 0, 0, 0, 0, 0, 0, 0, 0, 0, 0, 0, 0, 0, 0, 0, 0, 0, 0, 0, 0, 0,
    0, 0, 0, 0, 0, 0, 0, 0, 0, 0, 0, 0, 0, 0, 0, 0,
];

/// Whether these bytes may be a word, by the first one and by their number.
#[inline(always)]
pub(crate) fn may_be_word(bytes: &[u8]) -> bool
    ensures { result ≡ false → word_kind bytes.now ≡ None }
{
    let Some(first) = bytes.first() else {
        return false;
    };
    bytes.len() < 16 && LENGTHS[*first as usize] >> bytes.len() & 1 == 1
}

/// Whether the first one of these bytes is from `low` to `high`.
#[inline(always)]
fn begins_in(bytes: &[u8], low: u8, high: u8) -> bool
    ensures { result ≡ begins bytes.now low high }
{
    match bytes.first() {
        Some(first) => low <= *first && *first <= high,
        None => false,
    }
}

/// The constant that these bytes are. All begin with letters from `E` to `T`.
#[inline(always)]
pub(crate) fn constant_of(bytes: &[u8]) -> Option<Constant>
    ensures { result ≡ constant_named bytes.now }
{
    if begins_in(bytes, b'E', b'T') {
        find_constant(bytes)
    } else {
        None
    }
}

/// The static API that these bytes are. All begin with `C` or `D`.
#[inline(always)]
pub(crate) fn api_of(bytes: &[u8]) -> Option<Api>
    ensures { result ≡ api_named bytes.now }
{
    if begins_in(bytes, b'C', b'D') {
        find_api(bytes)
    } else {
        None
    }
}

/// The service that these bytes are. All begin with small letters.
#[inline(always)]
pub(crate) fn service_of(bytes: &[u8]) -> Option<Service>
    ensures { result ≡ service_named bytes.now }
{
    if begins_in(bytes, b'a', b'z') {
        find_service(bytes)
    } else {
        None
    }
}
