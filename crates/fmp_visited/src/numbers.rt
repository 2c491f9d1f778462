//! Numbers in rows: seven bits in a byte, the lowest first.
ghost use Rattle.std.specs.Prelude.{◌≡◌, ◌+◌, ◌<◌, ◌≤◌, ◌%◌, ◌^◌, ◌++◌, ℕ, List, drop, length, take, true};
ghost use Rattle.fmp_visited.specs.Rows.{bytes_of};

/// How many bytes a number has at most.
const LONGEST: usize = 5;

/// Writes a number byte by byte over the bytes from a place on. Gives the place after it.
fn write_bytes(row: &mut [u8], at: usize, number: u32) -> usize
    requires { at + 5 ≤ length row.old }
    ensures length { length row.new ≡ length row.old }
    ensures room { result ≤ at + 5 }
    ensures bytes { take result row.new ≡ take at row.old ++ bytes_of number }
{
    let mut rest = number;
    let mut end = at;
    for _byte in 0..LONGEST {
        if rest < 128 {
            row[end] = rest as u8;
            return end + 1;
        }
        row[end] = (rest % 128 + 128) as u8;
        end += 1;
        rest /= 128;
    }
    end
}

/// Writes a number over the bytes from a place on. Gives the place after it. Each byte but the last has its highest bit
/// set.
#[inline(always)]
#[tactic(auto, using(crate::proofs::NumberLemmas::bytes_small))]
pub fn write_number(row: &mut [u8], at: usize, number: u32) -> usize
    requires { at + 5 ≤ length row.old }
    ensures length { length row.new ≡ length row.old }
    ensures room { result ≤ at + 5 }
    ensures bytes { take result row.new ≡ take at row.old ++ bytes_of number }
{
    if number < 128 {
        row[at] = number as u8;
        return at + 1;
    }
    write_bytes(row, at, number)
}

/// The value of 32 bits that a number is; its lowest bits, if it is no such value.
fn value_of(number: u64) -> u32
    ensures { result ≡ number % 4294967296 }
{
    (number % 4_294_967_296) as u32
}

/// The number that begins at a place of a row, byte by byte, and the place after it.
fn number_from(row: &[u8], place: usize) -> (u32, usize)
    ensures { (number : ℕ) (rest : List ℕ) → number < 2 ^ 32 → drop place row.now ≡ bytes_of number ++ rest →
        (result.0 ≡ number) × (drop result.1 row.now ≡ rest) }
{
    let mut number: u64 = 0;
    let mut unit: u64 = 1;
    let mut at = place;
    for _byte in 0..LONGEST {
        if at >= row.len() {
            return (0, at);
        }
        let byte = row[at];
        at += 1;
        number += (byte % 128) as u64 * unit;
        if byte < 128 {
            return (value_of(number), at);
        }
        unit *= 128;
    }
    (value_of(number), at)
}

/// Whether two lists of bytes are the same.
fn is_same(a: &[u8], b: &[u8]) -> bool
    ensures { result ≡ true → a.now ≡ b.now }
{
    a == b
}

/// Whether the bytes of a row between two places are those of a number.
fn has_bytes(row: &[u8], place: usize, end: usize, number: u32) -> bool
    ensures { result ≡ true → drop place row.now ≡ bytes_of number ++ drop end row.now }
{
    if place > end || end > row.len() {
        return false;
    }
    let mut bytes: [u8; LONGEST] = [0; LONGEST];
    let count = write_bytes(&mut bytes, 0, number);
    is_same(&row[place..end], &bytes[..count])
}

/// A number that was read from a row.
#[derive(Clone, Copy)]
pub struct NumberRead {
    /// Its value.
    pub number: u32,
    /// The place after it.
    pub end: usize,
    /// Whether its bytes are the ones that `write_number` writes for it.
    pub exact: bool,
}

/// The number of more than one byte, or of none, that begins at a place of a row.
#[inline(never)]
fn long_number_at(row: &[u8], place: usize) -> NumberRead
    ensures told { (number : ℕ) (rest : List ℕ) → number < 2 ^ 32 → drop place row.now ≡ bytes_of number ++ rest →
        (result.number ≡ number) × (drop result.end row.now ≡ rest) }
    ensures exact { result.exact ≡ true → drop place row.now ≡ bytes_of result.number ++ drop result.end row.now }
{
    let (number, end) = number_from(row, place);
    NumberRead {
        number,
        end,
        exact: has_bytes(row, place, end, number),
    }
}

/// The number that begins at a place of a row.
#[inline(always)]
#[tactic(auto, using(crate::proofs::ReadingLemmas::number_small, crate::proofs::ExactLemmas::number_here))]
pub fn number_at(row: &[u8], place: usize) -> NumberRead
    ensures told { (number : ℕ) (rest : List ℕ) → number < 2 ^ 32 → drop place row.now ≡ bytes_of number ++ rest →
        (result.number ≡ number) × (drop result.end row.now ≡ rest) }
    ensures exact { result.exact ≡ true → drop place row.now ≡ bytes_of result.number ++ drop result.end row.now }
{
    if place < row.len() {
        let byte = row[place];
        if byte < 128 {
            return NumberRead {
                number: u32::from(byte),
                end: place + 1,
                exact: true,
            };
        }
    }
    long_number_at(row, place)
}
