//! Pieces of text, each put into a line after the pieces before it. A line is an array of bytes and the place where
//! its text ends.
ghost use Rattle.std.specs.Prelude.{◌≡◌, ◌≤◌, ◌<◌, ◌∷◌, [], ◌++◌, ◌+◌, OnOk, OnErr, decimal, length, take};
ghost use Rattle.std.specs.Prelude.{vec_capacity, vec_len};
ghost use Rattle.std.specs.Fmt.{signed_decimal};
ghost use Rattle.fmp_base.specs.Names.{name_text};
ghost use Rattle.fmp_base.specs.Texts.{processor_text};
ghost use Rattle.fmp_trace.specs.Fronts.{Begins};

use crate::numeral::Numeral;
use fmp_base::Name;
use std::alloc::AllocError;

/// Room for the longest line, for many lines before it, and for what is copied after its end.
pub const ROOM: usize = 1024;

/// The bytes of a line. Those after its end mean nothing.
pub type LineBytes = [u8; ROOM];

/// The number of bytes that are copied at once if a line is no longer.
const SHORT: usize = 96;

/// A text of any length.
#[inline(always)]
pub fn append(text: &[u8], line: &mut [u8], end: usize) -> usize
    requires { end + length text.now ≤ length line.old }
    ensures text { take result line.new ≡ take end line.old ++ text.now }
    ensures place { result ≡ end + length text.now }
{
    line[end..end + text.len()].copy_from_slice(text);
    end + text.len()
}

/// A text whose length is known at compile time. It is taken by value, so that no copy tests whether it lies in the
/// line.
#[inline(always)]
pub fn append_array<const N: usize>(text: [u8; N], line: &mut [u8], end: usize) -> usize
    requires { end + N ≤ length line.old }
    ensures text { take result line.new ≡ take end line.old ++ text.entry }
    ensures place { result ≡ end + N }
{
    line[end..end + N].copy_from_slice(&text);
    end + N
}

/// The first bytes of an array. All are copied, since a number of bytes that is known is copied without a call.
#[inline(always)]
pub fn append_front<const N: usize>(
    bytes: &[u8; N],
    count: usize,
    line: &mut [u8],
    end: usize,
) -> usize
    requires count { count ≤ N }
    requires room { end + N ≤ length line.old }
    ensures text { take result line.new ≡ take end line.old ++ take count bytes.now }
    ensures place { result ≡ end + count }
{
    let bytes = *bytes;
    line[end..end + N].copy_from_slice(&bytes);
    end + count
}

/// A name of any length: its first 15 bytes and its last 16, so that two copies of known length suffice.
#[inline(never)]
fn append_long_name(name: &Name, line: &mut [u8], end: usize) -> usize
    requires { end + 31 ≤ length line.old }
    ensures text { take result line.new ≡ take end line.old ++ name_text name.now }
    ensures short { result ≤ end + 31 }
{
    let (Some(front), Some(back)) = (
        name.bytes.first_chunk::<16>(),
        name.bytes.last_chunk::<16>(),
    ) else {
        unreachable!()
    };
    let middle = append_front(front, 15, line, end);
    append_array(*back, line, middle);
    end + usize::from(name.length).min(Name::MAX)
}

/// A name. Most have at most 16 bytes, and one copy suffices.
#[inline(always)]
pub fn append_name(name: &Name, line: &mut [u8], end: usize) -> usize
    requires { end + 31 ≤ length line.old }
    ensures text { take result line.new ≡ take end line.old ++ name_text name.now }
    ensures short { result ≤ end + 31 }
{
    let length = usize::from(name.length);
    match name.bytes.first_chunk::<16>() {
        Some(front) if length <= 16 => append_front(front, length, line, end),
        _ => append_long_name(name, line, end),
    }
}

/// A number below 10 as its digit.
#[inline(always)]
fn append_digit(digit: u8, line: &mut [u8], end: usize) -> usize
    requires digit { digit < 10 }
    requires room { end + 1 ≤ length line.old }
    ensures text { take result line.new ≡ take end line.old ++ (48 + digit) ∷ [] }
    ensures place { result ≡ end + 1 }
{
    append_array([b'0' + digit], line, end)
}

/// A number of three digits.
#[tactic(auto, using(crate::proofs::Hundreds::decimal_hundreds))]
fn append_hundreds(number: u32, line: &mut [u8], end: usize) -> usize
    requires least { 100 ≤ number }
    requires most { number < 1000 }
    requires room { end + 16 ≤ length line.old }
    ensures text { take result line.new ≡ take end line.old ++ decimal number }
    ensures place { result ≡ end + length (decimal number) }
{
    append_array(
        [
            b'0' + (number / 100) as u8,
            b'0' + (number / 10 % 10) as u8,
            b'0' + (number % 10) as u8,
        ],
        line,
        end,
    )
}

/// A number of four digits.
#[tactic(auto, using(crate::proofs::Hundreds::decimal_thousands))]
fn append_thousands(number: u32, line: &mut [u8], end: usize) -> usize
    requires least { 1000 ≤ number }
    requires most { number < 10000 }
    requires room { end + 16 ≤ length line.old }
    ensures text { take result line.new ≡ take end line.old ++ decimal number }
    ensures place { result ≡ end + length (decimal number) }
{
    append_array(
        [
            b'0' + (number / 1000) as u8,
            b'0' + (number / 100 % 10) as u8,
            b'0' + (number / 10 % 10) as u8,
            b'0' + (number % 10) as u8,
        ],
        line,
        end,
    )
}

/// A number in decimal digits, of any number of digits.
#[inline(never)]
fn append_long_number(number: u32, line: &mut [u8], end: usize) -> usize
    requires { end + 16 ≤ length line.old }
    ensures text { take result line.new ≡ take end line.old ++ decimal number }
    ensures place { result ≡ end + length (decimal number) }
{
    Numeral::new(number).append(line, end)
}

/// A number in decimal digits, of which there are several.
#[tactic(auto, using(std::proofs::lemmas::Fmt::decimal_digit, std::proofs::lemmas::Fmt::decimal_step))]
#[inline(never)]
fn append_digits(number: u32, line: &mut [u8], end: usize) -> usize
    requires several { 10 ≤ number }
    requires room { end + 16 ≤ length line.old }
    ensures text { take result line.new ≡ take end line.old ++ decimal number }
    ensures place { result ≡ end + length (decimal number) }
{
    if number < 100 {
        return append_array(
            [b'0' + (number / 10) as u8, b'0' + (number % 10) as u8],
            line,
            end,
        );
    }
    if number < 1000 {
        return append_hundreds(number, line, end);
    }
    if number < 10_000 {
        return append_thousands(number, line, end);
    }
    append_long_number(number, line, end)
}

/// A number in decimal digits, at most ten.
#[tactic(auto, using(std::proofs::lemmas::Fmt::decimal_digit, crate::proofs::Short::short_number))]
#[inline(always)]
pub fn append_number(number: u32, line: &mut [u8], end: usize) -> usize
    requires { end + 16 ≤ length line.old }
    ensures text { take result line.new ≡ take end line.old ++ decimal number }
    ensures place { result ≡ end + length (decimal number) }
    ensures short { result ≤ end + 10 }
{
    if number < 10 {
        return append_digit(number as u8, line, end);
    }
    append_digits(number, line, end)
}

/// A number in decimal digits, with `-` in front if it is negative.
#[inline(never)]
fn append_any_signed(number: i32, line: &mut [u8], end: usize) -> usize
    requires { end + 17 ≤ length line.old }
    ensures text { take result line.new ≡ take end line.old ++ signed_decimal number }
    ensures short { result ≤ end + 11 }
{
    if number >= 0 {
        return append_number(number as u32, line, end);
    }
    let end = append_array(*b"-", line, end);
    append_number(number.unsigned_abs(), line, end)
}

/// A number in decimal digits, with `-` in front if it is negative. Most have one digit.
#[tactic(auto, using(std::proofs::lemmas::Fmt::decimal_digit))]
#[inline(always)]
pub fn append_signed(number: i32, line: &mut [u8], end: usize) -> usize
    requires { end + 17 ≤ length line.old }
    ensures text { take result line.new ≡ take end line.old ++ signed_decimal number }
    ensures short { result ≤ end + 11 }
{
    if number >= 0 && number < 10 {
        return append_digit(number as u8, line, end);
    }
    append_any_signed(number, line, end)
}

/// The number of the processor at this place, with the blanks around it.
#[tactic(auto, using(std::proofs::lemmas::Fmt::decimal_digit, crate::proofs::Short::short_byte))]
#[inline(always)]
pub fn append_processor(place: u8, line: &mut [u8], end: usize) -> usize
    requires { end + 19 ≤ length line.old }
    ensures text { take result line.new ≡ take end line.old ++ processor_text place }
    ensures short { result ≤ end + 6 }
{
    if place < 9 {
        return append_array([b' ', b'p', b'1' + place, b' '], line, end);
    }
    let end = append_array(*b" p", line, end);
    let end = append_number(u32::from(place) + 1, line, end);
    append_array(*b" ", line, end)
}

/// Appends a line that ends at this place to a text. A short one is copied with what stands after it, which is cut
/// off. If memory runs out, what stood before is still the front of the text; it never does if the text has room for
/// the line and for 96 bytes more.
#[inline(always)]
pub fn append_line(line: &LineBytes, end: usize, out: &mut Vec<u8>) -> Result<(), AllocError>
    requires { end ≤ ROOM }
    ensures ok { OnOk result (out.new.items ≡ out.old.items ++ take end line.now) }
    ensures err { OnErr result (Begins out.old.items out.new.items) }
    ensures full { OnErr result (vec_capacity out.old < vec_len out.old + end + 96) }
    ensures len { OnOk result (vec_len out.new ≡ vec_len out.old + end) }
    ensures capacity { vec_capacity out.old ≤ vec_capacity out.new }
{
    if end > SHORT {
        return out.extend_from_slice(&line[..end]);
    }
    out.extend_from_slice(&line[..SHORT])?;
    out.truncate(out.len() - (SHORT - end));
    Ok(())
}
