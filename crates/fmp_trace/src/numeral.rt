//! Numbers that are written many times.
ghost use Rattle.std.specs.Prelude.{◌≡◌, ◌<◌, ◌≤◌, ◌^◌, ◌++◌, ◌+◌, ◌-◌, ℕ, decimal, get_or, length, take, drop, false};
ghost use Rattle.std.specs.Prelude.{true};
ghost use Rattle.fmp_base.specs.Texts.{processor_text};

use crate::texts::{append_array, append_front, append_processor};
use itoa::write_digits;
use std::marker::Model;

/// The most digits of a number.
const DIGITS: usize = 16;

/// A number with its decimal digits at hand, and after them the text of a processor, as the lines of an event begin.
/// It is seen as the number.
#[derive(Drop)]
pub struct Numeral {
    number: u32,
    /// The place of the processor, below 9.
    processor: u8,
    /// The digits, and the text of the processor. The bytes after them mean nothing.
    bytes: [u8; DIGITS],
    /// How many digits there are.
    count: usize,
}

impl Model for Numeral {
    ghost use Rattle.std.specs.Prelude.{ℕ, ◌≡◌, ◌<◌, ◌≤◌, decimal, drop, take};
    ghost use Rattle.fmp_base.specs.Texts.{processor_text};

    ghost Value = { ℕ };

    ghost view = { λ n. n.number };

    ghost invariant = { λ n. (0 < n.count) × (n.count ≤ 10) × (n.processor < 9)
        × (take n.count n.bytes ≡ decimal n.number)
        × (take 4 (drop n.count n.bytes) ≡ processor_text n.processor) };
}

/// Adds one to digits that end in 9, if only the last two of them change.
#[inline(never)]
fn count_tens_on(digits: &mut [u8; DIGITS], count: usize) -> bool
    requires some { 0 < count }
    requires few { count ≤ 16 }
    requires nine { 57 ≤ get_or digits.now (count - 1) 0 }
    ensures next { (n : ℕ) → n < 2 ^ 32 → take count digits.old ≡ decimal n → result ≡ true
        → take count digits.new ≡ decimal (n + 1) }
    ensures kept { result ≡ false → digits.new ≡ digits.old }
    ensures behind { drop count digits.new ≡ drop count digits.old }
{
    if count < 2 {
        return false;
    }
    let tens = digits[count - 2];
    if tens >= b'9' {
        return false;
    }
    digits[count - 2] = tens + 1;
    digits[count - 1] = b'0';
    true
}

/// Adds one to digits, if only the last two of them change.
#[inline(always)]
fn count_on(digits: &mut [u8; DIGITS], count: usize) -> bool
    requires some { 0 < count }
    requires few { count ≤ 16 }
    ensures next { (n : ℕ) → n < 2 ^ 32 → take count digits.old ≡ decimal n → result ≡ true
        → take count digits.new ≡ decimal (n + 1) }
    ensures kept { result ≡ false → digits.new ≡ digits.old }
    ensures behind { drop count digits.new ≡ drop count digits.old }
{
    let last = digits[count - 1];
    if last >= b'9' {
        return count_tens_on(digits, count);
    }
    digits[count - 1] = last + 1;
    true
}

/// Puts the text of a processor after digits.
#[tactic(auto, using(std::proofs::lemmas::Fmt::decimal_digit))]
#[inline(always)]
fn put_processor(processor: u8, bytes: &mut [u8; DIGITS], count: usize)
    requires few { processor < 9 }
    requires room { count ≤ 10 }
    ensures digits { take count bytes.new ≡ take count bytes.old }
    ensures text { take 4 (drop count bytes.new) ≡ processor_text processor }
{
    append_array([b' ', b'p', b'1' + processor, b' '], bytes, count);
}

impl Numeral {
    /// The digits of a number.
    pub fn new(number: u32) -> Numeral
        ensures { result ≡ number }
    {
        let mut buffer = [0; 2 * DIGITS];
        let start = write_digits(u64::from(number), &mut buffer, DIGITS);
        let mut bytes = [0; DIGITS];
        bytes.copy_from_slice(&buffer[start..start + DIGITS]);
        let count = DIGITS - start;
        put_processor(0, &mut bytes, count);
        Numeral {
            number,
            processor: 0,
            bytes,
            count,
        }
    }

    /// Changes the number. If it grows by one, usually only one digit changes.
    #[inline(always)]
    pub fn set(&mut self, number: u32)
        ensures { self.new ≡ number }
    {
        let is_next = number > 0 && self.number == number - 1;
        if is_next && count_on(&mut self.bytes, self.count) {
            self.number = number;
        } else {
            self.renew(number);
        }
    }

    #[cold]
    #[inline(never)]
    fn renew(&mut self, number: u32)
        ensures { self.new ≡ number }
    {
        *self = Numeral::new(number);
    }

    /// Puts the number into a line, and the text of a processor after it, which has a number above 9.
    #[cold]
    #[inline(never)]
    fn append_far(&self, processor: u8, line: &mut [u8], end: usize) -> usize
        requires { end + 29 ≤ length line.old }
        ensures text { take result line.new ≡ take end line.old ++ (decimal self.now ++ processor_text processor) }
        ensures short { result ≤ end + 16 }
    {
        let end = self.append(line, end);
        append_processor(processor, line, end)
    }

    /// Puts the number into a line, and the text of a processor after it: mostly that of the line before.
    #[tactic(auto, using(crate::proofs::LineBytes::front_and_four))]
    #[inline(always)]
    pub fn append_with(&mut self, processor: u8, line: &mut [u8], end: usize) -> usize
        requires { end + 29 ≤ length line.old }
        ensures text { take result line.new ≡ take end line.old ++ (decimal self.old ++ processor_text processor) }
        ensures short { result ≤ end + 16 }
        ensures kept { self.new ≡ self.old }
    {
        if processor == self.processor {
            return append_front(&self.bytes, self.count + 4, line, end);
        }
        if processor > 8 {
            return self.append_far(processor, line, end);
        }
        put_processor(processor, &mut self.bytes, self.count);
        self.processor = processor;
        append_front(&self.bytes, self.count + 4, line, end)
    }

    /// Puts the number into a line.
    #[inline(always)]
    pub fn append(&self, line: &mut [u8], end: usize) -> usize
        requires { end + 16 ≤ length line.old }
        ensures text { take result line.new ≡ take end line.old ++ decimal self.now }
        ensures place { result ≡ end + length (decimal self.now) }
        ensures short { result ≤ end + 10 }
    {
        append_front(&self.bytes, self.count, line, end)
    }
}
