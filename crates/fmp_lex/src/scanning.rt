//! Classes of bytes, and runs of them.
ghost use Rattle.std.specs.Prelude.{◌≡◌, ℕ, ◌+◌, ◌<◌, ◌≤◌, ◌⊎◌, length, slice_index, count_by, ◌==◌, MatchOption};
ghost use Rattle.std.specs.Prelude.{EachIndex};
ghost use Rattle.fmp_lex.specs.Scanning.{in_class, IsRun, IsFirstClose, NeverCloses, digit_of, value_from, Saturated};

/// A class of bytes.
#[derive(Clone, Copy)]
pub enum ByteClass {
    /// The letters, the digits and `_`, of which names and words are made.
    Word,
    /// The decimal digits.
    Digit,
    /// The hexadecimal digits.
    Hex,
    /// Space, tab, carriage return and line feed.
    Space,
    /// Every byte but the line feed.
    SameLine,
}

/// For each byte a `1` if it is a letter, a digit or `_`, and a `2` if it is a space.
static CLASSES: [u8; 256] = *b"\
    00000000022002000000000000000000\
    20000000000000001111111111000000\
    01111111111111111111111111100001\
    01111111111111111111111111100000\
    00000000000000000000000000000000\
    00000000000000000000000000000000\
    00000000000000000000000000000000\
    00000000000000000000000000000000";

/// Whether a byte is of a class.
#[inline(always)]
pub(crate) fn is_in(class: ByteClass, b: u8) -> bool
    ensures { result ≡ in_class class b }
{
    match class {
        ByteClass::Word => CLASSES[b as usize] == b'1',
        ByteClass::Digit => b.is_ascii_digit(),
        ByteClass::Hex => b.is_ascii_hexdigit(),
        ByteClass::Space => CLASSES[b as usize] == b'2',
        ByteClass::SameLine => b != b'\n',
    }
}

/// Where the longest run of a class from a place on ends.
#[inline(always)]
pub(crate) fn run_end(text: &[u8], class: ByteClass, from: usize) -> usize
    requires { from ≤ length text.now }
    ensures { IsRun (in_class class) text.now from result }
{
    for i in from..text.len() {
        if !is_in(class, text[i]) {
            return i;
        }
    }
    text.len()
}

/// The first `*/` from a place on.
pub(crate) fn find_close(text: &[u8], from: usize) -> Option<usize>
    ensures { MatchOption result (NeverCloses text.now from) (λ j. IsFirstClose text.now from j) }
{
    if text.is_empty() {
        return None;
    }
    for i in from..text.len() - 1 {
        if text[i] == b'*' && text[i + 1] == b'/' {
            return Some(i);
        }
    }
    None
}

/// The value of a digit.
fn digit(b: u8) -> u64
    requires { b < 128 }
    ensures { result ≡ digit_of b }
{
    let b = u64::from(b);
    if b <= 57 {
        b.saturating_sub(48)
    } else if b <= 70 {
        b - 55
    } else {
        b.saturating_sub(87)
    }
}

/// The value of digits, or some number above the greatest one if theirs is above it.
pub(crate) fn value_of(digits: &[u8], base: u64) -> u64
    requires base { (base ≡ 10) ⊎ (base ≡ 16) }
    requires ascii { EachIndex digits.now (λ k. slice_index digits.now k < 128) }
    ensures { Saturated result (value_from base 0 digits.now) }
{
    let mut value: u64 = 0;
    for b in digits {
        if value <= 2_147_483_647 {
            value = value * base + digit(*b);
        }
    }
    value
}

/// How often a byte stands among at most 255.
#[inline(always)]
fn count_in_block(block: &[u8], byte: u8) -> u8
    requires { length block.now ≤ 255 }
    ensures count { result ≡ count_by (λ b. b == byte) block.now }
    ensures few { result ≤ length block.now }
{
    let mut count = 0;
    for b in block {
        if *b == byte {
            count += 1;
        }
    }
    count
}

/// How often a byte stands in a text. A byte counts those of a block, since many bytes are added at once.
#[inline(always)]
pub(crate) fn count_of(text: &[u8], byte: u8) -> u32
    requires { length text.now ≤ 1048576 }
    ensures count { result ≡ count_by (λ b. b == byte) text.now }
    ensures few { result ≤ length text.now }
{
    let mut count = 0;
    let mut at = 0;
    'blocks: while at < text.len() {
        let end = text.len().min(at + 255);
        count += u32::from(count_in_block(&text[at..end], byte));
        at = end;
    }
    count
}

/// The number of line feeds.
pub(crate) fn line_feeds(text: &[u8]) -> u32
    requires { length text.now ≤ 1048576 }
    ensures count { result ≡ count_by (λ b. b == 10) text.now }
    ensures few { result ≤ length text.now }
{
    count_of(text, b'\n')
}
