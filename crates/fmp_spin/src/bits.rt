//! Bitmaps, kept in words of 64.
ghost use Rattle.std.specs.Prelude.{◌≡◌, ◌≢◌, ℕ, ◌+◌, ◌*◌, ◌≤◌, ◌<◌, length, true};
ghost use Rattle.std.specs.Int.{bit_at};
ghost use Rattle.fmp_spin.specs.Bits.{bit_in, as_bit, IsFirst};

/// A word with a bit set or cleared.
fn with_bit(word: u64, place: u8, set: bool) -> u64
    requires { place < 64 }
    ensures changed { bit_at result place ≡ as_bit set }
    ensures others { (i : ℕ) → i < 64 → i ≢ place → bit_at result i ≡ bit_at word i }
{
    if set {
        word | 1 << place
    } else {
        word & !(1 << place)
    }
}

/// Sets or clears a bit.
pub fn set_bit(words: &mut [u64], k: usize, set: bool)
    requires { k < length words.old * 64 }
    ensures changed { bit_in words.new k ≡ as_bit set }
    ensures others { (i : ℕ) → i ≢ k → bit_in words.new i ≡ bit_in words.old i }
    ensures words { length words.new ≡ length words.old }
{
    let word = words[k / 64];
    words[k / 64] = with_bit(word, (k % 64) as u8, set);
}

/// The lowest bit of a word that is set, if any.
fn lowest_bit(word: u64) -> Option<usize>
    ensures { IsFirst (bit_at word) 64 result }
{
    if word == 0 {
        None
    } else {
        Some(word.trailing_zeros() as usize)
    }
}

/// The first set bit in this many words from one on, if any.
pub fn first_bit(words: &[u64], from: usize, count: usize) -> Option<usize>
    requires inside { from + count ≤ length words.now }
    requires few { count ≤ 255 }
    ensures { IsFirst (λ i. bit_in words.now (from * 64 + i)) (count * 64) result }
{
    for w in 0..count {
        if let Some(k) = lowest_bit(words[from + w]) {
            return Some(w * 64 + k);
        }
    }
    None
}

/// Whether five words are 0, in one test.
fn are_zero(a: u64, b: u64, c: u64, d: u64, e: u64) -> bool
    ensures { result ≡ true → (a ≡ 0) × (b ≡ 0) × (c ≡ 0) × (d ≡ 0) × (e ≡ 0) }
{
    a | b | c | d | e == 0
}

/// Whether no bit of five words from one on is set.
pub fn is_clear(words: &[u64], from: usize) -> bool
    requires { from + 5 ≤ length words.now }
    ensures { result ≡ true → (i : ℕ) → i < 320 → bit_in words.now (from * 64 + i) ≡ 0 }
{
    are_zero(
        words[from],
        words[from + 1],
        words[from + 2],
        words[from + 3],
        words[from + 4],
    )
}
