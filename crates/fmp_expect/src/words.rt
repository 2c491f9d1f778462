//! The lines of a text, and the words of a line.
ghost use Rattle.std.specs.Prelude.{◌≡◌, ◌≢◌, ◌∷◌, [], ◌<◌, ◌+◌, ℕ, nat_eq, position, length, slice_get, option_map};
ghost use Rattle.std.specs.Prelude.{IfSome, MatchOption, if◌then◌else◌};
ghost use Rattle.fmp_base.specs.Systems.{SystemTables};
ghost use Rattle.fmp_expect.specs.Grammar.{expectations_from, in_front, line_meaning};
ghost use Rattle.fmp_expect.specs.CallSentences.{IsCut};
ghost use Rattle.fmp_expect.specs.Words as spec;
ghost use Rattle.fmp_expect.specs.Words.{lines_of, words_of};

fn is_blank(byte: u8) -> bool
    ensures { result ≡ spec.is_blank byte }
{
    byte == b' ' || byte == b'\t' || byte == b'\r'
}

fn line_feed_in(text: &[u8]) -> Option<usize>
    ensures { result ≡ position (λ byte. nat_eq byte 10) text.now }
{
    text.iter().position(|byte| *byte == b'\n')
}

fn comment_in(line: &[u8]) -> Option<usize>
    ensures { result ≡ position (λ byte. nat_eq byte 35) line.now }
{
    line.iter().position(|byte| *byte == b'#')
}

fn blank_in(line: &[u8]) -> Option<usize>
    ensures { result ≡ position spec.is_blank line.now }
{
    line.iter().position(|byte| is_blank(*byte))
}

/// The first line of a text, and the text after its line feed.
pub fn first_line(text: &[u8]) -> (&[u8], &[u8])
    requires { text.now ≢ [] }
    ensures lines { (sys : SystemTables) → (n : ℕ) → expectations_from sys n (lines_of text.now)
        ≡ in_front n (line_meaning sys result.0.now) (expectations_from sys (n + 1) (lines_of result.1.now)) }
    ensures cut { IsCut text.now result.0.now result.1.now }
    ensures shorter { length result.1.now < length text.now }
{
    match line_feed_in(text) {
        Some(place) => (&text[..place], &text[place + 1..]),
        None => (text, &[]),
    }
}

/// A line without the white space at its end.
fn without_end(line: &[u8]) -> &[u8]
    ensures { result.now ≡ spec.without_end line.now }
{
    line.trim_ascii_end()
}

/// The line of this number of a text, from 1, without the white space at its end; empty where there is no such line.
#[tactic(auto, using(crate::proofs::Splitting::first_is, crate::proofs::Splitting::next_is, crate::proofs::Splitting::no_line))]
pub fn line_at(text: &[u8], number: usize) -> &[u8]
    ensures { result.now ≡ spec.line_at text.now number }
{
    let mut rest = text;
    let mut left = number.saturating_sub(1);
    while !rest.is_empty() {
        let (line, after) = first_line(rest);
        if left == 0 {
            return without_end(line);
        }
        left -= 1;
        rest = after;
    }
    &[]
}

/// What stands before the comment of a line.
pub fn before_comment(line: &[u8]) -> &[u8]
    ensures { result.now ≡ spec.before_comment line.now }
{
    match comment_in(line) {
        Some(place) => &line[..place],
        None => line,
    }
}

fn is_word(part: &[u8]) -> bool
    ensures { result ≡ spec.is_word part.now }
{
    match part {
        [] => false,
        _ => true,
    }
}

/// What stands before the first blank of a line, and what stands after it.
fn first_part(line: &[u8]) -> (&[u8], &[u8])
    requires { line.now ≢ [] }
    ensures words { words_of line.now
        ≡ (if spec.is_word result.0.now then result.0.now ∷ words_of result.1.now else words_of result.1.now) }
    ensures shorter { length result.1.now < length line.now }
{
    match blank_in(line) {
        Some(place) => (&line[..place], &line[place + 1..]),
        None => (line, &[]),
    }
}

/// The first word of a line, and what stands after it.
pub fn next_word(line: &[u8]) -> Option<(&[u8], &[u8])>
    ensures word { MatchOption result (words_of line.now ≡ [])
        (λ next. words_of line.now ≡ next.0.now ∷ words_of next.1.now) }
    ensures shorter { IfSome result (λ next. length next.1.now < length line.now) }
{
    let mut rest = line;
    while !rest.is_empty() {
        let (part, after) = first_part(rest);
        if is_word(part) {
            return Some((part, after));
        }
        rest = after;
    }
    None
}

/// How many words a line has.
pub fn word_count(line: &[u8]) -> usize
    ensures { result ≡ length (words_of line.now) }
{
    let mut count = 0;
    let mut rest = line;
    while let Some((_, after)) = next_word(rest) {
        count += 1;
        rest = after;
    }
    count
}

/// The word at a place of a line, from 0.
pub fn word_at(line: &[u8], place: usize) -> Option<&[u8]>
    ensures { option_map (λ word. word.now) result ≡ slice_get (words_of line.now) place }
{
    let mut rest = line;
    let mut left = place;
    while let Some((word, after)) = next_word(rest) {
        if left == 0 {
            return Some(word);
        }
        left -= 1;
        rest = after;
    }
    None
}
