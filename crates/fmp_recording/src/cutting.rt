//! The words of a line, and the lines of a text.
ghost use Rattle.std.specs.Prelude.{◌≡◌, ◌≢◌, ◌<◌, ◌∷◌, [], length, nat_eq, position};
ghost use Rattle.fmp_recording.specs.Recordings.{cut};
ghost use Rattle.fmp_trace.specs.Steps.{lines_of};

fn blank_in(text: &[u8]) -> Option<usize>
    ensures { result ≡ position (λ byte. nat_eq byte 32) text.now }
{
    text.iter().position(|byte| *byte == b' ')
}

fn line_feed_in(text: &[u8]) -> Option<usize>
    ensures { result ≡ position (λ byte. nat_eq byte 10) text.now }
{
    text.iter().position(|byte| *byte == b'\n')
}

/// The first word of a text, and what stands after it, from the blank on that ends it.
pub fn first_word(text: &[u8]) -> (&[u8], &[u8])
    ensures word { (cut text.now).word ≡ result.0.now }
    ensures rest { (cut text.now).rest ≡ result.1.now }
{
    match blank_in(text) {
        Some(position) => (&text[..position], &text[position..]),
        None => (text, &[]),
    }
}

/// The first line of a text, and the text after its line feed.
pub fn first_line(text: &[u8]) -> (&[u8], &[u8])
    requires { text.now ≢ [] }
    ensures lines { lines_of text.now ≡ result.0.now ∷ lines_of result.1.now }
    ensures shorter { length result.1.now < length text.now }
{
    match line_feed_in(text) {
        Some(position) => (&text[..position], &text[position + 1..]),
        None => (text, &[]),
    }
}
