//! Sentences are put together of words.
ghost use Rattle.std.specs.Prelude.{◌≡◌, ◌<◌, ◌++◌, length, position, OnOk};
ghost use Rattle.fmp_diagnosis.specs.Culprits as culprits;
ghost use Rattle.fmp_diagnosis.specs.Words as spec;
ghost use Rattle.fmp_base.specs.Names.{name_text};
ghost use Rattle.fmp_diagnosis.specs.Nearest.{question};
ghost use Rattle.fmp_diagnosis.specs.Words.{IsSaid, IsSaidFirst};

use fmp_base::Name;
use fmp_json::{append, append_signed};
use fmp_lex::{Constant, Symbol, TokenKind};
use std::alloc::AllocError;

/// The bytes of a byte order mark, which editors may put in front of a text.
pub const BYTE_ORDER_MARK: [u8; 3] = [0xEF, 0xBB, 0xBF];

/// Whether a byte ends a word or a number.
fn ends_word(byte: u8) -> bool
    ensures { result ≡ culprits.ends_word byte }
{
    !(byte.is_ascii_alphanumeric() || byte == b'_')
}

/// Where the word or the number ends that these bytes begin with, if they go on after it.
fn word_end(bytes: &[u8]) -> Option<usize>
    ensures { result ≡ position (λ byte. culprits.ends_word byte) bytes.now }
{
    bytes.iter().position(|byte| ends_word(*byte))
}

/// How many bytes of a word or a number stand at the head of these.
pub(crate) fn word_length(bytes: &[u8]) -> usize
    ensures { result ≡ culprits.word_length bytes.now }
{
    word_end(bytes).unwrap_or(bytes.len())
}

/// A piece of a sentence.
#[derive(Clone, Copy)]
pub enum Word {
    /// These letters.
    Text(&'static str),
    /// These letters after `the`.
    The(&'static str),
    /// A name of the texts, in quotes.
    Name(Name),
    /// A word of the texts, in quotes.
    Quoted(&'static str),
    /// A number in decimal digits.
    Number(i64),
}

/// Appends bytes in quotes.
fn append_quoted(bytes: &[u8], out: &mut Vec<u8>) -> Result<(), AllocError>
    ensures { OnOk result (out.new.items ≡ out.old.items ++ spec.quoted bytes.now) }
{
    append(b"`", out)?;
    append(bytes, out)?;
    append(b"`", out)
}

/// Asks whether a name was meant.
pub fn ask_whether(name: &Name, out: &mut Vec<u8>) -> Result<(), AllocError>
    ensures { OnOk result (out.new.items ≡ out.old.items ++ question name.now) }
{
    append(b"; did you mean ", out)?;
    append_quoted(name.as_bytes(), out)?;
    append(b"?", out)
}

fn append_word(word: Word, out: &mut Vec<u8>) -> Result<(), AllocError>
    ensures { OnOk result (out.new.items ≡ out.old.items ++ spec.word_text word) }
{
    match word {
        Word::Text(text) => append(text.as_bytes(), out),
        Word::The(text) => {
            append(b"the ", out)?;
            append(text.as_bytes(), out)
        }
        Word::Name(name) => append_quoted(name.as_bytes(), out),
        Word::Quoted(text) => append_quoted(text.as_bytes(), out),
        Word::Number(number) => append_signed(number, out),
    }
}

/// A count as a word.
pub fn counted(count: usize) -> Word {
    Word::Number(i64::try_from(count).unwrap_or(i64::MAX))
}

/// Appends words, one after another.
pub fn say(words: &[Word], out: &mut Vec<u8>) -> Result<(), AllocError>
    ensures { OnOk result (out.new.items ≡ out.old.items ++ spec.words_text words.now) }
{
    for word in words {
        append_word(*word, out)?;
    }
    Ok(())
}

/// Appends a text that is not empty.
pub fn say_text(text: &str, out: &mut Vec<u8>) -> Result<(), AllocError>
    requires { 0 < length text.now }
    ensures { OnOk result (IsSaid out.old.items out.new.items) }
{
    append(text.as_bytes(), out)
}

/// Appends bytes in quotes, and words after them.
pub fn say_quoted(bytes: &[u8], words: &[Word], out: &mut Vec<u8>) -> Result<(), AllocError>
    ensures said { OnOk result (IsSaid out.old.items out.new.items) }
    ensures quotes { OnOk result (IsSaidFirst (spec.quoted bytes.now) out.old.items out.new.items) }
{
    append_quoted(bytes, out)?;
    say(words, out)
}

/// Appends a name in quotes, and words after it.
pub fn say_of(name: &Name, words: &[Word], out: &mut Vec<u8>) -> Result<(), AllocError>
    ensures said { OnOk result (IsSaid out.old.items out.new.items) }
    ensures names { OnOk result (IsSaidFirst (spec.quoted (name_text name.now)) out.old.items out.new.items) }
{
    say_quoted(name.as_bytes(), words, out)
}

/// The symbols as the texts write them, in order.
static SYMBOLS: [&str; 27] = [
    "&&", "||", "==", "!=", "<=", ">=", "(", ")", "{", "}", "[", "]", ",", ";", "|", "&", "^", "~",
    "!", "=", "<", ">", "+", "-", "*", "/", "%",
];

/// A symbol as the texts write it.
fn symbol_text(symbol: Symbol) -> &'static str {
    SYMBOLS[symbol as usize]
}

/// Says which token this is, by its kind and as the texts write it.
pub fn say_token(kind: TokenKind, out: &mut Vec<u8>) -> Result<(), AllocError>
    ensures { OnOk result (IsSaid out.old.items out.new.items) }
{
    match kind {
        TokenKind::Number(number) => say(
            &[Word::Text("the number "), Word::Number(i64::from(number))],
            out,
        ),
        TokenKind::Name(name) => say(&[Word::Text("the name "), Word::Name(name)], out),
        TokenKind::Constant(constant) => say(
            &[Word::Text("the constant "), Word::Quoted(constant.name())],
            out,
        ),
        TokenKind::Api(api) => say(
            &[Word::Text("the static API "), Word::Quoted(api.name())],
            out,
        ),
        TokenKind::Service(service) => say(
            &[
                Word::Text("the service call "),
                Word::Quoted(service.name()),
            ],
            out,
        ),
        TokenKind::Keyword(keyword) => say(&[Word::Quoted(keyword.name())], out),
        TokenKind::Symbol(symbol) => say(&[Word::Quoted(symbol_text(symbol))], out),
        TokenKind::Bad(_) => say_text("no token", out),
    }
}
