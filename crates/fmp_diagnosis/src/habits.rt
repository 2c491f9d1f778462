//! What is written by habit from C or for other kernels, and what stands in its place.
ghost use Rattle.std.specs.Prelude.{◌<◌, length, IfSome, OnOk};
ghost use Rattle.fmp_diagnosis.specs.Words.{MaySay};

use crate::around::{Around, last_body, line_of, name_at};
use crate::expected_statement::is_outside;
use crate::left_out::is_type;
use crate::words::{Word, say};
use fmp_base::Name;
use fmp_lex::{Keyword, Symbol, TextFile, TokenKind, Tokens};
use std::alloc::AllocError;

/// What is written by habit at a position: how the words begin that say what is expected there, the beginnings of what
/// is written instead, and what is said of that.
struct Habit(&'static str, &'static [&'static str], &'static str);

/// What is said of a first value in a declaration.
const ZERO_AT_FIRST: &str = "; a variable is 0 at first, and a statement gives it another value";

/// Habits in configurations.
static IN_CONFIGURATIONS: [Habit; 10] = [
    Habit(
        "`NUM_PRC`",
        &["task ", "handler "],
        "; this is a task text, which comes second",
    ),
    Habit("`NUM_PRC`", &["run ", "tick"], "; this is a steps text"),
    Habit("`NUM_PRC`", &["FMPI"], "; this is an image"),
    Habit(
        "`NUM_PRC`",
        &["INCLUDE"],
        "; no file is included; `fmp_view import` reads a configuration of TOPPERS",
    ),
    Habit(
        "`CLASS` or",
        &["CRE_", "DEF_"],
        "; a static API stands in a class, as in `CLASS(TCL_1) { .. }`",
    ),
    Habit(
        "`CLASS` or",
        &["task ", "handler "],
        "; a body stands in the task text",
    ),
    Habit(
        "`,` and",
        &["+", "-", "*", "/", "<<"],
        "; only `|` joins values",
    ),
    Habit(
        "`}` after",
        &["+", "-", "*", "/", "<<"],
        "; only `|` joins values",
    ),
    Habit("the ", &["("], "; a value has no parentheses and no cast"),
    Habit(
        "the ",
        &["{ TNFY_", "{TNFY_"],
        "; `fmp_view import` reads configurations of FMP3",
    ),
];

/// Habits in task texts.
static IN_TASK_TEXTS: [Habit; 23] = [
    Habit(
        "`task` or",
        &["NUM_PRC"],
        "; this is a configuration, which comes first",
    ),
    Habit("`task` or", &["run ", "tick"], "; this is a steps text"),
    Habit("`task` or", &["FMPI"], "; this is an image"),
    Habit(
        "`task`",
        &[
            "cyclic ",
            "alarm ",
            "isr ",
            "interrupt ",
            "thread ",
            "process ",
            "function ",
            "func ",
            "fn ",
            "body ",
        ],
        "; a body begins `task NAME {` or `handler NAME {`",
    ),
    Habit(
        "`{`",
        &["()", "(exinf", "(void", "(intptr_t", "(VP_INT"],
        "; a body has no parameters: `exinf` is its first variable",
    ),
    Habit("`;` or `[`", &["="], ZERO_AT_FIRST),
    Habit(
        "`;` or `[`",
        &[","],
        "; each variable has a `var` of its own",
    ),
    Habit("an operator or `)`", &["="], "; `==` compares"),
    Habit(
        "an expression, argument",
        &["&"],
        "; `&` stands before a variable that gets a value",
    ),
    Habit(
        "an operator or",
        &["and ", "or "],
        "; `&&` is the operator for and, `||` that for or",
    ),
    Habit(
        "an operator or `;`",
        &["="],
        "; an assignment is a statement, and no part of an expression",
    ),
    Habit(
        "a statement",
        &["("],
        "; there are no casts: a call may stand alone",
    ),
    Habit("a statement", &[";"], "; there is no empty statement"),
    Habit(
        "a statement",
        &["else"],
        "; an `else` follows the block of an `if`",
    ),
    Habit(
        "an operand",
        &["+"],
        "; only `=` changes a variable, as in `x = x + 1`",
    ),
    Habit(
        "",
        &[
            "++", "--", "+=", "-=", "*=", "/=", "%=", "|=", "&=", "^=", "<<=", ">>=",
        ],
        "; only `=` changes a variable, as in `x = x + 1`",
    ),
    Habit(
        "an expression or",
        &["&"],
        "; `&` stands before a variable that gets a value",
    ),
    Habit(
        "an expression or",
        &["{"],
        "; a statement gives a value to each element of an array",
    ),
    Habit(
        "an operator or `;`",
        &[","],
        "; each assignment is a statement of its own",
    ),
    Habit(
        "`)`, since",
        &["["],
        "; `&` stands before a variable, not an element",
    ),
    Habit("`;`", &["["], "; an array has one dimension"),
    Habit("`=`", &["["], "; an array has one dimension"),
    Habit("", &["*", "->"], "; there are no pointers"),
];

/// Whether bytes begin with one of these texts.
pub fn begins_with_one(bytes: &[u8], texts: &[&str]) -> bool {
    texts.iter().any(|text| bytes.starts_with(text.as_bytes()))
}

/// What is said of what is written by habit at a position of a text, after the words that say what is expected there;
/// nothing of anything else.
fn said_of_habit(file: TextFile, expected: &[u8], written: &[u8]) -> &'static str {
    let habits: &'static [Habit] = match file {
        TextFile::Configuration => &IN_CONFIGURATIONS,
        TextFile::Source => &IN_TASK_TEXTS,
    };
    for habit in habits {
        if expected.starts_with(habit.0.as_bytes()) && begins_with_one(written, habit.1) {
            return habit.2;
        }
    }
    ""
}

/// The brace that is open after tokens, the last one of several.
fn open_brace(tokens: &Tokens<'_>) -> Option<usize> {
    let mut closed = 0usize;
    for at in (0..tokens.len()).rev() {
        match tokens.kind(at) {
            Some(TokenKind::Symbol(Symbol::RightBrace)) => closed = closed.saturating_add(1),
            Some(TokenKind::Symbol(Symbol::LeftBrace)) if closed == 0 => return Some(at),
            Some(TokenKind::Symbol(Symbol::LeftBrace)) => closed = closed.saturating_sub(1),
            _ => {}
        }
    }
    None
}

/// Whether the text ends at the position or goes on with the next class or body, where `}` was to come first.
fn is_unclosed(around: &Around<'_>, expected: &[u8]) -> bool {
    expected.ends_with(b" or `}`")
        && matches!(
            around.here(),
            None | Some(TokenKind::Keyword(Keyword::Class | Keyword::Task | Keyword::Handler))
        )
}

/// Says which brace is not closed after these tokens of a text: that of a class, or one of a body.
fn say_open_brace(
    file: TextFile,
    tokens: &Tokens<'_>,
    at: usize,
    out: &mut Vec<u8>,
) -> Result<(), AllocError>
    ensures { OnOk result (MaySay out.old.items out.new.items) }
{
    let line = Word::Number(i64::from(line_of(tokens, at).unwrap_or(1)));
    let is_open = Word::Text(" is not closed");
    match (file, name_at(tokens, at.saturating_sub(2))) {
        (TextFile::Configuration, Some(name)) => {
            let class = [
                Word::Text("; the class "),
                Word::Name(name),
                Word::Text(" at line "),
            ];
            say(&class, out)?;
            say(&[line, is_open], out)
        }
        _ => say(&[Word::Text("; the `{` at line "), line, is_open], out),
    }
}

/// Whether a value may begin with this token.
fn begins_value(kind: TokenKind) -> bool {
    matches!(
        kind,
        TokenKind::Number(_)
            | TokenKind::Name(_)
            | TokenKind::Constant(_)
            | TokenKind::Symbol(Symbol::LeftParen | Symbol::Minus | Symbol::Not | Symbol::Tilde)
    )
}

/// Whether an operator is written so that stands between its operands.
fn is_operator(kind: TokenKind) -> bool {
    matches!(
        kind,
        TokenKind::Symbol(
            Symbol::AndAnd
                | Symbol::OrOr
                | Symbol::Equal
                | Symbol::NotEqual
                | Symbol::LessEqual
                | Symbol::GreaterEqual
                | Symbol::Or
                | Symbol::And
                | Symbol::Xor
                | Symbol::Less
                | Symbol::Greater
                | Symbol::Plus
                | Symbol::Minus
                | Symbol::Star
                | Symbol::Slash
                | Symbol::Percent
        )
    )
}

/// Whether a name has these letters.
fn has_letters(name: &Name, letters: &[u8]) -> bool {
    name.as_bytes() == letters
}

/// What is said of an expression as of another language, by the token before the position and that at it; nothing of
/// anything else.
fn said_of_expression(before: TokenKind, here: TokenKind, expected: &[u8]) -> &'static str {
    match (before, here) {
        (TokenKind::Name(not), _) if has_letters(&not, b"not") => "; `!` negates",
        (TokenKind::Symbol(Symbol::Minus), TokenKind::Symbol(Symbol::Greater)) => {
            "; there are no pointers and no structures"
        }
        (TokenKind::Symbol(Symbol::Less), TokenKind::Symbol(Symbol::Greater)) => {
            "; `!=` is the operator for not equal"
        }
        (TokenKind::Symbol(Symbol::Equal), TokenKind::Symbol(Symbol::Assign)) => "; `==` compares",
        (TokenKind::Keyword(Keyword::If | Keyword::While), _)
            if expected == b"`(`".as_slice() && begins_value(here) => {
            "; a condition stands in parentheses"
        }
        (TokenKind::Symbol(Symbol::RightBracket), TokenKind::Symbol(Symbol::Assign))
            if expected == b"`;`".as_slice() => ZERO_AT_FIRST,
        (TokenKind::Symbol(Symbol::RightParen), _)
            if expected == b"`;`".as_slice() && is_operator(here) => {
            "; a service call stands alone, or alone to the right of `=`"
        }
        _ => "",
    }
}

/// Whether the parenthesis before the position closes a type of C.
fn has_type_before(around: &Around<'_>) -> bool {
    match (around.back(3), around.back(2)) {
        (Some(TokenKind::Symbol(Symbol::LeftParen)), Some(TokenKind::Name(name))) => is_type(&name),
        _ => false,
    }
}

/// What is said of a value after `return` in its line, of statements without braces after a condition or `else`, and
/// of casts and `NULL`; of anything else what is said of expressions.
fn said_of_statement(around: &Around<'_>, expected: &[u8]) -> &'static str {
    match (around.back(1), around.here()) {
        (_, None) => "",
        (Some(TokenKind::Keyword(Keyword::Return)), Some(kind))
            if around.is_in_line() && begins_value(kind) => "; a body gives no value",
        (Some(TokenKind::Keyword(Keyword::Else) | TokenKind::Symbol(Symbol::RightParen)), _)
            if expected.starts_with(b"`{`") => {
            "; the statements of `if`, `else` and `while` stand in braces"
        }
        (Some(TokenKind::Symbol(Symbol::RightParen)), Some(kind))
            if begins_value(kind) && has_type_before(around) => {
            "; there are no casts: all values are 32-bit numbers"
        }
        (_, Some(TokenKind::Keyword(Keyword::Null))) => "; `NULL` is written as 0",
        (Some(before), Some(here)) => said_of_expression(before, here, expected),
        _ => "",
    }
}

/// What is said of the values of a static API without braces; nothing of anything else.
fn said_of_api(around: &Around<'_>, expected: &[u8]) -> &'static str {
    match (around.back(1), around.here()) {
        (Some(TokenKind::Symbol(Symbol::Comma)), Some(_)) if expected == b"`{`".as_slice() => {
            "; the values of a static API stand in braces"
        }
        _ => "",
    }
}

/// Whether a semicolon stands at the position, after a brace that closes a class or a body.
fn is_semicolon_after_brace(around: &Around<'_>, expected: &[u8]) -> bool {
    expected.ends_with(b"the end of the text")
        && around.here() == Some(TokenKind::Symbol(Symbol::Semicolon))
        && around.back(1) == Some(TokenKind::Symbol(Symbol::RightBrace))
}

/// Whether a reserved word stands at the position, where a name is expected.
fn is_reserved(around: &Around<'_>, expected: &[u8]) -> bool {
    let is_word = matches!(
        around.here(),
        Some(
            TokenKind::Keyword(_)
                | TokenKind::Constant(_)
                | TokenKind::Api(_)
                | TokenKind::Service(_),
        )
    );
    is_word && begins_with_one(expected, &["a name for ", "the name of "])
}

/// What is said of what is written by habit at the position, after the words that say what is expected there;
/// nothing of anything else.
fn said_at(around: &Around<'_>, expected: &[u8]) -> &'static str {
    if is_semicolon_after_brace(around, expected) {
        return "; no `;` stands after this `}`";
    }
    if is_reserved(around, expected) {
        return "; this word is reserved in both texts";
    }
    let said = match around.file {
        TextFile::Configuration => said_of_api(around, expected),
        TextFile::Source => said_of_statement(around, expected),
    };
    if said.is_empty() {
        said_of_habit(around.file, expected, around.bytes)
    } else {
        said
    }
}

/// Whether a statement or a brace stands at the position, after the end of a body.
fn is_after_body(around: &Around<'_>, expected: &[u8]) -> bool {
    if !expected.starts_with(b"`task`, `handler` or") {
        return false;
    }
    match (around.here(), around.rest.tokens.kind(1)) {
        (Some(TokenKind::Service(_) | TokenKind::Symbol(Symbol::RightBrace)), _) => true,
        (Some(TokenKind::Keyword(keyword)), _) => matches!(
            keyword,
            Keyword::If | Keyword::Else | Keyword::While | Keyword::Return
        ),
        (Some(TokenKind::Name(_)), Some(TokenKind::Symbol(symbol))) => matches!(
            symbol,
            Symbol::Assign | Symbol::LeftBracket
        ),
        _ => false,
    }
}

/// Says where the body ended that these tokens end with.
fn say_ended_body(tokens: &Tokens<'_>, out: &mut Vec<u8>) -> Result<(), AllocError>
    ensures { OnOk result (MaySay out.old.items out.new.items) }
{
    let end = line_of(tokens, tokens.len().saturating_sub(1)).unwrap_or(1);
    let ended = Word::Text(" ended at line ");
    let line = Word::Number(i64::from(end));
    match name_at(tokens, last_body(tokens).saturating_add(1)) {
        Some(name) => say(
            &[Word::Text("; the body "), Word::Name(name), ended, line],
            out,
        ),
        None => say(&[Word::Text("; the body before"), ended, line], out),
    }
}

/// Says what stands in the place of what is written by habit at the position, after the words that say what is expected
/// there; or which brace is to be closed first, or where the body ended.
pub fn say_habit(around: &Around<'_>, expected: &[u8], out: &mut Vec<u8>) -> Result<(), AllocError>
    ensures { OnOk result (MaySay out.old.items out.new.items) }
{
    if is_unclosed(around, expected) {
        if let Some(at) = open_brace(&around.before.tokens) {
            return say_open_brace(around.file, &around.before.tokens, at, out);
        }
    }
    if is_after_body(around, expected) {
        return say_ended_body(&around.before.tokens, out);
    }
    say(&[Word::Text(said_at(around, expected))], out)
}

/// How many names stand at the head of tokens, or `var` in the place of one.
fn names_at_head(tokens: &Tokens<'_>) -> usize {
    for at in 0..tokens.len() {
        match tokens.kind(at) {
            Some(TokenKind::Name(_) | TokenKind::Keyword(Keyword::Var)) => {}
            _ => return at,
        }
    }
    tokens.len()
}

/// Whether the position stands before, between or after the bodies of a task text.
fn is_between_bodies(around: &Around<'_>) -> bool {
    match around.back(1) {
        None => true,
        Some(TokenKind::Symbol(Symbol::RightBrace)) => is_outside(&around.before.tokens),
        _ => false,
    }
}

/// What is said of a declaration as of C that stands at the position of a text outside bodies.
pub fn said_of_declaration(around: &Around<'_>) -> Option<&'static str>
    ensures { IfSome result (λ text. 0 < length text.now) }
{
    let names = names_at_head(&around.rest.tokens);
    if around.file == TextFile::Configuration || names < 2 || !is_between_bodies(around) {
        return None;
    }
    match around.rest.tokens.kind(names) {
        Some(TokenKind::Symbol(Symbol::LeftParen)) => {
            Some("there are no functions; a body begins `task NAME {` or `handler NAME {`")
        }
        Some(
            TokenKind::Symbol(
                Symbol::Semicolon | Symbol::Comma | Symbol::Assign | Symbol::LeftBracket,
            ),
        ) => Some("a variable stands in a body; `CRE_SHR` makes a word that bodies share"),
        _ => None,
    }
}
