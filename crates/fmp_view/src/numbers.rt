//! What is said of a value that is not a number in the range of its option.
use fmp_arguments::{Argument, ArgumentKind, CommandForm, OptionValue};
use std::alloc::{AllocError, Global};

/// The ends of ranges that help says as powers of two.
const POWERS: [(u64, &str); 5] = [
    (1 << 20, "2^20"),
    (1 << 31, "2^31"),
    (u32::MAX as u64, "2^32 - 1"),
    (1 << 48, "2^48"),
    (u64::MAX, "2^64 - 1"),
];

/// The numbers that an option takes.
#[derive(Clone, Copy)]
struct NumberRange {
    low: u64,
    high: u64,
}

/// The numbers that a value may be, if it is a number.
fn range_of_value(value: OptionValue) -> Option<NumberRange> {
    match value {
        OptionValue::Number(low, high) | OptionValue::Default(low, high, _) => {
            Some(NumberRange { low, high })
        }
        OptionValue::Text | OptionValue::OneOf(..) => None,
    }
}

/// The numbers that an argument takes, if it is an option with a number.
fn range_of(argument: &Argument) -> Option<NumberRange> {
    match argument.1 {
        ArgumentKind::Option(_, value) => range_of_value(value),
        _ => None,
    }
}

/// The numbers that the option of this name takes in a command.
fn range_in(form: &CommandForm, id: &str) -> Option<NumberRange> {
    for argument in form.arguments {
        if argument.0 == id {
            return range_of(argument);
        }
    }
    None
}

/// The numbers that the option of this name takes in the command of this name, if it is one of these.
fn range_among(forms: &[&CommandForm], command: &str, id: &str) -> Option<NumberRange> {
    for form in forms {
        if form.name == command {
            return range_in(form, id);
        }
    }
    None
}

/// The name of the option of which the front of a message speaks last, as in `for '--bound <N>`.
fn option_of(front: &str) -> Option<&str> {
    let (_, option) = front.rsplit_once("'--")?;
    let (name, _) = option.split_once(' ')?;
    Some(name)
}

/// The numbers that the option of a command takes of which the front of a message speaks.
fn range_for(forms: &[&CommandForm], command: &str, front: &str) -> Option<NumberRange> {
    range_among(forms, command, option_of(front)?)
}

/// The line of a message, before the reason that it gives, and the lines after it.
fn parts_of(message: &str) -> Option<(&str, &str)> {
    let (line, rest) = message.split_once('\n')?;
    let (front, _) = line.rsplit_once("': ")?;
    Some((front, rest))
}

/// The end of a range, as help says it.
fn end_text(alloc: Global, number: u64) -> Result<String, AllocError> {
    for (power, text) in POWERS {
        if number == power {
            return String::from_str(alloc, text);
        }
    }
    format!(in alloc; "{number}")
}

/// The message of the command line's parser for a value that is not a number in the range of its option, with the range
/// in place of the parser's reason; none for another message. The option is one of this command, which is one of these.
/// `AllocError` if memory runs out.
pub fn number_text(
    alloc: Global,
    forms: &[&CommandForm],
    command: &str,
    message: &str,
) -> Result<Option<String>, AllocError> {
    let Some((front, rest)) = parts_of(message) else {
        return Ok(None);
    };
    let Some(range) = range_for(forms, command, front) else {
        return Ok(None);
    };
    let low = range.low;
    let high = end_text(alloc, range.high)?;
    let text = format!(in alloc;
        "{front}': it must be {low} to {high}, in decimal digits\n{rest}"
    )?;
    Ok(Some(text))
}
