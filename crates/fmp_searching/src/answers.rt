//! The answers that calls got in some schedule, as they are printed.
ghost use Rattle.std.specs.Prelude.{◌≡◌, ◌++◌, OnOk, codes, decimal, map};
ghost use Rattle.std.specs.List.{flat_map};
ghost use Rattle.fmp_searching.specs.Answers as spec;
ghost use Rattle.fmp_searching.specs.Made.{answered_call};

use fmp_base::Er;
use fmp_json::{append, append_number};
use std::alloc::{AllocError, Global};

/// A call that was made, and what it was answered.
#[derive(Drop)]
pub struct Answered {
    /// The line of the text in which it stands, from 1.
    pub line: u32,
    /// The column of its name in that line, from 1.
    pub column: usize,
    /// The codes, each once; none if the call was never answered.
    pub answers: Vec<Er>,
}

/// Appends a code after a blank.
fn append_name(code: Er, out: &mut Vec<u8>) -> Result<(), AllocError>
    ensures { OnOk result (out.new.items ≡ out.old.items ++ spec.name_text code) }
{
    append(b" ", out)?;
    append(code.name().as_bytes(), out)
}

/// Appends codes, each after a blank.
fn append_each(answers: &[Er], out: &mut Vec<u8>) -> Result<(), AllocError>
    ensures { OnOk result (out.new.items ≡ out.old.items ++ flat_map (λ c. spec.name_text c) answers.now) }
{
    for code in answers {
        append_name(*code, out)?;
    }
    Ok(())
}

/// Appends the codes that a call got, or that it got none.
fn append_names(answers: &[Er], out: &mut Vec<u8>) -> Result<(), AllocError>
    ensures { OnOk result (out.new.items ≡ out.old.items ++ spec.names_text answers.now) }
{
    if answers.is_empty() {
        append(b" none", out)
    } else {
        append_each(answers, out)
    }
}

/// Appends a number after a colon.
fn append_after_colon(number: u64, out: &mut Vec<u8>) -> Result<(), AllocError>
    ensures { OnOk result (out.new.items ≡ out.old.items ++ (codes ":" ++ decimal number)) }
{
    append(b":", out)?;
    append_number(number, out)
}

/// Appends where a call stands in a file.
#[tactic(auto, unfolding(crate::specs::Answers::position_text))]
fn append_position(src: &[u8], call: &Answered, out: &mut Vec<u8>) -> Result<(), AllocError>
    ensures { OnOk result (out.new.items ≡ out.old.items ++ spec.position_text src.now (answered_call call.now)) }
{
    append(src, out)?;
    append_after_colon(u64::from(call.line), out)?;
    append_after_colon(call.column as u64, out)
}

/// Appends where a call stands in this file, and what it got.
#[tactic(auto, unfolding(crate::specs::Answers::answered_text))]
fn append_answered(src: &[u8], call: &Answered, out: &mut Vec<u8>) -> Result<(), AllocError>
    ensures { OnOk result (out.new.items ≡ out.old.items ++ spec.answered_text src.now (answered_call call.now)) }
{
    append(b"answers at ", out)?;
    append_position(src, call, out)?;
    append(b":", out)?;
    append_names(&call.answers, out)?;
    append(b"\n", out)
}

/// Appends a line for each call: where it stands in this file, and what it got. `AllocError` if memory runs out.
pub fn append_answers(src: &[u8], calls: &[Answered], out: &mut Vec<u8>) -> Result<(), AllocError>
    ensures { OnOk result (out.new.items ≡ out.old.items ++ spec.answers_text src.now (map answered_call calls.now)) }
{
    for call in calls {
        append_answered(src, call, out)?;
    }
    Ok(())
}
