//! What is usually a mistake at a call or in an expression, and what is said of it.
ghost use Rattle.std.specs.Prelude.{OnOk};
ghost use Rattle.fmp_diagnosis.specs.Words.{IsSaid, MaySay};

use crate::walk::{BarredCall, WalkedArgument};
use fmp_base::Name;
use fmp_diagnosis::fields::object_of;
use fmp_diagnosis::words::{Word, say};
use fmp_lex::{Api, Constant};
use std::alloc::AllocError;

/// What is wrong with an argument.
#[derive(Clone, Copy)]
pub enum Wrong {
    /// It is this number, and no name.
    Number(i64),
    /// It is this constant, and no object.
    Constant(Constant),
    /// It is the name of an object that this static API makes.
    Object(Name, Api),
    /// It is this number, which is not from the least to the greatest that the call takes.
    Range(i64, (i64, i64)),
}

/// What is usually a mistake at a call or in an expression.
#[derive(Clone, Copy)]
pub enum Mistake {
    /// The body of the call may never make it.
    Barred(BarredCall),
    /// The call has this argument, which is wrong.
    Argument(WalkedArgument, Wrong),
    /// The shared word of this name stands in an expression.
    SharedWord(Name),
}

fn say_wrong(wrong: Wrong, out: &mut Vec<u8>) -> Result<(), AllocError>
    ensures { OnOk result (IsSaid out.old.items out.new.items) }
{
    match wrong {
        Wrong::Number(number) => say(
            &[
                Word::Text("the argument "),
                Word::Number(number),
                Word::Text(" is not a name; "),
            ],
            out,
        ),
        Wrong::Constant(constant) => say(
            &[
                Word::Text("the constant "),
                Word::Quoted(constant.name()),
                Word::Text(" is not an object; "),
            ],
            out,
        ),
        Wrong::Object(name, api) => say(
            &[
                Word::Name(name),
                Word::Text(" is "),
                Word::Text(object_of(api)),
                Word::Text("; "),
            ],
            out,
        ),
        Wrong::Range(number, _) => say(
            &[
                Word::Text("the argument "),
                Word::Number(number),
                Word::Text(" is out of range; "),
            ],
            out,
        ),
    }
}

/// Says what a call takes as an argument.
fn say_wanted(argument: WalkedArgument, out: &mut Vec<u8>) -> Result<(), AllocError>
    ensures { OnOk result (IsSaid out.old.items out.new.items) }
{
    say(
        &[
            Word::Quoted(argument.service.name()),
            Word::Text(" takes "),
            Word::Text(argument.wanted.called()),
        ],
        out,
    )
}

/// Says which numbers a call takes as an argument that is out of their range.
fn say_range(wrong: Wrong, out: &mut Vec<u8>) -> Result<(), AllocError>
    ensures { OnOk result (MaySay out.old.items out.new.items) }
{
    match wrong {
        Wrong::Range(_, (low, high)) => say(
            &[
                Word::Text(", "),
                Word::Number(low),
                Word::Text(" to "),
                Word::Number(high),
            ],
            out,
        ),
        _ => Ok(()),
    }
}

/// Says what is wrong with an argument of a call, and what the call takes.
fn say_argument(argument: WalkedArgument, wrong: Wrong, out: &mut Vec<u8>) -> Result<(), AllocError>
    ensures { OnOk result (IsSaid out.old.items out.new.items) }
{
    say_wrong(wrong, out)?;
    say_wanted(argument, out)?;
    say_range(wrong, out)
}

/// Says what such a call answers, and which one does the same there.
fn say_barred(barred: BarredCall, out: &mut Vec<u8>) -> Result<(), AllocError>
    ensures { OnOk result (IsSaid out.old.items out.new.items) }
{
    let call = Word::Quoted(barred.service.name());
    let answers = Word::Text(" answers E_CTX in ");
    let body = Word::Text(barred.body.called());
    match barred.service.counterpart() {
        Some(other) => {
            let other = Word::Quoted(other.name());
            say(
                &[call, answers, body, Word::Text("; there it is "), other],
                out,
            )
        }
        None => say(&[call, answers, body], out),
    }
}

/// Says that a name is a number where the value of a shared word may be meant.
fn say_shared_word(name: Name, out: &mut Vec<u8>) -> Result<(), AllocError>
    ensures { OnOk result (IsSaid out.old.items out.new.items) }
{
    say(
        &[
            Word::Name(name),
            Word::Text(" is the number of a shared word here; `ld_shr` reads its value"),
        ],
        out,
    )
}

/// Says what is wrong.
pub fn say_mistake(mistake: Mistake, out: &mut Vec<u8>) -> Result<(), AllocError>
    ensures { OnOk result (IsSaid out.old.items out.new.items) }
{
    match mistake {
        Mistake::Barred(barred) => say_barred(barred, out),
        Mistake::Argument(argument, wrong) => say_argument(argument, wrong, out),
        Mistake::SharedWord(name) => say_shared_word(name, out),
    }
}
