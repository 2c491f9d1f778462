//! The arguments of a service call.
ghost use Rattle.std.specs.Prelude.{◌≡◌, ◌++◌, ◌∷◌, [], IfOk, OnOk};
ghost use Rattle.fmp_tasklang.specs.HeldArguments.{held_items};

use crate::trees::Expression;
use std::alloc::{AllocError, Global};
use std::marker::Model;
use std::{mem, slice};

/// The arguments of a call, without the out place. One alone lies in place, so that it takes no allocation. Contracts
/// see the list of them.
#[derive(Drop)]
pub struct ArgumentList {
    held: ArgumentRoom,
}

/// Where the arguments lie.
#[derive(Drop)]
enum ArgumentRoom {
    Nothing,
    One(Expression),
    Several(Vec<Expression>),
}

impl Model for ArgumentList {
    ghost use Rattle.std.specs.Coded.{codes};
    ghost use Rattle.fmp_tasklang.specs.ArgumentLists.{ArgumentItems};
    ghost use Rattle.fmp_tasklang.specs.contracts.trees.Expression as expression;

    ghost Value = { ArgumentItems };

    ghost coded = { Prim.hlevel (codes, expression.the_row.coded) };

    ghost use Rattle.fmp_tasklang.specs.HeldArguments.{held_items};

    ghost view = { λ a. record { items = held_items a.held } };
}

/// What is held with a further argument. The error is out of memory.
fn with_argument(
    alloc: Global,
    held: ArgumentRoom,
    argument: Expression,
) -> Result<ArgumentRoom, AllocError>
    ensures { IfOk result (λ h. held_items h ≡ held_items held ++ argument ∷ []) }
{
    match held {
        ArgumentRoom::Nothing => Ok(ArgumentRoom::One(argument)),
        ArgumentRoom::One(first) => {
            let mut several = Vec::with_capacity(alloc, 2)?;
            several.push(first)?;
            several.push(argument)?;
            Ok(ArgumentRoom::Several(several))
        }
        ArgumentRoom::Several(several) => {
            let mut several = several;
            several.push(argument)?;
            Ok(ArgumentRoom::Several(several))
        }
    }
}

impl ArgumentList {
    /// No arguments, with room for this many. The error is out of memory.
    pub(crate) fn with_capacity(alloc: Global, count: usize) -> Result<ArgumentList, AllocError>
        ensures { IfOk result (λ arguments. arguments.items ≡ []) }
    {
        if count < 2 {
            return Ok(ArgumentList {
                held: ArgumentRoom::Nothing,
            });
        }
        let several = Vec::with_capacity(alloc, count)?;
        Ok(ArgumentList {
            held: ArgumentRoom::Several(several),
        })
    }

    /// Appends an argument. The error is out of memory.
    pub(crate) fn push(&mut self, alloc: Global, argument: Expression) -> Result<(), AllocError>
        ensures { OnOk result (self.new.items ≡ self.old.items ++ argument ∷ []) }
    {
        let held = mem::replace(&mut self.held, ArgumentRoom::Nothing);
        self.held = with_argument(alloc, held, argument)?;
        Ok(())
    }

    /// The arguments, in order.
    pub fn as_slice(&self) -> &[Expression]
        ensures { result.now ≡ self.now.items }
    {
        match &self.held {
            ArgumentRoom::Nothing => &[],
            ArgumentRoom::One(argument) => slice::from_ref(argument),
            ArgumentRoom::Several(arguments) => arguments,
        }
    }
}
