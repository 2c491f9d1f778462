//! Whose block or body a field is of.
ghost use Rattle.std.specs.Prelude.{◌≡◌};
ghost use Rattle.fmp_fields.specs.FieldNumbers.{owner_of as owner_by, task_of as task_by};

use crate::field::What;

/// Whose body a field is of: that of a task, or of the handler of a processor.
#[derive(Clone, Copy, PartialEq, Eq)]
pub enum Owner {
    Task(u8),
    Handler(u8),
}

/// Whose body a field is of, if it is of one.
pub fn owner_of(what: What) -> Option<Owner>
    ensures { result ≡ owner_by what }
{
    match what {
        What::Pc(t) | What::Local(t, _) | What::Operands(t) | What::Operand(t, _) => {
            Some(Owner::Task(t))
        }
        What::HandlerPc(p)
        | What::HandlerLocal(p, _)
        | What::HandlerOperands(p)
        | What::HandlerOperand(p, _) => Some(Owner::Handler(p)),
        _ => None,
    }
}

/// The task whose block tells a field, if one does.
pub fn task_of(what: What) -> Option<u8>
    ensures { result ≡ task_by what }
{
    match what {
        What::Phase(t)
        | What::Object(t)
        | What::Wanted(t)
        | What::Suspended(t)
        | What::Priority(t)
        | What::Processor(t)
        | What::Activations(t)
        | What::NextProcessor(t)
        | What::Wakeups(t)
        | What::TicksLeft(t) => Some(t),
        _ => None,
    }
}
