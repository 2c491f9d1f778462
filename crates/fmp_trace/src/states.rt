//! The states of the tasks at the end.
ghost use Rattle.std.specs.Prelude.{◌≡◌, ◌<◌, ◌≤◌, ◌+◌, ◌++◌, codes, length, take, vec_capacity, vec_len, OnOk, OnErr};
ghost use Rattle.fmp_base.specs.Systems.{tables_of};
ghost use Rattle.fmp_base.specs.Texts.{task_name, word_text, state_text};
ghost use Rattle.fmp_trace.specs.Fronts.{Begins};
ghost use Rattle.fmp_trace.specs.ListedStates.{listed_states_text, ListedStatesAreStates};
ghost use Rattle.fmp_trace.specs.Rooms.{states_room};

use crate::names::append_name_at;
use crate::texts::{
    LineBytes, ROOM, append, append_array, append_line, append_number, append_processor,
};
use fmp_base::{StateWord, System, TaskState};
use std::alloc::AllocError;

/// The name of the task at this place, and the word for its state.
fn append_word(sys: &System, task: usize, word: StateWord, line: &mut [u8], end: usize) -> usize
    requires { end + 49 ≤ length line.old }
    ensures text { take result line.new ≡
        take end line.old ++ (task_name (tables_of sys.now) task ++ (codes " " ++ word_text word)) }
    ensures short { result ≤ end + 49 }
{
    let end = append_name_at(sys, task, line, end);
    let end = append_array(*b" ", line, end);
    append(word.name().as_bytes(), line, end)
}

/// Puts together the line of the task at this place, and gives its end.
fn put_state(sys: &System, task: usize, state: TaskState, line: &mut LineBytes) -> usize
    ensures text { take result line.new ≡ state_text (tables_of sys.now) task state }
    ensures short { result ≤ ROOM }
{
    let end = append_word(sys, task, state.word, line, 0);
    let end = append_processor(state.processor, line, end);
    let end = append_number(u32::from(state.priority), line, end);
    append_array(*b"\n", line, end)
}

fn append_states(sys: &System, states: &[TaskState], out: &mut Vec<u8>) -> Result<(), AllocError>
    ensures ok { OnOk result (out.new.items ≡ out.old.items ++ listed_states_text (tables_of sys.now) 0 states.now) }
    ensures err { OnErr result (Begins out.old.items out.new.items) }
    ensures full { OnErr result (vec_capacity out.old < vec_len out.old + states_room (length states.now)) }
{
    let mut line = [0; ROOM];
    for (task, state) in states.iter().enumerate() {
        let end = put_state(sys, task, *state, &mut line);
        append_line(&line, end, out)?;
    }
    Ok(())
}

/// Appends a line for each state: the first is that of the first task, and so on. If memory runs out, the text stays as
/// it was; it never does if the text has room for that many states.
pub fn print_states(sys: &System, states: &[TaskState], out: &mut Vec<u8>) -> Result<(), AllocError>
    ensures ok { OnOk result (out.new.items ≡ out.old.items ++ listed_states_text (tables_of sys.now) 0 states.now) }
    ensures err { OnErr result (out.new.items ≡ out.old.items) }
    ensures full { OnErr result (vec_capacity out.old < vec_len out.old + states_room (length states.now)) }
{
    let before = out.len();
    let printed = append_states(sys, states, out);
    if printed.is_err() {
        out.truncate(before);
    }
    printed
}

/// What `print_states` appends for the states that the tasks of a system have is the text of its states.
pub fn listed_states_are_states()
    ensures { ListedStatesAreStates }
{}
