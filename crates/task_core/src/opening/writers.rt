//! The writes of a text, shared out among its writers.
ghost use Rattle.std.specs.Prelude.{◌≡◌, ◌+◌, ◌<◌, ◌^◌, ◌++◌, [], ◌∷◌, All, IfOk, OnOk, filter, length, slice_set};
ghost use Rattle.stack_base.specs.Stack.{IsStack};
ghost use Rattle.layout_model.specs.Writes.{IsWrite};
ghost use Rattle.run_machine.specs.Opened.{is_by, most_writers, todos_by, nodes_of};
ghost use Rattle.task_core.specs.opened.NewTasks.{book_places, writer_with, writers_among, writers_in, AddsTasks, AreServableWrites, ArePlaced};

use layout_model::need;
use stack_base::Stack;
use std::alloc::{AllocError, Global};
use task_steps::{Kind, Todo, Todos, Writer};
use work_text::Work;

// Keeps a write, if it is the writer's.
fn keep(todos: &mut Vec<Todo>, todo: Todo, writer: u32) -> Result<(), AllocError>
    ensures { OnOk result (todos.new.items ≡ todos.old.items ++ filter (is_by writer) (todo ∷ [])) }
{
    if todo.write.task == writer {
        todos.push(todo)?;
    }
    Ok(())
}

// The writes of a writer, in the order of the text.
fn todos_by(alloc: Global, work: &Work, writer: u32) -> Result<Vec<Todo>, AllocError>
    requires paired { length work.now.rounds.items ≡ length work.now.writes.items }
    requires few { length work.now.writes.items < 2 ^ 32 }
    ensures { IfOk result (λ todos. todos.items ≡ todos_by work.now.rounds.items work.now.writes.items writer) }
{
    let mut todos = Vec::new(alloc);
    'sharing: for number in 0..work.writes.len() {
        let todo = Todo {
            number: number as u32,
            round: work.rounds[number],
            write: work.writes[number],
        };
        keep(&mut todos, todo, writer)?;
    }
    Ok(todos)
}

// How many nodes these writes open.
fn nodes_of(stack: &Stack, todos: &[Todo]) -> u32
    requires stack { IsStack stack.now }
    requires writes { All (λ todo. IsWrite stack.now todo.write) todos.now }
    requires few { nodes_of stack.now todos.now < 2 ^ 32 }
    ensures { result ≡ nodes_of stack.now todos.now }
{
    let mut nodes = 0;
    'counting: for number in 0..todos.len() {
        let todo = todos[number];
        nodes += need(stack, &todo.write).nodes as u32;
    }
    nodes
}

// Adds the writer of these writes, if there is one.
fn add_writer(writer: u32, todos: Vec<Todo>, kinds: &mut Vec<Kind>) -> Result<(), AllocError>
    ensures { OnOk result (AddsTasks kinds.old.items (writer_with writer todos.items) kinds.new.items) }
{
    if !todos.is_empty() {
        kinds.push(Kind::Writer(Writer::new(writer, Todos::new(todos))))?;
    }
    Ok(())
}

// Opens the writer of a number, if it has a write, and counts the places of its book.
fn open_writer(
    alloc: Global,
    stack: &Stack,
    work: &Work,
    writer: u32,
    kinds: &mut Vec<Kind>,
    places: &mut [u32; 8],
) -> Result<(), AllocError>
    requires stack { IsStack stack.now }
    requires shared { AreServableWrites stack.now work.now.rounds.items work.now.writes.items }
    requires small { writer < 8 }
    ensures kinds { OnOk result (AddsTasks kinds.old.items (writers_among work.now (writer ∷ [])) kinds.new.items) }
    ensures places { OnOk result (places.new ≡ slice_set places.old writer (book_places stack.now work.now writer)) }
{
    let todos = todos_by(alloc, work, writer)?;
    places[writer as usize] = nodes_of(stack, &todos);
    add_writer(writer, todos, kinds)?;
    Ok(())
}

// Opens the writers of a text, in the order of their numbers, and counts the places of each one's book.
pub(crate) fn open_writers(
    alloc: Global,
    stack: &Stack,
    work: &Work,
    kinds: &mut Vec<Kind>,
    places: &mut [u32; 8],
) -> Result<(), AllocError>
    requires stack { IsStack stack.now }
    requires shared { AreServableWrites stack.now work.now.rounds.items work.now.writes.items }
    ensures kinds { OnOk result (AddsTasks kinds.old.items (writers_in work.now) kinds.new.items) }
    ensures places { OnOk result (ArePlaced stack.now work.now.rounds.items work.now.writes.items most_writers places.new) }
{
    'opening: for writer in 0..8 {
        open_writer(alloc, stack, work, writer, kinds, places)?;
    }
    Ok(())
}
