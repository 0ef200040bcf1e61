// What the arguments ask.
ghost use Rattle.time_queries.specs.Task.{Asked};

use text::numbers::read_decimal;
use text::operations::Operation;

// An operation, and how many times it is called.
#[derive(Clone, Copy)]
pub struct Task {
    pub operation: Operation,
    pub times: u64,
}

// `arguments` is their count, the program's name among them. An argument that is missing is empty. A wrong task is none.
pub(crate) fn parse(arguments: usize, name: &[u8], number: &[u8]) -> Option<Task>
    ensures { Asked arguments name.now number.now result }
{
    if arguments != 3 {
        return None;
    }
    let times = read_decimal(number)?;
    let operation = Operation::named(name)?;
    Some(Task { operation, times })
}
