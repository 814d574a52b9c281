// The tasks of a board; task 0 is the grant task.
use crate::id::{Id, Kind};

// The kind of a task's number.
pub enum TaskKind {}

impl Kind for TaskKind {
    const NAME: &'static str = "Task";
}

pub type Task = Id<TaskKind>;
