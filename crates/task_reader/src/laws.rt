//! Laws of the reading of tasks. Each is the contract of a function that does nothing.

ghost use Rattle.task_reader.specs.Laws.{PathsAreTexts, TasksReadAreValid};

/// What some bytes are read as is a valid plan, by the definitions alone.
pub fn tasks_read_are_valid()
    ensures { TasksReadAreValid }
{}

/// A path is the text of the place that it is read as, and each place whose names are path names is read back from its
/// text: `/` for the root, else each name after a `/`.
pub fn paths_are_texts()
    ensures { PathsAreTexts }
{}
