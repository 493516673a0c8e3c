//! What the program can be asked to do.

ghost use Rattle.std.specs.Prelude.{◌≡◌, ◌↔◌, ◌∷◌, [], IsTrue, map, string_bytes};
ghost use Rattle.command_line.specs.Orders.{order_words};
ghost use Rattle.command_line.specs.OrderViews.{order_of};

/// What the program is asked to do. It borrows the names from the words.
#[derive(Clone, Copy, PartialEq, Eq)]
pub enum Order<'a> {
    /// The example: no words at all.
    Example,
    /// `run TASK SCHEDULE`: to run a task over the events of a schedule.
    Run { task: &'a str, schedule: &'a str },
    /// `check TASK CERT`: to check a task's certificate.
    Check { task: &'a str, cert: &'a str },
    /// `report TASK CERT`: to tell what a task's certificate says of its grants.
    Report { task: &'a str, cert: &'a str },
    /// `search TASK`: to propose a certificate of a task.
    Search { task: &'a str },
    /// `expand TASK CERT`: to write out the bounds that a task's certificate leaves to be carried.
    Expand { task: &'a str, cert: &'a str },
}

/// Whether two words are the line of this order.
fn is_search(command: &str, first: &str, order: Order<'_>) -> bool
    ensures { IsTrue result ↔ (command.now ∷ first.now ∷ [] ≡ order_words (order_of order.entry)) }
{
    match order {
        Order::Search { task } => command == "search" && first == task,
        Order::Example
        | Order::Run { .. }
        | Order::Check { .. }
        | Order::Report { .. }
        | Order::Expand { .. } => false,
    }
}

/// Whether three words are the line of this order.
fn is_command(command: &str, first: &str, second: &str, order: Order<'_>) -> bool
    ensures { IsTrue result ↔ (command.now ∷ first.now ∷ second.now ∷ [] ≡ order_words (order_of order.entry)) }
{
    match order {
        Order::Example | Order::Search { .. } => false,
        Order::Run { task, schedule } => command == "run" && first == task && second == schedule,
        Order::Check { task, cert } => command == "check" && first == task && second == cert,
        Order::Report { task, cert } => command == "report" && first == task && second == cert,
        Order::Expand { task, cert } => command == "expand" && first == task && second == cert,
    }
}

/// Whether the words are the line of this order.
pub(crate) fn is_line_of(words: &[String], order: Order<'_>) -> bool
    ensures { IsTrue result ↔ (map string_bytes words.now ≡ order_words (order_of order.entry)) }
{
    match words {
        [] => matches!(order, Order::Example),
        [command, first] => is_search(command.as_str(), first.as_str(), order),
        [command, first, second] => is_command(
            command.as_str(),
            first.as_str(),
            second.as_str(),
            order,
        ),
        _ => false,
    }
}
