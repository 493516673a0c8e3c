//! The status flags of a description, as fcntl tells and sets them.

ghost use Rattle.std.specs.Prelude.{◌≡◌};
ghost use Rattle.fd_table.specs.Descriptions.{status_number};
ghost use Rattle.fd_table.specs.Views.{state_at};

/// What a description does with each write, and where it can't go on. (fcntl(2), O_APPEND and O_NONBLOCK)
#[derive(Clone, Copy, PartialEq, Eq)]
pub struct Status {
    /// Each write goes to the end.
    pub append: bool,
    /// A call that would wait fails.
    pub nonblock: bool,
}

impl Status {
    /// The flags as a number, as `fcntl_getfl` gives it: append 1, nonblock 2. (own)
    pub fn number(self) -> u8
        ensures { result ≡ status_number (state_at self) }
    {
        match (self.append, self.nonblock) {
            (false, false) => 0,
            (true, false) => 1,
            (false, true) => 2,
            (true, true) => 3,
        }
    }
}
