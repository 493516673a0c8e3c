//! How much there may be of each thing. (own, but for names and paths: open(2), ENAMETOOLONG; links: open(2), ELOOP)

/// Nodes made in a tree, its root and removed ones counted.
pub const MAX_NODES: usize = 1024;

/// Bytes of a file.
pub const MAX_BYTES: usize = 4096;

/// Bytes of a node's name.
pub const MAX_NAME: usize = 255;

/// Bytes of a path, and of a link's target.
pub const MAX_PATH: usize = 1023;

/// Links that one lookup follows.
pub const MAX_LINKS: u8 = 32;

/// Processes made in a run, those that have ended counted.
pub const MAX_PROCESSES: usize = 16;

/// Descriptors of one process.
pub const MAX_DESCRIPTORS: usize = 16;

/// Registers of a process: it has always so many.
pub const REGISTERS: usize = 8;

/// Messages of one queue.
pub const MAX_MESSAGES: usize = 16;

/// Instructions of a program.
pub const MAX_INSTRUCTIONS: usize = 256;

/// Bytes of the name of a program or a grant.
pub const MAX_WORD: usize = 16;

/// Programs of a task.
pub const MAX_PROGRAMS: usize = 8;

/// Grants of a task.
pub const MAX_GRANTS: usize = 8;

/// Socket pairs that a task starts with.
pub const MAX_PAIRS: u8 = 32;

/// Rights, without their other names.
pub const RIGHTS: usize = 46;

/// Those of them that every task may name, which come first.
pub const PLAIN_RIGHTS: usize = 14;

/// Fcntl commands.
pub const COMMANDS: usize = 2;

/// Events of a schedule's text.
pub const MAX_EVENTS: usize = 65_536;
