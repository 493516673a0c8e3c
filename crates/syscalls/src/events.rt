//! Events.

/// One step of one process: an instruction, or one name of a call's path. (own)
#[derive(Clone, Copy, PartialEq, Eq)]
pub struct Event {
    /// The number of the process, 0 to 15.
    pub process: u8,
    /// The byte that the instruction may be given.
    pub input: u8,
    /// Whether the kernel refuses where it may.
    pub refuse: bool,
}
