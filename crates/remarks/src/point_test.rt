//! What may hold at a point of a program, as a value: by it points are gathered, flagged and asked.

/// What may hold at a point of a program.
#[derive(Clone, Copy)]
pub(crate) enum PointTest<'f> {
    /// It has a bound.
    Bounded,
    /// Its instruction is a call,
    Calls,
    /// one that works on what a descriptor is of,
    Works,
    /// one that may name a number,
    Names(u32),
    /// or one that may close it.
    Closes(u32),
    /// In the mode, a number may hold there what lies in no grant.
    Stray(u32),
    /// A process may be there in the mode or outside it, and goes on.
    Unsettled,
    /// A process comes from there to such a point without entering the mode.
    Skipping,
    /// The same two of a marked program, by the flags of the points at which a process may be in the mode or not.
    UnsettledMarked(&'f [bool]),
    SkippingMarked(&'f [bool]),
    /// A process may be there in the mode or, where the bounds don't tell what comes behind it, enter it there.
    MayEnter {
        is_untold: bool,
    },
    /// In the mode, a way begins there with a number open that no instruction names from there on, where some work on others.
    Idle {
        named: &'f [bool],
        worked: &'f [bool],
        number: u32,
    },
    /// Two numbers may be both ends of a pair there,
    Both(u32, u32),
    /// and stay open from there on, and the point goes on.
    Doubled {
        closed: &'f [bool],
        others: &'f [bool],
        number: u32,
        other: u32,
    },
    /// It isn't flagged.
    Unflagged(&'f [bool]),
}
