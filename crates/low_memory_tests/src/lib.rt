//! Tests of calls for which there is no memory, and nothing else. The system refuses in earnest: all that it gives is taken first.
//! So they stand in a crate of their own, which `rt test` and the gate run: the allocator that `rt try` brings ends the
//! program where the system gives none.
#![tactic(auto)]

#[cfg(test)]
mod calls;
#[cfg(test)]
mod inputs;
#[cfg(test)]
mod memory;
#[cfg(test)]
mod refusals;
